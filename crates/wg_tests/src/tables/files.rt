// Files of the system, files of zeros, and sinks that take nothing.
use std::alloc::Global;
use std::fs;
use std::io::{self, Write};
use std::process::Abort;
use std::test::Fail;
use wg_io::{
    Depot, FolderDepot, LoadError, MOST_BYTES, ReadError, StdSink, WriteError, ZeroDepot,
    append_all, read_whole, write_all,
};

const TEXT: &[u8] = b"pages and their successors";

// Makes a file of two pieces.
fn is_made<D: Depot>(depot: &mut D, name: &str) -> Result<(), Fail> {
    depot.create(name)?;
    append_all(depot, name, b"pages and ")?;
    append_all(depot, name, b"their successors")?;
    Ok(())
}

// How many bytes stand at this place, of eight at most, and which.
fn read_at<D: Depot>(depot: &mut D, name: &str, at: u64) -> Result<(usize, [u8; 8]), ReadError> {
    let mut buffer = [0u8; 8];
    let count = depot.read(name, at, &mut buffer)?;
    Ok((count, buffer))
}

// Whether the file of a name is the text.
fn is_text<D: Depot>(alloc: Global, depot: &mut D, name: &str) -> Result<bool, Fail> {
    let bytes = read_whole(alloc, depot, name)?;
    Ok(bytes.as_slice() == TEXT)
}

// A file that is absent is made, added to, and read at any place, by any of its names.
fn is_kept<D: Depot>(
    rt: &impl Abort,
    alloc: Global,
    depot: &mut D,
    name: &str,
    other: &str,
) -> Result<(), Fail> {
    assert!(rt; read_at(depot, name, 0).is_err());
    is_made(depot, name)?;
    assert!(rt; is_text(alloc, depot, name)?);
    assert!(rt; read_at(depot, other, 18)? == (8, *b"ccessors"));
    assert!(rt; read_at(depot, name, MOST_BYTES)?.0 == 0);
    Ok(())
}

#[test]
fn a_file_of_the_system(rt: HostRuntime) -> Result<(), Fail> {
    let (name, other) = ("wg_io_file.tmp", "./wg_io_file.tmp");
    is_kept(&rt, rt.alloc(), &mut FolderDepot::new(&rt), name, other)?;
    fs::remove_file(&rt, name)?;
    Ok(())
}

// A stream that takes nothing.
#[derive(Drop)]
struct Full;

impl Write for Full {
    fn write(&mut self, _: &[u8]) -> io::Result<usize> {
        Ok(0)
    }

    fn flush(&mut self) -> io::Result<()> {
        Ok(())
    }
}

#[test]
fn a_stream_that_takes_nothing(rt: HostRuntime) {
    let mut sink = StdSink::new(Full);
    assert!(rt; write_all(&mut sink, TEXT) == Err(WriteError::Failed));
}

#[test]
fn files_of_zeros(rt: HostRuntime) -> Result<(), Fail> {
    let mut zeros = ZeroDepot::new("zeros", 5);
    let bytes = read_whole(rt.alloc(), &mut zeros, "zeros")?;
    assert!(rt; bytes.as_slice() == [0; 5].as_slice());
    assert!(rt; zeros.append("zeros", TEXT) == Err(WriteError::Failed));
    let mut longest = ZeroDepot::new("zeros", MOST_BYTES + 1);
    let error = read_whole(rt.alloc(), &mut longest, "zeros").err();
    assert!(rt; error == Some(LoadError::TooLong));
    Ok(())
}
