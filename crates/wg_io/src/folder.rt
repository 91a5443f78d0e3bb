// Files of the system.
ghost use Rattle.std.specs.Prelude.{◌≡◌, ◌<◌, ◌≤◌, IfOk, length};

use crate::open_files::OpenFiles;
use crate::pipe::{Pipe, read_first, read_open};
use crate::stream::write_some;
use crate::tally::Tally;
use std::fs::{File, OpenOptions};
use std::io::{self, ErrorKind};
use std::marker::Model;
use std::os::unix::fs::FileExt;
use std::rt::Files;
use wg_outside::{Depot, ReadError, WriteError};

/// Files of the system, by their paths. It tells no bytes, and counts for all names together.
///
/// The four files that were first read last stay open, and so do the four that were first appended to last: files that
/// are read or written in pieces, in turn too, cost one call of the system a piece. Each holds a copy of its name; if
/// there is no memory for it, the next call opens the file anew. A file that others put under the name of an open one
/// goes unseen.
///
/// A file that can't be positioned, as a pipe or a terminal, is read in order: once, from its first byte on. The byte
/// at 2^46, which is asked for before the first one, is answered as if it were not there, and a read at any other place
/// than where the last one ended is refused. Such a file stays open whatever else is read, for a pipe that is opened
/// again may wait for ever; if there is no memory for its name, the read is out of memory.
#[derive(Debug, Drop)]
pub struct FolderDepot<R: Files<File = File> + AllocGlobal + Drop> {
    rt: R,
    tally: Tally,
    read: OpenFiles,
    appended: OpenFiles,
    pipes: Vec<Pipe>,
}

impl<R: Files<File = File> + AllocGlobal + Drop> Model for FolderDepot<R> {
    ghost use Rattle.wg_outside.specs.Outside.{Counts};

    ghost Value = { Counts };

    ghost view = { λ a. a.tally };
}

impl<R: Files<File = File> + AllocGlobal + Drop> FolderDepot<R> {
    /// A depot of all files of the system, before its first call. It holds nothing yet.
    pub fn new(rt: R) -> FolderDepot<R>
        ensures { result ≡ record { read_faults = 0; write_faults = 0; absences = 0; wants = 0 } }
    {
        let alloc = rt.alloc();
        FolderDepot {
            rt,
            tally: Tally::new(),
            read: OpenFiles::new(alloc),
            appended: OpenFiles::new(alloc),
            pipes: Vec::new(alloc),
        }
    }
}

impl<R: Files<File = File> + AllocGlobal + Drop> Depot for FolderDepot<R> {
    ghost use Rattle.std.specs.Prelude.{false};
    ghost use Rattle.std.specs.FinMap as map;

    ghost told = { false };

    ghost files = { λ _. map.empty };

    ghost counts = { λ d _. d };

    fn read(&mut self, name: &str, at: u64, buf: &mut [u8]) -> Result<usize, ReadError> {
        match read_at(&self.rt, &mut self.read, &mut self.pipes, name, at, buf) {
            Ok(count) => Ok(count),
            Err(error) => {
                self.read.close(name);
                Err(self.tally.refused_read(error.kind()))
            }
        }
    }

    fn create(&mut self, name: &str) -> Result<(), WriteError> {
        self.read.close(name);
        self.appended.close(name);
        match create_at(&self.rt, name) {
            Ok(()) => Ok(()),
            Err(error) => Err(self.tally.refused_write(error.kind())),
        }
    }

    fn append(&mut self, name: &str, piece: &[u8]) -> Result<usize, WriteError> {
        self.read.close(name);
        match append_to(&self.rt, &mut self.appended, name, piece) {
            Ok(count) => Ok(count),
            Err(error) => {
                self.appended.close(name);
                Err(self.tally.refused_write(error.kind()))
            }
        }
    }
}

// A positioned read, for some file systems refuse a seek to an offset that a read may well ask for; and in what can't
// be positioned one in order.
fn read_at<R: Files<File = File> + AllocGlobal>(
    rt: &R,
    open: &mut OpenFiles,
    pipes: &mut Vec<Pipe>,
    name: &str,
    at: u64,
    buf: &mut [u8],
) -> io::Result<usize>
    ensures { IfOk result (λ count. count ≤ length buf.new) }
{
    if let Some(file) = open.get(name) {
        return file.read_at(buf, at);
    }
    if let Some(read) = read_open(pipes, name, at, buf) {
        return read;
    }
    let file = File::open(rt, name)?;
    match file.read_at(buf, at) {
        Ok(count) => {
            open.hold(rt.alloc(), name, file);
            Ok(count)
        }
        Err(error) if error.kind() == ErrorKind::NotSeekable => {
            read_first(rt.alloc(), pipes, name, file, at, buf)
        }
        Err(error) => Err(error),
    }
}

// Makes a file anew.
fn create_at<R: Files<File = File>>(rt: &R, name: &str) -> io::Result<()> {
    File::create(rt, name)?;
    Ok(())
}

fn append_to<R: Files<File = File> + AllocGlobal>(
    rt: &R,
    open: &mut OpenFiles,
    name: &str,
    piece: &[u8],
) -> io::Result<usize>
    ensures { IfOk result (λ count. (0 < count) × (count ≤ length piece.now)) }
{
    if let Some(file) = open.get(name) {
        return write_some(file, piece);
    }
    let mut file = OpenOptions::new().append(true).create(true).open(rt, name)?;
    let count = write_some(&mut file, piece)?;
    open.hold(rt.alloc(), name, file);
    Ok(count)
}
