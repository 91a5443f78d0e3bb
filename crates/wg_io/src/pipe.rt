// Files that can be read in order alone.
ghost use Rattle.std.specs.Prelude.{◌≤◌, IfOk, IfSome, length};

use std::alloc::Global;
use std::fs::File;
use std::io::{self, ErrorKind, Read};
use wg_outside::MOST_BYTES;

/// An open file that can't be positioned, as a pipe or a terminal is.
#[derive(Debug, Drop)]
pub struct Pipe {
    name: String,
    file: File,
    // how many bytes were read
    at: u64,
}

impl Pipe {
    // Reads on where the last read ended. Elsewhere it reads nothing: whoever asks at the limit or past it, before the
    // bytes that come first, is told that there are none so far, and any other read is refused.
    fn read_at(&mut self, at: u64, buf: &mut [u8]) -> io::Result<usize>
        ensures { IfOk result (λ count. count ≤ length buf.new) }
    {
        if at == self.at {
            let count = self.file.read(buf)?;
            self.at = self.at.saturating_add(count as u64);
            return Ok(count);
        }
        if at >= MOST_BYTES {
            return Ok(0);
        }
        Err(io::Error::from(ErrorKind::NotSeekable))
    }
}

/// Reads on in the pipe of this name, if one is open.
pub fn read_open(
    pipes: &mut [Pipe],
    name: &str,
    at: u64,
    buf: &mut [u8],
) -> Option<io::Result<usize>>
    ensures { IfSome result (λ read. IfOk read (λ count. count ≤ length buf.new)) }
{
    for pipe in pipes.iter_mut() {
        if pipe.name.as_str() == name {
            return Some(pipe.read_at(at, buf));
        }
    }
    None
}

/// Keeps a file open as a pipe of which nothing was read yet, and reads in it. Without memory to keep it nothing is
/// read.
pub fn read_first(
    alloc: Global,
    pipes: &mut Vec<Pipe>,
    name: &str,
    file: File,
    at: u64,
    buf: &mut [u8],
) -> io::Result<usize>
    ensures { IfOk result (λ count. count ≤ length buf.new) }
{
    let name = String::from_str(alloc, name)?;
    let index = pipes.len();
    pipes.push(Pipe { name, file, at: 0 })?;
    pipes[index].read_at(at, buf)
}
