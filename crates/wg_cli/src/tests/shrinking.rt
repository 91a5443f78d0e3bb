//! A graph file that has lost its end when it is read again.
ghost use Rattle.std.specs.Prelude.{◌≤◌, length};

use super::ending::{Ending, words_of};
use std::alloc::{AllocError, Global};
use std::process::Abort;
use std::test::Fail;
use wg_io::MemorySink;
use wg_outside::{Depot, ReadError, WriteError};

// 4000 pages, each with itself as its one successor: a record of 4 bits, so that a byte holds two.
const PROPERTIES: &[u8] =
    b"graphclass=it.unimi.dsi.webgraph.BVGraph\nversion=0\nnodes=4000\narcs=4000\n\
    windowsize=0\nmaxrefcount=3\nminintervallength=0\ncompressionflags=RESIDUALS_GAMMA\n";

// The first reading of the graph file gives other bytes than all later ones. It tells no bytes, and each of its counts
// stands at its last value.
#[derive(Drop)]
struct ShrinkingDepot<'a> {
    first: Option<&'a [u8]>,
    later: &'a [u8],
}

impl<'a> Depot for ShrinkingDepot<'a> {
    ghost use Rattle.std.specs.Prelude.{false, ◌^◌, ◌-◌};
    ghost use Rattle.std.specs.FinMap as map;

    ghost told = { false };

    ghost files = { λ _. map.empty };

    ghost counts = { λ _ _. record { read_faults = 2 ^ 64 - 1; write_faults = 2 ^ 64 - 1; absences = 2 ^ 64 - 1; wants = 2 ^ 64 - 1 } };

    fn read(&mut self, name: &str, at: u64, buf: &mut [u8]) -> Result<usize, ReadError> {
        if name == "g.properties" {
            return Ok(copy_piece(PROPERTIES, at, buf));
        }
        if at > 0 {
            return Ok(copy_piece(self.later, at, buf));
        }
        let file = self.first.take().unwrap_or(self.later);
        Ok(copy_piece(file, at, buf))
    }

    fn create(&mut self, _name: &str) -> Result<(), WriteError> {
        Ok(())
    }

    fn append(&mut self, _name: &str, _piece: &[u8]) -> Result<usize, WriteError> {
        Err(WriteError::Failed)
    }
}

// Copies what stands in a file from an offset on, as far as the buffer goes.
fn copy_piece(file: &[u8], at: u64, buf: &mut [u8]) -> usize
    ensures { result ≤ length buf.new }
{
    let at = file.len().min(at as usize);
    let rest = &file[at..];
    let count = rest.len().min(buf.len());
    buf[..count].copy_from_slice(&rest[..count]);
    count
}

fn ending(alloc: Global, line: &str, depot: &mut ShrinkingDepot) -> Result<Ending, AllocError> {
    let words = words_of(alloc, line)?;
    let (out, err) = (MemorySink::new(alloc, 4096), MemorySink::new(alloc, 4096));
    Ok(Ending::of(alloc, &words, depot, out, err))
}

const GRAPH: [u8; 2000] = [0b0101_0101; 2000];

const REFUSAL: &[u8] = b"wg: g.graph: page 3000 bit 12000 outdegree cut\n";

// Whether a line that goes through the graph file twice prints a part of its text, and tells the fault that the second
// reading met.
fn stops_in_the_middle(alloc: Global, line: &str) -> Result<bool, AllocError> {
    let mut steady = ShrinkingDepot {
        first: None,
        later: &GRAPH,
    };
    let mut shrinking = ShrinkingDepot {
        first: Some(&GRAPH),
        later: &GRAPH[..1500],
    };
    let whole = ending(alloc, line, &mut steady)?;
    let part = ending(alloc, line, &mut shrinking)?;
    Ok(
        whole.is_done()
            && part.status() == 9
            && part.reported() == REFUSAL
            && is_front(&part, &whole),
    )
}

// Whether a part was printed, and not all.
fn is_front(part: &Ending, whole: &Ending) -> bool {
    let (part, whole) = (part.printed(), whole.printed());
    !part.is_empty() && part.len() < whole.len() && whole.starts_with(part)
}

#[test]
fn a_graph_file_that_shrinks(rt: HostRuntime) -> Result<(), Fail> {
    for line in ["arcs g", "offsets g"] {
        assert!(rt; stops_in_the_middle(rt.alloc(), line)?, "{line}");
    }
    Ok(())
}
