//! The successors of several pages.
ghost use Rattle.std.specs.Prelude.{◌≡◌, ◌+◌, ◌<◌, ◌≤◌, length, get_or, IfErr, OnOk};
ghost use Rattle.wg_outside.specs.declared.limits.TheConstants.{MOST_BYTES};
ghost use Rattle.wg_bits.specs.Bits.{bits_of};
ghost use Rattle.wg_memory.specs.Many.{AreSpots, StopsAt, end_before};

use crate::arrays::{put, put_one};
use crate::placed::Fall;
use crate::spot::successors;
use std::alloc::Global;
use thiserror::Error;
use wg_grammar::{ArchiveFault, ReadError};
use wg_params::Params;

/// Why a page was not read.
#[derive(Clone, Copy, Debug, Drop, PartialEq, Eq, Error)]
pub enum Stop {
    /// There is no such page.
    #[error("no such page")]
    NoPage,
    /// Its list is longer than the room that is left.
    #[error("no room")]
    NoRoom,
    /// A record of its chain is refused, or falls, or memory ran out.
    #[error("{0}")]
    Unread(ReadError<ArchiveFault, Fall>),
}

/// How many pages were read before one that was not, and why that was not.
#[derive(Clone, Copy, Debug, Drop, PartialEq, Eq, Error)]
#[error("after {done} pages: {why}")]
pub struct Stopped {
    pub done: u64,
    pub why: Stop,
}

/// The successors of these pages, as [`successors`](crate::successors) tells them, one list after the other in `out`,
/// and for each page where its list ends, in `ends`. It stops at the first page that is not read.
pub fn successors_of(
    alloc: Global,
    params: &Params,
    graph: &[u8],
    places: &[u64],
    pages: &[u64],
    ends: &mut [u64],
    out: &mut [u64],
) -> Result<(), Stopped>
    requires short { length graph.now ≤ MOST_BYTES }
    requires many { length places.now ≡ params.now.nodes + 1 }
    requires ends { length pages.now ≤ length ends.old }
    ensures all { OnOk result (AreSpots params.now (bits_of graph.now) places.now pages.now (length pages.now) ends.new
        out.new) }
    ensures some { IfErr result (λ s. AreSpots params.now (bits_of graph.now) places.now pages.now s.done ends.new
        out.new) }
    ensures within { IfErr result (λ s. s.done < length pages.now) }
    ensures stops { IfErr result (λ s. StopsAt params.now (bits_of graph.now) places.now (get_or pages.now s.done 0)
        (end_before ends.new s.done) (length out.new) s.why) }
{
    let mut used = 0;
    for index in 0..pages.len() {
        let page = pages[index];
        let done = index as u64;
        if page >= params.nodes() {
            return Err(Stopped {
                done,
                why: Stop::NoPage,
            });
        }
        match successors(alloc, params, graph, places, page) {
            Ok(list) => {
                if list.as_slice().len() > out.len() - used {
                    return Err(Stopped {
                        done,
                        why: Stop::NoRoom,
                    });
                }
                used = put(out, used, list.as_slice());
            }
            Err(error) => {
                return Err(Stopped {
                    done,
                    why: Stop::Unread(error),
                });
            }
        }
        put_one(ends, index, used as u64);
    }
    Ok(())
}
