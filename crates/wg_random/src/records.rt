//! Records that were checked.
ghost use Rattle.std.specs.Prelude.{◌≡◌, ◌+◌, ◌≤◌, ℕ, List, IfOk, IfErr, Ok, Err, get_or, length};
ghost use Rattle.wg_outside.specs.declared.limits.TheConstants.{MOST_BYTES};
ghost use Rattle.wg_bits.specs.Bits.{bits_of};
ghost use Rattle.wg_grammar.specs.Archive.{Accepted, ReadsGraph};
ghost use Rattle.wg_grammar.specs.Laws.{accepted_graph};
ghost use Rattle.wg_offsets.specs.Places.{ArePlaces};
ghost use Rattle.wg_random.specs.Checked.{StandsForGraph};
ghost use Rattle.wg_stream.specs.Sweeping.{PassFinds};
ghost use Rattle.wg_random.specs.Checking.{OfArchive};

use crate::{Archive, CheckError};
use std::alloc::{AllocError, Global};
use std::marker::Model;
use wg_grammar::ReadError;
use wg_offsets::Offsets;
use wg_params::Params;
use wg_stream::{Passed, Sweep, pass};

/// The bits of a graph file that stand for one graph, and where their records are.
///
/// It is seen as its parameters, the bits, and the offsets. It holds 8 bytes a page.
#[derive(Debug)]
pub struct Records<'a> {
    pub(crate) bytes: &'a [u8],
    pub(crate) params: Params,
    pub(crate) offsets: Offsets,
    // the greatest outdegree
    pub(crate) greatest: u64,
}

impl<'a> Drop for Records<'a> {
    fn drop(self) {
        let Records {
            bytes,
            params,
            offsets,
            greatest,
        } = self;
    }
}

impl<'a> Model for Records<'a> {
    ghost use Rattle.std.specs.Prelude.{◌≤◌, length};
    ghost use Rattle.wg_outside.specs.declared.limits.TheConstants.{MOST_BYTES};
    ghost use Rattle.wg_bits.specs.Bits.{bits_of};
    ghost use Rattle.wg_random.specs.Checked.{CheckedRecords};
    ghost use Rattle.wg_stream.specs.Sweeping.{PassFinds};

    ghost Value = { CheckedRecords };

    ghost view = { λ r. record { params = r.params; bits = bits_of r.bytes.now; offsets = r.offsets } };

    ghost invariant = { λ r. (length r.bytes.now ≤ MOST_BYTES)
        × PassFinds r.params (bits_of r.bytes.now) r.offsets r.greatest };
}

impl<'a> Records<'a> {
    /// Validates the records of all pages, the tail and the number of arcs, and keeps where the records are and the
    /// greatest outdegree. It takes one pass over the bytes and the lists.
    pub fn check(alloc: Global, bytes: &'a [u8], params: Params) -> Result<Records<'a>, CheckError>
        requires { length bytes.now ≤ MOST_BYTES }
        ensures params { IfOk result (λ r. r.params ≡ params) }
        ensures bits { IfOk result (λ r. r.bits ≡ bits_of bytes.now) }
        ensures graph { IfOk result (λ r. (graph : List (List ℕ))
            × ReadsGraph params (bits_of bytes.now) (Ok (record { graph = graph; places = r.offsets }))) }
        ensures refused { IfErr result (λ e. OfArchive e (λ f. ReadsGraph params (bits_of bytes.now) (Err f))) }
    {
        match pass(alloc, bytes, params) {
            Ok(found) => Ok(Records::of_pass(bytes, params, found)),
            Err(ReadError::Fault(fault)) => Err(CheckError::Archive(fault)),
            Err(ReadError::Memory) => Err(CheckError::Memory),
            Err(ReadError::Refused(never)) => match never {},
        }
    }

    /// The records that a pass has validated, with what it found. It takes no memory, and constant time.
    pub fn of_pass(bytes: &'a [u8], params: Params, found: Passed) -> Records<'a>
        requires short { length bytes.now ≤ MOST_BYTES }
        requires finds { PassFinds params (bits_of bytes.now) found.offsets found.greatest }
        ensures params { result.params ≡ params }
        ensures bits { result.bits ≡ bits_of bytes.now }
        ensures offsets { result.offsets ≡ found.offsets }
    {
        Records {
            bytes,
            params,
            offsets: found.offsets,
            greatest: found.greatest,
        }
    }

    /// The lists of the graph in the order of the pages, as often as one likes. All memory is taken now: the rows of
    /// the [`Sweep`]. The records are not passed over again.
    pub fn sweep(&self, alloc: Global) -> Result<Sweep<'a>, AllocError>
        ensures graph { (a : Accepted) → ReadsGraph self.now.params self.now.bits (Ok a)
            → IfOk result (λ s. s.graph ≡ accepted_graph self.now.params a) }
        ensures place { IfOk result (λ s. s.place ≡ 0) }
        ensures stands { StandsForGraph self.now }
    {
        Sweep::with_room(alloc, self.bytes, self.params, self.greatest)
    }

    /// The bit where the record of a page begins; and of the number of pages, the bit after the last record.
    pub fn offset(&self, page: u64) -> u64
        requires { page ≤ self.now.params.nodes }
        ensures value { result ≡ get_or self.now.offsets page 0 }
        ensures count { length self.now.offsets ≡ self.now.params.nodes + 1 }
        ensures places { ArePlaces self.now.offsets }
        ensures stands { StandsForGraph self.now }
    {
        // tells that they are places
        self.offsets.len();
        self.offsets.place(page)
    }

    /// The archive whose pages are found by these records. It takes no memory, and no offsets file.
    pub fn archive<'b>(&'b self) -> Archive<'b>
    where
        'a: 'b,
        ensures { result ≡ self.now }
    {
        Archive {
            bytes: self.bytes,
            params: self.params,
            offsets: &self.offsets,
        }
    }
}
