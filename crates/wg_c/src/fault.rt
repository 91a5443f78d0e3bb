//! A fault, as C sees it.
ghost use Rattle.std.specs.Prelude.{◌≡◌, ◌⊎◌, [], ◌∷◌};
ghost use Rattle.wg_grammar.specs.declared.fault.ArchiveFault.{ArchiveFault};
ghost use Rattle.wg_grammar.specs.declared.error.ReadError.TheVariants as errors;
ghost use Rattle.wg_c.specs.Answers.{OneOf};
ghost use Rattle.wg_c.specs.Faults.{fault_in, number_of_field, number_of_kind, of_word};

use crate::status::{BAD_ARCHIVE, MEMORY};
use std::convert::Infallible;
use wg_grammar::{ArchiveFault, Field, Kind, OffsetWord, ReadError};

/// The first fault of an archive, in numbers.
///
/// `which` is 0 for none, 1 for a field of a record, 2 for the tail, 3 for too few arcs, 4 for a length that the
/// offsets tell otherwise, and from 5 on for a word of the offsets: cut, no word, the first not 0, too far, and their
/// tail. `page` is the page or the number of the word; `at` the bit, or the arcs that there are; `found` and `stored`
/// are the lengths. A field is 0 for the outdegree up to 9 for the whole record, and a kind 0 for cut up to 6 for
/// twice, both in the order in which `wg_grammar` declares them.
#[repr(C)]
#[derive(Clone, Copy, Drop)]
pub struct WgFault {
    pub which: u32,
    pub field: u32,
    pub kind: u32,
    pub page: u64,
    pub at: u64,
    pub found: u64,
    pub stored: u64,
}

fn number_of_field(field: Field) -> u32
    ensures { result ≡ number_of_field field }
{
    match field {
        Field::Outdegree => 0,
        Field::Reference => 1,
        Field::BlockCount => 2,
        Field::Block => 3,
        Field::Copied => 4,
        Field::IntervalCount => 5,
        Field::Left => 6,
        Field::Length => 7,
        Field::Residual => 8,
        Field::Record => 9,
    }
}

fn number_of_kind(kind: Kind) -> u32
    ensures { result ≡ number_of_kind kind }
{
    match kind {
        Kind::Cut => 0,
        Kind::NoWord => 1,
        Kind::Range => 2,
        Kind::Chain => 3,
        Kind::Total => 4,
        Kind::Copied => 5,
        Kind::Twice => 6,
    }
}

fn plain(which: u32, page: u64, at: u64) -> WgFault
    ensures { result ≡ record { which = which; field = 0; kind = 0; page = page; at = at; found = 0; stored = 0 } }
{
    WgFault {
        which,
        field: 0,
        kind: 0,
        page,
        at,
        found: 0,
        stored: 0,
    }
}

/// A fault of the offsets.
pub fn word_in(word: OffsetWord) -> WgFault
    ensures { result ≡ of_word word }
{
    match word {
        OffsetWord::Cut(number) => plain(5, number, 0),
        OffsetWord::NoWord(number) => plain(6, number, 0),
        OffsetWord::First => plain(7, 0, 0),
        OffsetWord::TooFar(number) => plain(8, number, 0),
        OffsetWord::Tail(at) => plain(9, 0, at),
    }
}

/// A fault of an archive.
pub fn fault_in(fault: ArchiveFault) -> WgFault
    ensures { result ≡ fault_in fault }
{
    match fault {
        ArchiveFault::Record(found) => WgFault {
            which: 1,
            field: number_of_field(found.field),
            kind: number_of_kind(found.kind),
            page: found.page,
            at: found.at,
            found: 0,
            stored: 0,
        },
        ArchiveFault::Tail(at) => plain(2, 0, at),
        ArchiveFault::ArcsShort(arcs) => plain(3, 0, arcs),
        ArchiveFault::Length {
            page,
            found,
            stored,
        } => WgFault {
            which: 4,
            field: 0,
            kind: 0,
            page,
            at: 0,
            found,
            stored,
        },
        ArchiveFault::Offsets(word) => word_in(word),
    }
}

/// The status of an archive in memory that was not read, and its fault.
pub fn status_of(error: ReadError<ArchiveFault, Infallible>, fault: &mut WgFault) -> u32
    ensures fault { result ≡ 9 → (f : ArchiveFault) × (error ≡ errors.Fault f) × (fault.new ≡ fault_in f) }
    ensures only { OneOf (3 ∷ 9 ∷ []) result }
    ensures untold { (result ≡ 9) ⊎ (fault.new ≡ fault.old) }
{
    match error {
        ReadError::Fault(found) => {
            *fault = fault_in(found);
            BAD_ARCHIVE
        }
        ReadError::Memory => MEMORY,
        ReadError::Refused(never) => match never {},
    }
}
