//! The faults of records, of offsets and of whole archives, and their texts.
use std::fmt;
use thiserror::Error;

/// A field of a record, by its place in BVGraph's format, or what is checked beside the fields.
#[derive(Clone, Copy, Debug, PartialEq, Eq)]
pub enum Field {
    /// How many successors the page has.
    Outdegree,
    /// How many pages back the page lies that it copies from; 0 for none.
    Reference,
    /// How many copy blocks come.
    BlockCount,
    /// A copy block.
    Block,
    /// How many members are copied, checked after the blocks; it has no bits.
    Copied,
    /// How many intervals come.
    IntervalCount,
    /// The left end of an interval.
    Left,
    /// The length of an interval.
    Length,
    /// A successor that is neither copied nor inside an interval.
    Residual,
    /// The whole record.
    Record,
}

impl fmt::Display for Field {
    fn fmt<W: fmt::Write>(&self, f: &mut fmt::Formatter<W>) -> fmt::Result {
        f.write_str(match self {
            Field::Outdegree => "the outdegree",
            Field::Reference => "the reference",
            Field::BlockCount => "the number of blocks",
            Field::Block => "the block",
            Field::Copied => "the number of copied members",
            Field::IntervalCount => "the number of intervals",
            Field::Left => "the left end of an interval",
            Field::Length => "the length of an interval",
            Field::Residual => "the residual",
            Field::Record => "the record",
        })
    }
}

/// Why a field is refused.
#[derive(Clone, Copy, Debug, PartialEq, Eq)]
pub enum Kind {
    /// The file ends inside a word.
    Cut,
    /// No word of the field's code begins with these bits.
    NoWord,
    /// The value is out of its range.
    Range,
    /// More references lead from page to page than the archive allows.
    Chain,
    /// The outdegrees add to more than the archive's arcs.
    Total,
    /// More members are copied than the page has successors.
    Copied,
    /// A successor stands twice, so that there are too few.
    Twice,
}

impl fmt::Display for Kind {
    fn fmt<W: fmt::Write>(&self, f: &mut fmt::Formatter<W>) -> fmt::Result {
        f.write_str(match self {
            Kind::Cut => "is cut by the end of the file",
            Kind::NoWord => "is no word of its code",
            Kind::Range => "is out of range",
            Kind::Chain => "makes a chain of too many references",
            Kind::Total => "makes too many arcs",
            Kind::Copied => "is greater than the outdegree",
            Kind::Twice => "has a successor twice",
        })
    }
}

/// The first fault of a record.
#[derive(Clone, Copy, Debug, PartialEq, Eq, Error)]
#[error("page {page}: {field} at bit {at} {kind}")]
pub struct Fault {
    /// The page of the record.
    pub page: u64,
    /// The bit at which the refused field begins.
    pub at: u64,
    /// The refused field.
    pub field: Field,
    /// Why it is refused.
    pub kind: Kind,
}

/// The first fault of the words of an offsets file, which are counted from 0.
#[derive(Clone, Copy, Debug, PartialEq, Eq, Error)]
pub enum OffsetWord {
    /// The file ends inside this word.
    #[error("word {0} of the offsets is cut by the end of the file")]
    Cut(u64),
    /// No word of the code begins with the bits of this word.
    #[error("word {0} of the offsets is no word of its code")]
    NoWord(u64),
    /// Word 0 is not 0.
    #[error("word 0 of the offsets is not 0")]
    First,
    /// With this word the place passes the last bit that a graph file may have.
    #[error("word {0} of the offsets leads past the longest graph file")]
    TooFar(u64),
    /// The bit after the words that is a one, or the 128th there.
    #[error("no tail of the offsets at bit {0}")]
    Tail(u64),
}

/// The first fault of an archive.
#[derive(Clone, Copy, Debug, PartialEq, Eq, Error)]
pub enum ArchiveFault {
    /// A record is refused.
    #[error("{0}")]
    Record(Fault),
    /// The bit after the records that is a one, or the 128th there.
    #[error("no tail at bit {0}")]
    Tail(u64),
    /// The outdegrees add to this, which is less than the archive's arcs.
    #[error("only {0} arcs")]
    ArcsShort(u64),
    /// A word of the offsets, or what follows them, is refused.
    #[error("{0}")]
    Offsets(OffsetWord),
    /// The first page whose stored length is not the length of its record; both in bits.
    #[error("page {page}: the record has {found} bits, and {stored} by the offsets")]
    Length { page: u64, found: u64, stored: u64 },
}
