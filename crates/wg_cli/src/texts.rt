//! What is said of each fault, as short texts without memory.
ghost use Rattle.std.specs.Prelude.{◌≡◌, ◌≤◌, length};
ghost use Rattle.wg_cli.specs.Texts.{text_of_field, text_of_kind, text_of_arcs, text_of_line, text_of_properties};
ghost use Rattle.wg_cli.specs.Texts.{text_of_record, text_of_word, text_of_archive, no_page_line};
ghost use Rattle.wg_cli.specs.Texts.{text_of_number_kind, text_of_numbers, text_of_weights, text_of_claim_kind, text_of_certificate};
ghost use Rattle.wg_cli.specs.Texts.{text_of_plain_kind, text_of_plain};
ghost use Rattle.wg_outcomes.specs.Names.{file_of_fault};

use crate::Input;
use wg_arcs::{ArcsKind, NumbersFault, NumbersKind};
use wg_ascii::AsciiKind;
use wg_grammar::{ArchiveFault, Fault, Field, Kind, OffsetWord};
use wg_outcomes::{Text, WeightsFault};
use wg_properties::{PropFault, key_name};
use wg_rank::{CertFault, CertKind};

fn field(field: Field) -> &'static str
    ensures text { result.now ≡ text_of_field field }
    ensures short { length result.now ≤ 13 }
{
    match field {
        Field::Outdegree => "outdegree",
        Field::Reference => "reference",
        Field::BlockCount => "blockcount",
        Field::Block => "block",
        Field::Copied => "copied",
        Field::IntervalCount => "intervalcount",
        Field::Left => "left",
        Field::Length => "length",
        Field::Residual => "residual",
        Field::Record => "record",
    }
}

fn kind(kind: Kind) -> &'static str
    ensures text { result.now ≡ text_of_kind kind }
    ensures short { length result.now ≤ 6 }
{
    match kind {
        Kind::Cut => "cut",
        Kind::NoWord => "noword",
        Kind::Range => "range",
        Kind::Chain => "chain",
        Kind::Total => "total",
        Kind::Copied => "copied",
        Kind::Twice => "twice",
    }
}

fn arcs(kind: ArcsKind) -> &'static str
    ensures text { result.now ≡ text_of_arcs kind }
    ensures short { length result.now ≤ 8 }
{
    match kind {
        ArcsKind::Shape => "shape",
        ArcsKind::Range => "range",
        ArcsKind::Order => "order",
        ArcsKind::TooMany => "too many",
    }
}

/// A faulty line of an arc list.
pub fn line(line: u64, kind: ArcsKind) -> Text
    ensures { result ≡ text_of_line line kind }
{
    Text::new()
        .with("line ")
        .with_number(line)
        .with(": ")
        .with(arcs(kind))
}

/// A fault of a properties text.
#[tactic(auto, using(crate::proofs::KeyNames::short_name))]
pub fn properties(fault: PropFault) -> Text
    ensures { result ≡ text_of_properties fault }
{
    match fault {
        PropFault::Line(line) => Text::new().with("line ").with_number(line),
        PropFault::Missing(key) => Text::new().with("missing ").with(key_name(key)),
        PropFault::Number(key) => Text::new().with("number ").with(key_name(key)),
        PropFault::Range(key) => Text::new().with("range ").with(key_name(key)),
        PropFault::Class => Text::new().with("class"),
        PropFault::Version => Text::new().with("version"),
        PropFault::Flag(piece) => Text::new().with("flag ").with_number(piece),
        PropFault::Endian => Text::new().with("endianness"),
    }
}

fn record(fault: Fault) -> Text
    ensures { result ≡ text_of_record fault }
{
    Text::new()
        .with("page ")
        .with_number(fault.page)
        .with(" bit ")
        .with_number(fault.at)
        .with(" ")
        .with(field(fault.field))
        .with(" ")
        .with(kind(fault.kind))
}

fn word(fault: OffsetWord) -> Text
    ensures { result ≡ text_of_word fault }
{
    match fault {
        OffsetWord::Cut(word) => Text::new().with("word ").with_number(word).with(" cut"),
        OffsetWord::NoWord(word) => Text::new().with("word ").with_number(word).with(" noword"),
        OffsetWord::First => Text::new().with("first word"),
        OffsetWord::TooFar(word) => Text::new().with("word ").with_number(word).with(" too far"),
        OffsetWord::Tail(at) => Text::new().with("tail bit ").with_number(at),
    }
}

/// A fault of an archive, whose properties promise so many arcs.
pub fn archive(promised: u64, fault: ArchiveFault) -> Text
    ensures { result ≡ text_of_archive promised fault }
{
    match fault {
        ArchiveFault::Record(fault) => record(fault),
        ArchiveFault::Tail(at) => Text::new().with("tail bit ").with_number(at),
        ArchiveFault::ArcsShort(total) => Text::new()
            .with("arcs ")
            .with_number(total)
            .with(" of ")
            .with_number(promised),
        ArchiveFault::Offsets(fault) => word(fault),
        ArchiveFault::Length {
            page,
            found,
            stored,
        } => Text::new()
            .with("page ")
            .with_number(page)
            .with(" length ")
            .with_number(found)
            .with(" stored ")
            .with_number(stored),
    }
}

fn number_kind(kind: NumbersKind) -> &'static str
    ensures text { result.now ≡ text_of_number_kind kind }
    ensures short { length result.now ≤ 8 }
{
    match kind {
        NumbersKind::Shape => "shape",
        NumbersKind::Range => "range",
        NumbersKind::TooMany => "too many",
    }
}

/// A fault of a text of so many numbers.
pub fn numbers(wanted: u64, fault: NumbersFault) -> Text
    ensures { result ≡ text_of_numbers wanted fault }
{
    match fault {
        NumbersFault::Line { line, kind } => Text::new()
            .with("line ")
            .with_number(line)
            .with(": ")
            .with(number_kind(kind)),
        NumbersFault::Count(found) => Text::new()
            .with("count ")
            .with_number(found)
            .with(" of ")
            .with_number(wanted),
    }
}

/// A fault of the weights of so many pages.
pub fn weights(wanted: u64, fault: WeightsFault) -> Text
    ensures { result ≡ text_of_weights wanted fault }
{
    match fault {
        WeightsFault::Numbers(fault) => numbers(wanted, fault),
        WeightsFault::Zero => Text::new().with("sum zero"),
    }
}

fn plain_kind(kind: AsciiKind) -> &'static str
    ensures text { result.now ≡ text_of_plain_kind kind }
    ensures short { length result.now ≤ 8 }
{
    match kind {
        AsciiKind::Shape => "shape",
        AsciiKind::Range => "range",
        AsciiKind::Order => "order",
        AsciiKind::TooMany => "too many",
        AsciiKind::Extra => "extra",
        AsciiKind::Missing => "missing",
    }
}

/// A faulty line of an ASCIIGraph text.
pub fn plain(line: u64, kind: AsciiKind) -> Text
    ensures { result ≡ text_of_plain line kind }
{
    Text::new()
        .with("line ")
        .with_number(line)
        .with(": ")
        .with(plain_kind(kind))
}

fn claim_kind(kind: CertKind) -> &'static str
    ensures text { result.now ≡ text_of_claim_kind kind }
    ensures short { length result.now ≤ 7 }
{
    match kind {
        CertKind::Shape => "shape",
        CertKind::Pages => "pages",
        CertKind::Missing => "missing",
        CertKind::Extra => "extra",
    }
}

/// A fault of a certificate.
pub fn certificate(fault: CertFault) -> Text
    ensures { result ≡ text_of_certificate fault }
{
    match fault {
        CertFault::Line { line, kind } => Text::new()
            .with("line ")
            .with_number(line)
            .with(": ")
            .with(claim_kind(kind)),
        CertFault::Sum => Text::new().with("sum"),
        CertFault::Falls(page) => Text::new().with("page ").with_number(page).with(" falls"),
    }
}

/// The file in which the fault of an archive lies.
pub fn file_of_fault(fault: ArchiveFault) -> Input
    ensures { result ≡ file_of_fault fault }
{
    match fault {
        ArchiveFault::Record(_) | ArchiveFault::Tail(_) | ArchiveFault::ArcsShort(_) => {
            Input::Graph
        }
        ArchiveFault::Offsets(_) | ArchiveFault::Length { .. } => Input::Offsets,
    }
}

/// The line about a page that the graph does not have.
pub fn no_page(page: u64) -> Text
    ensures { result ≡ no_page_line page }
{
    Text::new()
        .with("wg: no page ")
        .with_number(page)
        .with("\n")
}
