ghost use Rattle.std.specs.Prelude.{◌≡◌, ◌<◌};

use std::alloc::Global;
use std::marker::Brand;
use std::process::Abort;
use std::sync::ledger::{Blank, Ledger};
use std::test::Fail;
use wg_bits::{Bits, Cursor};
use wg_codes::Read;
use wg_decoder::{Window, decode};
use wg_grammar::{OffsetWord, Source};
use wg_graph::Lists;
use wg_io::{Depot, SteadyDepot};
use wg_offsets::OffsetsError;
use wg_params::Code;
use wg_random::{Archive, Records, Steps};
use wg_shape::Coming;
use wg_source::{FileSource, Seek, Stretch};
use wg_stream::Reader;
use wg_vectors::usual;

// In the overview of wg_decoder.
#[test]
fn two_records(rt: HostRuntime) -> Result<(), Fail> {
    // 011 1 1 1011 100  011 01 1  1
    let mut cursor = Cursor::new(Bits::of(b"\x7D\xC6\xE0"), 0);
    let params = usual(3, 4, 7, 3, 4)?;
    let mut window = Window::new(rt.alloc(), &params);
    let first = decode(rt.alloc(), &params, 0, 0, &window, &mut cursor)?;
    assert!(rt; first.list.as_slice() == [1, 2].as_slice());
    window.push(first.list, first.depth)?;
    // page 1 copies the list of page 0
    let second = decode(rt.alloc(), &params, 1, 2, &window, &mut cursor)?;
    assert!(rt; second.list.as_slice() == [1, 2].as_slice());
    assert!(rt; second.depth == 1 && cursor.at() == 18);
    Ok(())
}

// In the overview of wg_offsets.
#[test]
fn offsets_of_three_records(rt: HostRuntime) -> Result<(), Fail> {
    // 1 0001101 00111 010: the words of 0, 12, 6 and 1
    let offsets = wg_offsets::read(rt.alloc(), b"\x8D\x3A", 3, Code::Gamma)?;
    assert!(rt; offsets.place(1) == 12 && offsets.place(2) == 18);
    assert!(rt; offsets.end() == 19);
    let cut = wg_offsets::read(rt.alloc(), b"\x8D", 3, Code::Gamma);
    let word = OffsetWord::Cut(2);
    assert!(rt; cut.err() == Some(OffsetsError::Word(word)));
    Ok(())
}

// In the overview of wg_source.
fn a_word_of_web<D: Depot>(rt: &impl Abort, depot: &mut D) -> Result<(), Fail> {
    let mut held = Stretch::new();
    let mut graph = FileSource::new(depot, "web.graph", &mut held);
    assert!(rt; graph.go_to(12)?);
    assert!(rt; graph.read(Code::Gamma)? == Read::Value(2));
    Ok(())
}

#[test]
fn a_word_of_a_graph_file(rt: HostRuntime) -> Result<(), Fail> {
    let mut depot = SteadyDepot::new(rt.alloc(), 4096);
    depot.put_file("web.graph", b"\x7D\xC6\xE0")?;
    a_word_of_web(&rt, &mut depot)
}

// In the overview of wg_stream.
fn web_is_read<D: Depot>(rt: &impl Abort, alloc: Global, depot: &mut D) -> Result<(), Fail> {
    let mut reader = Reader::new(alloc, usual(3, 4, 7, 3, 4)?, "web.graph")?;
    assert!(rt; reader.next(depot)? == Some([1, 2].as_slice()));
    assert!(rt; reader.at() == 12);
    Ok(())
}

#[test]
fn lists_of_a_graph_file(rt: HostRuntime) -> Result<(), Fail> {
    let mut depot = SteadyDepot::new(rt.alloc(), 4096);
    depot.put_file("web.graph", b"\x7D\xC6\xE0")?;
    web_is_read(&rt, rt.alloc(), &mut depot)
}

// In the overview of wg_iterators.
fn successors_one_by_one<L: Ledger>(
    rt: &impl Abort,
    alloc: Global,
    archive: &Archive<'_>,
    steps: &mut Steps<L>,
) -> Result<(), Fail> {
    let mut successors = archive.open(alloc, 1, steps)?;
    assert!(rt; successors.outdegree() == 2);
    assert!(rt; successors.next() == Some(1));
    assert!(rt; successors.next() == Some(2));
    assert!(rt; successors.next().is_none());
    Ok(())
}

fn first<C: Coming>(coming: &mut C) -> Option<u64> {
    coming.next()
}

// The successors of an opened page come one by one, as the numbers of a list do.
fn first_of_an_opened_page<L: Ledger>(
    rt: &impl Abort,
    alloc: Global,
    archive: &Archive<'_>,
    steps: &mut Steps<L>,
) -> Result<(), Fail> {
    let mut successors = archive.open(alloc, 1, steps)?;
    assert!(rt; first(&mut successors) == Some(1));
    Ok(())
}

// The successors of a page as a list, however short its chain of references is.
fn list_of_a_page<L: Ledger>(
    rt: &impl Abort,
    alloc: Global,
    archive: &Archive<'_>,
    steps: &mut Steps<L>,
) -> Result<(), Fail> {
    let list = archive.list(alloc, 1, steps)?;
    assert!(rt; list.as_slice() == [1, 2].as_slice());
    Ok(())
}

fn opened_pages<L: Ledger>(
    rt: &impl Abort,
    alloc: Global,
    archive: &Archive<'_>,
    steps: &mut Steps<L>,
) -> Result<(), Fail> {
    first_of_an_opened_page(rt, alloc, archive, steps)?;
    list_of_a_page(rt, alloc, archive, steps)?;
    successors_one_by_one(rt, alloc, archive, steps)
}

fn counted<L: Ledger>(rt: &impl Abort, alloc: Global, blank: Blank) -> Result<(), Fail>
    requires name { blank.name ≡ L.name }
    requires parts { blank.parts ≡ L.parts }
    requires some { 0 < blank.parts }
{
    let mut steps = Steps::<L>::open(blank);
    let records = Records::check(alloc, b"\x7D\xC6\xE0", usual(3, 4, 7, 3, 4)?)?;
    opened_pages(rt, alloc, &records.archive(), &mut steps)
}

#[test]
fn successors_of_an_opened_page(rt: HostRuntime) -> Result<(), Fail> {
    counted::<Brand>(&rt, rt.alloc(), Blank::new(1))
}

// In the overview of wg_random.
#[test]
fn records_are_checked_and_swept(rt: HostRuntime) -> Result<(), Fail> {
    let records = Records::check(rt.alloc(), b"\x7D\xC6\xE0", usual(3, 4, 7, 3, 4)?)?;
    assert!(rt; records.offset(1) == 12);
    let mut lists = records.sweep(rt.alloc())?;
    assert!(rt; lists.next_list() == Some([1, 2].as_slice()));
    assert!(rt; lists.next_list() == Some([1, 2].as_slice()));
    assert!(rt; lists.next_list() == Some([].as_slice()));
    Ok(())
}
