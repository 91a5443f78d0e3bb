// Pages of archives: a chain of references that is too long to be opened, the end of a list, and pages that were not
// checked.
ghost use Rattle.std.specs.Prelude.{◌≡◌, ◌+◌, ◌<◌, OnOk, IfSome};
ghost use Rattle.wg_stream.specs.AllRecords.{AllRecords, known_at};

use std::alloc::{AllocError, Global};
use std::marker::Brand;
use std::process::Abort;
use std::sync::ledger::{Blank, Ledger};
use std::test::Fail;
use wg_grammar::{ArchiveFault, Fault, Field, Kind};
use wg_graph::List;
use wg_io::MOST_BYTES;
use wg_params::{BadParam, Code, Layout, Params};
use wg_random::{Archive, ListError, OpenError, Records, SpotError, Steps, spot};
use wg_shape::Coming;
use wg_vectors::{bytes_of, usual};

// The records of 257 pages: the first has the successors 0 and 1, and each later one copies the page before it.
fn copies(alloc: Global) -> Result<Vec<u8>, AllocError> {
    let mut bits = String::from_str(alloc, "011 1 1 100 100")?;
    for _page in 1..257 {
        bits.push_str("  011 01 1")?;
    }
    bytes_of(alloc, bits.as_str())
}

// Their parameters, if references may lead on without end.
fn endless() -> Result<Params, BadParam> {
    let layout = usual(257, 514, 7, 0, 4)?.layout();
    let chain = None;
    Params::with_layout(257, 514, Layout { chain, ..layout })
}

// How many references lead on from a page, if they are too many for it to be opened.
fn too_deep<L: Ledger>(
    alloc: Global,
    archive: &Archive<'_>,
    page: u64,
    steps: &mut Steps<L>,
) -> Option<u64>
    ensures { (r : AllRecords archive.now.params archive.now.bits)
        → IfSome result (λ depth. depth ≡ (known_at r.records page).depth) }
{
    match archive.open(alloc, page, steps) {
        Ok(_opened) => None,
        Err(OpenError::Deep(depth)) => Some(depth),
        Err(_) => None,
    }
}

// The list of a page from which 256 references lead on. It takes 257 ticks.
fn listed<L: Ledger>(
    alloc: Global,
    archive: &Archive<'_>,
    page: u64,
    steps: &mut Steps<L>,
) -> Result<List, ListError>
    requires depth { (r : AllRecords archive.now.params archive.now.bits) → (known_at r.records page).depth ≡ 256 }
    ensures ticks { OnOk result (steps.new ≡ steps.old + 257) }
{
    archive.list(alloc, page, steps)
}

// The last of these pages is listed, and only the one before it is opened.
fn last_pages<L: Ledger>(
    rt: &impl Abort,
    alloc: Global,
    archive: &Archive<'_>,
    steps: &mut Steps<L>,
) -> Result<(), Fail> {
    assert!(rt; archive.open(alloc, 255, steps).is_ok());
    let Some(depth) = too_deep(alloc, archive, 256, steps) else {
        return Err("the last page is opened".into());
    };
    assert!(rt; depth == 256);
    let list = listed(alloc, archive, 256, steps)?;
    assert!(rt; list.as_slice() == [0, 1].as_slice());
    Ok(())
}

fn long_chain<L: Ledger>(rt: &impl Abort, alloc: Global, blank: Blank) -> Result<(), Fail>
    requires name { blank.name ≡ L.name }
    requires parts { blank.parts ≡ L.parts }
    requires some { 0 < blank.parts }
{
    let mut steps = Steps::<L>::open(blank);
    let bytes = copies(alloc)?;
    assert!(rt; bytes.len() as u64 <= MOST_BYTES);
    let records = Records::check(alloc, bytes.as_slice(), endless()?)?;
    last_pages(rt, alloc, &records.archive(), &mut steps)
}

#[test]
fn a_page_256_references_deep_is_listed_and_not_opened(rt: HostRuntime) -> Result<(), Fail> {
    long_chain::<Brand>(&rt, rt.alloc(), Blank::new(1))
}

// These numbers come, and then none, however often it is asked.
fn gives<C: Coming>(rt: &impl Abort, coming: &mut C, numbers: &[u64]) {
    for number in numbers {
        assert!(rt; coming.next() == Some(*number));
    }
    for _again in 0..3 {
        assert!(rt; coming.next().is_none());
    }
}

// Page 0 has the successors 1, 3, 5 and 7, and page 1 copies all but one of them.
fn opened_to_the_end<L: Ledger>(rt: &impl Abort, alloc: Global, blank: Blank) -> Result<(), Fail>
    requires name { blank.name ≡ L.name }
    requires parts { blank.parts ≡ L.parts }
    requires some { 0 < blank.parts }
{
    let mut steps = Steps::<L>::open(blank);
    let params = usual(8, 7, 7, 3, 4)?;
    let records = Records::check(alloc, b"\x2F\x75\x54\x45\xAF\xE0", params)?;
    let mut successors = records.archive().open(alloc, 1, &mut steps)?;
    gives(rt, &mut successors, &[1, 5, 7]);
    Ok(())
}

#[test]
fn no_successor_comes_after_the_last(rt: HostRuntime) -> Result<(), Fail> {
    opened_to_the_end::<Brand>(&rt, rt.alloc(), Blank::new(1))
}

// The record of the last of three pages is cut off.
const CUT: &[u8] = b"\x7D\xC6\xC0";

fn spotted<L: Ledger>(rt: &impl Abort, alloc: Global, blank: Blank) -> Result<(), Fail>
    requires name { blank.name ≡ L.name }
    requires parts { blank.parts ≡ L.parts }
    requires some { 0 < blank.parts }
{
    let mut steps = Steps::<L>::open(blank);
    let params = usual(3, 4, 7, 3, 4)?;
    // 1 0001101 00111 010: the words of 0, 12, 6 and 1
    let offsets = wg_offsets::read(alloc, b"\x8D\x3A", 3, Code::Gamma)?;
    let list = spot(alloc, CUT, &offsets, &params, 1, &mut steps)?;
    assert!(rt; list.as_slice() == [1, 2].as_slice());
    let fault = Fault {
        page: 2,
        at: 18,
        field: Field::Outdegree,
        kind: Kind::Cut,
    };
    let error = spot(alloc, CUT, &offsets, &params, 2, &mut steps).err();
    assert!(rt; error == Some(SpotError::Archive(ArchiveFault::Record(fault))));
    Ok(())
}

#[test]
fn a_page_is_read_before_one_that_is_cut(rt: HostRuntime) -> Result<(), Fail> {
    spotted::<Brand>(&rt, rt.alloc(), Blank::new(1))
}
