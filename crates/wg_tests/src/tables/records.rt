// Records over a page that is handed in, pages that are written one by one, an archive of records and offsets, and a
// fault in words.
ghost use Rattle.std.specs.Prelude.{◌≡◌, ◌≤◌, ◌<◌};
ghost use Rattle.std.specs.Option.{ForSome};

use std::alloc::Global;
use std::marker::Brand;
use std::sync::ledger::{Blank, Ledger};
use std::test::Fail;
use wg_bits::{Bits, Cursor};
use wg_decoder::{Known, Window, decode, decode_into, decode_on, head};
use wg_encoder::Encoder;
use wg_grammar::{ArchiveFault, Fault, Field, Kind, Need, Progress, ReadError, Referenced};
use wg_graph::{Graph, List, Row};
use wg_io::{Depot, LoadError, SteadyDepot};
use wg_offsets::{Extent, Samples};
use wg_params::Code;
use wg_random::{Archive, CheckError, Records, Steps};
use wg_source::Seek;
use wg_vectors::usual;

// 011 1 1 1011 100  011 01 1  1: page 1 copies the list of page 0
const COPIED: &[u8] = b"\x7D\xC6\xE0";

#[test]
fn a_record_over_a_page_that_is_handed_in(rt: HostRuntime) -> Result<(), Fail> {
    let params = usual(3, 4, 7, 3, 4)?;
    let mut cursor = Cursor::new(Bits::of(COPIED), 0);
    let Ok(alone) = head(&params, 0, 0, cursor.again()) else {
        return Err("no head".into());
    };
    assert!(rt; alone.outdegree == 2 && alone.reference == 0);
    let first = decode_on(rt.alloc(), &params, 0, 0, None, &mut cursor)?;
    let Ok(told) = head(&params, 1, 2, cursor.again()) else {
        return Err("no head".into());
    };
    assert!(rt; told.outdegree == 2 && told.reference == 1);
    let known = Known {
        list: &first.list,
        depth: first.depth,
    };
    let second = decode_on(rt.alloc(), &params, 1, 2, Some(known), &mut cursor)?;
    assert!(rt; second.list.as_slice() == [1, 2].as_slice());
    assert!(rt; second.depth == 1 && cursor.at() == 18);
    Ok(())
}

// The record of page 0, which was decoded before, is read into a row.
#[test]
fn a_proper_record_in_a_row(rt: HostRuntime) -> Result<(), Fail> {
    let params = usual(3, 4, 7, 3, 4)?;
    let window = Window::new(rt.alloc(), &params);
    let mut cursor = Cursor::new(Bits::of(COPIED), 0);
    decode(rt.alloc(), &params, 0, 0, &window, &mut cursor.again())?;
    let mut row = Row::new(rt.alloc(), params.arcs())?;
    decode_into(&params, 0, None, &mut cursor, &mut row);
    assert!(rt; row.as_slice() == [1, 2].as_slice());
    assert!(rt; cursor.at() == 12);
    Ok(())
}

// Hands over the value of the field that comes next, and tells whether it was taken.
fn takes(progress: &mut Progress, value: u64, below: Option<Referenced>) -> bool
    requires length { ForSome below (λ r. r.length ≤ progress.old.params.nodes) }
    requires depth { ForSome below (λ r. r.depth < progress.old.page) }
    ensures params { progress.new.params ≡ progress.old.params }
    ensures page { progress.new.page ≡ progress.old.page }
{
    match progress.need() {
        Need::Read(_, _) => progress.accept(value, below).is_ok(),
        Need::Check => false,
        Need::End => false,
    }
}

// What the check after the blocks answers, if it comes.
fn checked(progress: &mut Progress) -> Option<Result<(), Kind>> {
    match progress.need() {
        Need::Check => Some(progress.check_copied()),
        Need::Read(_, _) => None,
        Need::End => None,
    }
}

#[test]
fn more_members_are_copied_than_the_page_has(rt: HostRuntime) -> Result<(), Fail> {
    let params = usual(3, 4, 7, 3, 4)?;
    let below = Referenced {
        length: 2,
        depth: 0,
    };
    let mut progress = Progress::start(&params, 1, 2);
    // an outdegree of 1, a reference to a page with 2 successors, and no blocks
    let outdegree = takes(&mut progress, 1, None);
    let reference = takes(&mut progress, 1, Some(below));
    let block_count = takes(&mut progress, 0, None);
    assert!(rt; outdegree && reference && block_count);
    assert!(rt; checked(&mut progress) == Some(Err(Kind::Copied)));
    Ok(())
}

// Writes the pages of a graph, and tells how many bits their records have.
fn put_pages<D: Depot>(alloc: Global, graph: &Graph, depot: &mut D) -> Result<u64, Fail> {
    let params = usual(graph.nodes(), graph.arcs(), 7, 3, 4)?;
    let mut encoder = Encoder::new(alloc, params, graph)?;
    for _page in 0..graph.nodes() {
        encoder = encoder.next(depot, "g")?;
    }
    Ok(encoder.finish(depot, "g")?)
}

#[test]
fn pages_are_written_one_by_one(rt: HostRuntime) -> Result<(), Fail> {
    let graph = wg_arcs::read(rt.alloc(), b"0 1\n0 2\n1 1\n1 2\n", 3)?;
    let mut depot = SteadyDepot::new(rt.alloc(), 4096);
    assert!(rt; put_pages(rt.alloc(), &graph, &mut depot)? == 19);
    assert!(rt; depot.file("g.graph") == Some(COPIED));
    assert!(rt; depot.file("g.offsets") == Some(b"\x8D\x3A".as_slice()));
    Ok(())
}

// The list of page 1 of an archive that was checked against its offsets.
fn second_list<L: Ledger>(alloc: Global, steps: &mut Steps<L>) -> Result<List, Fail> {
    let records = Records::check(alloc, COPIED, usual(3, 4, 7, 3, 4)?)?;
    // 1 0001101 00111 010: the words of 0, 12, 6 and 1
    let offsets = wg_offsets::read(alloc, b"\x8D\x3A", 3, Code::Gamma)?;
    let archive = Archive::check(alloc, records, &offsets)?;
    Ok(archive.list(alloc, 1, steps)?)
}

fn counted<L: Ledger>(alloc: Global, blank: Blank) -> Result<List, Fail>
    requires name { blank.name ≡ L.name }
    requires parts { blank.parts ≡ L.parts }
    requires some { 0 < blank.parts }
{
    second_list(alloc, &mut Steps::<L>::open(blank))
}

#[test]
fn records_and_their_offsets(rt: HostRuntime) -> Result<(), Fail> {
    let list = counted::<Brand>(rt.alloc(), Blank::new(1))?;
    assert!(rt; list.as_slice() == [1, 2].as_slice());
    Ok(())
}

#[test]
fn records_and_the_offsets_of_others(rt: HostRuntime) -> Result<(), Fail> {
    let records = Records::check(rt.alloc(), COPIED, usual(3, 4, 7, 3, 4)?)?;
    // 1 0001100 00111 010: the words of 0, 11, 6 and 1
    let offsets = wg_offsets::read(rt.alloc(), b"\x8C\x3A", 3, Code::Gamma)?;
    let fault = ArchiveFault::Length {
        page: 0,
        found: 12,
        stored: 11,
    };
    let error = Archive::check(rt.alloc(), records, &offsets).err();
    assert!(rt; error == Some(CheckError::Archive(fault)));
    Ok(())
}

#[test]
fn places_by_samples(rt: HostRuntime) -> Result<(), Fail> {
    // 1 0001101 00111 010: the words of 0, 12, 6 and 1
    let mut words = Cursor::new(Bits::of(b"\x8D\x3A"), 0);
    let Ok(samples) = Samples::read(rt.alloc(), &mut words, 3, Code::Gamma) else {
        return Err("no samples".into());
    };
    let places = [0, 12, 18, 19];
    for page in 0..3 {
        let Ok(true) = words.go_to(samples.bit(page)) else {
            return Err("no such bit".into());
        };
        let Ok(extent) = samples.extent(page, &mut words) else {
            return Err("no such words".into());
        };
        let start = places[page as usize];
        let end = places[page as usize + 1];
        assert!(rt; extent == Extent { start, end });
    }
    Ok(())
}

#[test]
fn a_fault_in_words(rt: HostRuntime) -> Result<(), Fail> {
    let fault = Fault {
        page: 3,
        at: 17,
        field: Field::Residual,
        kind: Kind::Range,
    };
    let error = ReadError::<ArchiveFault, LoadError>::Fault(ArchiveFault::Record(fault));
    let text = format!(in rt.alloc(); "{error}")?;
    assert!(rt; text.as_str() == "page 3: the residual at bit 17 is out of range");
    Ok(())
}
