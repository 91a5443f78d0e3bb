//! The graph of an ASCIIGraph text, encoded in memory as its lines come.
ghost use Rattle.std.specs.Prelude.{◌≡◌, ◌+◌, ◌<◌, ◌≤◌, ◌^◌, ◌++◌, ℕ, List as ListOf, [], Some, IsTrue, Err, length, OnOk, IfOk, IfErr};
ghost use Rattle.std.specs.FinMap as map;
ghost use Rattle.wg_outside.specs.declared.limits.TheConstants.{MOST_BYTES};
ghost use Rattle.wg_num.specs.Lines.{lines_of};
ghost use Rattle.wg_lines.specs.Reading.{lines_after, IsReadable};
ghost use Rattle.wg_params.specs.Parameters.{IsWithinLimits, params_of};
ghost use Rattle.wg_params.specs.declared.limits.TheConstants.{MOST_ARCS, MOST_PAGES};
ghost use Rattle.wg_ascii.specs.Growing.{IsFirst, IsUpTo};
ghost use Rattle.wg_encoder.specs.ArchiveInMemory.{HasEncoded};
ghost use Rattle.wg_readings.specs.Loading.{LoadsTextBy};
ghost use Rattle.wg_builds.specs.Encoded.{Encodes, Makes};
ghost use Rattle.wg_builds.specs.Imported.{Begins, GoesOn, KeepsPace, status_of_text};

use std::alloc::Global;
use wg_ascii::{AsciiError, PageLines};
use wg_encoder::{ArchiveEncoder, EncodedArchive};
use wg_graph::List;
use wg_lines::LineReader;
use wg_outcomes::{Ending, Input, Status, params_of};
use wg_outside::Depot;
use wg_params::{Layout, MOST_ARCS, Params};
use wg_readings::{next_lines, open_lines};
use wg_words::Name;

// How a job ends at an error of an ASCIIGraph text.
#[cold]
#[inline(never)]
fn text_ending(error: AsciiError) -> Ending
    ensures { result.status ≡ status_of_text error }
{
    Ending::of(match error {
        AsciiError::Line { line, kind } => Status::BadText { line, kind },
        AsciiError::Memory => Status::Memory,
    })
}

// Encodes the lists of the pages whose lines these are, and sees that no word stands on the lines after them.
fn take_lines(
    mut encoder: ArchiveEncoder,
    list: &mut List,
    lines: &mut PageLines,
    text: &[u8],
) -> Result<ArchiveEncoder, AsciiError>
    requires pace { KeepsPace encoder lines.old }
    requires line { lines.old.line + length text.now < 2 ^ 64 }
    ensures params { IfOk result (λ e. e.params ≡ encoder.params) }
    ensures pace { IfOk result (λ e. KeepsPace e lines.new) }
    ensures nodes { OnOk result (lines.new.nodes ≡ lines.old.nodes) }
    ensures line { OnOk result (lines.new.line ≤ lines.old.line + length text.now) }
    ensures goes_on { (done : ListOf (ListOf ℕ)) → HasEncoded encoder done
        → IfOk result (λ e. GoesOn text.now lines.old done e lines.new) }
    ensures fault { (all later done : ListOf (ListOf ℕ)) → HasEncoded encoder done
        → IsUpTo all (lines_of text.now ++ later) done lines.old → IfErr result (IsFirst all) }
{
    let mut rest = text;
    'pages: while !rest.is_empty() && lines.is_page() {
        rest = lines.read_page(list, rest)?;
        encoder = encoder.add(list.as_slice())?;
    }
    lines.refuse_words(rest)?;
    Ok(encoder)
}

// Begins an archive of as many pages as the first line tells, and encodes the lists of the lines after it.
fn encode_first(
    alloc: Global,
    layout: &Layout,
    list: &mut List,
    text: &[u8],
) -> Result<(ArchiveEncoder, PageLines), AsciiError>
    requires layout { IsWithinLimits (params_of layout.now 0 0) }
    requires short { length text.now ≤ MOST_BYTES }
    ensures params { IfOk result (λ r. r.0.params ≡ params_of layout.now r.1.nodes MOST_ARCS) }
    ensures pace { IfOk result (λ r. KeepsPace r.0 r.1) }
    ensures line { IfOk result (λ r. r.1.line ≤ length text.now) }
    ensures begins { IfOk result (λ r. Begins text.now r.0 r.1) }
    ensures fault { (later : ListOf (ListOf ℕ)) → (length text.now ≡ 0 → later ≡ [])
        → IfErr result (IsFirst (lines_of text.now ++ later)) }
{
    let (mut lines, rest) = PageLines::begin(text)?;
    // how many arcs there are is known at the end
    let encoder = ArchiveEncoder::new(alloc, params_of(layout, lines.nodes(), MOST_ARCS))?;
    let encoder = take_lines(encoder, list, &mut lines, rest)?;
    Ok((encoder, lines))
}

// Encodes the lists of the pages that are left, as the lines of the text come.
fn encode_rest<D: Depot>(
    mut encoder: ArchiveEncoder,
    list: &mut List,
    lines: &mut PageLines,
    reader: &mut LineReader,
    depot: &mut D,
    name: &str,
) -> Result<ArchiveEncoder, Ending>
    requires pace { KeepsPace encoder lines.old }
    requires line { lines.old.line ≤ reader.old.first + length reader.old.lines }
    requires readable { IsTrue D.told → IsReadable (map.get (D.files depot.old) name.now) }
    requires way { (done : ListOf (ListOf ℕ)) × HasEncoded encoder done
        × (IsTrue D.told → (file : ListOf ℕ) → map.get (D.files depot.old) name.now ≡ Some file
        → IsUpTo (lines_of file) (lines_after file reader.old) done lines.old) }
    ensures params { IfOk result (λ e. e.params ≡ encoder.params) }
    ensures nodes { OnOk result (lines.new.nodes ≡ lines.old.nodes) }
    ensures few { OnOk result (lines.new.arcs ≤ MOST_ARCS) }
    ensures encodes { IfOk result (λ e. Encodes (LoadsTextBy ⟦<D as Depot>⟧ name.now depot.old depot.new)
        e lines.new.nodes lines.new.arcs) }
    ensures ends { IfErr result (λ e. LoadsTextBy ⟦<D as Depot>⟧ name.now depot.old depot.new (Err e)) }
{
    while next_lines(reader, depot, name, Input::Text)? {
        encoder = match take_lines(encoder, list, lines, reader.lines()) {
            Ok(encoder) => encoder,
            Err(error) => return Err(text_ending(error)),
        };
    }
    match lines.end() {
        Ok(()) => Ok(encoder),
        Err(error) => Err(text_ending(error)),
    }
}

// Encodes the lists of all pages, as the lines of the text come.
fn encode_pages<D: Depot>(
    alloc: Global,
    layout: &Layout,
    depot: &mut D,
    name: &str,
) -> Result<(ArchiveEncoder, PageLines), Ending>
    requires { IsWithinLimits (params_of layout.now 0 0) }
    ensures params { IfOk result (λ r. r.0.params ≡ params_of layout.now r.1.nodes MOST_ARCS) }
    ensures few_pages { IfOk result (λ r. r.1.nodes ≤ MOST_PAGES) }
    ensures few_arcs { IfOk result (λ r. r.1.arcs ≤ MOST_ARCS) }
    ensures encodes { IfOk result (λ r. Encodes (LoadsTextBy ⟦<D as Depot>⟧ name.now depot.old depot.new)
        r.0 r.1.nodes r.1.arcs) }
    ensures ends { IfErr result (λ e. LoadsTextBy ⟦<D as Depot>⟧ name.now depot.old depot.new (Err e)) }
{
    let mut reader = open_lines(alloc, depot, name, Input::Text)?;
    let _some = next_lines(&mut reader, depot, name, Input::Text)?;
    let mut list = List::new(alloc);
    let (encoder, mut lines) = match encode_first(alloc, layout, &mut list, reader.lines()) {
        Ok(first) => first,
        Err(error) => return Err(text_ending(error)),
    };
    let encoder = encode_rest(encoder, &mut list, &mut lines, &mut reader, depot, name)?;
    Ok((encoder, lines))
}

/// The archive of the graph that an ASCIIGraph text holds, and its parameters. It goes through the text once, and holds
/// a piece of it with the line that the piece cuts, the list of one page, and the archive. Each line is validated as it
/// comes; after a fault the archive is let go.
pub fn encode_text<D: Depot>(
    alloc: Global,
    layout: &Layout,
    depot: &mut D,
    name: &Name,
) -> Result<(Params, EncodedArchive), Ending>
    requires { IsWithinLimits (params_of layout.now 0 0) }
    ensures makes { IfOk result (λ r. Makes (LoadsTextBy ⟦<D as Depot>⟧ name.now depot.old depot.new)
        layout.now r.0 r.1) }
    ensures ends { IfErr result (λ e. LoadsTextBy ⟦<D as Depot>⟧ name.now depot.old depot.new (Err e)) }
{
    let (encoder, lines) = encode_pages(alloc, layout, depot, name.as_str())?;
    let params = params_of(layout, lines.nodes(), lines.arcs());
    let archive = encoder.finish(alloc, &params)?;
    Ok((params, archive))
}
