ghost use Rattle.std.specs.Prelude.{◌≡◌, ℕ, List as ListOf, ◌<◌, ◌≤◌, ◌+◌, ◌++◌, [], length, OnOk, IfOk, IfErr};
ghost use Rattle.wg_params.specs.declared.limits.TheConstants.{MOST_PAGES};
ghost use Rattle.wg_num.specs.Lines.{lines_of};
ghost use Rattle.wg_ascii.specs.Reading.{IsRead};
ghost use Rattle.wg_ascii.specs.Growing.{IsFirst, IsUpTo};

use crate::AsciiError;
use crate::page_lines::PageLines;
use std::alloc::Global;
use wg_graph::{Graph, GraphBuilder, List};

// Reads the lines of the pages, as far as there are lines, and answers the text after them.
fn read_lists<'a>(
    alloc: Global,
    lines: &mut PageLines,
    builder: &mut GraphBuilder,
    bytes: &'a [u8],
) -> Result<&'a [u8], AsciiError>
    requires nodes { lines.old.nodes ≡ builder.old.nodes }
    requires few { lines.old.nodes ≤ MOST_PAGES }
    requires none { builder.old.lists ≡ [] }
    requires first { lines.old.line ≡ 1 }
    requires arcs { lines.old.arcs ≡ 0 }
    ensures nodes { lines.new.nodes ≡ lines.old.nodes }
    ensures same { OnOk result (builder.new.nodes ≡ builder.old.nodes) }
    ensures few { OnOk result (lines.new.line ≤ MOST_PAGES + 1) }
    ensures shorter { IfOk result (λ after. length after.now ≤ length bytes.now) }
    ensures over { IfOk result (λ after. 0 < length after.now → lines.new.nodes < lines.new.line) }
    ensures read { (all later : ListOf (ListOf ℕ)) → IsUpTo all (lines_of bytes.now ++ later) [] lines.old
        → IfOk result (λ after. IsUpTo all (lines_of after.now ++ later) builder.new.lists lines.new) }
    ensures fault { (all later : ListOf (ListOf ℕ)) → IsUpTo all (lines_of bytes.now ++ later) [] lines.old
        → IfErr result (IsFirst all) }
{
    let mut list = List::new(alloc);
    let mut rest = bytes;
    'pages: while !rest.is_empty() && lines.is_page() {
        rest = lines.read_page(&mut list, rest)?;
        builder.push_list(list.as_slice())?;
    }
    Ok(rest)
}

/// Reads the ASCIIGraph text of a graph, or names its first faulty line. It holds the graph and the list of one page, 8
/// bytes for each arc and each page, and takes memory as the lines come; it costs a pass over the text.
pub fn read(alloc: Global, bytes: &[u8]) -> Result<Graph, AsciiError>
    ensures { IsRead bytes.now result }
{
    let (mut lines, rest) = PageLines::begin(bytes)?;
    let mut builder = GraphBuilder::new(alloc, lines.nodes())?;
    let rest = read_lists(alloc, &mut lines, &mut builder, rest)?;
    lines.refuse_words(rest)?;
    lines.end()?;
    Ok(builder.finish()?)
}
