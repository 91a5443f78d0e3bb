//! The fields of a record, passed once to find where its three fronts begin.
ghost use Rattle.std.specs.Prelude.{◌≡◌, ◌<◌, ◌≤◌, ◌-◌, ◌^◌, ℕ, List, Option, drop, length, sum};
ghost use Rattle.wg_bits.specs.Bits.{rest};
ghost use Rattle.wg_graph.specs.Ascending.{Ascends};
ghost use Rattle.wg_decoder.specs.Proper.Laid.{list_or_none, length_of};
ghost use Rattle.wg_decoder.specs.Proper.{IsRecord};
ghost use Rattle.wg_intervals.specs.Stored.{numbers_inside};
ghost use Rattle.wg_iterators.specs.Fronts.{copied_of};
ghost use Rattle.wg_iterators.specs.Fields.{AreFronts, Standing};

use crate::passing::{pass_blocks, pass_intervals};
use wg_bits::Cursor;
use wg_blocks::Mask;
use wg_decoder::proper::{Lookahead, RecordHead, Residuals, read_head, value_where};
use wg_intervals::IntervalWalk;
use wg_params::{Code, Params};

// What the list of a record is read from: a mask over the members of the list that it refers to, the numbers inside its
// intervals, and its residuals.
#[derive(Drop)]
pub(crate) struct Fronts<'a> {
    pub(crate) outdegree: u64,
    pub(crate) mask: Mask<'a>,
    pub(crate) intervals: IntervalWalk<'a>,
    pub(crate) residuals: Residuals<'a>,
}

// The copied members of a record, and how many there are. The cursor passes the words of its blocks. `source` is as below.
#[inline(always)]
fn find_copied<'a>(
    params: &Params,
    source: Option<u64>,
    cursor: &mut Lookahead<'a>,
) -> (Mask<'a>, u64)
    requires { (page : ℕ) × (r : Standing params.now page) × (source ≡ length_of r.below)
        × (r.laid.after_reference ≡ rest cursor.old) }
    ensures { (page : ℕ) (r : Standing params.now page) → source ≡ length_of r.below
        → r.laid.after_reference ≡ rest cursor.old
        → (copied_of result.0 (list_or_none r.below) ≡ r.laid.copied) × (length r.laid.copied ≡ result.1)
        × (r.laid.after_blocks ≡ rest cursor.new) }
{
    let count = value_where(source.is_some(), params.block_counts(), cursor);
    let mask = Mask::new(cursor.again(), params.blocks(), count);
    let copied = pass_blocks(params.blocks(), count, source.unwrap_or(0), cursor);
    (mask, copied)
}

// The numbers inside intervals, of the `extra` successors that are not copied, and how many there are. The cursor passes
// the words of the intervals.
#[inline(always)]
fn find_inside<'a>(
    params: &Params,
    page: u64,
    extra: u64,
    cursor: &mut Lookahead<'a>,
) -> (IntervalWalk<'a>, u64)
    requires page { page ≤ 2 ^ 62 }
    requires short { extra < 2 ^ 63 }
    requires laid { (r : Standing params.now page) × (r.laid.outdegree - length r.laid.copied ≡ extra)
        × (r.laid.after_blocks ≡ rest cursor.old) }
    ensures { (r : Standing params.now page) → r.laid.outdegree - length r.laid.copied ≡ extra
        → r.laid.after_blocks ≡ rest cursor.old → (result.0 ≡ numbers_inside r.laid.lefts r.laid.lengths)
        × (sum r.laid.lengths ≡ result.1) × (r.laid.after_intervals ≡ rest cursor.new) }
{
    let has_intervals = (extra > 0) & (params.interval() > 0);
    let count = value_where(has_intervals, Code::Gamma, cursor);
    let intervals = IntervalWalk::new(cursor.again(), page, count, params.interval());
    let covered = pass_intervals(params.interval(), count, cursor);
    (intervals, covered)
}

// The fronts of the record of `page`, which stands at the cursor. `source` is the length of the list that the record
// refers to; none, if it has no reference. The words before the residuals are read, each once.
#[inline(always)]
pub(crate) fn find_fronts<'a>(
    params: &Params,
    page: u64,
    cursor: Cursor<'a>,
    source: Option<u64>,
) -> Fronts<'a>
    requires page { page < params.now.nodes }
    requires proper { (below : Option (List ℕ)) × (list : List ℕ) × IsRecord params.now page below cursor list
        × (source ≡ length_of below) }
    ensures fronts { (below : Option (List ℕ)) (list : List ℕ) → IsRecord params.now page below cursor.entry list
        → source ≡ length_of below → Ascends 0 (list_or_none below) → AreFronts result below list }
    ensures behind { (below : Option (List ℕ)) (list : List ℕ) (h : IsRecord params.now page below cursor.entry list)
        → source ≡ length_of below → result.residuals.behind ≡ drop h.end cursor.entry.bits }
{
    // tells the limits
    params.nodes();
    let RecordHead {
        outdegree,
        reference: _,
        words: mut cursor,
    } = read_head(params, cursor);
    let (mask, copied) = find_copied(params, source, &mut cursor);
    let extra = outdegree - copied;
    let (intervals, covered) = find_inside(params, page, extra, &mut cursor);
    let residuals = Residuals::new(cursor, params.residuals(), page, extra - covered);
    Fronts {
        outdegree,
        mask,
        intervals,
        residuals,
    }
}
