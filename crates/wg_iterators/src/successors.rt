//! The successors of one page.
ghost use Rattle.std.specs.Prelude.{◌≡◌, ℕ, ◌<◌, List, length, option_copied};
ghost use Rattle.wg_graph.specs.Ascending.{Ascends};
ghost use Rattle.wg_graph.specs.Coming.{Gives};
ghost use Rattle.wg_iterators.specs.Fronts.{copied_of};
ghost use Rattle.wg_decoder.specs.Proper.Laid.{list_or_none, length_of};
ghost use Rattle.wg_decoder.specs.Proper.{IsRecord};
ghost use Rattle.wg_iterators.specs.Below.{depth_on, list_on, list_below, depth_of, listed, IsFresh};
ghost use Rattle.wg_iterators.specs.Ahead.{ahead, head_of};

use crate::below::Below;
use crate::fields::find_fronts;
use crate::front::{Front, Head, least};
use std::marker::Model;
use wg_bits::Cursor;
use wg_blocks::Mask;
use wg_decoder::proper::Residuals;
use wg_intervals::IntervalWalk;
use wg_params::Params;
use wg_shape::ListWalk;

/// The successors of a page, given one by one.
///
/// It is seen as the page's outdegree, how many pages are read below it, and the list of the successors that are still
/// to come. It holds cursors over the bits and one number of each front, and the page that its record refers to; or, of
/// that page, only the list, which is lent.
#[derive(Debug, Drop)]
#[cycle(below)]
pub struct Successors<'a> {
    outdegree: u64,
    // the next number of each front, if it was read
    copied: Head,
    inside: Head,
    residual: Head,
    mask: Mask<'a>,
    below: Below<'a>,
    intervals: IntervalWalk<'a>,
    residuals: Residuals<'a>,
}

impl<'a> Model for Successors<'a> {
    ghost use Rattle.std.specs.Prelude.{ℕ, List};
    ghost use Rattle.wg_iterators.specs.Coming.{Coming};
    ghost use Rattle.wg_graph.specs.Unions.{union_of};
    ghost use Rattle.wg_iterators.specs.Fronts.{copied_of};
    ghost use Rattle.wg_decoder.specs.Proper.Disjoint.{AreApart};

    ghost Value = { Coming };

    ghost use Rattle.wg_iterators.specs.Below.{depth_on, list_on};
    ghost use Rattle.wg_iterators.specs.Ahead.{ahead};

    ghost view = { λ m. record {
      outdegree = m.outdegree;
      depth = depth_on m.below;
      list = union_of (ahead m.copied (copied_of m.mask (list_on m.below)))
          (union_of (ahead m.inside m.intervals) (ahead m.residual m.residuals.list));
    } };

    ghost invariant = { λ m. AreApart (ahead m.copied (copied_of m.mask (list_on m.below)))
        (ahead m.inside m.intervals) (ahead m.residual m.residuals.list) };

    ghost size = { λ v. v.depth };

    ghost use Rattle.std.proofs.Common.{arith};

    ghost size_decreases = { λ a h. Prim.grind (arith) };
}

// The next member below that the mask copies.
#[cycle(next)]
fn next_copied<'a>(below: &mut Below<'a>, mask: &mut Mask<'a>) -> Option<u64>
    ensures gives { Gives (copied_of mask.old (list_on below.old)) result
        (copied_of mask.new (list_on below.new)) }
    ensures depth { depth_on below.new ≡ depth_on below.old }
{
    'members: while let Some(member) = below.next() {
        if mask.step() {
            return Some(member);
        }
    }
    None
}

// The next copied member, which is read if it was not.
#[cycle(next)]
fn look_copied<'a>(head: &mut Head, below: &mut Below<'a>, mask: &mut Mask<'a>) -> Option<u64>
    ensures same { ahead head.new (copied_of mask.new (list_on below.new))
        ≡ ahead head.old (copied_of mask.old (list_on below.old)) }
    ensures head { head.new ≡ head_of result }
    ensures depth { depth_on below.new ≡ depth_on below.old }
{
    match *head {
        Head::Unread => {
            let next = next_copied(below, mask);
            *head = Head::of(next);
            next
        }
        Head::Next(number) => Some(number),
        Head::Done => None,
    }
}

// The next number inside an interval, which is read if it was not.
fn look_inside(head: &mut Head, intervals: &mut IntervalWalk<'_>) -> Option<u64>
    ensures same { ahead head.new intervals.new ≡ ahead head.old intervals.old }
    ensures head { head.new ≡ head_of result }
{
    match *head {
        Head::Unread => {
            let next = intervals.next();
            *head = Head::of(next);
            next
        }
        Head::Next(number) => Some(number),
        Head::Done => None,
    }
}

// The next residual, which is read if it was not.
fn look_residual(head: &mut Head, residuals: &mut Residuals<'_>) -> Option<u64>
    ensures same { ahead head.new residuals.new.list ≡ ahead head.old residuals.old.list }
    ensures head { head.new ≡ head_of result }
{
    match *head {
        Head::Unread => {
            let next = residuals.next();
            *head = Head::of(next);
            next
        }
        Head::Next(number) => Some(number),
        Head::Done => None,
    }
}

impl<'a> Successors<'a> {
    // The successors of `page`, whose record stands at the cursor, before the first. `source` is the length of the list
    // below, from which members are copied.
    fn on(
        params: &Params,
        page: u64,
        cursor: Cursor<'a>,
        source: Option<u64>,
        below: Below<'a>,
    ) -> Successors<'a>
        requires page { page < params.now.nodes }
        requires source { source ≡ length_of (list_below below) }
        requires ascends { Ascends 0 (list_or_none (list_below below)) }
        requires proper { (list : List ℕ) × IsRecord params.now page (list_below below) cursor list }
        ensures { (list : List ℕ) → IsRecord params.now page (list_below below.entry) cursor.entry list
            → result ≡ record { outdegree = length list; depth = depth_on below.entry; list = list } }
    {
        let fronts = find_fronts(params, page, cursor, source);
        Successors {
            outdegree: fronts.outdegree,
            copied: Head::Unread,
            inside: Head::Unread,
            residual: Head::Unread,
            mask: fronts.mask,
            below,
            intervals: fronts.intervals,
            residuals: fronts.residuals,
        }
    }

    /// The successors of `page`, whose record stands at the cursor, before the first. `below` is the page that the
    /// record refers to, if it has a reference, and has given nothing yet. It takes the time of the record's own words.
    pub fn begin(
        params: &Params,
        page: u64,
        cursor: Cursor<'a>,
        below: Option<Box<Successors<'a>>>,
    ) -> Successors<'a>
        requires page { page < params.now.nodes }
        requires fresh { IsFresh below }
        requires proper { (list : List ℕ) × IsRecord params.now page (listed below) cursor list }
        ensures { (list : List ℕ) → IsRecord params.now page (listed below.entry) cursor.entry list
            → result ≡ record { outdegree = length list; depth = depth_of below.entry; list = list } }
    {
        match below {
            None => Successors::on(params, page, cursor, None, Below::Nothing),
            Some(referenced) => {
                let source = referenced.outdegree();
                Successors::on(params, page, cursor, Some(source), Below::Page(referenced))
            }
        }
    }

    /// Like [`Successors::begin`], over a list: `below` is that of the page that the record refers to, if it has a
    /// reference. So no other record is read, however many references lead on from it.
    pub fn begin_on(
        params: &Params,
        page: u64,
        cursor: Cursor<'a>,
        below: Option<&'a [u64]>,
    ) -> Successors<'a>
        requires page { page < params.now.nodes }
        requires ascends { Ascends 0 (list_or_none (option_copied below)) }
        requires proper { (list : List ℕ) × IsRecord params.now page (option_copied below) cursor list }
        ensures { (list : List ℕ) → IsRecord params.now page (option_copied below.entry) cursor.entry list
            → result ≡ record { outdegree = length list; depth = 0; list = list } }
    {
        match below {
            None => Successors::on(params, page, cursor, None, Below::Nothing),
            Some(list) => Successors::on(
                params,
                page,
                cursor,
                Some(list.len() as u64),
                Below::Lent(ListWalk::new(list)),
            ),
        }
    }

    /// How many successors the page has.
    pub fn outdegree(&self) -> u64
        ensures outdegree { result ≡ self.now.outdegree }
        ensures ascends { Ascends 0 self.now.list }
    {
        self.outdegree
    }

    /// The next successor, ascending; none if all were given, again and again. A member that is copied is asked of the
    /// page below, and so on down; members that the mask skips are passed over.
    #[cycle(next)]
    pub fn next(&mut self) -> Option<u64>
        ensures gives { Gives self.old.list result self.new.list }
        ensures outdegree { self.new.outdegree ≡ self.old.outdegree }
        ensures depth { self.new.depth ≡ self.old.depth }
    {
        let copied = look_copied(&mut self.copied, &mut self.below, &mut self.mask);
        let inside = look_inside(&mut self.inside, &mut self.intervals);
        let residual = look_residual(&mut self.residual, &mut self.residuals);
        match least(copied, inside, residual) {
            None => None,
            Some(Front::Copied(number)) => {
                self.copied = Head::Unread;
                Some(number)
            }
            Some(Front::Inside(number)) => {
                self.inside = Head::Unread;
                Some(number)
            }
            Some(Front::Residual(number)) => {
                self.residual = Head::Unread;
                Some(number)
            }
        }
    }
}

impl<'a> Iterator for Successors<'a> {
    ghost use Rattle.std.specs.Iterator.{YieldsFirst, item_count};

    type Item = u64;

    ghost next_gives = { YieldsFirst (λ s. s.list) };

    ghost remaining = { item_count (λ s. s.list) };

    #[inline(always)]
    fn next(&mut self) -> Option<u64> {
        Successors::next(self)
    }
}
