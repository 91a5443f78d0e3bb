//! What stands below a record: the page that it refers to, or that page's list.
ghost use Rattle.std.specs.Prelude.{◌≡◌};
ghost use Rattle.wg_graph.specs.Coming.{Gives};
ghost use Rattle.wg_iterators.specs.Below.{depth_on, list_on};

use crate::Successors;
use wg_shape::{Coming, ListWalk};

/// How many pages a chain of references may have if its first page is to be given number by number: a call of `next`
/// goes down through all of them.
pub const CHAIN_PAGES: usize = 256;

// What the copied members of a record are taken from: nothing, if it has no reference; the page that it refers to; or
// the list of that page.
#[derive(Debug, Drop)]
#[cycle(below)]
pub(crate) enum Below<'a> {
    Nothing,
    Page(Box<Successors<'a>>),
    Lent(ListWalk<'a>),
}

impl<'a> Below<'a> {
    // The next member below; none if none is left, again and again.
    #[cycle(next)]
    pub(crate) fn next(&mut self) -> Option<u64>
        ensures gives { Gives (list_on self.old) result (list_on self.new) }
        ensures depth { depth_on self.new ≡ depth_on self.old }
    {
        match self {
            Below::Nothing => None,
            Below::Page(page) => Successors::next(page),
            Below::Lent(members) => Coming::next(members),
        }
    }
}
