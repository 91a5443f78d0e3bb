//! The lists of a quotient, range after range of classes.
ghost use Rattle.std.specs.Prelude.{◌≡◌, ℕ, ◌<◌, ◌≤◌, length, IfOk, OnOk, OnErr};
ghost use Rattle.wg_params.specs.declared.limits.TheConstants.{MOST_ARCS, MOST_PAGES};
ghost use Rattle.wg_graph.specs.Ascending.{Ascends, Below};
ghost use Rattle.wg_graph.specs.Digraph.{arc_count, successors};
ghost use Rattle.wg_graph.specs.Numbers.{is_in};
ghost use Rattle.wg_shape.specs.Classes.{AreClasses, arcs_from, whole};

use crate::counting::count;
use crate::placing::Reached;
use std::alloc::{AllocError, Global};
use std::marker::Model;
use wg_graph::Lists;
use wg_transpose::Ranges;

/// The lists of the quotient, by classes of pages, of a graph whose lists are read in order, range after range of
/// classes.
///
/// It is seen as the graph, the class of each page and the number of classes, and the range of classes whose lists are
/// at hand: from class `from` up to the class before `to`. It holds 8 bytes for each class, and 8 for each arc that
/// leaves a page of a class of the range, and it borrows the classes of the pages.
#[derive(Debug, Drop)]
pub struct Quotienter<'a, L: Lists + Drop> {
    reached: Reached<'a, L>,
    ranges: Ranges,
}

impl<'a, L: Lists + Drop> Model for Quotienter<'a, L> {
    ghost use Rattle.std.specs.Prelude.{length};
    ghost use Rattle.wg_shape.specs.Classes.{Quotienting, HoldsClasses, classes_in};

    ghost Value = { Quotienting };

    ghost view = { λ t. record {
      pages = classes_in t.reached.0 t.reached.1 (length t.ranges.ends);
      from = t.ranges.from;
      to = t.ranges.to;
    } };

    ghost invariant = { λ t. HoldsClasses (classes_in t.reached.0 t.reached.1 (length t.ranges.ends)) t.ranges };
}

// Makes the list one of these numbers, ascending, each once.
fn set_of(numbers: &[u64], list: &mut Vec<u64>) -> Result<(), AllocError>
    ensures ascends { OnOk result (Ascends 0 list.new.items) }
    ensures members { OnOk result ((y : ℕ) → is_in y list.new.items ≡ is_in y numbers.now) }
{
    list.clear();
    list.extend_from_slice(numbers)?;
    list.sort_unstable();
    list.dedup();
    Ok(())
}

impl<'a, L: Lists + Drop> Quotienter<'a, L> {
    /// Before the first range. It goes over the lists once, and counts for each class the arcs that leave its pages.
    pub fn new(
        alloc: Global,
        mut lists: L,
        classes: &'a [u64],
        n: u64,
    ) -> Result<Quotienter<'a, L>, AllocError>
        requires few_pages { (L.graph lists).nodes ≤ MOST_PAGES }
        requires few_arcs { arc_count (L.graph lists) ≤ MOST_ARCS }
        requires each { length classes.now ≡ (L.graph lists).nodes }
        requires below { Below n classes.now }
        requires few { n ≤ MOST_PAGES }
        ensures graph { IfOk result (λ t. t.pages.graph ≡ L.graph lists) }
        ensures classes { IfOk result (λ t. t.pages.classes ≡ classes.now) }
        ensures count { IfOk result (λ t. t.pages.count ≡ n) }
        ensures limits { IfOk result (λ t. AreClasses t.pages) }
        ensures from { IfOk result (λ t. t.from ≡ 0) }
        ensures to { IfOk result (λ t. t.to ≡ 0) }
    {
        let mut counts = vec![in alloc; 0; n as usize]?;
        count(&mut lists, classes, &mut counts);
        Ok(Quotienter {
            reached: Reached::new(lists, classes),
            ranges: Ranges::new(alloc, counts),
        })
    }

    /// How many classes there are, the pages of the quotient.
    pub fn nodes(&self) -> u64
        ensures value { result ≡ self.now.pages.count }
        ensures classes { AreClasses self.now.pages }
        ensures few { arc_count (whole self.now.pages) ≤ MOST_ARCS }
    {
        self.ranges.count()
    }

    /// The first class of the range.
    #[inline(always)]
    pub fn from(&self) -> u64
        ensures value { result ≡ self.now.from }
        ensures ordered { self.now.from ≤ self.now.to }
    {
        self.ranges.from()
    }

    /// The class behind the last one of the range.
    #[inline(always)]
    pub fn to(&self) -> u64
        ensures value { result ≡ self.now.to }
        ensures within { self.now.to ≤ self.now.pages.count }
    {
        self.ranges.to()
    }

    /// Goes to the next range, in one pass along the lists: it ends with the class by which `room` arcs or more leave
    /// its pages, or with the last class. The memory of the range before is given back first. If there is none for
    /// the next, the range is empty, and stands before the same class.
    pub fn advance(&mut self, alloc: Global, room: u64) -> Result<(), AllocError>
        ensures pages { self.new.pages ≡ self.old.pages }
        ensures from { self.new.from ≡ self.old.to }
        ensures within { self.new.to ≤ self.old.pages.count }
        ensures some { OnOk result (self.old.to < self.old.pages.count → self.old.to < self.new.to) }
        ensures enough { OnOk result (self.new.to < self.old.pages.count
            → room ≤ arcs_from self.old.pages self.old.to self.new.to) }
        ensures least { OnOk result ((class : ℕ) → self.old.to < class → class < self.new.to
            → arcs_from self.old.pages self.old.to class < room) }
        ensures err { OnErr result (self.new.to ≡ self.old.to) }
    {
        self.ranges.advance(alloc, room, &mut self.reached)
    }

    /// Makes `list` the list of this class of the range: the classes that its arcs lead to, ascending, each once. The
    /// arcs of its pages are sorted, in the memory of `list`, 8 bytes each.
    pub fn list(&self, class: u64, list: &mut Vec<u64>) -> Result<(), AllocError>
        requires from { self.now.from ≤ class }
        requires to { class < self.now.to }
        ensures value { OnOk result (list.new.items ≡ successors (whole self.now.pages) class) }
        ensures ascends { OnOk result (Ascends 0 list.new.items) }
        ensures below { OnOk result (Below self.now.pages.count list.new.items) }
    {
        set_of(self.ranges.list(class), list)
    }
}
