ghost use Rattle.std.specs.Prelude.{◌≡◌, ℕ, ◌≤◌, ◌<◌, ◌==◌, ◌∷◌, if◌then◌else◌, length, drop, nat_lt, IfSome, IfNone};
ghost use Rattle.std.specs.List.{prefix_len};
ghost use Rattle.wg_graph.specs.Numbers.{is_in, begins_with};
ghost use Rattle.wg_graph.specs.Ascending.{Ascends};

use std::marker::Model;

/// Tells of one number after the other, ascending, whether it stands in an ascending list.
///
/// It is seen as the numbers that are left to compare with.
#[derive(Debug, Drop)]
pub struct Members<'a> {
    left: &'a [u64],
}

impl<'a> Model for Members<'a> {
    ghost use Rattle.std.specs.Prelude.{List, ℕ};
    ghost use Rattle.wg_graph.specs.Ascending.{Ascends};

    ghost Value = { List ℕ };

    ghost view = { λ m. m.left.now };

    ghost invariant = { λ m. Ascends 0 m.left.now };
}

// How many numbers at the front of the list are below this one.
#[inline(always)]
fn below(list: &[u64], number: u64) -> usize
    ensures count { result ≡ prefix_len (λ x. nat_lt x number) list.now }
    ensures within { result ≤ length list.now }
{
    list.iter().take_while(|x| **x < number).count()
}

// The list without the numbers at its front that are below this one.
#[inline(always)]
fn not_below(list: &[u64], number: u64) -> &[u64]
    ensures { result.now ≡ drop (prefix_len (λ x. nat_lt x number) list.now) list.now }
{
    &list[below(list, number)..]
}

#[inline(always)]
fn begins_with(list: &[u64], number: u64) -> bool
    ensures { result ≡ begins_with number list.now }
{
    match list.first() {
        Some(first) => *first == number,
        None => false,
    }
}

impl<'a> Members<'a> {
    /// Before the first question.
    #[inline(always)]
    pub fn of(list: &'a [u64]) -> Members<'a>
        requires { Ascends 0 list.now }
        ensures { result ≡ list.now }
    {
        Members { left: list }
    }

    /// Whether the number is a member. From then on the answers are right for greater numbers alone. It goes on over
    /// the list, so that all questions together take one pass.
    #[inline(always)]
    pub fn has(&mut self, number: u64) -> bool
        ensures told { result ≡ is_in number self.old }
        ensures later { (y : ℕ) → number ≤ y → is_in y self.new ≡ is_in y self.old }
    {
        self.left = not_below(self.left, number);
        begins_with(self.left, number)
    }

    /// The next member that is left, if it is below the number. It goes past this member.
    #[inline(always)]
    pub fn next_below(&mut self, number: u64) -> Option<u64>
        ensures some { IfSome result (λ x. (x < number) × (self.old ≡ x ∷ self.new)) }
        ensures none { IfNone result (Ascends number self.old × (self.new ≡ self.old)) }
    {
        match self.left.split_first() {
            Some((first, rest)) if *first < number => {
                self.left = rest;
                Some(*first)
            }
            _ => None,
        }
    }

    /// Whether the next member that is left is this number. It goes past this member.
    #[inline(always)]
    pub fn take(&mut self, number: u64) -> bool
        ensures told { result ≡ begins_with number self.old }
        ensures past { self.old ≡ (if result then number ∷ self.new else self.new) }
    {
        match self.left.split_first() {
            Some((first, rest)) if *first == number => {
                self.left = rest;
                true
            }
            _ => false,
        }
    }
}
