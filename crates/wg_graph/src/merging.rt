//! Ascending lists that are merged in memory that is there.
ghost use Rattle.std.specs.Prelude.{◌≡◌, ◌↔◌, ℕ, suc, ◌+◌, ◌-◌, ◌<◌, ◌≤◌, List as ListOf, [], ◌∷◌, ◌++◌, length, take, get_or, IsTrue};
ghost use Rattle.wg_graph.specs.Ascending.{Ascends, Below};
ghost use Rattle.wg_graph.specs.Numbers.{is_in_either, numbers_where};
ghost use Rattle.wg_graph.specs.Joined.{Joined};

// Whether the member with this index is the number.
#[inline(always)]
fn stands_at(members: &[u64], index: usize, number: u64) -> bool
    ensures { IsTrue result ↔ ((index < length members.now) × (get_or members.now index 0 ≡ number)) }
{
    match members.get(index) {
        Some(member) => *member == number,
        None => false,
    }
}

// Writes the members from index `from` on that are below the number, and the number, to this place and on; answers
// where they end, and how many members are not above the number.
#[inline(always)]
pub(crate) fn write_joined(
    to: &mut [u64],
    at: usize,
    members: &[u64],
    from: usize,
    number: u64,
) -> (usize, usize)
    requires from { from ≤ length members.now }
    requires room { at + (length members.now - from) < length to.old }
    ensures length { length to.new ≡ length to.old }
    ensures end { result.0 ≤ length to.new }
    ensures within { result.1 ≤ length members.now }
    ensures joined { (numbers : ListOf ℕ) (m : ℕ) → m ≤ number
        → Joined members.now numbers from (take at to.old) m
        → Joined members.now (numbers ++ number ∷ []) result.1 (take result.0 to.new) (suc number) }
{
    let mut taken = from;
    let mut end = at;
    'below: while taken < members.len() && members[taken] < number {
        to[end] = members[taken];
        end += 1;
        taken += 1;
    }
    to[end] = number;
    if stands_at(members, taken, number) {
        return (end + 1, taken + 1);
    }
    (end + 1, taken)
}

// Writes what is left of a list to this place and on; answers where it ends.
#[inline(always)]
fn write_rest(to: &mut [u64], at: usize, rest: &[u64]) -> usize
    requires { at + length rest.now ≤ length to.old }
    ensures length { length to.new ≡ length to.old }
    ensures end { result ≤ length to.new }
    ensures written { take result to.new ≡ take at to.old ++ rest.now }
{
    let end = at + rest.len();
    to[at..end].copy_from_slice(rest);
    end
}

// Writes the numbers of two ascending lists, ascending, a number of both once; answers where they end. No branch is
// taken by the numbers.
#[inline(always)]
pub(crate) fn write_union(to: &mut [u64], members: &[u64], numbers: &[u64]) -> usize
    requires members { Ascends 0 members.now }
    requires numbers { Ascends 0 numbers.now }
    requires room { length members.now + length numbers.now ≤ length to.old }
    ensures length { length to.new ≡ length to.old }
    ensures end { result ≤ length to.new }
    ensures union { (n : ℕ) → Below n members.now → Below n numbers.now
        → take result to.new ≡ numbers_where (is_in_either members.now numbers.now) 0 n }
{
    let mut taken = 0;
    let mut done = 0;
    let mut end = 0;
    'merge: while taken < members.len() && done < numbers.len() {
        let member = members[taken];
        let number = numbers[done];
        to[end] = member.min(number);
        end += 1;
        taken += (member <= number) as usize;
        done += (number <= member) as usize;
    }
    if taken < members.len() {
        return write_rest(to, end, &members[taken..]);
    }
    write_rest(to, end, &numbers[done..])
}
