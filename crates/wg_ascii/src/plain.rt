// Lines in the form in which they are written.

ghost use Rattle.std.specs.Prelude.{◌≡◌, ◌+◌, ◌≤◌, ◌++◌, length, IfSome, OnSome};
ghost use Rattle.wg_params.specs.declared.limits.TheConstants.{MOST_ARCS, MOST_PAGES};
ghost use Rattle.wg_graph.specs.Ascending.{Ascends, Below};
ghost use Rattle.wg_ascii.specs.Text.{list_line};

use wg_graph::List;
use wg_num::leading_15_digits;
use wg_params::MOST_ARCS;

/// Reads the successors of a page from the first line of a text, and answers the text after this line; so many arcs
/// come before them. It does so only if the line is as it is written and the successors are in order, and goes over it
/// once.
#[inline(always)]
pub fn plain_list<'a>(list: &mut List, text: &'a [u8], n: u64, arcs: u64) -> Option<&'a [u8]>
    requires pages { n ≤ MOST_PAGES }
    requires arcs { arcs ≤ MOST_ARCS }
    ensures line { IfSome result (λ after. text.now ≡ list_line list.new ++ after.now) }
    ensures ascends { OnSome result (Ascends 0 list.new) }
    ensures below { OnSome result (Below n list.new) }
    ensures room { OnSome result (arcs + length list.new ≤ MOST_ARCS) }
{
    list.clear();
    let (first, after) = text.split_first()?;
    if *first == b'\n' {
        return Some(after);
    }
    let mut least = 0;
    let mut count = arcs;
    let mut rest = text;
    'words: loop {
        let (number, end) = leading_15_digits(rest)?;
        if number < least || n <= number || MOST_ARCS <= count {
            return None;
        }
        if list.push(number).is_err() {
            return None;
        }
        let (byte, after) = rest[end..].split_first()?;
        if *byte == b'\n' {
            return Some(after);
        }
        if *byte != b' ' {
            return None;
        }
        least = number + 1;
        count += 1;
        rest = after;
    }
}
