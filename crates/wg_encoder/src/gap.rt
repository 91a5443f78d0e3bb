ghost use Rattle.std.specs.Prelude.{◌≡◌, ◌<◌, ◌^◌};
ghost use Rattle.wg_greedy.specs.Fields.{stored_gap};

use wg_codes::fold;

/// How a number is stored: by its distance from the page, folded, if nothing comes before it; else by its distance
/// from what comes before, less 1.
#[inline(always)]
pub(crate) fn stored_gap(page: u64, before: Option<u64>, number: u64) -> u64
    requires page { page < 2 ^ 62 }
    requires number { number < 2 ^ 62 }
    ensures { result ≡ stored_gap page before number }
{
    match before {
        Some(before) => number.saturating_sub(before).saturating_sub(1),
        None => fold(number as i64 - page as i64),
    }
}
