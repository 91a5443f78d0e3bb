//! The residuals of a record, one after the other.
ghost use Rattle.std.specs.Prelude.{◌≡◌, ℕ, ◌^◌, ◌<◌, List, [], Bool, length, None, Some};
ghost use Rattle.wg_params.specs.Codes.{IsCode};
ghost use Rattle.wg_bits.specs.Bits.{rest};
ghost use Rattle.wg_graph.specs.Coming.{Gives};
ghost use Rattle.wg_decoder.specs.Proper.Laid.{ResidualsTo};

use super::lookahead::{Lookahead, value};
use std::marker::Model;
use wg_codes::number_of_gap;
use wg_params::Code;

/// Gives the residuals of a record, ascending. Contracts see it as the list of those to come, and the bits behind the
/// last.
#[derive(Debug, Drop)]
pub struct Residuals<'a> {
    // stands behind the residuals that were read
    cursor: Lookahead<'a>,
    code: Code,
    page: u64,
    // the last one that was given
    last: Option<u64>,
    // how many have not been read
    unread: u64,
}

impl<'a> Model for Residuals<'a> {
    ghost use Rattle.std.specs.Prelude.{◌≡◌, ℕ, List, Bool, ◌^◌, ◌<◌, length};
    ghost use Rattle.wg_params.specs.Codes.{IsCode};
    ghost use Rattle.wg_bits.specs.Bits.{rest};
    ghost use Rattle.wg_decoder.specs.Proper.Remaining.{Remaining, residuals_at, behind_values};
    ghost use Rattle.wg_decoder.specs.Proper.Laid.{ResidualsTo};

    ghost Value = { Remaining };

    ghost view = { λ r. record {
      list = residuals_at r.code r.page r.last r.unread (rest r.cursor);
      behind = behind_values r.code r.unread (rest r.cursor);
    } };

    ghost invariant = { λ r. IsCode r.code × (r.page < 2 ^ 62)
        × ((ys : List ℕ) × (behind : List Bool) × (length ys ≡ r.unread)
        × ResidualsTo r.code r.page r.last ys (rest r.cursor) behind) };
}

impl<'a> Residuals<'a> {
    /// The residuals that stand at the cursor, so many.
    #[inline(always)]
    pub fn new(cursor: Lookahead<'a>, code: Code, page: u64, count: u64) -> Residuals<'a>
        requires code { IsCode code }
        requires page { page < 2 ^ 62 }
        requires stand { (ys : List ℕ) × (behind : List Bool) × (length ys ≡ count)
            × ResidualsTo code page None ys (rest cursor) behind }
        ensures list { (ys : List ℕ) (behind : List Bool) → length ys ≡ count
            → ResidualsTo code page None ys (rest cursor.entry) behind → result.list ≡ ys }
        ensures behind { (ys : List ℕ) (behind : List Bool) → length ys ≡ count
            → ResidualsTo code page None ys (rest cursor.entry) behind → result.behind ≡ behind }
    {
        Residuals {
            cursor,
            code,
            page,
            last: None,
            unread: count,
        }
    }

    /// The next residual; none if none is left, again and again.
    #[inline(always)]
    pub fn next(&mut self) -> Option<u64>
        ensures gives { Gives self.old.list result self.new.list }
        ensures behind { self.new.behind ≡ self.old.behind }
    {
        if self.unread == 0 {
            return None;
        }
        let number = number_of_gap(self.page, self.last, value(self.code, &mut self.cursor));
        self.last = Some(number);
        self.unread -= 1;
        Some(number)
    }

    // How many bits stand behind the last residual, if all were given.
    #[inline(always)]
    pub(crate) fn left_behind(&self) -> u64
        requires { self.now.list ≡ [] }
        ensures { result ≡ length self.now.behind }
    {
        self.cursor.remaining()
    }
}
