ghost use Rattle.std.specs.Prelude.{◌≡◌, ◌<◌, ◌≤◌, All, length, vec_len};
ghost use Rattle.std.specs.Option.{SomeIff};
ghost use Rattle.wg_params.specs.declared.limits.TheConstants.{MOST_PAGES, MOST_DAMPING};
ghost use Rattle.wg_rank.specs.Sum.{sum_below};
ghost use Rattle.wg_rank.specs.Intervals.{by_page};
ghost use Rattle.wg_rank.specs.Claims.{IsClaim};
ghost use Rattle.wg_rank.specs.declared.limits.TheConstants.{UNITS};

use crate::UNITS;
use crate::settling::total;
use std::marker::Model;

/// A claim to a lower bound of the PageRank of each page, in units of 10^-24, at some damping. All bounds together are
/// at most 1. It holds 16 bytes for each page.
#[derive(Debug, Drop)]
pub struct Certificate {
    // In thousandths.
    damping: u64,
    low: Vec<u128>,
}

impl Model for Certificate {
    ghost use Rattle.wg_rank.specs.Claims.{Claim};
    ghost use Rattle.wg_rank.specs.ClaimsInside.{claim_inside, IsKept};

    ghost Value = { Claim };

    ghost view = { claim_inside };

    ghost invariant = { IsKept };
}

impl Certificate {
    /// The certificate of these bounds, unless they add up to more than 1.
    pub fn new(damping: u64, low: Vec<u128>) -> Option<Certificate>
        requires pages { vec_len low ≤ MOST_PAGES }
        requires damping { damping ≤ MOST_DAMPING }
        requires units { All (λ x. x ≤ UNITS) low.items }
        ensures { let sum = sum_below (length low.items) (by_page low.items) in
            SomeIff result (sum ≤ UNITS) (record { damping = damping; low = low.items }) }
    {
        if total(&low) > UNITS {
            return None;
        }
        Some(Certificate { damping, low })
    }

    /// The damping, in thousandths.
    pub fn damping(&self) -> u64
        ensures value { result ≡ self.now.damping }
        ensures proper { IsClaim self.now }
    {
        self.damping
    }

    /// The lower bounds of the pages, in units.
    pub fn as_slice(&self) -> &[u128]
        ensures { result.now ≡ self.now.low }
    {
        self.low.as_slice()
    }
}
