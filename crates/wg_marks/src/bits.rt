//! The places where copying begins or ends, as bits.
ghost use Rattle.std.specs.Prelude.{◌≡◌, ◌^◌, ◌<◌, ◌≤◌, true};
ghost use Rattle.wg_blocks.specs.Canonical.{mask_runs, without_last};
ghost use Rattle.wg_marks.specs.Masks.{mask_bits, gaps};

// The places of a mask of so many bits where copying begins or ends, if it begins as if the bit before were set.
#[inline(always)]
pub(crate) fn changes(mask: u64, width: usize) -> u64
    requires some { 0 < width }
    requires most { width ≤ 64 }
    ensures gaps { gaps 0 width result ≡ without_last (mask_runs true (mask_bits width mask)) }
    ensures small { result < 2 ^ width }
{
    (mask ^ (mask << 1 | 1)) & (u64::MAX >> (64 - width))
}
