// Quotients of large numbers by small ones.
ghost use Rattle.std.specs.Prelude.{◌≡◌, ◌+◌, ◌*◌, ◌<◌, ◌≤◌, ◌/◌};
ghost use Rattle.std.specs.Int.{div_ceil};
ghost use Rattle.wg_params.specs.declared.limits.TheConstants.{MOST_PAGES, MOST_DAMPING};
ghost use Rattle.wg_rank.specs.declared.limits.TheConstants.{UNITS};

// A flow is cut above so many bits.
const CUT_BITS: u32 = 48;

const CUT: u128 = 1 << CUT_BITS;

// The quotient of any number.
#[cold]
#[inline(never)]
pub(crate) fn whole_quotient(value: u128, by: u64) -> u128
    requires { 0 < by }
    ensures { result ≡ value / by }
{
    value / by as u128
}

// The quotient of any number, rounded up.
#[cold]
#[inline(never)]
pub(crate) fn whole_quotient_up(value: u128, by: u64) -> u128
    requires { 0 < by }
    ensures { result ≡ div_ceil value by }
{
    value.div_ceil(by as u128)
}

// What a damping in thousandths leaves of what flows to a page, with `more` thousandths added. The flow is cut before
// it is multiplied, so that it takes two divisions of 64 bits by a number that is known when the program is compiled.
#[inline(always)]
fn damped_with(damping: u64, flow: u128, more: u64) -> u128
    requires damped { damping ≤ MOST_DAMPING }
    requires room { flow ≤ MOST_PAGES * UNITS }
    requires more { more < 1000 }
    ensures { result ≡ (damping * flow + more) / 1000 }
{
    // Below 2^102 the upper part is below 2^54, and its product with a damping, which is below 2^10, fits 64 bits.
    if flow >= 1 << 102 {
        return whole_quotient(damping as u128 * flow + more as u128, 1000);
    }
    let high = damping * (flow / CUT) as u64;
    let low = high % 1000 * (1 << CUT_BITS) + damping * (flow % CUT) as u64 + more;
    (high / 1000) as u128 * CUT + (low / 1000) as u128
}

// What a damping in thousandths leaves of what flows to a page, rounded down.
#[inline(always)]
pub(crate) fn damped(damping: u64, flow: u128) -> u128
    requires damped { damping ≤ MOST_DAMPING }
    requires room { flow ≤ MOST_PAGES * UNITS }
    ensures { result ≡ damping * flow / 1000 }
{
    damped_with(damping, flow, 0)
}

// What a damping in thousandths leaves of what flows to a page, rounded up.
#[inline(always)]
pub(crate) fn damped_up(damping: u64, flow: u128) -> u128
    requires damped { damping ≤ MOST_DAMPING }
    requires room { flow ≤ MOST_PAGES * UNITS }
    ensures { result ≡ div_ceil (damping * flow) 1000 }
{
    damped_with(damping, flow, 999)
}
