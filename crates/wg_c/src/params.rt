//! The parameters of an archive, as C sees them.
ghost use Rattle.std.specs.Prelude.{◌≡◌, ◌≤◌, Some, IfNone, IfOk, IfErr, IfSome, length, unwrap_or};
ghost use Rattle.wg_params.specs.declared.limits.TheConstants.{MOST_CHAIN};
ghost use Rattle.wg_params.specs.Parameters.{first_bad};
ghost use Rattle.wg_outside.specs.declared.limits.TheConstants.{MOST_BYTES};
ghost use Rattle.wg_c.specs.Answers.{IsMisused};
ghost use Rattle.wg_c.specs.Numbers.{HasZeta, chain_of, code_of, codes_in, params_in};

use wg_outside::MOST_BYTES;
use wg_params::{BadParam, Code, Codes, Layout, Params};

/// The parameters of an archive, in numbers. A code is 0 for unary, 1 for gamma, 2 for delta, 3 for zeta with the
/// parameter `zeta`, and 4 for nibbles. The greatest `chain` is for no limit on references.
#[repr(C)]
#[derive(Clone, Copy, Drop)]
pub struct WgParams {
    pub nodes: u64,
    pub arcs: u64,
    pub window: u64,
    pub chain: u64,
    pub interval: u64,
    pub zeta: u32,
    pub outdegrees: u32,
    pub references: u32,
    pub block_counts: u32,
    pub blocks: u32,
    pub residuals: u32,
    pub offsets: u32,
}

// The code of this number.
fn code_of(zeta: u32, number: u32) -> Code
    ensures { result ≡ code_of zeta number }
{
    match number {
        0 => Code::Unary,
        1 => Code::Gamma,
        2 => Code::Delta,
        3 => Code::Zeta(zeta),
        _ => Code::Nibble,
    }
}

// The number of a code.
fn number_of(zeta: u32, code: Code) -> u32
    requires { HasZeta zeta code }
    ensures { code_of zeta result ≡ code }
{
    match code {
        Code::Unary => 0,
        Code::Gamma => 1,
        Code::Delta => 2,
        Code::Zeta(_) => 3,
        Code::Nibble => 4,
    }
}

// The limit of this number.
fn chain_of(number: u64) -> Option<u64>
    ensures { result ≡ chain_of number }
{
    if number == u64::MAX {
        None
    } else {
        Some(number)
    }
}

// The number of a limit.
fn number_of_chain(chain: Option<u64>) -> u64
    requires { unwrap_or chain 0 ≤ MOST_CHAIN }
    ensures { chain_of result ≡ chain }
{
    chain.unwrap_or(u64::MAX)
}

// The codes of these numbers.
fn codes_in(params: &WgParams) -> Codes
    ensures { result ≡ codes_in params.now }
{
    let zeta = params.zeta;
    Codes {
        outdegrees: code_of(zeta, params.outdegrees),
        references: code_of(zeta, params.references),
        block_counts: code_of(zeta, params.block_counts),
        blocks: code_of(zeta, params.blocks),
        residuals: code_of(zeta, params.residuals),
        offsets: code_of(zeta, params.offsets),
    }
}

// The parameters that these numbers are, or the first that is out of its limits.
fn params_in(params: &WgParams) -> Result<Params, BadParam>
    ensures ok { IfOk result (λ p. p ≡ params_in params.now) }
    ensures bad { IfErr result (λ e. first_bad (params_in params.now) ≡ Some e.key) }
{
    let layout = Layout {
        window: params.window,
        chain: chain_of(params.chain),
        interval: params.interval,
        zeta: params.zeta,
        codes: codes_in(params),
    };
    Params::with_layout(params.nodes, params.arcs, layout)
}

/// The parameters that these numbers are, unless one is out of its limits or this file is longer than a file may be.
pub fn params_for(params: &WgParams, file: &[u8]) -> Option<Params>
    ensures some { IfSome result (λ p. p ≡ params_in params.now) }
    ensures short { IfSome result (λ _. length file.now ≤ MOST_BYTES) }
    ensures none { IfNone result (IsMisused params.now file.now) }
{
    if file.len() as u64 > MOST_BYTES {
        return None;
    }
    match params_in(params) {
        Ok(read) => Some(read),
        Err(_) => None,
    }
}

/// The numbers of these parameters.
pub fn numbers_of(params: &Params) -> WgParams
    ensures { params_in result ≡ params.now }
{
    // tells the limits
    params.nodes();
    let zeta = params.zeta();
    WgParams {
        nodes: params.nodes(),
        arcs: params.arcs(),
        window: params.window(),
        chain: number_of_chain(params.chain()),
        interval: params.interval(),
        zeta,
        outdegrees: number_of(zeta, params.outdegrees()),
        references: number_of(zeta, params.references()),
        block_counts: number_of(zeta, params.block_counts()),
        blocks: number_of(zeta, params.blocks()),
        residuals: number_of(zeta, params.residuals()),
        offsets: number_of(zeta, params.offsets()),
    }
}
