ghost use Rattle.std.specs.Prelude.{◌≡◌};
ghost use Rattle.wg_params.specs.Parameters.{default_codes};

use crate::Code;

/// The code of each field.
#[derive(Clone, Copy, Debug, PartialEq, Eq)]
pub struct Codes {
    /// The code of outdegrees.
    pub outdegrees: Code,
    /// The code of references.
    pub references: Code,
    /// The code of the numbers of blocks.
    pub block_counts: Code,
    /// The code of blocks.
    pub blocks: Code,
    /// The code of residuals.
    pub residuals: Code,
    /// The code of the words of an offsets file.
    pub offsets: Code,
}

impl Codes {
    /// The default codes of the format, with this parameter k of zeta: references in unary, residuals in zeta, and the
    /// other fields in gamma.
    pub fn defaults(zeta: u32) -> Codes
        ensures { result ≡ default_codes zeta }
    {
        Codes {
            outdegrees: Code::Gamma,
            references: Code::Unary,
            block_counts: Code::Gamma,
            blocks: Code::Gamma,
            residuals: Code::Zeta(zeta),
            offsets: Code::Gamma,
        }
    }
}

/// How an archive is written, whatever graph it holds: all its parameters but the numbers of its pages and arcs.
#[derive(Clone, Copy, Debug, PartialEq, Eq)]
pub struct Layout {
    /// How many pages back a reference may reach; 0 for no references.
    pub window: u64,
    /// How many references may lead from one page to the next, or none for any number.
    pub chain: Option<u64>,
    /// The least length of an interval; 0 for no intervals.
    pub interval: u64,
    /// The parameter k of zeta codes.
    pub zeta: u32,
    /// The code of each field.
    pub codes: Codes,
}
