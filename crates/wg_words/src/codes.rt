ghost use Rattle.std.specs.Prelude.{◌≡◌};
ghost use Rattle.wg_words.specs.Layouts.{gamma_or_delta, unary_gamma_or_delta, residual_code};

use wg_params::Code;

/// The code of outdegrees, blocks or offsets that the word names.
pub fn gamma_or_delta(word: &str) -> Option<Code>
    ensures { result ≡ gamma_or_delta word.now }
{
    match word {
        "gamma" => Some(Code::Gamma),
        "delta" => Some(Code::Delta),
        _ => None,
    }
}

/// The code of references or block counts that the word names.
pub fn unary_gamma_or_delta(word: &str) -> Option<Code>
    ensures { result ≡ unary_gamma_or_delta word.now }
{
    match word {
        "unary" => Some(Code::Unary),
        _ => gamma_or_delta(word),
    }
}

/// The code of residuals that the word names, in an archive with this parameter k of zeta.
pub fn residual_code(zeta: u32, word: &str) -> Option<Code>
    ensures { result ≡ residual_code zeta word.now }
{
    match word {
        "zeta" => Some(Code::Zeta(zeta)),
        "nibble" => Some(Code::Nibble),
        _ => gamma_or_delta(word),
    }
}
