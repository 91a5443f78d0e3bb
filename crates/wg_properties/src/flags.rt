ghost use Rattle.std.specs.Prelude.{◌≡◌};
ghost use Rattle.std.specs.Str.{bytes_eq};
ghost use Rattle.wg_properties.specs.Flags.{code_of, with_flag, flag_of, codes_of};
ghost use Rattle.wg_properties.specs.Words.{front_of, end_of, word_of};

use crate::PropFault;
use wg_num::{without_blanks_after, without_blanks_before};
use wg_params::{Code, Codes};

/// A field whose code a flag says.
#[derive(Clone, Copy)]
pub enum Field {
    Outdegrees,
    Blocks,
    References,
    BlockCounts,
    Residuals,
    Offsets,
}

/// A code without its parameter.
#[derive(Clone, Copy)]
pub enum Form {
    Unary,
    Gamma,
    Delta,
    Zeta,
    Nibble,
}

/// A compression flag: a field and the form of its code.
pub type Flag = (Field, Form);

/// All flags, field by field, in the order in which they are written.
pub const FLAGS: [Flag; 16] = [
    (Field::Outdegrees, Form::Gamma),
    (Field::Outdegrees, Form::Delta),
    (Field::Blocks, Form::Gamma),
    (Field::Blocks, Form::Delta),
    (Field::References, Form::Unary),
    (Field::References, Form::Gamma),
    (Field::References, Form::Delta),
    (Field::BlockCounts, Form::Unary),
    (Field::BlockCounts, Form::Gamma),
    (Field::BlockCounts, Form::Delta),
    (Field::Residuals, Form::Gamma),
    (Field::Residuals, Form::Delta),
    (Field::Residuals, Form::Zeta),
    (Field::Residuals, Form::Nibble),
    (Field::Offsets, Form::Gamma),
    (Field::Offsets, Form::Delta),
];

/// The front of a flag's word, which names the field.
#[tactic(auto, unfolding(crate::specs::Words::front_of))]
pub fn front_of(field: Field) -> &'static [u8]
    ensures { result.now ≡ front_of field }
{
    match field {
        Field::Outdegrees => b"OUTDEGREES_",
        Field::Blocks => b"BLOCKS_",
        Field::References => b"REFERENCES_",
        Field::BlockCounts => b"BLOCK_COUNT_",
        Field::Residuals => b"RESIDUALS_",
        Field::Offsets => b"OFFSETS_",
    }
}

/// The end of a flag's word, which names the code.
#[tactic(auto, unfolding(crate::specs::Words::end_of))]
pub fn end_of(form: Form) -> &'static [u8]
    ensures { result.now ≡ end_of form }
{
    match form {
        Form::Unary => b"UNARY",
        Form::Gamma => b"GAMMA",
        Form::Delta => b"DELTA",
        Form::Zeta => b"ZETA",
        Form::Nibble => b"NIBBLE",
    }
}

// The code of a form, in an archive with this parameter k of zeta.
fn code_of(zeta: u32, form: Form) -> Code
    ensures { result ≡ code_of zeta form }
{
    match form {
        Form::Unary => Code::Unary,
        Form::Gamma => Code::Gamma,
        Form::Delta => Code::Delta,
        Form::Zeta => Code::Zeta(zeta),
        Form::Nibble => Code::Nibble,
    }
}

/// The codes after one more flag.
pub fn with_flag(zeta: u32, codes: Codes, flag: Flag) -> Codes
    ensures { result ≡ with_flag zeta codes flag }
{
    let (field, form) = flag;
    let code = code_of(zeta, form);
    let mut new = codes;
    match field {
        Field::Outdegrees => new.outdegrees = code,
        Field::Blocks => new.blocks = code,
        Field::References => new.references = code,
        Field::BlockCounts => new.block_counts = code,
        Field::Residuals => new.residuals = code,
        Field::Offsets => new.offsets = code,
    }
    new
}

fn is_word_of(flag: Flag, word: &[u8]) -> bool
    ensures { result ≡ bytes_eq word.now (word_of flag) }
{
    match word.strip_prefix(front_of(flag.0)) {
        Some(end) => end == end_of(flag.1),
        None => false,
    }
}

/// The flag that a word names.
#[tactic(auto, unfolding(crate::specs::Flags::flag_of))]
pub fn flag_of(word: &[u8]) -> Option<Flag>
    ensures { result ≡ flag_of word.now }
{
    FLAGS.iter().copied().find(|flag| is_word_of(*flag, word))
}

/// The codes that the flags of a value give, if each is known.
pub fn codes_of(zeta: u32, value: &[u8]) -> Result<Codes, PropFault>
    ensures { result ≡ codes_of zeta value.now }
{
    let mut codes = Codes::defaults(zeta);
    if value.is_empty() {
        return Ok(codes);
    }
    let mut number: u64 = 0;
    for piece in value.split(|byte| *byte == b'|') {
        number += 1;
        match flag_of(without_blanks_before(without_blanks_after(piece))) {
            Some(flag) => codes = with_flag(zeta, codes, flag),
            None => return Err(PropFault::Flag(number)),
        }
    }
    Ok(codes)
}
