ghost use Rattle.std.specs.Prelude.{◌≡◌, [], ◌∷◌, ◌++◌, decimal, OnOk, IfOk, if◌then◌else◌};
ghost use Rattle.wg_params.specs.declared.key.Key.TheVariants as key;
ghost use Rattle.wg_properties.specs.Text.{holds, is_written, flags_text, chain_text, pair, ended, text_of};
ghost use Rattle.wg_properties.specs.Words.{word_of};

use crate::flags::{FLAGS, Flag, end_of, front_of, with_flag};
use std::alloc::{AllocError, Global};
use wg_num::decimal_into;
use wg_outside::List8;
use wg_params::{Codes, Key, Params, key_name};

// Whether the codes are as the flag says: it changes none of them.
fn holds(zeta: u32, codes: Codes, flag: Flag) -> bool
    ensures { result ≡ holds zeta codes flag }
{
    with_flag(zeta, codes, flag) == codes
}

// Whether the flag holds of the parameters, and not of the defaults.
fn is_written(params: &Params, flag: Flag) -> bool
    ensures { result ≡ is_written params.now flag }
{
    let zeta = params.zeta();
    holds(zeta, params.layout().codes, flag) && !holds(zeta, Codes::defaults(zeta), flag)
}

fn add_flag(text: &mut List8, flag: Flag, is_first: bool) -> Result<(), AllocError>
    ensures { OnOk result (text.new ≡ text.old ++ (if is_first then word_of flag else 32 ∷ 124 ∷ 32 ∷ word_of flag)) }
{
    if !is_first {
        text.extend(b" | ")?;
    }
    text.extend(front_of(flag.0))?;
    text.extend(end_of(flag.1))
}

fn add_flags(text: &mut List8, params: &Params) -> Result<(), AllocError>
    ensures { OnOk result (text.new ≡ text.old ++ flags_text params.now) }
{
    let mut is_first = true;
    for flag in FLAGS {
        if is_written(params, flag) {
            add_flag(text, flag, is_first)?;
            is_first = false;
        }
    }
    Ok(())
}

fn add_line(text: &mut List8, key: Key, value: &[u8]) -> Result<(), AllocError>
    ensures { OnOk result (text.new ≡ text.old ++ ended (pair key value.now)) }
{
    text.extend(key_name(key).as_bytes())?;
    text.extend(b"=")?;
    text.extend(value)?;
    text.extend(b"\n")
}

fn add_number(text: &mut List8, key: Key, value: u64) -> Result<(), AllocError>
    ensures { OnOk result (text.new ≡ text.old ++ ended (pair key (decimal value))) }
{
    let mut digits = [0u8; 20];
    let count = decimal_into(value, &mut digits);
    add_line(text, key, &digits[..count])
}

fn add_chain(text: &mut List8, chain: Option<u64>) -> Result<(), AllocError>
    ensures { OnOk result (text.new ≡ text.old ++ ended (pair key.MaxRefCount (chain_text chain))) }
{
    match chain {
        Some(limit) => add_number(text, Key::MaxRefCount, limit),
        None => add_line(text, Key::MaxRefCount, b"-1"),
    }
}

fn add_codes(text: &mut List8, params: &Params) -> Result<(), AllocError>
    ensures { OnOk result (text.new ≡ text.old
        ++ ended (pair key.CompressionFlags (flags_text params.now))) }
{
    text.extend(key_name(Key::CompressionFlags).as_bytes())?;
    text.extend(b"=")?;
    add_flags(text, params)?;
    text.extend(b"\n")
}

// All lines, in order. The class comes last.
fn add_all(text: &mut List8, params: &Params) -> Result<(), AllocError>
    requires { text.old ≡ [] }
    ensures { OnOk result (text.new ≡ text_of params.now) }
{
    text.extend(b"#BVGraph properties\n")?;
    add_line(text, Key::Version, b"0")?;
    add_number(text, Key::Nodes, params.nodes())?;
    add_number(text, Key::Arcs, params.arcs())?;
    add_number(text, Key::WindowSize, params.window())?;
    add_chain(text, params.chain())?;
    add_number(text, Key::MinIntervalLength, params.interval())?;
    add_number(text, Key::ZetaK, u64::from(params.zeta()))?;
    add_codes(text, params)?;
    add_line(text, Key::GraphClass, b"it.unimi.dsi.webgraph.BVGraph")?;
    Ok(())
}

/// The properties text of parameters, which [`read`](crate::read) reads again. Each key has its line, and of the codes
/// those that are not the defaults are written. The class comes last, so that no prefix is read that lacks more than
/// the last LF.
pub fn write(alloc: Global, params: &Params) -> Result<List8, AllocError>
    ensures { IfOk result (λ text. text ≡ text_of params.now) }
{
    let mut text = List8::new(alloc);
    add_all(&mut text, params)?;
    Ok(text)
}
