ghost use Rattle.std.specs.Prelude.{◌≡◌, ◌<◌};
ghost use Rattle.wg_num.specs.Decimal.{number_of};
ghost use Rattle.wg_params.specs.declared.key.Key.TheVariants as key;
ghost use Rattle.wg_properties.specs.Judged.{within, judged_class, judged_version, judged_endianness, judged_number, judged_chain, judged_zeta, judged_flags, judged, properties_of};
ghost use Rattle.wg_properties.specs.Values.{value_at};

use crate::PropFault;
use crate::flags::codes_of;
use crate::values::Values;
use wg_num::read_decimal;
use wg_params::{
    Codes, Key, Layout, MOST_ARCS, MOST_CHAIN, MOST_INTERVAL, MOST_PAGES, MOST_WINDOW, MOST_ZETA,
    Params,
};

fn number_within(key: Key, least: u64, most: u64, text: &[u8]) -> Result<u64, PropFault>
    ensures { result ≡ within key least most (number_of text.now) }
{
    match read_decimal(text) {
        Some(number) if number < least || number > most => Err(PropFault::Range(key)),
        Some(number) => Ok(number),
        None => Err(PropFault::Number(key)),
    }
}

#[tactic(auto, unfolding(crate::specs::Words::class_name, crate::specs::Words::long_class_name))]
fn judge_class(values: &Values) -> Result<(), PropFault>
    ensures { result ≡ judged_class (value_at values.now key.GraphClass) }
{
    match values.get(Key::GraphClass) {
        Some(class) => {
            if class == b"it.unimi.dsi.webgraph.BVGraph".as_slice()
                || class == b"class it.unimi.dsi.webgraph.BVGraph".as_slice()
            {
                Ok(())
            } else {
                Err(PropFault::Class)
            }
        }
        None => Err(PropFault::Missing(Key::GraphClass)),
    }
}

fn judge_version(values: &Values) -> Result<(), PropFault>
    ensures { result ≡ judged_version (value_at values.now key.Version) }
{
    match values.get(Key::Version) {
        Some(version) => {
            if version == b"0".as_slice() {
                Ok(())
            } else {
                Err(PropFault::Version)
            }
        }
        None => Err(PropFault::Missing(Key::Version)),
    }
}

fn judge_endianness(values: &Values) -> Result<(), PropFault>
    ensures { result ≡ judged_endianness (value_at values.now key.Endianness) }
{
    match values.get(Key::Endianness) {
        Some(order) => {
            if order == b"big".as_slice() {
                Ok(())
            } else {
                Err(PropFault::Endian)
            }
        }
        None => Ok(()),
    }
}

fn judge_number(values: &Values, key: Key, most: u64) -> Result<u64, PropFault>
    ensures { result ≡ judged_number key most (value_at values.now key) }
{
    match values.get(key) {
        Some(text) => number_within(key, 0, most, text),
        None => Err(PropFault::Missing(key)),
    }
}

fn judge_chain(values: &Values) -> Result<Option<u64>, PropFault>
    ensures { result ≡ judged_chain (value_at values.now key.MaxRefCount) }
{
    match values.get(Key::MaxRefCount) {
        Some(text) => {
            if text == b"-1".as_slice() {
                return Ok(None);
            }
            match number_within(Key::MaxRefCount, 0, MOST_CHAIN, text) {
                Ok(chain) => Ok(Some(chain)),
                Err(fault) => Err(fault),
            }
        }
        None => Err(PropFault::Missing(Key::MaxRefCount)),
    }
}

fn judge_zeta(values: &Values) -> Result<u32, PropFault>
    ensures { result ≡ judged_zeta (value_at values.now key.ZetaK) }
{
    match values.get(Key::ZetaK) {
        Some(text) => match number_within(Key::ZetaK, 1, u64::from(MOST_ZETA), text) {
            Ok(zeta) => Ok(zeta as u32),
            Err(fault) => Err(fault),
        },
        None => Ok(3),
    }
}

fn judge_flags(values: &Values, zeta: u32) -> Result<Codes, PropFault>
    ensures { result ≡ judged_flags zeta (value_at values.now key.CompressionFlags) }
{
    match values.get(Key::CompressionFlags) {
        Some(flags) => codes_of(zeta, flags),
        None => codes_of(zeta, b""),
    }
}

fn judge(values: &Values) -> Result<Params, PropFault>
    ensures { result ≡ judged (value_at values.now) }
{
    judge_class(values)?;
    judge_version(values)?;
    judge_endianness(values)?;
    let nodes = judge_number(values, Key::Nodes, MOST_PAGES)?;
    let arcs = judge_number(values, Key::Arcs, MOST_ARCS)?;
    let window = judge_number(values, Key::WindowSize, MOST_WINDOW)?;
    let chain = judge_chain(values)?;
    let interval = judge_number(values, Key::MinIntervalLength, MOST_INTERVAL)?;
    let zeta = judge_zeta(values)?;
    let codes = judge_flags(values, zeta)?;
    let layout = Layout {
        window,
        chain,
        interval,
        zeta,
        codes,
    };
    match Params::with_layout(nodes, arcs, layout) {
        Ok(params) => Ok(params),
        Err(bad) => Err(PropFault::Range(bad.key)),
    }
}

/// The parameters that a properties text stands for, or its first fault. It takes no memory, and time linear in the
/// text.
#[tactic(auto, unfolding(crate::specs::Judged::properties_of))]
pub fn read(bytes: &[u8]) -> Result<Params, PropFault>
    ensures { result ≡ properties_of bytes.now }
{
    let values = Values::read(bytes)?;
    judge(&values)
}
