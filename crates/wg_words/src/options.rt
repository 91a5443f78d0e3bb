ghost use Rattle.std.specs.Prelude.{◌≡◌};
ghost use Rattle.clap.specs.Words.{rows_of, found_of};
ghost use Rattle.wg_words.specs.Layouts.{chain_of, chain_in, zeta_in, codes_in, layout_in};

use crate::codes::{gamma_or_delta, residual_code, unary_gamma_or_delta};
use crate::defaults::{
    DEFAULT_BLOCK_COUNTS, DEFAULT_BLOCKS, DEFAULT_CHAIN, DEFAULT_INTERVAL, DEFAULT_OFFSETS,
    DEFAULT_OUTDEGREES, DEFAULT_REFERENCES, DEFAULT_RESIDUALS, DEFAULT_WINDOW, DEFAULT_ZETA,
};
use crate::values::{number_at, number_up_to, text_at, word_at};
use clap::ArgMatches;
use wg_params::{Codes, Layout, MOST_CHAIN, MOST_INTERVAL, MOST_WINDOW, MOST_ZETA};

/// The layout that the options of an archive that is written give: none if one is out of its range.
pub fn layout_at(found: &ArgMatches<'_>) -> Option<Layout>
    ensures { result ≡ layout_in (rows_of (found_of found.now)) }
{
    let window = number_at(found, "window", DEFAULT_WINDOW, MOST_WINDOW)?;
    let chain = chain_at(found)?;
    let interval = number_at(found, "interval", DEFAULT_INTERVAL, MOST_INTERVAL)?;
    let zeta = zeta_at(found)?;
    let codes = codes_at(found, zeta)?;
    Some(Layout {
        window,
        chain,
        interval,
        zeta,
        codes,
    })
}

// How many references may lead from one page to the next: inside, none for any number.
fn chain_at(found: &ArgMatches<'_>) -> Option<Option<u64>>
    ensures { result ≡ chain_in (rows_of (found_of found.now)) }
{
    match text_at(found, "chain") {
        None => Some(Some(DEFAULT_CHAIN)),
        Some(text) => chain_of(text),
    }
}

fn chain_of(text: &str) -> Option<Option<u64>>
    ensures { result ≡ chain_of text.now }
{
    if text == "none" {
        return Some(None);
    }
    Some(Some(number_up_to(text, MOST_CHAIN)?))
}

// The parameter k of zeta codes.
fn zeta_at(found: &ArgMatches<'_>) -> Option<u32>
    ensures { result ≡ zeta_in (rows_of (found_of found.now)) }
{
    let zeta = number_at(found, "zeta", u64::from(DEFAULT_ZETA), u64::from(MOST_ZETA))?;
    if zeta == 0 {
        return None;
    }
    u32::try_from(zeta).ok()
}

// The codes that the options give, with this parameter k of zeta: none if a word is unknown.
fn codes_at(found: &ArgMatches<'_>, zeta: u32) -> Option<Codes>
    ensures { result ≡ codes_in (rows_of (found_of found.now)) zeta }
{
    let outdegrees = gamma_or_delta(word_at(found, "outdegrees", DEFAULT_OUTDEGREES))?;
    let references = unary_gamma_or_delta(word_at(found, "references", DEFAULT_REFERENCES))?;
    let block_counts = unary_gamma_or_delta(word_at(found, "blockcounts", DEFAULT_BLOCK_COUNTS))?;
    let blocks = gamma_or_delta(word_at(found, "blocks", DEFAULT_BLOCKS))?;
    let residuals = residual_code(zeta, word_at(found, "residuals", DEFAULT_RESIDUALS))?;
    let offsets = gamma_or_delta(word_at(found, "offsets", DEFAULT_OFFSETS))?;
    Some(Codes {
        outdegrees,
        references,
        block_counts,
        blocks,
        residuals,
        offsets,
    })
}
