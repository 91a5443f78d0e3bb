ghost use Rattle.std.specs.Prelude.{◌≡◌, IfOk, map, option_map};
ghost use Rattle.clap.specs.Words.{rows_of, found_of, all_of, first_of};
ghost use Rattle.wg_words.specs.Values.{nonempty_of, name_in, optional_name_in, limited, number_up_to, number_in, numbers_of, numbers_in, required_in, unlimited_in, word_in};

use clap::ArgMatches;
use std::alloc::{AllocError, Global};
use wg_graph::List;
use wg_num::read_decimal;

/// The text of an argument.
pub fn text_at<'a>(found: &ArgMatches<'a>, id: &str) -> Option<&'a str>
    ensures { option_map (λ s. s.now) result ≡ first_of id.now (rows_of (found_of found.now)) }
{
    found.get_str(id)
}

/// The name that an argument gives: none if the argument is absent or empty.
pub fn name_at<'a>(found: &ArgMatches<'a>, id: &str) -> Option<&'a str>
    ensures { option_map (λ s. s.now) result ≡ name_in (rows_of (found_of found.now)) id.now }
{
    nonempty(text_at(found, id)?)
}

fn nonempty(text: &str) -> Option<&str>
    ensures { option_map (λ s. s.now) result ≡ nonempty_of text.now }
{
    if text.is_empty() {
        return None;
    }
    Some(text)
}

/// The name that an option gives, if it is there: outside, none if the name is empty.
pub fn optional_name_at<'a>(found: &ArgMatches<'a>, id: &str) -> Option<Option<&'a str>>
    ensures { option_map (option_map (λ s. s.now)) result ≡ optional_name_in (rows_of (found_of found.now)) id.now }
{
    match text_at(found, id) {
        None => Some(None),
        Some(text) => Some(Some(nonempty(text)?)),
    }
}

/// The number that an option gives: its default if the option is absent.
pub fn number_at(found: &ArgMatches<'_>, id: &str, default: u64, most: u64) -> Option<u64>
    ensures { result ≡ number_in (rows_of (found_of found.now)) id.now default most }
{
    match text_at(found, id) {
        None => Some(default),
        Some(text) => number_up_to(text, most),
    }
}

/// The number whose decimal the text is, if it is at most its limit.
pub fn number_up_to(text: &str, most: u64) -> Option<u64>
    ensures { result ≡ number_up_to most text.now }
{
    limited(read_decimal(text.as_bytes())?, most)
}

// The number, if it is at most its limit.
fn limited(number: u64, most: u64) -> Option<u64>
    ensures { result ≡ limited most number }
{
    if number > most {
        return None;
    }
    Some(number)
}

/// The number that an option without a default gives.
pub fn required_at(found: &ArgMatches<'_>, id: &str, most: u64) -> Option<u64>
    ensures { result ≡ required_in (rows_of (found_of found.now)) id.now most }
{
    number_up_to(text_at(found, id)?, most)
}

/// The number below 2^64 that an argument gives: none if it is absent or no decimal.
pub fn unlimited_at(found: &ArgMatches<'_>, id: &str) -> Option<u64>
    ensures { result ≡ unlimited_in (rows_of (found_of found.now)) id.now }
{
    read_decimal(text_at(found, id)?.as_bytes())
}

// The texts of an argument, in the order of the words.
fn texts_at<'a, 'b>(found: &'b ArgMatches<'a>, id: &str) -> Option<&'b [&'a str]>
    ensures { option_map (λ texts. map (λ s. s.now) texts.now) result ≡ all_of id.now (rows_of (found_of found.now)) }
{
    found.get_strs(id)
}

/// The numbers that an argument of several values gives: none if it is absent, or if one of its texts is no
/// number. They take 8 bytes each.
pub fn numbers_at(
    alloc: Global,
    found: &ArgMatches<'_>,
    id: &str,
) -> Result<Option<List>, AllocError>
    ensures { IfOk result (λ numbers. numbers ≡ numbers_in (rows_of (found_of found.now)) id.now) }
{
    match texts_at(found, id) {
        None => Ok(None),
        Some(texts) => numbers_of(alloc, texts),
    }
}

fn numbers_of(alloc: Global, texts: &[&str]) -> Result<Option<List>, AllocError>
    ensures { IfOk result (λ numbers. numbers ≡ numbers_of (map (λ s. s.now) texts.now)) }
{
    let mut numbers = List::new(alloc);
    for text in texts {
        let Some(number) = read_decimal(text.as_bytes()) else {
            return Ok(None);
        };
        numbers.push(number)?;
    }
    Ok(Some(numbers))
}

/// The word that an option gives: its default if the option is absent.
pub fn word_at<'a>(found: &ArgMatches<'a>, id: &str, default: &'a str) -> &'a str
    ensures { result.now ≡ word_in (rows_of (found_of found.now)) id.now default.now }
{
    text_at(found, id).unwrap_or(default)
}
