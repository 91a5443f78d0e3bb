// What the words of a line write.

ghost use Rattle.std.specs.Prelude.{◌≡◌, ◌∷◌, IfSome, is_none};
ghost use Rattle.wg_num.specs.Words.{words_of};
ghost use Rattle.wg_arcs.specs.Numbers.{number_in};
ghost use Rattle.wg_arcs.specs.Reading.{is_skipped, arc_in};

use wg_num::{first_word, read_decimal};

/// The first word of a line and what follows it, unless the line is skipped: it has no words, or is a comment.
#[inline(always)]
pub fn entry(line: &[u8]) -> Option<(&[u8], &[u8])>
    ensures words { IfSome result (λ r. words_of line.now ≡ r.0.now ∷ words_of r.1.now) }
    ensures skipped { is_skipped (words_of line.now) ≡ is_none result }
{
    let (first, rest) = first_word(line);
    if first.is_empty() {
        return None;
    }
    if first[0] == b'#' {
        return None;
    }
    Some((first, rest))
}

/// The number that a first word and what follows it write, if they do.
pub fn sole_number(first: &[u8], rest: &[u8]) -> Option<u64>
    ensures { result ≡ number_in (first.now ∷ words_of rest.now) }
{
    let (second, _) = first_word(rest);
    if !second.is_empty() {
        return None;
    }
    read_decimal(first)
}

/// The arc that a first word and what follows it write, if they do.
#[inline(always)]
pub fn arc(first: &[u8], rest: &[u8]) -> Option<(u64, u64)>
    ensures { result ≡ arc_in (first.now ∷ words_of rest.now) }
{
    let (second, rest) = first_word(rest);
    if second.is_empty() {
        return None;
    }
    let (third, _) = first_word(rest);
    if !third.is_empty() {
        return None;
    }
    Some((read_decimal(first)?, read_decimal(second)?))
}
