ghost use Rattle.std.specs.Prelude.{◌≡◌, length};
ghost use Rattle.wg_properties.specs.Pairs.{is_skipped, is_continued, is_separator, ends_key, without_separator, key_in, value_in};

use wg_num::{is_blank, without_blanks_after, without_blanks_before};

/// Whether a line without blanks at its front is empty or a comment.
pub fn is_skipped(line: &[u8]) -> bool
    ensures { result ≡ is_skipped line.now }
{
    match line.first() {
        Some(byte) => *byte == b'#' || *byte == b'!',
        None => true,
    }
}

/// Whether a line would go on in the next.
#[tactic(auto, unfolding(crate::specs::Pairs::is_continued))]
pub fn is_continued(line: &[u8]) -> bool
    ensures { result ≡ is_continued line.now }
{
    !is_skipped(without_blanks_before(line)) && line.last() == Some(&b'\\')
}

fn is_separator(byte: u8) -> bool
    ensures { result ≡ is_separator byte }
{
    byte == b'=' || byte == b':'
}

fn ends_key(byte: u8) -> bool
    ensures { result ≡ ends_key byte }
{
    is_separator(byte) || is_blank(byte)
}

#[tactic(auto, unfolding(crate::specs::Pairs::key_in))]
fn key_length(line: &[u8]) -> usize
    ensures { result ≡ length (key_in line.now) }
{
    line.iter().take_while(|byte| !ends_key(**byte)).count()
}

fn without_separator(text: &[u8]) -> &[u8]
    ensures { result.now ≡ without_separator text.now }
{
    match text.split_first() {
        Some((byte, rest)) if is_separator(*byte) => rest,
        _ => text,
    }
}

/// The key of a line without blanks at its front, and its value.
#[tactic(auto, unfolding(crate::specs::Pairs::key_in, crate::specs::Pairs::value_in))]
pub fn key_and_value<'a>(line: &'a [u8]) -> (&'a [u8], &'a [u8])
    ensures key { result.0.now ≡ key_in line.now }
    ensures value { result.1.now ≡ value_in line.now }
{
    let (key, rest) = line.split_at(key_length(line));
    let value = without_separator(without_blanks_before(rest));
    (key, without_blanks_after(without_blanks_before(value)))
}
