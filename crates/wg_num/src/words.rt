ghost use Rattle.std.specs.Prelude.{◌≡◌, ◌<◌, [], ◌∷◌, length};
ghost use Rattle.std.specs.List.{before_first};
ghost use Rattle.wg_num.specs.Lines.{is_blank};
ghost use Rattle.wg_num.specs.Words.{words_of};

use crate::lines::{is_blank, without_blanks_before};

// How many bytes come before the first blank.
#[inline(always)]
fn word_length(text: &[u8]) -> usize
    ensures { result ≡ length (before_first is_blank text.now) }
{
    text.iter().take_while(|byte| !is_blank(**byte)).count()
}

/// The first word of a line, and the text after it. The word is empty if there is none.
#[inline(always)]
pub fn first_word(text: &[u8]) -> (&[u8], &[u8])
    ensures none { length result.0.now ≡ 0 → words_of text.now ≡ [] }
    ensures some { 0 < length result.0.now → words_of text.now ≡ result.0.now ∷ words_of result.1.now }
    ensures shorter { 0 < length result.0.now → length result.1.now < length text.now }
{
    let text = without_blanks_before(text);
    let end = word_length(text);
    (&text[..end], &text[end..])
}
