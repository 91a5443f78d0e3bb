// The words of a line, one after the other.

ghost use Rattle.std.specs.Prelude.{◌≡◌, ◌<◌, [], ◌∷◌, length, MatchOption, IfSome};
ghost use Rattle.wg_num.specs.Words.{words_of};

use wg_num::first_word;

/// The next word of a line and the text after it, if there is one.
#[inline(always)]
pub fn next_word(line: &[u8]) -> Option<(&[u8], &[u8])>
    ensures words { MatchOption result (words_of line.now ≡ []) (λ r. words_of line.now ≡ r.0.now ∷ words_of r.1.now) }
    ensures shorter { IfSome result (λ r. length r.1.now < length line.now) }
{
    let (word, rest) = first_word(line);
    if word.is_empty() {
        return None;
    }
    Some((word, rest))
}
