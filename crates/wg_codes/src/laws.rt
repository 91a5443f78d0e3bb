//! What holds of the words themselves.
ghost use Rattle.wg_codes.specs.Laws.{OneCaseHolds, NoWordBeginsAnother, WordsAreShort, PrefixesTell, LongPrefixesTell};
ghost use Rattle.wg_codes.specs.Laws.{ZetaOneIsGamma, FoldsBack, UnfoldsFrom};

/// No word begins another; what a prefix of some bits tells holds of all of them; zeta of 1 is gamma; the fold and its
/// inverse undo each other.
pub fn words_and_folds()
    ensures one_case { OneCaseHolds }
    ensures no_word_begins_another { NoWordBeginsAnother }
    ensures short { WordsAreShort }
    ensures prefixes { PrefixesTell }
    ensures long_prefixes { LongPrefixesTell }
    ensures zeta_one { ZetaOneIsGamma }
    ensures fold { FoldsBack }
    ensures from { UnfoldsFrom }
{}
