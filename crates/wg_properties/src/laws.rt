ghost use Rattle.wg_properties.specs.Laws.{AreShort, PrefixesAreRefused, ReadsBack};

/// What is written of parameters is read as these parameters, no prefix is read that lacks more than the last LF, and
/// the text is short.
pub fn written_texts()
    ensures back { ReadsBack }
    ensures prefixes { PrefixesAreRefused }
    ensures short { AreShort }
{}
