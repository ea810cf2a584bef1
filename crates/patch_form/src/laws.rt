//! What holds of all bytes.

ghost use Rattle.patch_form.specs.Laws.{EachIsAnswered, OneFraming, NoneIsShort, NoneIsBad, NoShortIsBad, OneOffset, IsDecimal};

/// Bytes are a patch file, or are cut short, or are bad at an offset.
pub fn each_text_is_answered()
    ensures { EachIsAnswered }
{}

/// Bytes are only one of these, and they have one format, one old text, one new text and one map,
/// or one offset.
pub fn no_text_has_two_answers()
    ensures texts { OneFraming }
    ensures not_short { NoneIsShort }
    ensures not_bad { NoneIsBad }
    ensures short { NoShortIsBad }
    ensures offset { OneOffset }
{}

/// The length of a text that fits into memory is written as it is printed.
pub fn lengths_are_decimal()
    ensures { IsDecimal }
{}
