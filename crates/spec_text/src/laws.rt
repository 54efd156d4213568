//! Laws of scalars and of printed text. Each is the contract of a function with an empty body.
ghost use Rattle.spec_text.specs.Escapes.{PrintsSmallTexts};
ghost use Rattle.spec_text.specs.Laws.{HasScalarsLength};

/// The first byte of a scalar tells how many bytes the scalar has.
pub fn scalars_have_their_length()
    ensures { HasScalarsLength }
{}

/// How small texts are printed.
pub fn small_texts_are_printed()
    ensures { PrintsSmallTexts }
{}
