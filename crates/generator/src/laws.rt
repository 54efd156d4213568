//! Laws of the numbers and texts of seeds. Each is the contract of a function with an empty body.
ghost use Rattle.generator.specs.Laws.{ArePublished, BeginsOfZero, HaveSigns, HaveTenBytes};

/// The numbers of two seeds are the published ones.
pub fn numbers_are_published()
    ensures { ArePublished }
{}

/// How the text of seed 0 begins.
pub fn text_of_zero()
    ensures { BeginsOfZero }
{}

/// Each statement has ten bytes.
pub fn statements_have_ten_bytes()
    ensures { HaveTenBytes }
{}

/// Edits replace signs.
pub fn edits_replace_signs()
    ensures { HaveSigns }
{}
