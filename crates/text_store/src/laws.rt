//! Laws of edits. Each is the contract of a function with an empty body.
ghost use Rattle.text_store.specs.Laws.{MakesNewKinds, HasTrimmedEdit, HasOneTrimmedEdit};
ghost use Rattle.text_store.specs.Laws.{IsLeastEdit, LeavesSameKinds, KeepsUtf8};

/// Any two lists of kinds have one trimmed edit, which makes the new list of the old one.
pub fn one_trimmed_edit()
    ensures makes { MakesNewKinds }
    ensures some { HasTrimmedEdit }
    ensures one { HasOneTrimmedEdit }
{}

/// A trimmed edit is the least: none that makes the same new kinds deletes fewer or inserts fewer. So
/// where the kinds stay the same it does nothing.
pub fn edits_are_least()
    ensures least { IsLeastEdit }
    ensures same { LeavesSameKinds }
{}

/// What is left of UTF-8 where no scalar is cut, with UTF-8 inserted, is UTF-8.
pub fn edits_keep_utf8()
    ensures { KeepsUtf8 }
{}
