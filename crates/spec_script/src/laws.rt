//! Laws of scripts. Each is the contract of a function with an empty body.
ghost use Rattle.spec_script.specs.Script.{any_order};
ghost use Rattle.spec_script.specs.Laws.{OneScript};

/// An input is at most one script, and it ends or breaks in one place.
pub fn one_script()
    ensures { OneScript any_order }
{}
