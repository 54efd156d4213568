//! The sessions of the mode `check`. The contract of a function with an empty body says so.
ghost use Rattle.spec_session.specs.Checking.{OneCheckSession};

/// An input has at most one session in the mode `check`: the reply to its grammar, a line for each
/// rule, and the line `end`, or what breaks the script.
pub fn one_check_session()
    ensures { OneCheckSession }
{}
