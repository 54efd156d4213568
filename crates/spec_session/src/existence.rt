//! Each input has a session. The contract of a function with an empty body says so.
ghost use Rattle.spec_session.specs.Existence.{SomeSession};

/// No input is without a session. The law is stated by two denials, since what a category derives
/// is decided by no definition: it gives no witness, but makes statements about every session of an
/// input non-vacuous.
pub fn some_session()
    ensures { SomeSession }
{}
