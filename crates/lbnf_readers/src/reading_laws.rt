//! Laws of what a grammar file spells and of its first fault: each function here does nothing, and
//! its clause is a theorem.
ghost use Rattle.lbnf_readers.specs.ReadingLaws.{OneListOfDefs, OneFileOfDefs, OneFirstFault};
ghost use Rattle.lbnf_readers.specs.ReadingLaws.{SpelledOrFaulty, DefsOrFault};

/// Tokens spell at most one list of definitions, and so does a file.
pub fn one_list_of_defs()
    ensures tokens { OneListOfDefs }
    ensures file { OneFileOfDefs }
{}

/// A file has at most one first fault.
pub fn one_first_fault()
    ensures { OneFirstFault }
{}

/// No file both spells definitions and has a first fault.
pub fn spelled_or_faulty()
    ensures { SpelledOrFaulty }
{}

/// Each file spells definitions or has a first fault.
pub fn defs_or_fault()
    ensures { DefsOrFault }
{}
