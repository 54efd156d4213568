//! Small cases of what grammar files spell and stand for: each function here does nothing, and its
//! clause is a theorem.
ghost use Rattle.spec_lbnf_cases.specs.ScanExamples.{SmallScans};
ghost use Rattle.spec_lbnf_cases.specs.ReadingExamples.{SmallReadings};
ghost use Rattle.spec_lbnf_cases.specs.ExpansionExamples.{SmallExpansions};
ghost use Rattle.spec_lbnf_cases.specs.CheckExamples.{SmallChecks};

/// The tokens of small files, by hand.
pub fn small_scans()
    ensures { SmallScans }
{}

/// What small files spell, or their first fault, by hand.
pub fn small_readings()
    ensures { SmallReadings }
{}

/// What small definitions stand for, by hand.
pub fn small_expansions()
    ensures { SmallExpansions }
{}

/// That small definitions are fit, or why they are unfit, by hand.
pub fn small_checks()
    ensures { SmallChecks }
{}
