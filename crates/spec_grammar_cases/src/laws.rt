//! Derivation, cycles and ranks, worked out. Each body is empty: the contract is the law.
ghost use Rattle.spec_grammar_cases.specs.DerivationCases.{SmallCases};
ghost use Rattle.spec_grammar_cases.specs.CycleCases.{SmallCycles};

/// Spans of small grammars that are derived, and others that are not.
pub fn small_cases()
    ensures { SmallCases }
{}

/// Small grammars with a cycle, without one, and with ranks.
pub fn small_cycles()
    ensures { SmallCycles }
{}
