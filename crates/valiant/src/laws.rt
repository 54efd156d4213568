//! Laws of charts. Each body is empty: the contract is the law.
ghost use Rattle.valiant.specs.Laws.{ChartsAgree, EntriesAreOfSymbols, EntriesTellDerivation};

/// An entry of a chart has the number of a symbol exactly where the symbol derives the span, and it
/// has no other numbers.
pub fn entries_tell_derivation()
    ensures tell { EntriesTellDerivation }
    ensures below { EntriesAreOfSymbols }
{}

/// Charts that stand for the same kinds under a grammar have the same symbols in each entry.
pub fn charts_agree()
    ensures { ChartsAgree }
{}
