//! Binary forms, worked out. The body is empty: the contract is the law.
ghost use Rattle.chart_cases.specs.BinaryCases.{SmallForms};

/// The binary forms of two small grammars, worked out: numbers, closures and products.
pub fn small_forms()
    ensures { SmallForms }
{}
