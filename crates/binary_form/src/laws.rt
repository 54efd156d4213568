//! Laws of the binary form. Each body is empty: the contract is the law.
ghost use Rattle.binary_form.specs.Laws.{ClosureIsDerivation, NumbersDiffer, NumbersAreBelow};
ghost use Rattle.binary_form.specs.Laws.{NumbersAreUsed, ProductsAgree, PartnersMeet};
ghost use Rattle.binary_form.specs.Laws.{PartnersAreEnough, ProductsHaveLeftSymbols};

/// The closure of unit steps and products is derivation: over a span that is not empty, a symbol is
/// derived exactly where the span is a token whose kind reaches it, or has a cut in two whose
/// product gives it. A suffix stands for the items of its rule from its place on (Lange and Leiss
/// 2009).
pub fn closure_is_derivation()
    ensures { ClosureIsDerivation }
{}

/// Each number below the count of symbols is that of one symbol, and each symbol has one.
pub fn each_symbol_has_its_number()
    ensures differ { NumbersDiffer }
    ensures below { NumbersAreBelow }
    ensures used { NumbersAreUsed }
{}

/// The product over numbers is the product over the symbols that they number.
pub fn products_agree()
    ensures { ProductsAgree }
{}

/// Left partners decide products: a product whose left cell meets none of them is empty, and any
/// other has a symbol. No other symbol of the left cell makes a difference to it. Where the left
/// cell has no symbol that is on the left in some rule, the product is empty.
pub fn left_partners_decide_products()
    ensures meet { PartnersMeet }
    ensures enough { PartnersAreEnough }
    ensures lefts { ProductsHaveLeftSymbols }
{}
