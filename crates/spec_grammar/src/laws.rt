//! Laws of derivation and of steps between categories. Each body is empty: the contract is the law,
//! and calling the function cites it.
ghost use Rattle.spec_grammar.specs.Laws.{CategoryDerivesByItsRules, ItemsDeriveInTurn};
ghost use Rattle.spec_grammar.specs.Laws.{ItemsLieWithin, KindDerivesItsToken};
ghost use Rattle.spec_grammar.specs.Laws.{EmptyItemsDeriveEmptySpan, NoStrayIsDerived};
ghost use Rattle.spec_grammar.specs.Laws.{NullableDerivesEverywhere, SpansLieWithin};
ghost use Rattle.spec_grammar.specs.CycleLaws.{ChainsAreShort, RanksAreUnique, StepsLowerRanks};

/// A nullable symbol derives the empty span at every place of every text, and at one place is
/// enough.
pub fn nullable_everywhere()
    ensures { NullableDerivesEverywhere }
{}

/// A kind derives the spans of one token of its own, and no other span.
pub fn a_kind_derives_its_tokens()
    ensures { KindDerivesItsToken }
{}

/// A category derives what the right side of one of its rules derives.
pub fn a_category_derives_by_its_rules()
    ensures { CategoryDerivesByItsRules }
{}

/// Items derive a span where each derives a part of it, from left to right. An empty list of items
/// derives the empty spans alone.
pub fn items_derive_in_turn()
    ensures none { EmptyItemsDeriveEmptySpan }
    ensures some { ItemsDeriveInTurn }
{}

/// A derived span does not run backwards, and one that is not empty ends within the text.
pub fn spans_lie_within()
    ensures symbol { SpansLieWithin }
    ensures items { ItemsLieWithin }
{}

/// Each token of a derived span has a kind: no derivation covers a stray token.
pub fn no_stray_is_derived()
    ensures { NoStrayIsDerived }
{}

/// A category that another steps to is of lower rank.
pub fn steps_lower_ranks()
    ensures { StepsLowerRanks }
{}

/// A category has one rank at most.
pub fn one_rank()
    ensures { RanksAreUnique }
{}

/// Where no category reaches itself, no chain has as many steps as there are categories.
pub fn chains_are_short()
    ensures { ChainsAreShort }
{}
