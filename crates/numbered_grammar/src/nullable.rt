//! Which categories derive the empty span: those that follow from the rules, each of which is an
//! implication from its items to its category.
ghost use Rattle.std.specs.Prelude.{◌≡◌, ℕ, Contains, IfOk, OnOk, MatchOption, length};
ghost use Rattle.spec_grammar.specs.declared.rule.Symbol.TheVariants.{Kind};
ghost use Rattle.numbered_grammar.specs.Nullable.{AreNullableFlags, flag_of};
ghost use Rattle.numbered_grammar.specs.RuleImplications.{AddsRule, AreCategoryNumbers, AreOfRules};

use crate::parts::GrammarParts;
use number_graph::{Implications, consequences};
use spec_grammar::{Rule, Symbol};
use std::alloc::{AllocError, Global};

/// Whether the symbol derives the empty span, by the flags of its grammar. A kind does not.
pub(crate) fn is_nullable(flags: &[bool], symbol: Symbol) -> bool
    ensures { result ≡ flag_of flags.now symbol }
{
    match symbol {
        Symbol::Category(c) => flags.get(c as usize).copied().unwrap_or(false),
        Symbol::Kind(_) => false,
    }
}

/// The numbers of the items, and `None` where a kind is among them.
pub(crate) fn category_numbers(
    alloc: Global,
    items: &[Symbol],
) -> Result<Option<Vec<u16>>, AllocError>
    ensures { IfOk result (λ found. MatchOption found ((k : ℕ) × Contains items.now (Kind k))
        (λ numbers. AreCategoryNumbers items.now numbers.items)) }
{
    let mut numbers = Vec::new(alloc);
    for item in items {
        match *item {
            Symbol::Category(c) => numbers.push(c)?,
            Symbol::Kind(_) => return Ok(None),
        }
    }
    Ok(Some(numbers))
}

/// Adds that the rule's category follows from its items, where these are categories alone.
fn add_rule(alloc: Global, implications: &mut Implications, rule: &Rule) -> Result<(), AllocError>
    ensures { OnOk result (AddsRule implications.old implications.new rule.now) }
{
    match category_numbers(alloc, rule.items.as_slice())? {
        Some(numbers) => implications.add(numbers.as_slice(), rule.category),
        None => Ok(()),
    }
}

/// The implications of the rules.
fn implications_of(alloc: Global, rules: &[Rule]) -> Result<Implications, AllocError>
    ensures { IfOk result (AreOfRules rules.now (length rules.now)) }
{
    let mut implications = Implications::new(alloc)?;
    for rule in rules {
        add_rule(alloc, &mut implications, rule)?;
    }
    Ok(implications)
}

/// For each category, by number, whether it derives the empty span. It looks at each item at most
/// four times. Beside the flags it takes memory for the items of the rules without kinds, and for a
/// few numbers of each such rule and each category.
pub(crate) fn nullable_flags(alloc: Global, parts: &GrammarParts) -> Result<Vec<bool>, AllocError>
    ensures { IfOk result (λ flags. AreNullableFlags parts.now flags.items) }
{
    let implications = implications_of(alloc, parts.rules())?;
    consequences(alloc, parts.category_count() as usize, &implications)
}
