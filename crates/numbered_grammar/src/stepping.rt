//! Which categories step to which, as links between their numbers.
ghost use Rattle.std.specs.Prelude.{◌≡◌, ◌<◌, ◌^◌, ◌↔◌, IsTrue, IfOk, OnOk, length};
ghost use Rattle.number_graph.specs.Graphs.{AddsLinks};
ghost use Rattle.numbered_grammar.specs.Nullable.{AreNullableFlags};
ghost use Rattle.numbered_grammar.specs.StepLinks.{AreSteps, IsItemStep, IsRuleStep};
ghost use Rattle.numbered_grammar.specs.StepLinks.{non_nullable_count, one_if_non_nullable};

use crate::nullable::is_nullable;
use crate::parts::GrammarParts;
use number_graph::Links;
use spec_grammar::{Rule, Symbol};
use std::alloc::{AllocError, Global};

/// 1 for a symbol that is not nullable, and else 0.
fn one_if_non_nullable(flags: &[bool], symbol: Symbol) -> usize
    ensures { result ≡ one_if_non_nullable flags.now symbol }
{
    if is_nullable(flags, symbol) { 0 } else { 1 }
}

/// How many of the items are not nullable.
fn non_nullable_count(flags: &[bool], items: &[Symbol]) -> usize
    ensures { result ≡ non_nullable_count flags.now items.now }
{
    items
        .iter()
        .filter(|item| !is_nullable(flags, **item))
        .count()
}

/// Links the category to the item, if the item is a category, and each of the `non_nullable` items
/// that are not nullable is this one.
fn add_item(
    links: &mut Links,
    flags: &[bool],
    category: u16,
    non_nullable: usize,
    item: Symbol,
) -> Result<(), AllocError>
    requires { category < length links.old }
    ensures { OnOk result
        (AddsLinks (IsItemStep flags.now category non_nullable item) links.old links.new) }
{
    let is_alone = non_nullable == one_if_non_nullable(flags, item);
    match item {
        Symbol::Category(b) => links.add_if(is_alone, category, b),
        Symbol::Kind(_) => Ok(()),
    }
}

/// Links the rule's category to each category among its items beside which all items are nullable.
fn add_rule(links: &mut Links, flags: &[bool], rule: &Rule) -> Result<(), AllocError>
    requires { rule.now.category < length links.old }
    ensures { OnOk result (AddsLinks (IsRuleStep flags.now rule.now) links.old links.new) }
{
    let items = rule.items.as_slice();
    let non_nullable = non_nullable_count(flags, items);
    for item in items {
        add_item(links, flags, rule.category, non_nullable, *item)?;
    }
    Ok(())
}

/// The steps between the categories, by the flags of the nullable ones. It looks at each item of
/// the rules twice.
pub(crate) fn category_steps(
    alloc: Global,
    parts: &GrammarParts,
    nullable: &[bool],
) -> Result<Links, AllocError>
    requires { AreNullableFlags parts.now nullable.now }
    ensures steps { IfOk result (AreSteps parts.now) }
    ensures few { IfOk result (λ links. length links < 2 ^ 16) }
{
    let mut links = Links::new(alloc, parts.category_count() as usize)?;
    for rule in parts.rules() {
        add_rule(&mut links, nullable, rule)?;
    }
    Ok(links)
}
