//! The rules that a macro gives.
ghost use Rattle.std.specs.Prelude.{◌≡◌, ◌≤◌, ◌<◌, ◌∷◌, ◌^◌, IfOk};
ghost use Rattle.spec_lbnf.specs.declared.definition.RawItem.TheVariants.{Cat, Word};
ghost use Rattle.spec_lbnf.specs.Limits.{IsSmall};
ghost use Rattle.spec_lbnf.specs.Expansion.{list_of, nil_rule, one_rule, cons_rule};
ghost use Rattle.spec_lbnf.specs.Expansion.{terminator_rules, separator_rules, coercion_rules};
ghost use Rattle.spec_lbnf.specs.Expansion.{level_category, level_rule, bracket_rule};
ghost use Rattle.lbnf_grammar.specs.MadeRules.{made_rules};

use crate::texts::{copy_category, copy_items, numbered_name};
use lbnf_text::{word_item, words};
use spec_grammar::Label;
use spec_lbnf::{CatName, Def, RawItem, RawRule};
use spec_text::Name;
use sqlite_items::Items;
use std::alloc::{AllocError, Global};

/// The category of the lists of a category.
fn list_of(alloc: Global, cat: &CatName) -> Result<CatName, AllocError>
    requires { cat.now.depth ≤ 63 }
    ensures { IfOk result (λ list. list ≡ list_of cat.now) }
{
    let name = cat.name.copy(alloc)?;
    let depth = cat.depth + 1;
    Ok(CatName { name, depth })
}

/// The rule of the empty list.
fn nil_rule(alloc: Global, cat: &CatName) -> Result<RawRule, AllocError>
    requires { cat.now.depth ≤ 63 }
    ensures { IfOk result (λ rule. rule ≡ nil_rule cat.now) }
{
    Ok(RawRule {
        label: Label::Nil,
        cat: list_of(alloc, cat)?,
        items: Items::new(alloc),
    })
}

/// The category, and these items behind it.
fn element(alloc: Global, cat: &CatName, behind: &[RawItem]) -> Result<Items<RawItem>, AllocError>
    ensures { IfOk result (λ items. items ≡ Cat cat.now ∷ behind.now) }
{
    let mut items = Items::new(alloc);
    items.push(RawItem::Cat(copy_category(alloc, cat)?))?;
    items.append(copy_items(alloc, behind)?)?;
    Ok(items)
}

/// The rule of a list of one element, with these items behind it.
fn one_rule(alloc: Global, cat: &CatName, behind: &[RawItem]) -> Result<RawRule, AllocError>
    requires { cat.now.depth ≤ 63 }
    ensures { IfOk result (λ rule. rule ≡ one_rule cat.now behind.now) }
{
    let items = element(alloc, cat, behind)?;
    Ok(RawRule {
        label: Label::One,
        cat: list_of(alloc, cat)?,
        items,
    })
}

/// The rule of an element, these items, and the other elements.
fn cons_rule(alloc: Global, cat: &CatName, between: &[RawItem]) -> Result<RawRule, AllocError>
    requires { cat.now.depth ≤ 63 }
    ensures { IfOk result (λ rule. rule ≡ cons_rule cat.now between.now) }
{
    let mut items = element(alloc, cat, between)?;
    items.push(RawItem::Cat(list_of(alloc, cat)?))?;
    Ok(RawRule {
        label: Label::Cons,
        cat: list_of(alloc, cat)?,
        items,
    })
}

/// The rules of lists with these items behind each element.
fn terminator_rules(
    alloc: Global,
    nonempty: bool,
    cat: &CatName,
    behind: &[RawItem],
) -> Result<Vec<RawRule>, AllocError>
    requires { cat.now.depth ≤ 63 }
    ensures { IfOk result (λ rules. rules.items ≡ terminator_rules nonempty cat.now behind.now) }
{
    let first = if nonempty {
        one_rule(alloc, cat, behind)?
    } else {
        nil_rule(alloc, cat)?
    };
    let more = cons_rule(alloc, cat, behind)?;
    Ok(vec![in alloc; first, more]?)
}

/// The rules of lists with these items between each two elements.
fn separator_rules(
    alloc: Global,
    nonempty: bool,
    cat: &CatName,
    between: &[RawItem],
) -> Result<Vec<RawRule>, AllocError>
    requires { cat.now.depth ≤ 63 }
    ensures { IfOk result (λ rules. rules.items ≡ separator_rules nonempty cat.now between.now) }
{
    if between.is_empty() {
        return terminator_rules(alloc, nonempty, cat, between);
    }
    let mut rules = Vec::new(alloc);
    if !nonempty {
        rules.push(nil_rule(alloc, cat)?)?;
    }
    rules.push(one_rule(alloc, cat, &[])?)?;
    rules.push(cons_rule(alloc, cat, between)?)?;
    Ok(rules)
}

/// The category of a level of precedence.
fn level_category(alloc: Global, name: &Name, level: u32) -> Result<CatName, AllocError>
    ensures { IfOk result (λ cat. cat ≡ level_category name.now level) }
{
    let name = match level {
        0 => name.copy(alloc)?,
        _ => numbered_name(alloc, name, level)?,
    };
    Ok(CatName { name, depth: 0 })
}

/// The rule from a level to the next.
fn level_rule(alloc: Global, name: &Name, level: u32) -> Result<RawRule, AllocError>
    requires { level < 2 ^ 16 }
    ensures { IfOk result (λ rule. rule ≡ level_rule name.now level) }
{
    let next = level_category(alloc, name, level + 1)?;
    let mut items = Items::new(alloc);
    items.push(RawItem::Cat(next))?;
    Ok(RawRule {
        label: Label::Wild,
        cat: level_category(alloc, name, level)?,
        items,
    })
}

/// The rule from the last level to the first, in brackets.
fn bracket_rule(alloc: Global, name: &Name, level: u32) -> Result<RawRule, AllocError>
    ensures { IfOk result (λ rule. rule ≡ bracket_rule name.now level) }
{
    let first = level_category(alloc, name, 0)?;
    let mut items = Items::new(alloc);
    items.push(word_item(alloc, "(")?)?;
    items.push(RawItem::Cat(first))?;
    items.push(word_item(alloc, ")")?)?;
    Ok(RawRule {
        label: Label::Wild,
        cat: level_category(alloc, name, level)?,
        items,
    })
}

/// The rules of coercions of so many levels.
fn coercion_rules(alloc: Global, name: &Name, levels: u16) -> Result<Vec<RawRule>, AllocError>
    ensures { IfOk result (λ rules. rules.items ≡ coercion_rules name.now levels) }
{
    let mut rules = Vec::new(alloc);
    for level in 0..levels as u32 {
        rules.push(level_rule(alloc, name, level)?)?;
    }
    rules.push(bracket_rule(alloc, name, levels as u32)?)?;
    Ok(rules)
}

/// The rules that the definition gives, in order, and none where it is a rule itself.
pub(crate) fn made_rules(alloc: Global, def: &Def) -> Result<Vec<RawRule>, AllocError>
    requires { IsSmall def.now }
    ensures { IfOk result (λ rules. rules.items ≡ made_rules def.now) }
{
    match def {
        Def::Terminator {
            nonempty,
            cat,
            word,
        } => terminator_rules(alloc, *nonempty, cat, words(alloc, word)?.as_slice()),
        Def::Separator {
            nonempty,
            cat,
            word,
        } => separator_rules(alloc, *nonempty, cat, words(alloc, word)?.as_slice()),
        Def::Coercions { name, levels } => coercion_rules(alloc, name, *levels),
        Def::Rule(_) => Ok(Vec::new(alloc)),
        Def::Internal(_) => Ok(Vec::new(alloc)),
        Def::Entry(_) => Ok(Vec::new(alloc)),
        Def::Token { .. } => Ok(Vec::new(alloc)),
        Def::LineComment(_) => Ok(Vec::new(alloc)),
        Def::BlockComment(_, _) => Ok(Vec::new(alloc)),
    }
}
