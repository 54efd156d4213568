//! The check of labels, and of the levels of coercions.
ghost use Rattle.std.specs.Prelude.{◌≡◌, ◌≢◌, ◌≤◌, ◌↔◌, List, [], ◌∷◌, ◌++◌, IsTrue, All, length};
ghost use Rattle.std.specs.Prelude.{is_some};
ghost use Rattle.spec_lbnf.specs.Limits.{size_of};
ghost use Rattle.spec_lbnf.specs.declared.definition.CatName.{CatName};
ghost use Rattle.spec_lbnf.specs.Expansion.{category_in, categories_in};
ghost use Rattle.spec_lbnf.specs.Checks.{AreElementAndList, IsOneElement};
ghost use Rattle.spec_lbnf.specs.Checks.{IsBadWild, IsBadListRule, IsWellLabelled, AtLabels};
ghost use Rattle.lbnf_grammar.specs.Checking.{EndsInList};
ghost use Rattle.lbnf_grammar.specs.Checking.{FindsLabelFault, FindsRuleFault};
ghost use Rattle.lbnf_grammar.specs.Checking.{ChecksWithoutMemory};

use spec_grammar::Label;
use spec_lbnf::{Def, GrammarFault, RawItem, RawRule};

/// What is wrong with a definition's label or levels.
#[derive(Clone, Copy, Debug)]
pub(crate) enum LabelFault {
    /// A rule labelled `_` that has not exactly one item that is no word, or coercions of no level.
    Coercion,
    /// A list label on a rule that is not for lists or lacks its items, or another label on a rule
    /// for lists, unless it is `_` and the one item is a list.
    List,
}

/// Whether the item is no word.
fn is_category(item: &RawItem) -> bool
    ensures { result ≡ is_some (category_in item.now) }
{
    match item {
        RawItem::Cat(_) => true,
        RawItem::Word(_) => false,
    }
}

/// How many of the items are no words.
#[tactic(auto, using(crate::proofs::LabelLemmas::counted))]
fn category_count(items: &[RawItem]) -> usize
    ensures { result ≡ length (categories_in items.now) }
{
    items.iter().filter(|item| is_category(item)).count()
}

/// Whether some of the items are no words.
#[tactic(auto, using(crate::proofs::LabelLemmas::some_categories))]
fn has_category(items: &[RawItem]) -> bool
    ensures { IsTrue result ↔ (categories_in items.now ≢ []) }
{
    category_count(items) > 0
}

/// Whether the item is a list, or what is told of those before it, if it is a word.
fn is_list_or(item: &RawItem, told: bool) -> bool
    ensures { (cats : List CatName) → (IsTrue told ↔ EndsInList cats)
        → IsTrue result ↔ EndsInList (cats ++ categories_in (item.now ∷ [])) }
{
    match item {
        RawItem::Cat(cat) => cat.depth > 0,
        RawItem::Word(_) => told,
    }
}

/// Whether the last of the items that are no words is a list.
fn ends_in_list(items: &[RawItem]) -> bool
    ensures { IsTrue result ↔ EndsInList (categories_in items.now) }
{
    let mut is_list = false;
    for item in items {
        is_list = is_list_or(item, is_list);
    }
    is_list
}

/// Whether the items that are no words are two, of which the second is a list.
#[tactic(auto, using(crate::proofs::LabelLemmas::element_and_list))]
fn are_element_and_list(items: &[RawItem]) -> bool
    ensures { IsTrue result ↔ AreElementAndList (categories_in items.now) }
{
    category_count(items) == 2 && ends_in_list(items)
}

/// Whether the items that are no words are one, and it is no list.
#[tactic(auto, using(crate::proofs::LabelLemmas::one_element))]
fn is_one_element(items: &[RawItem]) -> bool
    ensures { IsTrue result ↔ IsOneElement (categories_in items.now) }
{
    category_count(items) == 1 && !ends_in_list(items)
}

/// Whether the rule's label is at odds with its category or its items.
fn is_bad_list(rule: &RawRule) -> bool
    ensures { IsTrue result ↔ IsBadListRule rule.now }
{
    let items = rule.items.as_slice();
    match &rule.label {
        Label::Nil => rule.cat.depth == 0 || has_category(items),
        Label::One => rule.cat.depth == 0 || category_count(items) != 1,
        Label::Cons => rule.cat.depth == 0 || !are_element_and_list(items),
        Label::Named(_) => rule.cat.depth > 0,
        Label::Wild => rule.cat.depth > 0 && is_one_element(items),
    }
}

/// Whether the rule is labelled `_`, and has not exactly one item that is no word.
fn is_bad_wild(rule: &RawRule) -> bool
    ensures { IsTrue result ↔ IsBadWild rule.now }
{
    match &rule.label {
        Label::Wild => category_count(rule.items.as_slice()) != 1,
        Label::Named(_) | Label::Nil | Label::Cons | Label::One => false,
    }
}

/// What is wrong with the rule's label.
fn rule_fault(rule: &RawRule) -> Option<LabelFault>
    ensures { FindsRuleFault rule.now result }
{
    if is_bad_wild(rule) {
        return Some(LabelFault::Coercion);
    }
    if is_bad_list(rule) {
        return Some(LabelFault::List);
    }
    None
}

/// What is wrong with the definition's label or levels.
fn label_fault(def: &Def) -> Option<LabelFault>
    ensures { FindsLabelFault def.now result }
{
    match def {
        Def::Rule(rule) => rule_fault(rule),
        Def::Internal(rule) => rule_fault(rule),
        Def::Coercions { levels, .. } => match levels {
            0 => Some(LabelFault::Coercion),
            _ => None,
        },
        Def::Terminator { .. } => None,
        Def::Separator { .. } => None,
        Def::Entry(_) => None,
        Def::Token { .. } => None,
        Def::LineComment(_) => None,
        Def::BlockComment(_, _) => None,
    }
}

/// Tells the first definition with a bad label or bad levels. It takes no memory.
pub(crate) fn check_labels(defs: &[Def]) -> Result<(), GrammarFault>
    requires { size_of defs.now ≤ 32768 }
    ensures { ChecksWithoutMemory
        (λ done. All IsWellLabelled defs.now) (AtLabels defs.now) result }
{
    for (number, definition) in defs.iter().enumerate() {
        let def = number as u32;
        match label_fault(definition) {
            Some(LabelFault::Coercion) => return Err(GrammarFault::BadCoercion { def }),
            Some(LabelFault::List) => return Err(GrammarFault::BadList { def }),
            None => {}
        }
    }
    Ok(())
}
