//! The categories that definitions give rules for, and those that they name.
ghost use Rattle.std.specs.Prelude.{◌≡◌, [], ◌∷◌, ◌++◌, map, flat_map, option_to_list, IfOk, OnOk};
ghost use Rattle.std.specs.Option.{option_map};
ghost use Rattle.spec_lbnf.specs.declared.definition.RawRule.{RawRule};
ghost use Rattle.spec_lexing.specs.Predefined.{predefined_names};
ghost use Rattle.spec_lbnf.specs.Expansion.{category_text, item_categories, internal_category};
ghost use Rattle.spec_lbnf.specs.Expansion.{named_categories, names_in, token_in, token_names};
ghost use Rattle.spec_lbnf.specs.Expansion.{kind_names};
ghost use Rattle.spec_lbnf.specs.Checks.{own_categories, own_names, known_names};
ghost use Rattle.lbnf_grammar.specs.Numbering.{with_new_names};

use crate::expanded_def::ExpandedDef;
use crate::names::Names;
use crate::texts::{CategoryText, category_text, plain_text};
use spec_lbnf::{CatName, Def, RawItem, RawRule};
use std::alloc::{AllocError, Global};

/// The category of an internal rule.
pub(crate) fn internal_category(def: &Def) -> Option<&CatName>
    ensures { option_to_list (option_map (λ cat. category_text cat.now) result)
        ≡ internal_category def.now }
{
    if let Def::Internal(rule) = def {
        Some(&rule.cat)
    } else {
        None
    }
}

/// The text of the category of an internal rule.
fn internal_text<'a>(alloc: Global, def: &'a Def) -> Result<Vec<CategoryText<'a>>, AllocError>
    ensures { IfOk result (λ names. names.items ≡ internal_category def.now) }
{
    match internal_category(def) {
        Some(cat) => Ok(vec![in alloc; category_text(cat)]?),
        None => Ok(Vec::new(alloc)),
    }
}

/// The categories that the definition gives rules for, an internal one among them.
fn own_categories<'a, 'd>(
    alloc: Global,
    def: &'a ExpandedDef<'d>,
) -> Result<Vec<CategoryText<'a>>, AllocError>
    ensures { IfOk result (λ names. names.items ≡ own_categories def.now) }
{
    let mut names = internal_text(alloc, def.def())?;
    for rule in def.rules() {
        names.push(category_text(&rule.cat))?;
    }
    Ok(names)
}

/// The names that the definition takes: that of a token, or the categories that it gives rules for.
pub(crate) fn own_names<'a, 'd>(
    alloc: Global,
    def: &'a ExpandedDef<'d>,
) -> Result<Vec<CategoryText<'a>>, AllocError>
    ensures { IfOk result (λ names. names.items ≡ own_names def.now) }
{
    if let Def::Token { name, .. } = def.def() {
        return Ok(vec![in alloc; plain_text(name)]?);
    }
    own_categories(alloc, def)
}

/// Adds the name of the token that the definition defines, if it defines one.
pub(crate) fn add_token_name(alloc: Global, names: &mut Names, def: &Def) -> Result<(), AllocError>
    ensures { OnOk result
        (names.new ≡ with_new_names names.old (names_in (token_in def.now))) }
{
    if let Def::Token { name, .. } = def {
        return names.add(alloc, name.as_str());
    }
    Ok(())
}

/// Adds the names of the token definitions.
pub(crate) fn add_token_names(
    alloc: Global,
    names: &mut Names,
    defs: &[ExpandedDef<'_>],
) -> Result<(), AllocError>
    ensures { OnOk result (names.new ≡ with_new_names names.old (token_names defs.now)) }
{
    for def in defs {
        add_token_name(alloc, names, def.def())?;
    }
    Ok(())
}

/// Adds the predefined names.
fn add_predefined_names(alloc: Global, names: &mut Names) -> Result<(), AllocError>
    ensures { OnOk result (names.new ≡ with_new_names names.old predefined_names) }
{
    names.add(alloc, "Integer")?;
    names.add(alloc, "Double")?;
    names.add(alloc, "Ident")?;
    names.add(alloc, "String")?;
    names.add(alloc, "Char")
}

/// The names that are no category's.
pub(crate) fn kind_names(alloc: Global, defs: &[ExpandedDef<'_>]) -> Result<Names, AllocError>
    ensures { IfOk result (λ names. names ≡ kind_names defs.now) }
{
    let mut names = Names::new(alloc);
    add_token_names(alloc, &mut names, defs)?;
    add_predefined_names(alloc, &mut names)?;
    Ok(names)
}

/// The names that may be named: categories of rules, and names of kinds.
pub(crate) fn known_names(alloc: Global, defs: &[ExpandedDef<'_>]) -> Result<Names, AllocError>
    ensures { IfOk result (λ names. names ≡ with_new_names [] (known_names defs.now)) }
{
    let list = all_own_categories(alloc, defs)?;
    let mut names = Names::new(alloc);
    names.add_all(alloc, &mut Vec::new(alloc), list.as_slice())?;
    add_token_names(alloc, &mut names, defs)?;
    add_predefined_names(alloc, &mut names)?;
    Ok(names)
}

/// The categories that the definitions give rules for, with repetitions.
fn all_own_categories<'a, 'd>(
    alloc: Global,
    defs: &'a [ExpandedDef<'d>],
) -> Result<Vec<CategoryText<'a>>, AllocError>
    ensures { IfOk result (λ names. names.items ≡ flat_map own_categories defs.now) }
{
    let mut names = Vec::new(alloc);
    for def in defs {
        names.append(&mut own_categories(alloc, def)?)?;
    }
    Ok(names)
}

/// Adds the text of the item, if it is a category.
fn add_item<'a>(names: &mut Vec<CategoryText<'a>>, item: &'a RawItem) -> Result<(), AllocError>
    ensures { OnOk result
        (names.new.items ≡ names.old.items ++ item_categories (item.now ∷ [])) }
{
    match item {
        RawItem::Cat(cat) => Ok(names.push(category_text(cat))?),
        RawItem::Word(_) => Ok(()),
    }
}

/// Adds the texts of the categories among the items.
fn add_items<'a>(names: &mut Vec<CategoryText<'a>>, items: &'a [RawItem]) -> Result<(), AllocError>
    ensures { OnOk result (names.new.items ≡ names.old.items ++ item_categories items.now) }
{
    for item in items {
        add_item(names, item)?;
    }
    Ok(())
}

/// The categories among the items of the rules.
fn item_categories<'a>(
    alloc: Global,
    rules: &'a [RawRule],
) -> Result<Vec<CategoryText<'a>>, AllocError>
    ensures { IfOk result (λ names.
        names.items ≡ flat_map (λ (rule : RawRule). item_categories rule.items) rules.now) }
{
    let mut names = Vec::new(alloc);
    for rule in rules {
        add_items(&mut names, rule.items.as_slice())?;
    }
    Ok(names)
}

/// The texts of the categories.
fn category_texts<'a>(
    alloc: Global,
    cats: &'a [CatName],
) -> Result<Vec<CategoryText<'a>>, AllocError>
    ensures { IfOk result (λ names. names.items ≡ map category_text cats.now) }
{
    let mut names = Vec::new(alloc);
    for cat in cats {
        names.push(category_text(cat))?;
    }
    Ok(names)
}

/// The categories that the definition names: entry points, or those among its rules' items.
pub(crate) fn named_categories<'a, 'd>(
    alloc: Global,
    def: &'a ExpandedDef<'d>,
) -> Result<Vec<CategoryText<'a>>, AllocError>
    ensures { IfOk result (λ names. names.items ≡ named_categories def.now) }
{
    if let Def::Entry(cats) = def.def() {
        return category_texts(alloc, cats.as_slice());
    }
    item_categories(alloc, def.rules())
}
