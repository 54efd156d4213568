//! The numbers of a rule's symbols.
ghost use Rattle.std.specs.Prelude.{◌≡◌, ◌<◌, ◌^◌, ◌+◌, ◌++◌, map, length, IfOk, OnOk};
ghost use Rattle.spec_grammar.specs.Grammars.{name_number};
ghost use Rattle.spec_lbnf.specs.Expansion.{category_text, named_symbol, item_symbol};
ghost use Rattle.spec_lbnf.specs.Expansion.{numbered_rule, rules_of};
ghost use Rattle.lbnf_grammar.specs.Tables.{shown};

use crate::expanded_def::ExpandedDef;
use crate::tables::Tables;
use crate::texts::{category_text, copy_label};
use spec_grammar::{Rule, Symbol};
use spec_lbnf::{CatName, RawItem, RawRule};
use sqlite_items::Items;
use std::alloc::{AllocError, Global};

/// The symbol of the name: the kind of the token of this name, if there is one, and else the
/// category.
fn named_symbol(tables: &Tables, name: &str) -> Symbol
    requires categories { length tables.now.categories < 2 ^ 16 }
    requires kinds { length tables.now.words + length tables.now.tokens < 2 ^ 16 }
    ensures { result ≡ named_symbol (shown tables.now) name.now }
{
    if tables.tokens.has(name) {
        let number = tables.words.len() + tables.tokens.number(name);
        return Symbol::Kind(number as u16);
    }
    Symbol::Category(tables.categories.number(name) as u16)
}

/// The symbol of the category's text, which is made in the room.
pub(crate) fn category_symbol(
    room: &mut Vec<u8>,
    tables: &Tables,
    cat: &CatName,
) -> Result<Symbol, AllocError>
    requires categories { length tables.now.categories < 2 ^ 16 }
    requires kinds { length tables.now.words + length tables.now.tokens < 2 ^ 16 }
    ensures { IfOk result
        (λ symbol. symbol ≡ named_symbol (shown tables.now) (category_text cat.now)) }
{
    let text = category_text(cat);
    Ok(named_symbol(tables, text.in_room(room)?))
}

/// The number of the category.
fn category_number(room: &mut Vec<u8>, tables: &Tables, cat: &CatName) -> Result<u16, AllocError>
    requires { length tables.now.categories < 2 ^ 16 }
    ensures { IfOk result
        (λ number. number ≡ name_number tables.now.categories (category_text cat.now)) }
{
    let text = category_text(cat);
    Ok(tables.categories.number(text.in_room(room)?) as u16)
}

fn item_symbol(room: &mut Vec<u8>, tables: &Tables, item: &RawItem) -> Result<Symbol, AllocError>
    requires categories { length tables.now.categories < 2 ^ 16 }
    requires kinds { length tables.now.words + length tables.now.tokens < 2 ^ 16 }
    ensures { IfOk result (λ symbol. symbol ≡ item_symbol (shown tables.now) item.now) }
{
    match item {
        RawItem::Cat(cat) => category_symbol(room, tables, cat),
        RawItem::Word(word) => {
            let number = tables.words.number(word.as_str());
            Ok(Symbol::Kind(number as u16))
        }
    }
}

fn symbols_of(
    alloc: Global,
    room: &mut Vec<u8>,
    tables: &Tables,
    items: &[RawItem],
) -> Result<Items<Symbol>, AllocError>
    requires categories { length tables.now.categories < 2 ^ 16 }
    requires kinds { length tables.now.words + length tables.now.tokens < 2 ^ 16 }
    ensures { IfOk result (λ symbols.
        symbols ≡ map (item_symbol (shown tables.now)) items.now) }
{
    let mut symbols = Vec::with_capacity(alloc, items.len())?;
    for item in items {
        symbols.push(item_symbol(room, tables, item)?)?;
    }
    Ok(Items::from_vec(symbols))
}

fn numbered_rule(
    alloc: Global,
    room: &mut Vec<u8>,
    tables: &Tables,
    rule: &RawRule,
) -> Result<Rule, AllocError>
    requires categories { length tables.now.categories < 2 ^ 16 }
    requires kinds { length tables.now.words + length tables.now.tokens < 2 ^ 16 }
    ensures { IfOk result (λ numbered.
        numbered ≡ numbered_rule (shown tables.now) rule.now) }
{
    let category = category_number(room, tables, &rule.cat)?;
    let label = copy_label(alloc, &rule.label)?;
    let items = symbols_of(alloc, room, tables, rule.items.as_slice())?;
    Ok(Rule {
        label,
        category,
        items,
    })
}

/// Adds the rules, numbered by the tables.
fn add_rules(
    alloc: Global,
    room: &mut Vec<u8>,
    numbered: &mut Vec<Rule>,
    tables: &Tables,
    rules: &[RawRule],
) -> Result<(), AllocError>
    requires categories { length tables.now.categories < 2 ^ 16 }
    requires kinds { length tables.now.words + length tables.now.tokens < 2 ^ 16 }
    ensures { OnOk result (numbered.new.items ≡ numbered.old.items
        ++ map (numbered_rule (shown tables.now)) rules.now) }
{
    for rule in rules {
        numbered.push(numbered_rule(alloc, room, tables, rule)?)?;
    }
    Ok(())
}

/// The rules of the definitions, numbered by the tables.
pub(crate) fn numbered_rules(
    alloc: Global,
    tables: &Tables,
    defs: &[ExpandedDef<'_>],
) -> Result<Vec<Rule>, AllocError>
    requires categories { length tables.now.categories < 2 ^ 16 }
    requires kinds { length tables.now.words + length tables.now.tokens < 2 ^ 16 }
    ensures { IfOk result (λ numbered. numbered.items
        ≡ map (numbered_rule (shown tables.now)) (rules_of defs.now)) }
{
    let mut room = Vec::new(alloc);
    let mut numbered = Vec::new(alloc);
    for def in defs {
        add_rules(alloc, &mut room, &mut numbered, tables, def.rules())?;
    }
    Ok(numbered)
}
