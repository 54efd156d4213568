//! How many symbols there are, and their numbers: categories, then kinds, then suffixes.
ghost use Rattle.std.specs.Prelude.{◌≡◌, ◌<◌, ◌^◌, IfOk};
ghost use Rattle.spec_grammar.specs.Grammars.{IsSymbolOf, symbol_count};
ghost use Rattle.binary_form.specs.Symbols.{plain, plain_count};
ghost use Rattle.binary_form.specs.BinaryForm.{IsNumberOf};
ghost use Rattle.binary_form.specs.FirstSuffixes.{AreFirstSuffixes};

use numbered_grammar::{Grammar, Symbol};
use sqlite_items::Items;
use std::alloc::{AllocError, Global};

/// How many symbols the binary form of the grammar has: its categories, its kinds, and a suffix for
/// each item of a rule. It looks at each rule, and takes no memory.
pub fn symbol_count(grammar: &Grammar) -> u32
    ensures { result ≡ symbol_count grammar.now }
{
    let mut count = u32::from(grammar.category_count()) + u32::from(grammar.kind_count());
    for rule in grammar.rules() {
        count += rule.items.len() as u32;
    }
    count
}

/// The number of a category or a kind.
pub fn number(grammar: &Grammar, symbol: Symbol) -> u16
    requires few { symbol_count grammar.now < 2 ^ 16 }
    requires own { IsSymbolOf grammar.now symbol }
    ensures { IsNumberOf grammar.now (plain symbol) result }
{
    match symbol {
        Symbol::Category(c) => c,
        Symbol::Kind(k) => grammar.category_count() + k,
    }
}

/// How many categories and kinds there are, which is the number of the first suffix.
pub fn plain_count(grammar: &Grammar) -> u16
    requires { symbol_count grammar.now < 2 ^ 16 }
    ensures { result ≡ plain_count grammar.now }
{
    grammar.category_count() + grammar.kind_count()
}

/// For each rule, the number of its whole right side: its other suffixes are numbered behind it.
pub fn first_suffixes(alloc: Global, grammar: &Grammar) -> Result<Items<u16>, AllocError>
    requires { symbol_count grammar.now < 2 ^ 16 }
    ensures { IfOk result (AreFirstSuffixes grammar.now) }
{
    let mut firsts = Items::new(alloc);
    let mut next = plain_count(grammar);
    for rule in grammar.rules() {
        firsts.push(next)?;
        next += rule.items.len() as u16;
    }
    Ok(firsts)
}
