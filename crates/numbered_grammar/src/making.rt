//! Grammars of numbered rules, made from their parts.
ghost use Rattle.std.specs.Prelude.{◌≡◌, ◌<◌, ◌^◌, ◌↔◌, IsTrue, All, IfOk, length};
ghost use Rattle.spec_grammar.specs.Grammars.{IsSymbolOf, HasSymbolsOf, HasOwnSymbols, item_count};
ghost use Rattle.spec_grammar.specs.Grammars.{HasDistinctNames};
ghost use Rattle.spec_lexing.specs.Lexicon.{lexicon_of};
ghost use Rattle.numbered_grammar.specs.Making.{lexicon_of_parts, grammar_of_parts};
ghost use Rattle.numbered_grammar.specs.Making.{grammar_of_symbols, entry_of_rules};
ghost use Rattle.numbered_grammar.specs.Making.{IsWellFormed, AcceptsParts, MakesGrammar};
ghost use Rattle.numbered_grammar.specs.Making.{GivesParts};
ghost use Rattle.numbered_grammar.specs.Places.{ArePlacesOf};

use crate::cycle_check::{CycleCheck, check_cycles};
use crate::fault::CycleFault;
use crate::grammar::Grammar;
use crate::lexicon::LexiconParts;
use crate::nullable::nullable_flags;
use crate::parts::GrammarParts;
use crate::places::symbol_places;
use indexmap::IndexMap;
use spec_grammar::{Rule, Symbol};
use spec_lexing::KindDef;
use spec_text::Name;
use std::alloc::{AllocError, Global};

/// The most rules, the most categories and the most kinds.
const MAX_COUNT: usize = 65_535;

/// The most items, in all rules together.
const MAX_ITEMS: usize = 2_147_483_647;

fn is_own(categories: &[Name], kinds: &[KindDef], symbol: Symbol) -> bool
    ensures { IsTrue result ↔ IsSymbolOf
        (grammar_of_symbols categories.now kinds.now) symbol }
{
    match symbol {
        Symbol::Category(c) => (c as usize) < categories.len(),
        Symbol::Kind(k) => (k as usize) < kinds.len(),
    }
}

fn are_own(categories: &[Name], kinds: &[KindDef], items: &[Symbol]) -> bool
    ensures { IsTrue result ↔ All (IsSymbolOf
        (grammar_of_symbols categories.now kinds.now)) items.now }
{
    items.iter().all(|item| is_own(categories, kinds, *item))
}

fn has_own(categories: &[Name], kinds: &[KindDef], rule: &Rule) -> bool
    ensures { IsTrue result ↔ HasSymbolsOf
        (grammar_of_symbols categories.now kinds.now) rule.now }
{
    is_own(categories, kinds, Symbol::Category(rule.category))
        && are_own(categories, kinds, rule.items.as_slice())
}

fn have_own(categories: &[Name], kinds: &[KindDef], rules: &[Rule]) -> bool
    ensures { IsTrue result ↔ HasOwnSymbols
        (grammar_of_parts rules.now categories.now (lexicon_of kinds.now)
        (entry_of_rules rules.now)) }
{
    rules.iter().all(|rule| has_own(categories, kinds, rule))
}

fn have_few_items(rules: &[Rule]) -> bool
    ensures { IsTrue result ↔ item_count rules.now < 2 ^ 31 }
{
    let mut room = MAX_ITEMS;
    for rule in rules {
        let count = rule.items.as_slice().len();
        if count > room {
            return false;
        }
        room -= count;
    }
    true
}

fn is_well_formed(rules: &[Rule], categories: &[Name], lexicon: &LexiconParts) -> bool
    ensures { IsTrue result ↔ IsWellFormed
        (grammar_of_parts rules.now categories.now (lexicon_of_parts lexicon.now)
        (entry_of_rules rules.now)) }
{
    let kinds = lexicon.kinds.as_slice();
    rules.len() <= MAX_COUNT
        && categories.len() <= MAX_COUNT
        && kinds.len() <= MAX_COUNT
        && have_few_items(rules)
        && have_own(categories, kinds, rules)
}

/// The category of the first rule.
fn entry_of_rules(rules: &[Rule]) -> Option<Symbol>
    ensures { result ≡ entry_of_rules rules.now }
{
    let rule = rules.first()?;
    Some(Symbol::Category(rule.category))
}

/// Whether no two symbols have one name. It takes memory for a copy of each name.
fn have_distinct_names(
    alloc: Global,
    categories: &[Name],
    kinds: &[KindDef],
) -> Result<bool, AllocError>
    requires categories { length categories.now < 2 ^ 16 }
    requires kinds { length kinds.now < 2 ^ 16 }
    ensures { IfOk result (λ distinct. IsTrue distinct
        ↔ HasDistinctNames (grammar_of_symbols categories.now kinds.now)) }
{
    let found = symbol_places(alloc, categories, kinds)?;
    Ok(found.is_some())
}

/// These parts, and `None` where they do not fit together. It looks at each item once, and takes
/// memory for a copy of each name.
pub(crate) fn parts_of(
    alloc: Global,
    rules: Vec<Rule>,
    categories: Vec<Name>,
    lexicon: LexiconParts,
) -> Result<Option<GrammarParts>, AllocError>
    ensures { IfOk result (GivesParts (grammar_of_parts rules.items categories.items
        (lexicon_of_parts lexicon) (entry_of_rules rules.items))) }
{
    if !is_well_formed(rules.as_slice(), categories.as_slice(), &lexicon) {
        return Ok(None);
    }
    if !have_distinct_names(alloc, categories.as_slice(), lexicon.kinds.as_slice())? {
        return Ok(None);
    }
    let entry = entry_of_rules(rules.as_slice());
    Ok(Some(GrammarParts::of(rules, categories, lexicon, entry)))
}

/// The symbol of each name of the parts.
fn places_of_parts(
    alloc: Global,
    parts: &GrammarParts,
) -> Result<IndexMap<Vec<u8>, Symbol>, AllocError>
    ensures { IfOk result (ArePlacesOf parts.now.categories parts.now.lexicon.kinds) }
{
    let found = symbol_places(alloc, parts.categories(), parts.kinds())?;
    match found {
        Some(places) => Ok(places),
        None => unreachable!(),
    }
}

impl Grammar {
    /// The grammar of these parts, or the category of least number that reaches itself.
    ///
    /// It looks at each item at most four times for the nullable categories and twice for the
    /// steps, and at each step at most three times for the ranks. Where some category reaches
    /// itself, it also searches from each category that leads to such a one, up to the first that
    /// is one. The grammar keeps the flags, the ranks, and a copy of each name, by which `find`
    /// looks it up. Beside these it takes memory for the items of the rules without kinds,
    /// for the steps, and for a few numbers of each rule and each category.
    pub fn of_parts(alloc: Global, parts: GrammarParts) -> Result<Grammar, CycleFault>
        ensures { AcceptsParts parts result }
    {
        let nullable = nullable_flags(alloc, &parts)?;
        match check_cycles(alloc, &parts, nullable.as_slice())? {
            CycleCheck::Ranked(ranks) => {
                let places = places_of_parts(alloc, &parts)?;
                Ok(Grammar::of(parts, nullable, ranks, places))
            }
            CycleCheck::Cyclic(category) => {
                let name = parts.into_category(category);
                Err(CycleFault::Cyclic { name })
            }
        }
    }

    /// The grammar of these rules, which may be one that no file spells. `None` where a rule has a
    /// symbol that is not there, where there are 65,536 rules, categories or kinds or more, or 2^31
    /// items or more, where two symbols have one name, and where some category reaches itself. The
    /// entry is the category of the first rule.
    ///
    /// It looks at each item once and copies each name once, and then takes what `of_parts` takes.
    pub fn of_rules(
        alloc: Global,
        rules: Vec<Rule>,
        categories: Vec<Name>,
        lexicon: LexiconParts,
    ) -> Result<Option<Grammar>, AllocError>
        ensures { IfOk result (MakesGrammar (grammar_of_parts rules.items categories.items
            (lexicon_of_parts lexicon) (entry_of_rules rules.items))) }
    {
        let made = parts_of(alloc, rules, categories, lexicon)?;
        let Some(parts) = made else {
            return Ok(None);
        };
        match Grammar::of_parts(alloc, parts) {
            Ok(grammar) => Ok(Some(grammar)),
            Err(CycleFault::Cyclic { .. }) => Ok(None),
            Err(CycleFault::Memory) => Err(AllocError),
        }
    }
}
