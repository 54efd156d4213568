//! The names by which symbols are numbered.
ghost use Rattle.std.specs.Prelude.{◌≡◌, [], fold, flat_map, map, IfOk, OnOk};
ghost use Rattle.spec_lbnf.specs.Expansion.{category_text, met_categories, rules_of};
ghost use Rattle.spec_lbnf.specs.Expansion.{categories_of, words_of, kind_names, tables_of};
ghost use Rattle.spec_lbnf.specs.Expansion.{names_in, tokens_of, active_kinds};
ghost use Rattle.spec_lbnf.specs.Checks.{HasOwnNames};
ghost use Rattle.lbnf_grammar.specs.PredefinedKinds.{predefined_token};
ghost use Rattle.lbnf_grammar.specs.Tables.{with_category, with_item, with_rule, with_internal};
ghost use Rattle.lbnf_grammar.specs.Tables.{shown};
ghost use Rattle.lbnf_grammar.specs.Numbering.{with_new_names};

use crate::expanded_def::ExpandedDef;
use crate::names::Names;
use crate::naming::{add_token_names, internal_category};
use crate::predefined::Predefined;
use crate::texts::category_text;
use spec_lbnf::{CatName, RawItem, RawRule};
use std::alloc::{AllocError, Global};

/// The categories and the words of a grammar, each in the order in which its rules meet them.
#[derive(Drop)]
pub(crate) struct MetNames {
    categories: Names,
    words: Names,
}

impl MetNames {
    /// Adds the category, whose text is made in the room.
    fn add_category(
        &mut self,
        alloc: Global,
        room: &mut Vec<u8>,
        cat: &CatName,
    ) -> Result<(), AllocError>
        ensures { OnOk result (self.new ≡ with_category self.old (category_text cat.now)) }
    {
        let text = category_text(cat);
        self.categories.add(alloc, text.in_room(room)?)
    }

    /// Adds the item, if it is no kind.
    fn add_item(
        &mut self,
        alloc: Global,
        room: &mut Vec<u8>,
        kinds: &Names,
        item: &RawItem,
    ) -> Result<(), AllocError>
        ensures { OnOk result (self.new ≡ with_item kinds.now self.old item.now) }
    {
        match item {
            RawItem::Cat(cat) => {
                let text = category_text(cat);
                let text = text.in_room(room)?;
                if kinds.has(text) {
                    return Ok(());
                }
                self.categories.add(alloc, text)
            }
            RawItem::Word(word) => self.words.add(alloc, word.as_str()),
        }
    }

    fn add_rule(
        &mut self,
        alloc: Global,
        room: &mut Vec<u8>,
        kinds: &Names,
        rule: &RawRule,
    ) -> Result<(), AllocError>
        ensures { OnOk result (self.new ≡ with_rule kinds.now self.old rule.now) }
    {
        self.add_category(alloc, room, &rule.cat)?;
        for item in rule.items.as_slice() {
            self.add_item(alloc, room, kinds, item)?;
        }
        Ok(())
    }

    fn add_rules(
        &mut self,
        alloc: Global,
        room: &mut Vec<u8>,
        kinds: &Names,
        rules: &[RawRule],
    ) -> Result<(), AllocError>
        ensures { OnOk result (self.new ≡ fold (with_rule kinds.now) self.old rules.now) }
    {
        for rule in rules {
            self.add_rule(alloc, room, kinds, rule)?;
        }
        Ok(())
    }

    fn add_internal(
        &mut self,
        alloc: Global,
        room: &mut Vec<u8>,
        def: &ExpandedDef<'_>,
    ) -> Result<(), AllocError>
        ensures { OnOk result (self.new ≡ with_internal self.old def.now) }
    {
        match internal_category(def.def()) {
            Some(cat) => self.add_category(alloc, room, cat),
            None => Ok(()),
        }
    }
}

/// The names that the rules of the definitions meet.
fn rule_names(
    alloc: Global,
    defs: &[ExpandedDef<'_>],
    kinds: &Names,
) -> Result<MetNames, AllocError>
    ensures categories { IfOk result (λ met. met.categories
        ≡ with_new_names [] (flat_map (met_categories kinds.now) (rules_of defs.now))) }
    ensures words { IfOk result (λ met. met.words ≡ words_of (rules_of defs.now)) }
{
    let mut met = MetNames {
        categories: Names::new(alloc),
        words: Names::new(alloc),
    };
    let mut room = Vec::new(alloc);
    for def in defs {
        met.add_rules(alloc, &mut room, kinds, def.rules())?;
    }
    Ok(met)
}

/// The names that the rules of the definitions meet, and their internal categories behind these.
fn met_names(alloc: Global, defs: &[ExpandedDef<'_>], kinds: &Names) -> Result<MetNames, AllocError>
    requires { kinds.now ≡ kind_names defs.now }
    ensures categories { IfOk result (λ met. met.categories ≡ categories_of defs.now) }
    ensures words { IfOk result (λ met. met.words ≡ words_of (rules_of defs.now)) }
{
    let mut met = rule_names(alloc, defs, kinds)?;
    let mut room = Vec::new(alloc);
    for def in defs {
        met.add_internal(alloc, &mut room, def)?;
    }
    Ok(met)
}

/// The names by which symbols are numbered.
#[derive(Drop)]
pub(crate) struct Tables {
    pub(crate) categories: Names,
    pub(crate) words: Names,
    /// The names of token definitions and, behind these, of active predefined kinds.
    pub(crate) tokens: Names,
}

/// The names of the token definitions and, behind these, of the active predefined kinds.
fn token_table(
    alloc: Global,
    defs: &[ExpandedDef<'_>],
    active: &[Predefined],
) -> Result<Names, AllocError>
    requires own { HasOwnNames defs.now }
    requires active { map predefined_token active.now ≡ active_kinds defs.now }
    ensures { IfOk result (λ names. names ≡ names_in (tokens_of defs.now)) }
{
    let mut names = Names::new(alloc);
    add_token_names(alloc, &mut names, defs)?;
    for kind in active {
        names.add(alloc, kind.name())?;
    }
    Ok(names)
}

/// The names of the grammar that the definitions stand for, of which these predefined kinds are
/// active.
pub(crate) fn tables_of(
    alloc: Global,
    defs: &[ExpandedDef<'_>],
    kinds: &Names,
    active: &[Predefined],
) -> Result<Tables, AllocError>
    requires kinds { kinds.now ≡ kind_names defs.now }
    requires own { HasOwnNames defs.now }
    requires active { map predefined_token active.now ≡ active_kinds defs.now }
    ensures { IfOk result (λ tables. shown tables ≡ tables_of defs.now) }
{
    let MetNames { categories, words } = met_names(alloc, defs, kinds)?;
    let tokens = token_table(alloc, defs, active)?;
    Ok(Tables {
        categories,
        words,
        tokens,
    })
}
