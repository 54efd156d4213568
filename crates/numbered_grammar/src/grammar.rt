//! A grammar with numbers in place of names.
ghost use Rattle.std.specs.Prelude.{◌≡◌, ◌<◌, ◌^◌, length, slice_get, Some, IfSome};
ghost use Rattle.spec_grammar.specs.Cycles.{IsAcyclic, IsRank};
ghost use Rattle.spec_grammar.specs.Grammars.{HasOwnSymbols, IsSymbolOf, item_count};
ghost use Rattle.numbered_grammar.specs.Making.{FindsSymbol};
ghost use Rattle.numbered_grammar.specs.Nullable.{AreNullableFlags};
ghost use Rattle.numbered_grammar.specs.Places.{ArePlacesOf};
ghost use Rattle.numbered_grammar.specs.Ranks.{AreRanks};

use crate::parts::GrammarParts;
use indexmap::IndexMap;
use spec_grammar::{Rule, Symbol};
use spec_lexing::KindDef;
use spec_text::Name;
use std::marker::Model;

/// A grammar: its rules, categories and kinds, each numbered from 0. No category reaches itself by
/// steps, and each has its rank.
#[derive(Debug, Drop)]
pub struct Grammar {
    parts: GrammarParts,
    nullable: Vec<bool>,
    ranks: Vec<u16>,
    /// The symbol of each name.
    places: IndexMap<Vec<u8>, Symbol>,
}

impl Model for Grammar {
    ghost use Rattle.spec_grammar.specs.Cycles.{IsAcyclic};
    ghost use Rattle.spec_grammar.specs.Grammars.{Grammar};
    ghost use Rattle.numbered_grammar.specs.Nullable.{AreNullableFlags};
    ghost use Rattle.numbered_grammar.specs.Places.{ArePlacesOf};
    ghost use Rattle.numbered_grammar.specs.Ranks.{AreRanks};
    ghost use Rattle.std.specs.Coded.{codes};
    ghost use Rattle.spec_lexing.specs.contracts.expression.Expr as expr;

    ghost Value = { Grammar };

    ghost coded = { Prim.hlevel (codes, expr.the_row.coded) };

    ghost view = { λ g. g.parts };

    ghost invariant = { λ g. IsAcyclic g.parts.rules
        × AreNullableFlags g.parts g.nullable.items
        × AreRanks g.parts g.ranks.items
        × ArePlacesOf g.parts.categories g.parts.lexicon.kinds g.places };
}

impl Grammar {
    pub(crate) fn of(
        parts: GrammarParts,
        nullable: Vec<bool>,
        ranks: Vec<u16>,
        places: IndexMap<Vec<u8>, Symbol>,
    ) -> Grammar
        requires acyclic { IsAcyclic parts.rules }
        requires nullable { AreNullableFlags parts nullable.items }
        requires ranks { AreRanks parts ranks.items }
        requires places { ArePlacesOf parts.categories parts.lexicon.kinds places }
        ensures { result ≡ parts }
    {
        Grammar {
            parts,
            nullable,
            ranks,
            places,
        }
    }

    /// The rules, by number. It takes no memory.
    pub fn rules(&self) -> &[Rule]
        ensures items { result.now ≡ self.now.rules }
        ensures few { length self.now.rules < 2 ^ 16 }
        ensures few_items { item_count self.now.rules < 2 ^ 31 }
        ensures own_symbols { HasOwnSymbols self.now }
        ensures acyclic { IsAcyclic self.now.rules }
    {
        self.parts.rules()
    }

    /// How many rules there are. It takes no memory.
    pub fn rule_count(&self) -> u16
        ensures { result ≡ length self.now.rules }
    {
        self.parts.rules().len() as u16
    }

    /// The rule of this number. It takes no memory.
    pub fn rule(&self, r: u16) -> &Rule
        requires { r < length self.now.rules }
        ensures { slice_get self.now.rules r ≡ Some result.now }
    {
        &self.parts.rules()[r as usize]
    }

    /// The symbol that is asked for where none is named, if there is one. It takes no memory.
    pub fn entry(&self) -> Option<Symbol>
        ensures entry { result ≡ self.now.entry }
        ensures own { IfSome result (IsSymbolOf self.now) }
    {
        self.parts.entry()
    }

    /// How many categories there are. It takes no memory.
    pub fn category_count(&self) -> u16
        ensures { result ≡ length self.now.categories }
    {
        self.parts.category_count()
    }

    /// The text of the category of this number. It takes no memory.
    pub fn category_name(&self, c: u16) -> &Name
        requires { c < length self.now.categories }
        ensures { slice_get self.now.categories c ≡ Some result.now }
    {
        &self.parts.categories()[c as usize]
    }

    /// For each category, by number, whether it derives the empty span. It takes no memory.
    pub fn nullable_flags(&self) -> &[bool]
        ensures { AreNullableFlags self.now result.now }
    {
        self.nullable.as_slice()
    }

    /// The rank of the category of this number: how many steps the longest chain of steps from it
    /// has. A step leads to a category of lower rank, by `steps_lower_ranks` of `spec_grammar`. It
    /// takes no memory.
    pub fn rank(&self, c: u16) -> u16
        requires { c < length self.now.categories }
        ensures { IsRank self.now.rules c result }
    {
        self.ranks[c as usize]
    }

    /// How many kinds of token there are. It takes no memory.
    pub fn kind_count(&self) -> u16
        ensures { result ≡ length self.now.lexicon.kinds }
    {
        self.parts.kinds().len() as u16
    }

    /// The kinds, by number. It takes no memory.
    pub fn kinds(&self) -> &[KindDef]
        ensures items { result.now ≡ self.now.lexicon.kinds }
        ensures few { length self.now.lexicon.kinds < 2 ^ 16 }
    {
        self.parts.kinds()
    }

    /// The kind of this number. It takes no memory.
    pub fn kind(&self, k: u16) -> &KindDef
        requires { k < length self.now.lexicon.kinds }
        ensures { slice_get self.now.lexicon.kinds k ≡ Some result.now }
    {
        &self.parts.kinds()[k as usize]
    }

    /// The words that begin line comments, in file order. It takes no memory.
    pub fn line_comments(&self) -> &[Name]
        ensures { result.now ≡ self.now.lexicon.line_comments }
    {
        self.parts.line_comments()
    }

    /// The words that begin and end block comments, in file order. It takes no memory.
    pub fn block_comments(&self) -> &[(Name, Name)]
        ensures { result.now ≡ self.now.lexicon.block_comments }
    {
        self.parts.block_comments()
    }

    /// The symbol of this name: a category by its text, or a kind of token that is no word by its
    /// name. No two symbols have one name. It is one look-up, whatever the symbol, and takes no
    /// memory.
    pub fn find(&self, text: &[u8]) -> Option<Symbol>
        ensures found { FindsSymbol self.now text.now result }
        ensures own { IfSome result (IsSymbolOf self.now) }
    {
        let symbol = self.places.get(text)?;
        Some(*symbol)
    }
}
