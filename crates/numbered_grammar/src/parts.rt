//! Rules, categories, kinds and an entry that fit together, before the check for cycles.
ghost use Rattle.std.specs.Prelude.{◌≡◌, ◌<◌, ◌^◌, length, slice_get, Some, IfSome};
ghost use Rattle.spec_grammar.specs.Grammars.{HasOwnSymbols, HasDistinctNames, IsSymbolOf};
ghost use Rattle.spec_grammar.specs.Grammars.{item_count};
ghost use Rattle.numbered_grammar.specs.Making.{grammar_of_parts, lexicon_of_parts};

use crate::lexicon::LexiconParts;
use spec_grammar::{Rule, Symbol};
use spec_lexing::KindDef;
use spec_text::Name;
use std::marker::Model;

/// Rules, categories and kinds, each numbered from 0, comments, and an entry. The rules have symbols
/// of these alone, the entry is one of them, no two have one name, and a category may reach itself.
#[derive(Debug, Drop)]
pub struct GrammarParts {
    rules: Vec<Rule>,
    categories: Vec<Name>,
    lexicon: LexiconParts,
    entry: Option<Symbol>,
}

impl Model for GrammarParts {
    ghost use Rattle.std.specs.Prelude.{◌<◌, ◌^◌, length, IfSome};
    ghost use Rattle.spec_grammar.specs.Grammars.{Grammar, HasOwnSymbols, HasDistinctNames};
    ghost use Rattle.spec_grammar.specs.Grammars.{IsSymbolOf, item_count};
    ghost use Rattle.numbered_grammar.specs.Making.{grammar_of_parts, lexicon_of_parts};
    ghost use Rattle.std.specs.Coded.{codes};
    ghost use Rattle.spec_lexing.specs.contracts.expression.Expr as expr;

    ghost Value = { Grammar };

    ghost coded = { Prim.hlevel (codes, expr.the_row.coded) };

    ghost view = { λ g. grammar_of_parts
        g.rules.items g.categories.items (lexicon_of_parts g.lexicon) g.entry };

    ghost invariant = { λ g. (length g.rules.items < 2 ^ 16)
        × (length g.categories.items < 2 ^ 16)
        × (length g.lexicon.kinds.items < 2 ^ 16)
        × (item_count g.rules.items < 2 ^ 31)
        × HasOwnSymbols (grammar_of_parts
        g.rules.items g.categories.items (lexicon_of_parts g.lexicon) g.entry)
        × HasDistinctNames (grammar_of_parts
        g.rules.items g.categories.items (lexicon_of_parts g.lexicon) g.entry)
        × IfSome g.entry (IsSymbolOf (grammar_of_parts
        g.rules.items g.categories.items (lexicon_of_parts g.lexicon) g.entry)) };
}

impl GrammarParts {
    /// These parts, which fit together. It takes no memory.
    pub fn of(
        rules: Vec<Rule>,
        categories: Vec<Name>,
        lexicon: LexiconParts,
        entry: Option<Symbol>,
    ) -> GrammarParts
        requires rules { length rules.items < 2 ^ 16 }
        requires categories { length categories.items < 2 ^ 16 }
        requires kinds { length lexicon.kinds.items < 2 ^ 16 }
        requires few { item_count rules.items < 2 ^ 31 }
        requires own_symbols { HasOwnSymbols
            (grammar_of_parts rules.items categories.items (lexicon_of_parts lexicon) entry) }
        requires names { HasDistinctNames
            (grammar_of_parts rules.items categories.items (lexicon_of_parts lexicon) entry) }
        requires entry { IfSome entry (IsSymbolOf
            (grammar_of_parts rules.items categories.items (lexicon_of_parts lexicon) entry)) }
        ensures { result
            ≡ grammar_of_parts rules.items categories.items (lexicon_of_parts lexicon) entry }
    {
        GrammarParts {
            rules,
            categories,
            lexicon,
            entry,
        }
    }

    pub(crate) fn rules(&self) -> &[Rule]
        ensures items { result.now ≡ self.now.rules }
        ensures few { length self.now.rules < 2 ^ 16 }
        ensures few_items { item_count self.now.rules < 2 ^ 31 }
        ensures own_symbols { HasOwnSymbols self.now }
    {
        self.rules.as_slice()
    }

    pub(crate) fn categories(&self) -> &[Name]
        ensures items { result.now ≡ self.now.categories }
        ensures few { length self.now.categories < 2 ^ 16 }
        ensures names { HasDistinctNames self.now }
    {
        self.categories.as_slice()
    }

    pub(crate) fn line_comments(&self) -> &[Name]
        ensures { result.now ≡ self.now.lexicon.line_comments }
    {
        self.lexicon.line_comments.as_slice()
    }

    pub(crate) fn block_comments(&self) -> &[(Name, Name)]
        ensures { result.now ≡ self.now.lexicon.block_comments }
    {
        self.lexicon.block_comments.as_slice()
    }

    pub(crate) fn kinds(&self) -> &[KindDef]
        ensures items { result.now ≡ self.now.lexicon.kinds }
        ensures few { length self.now.lexicon.kinds < 2 ^ 16 }
    {
        self.lexicon.kinds.as_slice()
    }

    pub(crate) fn category_count(&self) -> u16
        ensures { result ≡ length self.now.categories }
    {
        self.categories.len() as u16
    }

    pub(crate) fn entry(&self) -> Option<Symbol>
        ensures entry { result ≡ self.now.entry }
        ensures own { IfSome result (IsSymbolOf self.now) }
    {
        self.entry
    }

    /// The text of the category of this number. Nothing is copied.
    pub(crate) fn into_category(self, c: u16) -> Name
        requires { c < length self.categories }
        ensures { slice_get self.categories c ≡ Some result }
    {
        let mut categories = self.categories;
        categories.swap_remove(c as usize)
    }
}
