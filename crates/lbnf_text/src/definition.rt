//! Reading one definition.
ghost use Rattle.std.specs.Prelude.{◌≡◌, ◌∷◌, ◌<◌, length, OnOk};
ghost use Rattle.lbnf_readers.specs.FileReading.{rule_at, macro_at, list_macro_at, coercions_at};
ghost use Rattle.lbnf_readers.specs.FileReading.{entries_at, token_at, position_at, comment_end};
ghost use Rattle.lbnf_readers.specs.FileReading.{comment_at, to_end, def_by, def_at};
ghost use Rattle.lbnf_text.specs.Parsing.{Gives, list_def, next_entry_at, lexical_or_rule};

use crate::parser::{Parser, Stop, is_word};
use spec_lbnf::{CatName, Def, PlacedToken, RawRule, Sign};
use spec_text::Name;
use sqlite_items::Items;
use std::alloc::Global;

/// A macro for lists.
#[derive(Clone, Copy, Debug, PartialEq, Eq)]
pub enum ListMacro {
    Terminator,
    Separator,
}

impl ListMacro {
    /// The definition that the macro makes of its parts.
    fn def(self, nonempty: bool, cat: CatName, word: Name) -> Def
        ensures { result ≡ list_def self nonempty cat word }
    {
        match self {
            ListMacro::Terminator => Def::Terminator {
                nonempty,
                cat,
                word,
            },
            ListMacro::Separator => Def::Separator {
                nonempty,
                cat,
                word,
            },
        }
    }
}

impl<'a> Parser<'a> {
    /// Reads a rule, to the end of the tokens.
    #[tactic(auto, unfolding(lbnf_readers::specs::FileReading::rule_at, lbnf_readers::specs::FileReading::next_on))]
    fn rule(&mut self, alloc: Global) -> Result<RawRule, Stop>
        ensures { Gives (rule_at self.old) result self.new }
    {
        let label = self.label(alloc)?;
        self.sign(Sign::Dot)?;
        let cat = self.category(alloc)?;
        self.sign(Sign::Gives)?;
        let items = self.side(alloc)?;
        Ok(RawRule { label, cat, items })
    }

    /// Reads the category and the string of a macro.
    #[tactic(auto, unfolding(lbnf_readers::specs::FileReading::macro_at, lbnf_readers::specs::FileReading::next_on))]
    fn macro_parts(&mut self, alloc: Global, list: ListMacro, nonempty: bool) -> Result<Def, Stop>
        ensures { Gives (macro_at (list_def list nonempty) self.old) result self.new }
    {
        let cat = self.category(alloc)?;
        let word = self.text(alloc)?;
        Ok(list.def(nonempty, cat, word))
    }

    /// Reads a macro behind its first word.
    #[tactic(auto, unfolding(lbnf_readers::specs::FileReading::list_macro_at))]
    fn list_macro(&mut self, alloc: Global, list: ListMacro) -> Result<Def, Stop>
        ensures { Gives (list_macro_at (list_def list) self.old) result self.new }
    {
        let (first, behind) = self.split()?;
        let nonempty = is_word(b"nonempty".as_slice(), &first.token);
        if nonempty {
            self.go_to(behind);
        }
        self.macro_parts(alloc, list, nonempty)
    }

    /// Reads the name and the number of coercions.
    #[tactic(auto, unfolding(lbnf_readers::specs::FileReading::coercions_at, lbnf_readers::specs::FileReading::next_on))]
    fn coercions(&mut self, alloc: Global) -> Result<Def, Stop>
        ensures { Gives (coercions_at self.old) result self.new }
    {
        let name = self.name(alloc)?;
        let levels = self.number()?;
        Ok(Def::Coercions { name, levels })
    }

    /// Reads a comma and a category.
    #[tactic(auto, unfolding(lbnf_readers::specs::FileReading::next_on))]
    fn next_entry(&mut self, alloc: Global) -> Result<CatName, Stop>
        ensures read { Gives (next_entry_at self.old) result self.new }
        ensures shorter { OnOk result (length self.new < length self.old) }
    {
        self.sign(Sign::Comma)?;
        self.category(alloc)
    }

    /// Reads one category or more, to the end of the tokens.
    fn entries(&mut self, alloc: Global) -> Result<Items<CatName>, Stop>
        ensures { Gives (entries_at self.old) result self.new }
    {
        let mut cats = Items::new(alloc);
        cats.push(self.category(alloc)?)?;
        'entries: while !self.is_at_end() {
            cats.push(self.next_entry(alloc)?)?;
        }
        Ok(cats)
    }

    /// Reads the name and the expression of a kind of token.
    #[tactic(auto, unfolding(lbnf_readers::specs::FileReading::token_at, lbnf_readers::specs::FileReading::next_on))]
    fn token_def(&mut self, alloc: Global) -> Result<Def, Stop>
        ensures { Gives (token_at self.old) result self.new }
    {
        let name = self.name(alloc)?;
        let expr = self.expression(alloc)?;
        Ok(Def::Token { name, expr })
    }

    /// Reads a kind of token behind the word `position`.
    #[tactic(auto, unfolding(lbnf_readers::specs::FileReading::position_at, lbnf_readers::specs::FileReading::next_on))]
    fn positioned_token(&mut self, alloc: Global) -> Result<Def, Stop>
        ensures { Gives (position_at self.old) result self.new }
    {
        self.word(b"token".as_slice())?;
        self.token_def(alloc)
    }

    /// Reads what closes a comment, if it does not end with its line.
    #[tactic(auto, unfolding(lbnf_readers::specs::FileReading::comment_end, lbnf_readers::specs::FileReading::next_on))]
    fn comment_end(&mut self, alloc: Global, opening: Name) -> Result<Def, Stop>
        ensures { Gives (comment_end opening self.old) result self.new }
    {
        if self.is_at_end() {
            return Ok(Def::LineComment(opening));
        }
        let closing = self.filled_text(alloc)?;
        Ok(Def::BlockComment(opening, closing))
    }

    /// Reads the texts of a comment, one or two.
    #[tactic(auto, unfolding(lbnf_readers::specs::FileReading::comment_at, lbnf_readers::specs::FileReading::next_on))]
    fn comment(&mut self, alloc: Global) -> Result<Def, Stop>
        ensures { Gives (comment_at self.old) result self.new }
    {
        let opening = self.filled_text(alloc)?;
        self.comment_end(alloc, opening)
    }

    /// Sees that no token is left.
    #[tactic(auto, unfolding(lbnf_readers::specs::FileReading::to_end))]
    fn end(&mut self, def: Def) -> Result<Def, Stop>
        ensures { Gives (to_end def self.old) result self.new }
    {
        if self.is_at_end() {
            Ok(def)
        } else {
            Err(Stop::Stuck)
        }
    }

    /// Reads a kind of token or a comment by its first word, or else a rule; the first token and
    /// the tokens behind it come next.
    #[tactic(auto, unfolding(lbnf_readers::specs::FileReading::next_on))]
    fn lexical_or_rule(
        &mut self,
        alloc: Global,
        first: &PlacedToken,
        behind: &'a [PlacedToken],
    ) -> Result<Def, Stop>
        requires { self.old ≡ first.now ∷ behind.now }
        ensures { Gives (lexical_or_rule first.now behind.now) result self.new }
    {
        if is_word(b"token".as_slice(), &first.token) {
            self.go_to(behind);
            return self.token_def(alloc);
        }
        if is_word(b"position".as_slice(), &first.token) {
            self.go_to(behind);
            return self.positioned_token(alloc);
        }
        if is_word(b"comment".as_slice(), &first.token) {
            self.go_to(behind);
            return self.comment(alloc);
        }
        Ok(Def::Rule(self.rule(alloc)?))
    }

    /// Reads a definition by its first word; this and the tokens behind it come next.
    #[tactic(auto, unfolding(lbnf_readers::specs::FileReading::def_by, lbnf_readers::specs::FileReading::next_on))]
    fn def_by(
        &mut self,
        alloc: Global,
        first: &PlacedToken,
        behind: &'a [PlacedToken],
    ) -> Result<Def, Stop>
        requires { self.old ≡ first.now ∷ behind.now }
        ensures { Gives (def_by first.now behind.now) result self.new }
    {
        if is_word(b"internal".as_slice(), &first.token) {
            self.go_to(behind);
            return Ok(Def::Internal(self.rule(alloc)?));
        }
        if is_word(b"terminator".as_slice(), &first.token) {
            self.go_to(behind);
            return self.list_macro(alloc, ListMacro::Terminator);
        }
        if is_word(b"separator".as_slice(), &first.token) {
            self.go_to(behind);
            return self.list_macro(alloc, ListMacro::Separator);
        }
        if is_word(b"coercions".as_slice(), &first.token) {
            self.go_to(behind);
            return self.coercions(alloc);
        }
        if is_word(b"entrypoints".as_slice(), &first.token) {
            self.go_to(behind);
            return Ok(Def::Entry(self.entries(alloc)?));
        }
        self.lexical_or_rule(alloc, first, behind)
    }

    /// Reads a definition that all of the tokens are.
    #[tactic(auto, unfolding(lbnf_readers::specs::FileReading::def_at, lbnf_readers::specs::FileReading::next_on))]
    pub fn definition(&mut self, alloc: Global) -> Result<Def, Stop>
        ensures { Gives (def_at self.old) result self.new }
    {
        let (first, behind) = self.split()?;
        let def = self.def_by(alloc, first, behind)?;
        self.end(def)
    }
}
