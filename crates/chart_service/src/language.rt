//! A grammar that was accepted, with its automaton and its binary form.
ghost use Rattle.std.specs.Prelude.{◌≡◌};
ghost use Rattle.text_store.specs.TextStore.{Lexes};
ghost use Rattle.chart_service.specs.Languages.{CanOpen};

use binary_form::Binary;
use cell_sets::Cell;
use lbnf_grammar::Grammar;
use lbnf_regex::Automaton;
use std::marker::Model;

/// A grammar that was accepted, with the automaton of its kinds and comments and its binary form
/// over one type of cell, seen as the grammar. The three parts are always of this one grammar, under
/// which texts can be opened.
#[derive(Drop)]
pub struct Language<C: Cell> {
    grammar: Grammar,
    automaton: Automaton,
    binary: Binary<C>,
}

impl<C: Cell> Model for Language<C> {
    ghost use Rattle.std.specs.Prelude.{◌≡◌};
    ghost use Rattle.spec_grammar.specs.Grammars.{Grammar};
    ghost use Rattle.std.specs.Coded.{codes};
    ghost use Rattle.spec_lexing.specs.contracts.expression.Expr as expr;
    ghost use Rattle.text_store.specs.TextStore.{Lexes};
    ghost use Rattle.chart_service.specs.Languages.{CanOpen};

    ghost Value = { Grammar };

    ghost coded = { Prim.hlevel (codes, expr.the_row.coded) };

    ghost view = { λ l. l.grammar };

    ghost invariant = { λ l. (l.binary ≡ l.grammar) × Lexes (l.grammar).lexicon l.automaton
        × CanOpen C.ROOM l.grammar };
}

impl<C: Cell> Language<C> {
    /// The grammar with its automaton and its binary form.
    pub(crate) fn of(grammar: Grammar, automaton: Automaton, binary: Binary<C>) -> Language<C>
        requires lexes { Lexes grammar.lexicon automaton }
        requires binary { binary ≡ grammar }
        requires can { CanOpen C.ROOM grammar }
        ensures { result ≡ grammar }
    {
        Language {
            grammar,
            automaton,
            binary,
        }
    }

    /// Texts can be opened under the grammar.
    pub(crate) fn know_can_open(&self)
        ensures { CanOpen C.ROOM self.now }
    {
        let _grammar = &self.grammar;
    }

    /// The grammar: its rules, categories, kinds, comments and entry. It takes no memory.
    pub fn grammar(&self) -> &Grammar
        ensures { result.now ≡ self.now }
    {
        &self.grammar
    }

    /// The automaton of its kinds and comments, by which a text of the language is opened. It takes
    /// no memory.
    pub fn automaton(&self) -> &Automaton
        ensures { Lexes (self.now).lexicon result.now }
    {
        &self.automaton
    }

    /// Its binary form, by which the chart of a text is filled. It takes no memory.
    pub fn binary(&self) -> &Binary<C>
        ensures { result.now ≡ self.now }
    {
        &self.binary
    }
}
