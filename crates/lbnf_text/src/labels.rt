//! Reading labels.
ghost use Rattle.std.specs.Prelude.{◌≡◌, ◌∷◌};
ghost use Rattle.lbnf_readers.specs.FileReading.{nil_at, one_at, colon_label_at, paren_label_at};
ghost use Rattle.lbnf_readers.specs.FileReading.{sign_label_at, label_at};
ghost use Rattle.lbnf_text.specs.Parsing.{Gives};

use crate::parser::{Parser, Stop, is_sign, upper_name};
use spec_grammar::Label;
use spec_lbnf::{PlacedToken, Sign};
use std::alloc::Global;

impl<'a> Parser<'a> {
    /// Reads `]`, the rest of the label `[]`.
    #[tactic(auto, unfolding(lbnf_readers::specs::FileReading::nil_at, lbnf_readers::specs::FileReading::next_on))]
    fn nil(&mut self) -> Result<Label, Stop>
        ensures { Gives (nil_at self.old) result self.new }
    {
        self.sign(Sign::CloseBracket)?;
        Ok(Label::Nil)
    }

    /// Reads `])`, the rest of the label `(:[])`.
    #[tactic(auto, unfolding(lbnf_readers::specs::FileReading::one_at, lbnf_readers::specs::FileReading::next_on))]
    fn one(&mut self) -> Result<Label, Stop>
        ensures { Gives (one_at self.old) result self.new }
    {
        self.sign(Sign::CloseBracket)?;
        self.sign(Sign::CloseParen)?;
        Ok(Label::One)
    }

    /// Reads the rest of the label `(:)` or `(:[])`, behind its colon.
    #[tactic(auto, unfolding(lbnf_readers::specs::FileReading::colon_label_at))]
    fn colon_label(&mut self) -> Result<Label, Stop>
        ensures { Gives (colon_label_at self.old) result self.new }
    {
        let (first, behind) = self.split()?;
        if is_sign(Sign::CloseParen, &first.token) {
            self.go_to(behind);
            return Ok(Label::Cons);
        }
        if !is_sign(Sign::OpenBracket, &first.token) {
            return Err(Stop::Stuck);
        }
        self.go_to(behind);
        self.one()
    }

    /// Reads the rest of a label, behind its open parenthesis.
    #[tactic(auto, unfolding(lbnf_readers::specs::FileReading::paren_label_at, lbnf_readers::specs::FileReading::next_on))]
    fn paren_label(&mut self) -> Result<Label, Stop>
        ensures { Gives (paren_label_at self.old) result self.new }
    {
        self.sign(Sign::Colon)?;
        self.colon_label()
    }

    /// Reads a label that is no name: its first token and the tokens behind it come next.
    #[tactic(auto, unfolding(lbnf_readers::specs::FileReading::sign_label_at))]
    fn sign_label(&mut self, first: &PlacedToken, behind: &'a [PlacedToken]) -> Result<Label, Stop>
        requires { self.old ≡ first.now ∷ behind.now }
        ensures { Gives (sign_label_at first.now behind.now) result self.new }
    {
        if is_sign(Sign::Underscore, &first.token) {
            self.go_to(behind);
            return Ok(Label::Wild);
        }
        if is_sign(Sign::OpenBracket, &first.token) {
            self.go_to(behind);
            return self.nil();
        }
        if !is_sign(Sign::OpenParen, &first.token) {
            return Err(Stop::Stuck);
        }
        self.go_to(behind);
        self.paren_label()
    }

    /// Reads a label.
    #[tactic(auto, unfolding(lbnf_readers::specs::FileReading::label_at))]
    pub fn label(&mut self, alloc: Global) -> Result<Label, Stop>
        ensures { Gives (label_at self.old) result self.new }
    {
        let (first, behind) = self.split()?;
        match upper_name(&first.token) {
            Some(name) => {
                let name = name.copy(alloc)?;
                self.go_to(behind);
                Ok(Label::Named(name))
            }
            None => self.sign_label(first, behind),
        }
    }
}
