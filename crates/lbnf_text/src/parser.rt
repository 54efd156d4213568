//! The tokens of one definition, read from left to right.
ghost use Rattle.std.specs.Prelude.{◌≡◌, ◌<◌, ◌↔◌, [], length, IfOk, OnOk, IsTrue};
ghost use Rattle.std.specs.Option.{option_copied};
ghost use Rattle.spec_lbnf.specs.GrammarFile.{starts_upper};
ghost use Rattle.spec_lbnf.specs.FileTokens.{sign_bytes};
ghost use Rattle.lbnf_readers.specs.FileReading.{is_sign, is_word};
ghost use Rattle.lbnf_readers.specs.FileReading.{upper_name, text_value, filled_text};
ghost use Rattle.lbnf_readers.specs.FileReading.{number_value, sign_at, name_at, text_at};
ghost use Rattle.lbnf_readers.specs.FileReading.{filled_text_at, number_at, word_at};
ghost use Rattle.lbnf_text.specs.Parsing.{Gives, IsFirstToken, Splits};

use spec_lbnf::{FileToken, PlacedToken, Sign};
use spec_text::Name;
use std::alloc::{AllocError, Global};
use std::marker::Model;

/// Why a parser stops.
#[derive(Clone, Copy, Debug, PartialEq, Eq)]
pub enum Stop {
    /// Memory ran out. It may come at any token.
    Memory,
    /// What is left cannot go on.
    Stuck,
    /// What is left begins with a category of more than 128 bytes.
    Long,
}

impl From<AllocError> for Stop {
    ghost use Rattle.std.specs.Prelude.{◌≡◌};
    ghost use Rattle.lbnf_text.specs.declared.parser.Stop.TheVariants.{Memory};

    ghost from_gives = { λ _ stop. stop ≡ Memory };

    fn from(_: AllocError) -> Stop {
        Stop::Memory
    }
}

/// The tokens that are left of a definition, seen as their list.
#[derive(Drop)]
pub struct Parser<'a> {
    rest: &'a [PlacedToken],
}

impl<'a> Model for Parser<'a> {
    ghost use Rattle.std.specs.Prelude.{List};
    ghost use Rattle.spec_lbnf.specs.declared.token.PlacedToken.{PlacedToken};

    ghost Value = { List PlacedToken };

    ghost view = { λ parser. parser.rest.now };
}

/// Whether an upper-case letter comes first.
pub fn starts_upper(bytes: &[u8]) -> bool
    ensures { result ≡ starts_upper bytes.now }
{
    match bytes {
        [] => false,
        [byte, ..] => byte.is_ascii_uppercase(),
    }
}

impl<'a> Parser<'a> {
    /// A parser at the first of the tokens.
    pub fn new(tokens: &'a [PlacedToken]) -> Parser<'a>
        ensures { result ≡ tokens.now }
    {
        Parser { rest: tokens }
    }

    /// The tokens that are left.
    pub fn rest(&self) -> &'a [PlacedToken]
        ensures { result.now ≡ self.now }
    {
        self.rest
    }

    /// The next token, and the tokens behind it; `Stuck` where none is left.
    pub fn split(&self) -> Result<(&'a PlacedToken, &'a [PlacedToken]), Stop>
        ensures { Splits self.now result }
    {
        first_of(self.rest).ok_or(Stop::Stuck)
    }

    /// Reads this sign.
    #[tactic(auto, unfolding(lbnf_readers::specs::FileReading::sign_at, lbnf_readers::specs::FileReading::take_token))]
    pub fn sign(&mut self, sign: Sign) -> Result<(), Stop>
        ensures read { Gives (sign_at sign self.old) result self.new }
        ensures shorter { OnOk result (length self.new < length self.old) }
    {
        let (first, behind) = self.split()?;
        if !is_sign(sign, &first.token) {
            return Err(Stop::Stuck);
        }
        self.rest = behind;
        Ok(())
    }

    /// Reads this word.
    #[tactic(auto, unfolding(lbnf_readers::specs::FileReading::word_at, lbnf_readers::specs::FileReading::take_token))]
    pub fn word(&mut self, word: &[u8]) -> Result<(), Stop>
        ensures { Gives (word_at word.now self.old) result self.new }
    {
        let (first, behind) = self.split()?;
        if !is_word(word, &first.token) {
            return Err(Stop::Stuck);
        }
        self.rest = behind;
        Ok(())
    }

    /// Reads an upper-case name.
    #[tactic(auto, unfolding(lbnf_readers::specs::FileReading::name_at, lbnf_readers::specs::FileReading::take_token))]
    pub fn name(&mut self, alloc: Global) -> Result<Name, Stop>
        ensures read { Gives (name_at self.old) result self.new }
        ensures shorter { OnOk result (length self.new < length self.old) }
    {
        let (first, behind) = self.split()?;
        let name = upper_name(&first.token).ok_or(Stop::Stuck)?;
        let name = name.copy(alloc)?;
        self.rest = behind;
        Ok(name)
    }

    /// Reads a string.
    #[tactic(auto, unfolding(lbnf_readers::specs::FileReading::text_at, lbnf_readers::specs::FileReading::take_token))]
    pub fn text(&mut self, alloc: Global) -> Result<Name, Stop>
        ensures { Gives (text_at self.old) result self.new }
    {
        let (first, behind) = self.split()?;
        let text = text_value(&first.token).ok_or(Stop::Stuck)?;
        let text = text.copy(alloc)?;
        self.rest = behind;
        Ok(text)
    }

    /// Reads a string of one byte or more.
    #[tactic(auto, unfolding(lbnf_readers::specs::FileReading::filled_text_at, lbnf_readers::specs::FileReading::take_token))]
    pub fn filled_text(&mut self, alloc: Global) -> Result<Name, Stop>
        ensures { Gives (filled_text_at self.old) result self.new }
    {
        let (first, behind) = self.split()?;
        let text = filled_text(&first.token).ok_or(Stop::Stuck)?;
        let text = text.copy(alloc)?;
        self.rest = behind;
        Ok(text)
    }

    /// Reads a number.
    #[tactic(auto, unfolding(lbnf_readers::specs::FileReading::number_at, lbnf_readers::specs::FileReading::take_token))]
    pub fn number(&mut self) -> Result<u16, Stop>
        ensures { Gives (number_at self.old) result self.new }
    {
        let (first, behind) = self.split()?;
        let number = number_value(&first.token).ok_or(Stop::Stuck)?;
        self.rest = behind;
        Ok(number)
    }

    /// Goes on at these tokens, which are a part of the same definition.
    pub fn go_to(&mut self, tokens: &'a [PlacedToken])
        ensures { self.new ≡ tokens.now }
    {
        self.rest = tokens;
    }

    /// Whether no token is left.
    pub fn is_at_end(&self) -> bool
        ensures { IsTrue result ↔ (self.now ≡ []) }
    {
        self.rest.is_empty()
    }
}

/// The first of the tokens, and the tokens behind it.
pub fn first_of(tokens: &[PlacedToken]) -> Option<(&PlacedToken, &[PlacedToken])>
    ensures { IsFirstToken tokens.now result }
{
    tokens.split_first()
}

/// The bytes of a sign.
fn sign_bytes(sign: Sign) -> &'static [u8]
    ensures { result.now ≡ sign_bytes sign }
{
    match sign {
        Sign::Dot => b".".as_slice(),
        Sign::Semicolon => b";".as_slice(),
        Sign::Gives => b"::=".as_slice(),
        Sign::Colon => b":".as_slice(),
        Sign::OpenBracket => b"[".as_slice(),
        Sign::CloseBracket => b"]".as_slice(),
        Sign::OpenParen => b"(".as_slice(),
        Sign::CloseParen => b")".as_slice(),
        Sign::OpenBrace => b"{".as_slice(),
        Sign::CloseBrace => b"}".as_slice(),
        Sign::Comma => b",".as_slice(),
        Sign::Bar => b"|".as_slice(),
        Sign::Star => b"*".as_slice(),
        Sign::Plus => b"+".as_slice(),
        Sign::Question => b"?".as_slice(),
        Sign::Minus => b"-".as_slice(),
        Sign::Underscore => b"_".as_slice(),
    }
}

/// Whether the token is this sign.
pub fn is_sign(sign: Sign, token: &FileToken) -> bool
    ensures { result ≡ is_sign sign token.now }
{
    if let FileToken::Sign(other) = token {
        sign_bytes(sign) == sign_bytes(*other)
    } else {
        false
    }
}

/// The upper-case name that the token is.
pub fn upper_name(token: &FileToken) -> Option<&Name>
    ensures { option_copied result ≡ upper_name token.now }
{
    if let FileToken::Identifier(name) = token {
        starts_upper(name.as_slice()).then_some(name)
    } else {
        None
    }
}

/// The text that the token is.
pub fn text_value(token: &FileToken) -> Option<&Name>
    ensures { option_copied result ≡ text_value token.now }
{
    if let FileToken::Text(text) = token {
        Some(text)
    } else {
        None
    }
}

/// The text of one byte or more that the token is.
fn filled_text(token: &FileToken) -> Option<&Name>
    ensures { option_copied result ≡ filled_text token.now }
{
    let FileToken::Text(text) = token else {
        return None;
    };
    if text.as_slice().is_empty() {
        None
    } else {
        Some(text)
    }
}

/// The number that the token is.
fn number_value(token: &FileToken) -> Option<u16>
    ensures { result ≡ number_value token.now }
{
    if let FileToken::Number(number) = token {
        Some(*number)
    } else {
        None
    }
}

/// Whether the token is this word.
pub fn is_word(word: &[u8], token: &FileToken) -> bool
    ensures { result ≡ is_word word.now token.now }
{
    if let FileToken::Identifier(name) = token {
        name.as_slice() == word
    } else {
        false
    }
}
