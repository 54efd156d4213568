//! Reading categories.
ghost use Rattle.std.specs.Prelude.{◌≡◌, ◌+◌, ◌<◌, ◌≤◌, length, drop, nat_le, OnOk};
ghost use Rattle.lbnf_readers.specs.FileReading.{open_count, closes_at, category_at};
ghost use Rattle.lbnf_text.specs.Parsing.{Gives};

use crate::parser::{Parser, Stop, is_sign};
use spec_lbnf::{CatName, PlacedToken, Sign};
use spec_text::{MAX_CATEGORY, Name};
use std::alloc::Global;

/// How many open brackets come first.
fn open_count(tokens: &[PlacedToken]) -> usize
    ensures count { result ≡ open_count tokens.now }
    ensures within { result ≤ length tokens.now }
{
    for (i, token) in tokens.iter().enumerate() {
        if !is_sign(Sign::OpenBracket, &token.token) {
            return i;
        }
    }
    tokens.len()
}

/// Whether the name inside so many brackets has at most 128 bytes.
fn is_short(depth: usize, name: &Name) -> bool
    ensures { result ≡ nat_le (depth + length name.now + depth) 128 }
{
    depth <= MAX_CATEGORY && depth + name.as_slice().len() + depth <= MAX_CATEGORY
}

impl<'a> Parser<'a> {
    /// Passes over open brackets, and answers how many there are.
    fn opens(&mut self) -> usize
        ensures count { result ≡ open_count self.old }
        ensures rest { self.new ≡ drop (open_count self.old) self.old }
    {
        let tokens = self.rest();
        let count = open_count(tokens);
        self.go_to(&tokens[count..]);
        count
    }

    /// Reads so many close brackets.
    fn closes(&mut self, count: usize) -> Result<(), Stop>
        ensures read { Gives (closes_at count self.old) result self.new }
        ensures within { OnOk result (length self.new ≤ length self.old) }
    {
        for _turn in 0..count {
            self.sign(Sign::CloseBracket)?;
        }
        Ok(())
    }

    /// Reads a category of at most 128 bytes; where it is longer, the parser stays before it.
    #[tactic(auto, unfolding(lbnf_readers::specs::FileReading::category_at, lbnf_readers::specs::FileReading::bracketed_at, lbnf_readers::specs::FileReading::next_on))]
    pub fn category(&mut self, alloc: Global) -> Result<CatName, Stop>
        ensures read { Gives (category_at self.old) result self.new }
        ensures shorter { OnOk result (length self.new < length self.old) }
    {
        let start = self.rest();
        let depth = self.opens();
        let name = self.name(alloc)?;
        self.closes(depth)?;
        if !is_short(depth, &name) {
            self.go_to(start);
            return Err(Stop::Long);
        }
        let depth = depth as u8;
        Ok(CatName { name, depth })
    }
}
