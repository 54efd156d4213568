//! The comments and kinds that are added, line by line.
use crate::polish::expression;
use spec_lexing::KindDef;
use spec_text::Name;
use std::alloc::Global;

/// The comments and kinds that were added.
#[derive(Drop)]
pub struct Parts {
    pub lines: Vec<Name>,
    pub blocks: Vec<(Name, Name)>,
    pub kinds: Vec<KindDef>,
}

/// The name of the text. None where memory ran out.
pub fn name(alloc: Global, text: &str) -> Option<Name> {
    let bytes = Vec::from_slice(alloc, text.as_bytes()).ok()?;
    Some(Name::of(bytes))
}

impl Parts {
    /// Nothing was added. It takes no memory.
    pub fn new(alloc: Global) -> Parts {
        Parts {
            lines: Vec::new(alloc),
            blocks: Vec::new(alloc),
            kinds: Vec::new(alloc),
        }
    }

    fn add_block(&mut self, alloc: Global, words: &str) -> Option<()> {
        let (opening, closing) = words.split_once(' ')?;
        let words = (name(alloc, opening)?, name(alloc, closing)?);
        self.blocks.push(words).ok()
    }

    fn add_token(&mut self, alloc: Global, words: &str) -> Option<()> {
        let expr = expression(alloc, words)?;
        let name = name(alloc, "Token")?;
        self.kinds.push(KindDef::Token { name, expr }).ok()
    }

    /// Adds what the line says. None where it says nothing, or memory ran out.
    pub fn add(&mut self, alloc: Global, line: &str) -> Option<()> {
        let (verb, words) = line.split_once(' ')?;
        match verb {
            "line" => self.lines.push(name(alloc, words)?).ok(),
            "block" => self.add_block(alloc, words),
            "word" => self.kinds.push(KindDef::Word(name(alloc, words)?)).ok(),
            "token" => self.add_token(alloc, words),
            _ => None,
        }
    }
}
