//! What a grammar looks for in a text.
ghost use Rattle.std.specs.Prelude.{◌≡◌};
ghost use Rattle.spec_lexing.specs.Lexicon.{lexicon_of};
ghost use Rattle.numbered_grammar.specs.Making.{lexicon_of_parts};

use spec_lexing::KindDef;
use spec_text::Name;
use std::alloc::Global;

/// What a grammar looks for in a text behind white space: the words that begin line comments, the
/// words that begin and end block comments, and the kinds of token, which are numbered from 0.
#[derive(Debug, Drop)]
pub struct LexiconParts {
    pub line_comments: Vec<Name>,
    pub block_comments: Vec<(Name, Name)>,
    pub kinds: Vec<KindDef>,
}

impl LexiconParts {
    /// These kinds, and no comments. It takes no memory.
    pub fn of_kinds(alloc: Global, kinds: Vec<KindDef>) -> LexiconParts
        ensures { lexicon_of_parts result ≡ lexicon_of kinds.items }
    {
        LexiconParts {
            line_comments: Vec::new(alloc),
            block_comments: Vec::new(alloc),
            kinds,
        }
    }
}
