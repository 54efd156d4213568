//! Reading the definitions of a file from its tokens.
ghost use Rattle.std.specs.Prelude.{◌≡◌, ◌≤◌, length};
ghost use Rattle.spec_lbnf.specs.GrammarFile.{is_semicolon};
ghost use Rattle.lbnf_readers.specs.FileDefinitions.{piece_at, behind_piece, piece_def, defs_of};
ghost use Rattle.lbnf_text.specs.Faulting.{IsReadAs};

use crate::faults::{offset_of, stuck_fault};
use crate::parser::{Parser, Stop, first_of, is_sign};
use spec_lbnf::{Def, FileToken, PlacedToken, Sign, TextFault};
use std::alloc::Global;

fn is_semicolon(token: &FileToken) -> bool
    ensures { result ≡ is_semicolon token.now }
{
    is_sign(Sign::Semicolon, token)
}

/// How many tokens come before the first semicolon.
fn piece_len(tokens: &[PlacedToken]) -> usize
    ensures len { result ≡ length (piece_at tokens.now) }
    ensures within { result ≤ length tokens.now }
{
    for (i, token) in tokens.iter().enumerate() {
        if is_semicolon(&token.token) {
            return i;
        }
    }
    tokens.len()
}

/// The tokens before the first semicolon, and those from it on.
fn cut(tokens: &[PlacedToken]) -> (&[PlacedToken], &[PlacedToken])
    ensures piece { result.0.now ≡ piece_at tokens.now }
    ensures behind { result.1.now ≡ behind_piece tokens.now }
{
    tokens.split_at(piece_len(tokens))
}

/// The definition that all of the tokens of a piece are, or their fault. The stop is the offset of
/// what stands behind the piece.
#[tactic(auto, unfolding(lbnf_readers::specs::FileDefinitions::piece_def))]
fn piece_def(alloc: Global, piece: &[PlacedToken], stop: u32) -> Result<Def, TextFault>
    ensures { IsReadAs (λ def. def) (piece_def piece.now stop) result }
{
    let mut parser = Parser::new(piece);
    match parser.definition(alloc) {
        Ok(def) => Ok(def),
        Err(Stop::Memory) => Err(TextFault::Memory),
        Err(Stop::Stuck) => Err(stuck_fault(alloc, piece, parser.rest(), stop)),
        Err(Stop::Long) => {
            let at = offset_of(parser.rest(), stop);
            Err(TextFault::Syntax { at })
        }
    }
}

/// The definitions that the tokens are, or their first fault. The stop is the offset behind the
/// last token.
pub fn definitions(alloc: Global, tokens: &[PlacedToken], stop: u32) -> Result<Vec<Def>, TextFault>
    ensures { IsReadAs (λ list. list.items) (defs_of tokens.now stop) result }
{
    let mut list = Vec::new(alloc);
    let mut rest = tokens;
    'pieces: while let Some((first, behind)) = first_of(rest) {
        if is_semicolon(&first.token) {
            rest = behind;
            continue;
        }
        let (piece, behind) = cut(rest);
        let def = piece_def(alloc, piece, offset_of(behind, stop))?;
        list.push(def).map_err(|_| TextFault::Memory)?;
        rest = behind;
    }
    Ok(list)
}
