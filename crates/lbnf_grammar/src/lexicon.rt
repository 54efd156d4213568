//! The kinds of token and the comments that definitions give.
ghost use Rattle.std.specs.Prelude.{◌≡◌, ◌++◌, map, flat_map, IfOk, OnOk};
ghost use Rattle.spec_lexing.specs.declared.kind_def.KindDef.TheVariants.{Word as WordKind};
ghost use Rattle.spec_lbnf.specs.Expansion.{token_in, tokens_of, active_kinds, kinds_by};
ghost use Rattle.spec_lbnf.specs.Expansion.{line_comment_in, block_comment_in};
ghost use Rattle.lbnf_grammar.specs.PredefinedKinds.{predefined_token};
ghost use Rattle.lbnf_grammar.specs.PredefinedKinds.{token_kind, lexicon_by};
ghost use Rattle.numbered_grammar.specs.Making.{lexicon_of_parts};

use crate::expanded_def::ExpandedDef;
use crate::predefined::Predefined;
use numbered_grammar::{KindDef, LexiconParts};
use spec_lbnf::Def;
use spec_text::Name;
use std::alloc::{AllocError, Global};

/// A kind for each word.
fn word_kinds(alloc: Global, words: Vec<Name>) -> Result<Vec<KindDef>, AllocError>
    ensures { IfOk result (λ kinds. kinds.items ≡ map WordKind words.items) }
{
    words
        .into_iter()
        .map(|word| KindDef::Word(word))
        .collect(alloc)
}

/// Adds the kind of the token that the definition defines, if it defines one.
fn add_token(alloc: Global, kinds: &mut Vec<KindDef>, def: &Def) -> Result<(), AllocError>
    ensures { OnOk result (kinds.new.items ≡ kinds.old.items ++ map token_kind (token_in def.now)) }
{
    if let Def::Token { name, expr } = def {
        let name = name.copy(alloc)?;
        let expr = expr.copy(alloc)?;
        kinds.push(KindDef::Token { name, expr })?;
    }
    Ok(())
}

/// Adds the kinds of the token definitions.
fn add_tokens(
    alloc: Global,
    kinds: &mut Vec<KindDef>,
    defs: &[ExpandedDef<'_>],
) -> Result<(), AllocError>
    ensures { OnOk result
        (kinds.new.items ≡ kinds.old.items ++ map token_kind (flat_map token_in defs.now)) }
{
    for def in defs {
        add_token(alloc, kinds, def.def())?;
    }
    Ok(())
}

/// The predefined kind as a kind of token.
fn predefined_kind(alloc: Global, kind: Predefined) -> Result<KindDef, AllocError>
    ensures { IfOk result (λ made. made ≡ token_kind (predefined_token kind)) }
{
    let name = Name::of(Vec::from_slice(alloc, kind.name().as_bytes())?);
    let expr = kind.expr(alloc)?;
    Ok(KindDef::Token { name, expr })
}

/// Adds the predefined kinds.
fn add_predefined(
    alloc: Global,
    kinds: &mut Vec<KindDef>,
    active: &[Predefined],
) -> Result<(), AllocError>
    ensures { OnOk result (kinds.new.items
        ≡ kinds.old.items ++ map token_kind (map predefined_token active.now)) }
{
    for kind in active {
        kinds.push(predefined_kind(alloc, *kind)?)?;
    }
    Ok(())
}

/// The kinds of the words, the token definitions and the predefined kinds that are active.
fn kinds_of(
    alloc: Global,
    words: Vec<Name>,
    defs: &[ExpandedDef<'_>],
    active: &[Predefined],
) -> Result<Vec<KindDef>, AllocError>
    requires { map predefined_token active.now ≡ active_kinds defs.now }
    ensures { IfOk result (λ kinds. kinds.items ≡ kinds_by words.items (tokens_of defs.now)) }
{
    let mut kinds = word_kinds(alloc, words)?;
    add_tokens(alloc, &mut kinds, defs)?;
    add_predefined(alloc, &mut kinds, active)?;
    Ok(kinds)
}

/// The words that begin line comments.
fn line_comments(alloc: Global, defs: &[ExpandedDef<'_>]) -> Result<Vec<Name>, AllocError>
    ensures { IfOk result (λ comments. comments.items ≡ flat_map line_comment_in defs.now) }
{
    let mut comments = Vec::new(alloc);
    for def in defs {
        add_line_comment(alloc, &mut comments, def.def())?;
    }
    Ok(comments)
}

/// Adds the word that begins the line comments of the definition, if it is one of these.
fn add_line_comment(alloc: Global, comments: &mut Vec<Name>, def: &Def) -> Result<(), AllocError>
    ensures { OnOk result (comments.new.items ≡ comments.old.items ++ line_comment_in def.now) }
{
    if let Def::LineComment(opening) = def {
        comments.push(opening.copy(alloc)?)?;
    }
    Ok(())
}

/// The words that begin and end block comments.
fn block_comments(alloc: Global, defs: &[ExpandedDef<'_>]) -> Result<Vec<(Name, Name)>, AllocError>
    ensures { IfOk result (λ comments. comments.items ≡ flat_map block_comment_in defs.now) }
{
    let mut comments = Vec::new(alloc);
    for def in defs {
        add_block_comment(alloc, &mut comments, def.def())?;
    }
    Ok(comments)
}

/// Adds the words that begin and end the block comments of the definition, if it is one of these.
fn add_block_comment(
    alloc: Global,
    comments: &mut Vec<(Name, Name)>,
    def: &Def,
) -> Result<(), AllocError>
    ensures { OnOk result (comments.new.items ≡ comments.old.items ++ block_comment_in def.now) }
{
    if let Def::BlockComment(opening, closing) = def {
        let opening = opening.copy(alloc)?;
        let closing = closing.copy(alloc)?;
        comments.push((opening, closing))?;
    }
    Ok(())
}

/// The lexicon of the words and of the definitions, of whose predefined kinds these are active.
pub(crate) fn lexicon_of(
    alloc: Global,
    words: Vec<Name>,
    defs: &[ExpandedDef<'_>],
    active: &[Predefined],
) -> Result<LexiconParts, AllocError>
    requires { map predefined_token active.now ≡ active_kinds defs.now }
    ensures { IfOk result (λ parts. lexicon_of_parts parts ≡ lexicon_by words.items defs.now) }
{
    Ok(LexiconParts {
        line_comments: line_comments(alloc, defs)?,
        block_comments: block_comments(alloc, defs)?,
        kinds: kinds_of(alloc, words, defs, active)?,
    })
}
