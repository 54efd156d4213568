//! The patterns of all kinds of a lexicon, the least first.
ghost use Rattle.std.specs.Prelude.{◌≡◌, ◌++◌, map, IfOk, OnOk};
ghost use Rattle.spec_lexing.specs.Kinds.{block_comment, lex_kinds, line_comment};
ghost use Rattle.spec_lexing.specs.Kinds.{white as white_kind};
ghost use Rattle.spec_automata.specs.Encoding.{bytes_of_def, bytes_of_kind};
ghost use Rattle.spec_automata.specs.Encoding.{literal as literal_bytes};
ghost use Rattle.lbnf_regex.specs.Lexicons.{lexicon_with};
ghost use Rattle.lbnf_regex.specs.Patterns.{bytes_of_pattern};

use crate::byte_set::{ByteTest, set_of};
use crate::encoding::{literal, pattern_of};
use crate::pattern::Pattern;
use spec_lexing::KindDef;
use spec_text::Name;
use sqlite_items::{Boxed, Items};
use std::alloc::{AllocError, Global};

fn white(alloc: Global) -> Result<Pattern, AllocError>
    ensures { IfOk result (λ pattern. bytes_of_pattern pattern ≡ bytes_of_kind white_kind) }
{
    let set = set_of(alloc, ByteTest::White, &[])?;
    Ok(Pattern::Bytes(set))
}

fn word(alloc: Global, bytes: &[u8]) -> Result<Pattern, AllocError>
    ensures { IfOk result (λ pattern. bytes_of_pattern pattern ≡ literal_bytes bytes.now) }
{
    literal(alloc, bytes, &[])
}

fn line(alloc: Global, opening: &Name) -> Result<Pattern, AllocError>
    ensures { IfOk result (λ pattern.
        bytes_of_pattern pattern ≡ bytes_of_kind (line_comment opening.now)) }
{
    let set = set_of(alloc, ByteTest::OnLine, &[])?;
    let mut parts = Items::new(alloc);
    parts.push(word(alloc, opening.as_slice())?)?;
    parts.push(Pattern::Star(Boxed::new(alloc, Pattern::Bytes(set))?))?;
    Ok(Pattern::Seq(parts))
}

fn block(alloc: Global, opening: &Name, closing: &Name) -> Result<Pattern, AllocError>
    ensures { IfOk result (λ pattern.
        bytes_of_pattern pattern ≡ bytes_of_kind (block_comment opening.now closing.now)) }
{
    let closing = Items::from_slice(alloc, closing.as_slice())?;
    let mut parts = Items::new(alloc);
    parts.push(word(alloc, opening.as_slice())?)?;
    parts.push(Pattern::Until(closing))?;
    Ok(Pattern::Seq(parts))
}

fn definition(alloc: Global, kind: &KindDef) -> Result<Pattern, AllocError>
    ensures { IfOk result (λ pattern. bytes_of_pattern pattern ≡ bytes_of_def kind.now) }
{
    match kind {
        KindDef::Word(name) => word(alloc, name.as_slice()),
        KindDef::Token { name: _, expr } => pattern_of(alloc, expr),
    }
}

fn push_lines(
    alloc: Global,
    lines: &[Name],
    patterns: &mut Items<Pattern>,
) -> Result<(), AllocError>
    ensures { OnOk result (map bytes_of_pattern patterns.new ≡ map bytes_of_pattern patterns.old
        ++ map (λ opening. bytes_of_kind (line_comment opening)) lines.now) }
{
    for opening in lines {
        patterns.push(line(alloc, opening)?)?;
    }
    Ok(())
}

fn push_blocks(
    alloc: Global,
    blocks: &[(Name, Name)],
    patterns: &mut Items<Pattern>,
) -> Result<(), AllocError>
    ensures { OnOk result (map bytes_of_pattern patterns.new ≡ map bytes_of_pattern patterns.old
        ++ map (λ words. bytes_of_kind (block_comment words.0 words.1)) blocks.now) }
{
    for words in blocks {
        patterns.push(block(alloc, &words.0, &words.1)?)?;
    }
    Ok(())
}

fn push_kinds(
    alloc: Global,
    kinds: &[KindDef],
    patterns: &mut Items<Pattern>,
) -> Result<(), AllocError>
    ensures { OnOk result (map bytes_of_pattern patterns.new ≡ map bytes_of_pattern patterns.old
        ++ map bytes_of_def kinds.now) }
{
    for kind in kinds {
        patterns.push(definition(alloc, kind)?)?;
    }
    Ok(())
}

/// The patterns of white space, the comments and the kinds, in the order that decides between equal
/// lengths.
pub(crate) fn patterns_of(
    alloc: Global,
    lines: &[Name],
    blocks: &[(Name, Name)],
    kinds: &[KindDef],
) -> Result<Items<Pattern>, AllocError>
    ensures { IfOk result (λ patterns. map bytes_of_pattern patterns
        ≡ map bytes_of_kind (lex_kinds (lexicon_with lines.now blocks.now kinds.now))) }
{
    let mut patterns = Items::new(alloc);
    patterns.push(white(alloc)?)?;
    push_lines(alloc, lines, &mut patterns)?;
    push_blocks(alloc, blocks, &mut patterns)?;
    push_kinds(alloc, kinds, &mut patterns)?;
    Ok(patterns)
}
