//! The patterns of token expressions, byte by byte. ASCII characters that a difference takes away
//! are left out of each set.
ghost use Rattle.std.specs.Prelude.{◌≡◌, ◌++◌, ◌∷◌, [], ℕ, ◌<◌, Bool, ◌||◌, not, chars, cond};
ghost use Rattle.std.specs.Prelude.{map, replicate, IfOk, OnOk};
ghost use Rattle.std.specs.Char.{encode_utf8};
ghost use Rattle.spec_lexing.specs.Expressions.{expression_of};
ghost use Rattle.spec_lexing.specs.Matching.{is_of_class};
ghost use Rattle.spec_automata.specs.ByteExpressions.{byte_in};
ghost use Rattle.spec_automata.specs.Encoding.{any_scalar as any_scalar_bytes, byte_between};
ghost use Rattle.spec_automata.specs.Encoding.{bytes_of, bytes_of_class, bytes_of_scalars};
ghost use Rattle.spec_automata.specs.Encoding.{bytes_that, has_character as has_ascii, is_ascii};
ghost use Rattle.spec_automata.specs.Encoding.{literal as literal_bytes, next_byte};
ghost use Rattle.spec_automata.specs.Encoding.{these_in_turn, without};
ghost use Rattle.lbnf_regex.specs.ByteSets.{flag_at, kept_of};
ghost use Rattle.lbnf_regex.specs.Patterns.{bytes_of_pattern};

use crate::byte_set::{ByteTest, is_flagged, is_in_class, one_byte, set_of, set_of_scalars};
use crate::pattern::Pattern;
use spec_lexing::{Class, Expr};
use spec_text::Name;
use sqlite_items::{Boxed, Items};
use std::alloc::{AllocError, Global};

/// The sets of the bytes in turn.
fn sets_in_turn(alloc: Global, bytes: &[u8], removed: &[bool]) -> Result<Pattern, AllocError>
    ensures { IfOk result (λ pattern. bytes_of_pattern pattern
        ≡ without (flag_at removed.now) (literal_bytes bytes.now)) }
{
    let mut parts = Items::new(alloc);
    for byte in bytes {
        let set = one_byte(alloc, *byte, removed)?;
        parts.push(Pattern::Bytes(set))?;
    }
    Ok(Pattern::Seq(parts))
}

/// The bytes in turn.
pub(crate) fn literal(alloc: Global, bytes: &[u8], removed: &[bool]) -> Result<Pattern, AllocError>
    ensures { IfOk result (λ pattern. bytes_of_pattern pattern
        ≡ without (flag_at removed.now) (literal_bytes bytes.now)) }
{
    if !removed.is_empty() {
        return sets_in_turn(alloc, bytes, removed);
    }
    let bytes = Items::from_slice(alloc, bytes)?;
    Ok(Pattern::Literal(bytes))
}

fn between(alloc: Global, least: u8, greatest: u8, removed: &[bool]) -> Result<Pattern, AllocError>
    ensures { IfOk result (λ pattern. bytes_of_pattern pattern
        ≡ without (flag_at removed.now) (byte_between least greatest)) }
{
    let set = set_of(alloc, ByteTest::Between { least, greatest }, removed)?;
    Ok(Pattern::Bytes(set))
}

/// A scalar of as many bytes as stand behind its first one, and that one.
fn wide_scalar(
    alloc: Global,
    least: u8,
    greatest: u8,
    behind: usize,
    removed: &[bool],
) -> Result<Pattern, AllocError>
    ensures { IfOk result (λ pattern. bytes_of_pattern pattern ≡ without (flag_at removed.now)
        (these_in_turn (byte_between least greatest ∷ replicate behind next_byte))) }
{
    let mut parts = Items::new(alloc);
    parts.push(between(alloc, least, greatest, removed)?)?;
    for i in 0..behind {
        let _ = i;
        parts.push(between(alloc, 128, 191, removed)?)?;
    }
    Ok(Pattern::Seq(parts))
}

fn any_scalar(alloc: Global, removed: &[bool]) -> Result<Pattern, AllocError>
    ensures { IfOk result (λ pattern. bytes_of_pattern pattern
        ≡ without (flag_at removed.now) any_scalar_bytes) }
{
    let mut sizes = Items::new(alloc);
    sizes.push(between(alloc, 0, 127, removed)?)?;
    sizes.push(wide_scalar(alloc, 194, 223, 1, removed)?)?;
    sizes.push(wide_scalar(alloc, 224, 239, 2, removed)?)?;
    sizes.push(wide_scalar(alloc, 240, 244, 3, removed)?)?;
    Ok(Pattern::Alt(sizes))
}

fn ascii_class(alloc: Global, class: Class, removed: &[bool]) -> Result<Pattern, AllocError>
    ensures { IfOk result (λ pattern. bytes_of_pattern pattern
        ≡ without (flag_at removed.now) (byte_in (bytes_that (is_of_class class)))) }
{
    let set = set_of(alloc, ByteTest::OfClass(class), removed)?;
    Ok(Pattern::Bytes(set))
}

fn class_pattern(alloc: Global, class: Class, removed: &[bool]) -> Result<Pattern, AllocError>
    ensures { IfOk result (λ pattern. bytes_of_pattern pattern
        ≡ without (flag_at removed.now) (bytes_of_class class)) }
{
    match class {
        Class::AnyChar => any_scalar(alloc, removed),
        Class::Digit => ascii_class(alloc, Class::Digit, removed),
        Class::Letter => ascii_class(alloc, Class::Letter, removed),
        Class::Upper => ascii_class(alloc, Class::Upper, removed),
        Class::Lower => ascii_class(alloc, Class::Lower, removed),
    }
}

fn scalar_pattern(alloc: Global, scalar: char, removed: &[bool]) -> Result<Pattern, AllocError>
    ensures { IfOk result (λ pattern. bytes_of_pattern pattern
        ≡ without (flag_at removed.now) (literal_bytes (encode_utf8 scalar))) }
{
    let mut buffer = [0u8; 4];
    literal(alloc, scalar.encode_utf8(&mut buffer).as_bytes(), removed)
}

fn push_wide(
    alloc: Global,
    scalar: char,
    removed: &[bool],
    parts: &mut Items<Pattern>,
) -> Result<(), AllocError>
    ensures { OnOk result (map bytes_of_pattern parts.new ≡ map bytes_of_pattern parts.old
        ++ cond (not (is_ascii scalar))
        (without (flag_at removed.now) (literal_bytes (encode_utf8 scalar)) ∷ []) []) }
{
    if scalar as u32 > 127 {
        parts.push(scalar_pattern(alloc, scalar, removed)?)?;
    }
    Ok(())
}

fn scalars_of(alloc: Global, name: &Name) -> Result<Vec<char>, AllocError>
    ensures { IfOk result (λ scalars. scalars.items ≡ chars name.now) }
{
    name.as_str().chars().collect(alloc)
}

fn scalars_pattern(alloc: Global, name: &Name, removed: &[bool]) -> Result<Pattern, AllocError>
    ensures { IfOk result (λ pattern. bytes_of_pattern pattern
        ≡ without (flag_at removed.now) (bytes_of_scalars (chars name.now))) }
{
    let scalars = scalars_of(alloc, name)?;
    let mut parts = Items::new(alloc);
    let ascii = set_of_scalars(alloc, scalars.as_slice(), removed)?;
    parts.push(Pattern::Bytes(ascii))?;
    for scalar in scalars.as_slice() {
        push_wide(alloc, *scalar, removed, &mut parts)?;
    }
    Ok(Pattern::Alt(parts))
}

/// Whether the ASCII character is one of the class that the expression is.
fn has_character(expr: &Expr, byte: u8) -> bool
    requires { byte < 128 }
    ensures { result ≡ has_ascii (expression_of expr.now) byte }
{
    match expr {
        Expr::Class(class) => is_in_class(*class, byte),
        Expr::Scalar(scalar) => *scalar as u32 == byte as u32,
        Expr::AnyOf(name) => name.as_slice().contains(&byte),
        Expr::Alt(parts) => {
            for part in parts.as_slice() {
                if has_character(part, byte) {
                    return true;
                }
            }
            false
        }
        Expr::Minus(left, right) => {
            has_character(left.get(), byte) && !has_character(right.get(), byte)
        }
        Expr::Eps => false,
        Expr::Word(_) => false,
        Expr::Seq(_) => false,
        Expr::Star(_) => false,
        Expr::Plus(_) => false,
        Expr::Opt(_) => false,
    }
}

/// Flags for the ASCII characters that are removed, or that the class has.
fn flags_with(alloc: Global, removed: &[bool], class: &Expr) -> Result<Items<bool>, AllocError>
    ensures { IfOk result (λ flags. (byte : ℕ) → byte < 128 → flag_at flags byte
        ≡ (flag_at removed.now byte || has_ascii (expression_of class.now) byte)) }
{
    let mut flags = Items::new(alloc);
    for byte in 0..128u8 {
        flags.push(is_flagged(removed, byte) || has_character(class, byte))?;
    }
    Ok(flags)
}

/// The patterns of the expressions, without the ASCII characters that are removed.
#[cycle(pattern_without)]
fn patterns_without(
    alloc: Global,
    exprs: &[Expr],
    removed: &[bool],
) -> Result<Items<Pattern>, AllocError>
    ensures { IfOk result (λ patterns. map bytes_of_pattern patterns
        ≡ map (λ expr. without (flag_at removed.now) (bytes_of (expression_of expr))) exprs.now) }
{
    let mut patterns = Items::new(alloc);
    for expr in exprs {
        patterns.push(pattern_without(alloc, expr, removed)?)?;
    }
    Ok(patterns)
}

/// The pattern of the expression, without the ASCII characters that are removed.
#[cycle(pattern_without)]
fn pattern_without(alloc: Global, expr: &Expr, removed: &[bool]) -> Result<Pattern, AllocError>
    ensures { IfOk result (λ pattern. bytes_of_pattern pattern
        ≡ without (flag_at removed.now) (bytes_of (expression_of expr.now))) }
{
    match expr {
        Expr::Eps => Ok(Pattern::Empty),
        Expr::Class(class) => class_pattern(alloc, *class, removed),
        Expr::Scalar(scalar) => scalar_pattern(alloc, *scalar, removed),
        Expr::AnyOf(name) => scalars_pattern(alloc, name, removed),
        Expr::Word(name) => literal(alloc, name.as_slice(), removed),
        Expr::Seq(parts) => Ok(Pattern::Seq(patterns_without(alloc, parts.as_slice(), removed)?)),
        Expr::Alt(parts) => Ok(Pattern::Alt(patterns_without(alloc, parts.as_slice(), removed)?)),
        Expr::Minus(left, right) => {
            let flags = flags_with(alloc, removed, right.get())?;
            pattern_without(alloc, left.get(), flags.as_slice())
        }
        Expr::Star(part) => {
            let pattern = pattern_without(alloc, part.get(), removed)?;
            Ok(Pattern::Star(Boxed::new(alloc, pattern)?))
        }
        Expr::Plus(part) => {
            let pattern = pattern_without(alloc, part.get(), removed)?;
            Ok(Pattern::Plus(Boxed::new(alloc, pattern)?))
        }
        Expr::Opt(part) => {
            let mut patterns = Items::new(alloc);
            patterns.push(Pattern::Empty)?;
            patterns.push(pattern_without(alloc, part.get(), removed)?)?;
            Ok(Pattern::Alt(patterns))
        }
    }
}

/// The pattern of the expression.
pub(crate) fn pattern_of(alloc: Global, expr: &Expr) -> Result<Pattern, AllocError>
    ensures { IfOk result (λ pattern. bytes_of_pattern pattern
        ≡ bytes_of (expression_of expr.now)) }
{
    pattern_without(alloc, expr, &[])
}
