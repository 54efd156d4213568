//! The kinds of token of `examples/json.cf`, in their order: words, numbers and strings.
ghost use Rattle.std.specs.Prelude.{◌≡◌, ◌<◌, All, IfOk, IsUtf8, OnOk};
ghost use Rattle.std.specs.Str.{chars};
ghost use Rattle.spec_lexing.specs.Classes.{IsSound, IsSoundDef};
ghost use Rattle.spec_lexing.specs.Expressions.{expression_of};

use spec_lexing::{Class, Expr, KindDef};
use spec_text::Name;
use sqlite_items::{Boxed, Items};
use std::alloc::{AllocError, Global};

/// The words of the grammar.
const WORDS: [&str; 9] = ["{", "}", "[", "]", "true", "false", "null", ":", ","];

/// What stands in no string as it is: control characters, the quotation mark and the backslash.
const NEVER_PLAIN: &str = "\x00\x01\x02\x03\x04\x05\x06\x07\x08\t\n\x0b\x0c\r\x0e\x0f\
    \x10\x11\x12\x13\x14\x15\x16\x17\x18\x19\x1a\x1b\x1c\x1d\x1e\x1f\"\\";

fn name(alloc: Global, text: &str) -> Result<Name, AllocError>
    ensures bytes { IfOk result (λ name. name ≡ text.now) }
    ensures utf8 { IfOk result IsUtf8 }
{
    Ok(Name::of(Vec::from_slice(alloc, text.as_bytes())?))
}

/// One of the scalars of the text.
fn any_of(alloc: Global, text: &str) -> Result<Expr, AllocError>
    ensures { IfOk result (λ expr. IsSound (expression_of expr)) }
{
    Ok(Expr::AnyOf(name(alloc, text)?))
}

/// Digits, one or more.
fn digits(alloc: Global) -> Result<Expr, AllocError>
    ensures { IfOk result (λ expr. IsSound (expression_of expr)) }
{
    Ok(Expr::Plus(Boxed::new(alloc, Expr::Class(Class::Digit))?))
}

/// `'0' | (digit - '0') digit*`
fn whole(alloc: Global) -> Result<Expr, AllocError>
    ensures { IfOk result (λ expr. IsSound (expression_of expr)) }
{
    let digit = Boxed::new(alloc, Expr::Class(Class::Digit))?;
    let first = Expr::Minus(digit, Boxed::new(alloc, Expr::Scalar('0'))?);
    let more = Expr::Star(Boxed::new(alloc, Expr::Class(Class::Digit))?);
    let long = Expr::Seq(Items::from_vec(vec![in alloc; first, more]?));
    let parts = vec![in alloc; Expr::Scalar('0'), long]?;
    Ok(Expr::Alt(Items::from_vec(parts)))
}

/// `('.' digit+)?`
fn fraction(alloc: Global) -> Result<Expr, AllocError>
    ensures { IfOk result (λ expr. IsSound (expression_of expr)) }
{
    let parts = vec![in alloc; Expr::Scalar('.'), digits(alloc)?]?;
    let part = Expr::Seq(Items::from_vec(parts));
    Ok(Expr::Opt(Boxed::new(alloc, part)?))
}

/// `(["eE"] ["+-"]? digit+)?`
fn exponent(alloc: Global) -> Result<Expr, AllocError>
    ensures { IfOk result (λ expr. IsSound (expression_of expr)) }
{
    let letter = any_of(alloc, "eE")?;
    let sign = Expr::Opt(Boxed::new(alloc, any_of(alloc, "+-")?)?);
    let parts = vec![in alloc; letter, sign, digits(alloc)?]?;
    let part = Expr::Seq(Items::from_vec(parts));
    Ok(Expr::Opt(Boxed::new(alloc, part)?))
}

/// A number: a sign, a whole number, a fraction and an exponent, of which the second must be there.
fn number(alloc: Global) -> Result<Expr, AllocError>
    ensures { IfOk result (λ expr. IsSound (expression_of expr)) }
{
    let sign = Expr::Opt(Boxed::new(alloc, Expr::Scalar('-'))?);
    let whole = whole(alloc)?;
    let fraction = fraction(alloc)?;
    let exponent = exponent(alloc)?;
    let parts = vec![in alloc; sign, whole, fraction, exponent]?;
    Ok(Expr::Seq(Items::from_vec(parts)))
}

/// A hexadecimal digit.
fn hex_digit(alloc: Global) -> Result<Expr, AllocError>
    ensures { IfOk result (λ expr. IsSound (expression_of expr)) }
{
    let letter = any_of(alloc, "abcdefABCDEF")?;
    let parts = vec![in alloc; Expr::Class(Class::Digit), letter]?;
    Ok(Expr::Alt(Items::from_vec(parts)))
}

/// The letter u and four hexadecimal digits.
fn code(alloc: Global) -> Result<Expr, AllocError>
    ensures { IfOk result (λ expr. IsSound (expression_of expr)) }
{
    let a = hex_digit(alloc)?;
    let b = hex_digit(alloc)?;
    let c = hex_digit(alloc)?;
    let d = hex_digit(alloc)?;
    let parts = vec![in alloc; Expr::Scalar('u'), a, b, c, d]?;
    Ok(Expr::Seq(Items::from_vec(parts)))
}

/// A backslash, and one character or the code of one.
fn escape(alloc: Global) -> Result<Expr, AllocError>
    ensures { IfOk result (λ expr. IsSound (expression_of expr)) }
{
    let one = any_of(alloc, "\"\\/bfnrt")?;
    let behind = Expr::Alt(Items::from_vec(vec![in alloc; one, code(alloc)?]?));
    let parts = vec![in alloc; Expr::Scalar('\\'), behind]?;
    Ok(Expr::Seq(Items::from_vec(parts)))
}

/// Any scalar but those of the name.
fn without(alloc: Global, name: Name) -> Result<Expr, AllocError>
    requires utf8 { IsUtf8 name }
    requires ascii { All (λ c. c < 128) (chars name) }
    ensures { IfOk result (λ expr. IsSound (expression_of expr)) }
{
    let any = Boxed::new(alloc, Expr::Class(Class::AnyChar))?;
    let never = Boxed::new(alloc, Expr::AnyOf(name))?;
    Ok(Expr::Minus(any, never))
}

/// Any scalar that may stand in a string as it is.
fn plain(alloc: Global) -> Result<Expr, AllocError>
    ensures { IfOk result (λ expr. IsSound (expression_of expr)) }
{
    let never = name(alloc, NEVER_PLAIN)?;
    without(alloc, never)
}

/// A string: scalars and escapes between quotation marks.
fn string(alloc: Global) -> Result<Expr, AllocError>
    ensures { IfOk result (λ expr. IsSound (expression_of expr)) }
{
    let parts = vec![in alloc; plain(alloc)?, escape(alloc)?]?;
    let inside = Expr::Star(Boxed::new(alloc, Expr::Alt(Items::from_vec(parts)))?);
    let parts = vec![in alloc; Expr::Scalar('"'), inside, Expr::Scalar('"')]?;
    Ok(Expr::Seq(Items::from_vec(parts)))
}

/// A kind for each word.
fn word_kinds(alloc: Global) -> Result<Vec<KindDef>, AllocError>
    ensures sound { IfOk result (λ kinds. All IsSoundDef kinds.items) }
{
    let mut kinds = Vec::new(alloc);
    for word in WORDS {
        kinds.push(KindDef::Word(name(alloc, word)?))?;
    }
    Ok(kinds)
}

/// Adds the kind of tokens of this name that the expression matches.
fn add_token(
    alloc: Global,
    kinds: &mut Vec<KindDef>,
    text: &str,
    expr: Expr,
) -> Result<(), AllocError>
    requires sound { All IsSoundDef kinds.old.items }
    requires expr { IsSound (expression_of expr) }
    ensures { OnOk result (All IsSoundDef kinds.new.items) }
{
    let name = name(alloc, text)?;
    kinds.push(KindDef::Token { name, expr })?;
    Ok(())
}

/// The kinds: nine words, numbers and strings.
pub fn json_kinds(alloc: Global) -> Result<Vec<KindDef>, AllocError>
    ensures sound { IfOk result (λ kinds. All IsSoundDef kinds.items) }
{
    let mut kinds = word_kinds(alloc)?;
    let number = number(alloc)?;
    add_token(alloc, &mut kinds, "Number", number)?;
    let string = string(alloc)?;
    add_token(alloc, &mut kinds, "Text", string)?;
    Ok(kinds)
}
