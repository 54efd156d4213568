//! The line that tells the tokens of a span: how many they are, and what each is called with its
//! bytes as they are printed.
ghost use Rattle.std.specs.Prelude.{◌≡◌, ◌<◌, ◌≤◌, ◌∷◌, ◌++◌, length, codes, slice_get, Some};
ghost use Rattle.std.specs.Prelude.{slice_range, OnOk, IfOk, IsUtf8, string_bytes, encode_utf8};
ghost use Rattle.std.specs.Char.{digit_char};
ghost use Rattle.spec_text.specs.Escapes.{printed, hexadecimal};
ghost use Rattle.spec_lexing.specs.declared.token.Token.{Token};
ghost use Rattle.spec_session.specs.TokenAnswers.{token_name, token_text, tokens_text, tokens_line};

use spec_lexing::KindDef;
use std::alloc::{AllocError, Global};
use text_store::Text;

/// The hexadecimal digit of the number.
fn hexadecimal_digit(number: u8) -> char
    requires { number < 16 }
    ensures digit { result ≡ digit_char number }
    ensures ascii { result < 128 }
{
    match char::from_digit(u32::from(number), 16) {
        Some(digit) => digit,
        None => unreachable!(),
    }
}

/// Adds the control byte by its number.
fn push_control(line: &mut String, byte: u8) -> Result<(), AllocError>
    ensures { OnOk result (string_bytes line.new
        ≡ string_bytes line.old ++ (codes "\\x" ++ hexadecimal byte)) }
{
    line.push_str("\\x")?;
    line.push(hexadecimal_digit(byte / 16))?;
    line.push(hexadecimal_digit(byte % 16))
}

/// Adds the character as it is printed.
fn push_character(line: &mut String, character: char) -> Result<(), AllocError>
    ensures { OnOk result (string_bytes line.new
        ≡ string_bytes line.old ++ printed (encode_utf8 character)) }
{
    if character == '\\' {
        return line.push_str("\\\\");
    }
    if character.is_ascii_control() {
        return push_control(line, character as u32 as u8);
    }
    line.push(character)
}

/// Adds the text as it is printed.
fn push_printed(line: &mut String, text: &str) -> Result<(), AllocError>
    ensures { OnOk result (string_bytes line.new ≡ string_bytes line.old ++ printed text.now) }
{
    for character in text.chars() {
        push_character(line, character)?;
    }
    Ok(())
}

/// What a token of the kind of this number is called, or a stray one.
fn name_of(kinds: &[KindDef], kind: Option<u16>) -> &str
    ensures { result.now ≡ token_name kinds.now kind }
{
    let Some(number) = kind else {
        return "stray";
    };
    match kinds.get(number as usize) {
        Some(KindDef::Word(_)) => "word",
        Some(KindDef::Token { name, .. }) => name.as_str(),
        None => "",
    }
}

/// Adds a space and the token of this place.
fn push_token(
    alloc: Global,
    line: &mut String,
    kinds: &[KindDef],
    text: &Text,
    place: u32,
) -> Result<(), AllocError>
    requires { place < length text.now.tokens }
    ensures { (token : Token) → slice_get text.now.tokens place ≡ Some token
        → OnOk result (string_bytes line.new
        ≡ string_bytes line.old ++ (32 ∷ token_text kinds.now text.now.bytes token)) }
{
    let bytes = text.token_text(alloc, place)?;
    line.push(' ')?;
    line.push_str(name_of(kinds, text.token_kind(place)))?;
    line.push(':')?;
    push_printed(line, bytes.as_str())
}

/// Adds the tokens `first..end`, each behind a space.
fn push_tokens(
    alloc: Global,
    line: &mut String,
    kinds: &[KindDef],
    text: &Text,
    first: u32,
    end: u32,
) -> Result<(), AllocError>
    requires order { first ≤ end }
    requires within { end ≤ length text.now.tokens }
    ensures { OnOk result (string_bytes line.new ≡ string_bytes line.old
        ++ tokens_text kinds.now text.now.bytes (slice_range text.now.tokens first end)) }
{
    for place in first..end {
        push_token(alloc, line, kinds, text, place)?;
    }
    Ok(())
}

/// The line that tells the tokens `first..end` of the text.
pub(crate) fn tokens_line(
    alloc: Global,
    kinds: &[KindDef],
    text: &Text,
    first: u32,
    end: u32,
) -> Result<String, AllocError>
    requires order { first ≤ end }
    requires within { end ≤ length text.now.tokens }
    ensures { IfOk result (λ line. string_bytes line
        ≡ tokens_line kinds.now text.now.bytes (slice_range text.now.tokens first end)) }
{
    let count = end - first;
    let mut line = format!(in alloc; "tokens {count}")?;
    push_tokens(alloc, &mut line, kinds, text, first, end)?;
    line.push('\n')?;
    Ok(line)
}
