//! The tokens of a grammar file, each by longest match from behind the one before it.
ghost use Rattle.std.specs.Prelude.{◌≡◌, ◌≤◌, ◌<◌, ◌⊎◌, ℕ, [], ◌++◌, length, true, false, cond};
ghost use Rattle.std.specs.Prelude.{Some, None, IfOk, IfSome, MatchOption, encode_utf8};
ghost use Rattle.std.specs.Char.{IsScalar};
ghost use Rattle.std.specs.List.{prefix_len};
ghost use Rattle.std.specs.Option.{option_map};
ghost use Rattle.spec_text.specs.Bytes.{is_name_byte};
ghost use Rattle.spec_lbnf.specs.FileTokens.{FirstIs, escaped, longer_by};
ghost use Rattle.spec_text.specs.Bytes.{is_letter, is_digit};
ghost use Rattle.spec_lbnf.specs.FileTokens.{IsScan};
ghost use Rattle.lbnf_readers.specs.Scanning.{behind_line, behind_closing, behind_white, behind_space};
ghost use Rattle.lbnf_readers.specs.Scanning.{is_escape, string_at, character_at, identifier_at};
ghost use Rattle.lbnf_readers.specs.Scanning.{number_token_at, byte_sign, has_more, sign_token_at};
ghost use Rattle.lbnf_readers.specs.Scanning.{file_token_at, SkipsTo};
ghost use Rattle.lbnf_text.specs.LiteralParts.{IsPartOf, IsScalarPart, LeavesFewer};

use spec_lbnf::{FileToken, PlacedToken, Sign};
use spec_text::{MAX_IDENTIFIER, Name, is_white};
use std::alloc::{AllocError, Global};

/// The most digits of a number.
const MAX_DIGITS: usize = 4;

/// What opens a block comment.
const OPENING: &str = "{-";

/// What closes a block comment.
const CLOSING: &str = "-}";

/// The tokens of a file, and the offset up to which they reach: the end of the file, or the first
/// byte at which no token begins.
#[derive(Debug, Drop)]
pub(crate) struct Scan {
    pub(crate) tokens: Vec<PlacedToken>,
    pub(crate) stop: u32,
}

/// What comes next in a string or a character, and what is behind it.
#[derive(Clone, Copy)]
enum Part<'a> {
    /// A scalar, as it is or by its escape.
    Scalar(char, &'a str),
    /// The closing quote.
    Close(&'a str),
    /// Nothing that may stand there.
    Broken,
}

/// What is left of the text where its first line ends.
fn behind_line(text: &str) -> &str
    ensures { result.now ≡ behind_line text.now }
{
    match text.find('\n') {
        Some(end) => &text[end..],
        None => "",
    }
}

/// What is behind the first closing text of a block comment.
fn behind_closing(text: &str) -> Option<&str>
    ensures { option_map (λ x. x.now) result ≡ behind_closing text.now }
{
    let (_block, rest) = text.split_once(CLOSING)?;
    Some(rest)
}

/// What is behind the white byte at the front.
fn behind_white(text: &str) -> Option<&str>
    ensures { option_map (λ x. x.now) result ≡ behind_white text.now }
{
    match text.as_bytes() {
        [] => None,
        [byte, ..] => {
            if is_white(*byte) {
                Some(&text[1..])
            } else {
                None
            }
        }
    }
}

/// What is behind the white byte or the comment at the front.
#[tactic(auto, unfolding(lbnf_readers::specs::Scanning::behind_space))]
fn behind_space(text: &str) -> Option<&str>
    ensures { option_map (λ x. x.now) result ≡ behind_space text.now }
{
    if let Some(line) = text.strip_prefix("--") {
        return Some(behind_line(line));
    }
    if let Some(comment) = text.strip_prefix(OPENING) {
        return behind_closing(comment);
    }
    behind_white(text)
}

/// The first scalar, and what is behind it.
fn split_first(text: &str) -> Option<(char, &str)>
    ensures split { MatchOption result (text.now ≡ [])
        (λ x. text.now ≡ encode_utf8 x.0 ++ x.1.now) }
    ensures scalar { IfSome result (λ x. IsScalar x.0) }
    ensures shorter { IfSome result (λ x. length x.1.now < length text.now) }
{
    let mut chars = text.chars();
    let first = chars.next()?;
    Some((first, chars.as_str()))
}

/// What an escape with this scalar behind its backslash stands for.
fn escaped(scalar: char) -> Option<char>
    ensures value { result ≡ cond (is_escape scalar) (Some (escaped scalar)) None }
    ensures scalar { IfSome result (λ x. IsScalar x) }
{
    match scalar {
        '"' | '\'' | '\\' => Some(scalar),
        'n' => Some('\n'),
        't' => Some('\t'),
        _ => None,
    }
}

/// The scalar that an escape stands for, behind its backslash.
fn escape(text: &str) -> Part<'_>
    ensures part { (quote : ℕ) → IsPartOf quote true text.now result }
    ensures scalar { IsScalarPart result }
    ensures shorter { LeavesFewer text.now result }
{
    let Some((first, rest)) = split_first(text) else {
        return Part::Broken;
    };
    match escaped(first) {
        Some(scalar) => Part::Scalar(scalar, rest),
        None => Part::Broken,
    }
}

/// The next part of a literal with this quote.
fn next_part(text: &str, quote: char) -> Part<'_>
    requires { (quote ≡ 34) ⊎ (quote ≡ 39) }
    ensures part { IsPartOf quote false text.now result }
    ensures scalar { IsScalarPart result }
    ensures shorter { LeavesFewer text.now result }
{
    let Some((first, rest)) = split_first(text) else {
        return Part::Broken;
    };
    if first == quote {
        Part::Close(rest)
    } else if first == '\\' {
        escape(rest)
    } else if first == '\n' {
        Part::Broken
    } else {
        Part::Scalar(first, rest)
    }
}

/// The string whose opening quote stands before the text, and what is behind it. Its scalars are
/// gathered in the room, whose memory serves string after string, and then copied.
fn string<'a>(
    alloc: Global,
    room: &mut String,
    text: &'a str,
) -> Result<Option<(FileToken, &'a str)>, AllocError>
    ensures { IfOk result (λ read. option_map (λ x. (x.0, x.1.now)) read ≡ string_at text.now) }
{
    room.clear();
    let mut rest = text;
    loop {
        match next_part(rest, '"') {
            Part::Scalar(scalar, behind) => {
                room.push(scalar)?;
                rest = behind;
            }
            Part::Close(behind) => {
                let name = Name::of(Vec::from_slice(alloc, room.as_bytes())?);
                return Ok(Some((FileToken::Text(name), behind)));
            }
            Part::Broken => return Ok(None),
        }
    }
}

/// The character whose opening quote stands before the text, and what is behind it.
fn character(text: &str) -> Option<(FileToken, &str)>
    ensures { option_map (λ x. (x.0, x.1.now)) result ≡ character_at text.now }
{
    let Part::Scalar(scalar, rest) = next_part(text, '\'') else {
        return None;
    };
    let Part::Close(behind) = next_part(rest, '\'') else {
        return None;
    };
    Some((FileToken::Character(scalar), behind))
}

fn is_name_byte(byte: u8) -> bool
    ensures { result ≡ is_name_byte byte }
{
    byte.is_ascii_alphanumeric() || byte == b'_' || byte == b'\''
}

/// How many bytes of an identifier the bytes begin with.
fn name_len(bytes: &[u8]) -> usize
    ensures { result ≡ prefix_len is_name_byte bytes.now }
{
    bytes.iter().take_while(|byte| is_name_byte(**byte)).count()
}

/// The identifier at the front of a text that begins with a letter, and what is behind it.
#[tactic(auto, unfolding(lbnf_readers::specs::Scanning::identifier_at))]
fn identifier(alloc: Global, text: &str) -> Result<Option<(FileToken, &str)>, AllocError>
    requires { FirstIs is_letter text.now }
    ensures { IfOk result (λ read. option_map (λ x. (x.0, x.1.now)) read ≡ identifier_at text.now) }
{
    let (name, rest) = text.split_at(name_len(text.as_bytes()));
    if name.len() > MAX_IDENTIFIER {
        return Ok(None);
    }
    let owned = Name::of(Vec::from_slice(alloc, name.as_bytes())?);
    Ok(Some((FileToken::Identifier(owned), rest)))
}

/// How many digits the bytes begin with.
fn digit_count(bytes: &[u8]) -> usize
    ensures { result ≡ prefix_len is_digit bytes.now }
{
    bytes
        .iter()
        .take_while(|byte| byte.is_ascii_digit())
        .count()
}

/// The number at the front of a text that begins with a digit, and what is behind it.
#[tactic(auto, unfolding(lbnf_readers::specs::Scanning::number_token_at))]
fn number(text: &str) -> Option<(FileToken, &str)>
    requires { FirstIs is_digit text.now }
    ensures { option_map (λ x. (x.0, x.1.now)) result ≡ number_token_at text.now }
{
    let (digits, rest) = text.split_at(digit_count(text.as_bytes()));
    if digits.len() > MAX_DIGITS {
        return None;
    }
    let value = digits.parse().ok()?;
    Some((FileToken::Number(value), rest))
}

/// The sign of one byte.
fn byte_sign(byte: u8) -> Option<Sign>
    ensures { result ≡ byte_sign byte }
{
    match byte {
        b'.' => Some(Sign::Dot),
        b';' => Some(Sign::Semicolon),
        b':' => Some(Sign::Colon),
        b'[' => Some(Sign::OpenBracket),
        b']' => Some(Sign::CloseBracket),
        b'(' => Some(Sign::OpenParen),
        b')' => Some(Sign::CloseParen),
        b'{' => Some(Sign::OpenBrace),
        b'}' => Some(Sign::CloseBrace),
        b',' => Some(Sign::Comma),
        b'|' => Some(Sign::Bar),
        b'*' => Some(Sign::Star),
        b'+' => Some(Sign::Plus),
        b'?' => Some(Sign::Question),
        b'-' => Some(Sign::Minus),
        b'_' => Some(Sign::Underscore),
        _ => None,
    }
}

/// Whether a longer sign or a comment begins with the sign and goes on with the text.
fn goes_on(sign: Sign, text: &str) -> bool
    ensures { result ≡ has_more (longer_by sign) text.now }
{
    match sign {
        Sign::Colon => text.starts_with(":="),
        Sign::OpenBrace | Sign::Minus => text.starts_with("-"),
        _ => false,
    }
}

/// The longest sign at the front, and what is behind it.
#[tactic(auto, unfolding(lbnf_readers::specs::Scanning::sign_token_at))]
fn sign(text: &str) -> Option<(FileToken, &str)>
    ensures { option_map (λ x. (x.0, x.1.now)) result ≡ sign_token_at text.now }
{
    if let Some(rest) = text.strip_prefix("::=") {
        return Some((FileToken::Sign(Sign::Gives), rest));
    }
    let [byte, ..] = text.as_bytes() else {
        return None;
    };
    let sign = byte_sign(*byte)?;
    let rest = &text[1..];
    if goes_on(sign, rest) {
        None
    } else {
        Some((FileToken::Sign(sign), rest))
    }
}

/// The token at the front, by its first byte, and what is behind it. A string is gathered in the
/// room.
#[tactic(auto, unfolding(lbnf_readers::specs::Scanning::file_token_at))]
fn token<'a>(
    alloc: Global,
    room: &mut String,
    text: &'a str,
) -> Result<Option<(FileToken, &'a str)>, AllocError>
    ensures { IfOk result (λ read. option_map (λ x. (x.0, x.1.now)) read ≡ file_token_at text.now) }
{
    let [byte, ..] = text.as_bytes() else {
        return Ok(None);
    };
    if byte.is_ascii_alphabetic() {
        identifier(alloc, text)
    } else if byte.is_ascii_digit() {
        Ok(number(text))
    } else if *byte == b'"' {
        string(alloc, room, &text[1..])
    } else if *byte == b'\'' {
        Ok(character(&text[1..]))
    } else {
        Ok(sign(text))
    }
}

/// What is behind all white bytes and comments at the front.
fn skip_spaces(text: &str) -> &str
    ensures skips { SkipsTo text.now result.now }
    ensures free { behind_space result.now ≡ None }
{
    let mut rest = text;
    while let Some(behind) = behind_space(rest) {
        rest = behind;
    }
    rest
}

/// The tokens of a file, up to its end or the first byte at which no token begins. It looks at
/// each byte a few times, and the memory that it takes is in proportion to the tokens.
pub(crate) fn scan_file(alloc: Global, text: &str) -> Result<Scan, AllocError>
    requires { length text.now ≤ 65536 }
    ensures { IfOk result (λ scan. IsScan text.now scan.tokens.items scan.stop) }
{
    let mut room = String::new(alloc);
    let mut tokens = Vec::new(alloc);
    let mut rest = text;
    loop {
        let here = skip_spaces(rest);
        let offset = (text.len() - here.len()) as u32;
        let Some((token, behind)) = token(alloc, &mut room, here)? else {
            return Ok(Scan {
                tokens,
                stop: offset,
            });
        };
        tokens.push(PlacedToken { token, offset })?;
        rest = behind;
    }
}
