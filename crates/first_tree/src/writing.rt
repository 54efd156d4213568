//! Pieces of the printed text of a tree, each gathered or written whole.
ghost use Rattle.std.specs.Prelude.{◌≡◌, ◌<◌, ◌++◌, ◌∷◌, [], ℕ, List, OnOk, OnErr, IfOk, IsErrOf, IsTrue};
ghost use Rattle.std.specs.Char.{digit_char};
ghost use Rattle.std.specs.List.{cons_option};
ghost use Rattle.spec_text.specs.Escapes.{printed, printed_byte};
ghost use Rattle.spec_trees.specs.TreeText.{token_print};
ghost use Rattle.cyk_io.specs.Causes.{HasCause};
ghost use Rattle.cyk_io.specs.Streams.{GrowsByPrefix};
ghost use Rattle.cyk_io.specs.Gathering.{Passes};
ghost use Rattle.first_tree.specs.Wanted.{is_print, named_opening, opening, wanted_text};

use crate::wanted::{Wanted, list_opening};
use cyk_io::{Gathered, IoFault, Sink};
use spec_grammar::Label;
use spec_lexing::KindDef;
use std::alloc::{AllocError, Global};

/// Writes the first bytes and then the second.
fn write_both<K: Sink>(
    gathered: &mut Gathered,
    sink: &mut K,
    first: &[u8],
    second: &[u8],
) -> Result<(), IoFault>
    ensures ok { OnOk result (Passes (K.written sink.old) (K.written sink.new) gathered.old
        (first.now ++ second.now) gathered.new) }
    ensures err { OnErr result (GrowsByPrefix (K.written sink.old) (K.written sink.new)
        (gathered.old ++ (first.now ++ second.now))) }
    ensures cause { HasCause (K.faults sink.old) (K.faults sink.new)
        (IsErrOf result IoFault.Write) }
    ensures read { IsErrOf result IoFault.Read → ⊥ }
{
    gathered.add(sink, first)?;
    gathered.add(sink, second)
}

/// Writes what comes before the children of a node that has a name.
fn write_name<K: Sink>(
    gathered: &mut Gathered,
    sink: &mut K,
    name: &[u8],
    wanted: Wanted,
) -> Result<(), IoFault>
    ensures ok { OnOk result (Passes (K.written sink.old) (K.written sink.new) gathered.old
        (named_opening name.now wanted) gathered.new) }
    ensures err { OnErr result (GrowsByPrefix (K.written sink.old) (K.written sink.new)
        (gathered.old ++ named_opening name.now wanted)) }
    ensures cause { HasCause (K.faults sink.old) (K.faults sink.new)
        (IsErrOf result IoFault.Write) }
    ensures read { IsErrOf result IoFault.Read → ⊥ }
{
    match wanted {
        Wanted::Nothing => Ok(()),
        Wanted::Text => write_both(gathered, sink, "(".as_bytes(), name),
        Wanted::SpacedText => write_both(gathered, sink, " (".as_bytes(), name),
        Wanted::Elements => Ok(()),
    }
}

/// Writes what comes before the children of a node with this label.
pub(crate) fn write_opening<K: Sink>(
    gathered: &mut Gathered,
    sink: &mut K,
    label: &Label,
    wanted: Wanted,
) -> Result<(), IoFault>
    ensures ok { OnOk result (Passes (K.written sink.old) (K.written sink.new) gathered.old
        (opening label.now wanted) gathered.new) }
    ensures err { OnErr result (GrowsByPrefix (K.written sink.old) (K.written sink.new)
        (gathered.old ++ opening label.now wanted)) }
    ensures cause { HasCause (K.faults sink.old) (K.faults sink.new)
        (IsErrOf result IoFault.Write) }
    ensures read { IsErrOf result IoFault.Read → ⊥ }
{
    match label {
        Label::Named(name) => write_name(gathered, sink, name.as_slice(), wanted),
        Label::Wild => Ok(()),
        Label::Nil => gathered.add(sink, list_opening("", wanted).as_bytes()),
        Label::One => gathered.add(sink, list_opening(", ", wanted).as_bytes()),
        Label::Cons => gathered.add(sink, list_opening(", ", wanted).as_bytes()),
    }
}

/// Writes the byte, if there is one.
pub(crate) fn write_closing<K: Sink>(
    gathered: &mut Gathered,
    sink: &mut K,
    closing: Option<u8>,
) -> Result<(), IoFault>
    ensures ok { OnOk result (Passes (K.written sink.old) (K.written sink.new) gathered.old
        (cons_option closing []) gathered.new) }
    ensures err { OnErr result (GrowsByPrefix (K.written sink.old) (K.written sink.new)
        (gathered.old ++ cons_option closing [])) }
    ensures cause { HasCause (K.faults sink.old) (K.faults sink.new)
        (IsErrOf result IoFault.Write) }
    ensures read { IsErrOf result IoFault.Read → ⊥ }
{
    let Some(byte) = closing else {
        return Ok(());
    };
    gathered.add(sink, &[byte])
}

/// Whether the byte is printed as it is.
fn is_plain_byte(byte: u8) -> bool
    ensures { IsTrue result → printed_byte byte ≡ byte ∷ [] }
{
    byte != b'\\' && !byte.is_ascii_control()
}

/// Whether all of the bytes are printed as they are.
fn is_plain(bytes: &[u8]) -> bool
    ensures { IsTrue result → printed bytes.now ≡ bytes.now }
{
    for byte in bytes {
        if !is_plain_byte(*byte) {
            return false;
        }
    }
    true
}

/// The hexadecimal digit of the number.
fn hexadecimal_digit(number: u8) -> u8
    requires { number < 16 }
    ensures { result ≡ digit_char number }
{
    match char::from_digit(u32::from(number), 16) {
        Some(digit) => digit as u32 as u8,
        None => unreachable!(),
    }
}

/// Adds the byte as it is printed.
fn push_printed(bytes: &mut Vec<u8>, byte: u8) -> Result<(), AllocError>
    ensures { OnOk result (bytes.new.items ≡ bytes.old.items ++ printed_byte byte) }
{
    if byte == b'\\' {
        return bytes.extend_from_slice("\\\\".as_bytes());
    }
    if !byte.is_ascii_control() {
        bytes.push(byte)?;
        return Ok(());
    }
    bytes.extend_from_slice("\\x".as_bytes())?;
    bytes.push(hexadecimal_digit(byte / 16))?;
    bytes.push(hexadecimal_digit(byte % 16))?;
    Ok(())
}

/// The bytes as they are printed.
fn printed(alloc: Global, bytes: &[u8]) -> Result<Vec<u8>, AllocError>
    ensures { IfOk result (λ text. text.items ≡ printed bytes.now) }
{
    let mut text = Vec::new(alloc);
    for byte in bytes {
        push_printed(&mut text, *byte)?;
    }
    Ok(text)
}

/// Writes a colon and the bytes as they are printed. They are copied only where they are not
/// printed as they are.
fn write_printed<K: Sink>(
    alloc: Global,
    gathered: &mut Gathered,
    sink: &mut K,
    bytes: &[u8],
) -> Result<(), IoFault>
    ensures ok { OnOk result (Passes (K.written sink.old) (K.written sink.new) gathered.old
        (58 ∷ printed bytes.now) gathered.new) }
    ensures err { OnErr result (GrowsByPrefix (K.written sink.old) (K.written sink.new)
        (gathered.old ++ (58 ∷ printed bytes.now))) }
    ensures cause { HasCause (K.faults sink.old) (K.faults sink.new)
        (IsErrOf result IoFault.Write) }
    ensures read { IsErrOf result IoFault.Read → ⊥ }
{
    if is_plain(bytes) {
        return write_both(gathered, sink, ":".as_bytes(), bytes);
    }
    match printed(alloc, bytes) {
        Ok(text) => write_both(gathered, sink, ":".as_bytes(), text.as_slice()),
        Err(_) => Err(IoFault::Memory),
    }
}

/// Writes the name of a token's kind behind these bytes, and then the token's bytes.
fn write_token<K: Sink>(
    alloc: Global,
    gathered: &mut Gathered,
    sink: &mut K,
    lead: &[u8],
    name: &[u8],
    bytes: &[u8],
) -> Result<(), IoFault>
    ensures ok { OnOk result (Passes (K.written sink.old) (K.written sink.new) gathered.old
        ((lead.now ++ name.now) ++ (58 ∷ printed bytes.now)) gathered.new) }
    ensures err { OnErr result (GrowsByPrefix (K.written sink.old) (K.written sink.new)
        (gathered.old ++ ((lead.now ++ name.now) ++ (58 ∷ printed bytes.now)))) }
    ensures cause { HasCause (K.faults sink.old) (K.faults sink.new)
        (IsErrOf result IoFault.Write) }
    ensures read { IsErrOf result IoFault.Read → ⊥ }
{
    write_both(gathered, sink, lead, name)?;
    write_printed(alloc, gathered, sink, bytes)
}

/// Writes what is wanted of a token of the kind with these bytes.
pub(crate) fn write_leaf<K: Sink>(
    alloc: Global,
    gathered: &mut Gathered,
    sink: &mut K,
    kind: &KindDef,
    bytes: &[u8],
    wanted: Wanted,
) -> Result<(), IoFault>
    ensures ok { OnOk result (Passes (K.written sink.old) (K.written sink.new) gathered.old
        (wanted_text wanted (token_print kind.now bytes.now)) gathered.new) }
    ensures err { OnErr result (GrowsByPrefix (K.written sink.old) (K.written sink.new)
        (gathered.old ++ wanted_text wanted (token_print kind.now bytes.now))) }
    ensures cause { HasCause (K.faults sink.old) (K.faults sink.new)
        (IsErrOf result IoFault.Write) }
    ensures read { IsErrOf result IoFault.Read → ⊥ }
{
    match kind {
        KindDef::Word(_) => Ok(()),
        KindDef::Token { name, .. } => match wanted {
            Wanted::Nothing => Ok(()),
            Wanted::Text => write_token(alloc, gathered, sink, &[], name.as_slice(), bytes),
            Wanted::SpacedText => write_token(
                alloc,
                gathered,
                sink,
                " ".as_bytes(),
                name.as_slice(),
                bytes,
            ),
            Wanted::Elements => Ok(()),
        },
    }
}

/// Whether something is printed of tokens of the kind.
pub(crate) fn is_printed(kind: &KindDef) -> bool
    ensures { (bytes : List ℕ) → result ≡ is_print (token_print kind.now bytes) }
{
    match kind {
        KindDef::Word(_) => false,
        KindDef::Token { .. } => true,
    }
}
