//! Sorts of bytes.
ghost use Rattle.std.specs.Prelude.{◌≡◌};
ghost use Rattle.spec_text.specs.Bytes.{is_white};

/// Whether the byte is white: space, tab, LF, VT, FF or CR.
pub fn is_white(byte: u8) -> bool
    ensures { result ≡ is_white byte }
{
    byte == b' ' || (b'\t'..=b'\r').contains(&byte)
}
