//! How much of a comment's closing text has been read.
ghost use Rattle.std.specs.Prelude.{◌≡◌, ◌+◌, ◌<◌, ◌≤◌, ◌↔◌, ◌++◌, ◌∷◌, [], take, length, IsTrue};
ghost use Rattle.spec_automata.specs.Positions.{EndWith, IsBorder};

/// Whether so many bytes of the closing text end with so many of it and one byte more.
fn ends_with_front(closing: &[u8], size: usize, byte: u8, longer: usize) -> bool
    requires within { size < length closing.now }
    requires some { 0 < longer }
    requires order { longer ≤ size + 1 }
    ensures { IsTrue result ↔
        EndWith (take size closing.now ++ byte ∷ []) (take longer closing.now) }
{
    closing[longer - 1] == byte && closing[..longer - 1] == closing[size + 1 - longer..size]
}

/// How much of the closing text has been read behind so much of it and one byte more.
pub(crate) fn border(closing: &[u8], size: usize, byte: u8) -> usize
    requires { size < length closing.now }
    ensures { IsBorder closing.now (take size closing.now ++ byte ∷ []) result }
{
    for less in 0..size + 1 {
        let longer = size + 1 - less;
        if ends_with_front(closing, size, byte, longer) {
            return longer;
        }
    }
    0
}
