//! Names and words of a grammar. Each is UTF-8, since automata over bytes rest on it.
ghost use Rattle.std.specs.Prelude.{◌≡◌, IsUtf8, IfOk};

use std::alloc::{AllocError, Global};
use std::marker::Model;

/// A name or a word, seen as its list of bytes, which are UTF-8.
#[derive(Debug, Drop)]
pub struct Name {
    bytes: Vec<u8>,
}

impl Model for Name {
    ghost use Rattle.std.specs.Prelude.{List, ℕ, IsUtf8};

    ghost Value = { List ℕ };

    ghost view = { λ n. n.bytes.items };

    ghost invariant = { λ n. ∥ IsUtf8 n.bytes.items ∥₁ };
}

impl Name {
    /// The name of these bytes. It takes no memory: the vector is kept.
    pub fn of(bytes: Vec<u8>) -> Name
        requires { IsUtf8 bytes.items }
        ensures { result ≡ bytes.items }
    {
        Name { bytes }
    }

    /// The bytes of the name.
    pub fn as_slice(&self) -> &[u8]
        ensures bytes { result.now ≡ self.now }
        ensures utf8 { ∥ IsUtf8 self.now ∥₁ }
    {
        self.bytes.as_slice()
    }

    /// The name as text.
    pub fn as_str(&self) -> &str
        ensures { result.now ≡ self.now }
    {
        match str::from_utf8(self.as_slice()) {
            Ok(text) => text,
            Err(_) => unreachable!(),
        }
    }

    /// The name of the same bytes, which are copied.
    pub fn copy(&self, alloc: Global) -> Result<Name, AllocError>
        ensures { IfOk result (λ copy. copy ≡ self.now) }
    {
        let bytes = Vec::from_slice(alloc, self.as_slice())?;
        Ok(Name::of(bytes))
    }
}
