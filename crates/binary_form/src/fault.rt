//! What keeps a grammar from having a binary form.

/// Why a grammar has no binary form.
#[derive(Debug, Drop)]
pub enum BinaryFault {
    /// Memory ran out. It comes at no grammar of more than 2,048 symbols.
    Memory,
    /// The grammar has more than 2,048 symbols: so many.
    TooManySymbols { count: u32 },
}
