//! What a set of symbols can do. Contracts see it as its symbols in rising order.
ghost use Rattle.std.specs.Prelude.{◌≡◌, ℕ, ◌<◌, List, [], ◌↔◌, IsTrue, IfOk, OnOk, OnErr};
ghost use Rattle.std.specs.List.{Contains};
ghost use Rattle.cell_sets.specs.Cells.{IsRising, AddsSymbol, IsUnion, Meet, IsCommon, HaveSame, IsNextFrom};

use std::alloc::{AllocError, Global};

/// How many symbols a type of cell has room for.
pub trait Room {
    /// Each symbol in a cell is below it.
    const ROOM: u32;

    /// The same number, for contracts.
    ghost ROOM: { ℕ };
}

/// A set of symbols.
pub trait Cell: Room + Sized + Send + Sync + Drop {
    /// The symbols, in rising order.
    ghost symbols: { Self → List ℕ };

    /// A cell without symbols. It takes no memory.
    fn empty() -> Self
        ensures items { symbols result ≡ [] }
        ensures rising { IsRising (symbols result) };

    /// Whether the cell has no symbol.
    fn is_empty(&self) -> bool
        ensures items { IsTrue result ↔ (symbols self.now ≡ []) }
        ensures rising { IsRising (symbols self.now) };

    /// Whether the cell has the symbol.
    fn has(&self, symbol: u16) -> bool
        requires { symbol < Self.ROOM }
        ensures { IsTrue result ↔ Contains (symbols self.now) symbol };

    /// The least symbol of the cell that is not below this one. None exactly where there is none.
    fn next_from(&self, symbol: u16) -> Option<u16>
        ensures { IsNextFrom (symbols self.now) symbol result };

    /// Adds the symbol, and answers whether it was new. After an error the cell is as it was.
    fn insert(&mut self, alloc: Global, symbol: u16) -> Result<bool, AllocError>
        requires { symbol < Self.ROOM }
        ensures ok { OnOk result (AddsSymbol (symbols self.old) (symbols self.new) symbol) }
        ensures new { IfOk result (λ new.
            IsTrue new ↔ (Contains (symbols self.old) symbol → ⊥)) }
        ensures err { OnErr result (symbols self.new ≡ symbols self.old) }
        ensures rising { IsRising (symbols self.new) };

    /// A cell with the symbols of both.
    fn union(&self, alloc: Global, other: &Self) -> Result<Self, AllocError>
        ensures ok { IfOk result (λ both.
            IsUnion (symbols self.now) (symbols other.now) (symbols both)) }
        ensures rising { IfOk result (λ both. IsRising (symbols both)) };

    /// Whether some symbol is in both.
    fn meets(&self, other: &Self) -> bool
        ensures { IsTrue result ↔ Meet (symbols self.now) (symbols other.now) };

    /// A cell with the symbols that are in both.
    fn common(&self, alloc: Global, other: &Self) -> Result<Self, AllocError>
        ensures ok { IfOk result (λ common.
            IsCommon (symbols self.now) (symbols other.now) (symbols common)) }
        ensures rising { IfOk result (λ common. IsRising (symbols common)) };

    /// Whether both have the same symbols.
    fn same(&self, other: &Self) -> bool
        ensures { IsTrue result ↔ HaveSame (symbols self.now) (symbols other.now) };
}

/// Adds the symbols of another cell. After an error the cell is as it was.
pub fn union_into<C: Cell>(alloc: Global, cell: &mut C, other: &C) -> Result<(), AllocError>
    ensures ok { OnOk result
        (IsUnion (C.symbols cell.old) (C.symbols other.now) (C.symbols cell.new)) }
    ensures err { OnErr result (C.symbols cell.new ≡ C.symbols cell.old) }
    ensures rising { OnOk result (IsRising (C.symbols cell.new)) }
{
    *cell = cell.union(alloc, other)?;
    Ok(())
}
