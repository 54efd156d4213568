//! Sets of symbol numbers behind one trait, as lists in rising order and as rows of bits.
#![tactic(auto)]

mod bits;
mod cell;
mod comparing;
mod laws;
mod list_cell;
mod merging;
mod places;
#[cfg(test)]
mod tests;
mod words;

pub use bits::{Bits, Width, Words};
pub use cell::{Cell, Room, union_into};
pub use laws::{entries_are_values, rising_lists_are_sets};
pub use list_cell::ListCell;
