//! Square matrices made of single entries, and matrices worked out by hand. Nothing stands on this.
#![tactic(auto)]

mod squares;

pub use squares::{single, with_entry};

#[cfg(test)]
mod tests;
