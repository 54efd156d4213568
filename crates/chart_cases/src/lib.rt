//! Small grammars in binary form, and charts of small texts. Nothing stands on this.
#![tactic(auto)]

mod laws;

pub use laws::small_forms;

#[cfg(test)]
mod tests;
