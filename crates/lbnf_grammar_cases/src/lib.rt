//! Grammars that are expanded and that are refused, with numbers by hand. Nothing stands on this.
#![tactic(auto)]

#[cfg(test)]
mod tests;
