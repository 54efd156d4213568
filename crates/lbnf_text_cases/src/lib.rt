//! Grammar files that are read and that are refused, with answers by hand. Nothing stands on this.
#![tactic(auto)]

#[cfg(test)]
mod tests;
