//! Texts that are opened and edited, with tokens by hand. Nothing stands on this.
#![tactic(auto)]

#[cfg(test)]
mod tests;
