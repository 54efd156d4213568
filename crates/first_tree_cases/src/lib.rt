//! First trees of small grammars and their printed texts, by hand. Nothing stands on this.
#![tactic(auto)]

#[cfg(test)]
mod tests;
