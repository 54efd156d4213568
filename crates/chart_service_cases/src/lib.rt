//! Sessions with their exact replies, over sources and sinks that fail. Nothing stands on this.
#![tactic(auto)]

#[cfg(test)]
mod tests;
