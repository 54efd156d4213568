//! Numbers linked to numbers, and what a number reaches by its links.
#![tactic(auto)]

mod chains;
mod closure;
mod cycle;
mod derivation;
mod implications;
mod links;

pub use chains::heights;
pub use closure::{reached_from, reached_from_any};
pub use cycle::{least_on_cycle, reaches_itself};
pub use implications::{Implications, consequences};
pub use links::Links;

#[cfg(test)]
mod tests;
