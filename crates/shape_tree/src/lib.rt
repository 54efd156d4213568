//! Balanced trees of items, made of trees that are there and shared, and of nodes still to be made.
#![tactic(auto)]

mod building;
mod editing;
mod joining;
mod kept;
mod laws;
mod making;
mod opening;
mod replacing;
mod shape;
mod splitting;
mod turning;

pub use building::build;
pub use editing::edit;
pub use joining::join;
pub use kept::{Kept, Share};
pub use laws::{digits_are_least, nodes_of_low_trees_are_low};
pub use making::{Maker, realise};
pub use replacing::replace;
pub use shape::{FreshNode, Shape};
pub use splitting::{concat, split};
