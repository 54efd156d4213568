//! Joins of charts: which matrix solves one, and closed charts, whose nodes have the entries of all
//! spans over one token (Valiant 1975).
#![tactic(auto)]

mod laws;

pub use laws::{
    nodes_stand_for_their_kinds, one_solution, parts_stand_for_their_kinds, some_solution,
};
