//! Sparse matrices of cells in which equal rows are kept once.
#![tactic(auto)]

mod cells;
mod entries;
mod images;
mod loading;
mod mat;
mod meeting;
mod merging;
mod pairs;
mod products;
mod room;

pub use mat::{Cut, Mat, gather, product, union};
