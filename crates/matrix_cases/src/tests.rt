//! Matrices by hand: parts and products of small ones, products of many rows, and each entry of a
//! product of a hundred rows and columns.
mod samples;
mod small_matrices;
mod two_diagonals;
