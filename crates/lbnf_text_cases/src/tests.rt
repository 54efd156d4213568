//! Grammar files that are read and that are refused, with answers by hand.
mod differences;
mod expressions;
mod faults;
mod files;
mod forms;
mod limits;
