//! A counter of steps that is handed down through calls, so that their contracts can bound what
//! they count.
#![tactic(auto)]

mod steps;

pub use steps::Steps;
