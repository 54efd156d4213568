//! Small sessions by hand, which the definitions of sessions give.
#![tactic(auto)]

mod laws;

pub use laws::{small_sessions, small_token_texts};
