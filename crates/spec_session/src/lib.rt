//! Sessions: the reply to each command of a script, and what a session writes. There is no other
//! code here than laws of these.
#![tactic(auto)]

mod checking;
mod existence;
mod laws;

pub use checking::one_check_session;
pub use existence::some_session;
pub use laws::{
    first_replies_come_first, one_list_of_replies, one_run, one_session, refusal_is_all,
    replies_come_first, replies_then_last_line, some_replies,
};
