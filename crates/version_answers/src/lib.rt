//! The answers to requests about a version: [`answer`] with names, [`answer_in_numbers`] with vertices by their numbers, and
//! [`name_reply`], which puts the names in. No answer changes the version or takes a lock.
#![tactic(auto)]

mod answers;
mod naming;
mod numbered;

pub use answers::answer;
pub use naming::name_reply;
pub use numbered::{NumberedReply, answer_in_numbers};
