//! The commands of a script, over a store: [`Server`] does one after another, and tells what each came to.
//! `specs/States.antt` says what that is, and which state it leaves.
#![tactic(auto)]

mod laws;
mod server;
mod slots;

pub use laws::law_collect_line;
pub use server::{Response, Server, Stop};
