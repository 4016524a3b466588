//! Handles: what a program in C holds of the store.
#![tactic(auto)]

mod handle;
mod held;
mod loose;

pub use handle::{Handle, Unseen, law_handle_is_sent};
pub use held::Held;
