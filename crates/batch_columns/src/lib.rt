//! Batches from bytes and columns: operations whose names are bytes that nobody has looked at, and operations whose kinds and
//! vertices are numbers in dictionaries of names, as Apache Arrow lays out a column of texts.
#![tactic(auto)]

mod bytes;
mod columns;
mod operations;

pub use bytes::{push_add, push_expire, push_insert, push_remove};
pub use columns::{InsertError, insert_numbers, name_at};
pub use operations::{Operations, OperationsError, append_operations, are_alike};
