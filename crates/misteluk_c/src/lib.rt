//! The store in a caller's process, for C: what `include/misteluk.h` declares.
//!
//! A handle is null until something is made in it. Each call tests all that it is given but for what C owes: that pointers lead to as
//! much memory as the lengths beside them say, and that what a call writes overlaps nothing else that it is given. Every refusal is
//! a code.
#![tactic(auto)]

mod appending;
mod batches;
mod codes;
mod column_opening;
mod desks;
mod diffs;
mod held;
mod inserting;
mod opening;
mod phases;
mod searching;
mod texts;
mod versions;
mod walking;
