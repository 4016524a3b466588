//! Books of names: which number a vertex or a kind has.
//!
//! STINGER (Ediger, McColl, Riedy, Bader; IEEE HPEC 2012) maps external names to the numbers that its
//! edges bear. Here numbers count from 0 in order of first appearance and are never given up. A book is
//! the list of the names that appeared, and a name's number is its place in that list.
//!
//! Books share their texts and their index, so that a version's book costs no copy of a text (as Aspen's
//! snapshots share their trees: Dhulipala, Blelloch, Shun; PLDI 2019).
#![tactic(auto)]

mod book;
mod cache;
mod chunk;
mod index;
mod lending;
mod part;
mod piece;
mod same;
mod shelf;
mod tables;
mod text_group;
mod texts;

pub use book::{AddError, NameBook};
pub use lending::NameIter;
pub use same::is_same_name;
