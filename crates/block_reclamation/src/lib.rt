//! Reclamation of blocks: what a block is, which version each reader's seat may still need, and which retired blocks
//! a copy of these pins needs.
//!
//! A reader acquires a version in three steps: its seat is pinned at the present floor, the last
//! version is entered, and the pin is raised to that version's number. What a version gave up is
//! free for reuse once a copy of the pins doesn't need it: at latest when the floor has reached the
//! number of the version that gave it up. The protocol is the acquire and release of Aspen ("Low-Latency Graph Streaming using Compressed
//! Purely-Functional Trees"; Dhulipala, Blelloch, Shun; PLDI 2019), as this project fixes it:
//! numbers and pins in place of reference counts. Nothing here allocates.
#![tactic(auto)]

mod board;
mod copies;
mod laws;
mod status;

pub use board::{Board, SeatNo};
pub use copies::{Pin, PinCopy, SEATS};
pub use laws::{law_need, law_partition};
pub use status::BlockStatus;
