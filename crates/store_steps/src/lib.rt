//! The journal of a running store, and the store's calls beside the machine of interleavings.
//!
//! A store's desk keeps a last version, a journal of the batches that it accepted and of its collections, and what each
//! block number is by now. This crate has no code: it defines what a desk is (`specs/Desks.antt`: its journal replays
//! legally to what it shows), when a desk and a board of pins show a world of the machine (`specs/Shown.antt`,
//! `specs/Boards.antt`), which of the machine's steps each call is (`specs/Steps.antt`), and what an accepted batch is
//! (`specs/Acceptances.antt`). Its laws say that these fit: an accepted batch, a collection, and each call of the board
//! leave what the machine's steps leave, so that desk and board together always show a world that a run of the machine
//! leaves ([`law_stays_reached`]). What is proved of all runs of the machine holds of them.
//!
//! The store is STINGER's (Ediger, McColl, Riedy, Bader; IEEE HPEC 2012) with held snapshots as Aspen has them
//! (Dhulipala, Blelloch, Shun; PLDI 2019).
#![tactic(auto)]

mod laws;

pub use laws::{
    law_accepted, law_board_steps, law_collected, law_dated, law_examples, law_held_versions,
    law_histories, law_journal, law_merges, law_opening_shown, law_stays_reached,
};
