//! A desk with one owner, who holds versions by their numbers: what stands under the store as C and Python have it.
//!
//! [`OwnedDesk`] is a [`Desk`](desk::Desk) with a board of pins; its batches have the same two steps, by [`OwnedDesk::begin`] and
//! [`OwnedReady`].
//!
//! The store is STINGER's (Ediger, McColl, Riedy, Bader; IEEE HPEC 2012) with held versions as Aspen has them (Dhulipala,
//! Blelloch, Shun; PLDI 2019).
#![tactic(auto)]

mod applying;
mod errors;
mod kept;
mod laws;
mod opening;
mod owned;
mod owned_ready;
mod pairs;
mod seats;
mod touched;

pub use errors::{HoldError, PairError, ReleaseError};
pub use laws::law_owned_desk;
pub use owned::{Held, Hold, OwnedDesk};
pub use owned_ready::OwnedReady;
