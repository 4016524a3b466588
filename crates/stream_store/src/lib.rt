//! The running store: a desk that keeps the last version, the pool of blocks, the journal and the shelf's writer; and
//! seats, whose sessions hold a version; and the store that threads share, desk and board behind a lock each.
#![tactic(auto)]

mod applying;
mod boards;
mod config;
mod laws;
mod opened;
mod opening;
mod posting;
mod receipts;
mod seats;
mod store;

pub use config::{BadConfig, Config};
pub use desk::{ApplyError, Collected, JournalEntry, Stat};
pub use laws::law_equal_answers;
pub use opened::Opened;
pub use opening::{OpenError, open_parts, open_parts_from};
pub use posting::Desk;
pub use receipts::Receipt;
pub use seats::{PinnedSeat, Seat, Session};
pub use store::{Naming, Store};
