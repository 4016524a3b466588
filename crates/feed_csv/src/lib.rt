//! Script records to commands: comma-separated records (RFC 4180) as the crate `csv` reads them, and each
//! record's command, or the word of its refusal. The rules stand in `specs/Commands.antt`, one for each command.
#![tactic(auto)]

mod command;
mod endless;
mod feed;
mod fields;
mod number;
mod phase;
mod row;
mod rules;

pub use command::{Command, FeedFault, FeedWord};
pub use endless::EndlessFeed;
pub use feed::Feed;
