//! The records of a batch: its operations as the text that `feed_csv` and `stinger run` read.
#![tactic(auto)]

mod laws;
mod records;

pub use laws::law_records_read_back;
pub use records::records_of;
