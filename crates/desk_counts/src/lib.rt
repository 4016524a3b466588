//! How many of a batch's operations had each outcome, as numbers side by side.
#![tactic(auto)]

mod counts;

pub use counts::Counts;
