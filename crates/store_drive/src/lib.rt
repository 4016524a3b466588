//! A check of the running store in threads: [`drive`] has one thread feed batches to a store while readers acquire versions of it,
//! ask them, and compare each answer with that of the slow functions of `graph_model`. The load that is fed, and what is asked,
//! stand in `specs/Load.antt`.
#![tactic(auto)]

mod contents;
mod driving;
mod feeder;
mod load;
mod pace;
mod readers;
mod reports;
mod sames;
mod tally;

pub use driving::{drive, drive_counted};
pub use reports::{DriveCounts, DriveFault, DriveReport, DriveWord};
