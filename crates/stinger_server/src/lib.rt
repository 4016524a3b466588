//! The program over its arguments: [`stinger`] reads what they ask for, serves a script or tells a text, and answers the exit
//! status, as `specs/Program.antt` says. Its commands are [`serve`], a script of batches and requests to lines, and [`drive`], a
//! check of the running store in threads; both stand in crates below. [`ProgressReader`] passes on what another reader gives, and
//! meanwhile shows how far it has come.
#![tactic(auto)]

mod arguments;
mod command_line;
mod count;
mod laws;
mod line;
mod meter;
mod program;
mod reader;
mod texts;

pub use laws::{law_arguments, law_options};
pub use program::{refuse_arguments, serves, shows_progress, stinger};
pub use reader::ProgressReader;
pub use script_server::{BadConfig, Config, ServeFault, Summary, serve};
pub use store_drive::{DriveFault, DriveReport, drive};
