//! A script of batches and requests to lines: [`serve`] reads comma-separated records and writes what
//! `specs/Texts.antt` says of them. [`run_script`] does the same over a feed and a [`Sink`], and its contract says why it ended.
//! What a record comes to is `script_commands`'s.
#![tactic(auto)]

mod laws;
mod output;
mod script;
mod sink;

pub use laws::{law_examples, law_one_text, law_session_lines, law_some_text};
pub use output::write_text;
pub use script::{ServeFault, Summary, run_script, serve};
pub use script_commands::{Response, Server, Stop};
pub use sink::{Sink, Unwritten};
pub use stream_store::{BadConfig, Config};
