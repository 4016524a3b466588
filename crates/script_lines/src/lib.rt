//! What a script prints: the words of refusals, and the lines of each record, appended to a buffer. `specs/Lines.antt` says
//! how each line is written.
#![tactic(auto)]

mod counts;
mod ends;
mod lines;
mod page;
mod tables;
mod words;

pub use lines::{close_line, collect_line, commit_line, open_line, rebase_line, stat_line};
pub use tables::reply_lines;
pub use words::Word;
