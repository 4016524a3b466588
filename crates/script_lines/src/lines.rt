//! A record's line, appended to a buffer. `AllocError` where the buffer could not grow: what it held before stands, and behind it
//! there may be a part of the line.

ghost use Rattle.std.specs.Prelude.{◌≡◌, ◌++◌, [], OnOk, codes, decimal, if◌then◌else◌, string_bytes};
ghost use Rattle.script_lines.specs.Lines as lines_of;

use crate::counts::counts_in;
use graph_types::Outcome;
use itoa::Buffer;
use std::alloc::AllocError;
use stream_store::{Collected, Stat};

/// Appends the line of a batch that made this version: how many of its operations had each outcome, and how many edges its
/// expiries removed, where it has any.
pub fn commit_line(lines: &mut String, version: u64, outcomes: &[Outcome]) -> Result<(), AllocError>
    ensures { OnOk result (string_bytes lines.new ≡ string_bytes lines.old ++ lines_of.commit_line version outcomes.now) }
{
    let counts = counts_in(outcomes);
    number_part(lines, "commit v=", version)?;
    count_part(lines, " ins=", " ins=0", counts.inserted)?;
    count_part(lines, " upd=", " upd=0", counts.updated)?;
    count_part(lines, " rem=", " rem=0", counts.removed)?;
    count_part(lines, " abs=", " abs=0", counts.absent)?;
    count_part(lines, " ovf=", " ovf=0", counts.overflow)?;
    expired_part(lines, counts.has_expiry, counts.expired)?;
    line_feed(lines)
}

fn line_feed(lines: &mut String) -> Result<(), AllocError>
    ensures { OnOk result (string_bytes lines.new ≡ string_bytes lines.old ++ codes "\n") }
{
    lines.push('\n')
}

/// Appends a label and a number. Most batches are small, and a line by `write!` would take longer than their work.
fn number_part(lines: &mut String, label: &str, number: u64) -> Result<(), AllocError>
    ensures { OnOk result (string_bytes lines.new ≡ string_bytes lines.old ++ (label.now ++ decimal number)) }
{
    let mut digits = Buffer::new();
    lines.push_str(label)?;
    lines.push_str(digits.format(number))
}

/// Appends a label and a count. Most counts of a small batch are 0, whose text is there as a whole.
fn count_part(lines: &mut String, label: &str, none: &str, count: usize) -> Result<(), AllocError>
    requires { none.now ≡ label.now ++ decimal 0 }
    ensures { OnOk result (string_bytes lines.new ≡ string_bytes lines.old ++ (label.now ++ decimal count)) }
{
    if count == 0 {
        return lines.push_str(none);
    }
    number_part(lines, label, count as u64)
}

/// Appends how many edges expiries removed, where an operation was one.
fn expired_part(lines: &mut String, has_expiry: bool, expired: u128) -> Result<(), AllocError>
    ensures { OnOk result (string_bytes lines.new ≡ string_bytes lines.old
        ++ (if has_expiry then codes " exp=" ++ decimal expired else [])) }
{
    if !has_expiry {
        return Ok(());
    }
    write!(lines, " exp={expired}")
}

/// Appends the line of a slot that holds this version from now on.
pub fn open_line(lines: &mut String, slot: u8, version: u64) -> Result<(), AllocError>
    ensures { OnOk result (string_bytes lines.new ≡ string_bytes lines.old ++ lines_of.open_line slot version) }
{
    write!(lines, "open {slot} v={version}\n")
}

/// Appends the line of a slot that was released.
pub fn close_line(lines: &mut String, slot: u8) -> Result<(), AllocError>
    ensures { OnOk result (string_bytes lines.new ≡ string_bytes lines.old ++ lines_of.close_line slot) }
{
    write!(lines, "close {slot}\n")
}

/// Appends the line of a collection.
pub fn collect_line(lines: &mut String, collected: Collected) -> Result<(), AllocError>
    ensures { OnOk result (string_bytes lines.new ≡ string_bytes lines.old
        ++ lines_of.collect_line collected.floor collected.recycled collected.retired) }
{
    let floor = collected.floor;
    let recycled = collected.recycled;
    let retired = collected.retired;
    write!(
        lines,
        "collect floor={floor} recycled={recycled} retired={retired}\n"
    )
}

/// Appends the line of the store's numbers.
pub fn stat_line(lines: &mut String, stat: Stat) -> Result<(), AllocError>
    ensures { OnOk result (string_bytes lines.new ≡ string_bytes lines.old
        ++ lines_of.stat_line stat.number stat.names stat.edges stat.free stat.retired stat.used) }
{
    let number = stat.number;
    let names = stat.names;
    let edges = stat.edges;
    let free = stat.free;
    let retired = stat.retired;
    let used = stat.used;
    write!(
        lines,
        "stat v={number} names={names} edges={edges} free={free} retired={retired} used={used}\n"
    )
}

/// Appends the line of a store that was opened anew, by its numbers.
pub fn rebase_line(lines: &mut String, stat: Stat) -> Result<(), AllocError>
    ensures { OnOk result (string_bytes lines.new ≡ string_bytes lines.old
        ++ lines_of.rebase_line stat.number stat.names stat.edges stat.used) }
{
    let number = stat.number;
    let names = stat.names;
    let edges = stat.edges;
    let used = stat.used;
    write!(
        lines,
        "rebase v={number} names={names} edges={edges} used={used}\n"
    )
}

/// Appends the line of one edge: its weight, first and recent time; and of none.
pub(crate) fn edge_line(
    lines: &mut String,
    slot: u8,
    shown: Option<(i64, u64, u64)>,
) -> Result<(), AllocError>
    ensures { OnOk result (string_bytes lines.new ≡ string_bytes lines.old ++ lines_of.edge_line slot shown) }
{
    match shown {
        None => write!(lines, "edge {slot} none\n"),
        Some((weight, first, recent)) => write!(lines, "edge {slot} {weight} {first} {recent}\n"),
    }
}
