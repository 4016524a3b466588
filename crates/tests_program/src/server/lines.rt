// The lines of records by themselves, but for answers, which runs show: a call of each kind, and growths that are refused.

use super::checks::{check_so, check_text, tell_refused};
use feed_csv::FeedWord;
use graph_types::Outcome;
use script_lines::{
    Word, close_line, collect_line, commit_line, open_line, rebase_line, stat_line,
};
use std::alloc::AllocError;
use std::process::Abort;
use stream_store::{Collected, Stat};

// The scripts in `examples/` show the words of all other refusals.
#[test]
fn words_of_refused_growths_have_their_texts(rt: HostRuntime) {
    check_text(&rt, FeedWord::Memory.word(), "Memory");
    check_text(&rt, Word::Feed(FeedWord::Memory).text(), "Memory");
    check_text(&rt, Word::Start.text(), "Start");
}

// A line that stood, and behind it one of each kind that is no answer.
const EACH_LINE: &str = "close 3\ncommit v=65536 ins=1 upd=2 rem=1 abs=3 ovf=1\n\
     commit v=7 ins=1 upd=0 rem=0 abs=0 ovf=0 exp=42\ncommit v=8 ins=0 upd=0 rem=0 abs=0 ovf=0 exp=0\n\
     open 15 v=12\nclose 15\n\
     collect floor=3 recycled=40 retired=500\n\
     stat v=9 names=80 edges=700 free=6000 retired=50000 used=4\n\
     rebase v=9 names=80 edges=700 used=4\n";

// The lines of two batches with expiries.
fn append_expiries(lines: &mut String) -> Result<(), AllocError> {
    let outcomes = [
        Outcome::Expired(2),
        Outcome::Inserted,
        Outcome::Expired(0),
        Outcome::Expired(40),
    ];
    commit_line(lines, 7, outcomes.as_slice())?;
    commit_line(lines, 8, &outcomes[2..3])
}

// Appends the lines behind the first.
fn append_each(lines: &mut String) -> Result<(), AllocError> {
    let outcomes = [
        Outcome::Overflow,
        Outcome::Updated,
        Outcome::Removed,
        Outcome::Updated,
        Outcome::Absent,
        Outcome::Absent,
        Outcome::Absent,
        Outcome::Inserted,
    ];
    commit_line(lines, 65_536, outcomes.as_slice())?;
    append_expiries(lines)?;
    open_line(lines, 15, 12)?;
    close_line(lines, 15)?;
    let collected = Collected {
        floor: 3,
        recycled: 40,
        retired: 500,
    };
    collect_line(lines, collected)?;
    let stat = Stat {
        number: 9,
        names: 80,
        edges: 700,
        free: 6_000,
        retired: 50_000,
        used: 4,
    };
    stat_line(lines, stat)?;
    rebase_line(lines, stat)
}

// Whether lines were appended, which then are the text; where a growth was refused, those that stood before are still the first.
fn is_whole(
    rt: &impl Abort,
    appended: Result<(), AllocError>,
    lines: &str,
    before: &str,
    text: &str,
) -> bool {
    let is_appended = appended.is_ok();
    if is_appended {
        check_text(rt, lines, text);
    } else {
        check_so(rt, lines.starts_with(before), lines);
    }
    is_appended
}

// Whether a line for each record was appended behind one that stood; else a growth was refused.
fn appends_each(rt: &(impl Abort + AllocGlobal)) -> bool {
    let mut lines = String::new(rt.alloc());
    if lines.push_str("close 3\n").is_err() {
        return false;
    }
    let appended = append_each(&mut lines);
    is_whole(rt, appended, lines.as_str(), "close 3\n", EACH_LINE)
}

#[test]
fn appends_a_line_for_each_record(rt: HostRuntime) {
    assert!(rt; appends_each(&rt));
}

#[test]
fn refused_lines_leave_those_before(rt: HostRuntime) {
    if !appends_each(&rt) {
        tell_refused(&rt);
    }
}
