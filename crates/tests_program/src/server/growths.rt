// Growths that are refused: `tools/refuse-each-growth` refuses each in turn. The writers take no memory.

use super::arguments::{HELP, UNKNOWN};
use super::checks::{check_so, check_text, tell_refused};
use super::{
    FIRST, FIRST_ENDS, FIRST_TEXT, FakeReader, FakeWriter, ROOMY, Ran, TABLES, TABLES_ENDS,
    TABLES_TEXT, check_ran, is_cut_of, ran_at, served,
};
use script_server::ServeFault;
use std::io::Print;
use std::process::Abort;
use std::sync::Wait;
use std::thread::Threads;

// Whether a run with this text, of which so many bytes stand before each record, was ended by a refused growth.
fn is_cut_by_memory(text: &str, ends: &[usize], output: &str) -> bool {
    for given in 0..ends.len() {
        if is_cut_of(text, ends, output, given, "Memory") {
            return true;
        }
    }
    false
}

// Whether such a run was ended so: at a record, where there was no memory; or before the first one, where no store was opened. A
// store that is not opened at a rebase because memory ran out is reported as that.
fn is_cut(text: &str, ends: &[usize], output: &str, fault: ServeFault) -> bool {
    match fault {
        ServeFault::Start => output.is_empty(),
        ServeFault::Memory => is_cut_by_memory(text, ends, output),
        ServeFault::Read | ServeFault::Write => false,
    }
}

// A run of the script prints its text, or is ended so.
fn runs_or_is_cut(
    rt: &(impl Abort + AllocGlobal + Print + Threads + Wait + Sync),
    script: &str,
    text: &str,
    ends: &[usize],
) {
    let mut writer = FakeWriter::new(1_024);
    match served(rt, FakeReader::whole(script), &mut writer) {
        Ok(_) => check_text(rt, writer.text(), text),
        Err(fault) => {
            let is_so = is_cut(text, ends, writer.text(), fault);
            check_so(rt, is_so, writer.text());
            tell_refused(rt);
        }
    }
}

#[test]
fn refused_growth_ends_a_run_at_its_record(rt: HostRuntime) {
    runs_or_is_cut(&rt, FIRST, FIRST_TEXT, FIRST_ENDS.as_slice());
}

#[test]
fn refused_growth_leaves_no_line_of_an_analysis(rt: HostRuntime) {
    runs_or_is_cut(&rt, TABLES, TABLES_TEXT, TABLES_ENDS.as_slice());
}

// A store that begins anew, and what is printed.
const REBASED: &str = "\
i,k,a,b,5,10
commit
open,0
rebase,0
open,0
edge,0,k,a,b
";

const REBASED_TEXT: &str = "\
commit v=1 ins=1 upd=0 rem=0 abs=0 ovf=0
open 0 v=1
rebase v=0 names=2 edges=1 used=1
open 0 v=0
edge 0 5 10 10
";

// How many bytes of `REBASED_TEXT` stand before each record of `REBASED`, and at its end.
const REBASED_ENDS: [usize; 7] = [0, 0, 41, 52, 86, 97, 112];

#[test]
fn refused_growth_of_a_rebase_leaves_the_lines_before(rt: HostRuntime) {
    runs_or_is_cut(&rt, REBASED, REBASED_TEXT, REBASED_ENDS.as_slice());
}

// Both end the run: the writer is reported, which was full at the first line or at the error line of a run that is out of memory.
#[test]
fn refused_growth_into_a_full_writer_tells_the_writer(rt: HostRuntime) {
    let mut writer = FakeWriter::new(5);
    let answer = served(&rt, FakeReader::whole(FIRST), &mut writer);
    if answer == Err(ServeFault::Start) {
        check_text(&rt, writer.text(), "");
        return tell_refused(&rt);
    }
    assert!(rt; answer == Err(ServeFault::Write) && writer.refusals == 1);
    if writer.text() == "error" {
        tell_refused(&rt);
    } else {
        check_text(&rt, writer.text(), "commi");
    }
}

const UNOPENED: &str =
    "error: out of memory: the store can't be opened, and fewer blocks or seats take less\n";

// What the program wrote where a growth was refused: nothing, but that the store wasn't opened; or some of the script's lines,
// and then the word for it.
fn is_told(output: &str, faults: &str) -> bool {
    if output.is_empty() {
        faults.is_empty() || faults == UNOPENED
    } else {
        faults.is_empty() && is_cut_by_memory(FIRST_TEXT, FIRST_ENDS.as_slice(), output)
    }
}

#[test]
fn refused_growth_gives_the_program_status_1(rt: HostRuntime) {
    let ran = ran_at(&rt, &["run"], FakeReader::whole(FIRST), ROOMY);
    if ran.status == 0 {
        check_ran(&rt, &ran, (0, FIRST_TEXT, ""));
    } else {
        assert!(rt; ran.status == 1 && is_told(ran.output.text(), ran.faults.text()));
        tell_refused(&rt);
    }
}

// The program at the argument writes texts that begin so, or nothing at all where a growth was refused.
fn tells_or_is_refused(
    rt: &(impl Abort + AllocGlobal + Print + Threads + Wait + Sync),
    argument: &str,
    (status, text, complaint): (u8, &str, &str),
) {
    let ran = ran_at(rt, &[argument], FakeReader::whole(""), ROOMY);
    if ran.status == 1 {
        check_ran(rt, &ran, (1, "", ""));
        tell_refused(rt);
    } else {
        let is_so = begins(ran.output.text(), text) && begins(ran.faults.text(), complaint);
        check_so(rt, ran.status == status && is_so, argument);
    }
}

// Begins with the text, and is empty where that is.
fn begins(whole: &str, text: &str) -> bool {
    whole.starts_with(text) && whole.is_empty() == text.is_empty()
}

#[test]
fn refused_growth_leaves_the_arguments_untold(rt: HostRuntime) {
    tells_or_is_refused(&rt, "--help", (0, HELP, ""));
    tells_or_is_refused(&rt, "fly", (2, "", UNKNOWN));
}

// What a drive prints where a growth was refused: nothing before the arguments were read, and then the word for it.
fn is_drive_told(output: &str) -> bool {
    output.is_empty() || output == "drive fault Start\n" || output == "drive fault Memory\n"
}

// A reader compares five answers in each of its 16 rounds, so 80.
const DRIVEN: &str = "drive readers=1 batches=64 checked=80 wrong=0 last=64\n";

// A drive of one reader prints its line; or a growth was refused, and it prints the word for it.
fn check_drive(rt: &(impl Abort + Print), ran: &Ran) {
    if ran.status == 0 {
        return check_ran(rt, ran, (0, DRIVEN, ""));
    }
    let is_so = ran.status == 1 && is_drive_told(ran.output.text());
    check_so(rt, is_so, ran.output.text());
    check_text(rt, ran.faults.text(), "");
    tell_refused(rt);
}

#[test]
fn refused_growth_gives_a_drive_its_word(rt: HostRuntime) {
    let arguments = ["drive", "--readers", "1"];
    let ran = ran_at(&rt, &arguments, FakeReader::whole(""), ROOMY);
    check_drive(&rt, &ran);
}
