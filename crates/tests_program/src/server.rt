//! Expected lines were worked out by hand from the rules. Plain scripts, and what the program says of its arguments, stand in
//! `examples/`.

mod arguments;
mod checks;
mod drives;
mod endless;
mod faults;
mod feeds;
mod growths;
mod lines;
mod progress;
mod scripts;

use self::checks::{check_so, check_text};
use std::io;
use std::io::{ErrorKind, Read, Write};
use std::process::Abort;
use std::sync::Wait;
use std::thread::Threads;
use stinger_server::{Config, ServeFault, Summary, serve, stinger};

const FIRST: &str = "\
i,knows,ann,bob,5,10
i,knows,bob,cat,2,11
commit
open,0
deg,0,*,0,100
edge,0,knows,ann,bob
";

const FIRST_TEXT: &str = "\
commit v=1 ins=2 upd=0 rem=0 abs=0 ovf=0
open 0 v=1
deg 0 edges=2
ann 1 0 5
bob 1 1 2
cat 0 1 0
edge 0 5 10 10
";

// How many bytes of `FIRST_TEXT` stand before each record of `FIRST`, and at its end.
const FIRST_ENDS: [usize; 7] = [0, 0, 0, 41, 52, 96, 111];

// Levels in a session that is held while an edge goes, and in one that is opened behind it; and what is printed.
const HELD: &str = "\
i,knows,ann,bob,5,10
i,knows,bob,cat,2,11
commit
open,0
bfs,0,ann,*,0,100
r,knows,ann,bob
commit
bfs,0,ann,*,0,100
open,1
bfs,1,ann,*,0,100
";

const HELD_TEXT: &str = "\
commit v=1 ins=2 upd=0 rem=0 abs=0 ovf=0
open 0 v=1
bfs 0 reached=3
ann 0
bob 1
cat 2
commit v=2 ins=0 upd=0 rem=1 abs=0 ovf=0
bfs 0 reached=3
ann 0
bob 1
cat 2
open 1 v=2
bfs 1 reached=1
ann 0
";

// How many bytes of `HELD_TEXT` stand before each record of `HELD`, and at its end.
const HELD_ENDS: [usize; 11] = [0, 0, 0, 41, 52, 86, 86, 127, 161, 172, 194];

// A script with refusals and a pending operation, and what it prints.
const REFUSED: &str = "\
hello
i,k,a,b,1,1
open,7
";

const REFUSED_TEXT: &str = "\
error 1 BadCommand
error 3 BadSlot
end pending=1
";

// A script of levels, labels and core numbers without refusals, and what it prints. `c` has a loop alone: no other vertex reaches
// it, it is a part of its own, and its core number is 0.
const TABLES: &str = "\
i,k,a,b,1,1
i,k,c,c,1,1
commit
open,0
bfs,0,a,*,0,9
comp,0,*,0,9
core,0,*,0,9
";

const TABLES_TEXT: &str = "\
commit v=1 ins=2 upd=0 rem=0 abs=0 ovf=0
open 0 v=1
bfs 0 reached=2
a 0
b 1
comp 0 parts=2
a a
b a
c c
core 0 max=1
a 1
b 1
c 0
";

// How many bytes of `TABLES_TEXT` stand before each record of `TABLES`, and at its end.
const TABLES_ENDS: [usize; 8] = [0, 0, 0, 41, 52, 76, 103, 128];

// A run of the script over a store of two seats.
fn served(
    rt: &(impl Abort + AllocGlobal + Threads + Wait + Sync),
    script: FakeReader<'_>,
    writer: &mut FakeWriter,
) -> Result<Summary, ServeFault> {
    let two_seats = Config::new(4, 16, 2).expect(rt, "within the limits");
    serve(rt, two_seats, script, writer)
}

// What the program left at arguments: its exit status, its output and its standard error.
#[derive(Clone, Copy)]
struct Ran {
    status: u8,
    output: FakeWriter,
    faults: FakeWriter,
}

// Room for all that the program writes, on its output and on standard error.
const ROOMY: (usize, usize) = (MOST_HELD, MOST_HELD);

// The program at the arguments, on writers with so much room.
fn ran_at(
    rt: &(impl AllocGlobal + Threads + Wait + Sync),
    arguments: &[&str],
    script: impl Read + Drop,
    (room, fault_room): (usize, usize),
) -> Ran {
    let (output, faults) = (FakeWriter::new(room), FakeWriter::new(fault_room));
    ran_on(rt, arguments, script, output, faults)
}

// The same on these writers.
fn ran_on(
    rt: &(impl AllocGlobal + Threads + Wait + Sync),
    arguments: &[&str],
    script: impl Read + Drop,
    mut output: FakeWriter,
    mut faults: FakeWriter,
) -> Ran {
    let status = stinger(rt, arguments, script, &mut output, &mut faults);
    Ran {
        status,
        output,
        faults,
    }
}

// It ended with this status and left these texts.
fn check_ran(rt: &impl Abort, ran: &Ran, (status, text, complaint): (u8, &str, &str)) {
    check_text(rt, ran.output.text(), text);
    check_text(rt, ran.faults.text(), complaint);
    check_so(rt, ran.status == status, "the status");
}

// A writer holds no more bytes than these.
const MOST_HELD: usize = 8_192;

// Takes at most so many bytes a call and so many in all; then it fails, or takes nothing. It takes no memory.
#[derive(Clone, Copy)]
struct FakeWriter {
    held: [u8; MOST_HELD],
    length: usize,
    piece: usize,
    room: usize,
    // A write past the room fails, and else takes nothing.
    fails: bool,
    flush_fails: bool,
    // The calls of `write`; the first call that was refused, and each call after that.
    writes: usize,
    refusals: usize,
    // The last call was a flush.
    flushed: bool,
}

impl FakeWriter {
    // A writer that takes so much, and then fails.
    fn new(room: usize) -> FakeWriter {
        FakeWriter {
            held: [0; MOST_HELD],
            length: 0,
            piece: usize::MAX,
            room,
            fails: true,
            flush_fails: false,
            writes: 0,
            refusals: 0,
            flushed: false,
        }
    }

    fn text(&self) -> &str {
        str::from_utf8(&self.held[..self.length.min(MOST_HELD)]).unwrap_or("no text")
    }
}

impl Write for FakeWriter {
    fn write(&mut self, buf: &[u8]) -> io::Result<usize> {
        self.flushed = false;
        self.writes = self.writes.saturating_add(1);
        let begin = self.length.min(MOST_HELD);
        let n = buf
            .len()
            .min(self.room)
            .min(self.piece)
            .min(MOST_HELD - begin);
        if n == 0 {
            self.refusals = self.refusals.saturating_add(1);
            return if self.fails {
                Err(io::Error::from(ErrorKind::StorageFull))
            } else {
                Ok(0)
            };
        }
        self.held[begin..begin + n].copy_from_slice(&buf[..n]);
        self.length = begin + n;
        self.room -= n;
        Ok(n)
    }

    fn flush(&mut self) -> io::Result<()> {
        if self.refusals > 0 {
            self.refusals = self.refusals.saturating_add(1);
        }
        if self.flush_fails {
            return Err(io::Error::from(ErrorKind::Other));
        }
        self.flushed = true;
        Ok(())
    }
}

// Gives at most so many bytes a read; once, after so many reads, it fails with the kind, or gives nothing where there is none.
#[derive(Drop)]
struct FakeReader<'a> {
    bytes: &'a [u8],
    piece: usize,
    reads: usize,
    kind: Option<ErrorKind>,
}

impl FakeReader<'_> {
    // Gives the text at once.
    fn whole(text: &str) -> FakeReader<'_> {
        FakeReader {
            bytes: text.as_bytes(),
            piece: usize::MAX,
            reads: usize::MAX,
            kind: None,
        }
    }

    // Gives a byte a read.
    fn torn(bytes: &[u8], reads: usize, kind: Option<ErrorKind>) -> FakeReader<'_> {
        FakeReader {
            bytes,
            piece: 1,
            reads,
            kind,
        }
    }
}

impl Read for FakeReader<'_> {
    fn read(&mut self, buf: &mut [u8]) -> io::Result<usize> {
        if self.reads == 0 {
            self.reads = usize::MAX;
            return match self.kind {
                Some(kind) => Err(io::Error::from(kind)),
                None => Ok(0),
            };
        }
        self.reads -= 1;
        let n = buf.len().min(self.bytes.len()).min(self.piece);
        let (given, rest) = self.bytes.split_at(n);
        buf[..n].copy_from_slice(given);
        self.bytes = rest;
        Ok(n)
    }
}

// How often the byte is among these.
fn count_of(bytes: &[u8], wanted: u8) -> usize {
    let mut count: usize = 0;
    for byte in bytes {
        count = count.saturating_add(usize::from(*byte == wanted));
    }
    count
}

// The lines of a text before so many records are done, of which so many bytes stand before each record and at the end, and then
// the error line with the word.
fn is_cut_of(text: &str, ends: &[usize], output: &str, given: usize, word: &str) -> bool {
    let Some(end) = ends.get(given) else {
        return false;
    };
    let lines = &text.as_bytes()[..(*end).min(text.len())];
    match output.as_bytes().strip_prefix(lines) {
        Some(line) => is_error(line, given, word),
        None => false,
    }
}

// How the error line of each of the first records begins.
const ERRORS: [&str; 11] = [
    "error 1 ",
    "error 2 ",
    "error 3 ",
    "error 4 ",
    "error 5 ",
    "error 6 ",
    "error 7 ",
    "error 8 ",
    "error 9 ",
    "error 10 ",
    "error 11 ",
];

// Whether this is the word and the end of a line.
fn is_word(told: &[u8], word: &str) -> bool {
    match told.strip_prefix(word.as_bytes()) {
        Some(end) => end == b"\n".as_slice(),
        None => false,
    }
}

// Whether this is the error line with the word of the record behind so many, fewer than eleven.
fn is_error(line: &[u8], given: usize, word: &str) -> bool {
    let Some(begin) = ERRORS.get(given) else {
        return false;
    };
    match line.strip_prefix(begin.as_bytes()) {
        Some(told) => is_word(told, word),
        None => false,
    }
}
