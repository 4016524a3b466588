// What a reader with progress passes on, and what it shows meanwhile, by a clock that each reading puts forward.

use super::checks::check_text;
use super::{FIRST, FIRST_TEXT, FakeReader, FakeWriter, ROOMY, check_ran, count_of, ran_at};
use std::cell::Cell;
use std::io;
use std::io::{ErrorKind, Read};
use std::process::Abort;
use std::sync::Wait;
use std::thread::Threads;
use std::time::{Clock, Duration};
use stinger_server::ProgressReader;

// Each reading is so many milliseconds after the one before; without a step it can't be read.
#[derive(Drop)]
struct FakeClock {
    millis: Cell<u64>,
    step: Option<u64>,
}

fn clock_by(step: Option<u64>) -> FakeClock {
    FakeClock {
        millis: Cell::new(7_000),
        step,
    }
}

impl Clock for FakeClock {
    fn monotonic(&self) -> io::Result<Duration> {
        let Some(step) = self.step else {
            return Err(io::Error::from(ErrorKind::Other));
        };
        let millis = self.millis.get();
        self.millis.set(millis.saturating_add(step));
        Ok(Duration::from_millis(millis))
    }

    fn since_1970(&self) -> io::Result<Duration> {
        self.monotonic()
    }
}

// So many reads of at most so many bytes, and then the end of the reader.
fn read_so_often(
    clock: &FakeClock,
    reader: impl Read + Drop,
    reads: usize,
    most: usize,
    writer: &mut FakeWriter,
) {
    let mut reader = ProgressReader::over(clock, reader, Some(writer));
    let mut buf = [0; 65_536];
    for _ in 0..reads {
        let _ = reader.read(&mut buf[..most.min(65_536)]);
    }
}

// These reads show this text by one write a line and one that takes the last line away, of which each begins with the same byte.
fn shows(
    rt: &impl Abort,
    step: Option<u64>,
    reader: impl Read + Drop,
    reads: usize,
    most: usize,
    text: &str,
) {
    let mut writer = FakeWriter::new(10_000);
    read_so_often(&clock_by(step), reader, reads, most, &mut writer);
    check_text(rt, writer.text(), text);
    assert!(rt; writer.writes == count_of(text.as_bytes(), b'\r'));
}

#[test]
fn shows_a_line_five_times_a_second_and_takes_it_away(rt: HostRuntime) {
    let script = b"commit\nstat\n".as_slice();
    let twice = "\rreading: 1 lines, 0.0 MB, 1 commits, 0 s\x1b[K\
        \rreading: 2 lines, 0.0 MB, 1 commits, 0 s\x1b[K\r\x1b[K";
    shows(&rt, Some(100), script, 4, 4, twice);
    shows(&rt, Some(49), script, 4, 4, "");
}

#[test]
fn shows_lines_and_those_that_are_commit(rt: HostRuntime) {
    let script = b"stat\r\ncommit\r\ncommitx\n\ncommit".as_slice();
    let text = "\rreading: 0 lines, 0.0 MB, 0 commits, 0 s\x1b[K\
        \rreading: 1 lines, 0.0 MB, 0 commits, 1 s\x1b[K\
        \rreading: 1 lines, 0.0 MB, 0 commits, 2 s\x1b[K\
        \rreading: 2 lines, 0.0 MB, 1 commits, 2 s\x1b[K\
        \rreading: 2 lines, 0.0 MB, 1 commits, 3 s\x1b[K\
        \rreading: 4 lines, 0.0 MB, 1 commits, 4 s\x1b[K\r\x1b[K";
    shows(&rt, Some(700), script, 6, 4, text);
}

#[test]
fn shows_megabytes(rt: HostRuntime) {
    let text = "\rreading: 1310720 lines, 1.3 MB, 0 commits, 0 s\x1b[K\r\x1b[K";
    shows(&rt, Some(10), io::repeat(b'\n'), 20, 65_536, text);
}

#[test]
fn shows_nothing_without_a_clock(rt: HostRuntime) {
    shows(&rt, None, b"commit\n".as_slice(), 3, 4, "");
}

// The program over `FIRST` writes its text, and ends with 0, where its progress is shown on a writer with so much room.
fn serves_the_same(
    rt: &(impl Abort + AllocGlobal + Threads + Wait + Sync),
    clock: &FakeClock,
    room: usize,
) {
    let mut shown = FakeWriter::new(room);
    let reader = ProgressReader::over(clock, FIRST.as_bytes(), Some(&mut shown));
    let ran = ran_at(rt, &["run"], reader, ROOMY);
    check_ran(rt, &ran, (0, FIRST_TEXT, ""));
}

// So, also, where that writer is soon full.
#[test]
fn serves_the_same_text_beside_its_progress(rt: HostRuntime) {
    serves_the_same(&rt, &clock_by(Some(250)), 1_000);
    serves_the_same(&rt, &clock_by(Some(250)), 5);
}

// The byte that a read gives, where it gives one.
fn next_byte(reader: &mut impl Read) -> Option<u8> {
    let mut buf = [0; 4];
    match reader.read(&mut buf) {
        Ok(1) => Some(buf[0]),
        _ => None,
    }
}

#[test]
fn fails_where_the_reader_below_does(rt: HostRuntime) {
    let clock = clock_by(Some(250));
    let none: Option<FakeWriter> = None;
    let below = FakeReader::torn(b"ab", 1, Some(ErrorKind::Other));
    let mut reader = ProgressReader::over(&clock, below, none);
    assert!(rt; next_byte(&mut reader) == Some(b'a'));
    assert!(rt; reader.read(&mut [0; 4]).is_err());
    assert!(rt; next_byte(&mut reader) == Some(b'b'));
}
