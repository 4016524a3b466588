// Ends of lines, quotes and byte order marks, from a reader that gives a byte a read.

use super::checks::check_text;
use super::{FakeReader, FakeWriter, served};
use std::process::Abort;
use std::sync::Wait;
use std::thread::Threads;

// ` ~~ ` parts the scripts, and behind ` => ` stands what each prints.
const SCRIPTS: &str = "\
    \n\r\n\r\r\n\n =>  ~~ \u{feff} =>  ~~ \
    \n\r\n\r\rbad\r\nbad\n\n\rbad\n\"\"\n\nbad\n,\n \nbad\r => error 1 BadCommand\nerror 2 BadCommand\n\
    error 3 BadCommand\nerror 4 BadCommand\nerror 5 BadCommand\nerror 6 BadCommand\nerror 7 BadCommand\n\
    error 8 BadCommand\n ~~ \
    stat,\nstat \nr;k;a;b\nr\tk\ta\tb\nr,k,a\\,b,c\nstat\0 => error 1 BadFields\nerror 2 BadCommand\n\
    error 3 BadCommand\nerror 4 BadCommand\nerror 5 BadFields\nerror 6 BadCommand\n ~~ \
    \"open\",\"0\"\r\n\"close\",\"0\" => open 0 v=0\nclose 0\n ~~ \
    \"op\"en,0\nr,k,a\"b,c\"\nr,k,\"a\"b\"c\",d\nr,k,\"a\"\"b\",\"\"\"\"\nr,k,\"a,b\",c\nr,k,\"a\nb\",c\nr,k,a,\"b \
    => open 0 v=0\nerror 6 BadName\nend pending=5\n ~~ \
    open,0\n\"open\nopen\n => open 0 v=0\nerror 2 BadCommand\n ~~ \
    \" => error 1 BadCommand\n ~~ \
    \u{feff}open,0\n\u{feff}open => open 0 v=0\nerror 2 BadCommand\n ~~ \
    \u{feff}\"open\",0 => open 0 v=0\n ~~ \
    \u{feff}\u{feff}open,0 => error 1 BadCommand\n ~~ \
    \n\u{feff}open,0 => error 1 BadCommand\n";

// The script, read a byte at a time, prints this.
fn prints(rt: &(impl Abort + AllocGlobal + Threads + Wait + Sync), script: &[u8], text: &str) {
    let mut output = FakeWriter::new(1_000);
    let _ = served(rt, FakeReader::torn(script, usize::MAX, None), &mut output);
    check_text(rt, output.text(), text);
}

// The script of a row prints what stands behind it.
fn prints_row(rt: &(impl Abort + AllocGlobal + Threads + Wait + Sync), row: &str) {
    let (script, text) = row.split_once(" => ").expect(rt, "a script");
    prints(rt, script.as_bytes(), text);
}

#[test]
fn reads_a_script_byte_by_byte(rt: HostRuntime) {
    for row in SCRIPTS.split(" ~~ ") {
        prints_row(&rt, row);
    }
    prints(&rt, b"\xef\xbbopen,0".as_slice(), "error 1 BadCommand\n");
    let cut_name = b"r,k,a\xff,b\nr,k,a,b".as_slice();
    prints(&rt, cut_name, "error 1 BadName\nend pending=1\n");
}
