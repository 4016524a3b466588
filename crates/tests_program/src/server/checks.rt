// What is to be so, and that a growth was refused. An assertion that prints something is dear to prove, so each kind of them stands
// in one function.

use std::io::Print;
use std::process::Abort;

/// What a text says is so.
pub(super) fn check_so(rt: &impl Abort, is_so: bool, what: &str) {
    assert!(rt; is_so, "{what}");
}

/// What is so at each number is so at this one.
pub(super) fn check_at(rt: &impl Abort, is_so: bool, number: u64) {
    assert!(rt; is_so, "{number}");
}

/// A text is the wanted one.
pub(super) fn check_text(rt: &impl Abort, text: &str, wanted: &str) {
    assert_eq!(rt; text, wanted);
}

/// Tells `tools/refuse-each-growth` that a growth was refused, which the test accepted.
pub(super) fn tell_refused(rt: &impl Print) {
    let _ = println!(rt; "refused");
}
