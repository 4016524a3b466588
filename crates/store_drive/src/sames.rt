//! Whether two answers are the same.

ghost use Rattle.std.specs.Prelude.{◌≡◌, ◌↔◌, IsTrue};

use graph_types::{AskError, Degree, Name, Reply};

/// A reply, or the refusal of a request.
pub(crate) type Answer = Result<Reply, AskError>;

/// What can be compared with another of its type.
trait Same {
    /// Whether the two are equal.
    fn is_same(&self, other: &Self) -> bool
        ensures { IsTrue result ↔ (self.now ≡ other.now) };
}

impl Same for Name {
    fn is_same(&self, other: &Name) -> bool {
        self.as_str() == other.as_str()
    }
}

impl Same for u32 {
    fn is_same(&self, other: &u32) -> bool {
        *self == *other
    }
}

impl Same for Degree {
    fn is_same(&self, other: &Degree) -> bool {
        *self == *other
    }
}

impl<A: Same, B: Same> Same for (A, B) {
    fn is_same(&self, other: &(A, B)) -> bool {
        self.0.is_same(&other.0) && self.1.is_same(&other.1)
    }
}

/// Whether two lists have the same rows in the same order.
fn are_same<T: Same>(rows: &[T], others: &[T]) -> bool
    ensures { IsTrue result ↔ (rows.now ≡ others.now) }
{
    if rows.len() != others.len() {
        return false;
    }
    for (row, other) in rows.iter().zip(others) {
        if !row.is_same(other) {
            return false;
        }
    }
    true
}

fn are_same_replies(reply: &Reply, other: &Reply) -> bool
    ensures { IsTrue result ↔ (reply.now ≡ other.now) }
{
    match (reply, other) {
        (Reply::Levels(rows), Reply::Levels(others)) => are_same(
            rows.as_slice(),
            others.as_slice(),
        ),
        (Reply::Labels(rows), Reply::Labels(others)) => are_same(
            rows.as_slice(),
            others.as_slice(),
        ),
        (Reply::Cores(rows), Reply::Cores(others)) => are_same(rows.as_slice(), others.as_slice()),
        (Reply::Degrees(rows), Reply::Degrees(others)) => are_same(
            rows.as_slice(),
            others.as_slice(),
        ),
        (Reply::OneEdge(edge), Reply::OneEdge(other)) => *edge == *other,
        _ => false,
    }
}

/// Whether two answers are the same, refusals included.
pub(crate) fn are_same_answers(answer: &Answer, other: &Answer) -> bool
    ensures { IsTrue result ↔ (answer.now ≡ other.now) }
{
    match (answer, other) {
        (Ok(reply), Ok(other)) => are_same_replies(reply, other),
        (Err(refusal), Err(other)) => *refusal == *other,
        _ => false,
    }
}
