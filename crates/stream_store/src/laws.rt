//! A law of sessions, as the contract of a function that does nothing.

ghost use Rattle.stream_store.specs.Seats.{AnswersByContent};

/// Sessions that hold equal contents answer equal requests alike, whatever happened in their stores:
/// [`Session::ask`](crate::Session::ask) answers by the content of the version held alone, and over one content a
/// request has one answer.
pub fn law_equal_answers()
    ensures { AnswersByContent }
{}
