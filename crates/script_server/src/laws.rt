//! Laws about the definitions, as contracts of functions that do nothing.

ghost use Rattle.script_server.specs.Examples.{AreExamples};
ghost use Rattle.script_server.specs.Laws.{HasOneText, HasSomeText};
ghost use Rattle.script_server.specs.Sessions.{AgreeingSlotsAreToldAlike, LinesAreAnswers, OthersChangeNothing};
ghost use Rattle.script_server.specs.Sessions.{TellsOfEachSlot};

/// A script has one text: no definition leaves a choice, also where a request's answer is given by a relation.
pub fn law_one_text()
    ensures { HasOneText }
{}

/// A script of fewer than 1,000,000 records has a text: each record comes to something, in each state that a run reaches.
pub fn law_some_text()
    ensures { HasSomeText }
{}

/// What the sessions of a slot are told, whatever other records stand between theirs.
///
/// - `each`: each text that a script prints says what befell each slot, and what the slot's requests came to.
/// - `answers`, in one script: these are, one by one, the answers to the requests of the slot's holdings, each over what the
///   batches up to the held version leave.
/// - `alike`, in two scripts, over any set-ups: where two slots have as many holdings, of versions of equal content, whatever
///   the limits, and with equal lists of requests, the k-th requests get one answer; at slots of one number the same lines or
///   the same word, beside which an error line has its record's number.
/// - `others`, from where a slot holds a version on: until a `close` or a `rebase` the same requests are told the same,
///   whatever other records are added or struck.
pub fn law_session_lines()
    ensures each { TellsOfEachSlot }
    ensures answers { LinesAreAnswers }
    ensures alike { AgreeingSlotsAreToldAlike }
    ensures others { OthersChangeNothing }
{}

/// The examples that are worked out by hand.
pub fn law_examples()
    ensures { AreExamples }
{}
