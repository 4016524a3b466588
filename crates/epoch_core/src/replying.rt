//! Replies.

ghost use Rattle.std.specs.Prelude.{◌≡◌, ◌<◌, ◌++◌, ◌∷◌, [], IfOk, OnOk, OnErr, MatchOption, MatchResult, Err, ◌≢◌, length};
ghost use Rattle.std.specs.Prelude.{slice_get, slice_set, slice_index_or};
ghost use Rattle.std.specs.Option.{option_and_then};
ghost use Rattle.graph_types.specs.Graph.{graph_of, IsContent};
ghost use Rattle.graph_types.specs.Answer.{IsAnswer};
ghost use Rattle.epoch_core.specs.Machine as machine;
ghost use Rattle.epoch_core.specs.Blocks.{Stepped, changed_at};
ghost use Rattle.epoch_core.specs.declared.session_states.SessionState.TheVariants.{Idle};

use crate::session_states::{Answer, Hold, Inquiry, SessionState, no_items};
use crate::states::{Opening, Version};
use crate::step::Step;
use crate::versions::{blocks_at, content_with};
use graph_model::plain_reply;
use graph_types::{AskError, Content, List, Reply, Request};
use std::alloc::{AllocError, Global};
use std::mem;

/// Whether all blocks of the held version are read.
fn is_all_read(opening: &Opening, versions: &[Version], hold: &Hold, inquiry: &Inquiry) -> bool
    ensures { result ≡ machine.is_all_read opening.now versions.now hold.now inquiry.now }
{
    inquiry.next >= blocks_at(opening, versions, hold.version).len()
}

/// The answer that a reply or a refusal is; out of memory is none.
fn answer_of(reply: Result<Reply, AskError>) -> Result<Answer, AllocError>
    ensures { MatchResult result (λ answer. (answer ≡ reply) × (reply ≢ Err AskError.OutOfMemory))
        (λ _. reply ≡ Err AskError.OutOfMemory) }
{
    match reply {
        Ok(shown) => Ok(Ok(shown)),
        Err(AskError::OutOfMemory) => Err(AllocError),
        Err(refusal) => Ok(Err(refusal)),
    }
}

/// The answer to a request over a content.
fn answer_over(alloc: Global, content: Content, request: &Request) -> Result<Answer, AllocError>
    requires { IsContent content }
    ensures { IfOk result (λ answer. IsAnswer request.now (graph_of content) answer) }
{
    answer_of(plain_reply(alloc, &content, request))
}

/// The answer to what the session in this state has asked and read; `None` where it has not asked, or has not
/// read all blocks of its version.
fn answer_at(
    alloc: Global,
    opening: &Opening,
    versions: &[Version],
    state: &SessionState,
) -> Result<Option<Answer>, AllocError>
    requires { machine.ReadsContent opening.now versions.now state.now }
    ensures { IfOk result (λ answer. machine.IsAnswerTo (machine.question_in opening.now versions.now state.now) answer) }
{
    let SessionState::Asking(hold, inquiry) = state else {
        return Ok(None);
    };
    if !is_all_read(opening, versions, hold, inquiry) {
        return Ok(None);
    }
    let read = Vec::from_slice(alloc, inquiry.read.as_slice())?;
    let content = content_with(alloc, opening, versions, hold.version, read)?;
    Ok(Some(answer_over(alloc, content, &inquiry.request)?))
}

/// The replies to a session, none for a number that is out of range. It takes no memory.
pub(crate) fn replies_at(replies: &[List<Answer>], session: usize) -> &[Answer]
    ensures { result.now ≡ slice_index_or replies.now session [] }
{
    match replies.get(session) {
        Some(answers) => answers.as_slice(),
        None => &[],
    }
}

/// Adds an answer to a list of replies.
fn push_to(alloc: Global, list: &mut List<Answer>, answer: Answer) -> Result<(), AllocError>
    ensures added { OnOk result (list.new ≡ list.old ++ answer ∷ []) }
    ensures unchanged { OnErr result (list.new ≡ list.old) }
{
    let mut answers = mem::replace(list, no_items(alloc)).into_vec();
    let is_pushed = answers.push(answer).is_ok();
    *list = List::of(answers);
    if is_pushed { Ok(()) } else { Err(AllocError) }
}

/// Adds an answer to the replies of a session.
fn push_answer(
    alloc: Global,
    replies: &mut Vec<List<Answer>>,
    session: usize,
    answer: Answer,
) -> Result<(), AllocError>
    requires { session < length replies.old.items }
    ensures added { OnOk result (replies.new.items ≡ slice_set replies.old.items session
        (slice_index_or replies.old.items session [] ++ answer ∷ [])) }
    ensures unchanged { OnErr result (replies.new.items ≡ replies.old.items) }
{
    push_to(alloc, &mut replies[session], answer)?;
    Ok(())
}

/// A session in this state that has read all blocks of its version is given its answer, and any other none.
fn give_answer(
    alloc: Global,
    opening: &Opening,
    versions: &[Version],
    state: &SessionState,
    replies: &mut Vec<List<Answer>>,
    session: usize,
) -> Result<(), AllocError>
    requires place { session < length replies.old.items }
    requires content { machine.ReadsContent opening.now versions.now state.now }
    ensures answered { OnOk result (MatchOption (machine.question_in opening.now versions.now state.now)
        (replies.new.items ≡ replies.old.items)
        (λ q. machine.IsAnswered session q replies.old.items replies.new.items)) }
    ensures unchanged { OnErr result (replies.new.items ≡ replies.old.items) }
{
    match answer_at(alloc, opening, versions, state)? {
        Some(answer) => push_answer(alloc, replies, session, answer),
        None => Ok(()),
    }
}

/// A session that has read all blocks of its version has no request from now on. It takes no memory.
fn conclude(
    opening: &Opening,
    versions: &[Version],
    sessions: &mut Vec<SessionState>,
    session: usize,
) -> Step
    ensures { Stepped (changed_at
        (machine.to_reply opening.now versions.now) sessions.old.items session) result sessions.old.items sessions.new.items }
{
    if session >= sessions.len() {
        return Step::Skipped;
    }
    match &sessions[session] {
        SessionState::Asking(hold, inquiry) => {
            if !is_all_read(opening, versions, hold, inquiry) {
                return Step::Skipped;
            }
            let hold = *hold;
            sessions[session] = SessionState::Holding(hold);
            Step::Done
        }
        _ => Step::Skipped,
    }
}

/// A session that has read all blocks of its version is answered.
pub(crate) fn reply(
    alloc: Global,
    opening: &Opening,
    versions: &[Version],
    sessions: &mut Vec<SessionState>,
    replies: &mut Vec<List<Answer>>,
    session: usize,
) -> Result<Step, AllocError>
    requires sizes { length replies.old.items ≡ length sessions.old.items }
    requires content { machine.ReadsContent opening.now versions.now (slice_index_or sessions.old.items session Idle) }
    ensures moved { IfOk result (λ step. Stepped (changed_at
        (machine.to_reply opening.now versions.now) sessions.old.items session) step sessions.old.items sessions.new.items) }
    ensures answered { OnOk result (MatchOption (option_and_then (machine.question_in opening.now versions.now)
        (slice_get sessions.old.items session)) (replies.new.items ≡ replies.old.items)
        (λ q. machine.IsAnswered session q replies.old.items replies.new.items)) }
    ensures session_stays { OnErr result (sessions.new.items ≡ sessions.old.items) }
    ensures replies_stay { OnErr result (replies.new.items ≡ replies.old.items) }
{
    if session >= sessions.len() {
        return Ok(Step::Skipped);
    }
    give_answer(
        alloc,
        opening,
        versions,
        &sessions[session],
        replies,
        session,
    )?;
    Ok(conclude(opening, versions, sessions, session))
}
