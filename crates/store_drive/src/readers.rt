//! Readers: each acquires a version, asks it, compares what it answers with the plain answers, and lets it go, some times over.

ghost use Rattle.std.specs.Prelude.{◌≡◌, ◌≢◌, ◌+◌, ◌≤◌, length, IfOk, OnOk, Err};
ghost use Rattle.std.specs.Coded.{codes};
ghost use Rattle.graph_types.specs.Answer.{IsAnswer};
ghost use Rattle.graph_types.specs.Coded.{graph_code};
ghost use Rattle.graph_types.specs.Graph.{graph_of, IsContent};
ghost use Rattle.graph_types.specs.Step.{empty_graph};
ghost use Rattle.stream_store.specs.Seats.{held_graph, held_version};
ghost use Rattle.stream_store.specs.Stores.{IsOfOpening};
ghost use Rattle.store_drive.specs.Load.{between_of};

use crate::contents::content_of;
use crate::load::requests;
use crate::pace::Pace;
use crate::reports::DriveWord;
use crate::sames::Answer;
use crate::tally::Tally;
use graph_model::plain_reply;
use graph_types::{AskError, Content, Request};
use std::alloc::{AllocError, Global};
use std::marker::PhantomData;
use std::sync::Wait;
use stream_store::{Naming, Seat, Session, Store};

/// How often a reader acquires a version.
const ROUNDS: u32 = 16;

/// What a reader found, and its seat. Its type keeps that the seat is of the store's opening, which began with nothing.
#[derive(Drop)]
pub(crate) struct Reading<J: Naming> {
    pub(crate) seat: Seat,
    pub(crate) tally: Tally,
    of: PhantomData<J>,
    ghost book_is: { seat.seen.book ≡ J.book },
    ghost opening_is: { seat.seen.version.opening ≡ empty_graph } by { Prim.hlevel (codes, graph_code) },
    ghost checked_are: { tally.checked ≡ 80 },
    ghost none_wrong: { tally.wrong ≡ 0 },
}

/// An answer for which no growth was refused.
fn with_memory(answer: Answer) -> Result<Answer, AllocError>
    ensures same { IfOk result (λ told. told ≡ answer) }
    ensures told { OnOk result (answer ≢ Err AskError.OutOfMemory) }
{
    match answer {
        Err(AskError::OutOfMemory) => Err(AllocError),
        told => Ok(told),
    }
}

/// Counts what was told, and that it is wrong where it isn't the answer over the content. Of what was told nothing is known.
fn check_told(
    alloc: Global,
    told: Answer,
    content: &Content,
    request: &Request,
    tally: &mut Tally,
) -> Result<(), DriveWord>
    requires content { IsContent content.now }
    requires room { tally.old.checked ≤ 1000 }
    ensures memory { OnOk result (told ≢ Err AskError.OutOfMemory) }
    ensures checked { OnOk result (tally.new.checked ≡ tally.old.checked + 1) }
    ensures right { OnOk result (IsAnswer request.now (graph_of content.now) told → tally.new.wrong ≡ tally.old.wrong) }
    ensures wrong { OnOk result ((IsAnswer request.now (graph_of content.now) told → ⊥)
        → tally.new.wrong ≡ tally.old.wrong + 1) }
    ensures between { OnOk result (tally.new.between ≡ tally.old.between) }
{
    let told = with_memory(told)?;
    let wanted = with_memory(plain_reply(alloc, content, request))?;
    tally.count(&told, &wanted);
    Ok(())
}

/// Counts whether the session answers what the plain function does over the content of its version: it does.
fn check(
    alloc: Global,
    session: &Session,
    content: &Content,
    request: &Request,
    tally: &mut Tally,
) -> Result<(), DriveWord>
    requires content { IsContent content.now }
    requires graph { graph_of content.now ≡ held_graph session.now }
    requires room { tally.old.checked ≤ 1000 }
    ensures checked { OnOk result (tally.new.checked ≡ tally.old.checked + 1) }
    ensures wrong { OnOk result (tally.new.wrong ≡ tally.old.wrong) }
    ensures between { OnOk result (tally.new.between ≡ tally.old.between) }
{
    check_told(alloc, session.ask(request), content, request, tally)
}

/// Does so for each of the requests, and counts whether the session's version lies between the first and the last.
fn check_each(
    alloc: Global,
    session: &Session,
    requests: &[Request],
    tally: &mut Tally,
) -> Result<(), DriveWord>
    requires opening { (held_version session.now).opening ≡ empty_graph }
    requires room { tally.old.checked + length requests.now ≤ 1000 }
    ensures checked { OnOk result (tally.new.checked ≡ tally.old.checked + length requests.now) }
    ensures wrong { OnOk result (tally.new.wrong ≡ tally.old.wrong) }
    ensures between { OnOk result (tally.new.between ≡ tally.old.between
        + between_of (length (held_version session.now).batches) (length requests.now)) }
{
    let content = content_of(alloc, session.version())?;
    for request in requests {
        check(alloc, session, &content, request, tally)?;
    }
    tally.place(session.version().number(), requests.len() as u32);
    Ok(())
}

/// Acquires a version, checks it, and lets it go, also where a growth was refused: a pin that stayed would keep blocks from the
/// feeder.
fn round<J: Naming, R: Wait>(
    rt: &R,
    alloc: Global,
    store: &Store<J>,
    seat: Seat,
    requests: &[Request],
    tally: &mut Tally,
) -> (Seat, Result<(), DriveWord>)
    requires opening { IsOfOpening J.book empty_graph seat.seen }
    requires room { tally.old.checked + length requests.now ≤ 1000 }
    ensures opening { IsOfOpening J.book empty_graph result.0.seen }
    ensures checked { OnOk result.1 (tally.new.checked ≡ tally.old.checked + length requests.now) }
    ensures wrong { OnOk result.1 (tally.new.wrong ≡ tally.old.wrong) }
{
    let session = seat.pin(rt, store).enter(rt, store);
    let checked = check_each(alloc, &session, requests, tally);
    (session.release(rt, store), checked)
}

/// What a reader finds in all its rounds, each of which begins once the batches of the rounds before were posted.
fn read_each<J: Naming, R: Wait>(
    rt: &R,
    alloc: Global,
    store: &Store<J>,
    pace: &Pace,
    place: usize,
    mut seat: Seat,
) -> Result<Reading<J>, DriveWord>
    requires { IsOfOpening J.book empty_graph seat.seen }
{
    let requests = requests(alloc)?;
    let mut tally = Tally::none();
    for rounds in 0..ROUNDS {
        pace.await_batches(rt, rounds);
        let (next, checked) = round(rt, alloc, store, seat, requests.as_slice(), &mut tally);
        seat = next;
        checked?;
        pace.note_rounds(rt, place, rounds + 1);
    }
    Ok(Reading {
        seat,
        tally,
        of: PhantomData,
    })
}

/// The same, with word to the feeder when the reader begins and when it ends.
pub(crate) fn read<J: Naming, R: Wait>(
    rt: &R,
    alloc: Global,
    store: &Store<J>,
    pace: &Pace,
    seat: Seat,
) -> Result<Reading<J>, DriveWord>
    requires { IsOfOpening J.book empty_graph seat.seen }
{
    let place = pace.begin(rt);
    let reading = read_each(rt, alloc, store, pace, place, seat);
    pace.end(rt, place);
    reading
}
