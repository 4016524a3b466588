//! The moves of sessions. A move that can't be made leaves the session as it is.

ghost use Rattle.std.specs.Prelude.{◌≡◌, ◌<◌, ◌≤◌, ◌++◌, IfOk, OnErr, length, slice_index_or};
ghost use Rattle.epoch_core.specs.Machine as machine;
ghost use Rattle.epoch_core.specs.Worlds as worlds;
ghost use Rattle.block_reclamation.specs.Copies.{copy_of};
ghost use Rattle.epoch_core.specs.Blocks.{Stepped, changed_at};
ghost use Rattle.epoch_core.specs.declared.session_states.SessionState.TheVariants.{Idle};

use crate::contents::edges_at;
use crate::session_states::{Hold, Inquiry, SessionState, no_items};
use crate::states::{Opening, Version};
use crate::step::Step;
use crate::versions::blocks_at;
use block_reclamation::{Pin, PinCopy, SEATS};
use graph_types::{Edge, List, Request};
use std::alloc::{AllocError, Global};

/// Where a session stands. It takes no memory.
pub(crate) fn state_at(sessions: &[SessionState], session: usize) -> &SessionState
    requires { session < length sessions.now }
    ensures { result.now ≡ slice_index_or sessions.now session Idle }
{
    &sessions[session]
}

/// The pin of a session in this state. It takes no memory.
pub(crate) fn pin_in(state: &SessionState) -> Option<u64>
    ensures { result ≡ worlds.pin_in state.now }
{
    match state {
        SessionState::Idle => None,
        SessionState::Pinned(pin) => Some(*pin),
        SessionState::Holding(hold) => Some(hold.pin),
        SessionState::Asking(hold, _) => Some(hold.pin),
    }
}

/// The number of the version that a session in this state holds. It takes no memory.
pub(crate) fn held_in(state: &SessionState) -> Option<u64>
    ensures { result ≡ worlds.held_in state.now }
{
    match state {
        SessionState::Idle => None,
        SessionState::Pinned(_) => None,
        SessionState::Holding(hold) => Some(hold.version),
        SessionState::Asking(hold, _) => Some(hold.version),
    }
}

/// The pin of a session in this state, as a seat has it. It takes no memory.
fn seat_pin(state: &SessionState) -> Option<Pin>
    ensures { result ≡ worlds.seat_pin state.now }
{
    match state {
        SessionState::Idle => None,
        SessionState::Pinned(pin) => Some(Pin {
            number: *pin,
            is_settled: false,
        }),
        SessionState::Holding(hold) => Some(pin_by(hold)),
        SessionState::Asking(hold, _) => Some(pin_by(hold)),
    }
}

fn pin_by(hold: &Hold) -> Pin
    ensures { result ≡ record { number = hold.now.pin; is_settled = hold.now.settled } }
{
    Pin {
        number: hold.pin,
        is_settled: hold.settled,
    }
}

/// The copy of a last number and of the sessions' pins. It takes no memory.
pub(crate) fn copy_pins(last: u64, sessions: &[SessionState]) -> PinCopy
    requires { length sessions.now ≤ 16 }
    ensures { result ≡ copy_of last (worlds.seat_pins sessions.now) }
{
    PinCopy::of(last, &seat_pins(sessions))
}

fn seat_pins(sessions: &[SessionState]) -> [Option<Pin>; SEATS]
    requires { length sessions.now ≤ 16 }
    ensures { result ≡ worlds.seat_pins sessions.now }
{
    let mut pins = [None; SEATS];
    let mut seat = 0;
    while seat < sessions.len() {
        pins[seat] = seat_pin(&sessions[seat]);
        seat += 1;
    }
    pins
}

/// A session that is away pins the floor. It takes no memory.
pub(crate) fn pin(sessions: &mut Vec<SessionState>, session: usize, floor: u64) -> Step
    ensures { Stepped (changed_at
        (machine.to_pin floor) sessions.old.items session) result sessions.old.items sessions.new.items }
{
    if session >= sessions.len() {
        return Step::Skipped;
    }
    match &sessions[session] {
        SessionState::Idle => {
            sessions[session] = SessionState::Pinned(floor);
            Step::Done
        }
        _ => Step::Skipped,
    }
}

/// A pinned session takes hold of the last version. It takes no memory.
pub(crate) fn enter(sessions: &mut Vec<SessionState>, session: usize, last: u64) -> Step
    ensures { Stepped (changed_at
        (machine.to_enter last) sessions.old.items session) result sessions.old.items sessions.new.items }
{
    if session >= sessions.len() {
        return Step::Skipped;
    }
    match &sessions[session] {
        SessionState::Pinned(pin) => {
            let hold = Hold {
                pin: *pin,
                settled: false,
                version: last,
            };
            sessions[session] = SessionState::Holding(hold);
            Step::Done
        }
        _ => Step::Skipped,
    }
}

fn settle_state(state: &mut SessionState) -> Step
    ensures { Stepped (machine.to_settle state.old) result state.old state.new }
{
    match state {
        SessionState::Idle => Step::Skipped,
        SessionState::Pinned(_) => Step::Skipped,
        SessionState::Holding(hold) => {
            hold.pin = hold.version;
            hold.settled = true;
            Step::Done
        }
        SessionState::Asking(hold, _) => {
            hold.pin = hold.version;
            hold.settled = true;
            Step::Done
        }
    }
}

/// A session that holds a version moves its pin up to that version's number. It takes no memory.
pub(crate) fn settle(sessions: &mut Vec<SessionState>, session: usize) -> Step
    ensures { Stepped (changed_at machine.to_settle sessions.old.items session) result sessions.old.items sessions.new.items }
{
    if session >= sessions.len() {
        return Step::Skipped;
    }
    settle_state(&mut sessions[session])
}

/// A request of which no block is read yet.
fn new_inquiry(alloc: Global, request: &Request) -> Result<Inquiry, AllocError>
    ensures { IfOk result (λ inquiry. inquiry ≡ machine.new_inquiry request.now) }
{
    Ok(Inquiry {
        request: request.clone()?,
        next: 0,
        read: no_items(alloc),
    })
}

/// A session that holds a version asks a request of it.
pub(crate) fn ask(
    alloc: Global,
    sessions: &mut Vec<SessionState>,
    session: usize,
    request: &Request,
) -> Result<Step, AllocError>
    ensures asked { IfOk result (λ step. Stepped (changed_at
        (machine.to_ask request.now) sessions.old.items session) step sessions.old.items sessions.new.items) }
    ensures unchanged { OnErr result (sessions.new.items ≡ sessions.old.items) }
{
    if session >= sessions.len() {
        return Ok(Step::Skipped);
    }
    match &sessions[session] {
        SessionState::Holding(hold) => {
            let hold = *hold;
            let inquiry = new_inquiry(alloc, request)?;
            sessions[session] = SessionState::Asking(hold, inquiry);
            Ok(Step::Done)
        }
        _ => Ok(Step::Skipped),
    }
}

/// Both lists of edges, one after the other.
fn concatenation(alloc: Global, first: &[Edge], second: &[Edge]) -> Result<Vec<Edge>, AllocError>
    ensures { IfOk result (λ v. v.items ≡ first.now ++ second.now) }
{
    let mut edges = Vec::from_slice(alloc, first)?;
    edges.extend_from_slice(second)?;
    Ok(edges)
}

/// The next block is read, if there is one.
fn read_state(
    alloc: Global,
    opening: &Opening,
    heap: &[List<Edge>],
    versions: &[Version],
    state: &mut SessionState,
) -> Result<Step, AllocError>
    ensures read { IfOk result
        (λ step. Stepped (machine.to_read opening.now heap.now versions.now state.old) step state.old state.new) }
    ensures unchanged { OnErr result (state.new ≡ state.old) }
{
    let SessionState::Asking(hold, inquiry) = state else {
        return Ok(Step::Skipped);
    };
    let Some(block) = blocks_at(opening, versions, hold.version)
        .get(inquiry.next)
        .copied()
    else {
        return Ok(Step::Skipped);
    };
    let read = concatenation(alloc, inquiry.read.as_slice(), edges_at(heap, block))?;
    inquiry.next += 1;
    inquiry.read = List::of(read);
    Ok(Step::Done)
}

/// A session that has asked reads the next block of its version.
pub(crate) fn read(
    alloc: Global,
    opening: &Opening,
    heap: &[List<Edge>],
    versions: &[Version],
    sessions: &mut Vec<SessionState>,
    session: usize,
) -> Result<Step, AllocError>
    ensures read { IfOk result (λ step. Stepped (changed_at
        (machine.to_read opening.now heap.now versions.now) sessions.old.items session) step sessions.old.items
        sessions.new.items) }
    ensures unchanged { OnErr result (sessions.new.items ≡ sessions.old.items) }
{
    if session >= sessions.len() {
        return Ok(Step::Skipped);
    }
    let step = read_state(alloc, opening, heap, versions, &mut sessions[session])?;
    Ok(step)
}

/// A session lets go of its version and its pin. It takes no memory.
pub(crate) fn release(sessions: &mut Vec<SessionState>, session: usize) -> Step
    ensures { Stepped (changed_at machine.to_release sessions.old.items session) result sessions.old.items sessions.new.items }
{
    if session >= sessions.len() {
        return Step::Skipped;
    }
    match &sessions[session] {
        SessionState::Pinned(_) | SessionState::Holding(_) => {
            sessions[session] = SessionState::Idle;
            Step::Done
        }
        _ => Step::Skipped,
    }
}
