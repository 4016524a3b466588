//! One event of the machine, over its fields.

ghost use Rattle.std.specs.Prelude.{◌≡◌, IfOk, OnErr, IsTrue, length};
ghost use Rattle.epoch_core.specs.Worlds.{HasContents};
ghost use Rattle.epoch_core.specs.Machine.{takes_memory};
ghost use Rattle.epoch_core.specs.Runs.{Steps};
ghost use Rattle.epoch_core.specs.Sound.{IsCore};
ghost use Rattle.epoch_core.specs.Cores.{state_of};

use crate::Event;
use crate::blocks::{fill_block, recycle_block, take_block};
use crate::posting::plan_post;
use crate::replying::reply;
use crate::session_states::Parts;
use crate::sessions::{ask, copy_pins, enter, pin, read, release, settle};
use crate::step::Step;
use graph_types::{Batch, Edge};
use std::alloc::AllocError;

/// An event, and what stays true at every moment.
pub(crate) fn keep(parts: &mut Parts, event: &Event) -> Result<Step, AllocError>
    requires { IsCore (state_of parts.old) }
    ensures steps { IfOk result (λ outcome. Steps (state_of parts.old) event.now outcome (state_of parts.new)) }
    ensures unchanged { OnErr result (state_of parts.new ≡ state_of parts.old) }
    ensures memory { OnErr result (IsTrue (takes_memory event.now)) }
    ensures kept { IsCore (state_of parts.new) }
    ensures sessions { length parts.new.sessions.items ≡ length parts.old.sessions.items }
{
    let outcome = advance(parts, event)?;
    Ok(outcome)
}

/// An event.
fn advance(parts: &mut Parts, event: &Event) -> Result<Step, AllocError>
    requires { IsCore (state_of parts.old) }
    ensures steps { IfOk result (λ outcome. Steps (state_of parts.old) event.now outcome (state_of parts.new)) }
    ensures unchanged { OnErr result (state_of parts.new ≡ state_of parts.old) }
    ensures memory { OnErr result (IsTrue (takes_memory event.now)) }
    ensures contents { HasContents parts.new.opening parts.new.versions.items }
{
    match event {
        Event::Take(block) => Ok(take_block(&mut parts.status, *block)),
        Event::Fill(block, edges) => fill(parts, *block, edges.as_slice()),
        Event::Post(batch, blocks) => post(parts, batch, blocks.as_slice()),
        Event::Floor => Ok(raise_floor(parts)),
        Event::Recycle(block) => Ok(recycle_block(&mut parts.status, &parts.copy, *block)),
        Event::Pin(session) => Ok(pin(&mut parts.sessions, *session, parts.floor)),
        Event::Enter(session) => {
            let last = parts.versions.len() as u64;
            Ok(enter(&mut parts.sessions, *session, last))
        }
        Event::Settle(session) => Ok(settle(&mut parts.sessions, *session)),
        Event::Ask(session, request) => ask(parts.alloc, &mut parts.sessions, *session, request),
        Event::Read(session) => read(
            parts.alloc,
            &parts.opening,
            parts.heap.as_slice(),
            parts.versions.as_slice(),
            &mut parts.sessions,
            *session,
        ),
        Event::Reply(session) => reply(
            parts.alloc,
            &parts.opening,
            parts.versions.as_slice(),
            &mut parts.sessions,
            &mut parts.replies,
            *session,
        ),
        Event::Release(session) => Ok(release(&mut parts.sessions, *session)),
    }
}

fn fill(parts: &mut Parts, block: usize, edges: &[Edge]) -> Result<Step, AllocError>
    requires { IsCore (state_of parts.old) }
    ensures steps { IfOk result (λ outcome. Steps (state_of parts.old) (Event.Fill block edges.now) outcome
        (state_of parts.new)) }
    ensures unchanged { OnErr result (state_of parts.new ≡ state_of parts.old) }
    ensures contents { HasContents parts.new.opening parts.new.versions.items }
{
    let step = fill_block(
        parts.alloc,
        parts.status.as_slice(),
        &mut parts.heap,
        block,
        edges,
    )?;
    Ok(step)
}

fn post(parts: &mut Parts, batch: &Batch, blocks: &[usize]) -> Result<Step, AllocError>
    requires { IsCore (state_of parts.old) }
    ensures steps { IfOk result (λ outcome. Steps (state_of parts.old) (Event.Post batch.now blocks.now) outcome
        (state_of parts.new)) }
    ensures unchanged { OnErr result (state_of parts.new ≡ state_of parts.old) }
    ensures contents { HasContents parts.new.opening parts.new.versions.items }
{
    let plan = plan_post(
        parts.alloc,
        &parts.opening,
        parts.heap.as_slice(),
        parts.status.as_slice(),
        parts.versions.as_slice(),
        batch,
        blocks,
    )?;
    let Some((status, version)) = plan else {
        return Ok(Step::Skipped);
    };
    parts.versions.push(version)?;
    parts.status = status;
    Ok(Step::Done)
}

fn raise_floor(parts: &mut Parts) -> Step
    requires { IsCore (state_of parts.old) }
    ensures steps { Steps (state_of parts.old) Event.Floor result (state_of parts.new) }
    ensures contents { HasContents parts.new.opening parts.new.versions.items }
{
    let last = parts.versions.len() as u64;
    let copy = copy_pins(last, parts.sessions.as_slice());
    parts.floor = copy.floor();
    parts.copy = copy;
    Step::Done
}
