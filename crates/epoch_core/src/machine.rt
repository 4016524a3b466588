//! The machine itself.

ghost use Rattle.std.specs.Prelude.{◌≡◌, ℕ, ◌<◌, ◌≤◌, ◌+◌, ◌-◌, ◌^◌, IfOk, OnOk, OnErr, IsTrue, length, min, take};
ghost use Rattle.epoch_core.specs.Worlds as worlds;
ghost use Rattle.epoch_core.specs.Worlds.{IsStart};
ghost use Rattle.epoch_core.specs.Machine.{takes_memory};
ghost use Rattle.epoch_core.specs.Runs.{Steps, Runs, done_in, count_of};
ghost use Rattle.epoch_core.specs.Opened.{IsOpening, IsOpeningIn, opened_state, opened_state_in};
ghost use Rattle.block_reclamation.specs.Status.{most_blocks};

use crate::advancing::keep;
use crate::replying::replies_at;
use crate::session_states::Parts;
use crate::sessions::{held_in, pin_in, state_at};
use crate::start::{opened_parts, parts_at_start};
use crate::step::Step;
use crate::{Event, OutOfMemory};
use block_reclamation::PinCopy;
use graph_types::{AskError, Content, Edge, Limits, List, Reply};
use std::alloc::Global;
use std::marker::Model;

/// The machine of interleavings, as `specs/Machine.antt` defines it: blocks, versions, the floor, a copy
/// of the pins, and sessions.
pub struct Core {
    parts: Parts,
}

// Written by hand: who lets one go rests on this function, and not on how each part is let go.
impl Drop for Core {
    fn drop(self) {
        let Core { parts: _parts } = self;
    }
}

impl Model for Core {
    ghost use Rattle.epoch_core.specs.Worlds.{MachineState};

    ghost Value = { MachineState };

    ghost use Rattle.epoch_core.specs.Cores.{state_of};
    ghost use Rattle.epoch_core.specs.Sound.{IsCore};

    ghost view = { λ core. state_of core.parts };

    ghost invariant = { λ core. IsCore (state_of core.parts) };
}

impl Core {
    /// The machine at its start, which will grow by this allocator: all blocks are free and without edges, there
    /// is version 0 alone, the floor is 0, no session has a pin, and none is copied. There are 1 to 16 sessions and at
    /// least one block, and the limits are the standard ones.
    pub fn new(alloc: Global, sessions: usize, blocks: usize) -> Result<Core, OutOfMemory>
        requires some_sessions { 1 ≤ sessions }
        requires few_sessions { sessions ≤ 16 }
        requires some_blocks { 1 ≤ blocks }
        requires few_blocks { blocks ≤ most_blocks }
        ensures opened { IfOk result (λ core. core ≡ worlds.start sessions blocks) }
        ensures starts { IfOk result (λ core. IsStart core) }
    {
        Core::within(alloc, Limits::standard(), sessions, blocks)
    }

    /// As `new`, under any limits.
    pub fn within(
        alloc: Global,
        limits: Limits,
        sessions: usize,
        blocks: usize,
    ) -> Result<Core, OutOfMemory>
        requires some_sessions { 1 ≤ sessions }
        requires few_sessions { sessions ≤ 16 }
        requires some_blocks { 1 ≤ blocks }
        requires few_blocks { blocks ≤ most_blocks }
        ensures opened { IfOk result (λ core. core ≡ worlds.start_in limits sessions blocks) }
        ensures starts { IfOk result (λ core. IsStart core) }
    {
        let parts = parts_at_start(alloc, limits, sessions, blocks)?;
        Ok(Core { parts })
    }

    /// The machine at its start over a content, whose edges are each once those in the listed blocks: version 0 lists
    /// these blocks, with birth 0, and all others are free and without edges. Else it is as `new` makes it.
    pub fn opened(
        alloc: Global,
        sessions: usize,
        blocks: usize,
        content: &Content,
        lists: &[(u32, List<Edge>)],
    ) -> Result<Core, OutOfMemory>
        requires some_sessions { 1 ≤ sessions }
        requires few_sessions { sessions ≤ 16 }
        requires some_blocks { 1 ≤ blocks }
        requires few_blocks { blocks ≤ most_blocks }
        requires opening { IsOpening blocks content.now lists.now }
        ensures opened { IfOk result (λ core. core ≡ opened_state sessions blocks content.now lists.now) }
        ensures starts { IfOk result (λ core. IsStart core) }
    {
        Core::opened_within(alloc, Limits::standard(), sessions, blocks, content, lists)
    }

    /// As `opened`, under any limits that the content keeps.
    pub fn opened_within(
        alloc: Global,
        limits: Limits,
        sessions: usize,
        blocks: usize,
        content: &Content,
        lists: &[(u32, List<Edge>)],
    ) -> Result<Core, OutOfMemory>
        requires some_sessions { 1 ≤ sessions }
        requires few_sessions { sessions ≤ 16 }
        requires some_blocks { 1 ≤ blocks }
        requires few_blocks { blocks ≤ most_blocks }
        requires opening { IsOpeningIn limits blocks content.now lists.now }
        ensures opened { IfOk result (λ core. core ≡ opened_state_in limits sessions blocks content.now lists.now) }
        ensures starts { IfOk result (λ core. IsStart core) }
    {
        let parts = opened_parts(alloc, limits, sessions, blocks, content, lists)?;
        Ok(Core { parts })
    }

    /// One event: `Done` with its effect, or `Skipped` with nothing changed, as the machine has it. If memory runs out, the machine
    /// is as before.
    pub fn step(&mut self, event: Event) -> Result<Step, OutOfMemory>
        ensures steps { IfOk result (λ outcome. Steps self.old event outcome self.new) }
        ensures unchanged { OnErr result (self.new ≡ self.old) }
        ensures memory { OnErr result (IsTrue (takes_memory event)) }
        ensures sessions { length self.new.world.sessions ≡ length self.old.world.sessions }
    {
        self.advance(&event)
    }

    fn advance(&mut self, event: &Event) -> Result<Step, OutOfMemory>
        ensures steps { IfOk result (λ outcome. Steps self.old event.now outcome self.new) }
        ensures unchanged { OnErr result (self.new ≡ self.old) }
        ensures memory { OnErr result (IsTrue (takes_memory event.now)) }
        ensures sessions { length self.new.world.sessions ≡ length self.old.world.sessions }
    {
        keep(&mut self.parts, event)
    }

    /// The replies to a session, refusals included, the first one first. It takes no memory.
    pub fn replies(&self, session: usize) -> &[Result<Reply, AskError>]
        requires { session < length self.now.world.sessions }
        ensures { result.now ≡ worlds.replies_of self.now session }
    {
        replies_at(self.parts.replies.as_slice(), session)
    }

    /// The floor. It takes no memory.
    pub fn floor(&self) -> u64
        ensures { result ≡ self.now.world.floor }
    {
        self.parts.floor
    }

    /// What the last Floor saw: the last number, and the pins; number 0 and no pin before it. It takes no memory.
    pub fn copied(&self) -> PinCopy
        ensures { result ≡ self.now.world.copy }
    {
        self.parts.copy
    }

    /// The number of the version that a session holds, if it holds one. It takes no memory.
    pub fn held(&self, session: usize) -> Option<u64>
        requires { session < length self.now.world.sessions }
        ensures { result ≡ worlds.held_in (worlds.session_of self.now.world session) }
    {
        held_in(state_at(self.parts.sessions.as_slice(), session))
    }

    /// The pin of a session, if it has one. It takes no memory.
    pub fn pin_of(&self, session: usize) -> Option<u64>
        requires { session < length self.now.world.sessions }
        ensures { result ≡ worlds.pin_in (worlds.session_of self.now.world session) }
    {
        pin_in(state_at(self.parts.sessions.as_slice(), session))
    }
}

/// Runs through the events, and answers how many were done, `u32::MAX` for more than that. If memory runs out, the machine is in
/// the state after the events before the one that was refused memory.
pub fn run(core: &mut Core, events: &[Event]) -> Result<u32, OutOfMemory>
    ensures done { IfOk result (λ n. n ≡ min (done_in events.now core.old.world) (2 ^ 32 - 1)) }
    ensures ran { OnOk result (Runs core.old events.now core.new) }
    ensures refused { OnErr result ((k : ℕ) × (k < length events.now) × Runs core.old (take k events.now) core.new) }
    ensures sessions { length core.new.world.sessions ≡ length core.old.world.sessions }
{
    let mut done = 0u32;
    for event in events {
        let step = core.advance(event)?;
        done = add_done(done, step);
    }
    Ok(done)
}

/// One more, where the step is done; `u32::MAX` stays.
fn add_done(done: u32, step: Step) -> u32
    ensures { result ≡ min (done + count_of step) (2 ^ 32 - 1) }
{
    match step {
        Step::Done => done.saturating_add(1),
        Step::Skipped => done,
    }
}
