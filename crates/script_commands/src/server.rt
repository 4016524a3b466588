//! The state of a script, and what a command does to it.

ghost use Rattle.std.specs.Prelude.{◌≡◌, ℕ, ◌≢◌, ◌≤◌, [], length, map, replicate, slice_get, string_bytes, ◌++◌, IfOk, IfErr};
ghost use Rattle.std.specs.Prelude.{OnOk, OnErr, None, Ok, Err};
ghost use Rattle.std.specs.List.{range_with_len};
ghost use Rattle.block_reclamation.specs.Board.{no_pins};
ghost use Rattle.graph_version.specs.Versions.{empty_version_in};
ghost use Rattle.graph_version.specs.Rebased.{IsRebased};
ghost use Rattle.store_steps.specs.Opening.{IsVersionZero, opened_desk};
ghost use Rattle.graph_types.specs.Valid.{IsValid};
ghost use Rattle.feed_csv.specs.Commands.{HasValidOp};
ghost use Rattle.stream_store.specs.Refusals.{block_count};
ghost use Rattle.stream_store.specs.Seats.{SeatView, held_version};
ghost use Rattle.script_commands.specs.Servers.{EndsAt, IsServer, LacksReader, Obeys, ShowsServer, pending_of};
ghost use Rattle.script_commands.specs.Servers as servers;
ghost use Rattle.script_commands.specs.Machine.{MovesMachine, StartsMachine};
ghost use Rattle.script_commands.specs.declared.server.Stop.TheVariants.{Memory};
ghost use Rattle.script_commands.specs.States as states;

use crate::slots::Slots;
use batch_apply::PassAll;
use block_reclamation::Board;
use feed_csv::Command;
use graph_types::{AskError, Batch, NamedOp, PushError, Request};
use script_lines::{
    Word, close_line, collect_line, commit_line, open_line, rebase_line, reply_lines, stat_line,
};
use std::alloc::{AllocError, Global};
use std::mem;
use std::sync::Wait;
use std::thread::Threads;
use stream_store::{
    ApplyError, Config, Desk, OpenError, Seat, Session, open_parts, open_parts_from,
};

/// What a record came to: its lines stand in the buffer, or it was refused.
#[derive(Clone, Copy)]
pub enum Response {
    Lines,
    Refused(Word),
}

/// Why a command was not done, which ends a run.
#[derive(Clone, Copy)]
pub enum Stop {
    Memory,
    /// A store was not opened, for this reason.
    Start(OpenError),
}

impl From<AllocError> for Stop {
    ghost from_gives = { λ _ stop. stop ≡ Memory };

    fn from(_refused: AllocError) -> Stop {
        Stop::Memory
    }
}

/// The pending batch, the desk of the store, and what each slot holds.
pub struct Server {
    alloc: Global,
    // How each store of the run is opened.
    config: Config,
    pending: Batch,
    desk: Desk,
    slots: Slots,
}

// Written by hand: who lets one go rests on this function, and not on how each part is let go.
impl Drop for Server {
    fn drop(self) {
        let Server {
            alloc: _alloc,
            config: _config,
            pending: _pending,
            desk: _desk,
            slots: _slots,
        } = self;
    }
}

impl Server {
    /// The state before the first record, over a store of that configuration. `Start` where none was opened, also if memory ran
    /// out.
    pub fn begin<A: AllocGlobal + Wait>(rt: &A, config: Config) -> Result<Server, Stop>
        ensures server { IfOk result IsServer }
        ensures beginning { IfOk result (λ server. ShowsServer server (states.beginning (states.set_up config)).state) }
        ensures machine { IfOk result (StartsMachine config) }
    {
        let (desk, board, seats) = match open_parts(rt, rt.alloc(), config) {
            Ok(parts) => parts,
            Err(error) => return Err(Stop::Start(error)),
        };
        let server = Server::new(rt.alloc(), config, desk, board, seats)?;
        Ok(server)
    }

    /// The same over the parts of an opening: version 0 is the empty graph, all blocks are free, and no slot holds a version.
    fn new(
        alloc: Global,
        config: Config,
        desk: Desk,
        board: Board,
        seats: Vec<Seat>,
    ) -> Result<Server, AllocError>
        requires desk { desk.desk ≡ opened_desk config.blocks (empty_version_in config.limits) }
        requires board { board ≡ no_pins }
        requires seats { length seats.items ≡ config.seats }
        requires few { length seats.items ≤ 16 }
        requires numbers { map (λ (s : SeatView). s.number) seats.items ≡ range_with_len 0 (length seats.items) }
        ensures server { IfOk result IsServer }
        ensures beginning { IfOk result (λ server. ShowsServer server (states.beginning (states.set_up config)).state) }
        ensures machine { IfOk result (StartsMachine config) }
    {
        let slots = Slots::new(alloc, board, seats)?;
        Ok(Server {
            alloc,
            config,
            pending: Batch::new(alloc),
            desk,
            slots,
        })
    }

    /// How many operations are pending.
    pub fn pending(&self) -> usize
        ensures { result ≡ length (pending_of self.now) }
    {
        self.pending.len()
    }

    /// Does a command. Its lines replace those in the buffer; where it was refused, these mean nothing. `Start` at a rebase alone,
    /// only where its slot holds a version, and with no other reason than `NoReader`.
    pub fn obey<R: Threads + Wait + Sync>(
        &mut self,
        rt: &R,
        command: Command,
        lines: &mut String,
    ) -> Result<Response, Stop>
        requires server { IsServer self.old }
        requires valid { HasValidOp command }
        ensures kept { IsServer self.new }
        ensures obeys { IfOk result (λ response. Obeys command self.old response (string_bytes lines.new) self.new) }
        ensures machine { IfOk result (λ response. MovesMachine command self.old response (string_bytes lines.new) self.new) }
        ensures stops { IfErr result (EndsAt command self.old) }
    {
        lines.clear();
        match command {
            Command::Op(op) => Ok(self.push(op)?),
            Command::Commit => Ok(self.commit(rt, lines)?),
            Command::OpenSlot(slot) => Ok(self.open(slot, lines)?),
            Command::CloseSlot(slot) => Ok(self.close(slot, lines)?),
            Command::Query(slot, request) => Ok(self.ask(slot, &request, lines)?),
            Command::Collect => Ok(self.collect(lines)?),
            Command::Stat => Ok(self.stat(lines)?),
            Command::Rebase(slot) => self.rebase(rt, slot, lines),
        }
    }

    /// Appends an operation to the pending batch.
    fn push(&mut self, op: NamedOp) -> Result<Response, AllocError>
        requires server { IsServer self.old }
        requires valid { IsValid op }
        ensures kept { IsServer self.new }
        ensures obeys { IfOk result (λ response. Obeys (Command.Op op) self.old response [] self.new) }
        ensures machine { IfOk result (λ response. MovesMachine (Command.Op op) self.old response [] self.new) }
    {
        match self.pending.push_valid(op) {
            Ok(()) => Ok(Response::Lines),
            Err(PushError::BatchFull) => Ok(Response::Refused(Word::BatchFull)),
            Err(_) => Err(AllocError),
        }
    }

    /// Applies the pending batch, which is empty afterwards, also where it was refused.
    fn commit<R: Threads + Wait + Sync>(
        &mut self,
        rt: &R,
        lines: &mut String,
    ) -> Result<Response, AllocError>
        requires server { IsServer self.old }
        requires empty { string_bytes lines.old ≡ [] }
        ensures kept { IsServer self.new }
        ensures obeys { IfOk result (λ response. Obeys Command.Commit self.old response (string_bytes lines.new) self.new) }
        ensures machine { IfOk result (λ response. MovesMachine Command.Commit self.old response
            (string_bytes lines.new) self.new) }
    {
        // A feed's batches are mostly of one length, so that the next one need not grow to it.
        let next = Batch::with_room(self.alloc, self.pending.len());
        let batch = mem::replace(&mut self.pending, next);
        match self.desk.apply(rt, &PassAll, batch) {
            Ok(receipt) => {
                commit_line(lines, receipt.number, receipt.outcomes.as_slice())?;
                Ok(Response::Lines)
            }
            Err(error) => {
                let word = apply_word(error)?;
                Ok(Response::Refused(word))
            }
        }
    }

    /// Lets a slot hold the last version.
    fn open(&mut self, slot: u8, lines: &mut String) -> Result<Response, AllocError>
        requires server { IsServer self.old }
        requires empty { string_bytes lines.old ≡ [] }
        ensures kept { IsServer self.new }
        ensures obeys { IfOk result (λ response. Obeys (Command.OpenSlot slot) self.old response
            (string_bytes lines.new) self.new) }
        ensures machine { IfOk result (λ response. MovesMachine (Command.OpenSlot slot) self.old response
            (string_bytes lines.new) self.new) }
    {
        self.desk.facts();
        match self.slots.session(slot) {
            Err(Word::NotOpen) => {
                open_line(lines, slot, self.desk.last().number())?;
                self.slots.acquire(slot, &self.desk)?;
                Ok(Response::Lines)
            }
            Err(word) => Ok(Response::Refused(word)),
            Ok(_) => Ok(Response::Refused(Word::AlreadyOpen)),
        }
    }

    /// Frees a slot.
    fn close(&mut self, slot: u8, lines: &mut String) -> Result<Response, AllocError>
        requires server { IsServer self.old }
        requires empty { string_bytes lines.old ≡ [] }
        ensures kept { IsServer self.new }
        ensures obeys { IfOk result (λ response. Obeys (Command.CloseSlot slot) self.old response
            (string_bytes lines.new) self.new) }
        ensures machine { IfOk result (λ response. MovesMachine (Command.CloseSlot slot) self.old response
            (string_bytes lines.new) self.new) }
    {
        match self.slots.session(slot) {
            Ok(_) => {
                close_line(lines, slot)?;
                self.slots.release(slot);
                Ok(Response::Lines)
            }
            Err(word) => Ok(Response::Refused(word)),
        }
    }

    /// Answers a request over the version that a slot holds.
    fn ask(&self, slot: u8, request: &Request, lines: &mut String) -> Result<Response, AllocError>
        requires server { IsServer self.now }
        requires empty { string_bytes lines.old ≡ [] }
        ensures obeys { IfOk result (λ response. Obeys (Command.Query slot request.now) self.now response
            (string_bytes lines.new) self.now) }
        ensures machine { IfOk result (λ response. MovesMachine (Command.Query slot request.now) self.now response
            (string_bytes lines.new) self.now) }
    {
        let session = match self.slots.session(slot) {
            Ok(session) => session,
            Err(word) => return Ok(Response::Refused(word)),
        };
        match session.ask_in_numbers(request) {
            Ok(reply) => {
                reply_lines(lines, slot, session.version().names(), &reply)?;
                Ok(Response::Lines)
            }
            Err(error) => {
                let word = ask_word(error)?;
                Ok(Response::Refused(word))
            }
        }
    }

    /// Frees the retired blocks that neither the last version nor a held one has.
    fn collect(&mut self, lines: &mut String) -> Result<Response, AllocError>
        requires server { IsServer self.old }
        requires empty { string_bytes lines.old ≡ [] }
        ensures kept { IsServer self.new }
        ensures obeys { IfOk result (λ response. Obeys Command.Collect self.old response (string_bytes lines.new) self.new) }
        ensures machine { IfOk result (λ response. MovesMachine Command.Collect self.old response
            (string_bytes lines.new) self.new) }
    {
        let copy = self.slots.copy(&self.desk);
        let collected = self.desk.collect(&copy);
        collect_line(lines, collected)?;
        Ok(Response::Lines)
    }

    /// Opens a store with the graph that a slot holds, in the place of this one, which stays where none was opened or where there
    /// is no memory for the line.
    fn rebase<R: Wait>(&mut self, rt: &R, slot: u8, lines: &mut String) -> Result<Response, Stop>
        requires server { IsServer self.old }
        requires empty { string_bytes lines.old ≡ [] }
        ensures kept { IsServer self.new }
        ensures obeys { IfOk result (λ response. Obeys (Command.Rebase slot) self.old response
            (string_bytes lines.new) self.new) }
        ensures machine { IfOk result (λ response. MovesMachine (Command.Rebase slot) self.old response
            (string_bytes lines.new) self.new) }
        ensures unchanged { OnErr result (self.new ≡ self.old) }
        ensures stops { IfErr result (EndsAt (Command.Rebase slot) self.old) }
    {
        let session = match self.slots.session(slot) {
            Ok(session) => session,
            Err(word) => return Ok(Response::Refused(word)),
        };
        let (desk, board, seats) = parts_from(rt, self.alloc, self.config, session)?;
        let slots = Slots::new(self.alloc, board, seats)?;
        desk.facts();
        rebase_line(lines, desk.stat())?;
        self.slots = slots;
        let old = mem::replace(&mut self.desk, desk);
        let _last = old.close(rt);
        Ok(Response::Lines)
    }

    /// Tells the numbers of the store.
    fn stat(&self, lines: &mut String) -> Result<Response, AllocError>
        requires server { IsServer self.now }
        requires empty { string_bytes lines.old ≡ [] }
        ensures obeys { IfOk result (λ response. Obeys Command.Stat self.now response (string_bytes lines.new) self.now) }
        ensures machine { IfOk result (λ response. MovesMachine Command.Stat self.now response
            (string_bytes lines.new) self.now) }
    {
        stat_line(lines, self.desk.stat())?;
        Ok(Response::Lines)
    }
}

/// The parts of a store that begins with what a session holds, whose blocks are no more than the store's.
fn parts_from<R: Wait>(
    rt: &R,
    alloc: Global,
    config: Config,
    session: &Session,
) -> Result<(Desk, Board, Vec<Seat>), Stop>
    requires few { block_count (held_version session.now) ≤ config.blocks }
    ensures zero { IfOk result (λ r. IsVersionZero config.blocks r.0.desk.last) }
    ensures rebased { IfOk result (λ r. IsRebased (held_version session.now) r.0.desk.last) }
    ensures desk { IfOk result (λ r. r.0.desk ≡ opened_desk config.blocks r.0.desk.last) }
    ensures board { IfOk result (λ r. r.1 ≡ no_pins) }
    ensures seats { IfOk result (λ r. length r.2.items ≡ config.seats) }
    ensures numbers { IfOk result (λ r. map (λ (s : SeatView). s.number) r.2.items ≡ range_with_len 0 (length r.2.items)) }
    ensures stops { IfErr result LacksReader }
{
    match open_parts_from(rt, alloc, config, session.version()) {
        Ok(parts) => Ok(parts),
        Err(OpenError::PoolEmpty { .. }) => unreachable!(),
        Err(error) => Err(stop_of(error)),
    }
}

/// What ends a run at a rebase whose store was not opened: out of memory has a word of its own.
fn stop_of(error: OpenError) -> Stop
    ensures { result ≡ servers.stop_of error }
{
    match error {
        OpenError::OutOfMemory => Stop::Memory,
        OpenError::NoReader | OpenError::PoolEmpty { .. } => Stop::Start(error),
    }
}

/// The word for a batch's refusal; out of memory has none.
fn apply_word(error: ApplyError) -> Result<Word, AllocError>
    ensures known { OnOk result (error ≢ ApplyError.OutOfMemory) }
    ensures word { IfOk result (λ word. word ≡ states.batch_word error) }
{
    match error {
        ApplyError::BatchLimit => Ok(Word::BatchLimit),
        ApplyError::NamesFull => Ok(Word::NamesFull),
        ApplyError::KindsFull => Ok(Word::KindsFull),
        ApplyError::PoolEmpty { .. } => Ok(Word::PoolEmpty),
        ApplyError::OutOfMemory => Err(AllocError),
    }
}

/// The word for a request's refusal; out of memory has none.
fn ask_word(error: AskError) -> Result<Word, AllocError>
    ensures known { OnOk result (error ≢ AskError.OutOfMemory) }
    ensures word { IfOk result (λ word. word ≡ states.ask_word error) }
{
    match error {
        AskError::BadWindow => Ok(Word::BadWindow),
        AskError::NoKind => Ok(Word::NoKind),
        AskError::NoVertex => Ok(Word::NoVertex),
        AskError::OutOfMemory => Err(AllocError),
    }
}
