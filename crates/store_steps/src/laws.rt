//! The laws of the journal, the desk and the board, as contracts of functions that do nothing.

ghost use Rattle.std.specs.Prelude.{◌≡◌, ℕ, ◌+◌, ◌≤◌, List, [], ◌∷◌, ◌++◌, length, true, false, None};
ghost use Rattle.std.specs.Option.{option_and_then};
ghost use Rattle.graph_types.specs.Graph.{graph_in};
ghost use Rattle.graph_types.specs.Limits.{LimitsView, AreLimits};
ghost use Rattle.graph_types.specs.declared.contents.Content.{Content};
ghost use Rattle.graph_types.specs.declared.batches.NamedOp.{NamedOp};
ghost use Rattle.graph_version.specs.Rows.{numbers_of};
ghost use Rattle.graph_version.specs.Versions.{VersionView, empty_version_in};
ghost use Rattle.block_reclamation.specs.Status.{is_among};
ghost use Rattle.block_reclamation.specs.declared.copies.PinCopy.{PinCopy};
ghost use Rattle.epoch_core.specs.Worlds.{MachineState, IsStart, start_world_in};
ghost use Rattle.block_pool.specs.Pools.{retired, is_free_at, marked, changed_numbers, is_used_at, AreFree};
ghost use Rattle.block_reclamation.specs.declared.status.BlockStatus.TheVariants.{Free, Granted, Used};
ghost use Rattle.store_steps.specs.Journal.{Entry, Applied, Ledger, entered, replay, is_legal, after_entry};
ghost use Rattle.store_steps.specs.Desks.{DeskView, IsDesk, IsCollected, CollectedCounts, ledger_of};
ghost use Rattle.store_steps.specs.Steps.{Simulates, SimulatesAt, posting, recycling};
ghost use Rattle.store_steps.specs.Acceptances.{Application, IsAppliedTo, Acceptance, IsAccepted, AcceptedCounts};
ghost use Rattle.store_steps.specs.Acceptances.{KeepsUntaken, acceptance_of, desk_after, applied_entry};
ghost use Rattle.store_steps.specs.Boards.{PinsAsMachine, SettlesAsMachine, UnpinsAsMachine, RaisesAsMachine};
ghost use Rattle.store_steps.specs.Histories.{DoneIsRun, ReadersAreUnseen};
ghost use Rattle.store_steps.specs.Opening.{IsVersionZero, OpensAsMachine, OpensBlank, opened_desk};
ghost use Rattle.store_steps.specs.Reached.{IsReached, StaysReached, opened_store};
ghost use Rattle.store_steps.specs.Held.{CollectionIsExact, HeldIsSnapshot};
ghost use Rattle.store_steps.specs.Dates.{AreDated};
ghost use Rattle.store_steps.specs.Merges.{LocksAreOneRun};
ghost use Rattle.store_steps.specs.Examples.{AreExamples};

/// Replay of a journal.
///
/// - `appended`: a journal with one entry more replays to that entry entered into what the journal leaves.
/// - `taken_is_free`, `dropped_is_listed`: no batch is entered that takes a block that isn't free, or drops one that
///   isn't the last version's.
pub fn law_journal()
    ensures appended { (es : List Entry) (e : Entry) (l : Ledger) → replay (es ++ e ∷ []) l
        ≡ option_and_then (λ m. entered m e) (replay es l) }
    ensures taken_is_free { (l : Ledger) (batch : List NamedOp) (taken dropped : List ℕ) (n : ℕ)
        → is_among n taken ≡ true → is_free_at l.pool n ≡ false → entered l (Applied batch taken dropped) ≡ None }
    ensures dropped_is_listed { (l : Ledger) (batch : List NamedOp) (taken dropped : List ℕ) (n : ℕ)
        → is_among n dropped ≡ true → is_used_at l.pool n ≡ false → entered l (Applied batch taken dropped) ≡ None }
{}

/// A batch that was applied to a desk's last version with granted blocks, all of them free in the desk's pool.
///
/// - `accepted`: the desk with the new version, the journal's entry and the blocks exchanged has accepted the batch, and
///   nothing else: its layout is the layout rule's, it took and dropped as many blocks as the rule says, and the machine
///   simulates it.
/// - `desk`: it is a desk: its journal replays to what it shows.
/// - `moves`: its pool is what the moves of blocks leave, one set after another: all the blocks granted, the taken ones born
///   with the new version's number, the dropped ones retired with it, the unused ones given back.
///
/// Two desks, however they were made, where the batch's entry is legal in the ledger of the first and leaves that of the second.
///
/// - `counts`: free falls by as many blocks as the batch takes, and retired grows by as many as it drops, each with its birth
///   and the new version's number.
/// - `steps`: if both replay, have one opening, and share each block that wasn't taken, then in each world of the machine that
///   the first desk shows, Take and Fill of each taken block and one Post of the batch are all done, and leave a world that the
///   second desk shows.
pub fn law_accepted()
    ensures accepted { (d : DeskView) (a : Application) → IsDesk d → AreFree d.pool a.granted → IsAppliedTo d.last a
        → IsAccepted (acceptance_of d a) }
    ensures desk { (d : DeskView) (a : Application) → IsDesk d → AreFree d.pool a.granted → IsAppliedTo d.last a
        → IsDesk (desk_after d a) }
    ensures moves { (d : DeskView) (a : Application) → IsDesk d → AreFree d.pool a.granted → IsAppliedTo d.last a
        → marked a.unused Free (changed_numbers (retired (length d.last.batches + 1)) (numbers_of a.dropped)
        (marked a.taken (Used (length d.last.batches + 1)) (marked a.granted Granted d.pool)))
        ≡ (desk_after d a).pool }
    ensures counts { (a : Acceptance) → is_legal (ledger_of a.old) (applied_entry a) ≡ true
        → ledger_of a.new ≡ after_entry (ledger_of a.old) (applied_entry a) → AcceptedCounts a }
    ensures steps { (a : Acceptance) → IsDesk a.old → IsDesk a.new → a.new.opened ≡ a.old.opened
        → a.new.last.opening ≡ a.old.last.opening → is_legal (ledger_of a.old) (applied_entry a) ≡ true
        → ledger_of a.new ≡ after_entry (ledger_of a.old) (applied_entry a) → KeepsUntaken a
        → Simulates a.old (posting a.new.last a.batch a.taken) a.new }
{}

/// A collection by a copy of the pins.
///
/// - `desk`: it leaves a desk, where the copy's last number is at most the number of batches.
/// - `steps`: in each world of the machine with this copy that the desk showed, Recycle of each retired block that the copy
///   doesn't need is done, which leaves a world that the new desk shows, and no further block goes.
/// - `counts`: free grows, and retired falls, by as many retired blocks as the copy doesn't need; it needs those that stay.
pub fn law_collected()
    ensures desk { (old new : DeskView) (copy : PinCopy) → IsDesk old → copy.last ≤ length old.last.batches
        → IsCollected old copy new → IsDesk new }
    ensures steps { (old new : DeskView) (copy : PinCopy)
        → IsCollected old copy new → SimulatesAt copy old (recycling copy old.pool) new }
    ensures counts { (old new : DeskView) (copy : PinCopy) → IsCollected old copy new → CollectedCounts old copy new }
{}

/// What `Board::pin`, `settle` with the number that the session holds, `unpin` and `raise` with the last number leave of
/// a board is what Pin, Settle, Release and Floor leave of each world that the board shows, where these are done.
pub fn law_board_steps()
    ensures pins { PinsAsMachine }
    ensures settles { SettlesAsMachine }
    ensures unpins { UnpinsAsMachine }
    ensures raises { RaisesAsMachine }
{}

/// At its opening the desk is one, and desk and board show the machine's start, whatever the numbers of sessions and
/// blocks.
///
/// - `opened`: over a version without batches, which becomes version 0, in the machine too.
/// - `blank`: over the version without blocks, where the machine starts with all blocks free.
pub fn law_opening_shown()
    ensures opened { (sessions blocks : ℕ) (v : VersionView) (content : Content) → IsVersionZero blocks v
        → graph_in v.opening.limits content ≡ v.opening → OpensAsMachine sessions blocks v content }
    ensures blank { (limits : LimitsView) → AreLimits limits → (sessions blocks : ℕ) → OpensBlank limits sessions blocks }
{}

/// Events that are all done are a run of the machine; and a session's entering, asking, reading and replying change
/// nothing of what the desk and the board show.
pub fn law_histories()
    ensures runs { DoneIsRun }
    ensures readers { ReadersAreUnseen }
{}

/// From the opening on the desk and the board together show a world that a run of the machine leaves, whose events are
/// those of the calls: after each accepted batch, each collection by the copy made last, each raised floor, each seat
/// pinned, settled at the number that its session holds, or unpinned, and each step of a reader.
///
/// - `reached`: from each of the machine's starts.
/// - `blank`: the opening over no blocks is one, where all blocks are free.
pub fn law_stays_reached()
    ensures reached { (start : MachineState) → IsStart start → StaysReached start.world }
    ensures blank { (limits : LimitsView) → AreLimits limits → (sessions blocks : ℕ)
        → IsReached (start_world_in limits sessions blocks) [] (opened_store (opened_desk blocks (empty_version_in limits))) }
{}

/// Held snapshots, where the desk and the board show what a run of the machine leaves.
///
/// - `snapshots`: the blocks of the version that a session holds have, each once, the edges that the desk's first batches
///   leave, as many batches as the version's number says, however many were accepted since; and none of these blocks is
///   free, or would be freed by a collection by the copy made last.
/// - `collections`: where each pinned session has settled, and the floor is raised and the desk then collects by the copy
///   made so, a block is still retired exactly where some session's held version lists it and the last version doesn't.
pub fn law_held_versions()
    ensures snapshots { HeldIsSnapshot }
    ensures collections { CollectionIsExact }
{}

/// The numbers that a desk's blocks carry: no block is left granted, a birth is the number of a version that a batch left, or 0
/// of a block that the desk opened with, and a retirement comes after the birth and is never above the last version's number.
/// So a copy of the pins whose last number is the desk's needs a retired block for its pins alone.
pub fn law_dated()
    ensures { (d : DeskView) → IsDesk d → AreDated d.opened (length d.last.batches) d.pool }
{}

/// Two locks, one run: a list of the desk's calls, and a list of the board's with the questions of sessions, each known alone,
/// have one order that is a run of the machine, if both lists have the same raises with the same copies of the pins.
///
/// - The order keeps that of the desk's calls and, for each seat, that of its calls, its questions and the raises. Between two
///   raises calls of different seats may change places. A session enters where the version that it settles at is the last one.
/// - The events of each call are all done, and reach what the call leaves of the store. A seat that settles holds the version
///   of that number, and the machine replies to each question with the answer that the session got.
/// - In the end desk and board are those that the two lists leave.
/// - It assumes that each entry gives at least the version that the raise before its pin saw, at least what the seat entered
///   before, and a version that is posted by the next raise; and that the answer to a question is one over its version.
pub fn law_merges()
    ensures { LocksAreOneRun }
{}

/// Small stores worked out by hand: journals that replay and journals that don't, a desk and a world that it shows, the
/// events of a batch and of a collection, and a board beside sessions.
pub fn law_examples()
    ensures { AreExamples }
{}
