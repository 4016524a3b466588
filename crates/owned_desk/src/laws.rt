//! The law of a desk's owner, as the contract of a function that does nothing.

ghost use Rattle.std.specs.Prelude.{◌≡◌, ℕ, ◌≤◌, List, Some};
ghost use Rattle.graph_version.specs.Versions.{VersionView};
ghost use Rattle.epoch_core.specs.Worlds.{World, last_number};
ghost use Rattle.epoch_core.specs.declared.events.Event.{Event};
ghost use Rattle.store_steps.specs.Desks.{IsCollected};
ghost use Rattle.store_steps.specs.Opening.{IsVersionZero, opened_desk};
ghost use Rattle.store_steps.specs.Steps.{all_done};
ghost use Rattle.owned_desk.specs.Owned.{OwnedView, IsOwned, copied, opened_owned};
ghost use Rattle.owned_desk.specs.Machine.{HeldAreSnapshots, IsLeftByRun, IsNumbered, LeavesHeldBlocks, ShowsMachineStart};

/// A desk with one owner, beside the machine of interleavings. The clauses `follows` of the calls of [`OwnedDesk`](crate::OwnedDesk)
/// say which of the machine's events each call is, in any world that the desk shows.
///
/// - `opened`: over a version with which a desk may open, the desk shows a start of the machine.
/// - `runs`: events that are all done go on with a run. So the calls between two openings are one run.
/// - `versions`: the version of a number stays as it is: what a hold gave (its clause `numbered`) is that of its number later on.
/// - `snapshots`: whatever run leads to what the desk shows: the blocks of each held number's version have, each once, the edges
///   that as many batches as the number says left, however many came since; none of these blocks is free.
/// - `collections`: whatever run that is: a collection leaves a block retired exactly if the version of a held number lists it and
///   the last version doesn't.
pub fn law_owned_desk()
    ensures opened { (blocks opening : ℕ) (v : VersionView) → IsVersionZero blocks v
        → ShowsMachineStart (opened_owned (opened_desk blocks v) opening) }
    ensures runs { (w after : World) (events : List Event) → IsLeftByRun w → all_done events w ≡ Some after
        → IsLeftByRun after }
    ensures versions { (w after : World) (events : List Event) (n : ℕ) (v : VersionView) → all_done events w ≡ Some after
        → n ≤ last_number w → IsNumbered w n v → IsNumbered after n v }
    ensures snapshots { (o : OwnedView) → HeldAreSnapshots o }
    ensures collections { (old new : OwnedView) → IsOwned old
        → IsCollected old.desk (copied old.desk old.board) new.desk → LeavesHeldBlocks old new }
{}
