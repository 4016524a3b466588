//! The law of a replay, as the contract of a function that does nothing.

ghost use Rattle.desk_columns.specs.Replay.{LeavesItsBatches, IsCutAnywhere, JoinsParts, IsEnoughWithBase};
ghost use Rattle.desk_columns.specs.Replay.{ReplaysInsertions, TakesEachOnce};

/// Batches that a desk accepts one after another, each as `OwnedDesk::apply` ensures it, with collections and rebases between
/// them: what replaying a journal is.
///
/// - `content`: the desk is left with what the batches leave, one after another, of the content that it had.
/// - `cut`: wherever a journal is cut, the first batches lead to a desk with what they leave, and the others lead on from it.
/// - `joined`: parts that meet are one replay.
/// - `base`: where a desk was opened by columns, as [`open_columns`](crate::open_columns) ensures it, whose operations leave what
///   the first batches leave, the other batches come to the content that all of them come to. The desks' limits on names, kinds
///   and batches may differ, those on weights not.
/// - `insertions`: what [`insert_columns`](crate::insert_columns) comes to is a replay of the insertions before `done`, in
///   batches.
/// - `once`: a producer's batch under a number that was sent before is passed over, and a replay with it comes to what one without
///   it comes to.
pub fn law_replay()
    ensures content { LeavesItsBatches }
    ensures cut { IsCutAnywhere }
    ensures joined { JoinsParts }
    ensures base { IsEnoughWithBase }
    ensures insertions { ReplaysInsertions }
    ensures once { TakesEachOnce }
{}
