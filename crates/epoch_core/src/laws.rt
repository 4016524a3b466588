//! The laws of the machine, as contracts of functions that do nothing.

ghost use Rattle.epoch_core.specs.Laws.{RepliesAreAnswers, AgreeingRunsReplyAlike, AlwaysFillsNoHeldBlock, PinsAlwaysInOrder};
ghost use Rattle.epoch_core.specs.Laws.{BlocksAlwaysPartitioned, CollectionsLeaveWhatPinsNeed, CollectionsLeaveNoneUnpinned};
ghost use Rattle.epoch_core.specs.Laws.{CollectionsLeaveWhatIsHeld, CollectionsLeaveWhatMayBeHeld, PostsByItsRule};
ghost use Rattle.epoch_core.specs.Examples.{AreExamples};

/// Snapshot isolation, for machines of every size, every opening graph and all lists of events from a start.
///
/// - `answers`, in one world: the replies to a session are, one by one, the answers to the requests of its
///   holdings, each over what the batches up to the held version leave, refusals by name included.
/// - `two_worlds`: where two lists of events, from any two starts, agree for a session, it has the same list of
///   replies in both. They agree where the session has as many holdings in both, and the k-th ones hold versions
///   of equal content and have equal lists of requests that were replied to; they may differ in all else: the
///   numbers of versions, the blocks, the batches, the opening, and what other sessions do.
///
/// It says nothing of time, of progress, or of when a version becomes visible.
pub fn law_isolation()
    ensures answers { RepliesAreAnswers }
    ensures two_worlds { AgreeingRunsReplyAlike }
{}

/// Blocks and pins, at every moment of every list of events from a start, for machines of every size.
///
/// - `fills`: no Fill that is done names a block in the list of a version that some session holds.
/// - `pins`: the floor is at most each pin and at most the last number, and a holder's pin is at most the number
///   of its version.
/// - `partition`: each block number is free, granted, retired or listed by the last version, and only one of these;
///   no other number is any of these, and the last version lists no block twice.
pub fn law_epoch()
    ensures fills { AlwaysFillsNoHeldBlock }
    ensures pins { PinsAlwaysInOrder }
    ensures partition { BlocksAlwaysPartitioned }
{}

/// What a whole collection leaves, at every moment of every list of events from a start: after a Floor and a Recycle of
/// each retired block, with nothing between.
///
/// - `left`: the blocks still retired are exactly those that a settled pin needs, from the birth to below the
///   retirement, or an unsettled pin below the retirement.
/// - `none`: where no session is pinned, none is left.
pub fn law_collection()
    ensures left { CollectionsLeaveWhatPinsNeed }
    ensures none { CollectionsLeaveNoneUnpinned }
{}

/// A whole collection is exact by versions, at every moment of every list of events from a start: it frees as much as
/// counting the holders of each block would, though it compares pins with births and retirements alone.
///
/// - `held`: where each pinned session has settled, a block is still retired exactly where some session's held version
///   lists it and the last version doesn't.
/// - `may_be_held`: with sessions that haven't settled, a retired block is left exactly where a held version lists it, or
///   a version that such a session may come to hold: one from its pin on.
pub fn law_exact_collection()
    ensures held { CollectionsLeaveWhatIsHeld }
    ensures may_be_held { CollectionsLeaveWhatMayBeHeld }
{}

/// The rule of a Post: in every world it is done exactly where there are fewer batches than its limits allow, each block is
/// granted or of the last version, none is listed twice, the batch meets no limit on names or kinds, and the edges in
/// the blocks, taken together, are each once the edges that the batch leaves of the last version.
pub fn law_post()
    ensures { PostsByItsRule }
{}

/// Small runs, written out by the rules of the events: what a session holds and is answered in them, two machines of
/// different sizes and batches that agree for a session, runs that don't, and what a Post makes of blocks.
pub fn law_examples()
    ensures { AreExamples }
{}
