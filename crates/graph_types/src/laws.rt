//! Laws about the definitions, as contracts of functions that do nothing.

ghost use Rattle.graph_types.specs.Laws.{HasOneAnswer, HasSomeAnswer, IsFreeOfEdgeOrder, KeepsFirstTime, KeepsNames};
ghost use Rattle.graph_types.specs.Laws.{MeetsNoLimit, Expires, IsFreeOfLimits, KeepLimits, KeepsWeights};

/// A request has one answer over a graph: contents of equal graphs give equal answers, refusals included.
pub fn law_one_answer()
    ensures { HasOneAnswer }
{}

/// Each request has an answer over each content, whatever the limits: no definition of an answer is one that nothing meets.
pub fn law_some_answer()
    ensures { HasSomeAnswer }
{}

/// The order in which a content lists its edges doesn't matter: a content with the same edges in another order
/// is the same graph, and so has the same answers.
pub fn law_edge_order()
    ensures { IsFreeOfEdgeOrder }
{}

/// What a batch leaves is within the limits on names and kinds exactly where it meets neither limit.
#[tactic(auto, using(crate::proofs::LimitsKept::limits_after_all))]
pub fn law_within_limits()
    ensures { MeetsNoLimit }
{}

/// What valid batches leave of a graph whose vertices and kinds are called by names is called by names again.
pub fn law_names_stay_names()
    ensures { KeepsNames }
{}

/// What batches leave of a graph whose weights are within its limit has weights within it again, whatever the operations.
#[tactic(auto, using(crate::proofs::WeightsKept::keeps_weights))]
pub fn law_weights_stay_within()
    ensures { KeepsWeights }
{}

/// An edge that is changed and stays keeps the time of its first insertion.
pub fn law_first_time_stays()
    ensures { KeepsFirstTime }
{}

/// An expiry leaves at each key what was last touched at its time or later, and nothing else; it counts by how many
/// edges the graph is then smaller.
#[tactic(auto, using(crate::proofs::Expiry::expires))]
pub fn law_expiry()
    ensures { Expires }
{}

/// No answer depends on the limits of a graph: graphs of equal names, kinds and edges are answered alike.
#[tactic(auto, using(crate::proofs::LimitsKept::free_of_limits))]
pub fn law_limits_in_no_answer()
    ensures { IsFreeOfLimits }
{}

/// Operations and batches leave the limits of a graph as they were.
#[tactic(auto, using(crate::proofs::LimitsKept::keep_limits))]
pub fn law_limits_stay()
    ensures { KeepLimits }
{}
