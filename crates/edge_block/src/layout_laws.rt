//! Laws of rows, batches and shards.

ghost use Rattle.std.specs.Prelude.{◌≡◌, ◌<◌, ◌≤◌, ◌++◌, ℕ, List, length, true, ◌%◌, ◌==◌, filter, All};
ghost use Rattle.std.specs.List.{range_with_len};
ghost use Rattle.std.specs.Option.{is_some};
ghost use Rattle.std.specs.FinMap.{FinMap, get};
ghost use Rattle.graph_types.specs.Graph.{Graph, Key, Stamp, key_cmp};
ghost use Rattle.graph_types.specs.Step.{after_all, outcomes, expired, count_before};
ghost use Rattle.graph_types.specs.declared.batches.NamedOp.{NamedOp};
ghost use Rattle.graph_types.specs.declared.batches.Outcome.TheVariants.{Expired};
ghost use Rattle.edge_block.specs.Examples.{AreExamples};
ghost use Rattle.edge_block.specs.Rows.{Shape, OpenBlock, row_end, expire_row};
ghost use Rattle.edge_block.specs.Batches.{Resolved, HasEndsWithin, IsLayoutOf, acts_on, layout_after, outcomes_all, resolved, resolved_by};
ghost use Rattle.edge_block.specs.Batches.{InAll, opened_rows, rows_all, outcome_in};
ghost use Rattle.edge_block.specs.Batches.{shard_ops, is_in_shard, picked};
ghost use Rattle.graph_types.specs.Outcomes.{joined};
ghost use Rattle.edge_block.specs.Listed.{edges_below, AreListedOnce};

/// A batch leaves a layout of the graph that it leaves, and the outcomes in its rows are the operation rule's, for
/// every layout of the graph before. An expiry counts the edges of all sources below a number, which is at least that of
/// the names that the batch leaves.
#[tactic(auto, using(crate::proofs::GraphLaws::batch_layout))]
pub fn law_batch_layout()
    ensures { (ops : List NamedOp) (g : Graph) (layout : ℕ → List Shape) (n : ℕ) → HasEndsWithin g → IsLayoutOf layout g.edges
        → length (after_all ops g).names ≤ n
        → IsLayoutOf (layout_after ops g layout) (after_all ops g).edges
        × (outcomes_all (range_with_len 0 n) (resolved ops g) (opened_rows layout) ≡ outcomes ops g)
        × HasEndsWithin (after_all ops g) }
{}

/// An expiry alone leaves a layout of the edges that stay, and counts those that go, over so many sources that each edge is
/// of one of them.
#[tactic(auto, using(crate::proofs::GraphLaws::expiry_layout))]
pub fn law_expiry_layout()
    ensures { (time : ℕ) (edges : FinMap key_cmp Stamp) (layout : ℕ → List Shape) (n : ℕ) → IsLayoutOf layout edges
        → ((k : Key) → is_some (get edges k) ≡ true → k.source < n)
        → IsLayoutOf (λ source. row_end (expire_row time (opened_rows layout source))) (expired time edges)
        × (outcome_in (range_with_len 0 n) (InAll time) (opened_rows layout) ≡ Expired (count_before time edges)) }
{}

/// A shard's operations alone leave its sources' rows as the whole batch does, for every number of workers.
#[tactic(auto, using(crate::proofs::ShardLaws::shard_rows))]
pub fn law_shard_rows()
    ensures { (workers w most : ℕ) (ops : List NamedOp) (names kinds : List (List ℕ)) (rows : ℕ → List OpenBlock) (source : ℕ)
        → (source % workers == w) ≡ true
        → rows_all (shard_ops workers w (resolved_by most ops names kinds)) rows source
        ≡ rows_all (resolved_by most ops names kinds) rows source }
{}

/// A shard's outcomes are those that the batch has at the shard's operations, where expiries count the edges of the same
/// sources, all of them the shard's.
#[tactic(auto, using(crate::proofs::ShardLaws::shard_outcomes))]
pub fn law_shard_outcomes()
    ensures { (workers w most : ℕ) (ops : List NamedOp) (names kinds : List (List ℕ)) (rows : ℕ → List OpenBlock) (sources : List ℕ)
        → All (λ s. (s % workers == w) ≡ true) sources
        → outcomes_all sources (shard_ops workers w (resolved_by most ops names kinds)) rows
        ≡ picked (is_in_shard workers w) (resolved_by most ops names kinds) (outcomes_all sources (resolved_by most ops names kinds) rows) }
{}

/// Outcomes over the sources of two lists are those over each of them, taken together: an expiry's counts are added.
#[tactic(auto, using(crate::proofs::ShardLaws::all_together))]
pub fn law_together()
    ensures { (xs ys : List ℕ) (ops : List Resolved) (rows : ℕ → List OpenBlock)
        → outcomes_all (xs ++ ys) ops rows ≡ joined (outcomes_all xs ops rows) (outcomes_all ys ops rows) }
{}

/// A source's row changes by the operations on that source alone.
#[tactic(auto, using(crate::proofs::ShardLaws::source_row))]
pub fn law_source_row()
    ensures { (ops : List Resolved) (rows : ℕ → List OpenBlock) (source : ℕ)
        → rows_all (filter (acts_on source) ops) rows source ≡ rows_all ops rows source }
{}

/// Rows that have a map's edges by look-up list each of them once, and no others, once as many sources are listed as
/// the edges have.
#[tactic(auto, using(crate::proofs::ListedRows::listed_once))]
pub fn law_listed_once()
    ensures { (layout : ℕ → List Shape) (edges : FinMap key_cmp Stamp) (n : ℕ) → IsLayoutOf layout edges
        → ((k : Key) → is_some (get edges k) ≡ true → k.source < n) → AreListedOnce (edges_below n layout) edges }
{}

/// Layouts worked out: a block that fills, the first block with room, the lowest free slot, a block emptied.
pub fn law_examples()
    ensures { AreExamples }
{}
