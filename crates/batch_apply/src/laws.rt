//! Shards together are the batch.

ghost use Rattle.std.specs.Prelude.{◌≡◌, ◌+◌, ◌<◌, ◌≤◌, ◌==◌, ◌%◌, true, ℕ, List, length, count_by, map, flat_map, replicate, All};
ghost use Rattle.std.specs.Prelude.{if◌then◌else◌, [], ◌∷◌};
ghost use Rattle.std.specs.List.{sum_by, list_any, AllZip};
ghost use Rattle.graph_types.specs.Step.{after_all, is_expire};
ghost use Rattle.edge_block.specs.Slots.{BlockView};
ghost use Rattle.batch_shards.specs.declared.shard.ShardDone.{ShardDone};
ghost use Rattle.graph_types.specs.Graph.{Graph};
ghost use Rattle.graph_types.specs.declared.batches.NamedOp.{NamedOp};
ghost use Rattle.graph_types.specs.declared.batches.Outcome.TheVariants.{Absent};
ghost use Rattle.edge_block.specs.Rows.{Shape, OpenBlock, shape_of};
ghost use Rattle.edge_block.specs.Batches.{Resolved, resolved, rows_all, sum_below, taken_by, dropped_by, outcomes_all};
ghost use Rattle.edge_block.specs.Batches.{opened_rows, layout_after, is_in_shard, HasEndsWithin, IsLayoutOf};
ghost use Rattle.graph_version.specs.Rows.{row_of, blocks_of};
ghost use Rattle.batch_apply.specs.Shards.{IsShardOf};
ghost use Rattle.batch_apply.specs.Planned.{IsPlan};
ghost use Rattle.batch_apply.specs.declared.plans.Plan.{Plan};
ghost use Rattle.batch_apply.specs.Shards.{ArePlanned};
ghost use Rattle.batch_shards.specs.Done.{IsShardDone, layout_by, sources_in, steps_in};
ghost use Rattle.batch_shards.specs.declared.shard.Shard.{Shard};
ghost use Rattle.batch_apply.specs.Plans.{written_all, results};
ghost use Rattle.graph_types.specs.Outcomes.{told};
ghost use Rattle.batch_shards.specs.Spending.{needed};
ghost use Rattle.batch_apply.specs.Examples.{two_rows, three_steps};
ghost use Rattle.batch_shards.specs.Closing.{row_values};

/// The outcomes of all shards, put together at their places, are the batch's, where an expiry counts the edges of all their
/// sources, and the program tells counts modulo 2^64.
#[tactic(auto, using(crate::proofs::Written::all_written))]
pub fn law_all_written()
    ensures { (workers : ℕ) → 0 < workers → (shards : List (List ℕ)) → length shards ≡ workers → (rs : List Resolved)
        (rows : ℕ → List OpenBlock)
        → written_all workers 0 shards rs rows (replicate (length rs) Absent)
        ≡ map told (outcomes_all (flat_map (λ s. s) shards) rs rows) }
{}

/// A sum over different numbers below n is one over all numbers below n, where the others add nothing.
#[tactic(auto, using(edge_block::proofs::BatchSums::sum_all))]
pub fn law_sum_all()
    ensures { (f : ℕ → ℕ) (n : ℕ) (xs : List ℕ) → ((m : ℕ) → count_by (λ x. x == m) xs ≤ 1) → All (λ x. x < n) xs
        → ((m : ℕ) → m < n → count_by (λ x. x == m) xs ≡ 0 → f m ≡ 0) → sum_by f xs ≡ sum_below n f }
{}

/// A worker's shard leaves the rows of its sources as the batch does.
pub fn law_worker_rows()
    ensures { (workers w : ℕ) (ops : List NamedOp) (g : Graph) (layout : ℕ → List Shape) (shard : Shard)
        → IsShardOf workers (resolved ops g) layout w shard → (rows : ℕ → List OpenBlock) (source : ℕ)
        → (source % workers == w) ≡ true
        → rows_all (steps_in shard) rows source ≡ rows_all (resolved ops g) rows source }
{}

/// All workers together take and drop as many blocks as the layout rule says of the batch, for every number of workers.
pub fn law_batch_totals()
    ensures { (workers : ℕ) (ops : List NamedOp) (g : Graph) (before : ℕ → List BlockView) (shards : List Shard)
        (dones : List ShardDone)
        → 0 < workers → HasEndsWithin g → IsLayoutOf (layout_by before) g.edges → ArePlanned workers ops g (layout_by before) shards
        → AllZip (IsShardDone before) shards dones
        → (sum_by (λ d. length d.left.taken.items) dones ≡ taken_by ops g (layout_by before) (length (after_all ops g).names))
        × (sum_by (λ d. length d.left.dropped.items) dones ≡ dropped_by ops g (layout_by before)
        (length (after_all ops g).names)) }
{}

/// A worker's outcomes are the batch's at its operations' places, over its sources, and its rows have the layout that the
/// batch leaves.
pub fn law_shard_results()
    ensures outcomes { (workers w : ℕ) (ops : List NamedOp) (g : Graph) (layout : ℕ → List Shape) (before : ℕ → List BlockView)
        (shard : Shard) (done : ShardDone)
        → IsShardOf workers (resolved ops g) layout w shard → IsShardDone before shard done
        → done.outcomes.items ≡ results (is_in_shard workers w) (resolved ops g)
        (map told (outcomes_all (sources_in shard) (resolved ops g) (opened_rows (layout_by before)))) 0 }
    ensures layout { (workers w : ℕ) (ops : List NamedOp) (g : Graph) (layout : ℕ → List Shape) (before : ℕ → List BlockView)
        (shard : Shard) (done : ShardDone)
        → IsShardOf workers (resolved ops g) layout w shard → IsShardDone before shard done
        → All (λ r. map shape_of r.1 ≡ layout_after ops g (layout_by before) r.0) (row_values done.rows.items) }
{}

/// The shards of a plan may take at most one block for each operation of the batch, and, where one of these expires edges, as
/// many more as the version has.
#[tactic(auto, using(crate::proofs::Asked::needs_within))]
pub fn law_needs()
    ensures { (workers : ℕ) (ops : List NamedOp) (g : Graph) (rows : List (List BlockView)) (plan : Plan)
        → IsPlan workers ops g (row_of rows) plan
        → sum_by (λ n. n) plan.needs.items ≤ length ops + (if list_any is_expire ops then length (blocks_of rows) else 0) }
{}

/// Needs worked out: a removal, and two blocks of three, which have an edge from before the later of two expiries.
pub fn law_needs_example()
    ensures { needed (row_of two_rows) (0 ∷ 1 ∷ []) three_steps ≡ 3 }
{}
