//! A law of plans.

ghost use Rattle.std.specs.Prelude.{◌<◌, ℕ, List, length, All};
ghost use Rattle.graph_types.specs.Graph.{Graph};
ghost use Rattle.graph_types.specs.Step.{after_all};
ghost use Rattle.graph_types.specs.declared.batches.NamedOp.{NamedOp};
ghost use Rattle.edge_block.specs.Rows.{Shape};
ghost use Rattle.edge_block.specs.Batches.{resolved, HasEndsWithin, IsLayoutOf};
ghost use Rattle.batch_shards.specs.Done.{sources_in};
ghost use Rattle.batch_shards.specs.declared.shard.Shard.{Shard};
ghost use Rattle.batch_apply.specs.Shards.{IsShardOf};

/// The sources of a batch's shards are vertices of the graph that the batch leaves.
pub fn law_sources_within()
    ensures { (workers worker : ℕ) (ops : List NamedOp) (g : Graph) (layout : ℕ → List Shape) (shard : Shard)
        → HasEndsWithin g → IsLayoutOf layout g.edges → IsShardOf workers (resolved ops g) layout worker shard
        → All (λ s. s < length (after_all ops g).names) (sources_in shard) }
{}
