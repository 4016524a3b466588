//! What a plan is.

ghost use Rattle.std.specs.Prelude.{◌≡◌, ◌-◌, ◌^◌, min};
ghost use Rattle.std.specs.List.{sum_by};

use batch_shards::Shard;
use vertex_names::NameBook;

/// What the workers of a batch need of it.
#[derive(Drop)]
pub struct Plan {
    /// The vertex names that the batch leaves.
    pub names: NameBook,
    /// The kind names that the batch leaves.
    pub kinds: NameBook,
    /// How many operations the batch has.
    pub operations: usize,
    /// The batch's operations by worker: a shard for each worker, in order, without fresh blocks.
    pub shards: Vec<Shard>,
    /// How many fresh blocks each shard may take: one for each operation on an edge, and one for each block of its rows
    /// with an edge from before the greatest time of the expiries.
    pub needs: Vec<usize>,
}

impl Plan {
    /// How many fresh blocks all shards may take together, or the greatest number where they are more.
    pub fn blocks_needed(&self) -> usize
        ensures { result ≡ min (sum_by (λ n. n) self.now.needs.items) (2 ^ 64 - 1) }
    {
        let mut all = 0_usize;
        for need in &self.needs {
            all = all.saturating_add(*need);
        }
        all
    }
}
