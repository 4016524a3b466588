//! Batches that stand in the proofs alone.

ghost use Rattle.std.specs.Prelude.{◌≡◌, ◌++◌, ◌∷◌, []};
ghost use Rattle.graph_version.specs.Batches.{batch_value};

use graph_types::Batch;
use logbook::{Opening as Opens, Pens, Rule, Seen, Start};
use std::marker::Model;
use std::sync::Arc;

/// Any list of batches may be told.
pub struct AnyBatches;

impl Rule<Batch, u64> for AnyBatches {
    ghost use Rattle.std.specs.Prelude.{[]};
    ghost use base.Fml.{ftrue};

    ghost holds = { λ cells log. Unit {0} };

    ghost first = { [] };

    ghost hinted = { λ n log. Unit {0} };

    ghost shows = { λ log. [] };

    ghost keeps = { λ names log. ftrue };

    ghost moves = { λ ask before after answer. Unit {0} };
}

/// A list of batches that stands in the proofs alone: it takes no memory.
pub(crate) struct ToldBatches {
    seen: Seen<Batch, u64, AnyBatches>,
}

// Written by hand: who lets one go rests on this function, and not on how each part is let go.
impl Drop for ToldBatches {
    fn drop(self) {
        let ToldBatches { seen: _seen } = self;
    }
}

impl Model for ToldBatches {
    ghost use Rattle.std.specs.Prelude.{List};
    ghost use Rattle.graph_types.specs.declared.batches.NamedOp.{NamedOp};

    ghost Value = { List (List NamedOp) };

    ghost view = { λ told. told.seen.log };
}

/// A list, and a batch to be told after it.
struct Longer {
    told: ToldBatches,
    batch: Arc<Batch>,
}

/// A list that begins with the batch at its end.
struct OneMore;

impl Opens<Longer, Batch> for OneMore {
    ghost use Rattle.std.specs.Prelude.{◌++◌, ◌∷◌, []};
    ghost use Rattle.graph_version.specs.Batches.{batch_value};

    ghost log = { λ count longer. longer.told ++ batch_value longer.batch ∷ [] };
}

impl ToldBatches {
    /// No batch.
    pub(crate) fn none() -> ToldBatches
        ensures { result ≡ [] }
    {
        let (seen, _first, _second) = Seen::open(Start::alone(), 0, 0);
        ToldBatches { seen }
    }

    /// The same list.
    pub(crate) fn share(&self) -> ToldBatches
        ensures { result ≡ self.now }
    {
        ToldBatches {
            seen: self.seen.again(),
        }
    }

    /// The list with one batch more, and the batch.
    pub(crate) fn and(self, batch: Arc<Batch>) -> (ToldBatches, Arc<Batch>)
        ensures told { result.0 ≡ self ++ batch_value batch ∷ [] }
        ensures batch { batch_value result.1 ≡ batch_value batch }
    {
        let longer = Longer { told: self, batch };
        let (seen, _pens): (Seen<Batch, u64, AnyBatches>, Pens) = Seen::open_row::<Longer, OneMore>(
            &longer,
            Start::alone(),
            0,
        );
        let Longer { told: _told, batch } = longer;
        (ToldBatches { seen }, batch)
    }
}
