//! Pages of batches.

ghost use Rattle.std.specs.Prelude.{◌≡◌, ◌++◌, ◌∷◌, [], slice_get, option_copied, IfOk, OnOk, OnErr};
ghost use Rattle.graph_version.specs.Batches.{batch_value};

use graph_types::Batch;
use std::alloc::{AllocError, Global};
use std::marker::Model;
use std::sync::Arc;
use std::vec::VecCloneMethods;

/// How many batches stand in one page.
pub(crate) const PAGE: usize = 16;

/// At most 16 batches that follow one another.
pub(crate) struct BatchPage {
    batches: Vec<Arc<Batch>>,
}

// By hand, so that who lets one go need not take it apart.
impl Drop for BatchPage {
    fn drop(self) {
        let BatchPage { batches: _batches } = self;
    }
}

impl Model for BatchPage {
    ghost use Rattle.std.specs.Prelude.{List, map};
    ghost use Rattle.graph_types.specs.declared.batches.NamedOp.{NamedOp};
    ghost use Rattle.graph_version.specs.Batches.{batch_value};

    ghost Value = { List (List NamedOp) };

    ghost view = { λ page. map batch_value page.batches.items };
}

impl Clone for BatchPage {
    ghost is_clone = { λ page copy. copy ≡ page };

    // With room for all that a page can have, so that the push behind a copy asks for no memory.
    fn clone(&self) -> Result<BatchPage, AllocError> {
        let mut batches = Vec::with_capacity(*self.batches.allocator(), PAGE)?;
        VecCloneMethods::extend_from_slice(&mut batches, &self.batches)?;
        Ok(BatchPage { batches })
    }
}

impl BatchPage {
    /// The page of one batch.
    pub(crate) fn of(alloc: Global, batch: Arc<Batch>) -> Result<BatchPage, AllocError>
        ensures { IfOk result (λ page. page ≡ batch_value batch ∷ []) }
    {
        let mut batches = Vec::new(alloc);
        batches.push(batch)?;
        Ok(BatchPage { batches })
    }

    /// The batch at a place.
    pub(crate) fn get(&self, place: usize) -> Option<&Batch>
        ensures { option_copied result ≡ slice_get self.now place }
    {
        let batch = self.batches.get(place)?;
        Some(&**batch)
    }

    /// One more batch.
    pub(crate) fn push(&mut self, batch: Arc<Batch>) -> Result<(), AllocError>
        ensures pushed { OnOk result (self.new ≡ self.old ++ batch_value batch ∷ []) }
        ensures unchanged { OnErr result (self.new ≡ self.old) }
    {
        self.batches.push(batch)?;
        Ok(())
    }
}
