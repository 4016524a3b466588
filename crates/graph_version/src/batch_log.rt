//! The batches of a version: in the proofs all of them, and in memory where they are kept.

ghost use Rattle.std.specs.Prelude.{◌≡◌, ◌<◌, ◌^◌, ◌++◌, ◌∷◌, [], true, List, length, IfOk, MatchOption, OnOk, OnErr};
ghost use Rattle.graph_types.specs.declared.batches.NamedOp.{NamedOp};
ghost use Rattle.graph_version.specs.Batches.{batch_value};
ghost use Rattle.graph_version.specs.Logs.{IsLast};
ghost use Rattle.graph_version.specs.Logs as logs;

use crate::batches::{BatchIter, BatchList};
use crate::told::ToldBatches;
use graph_types::{Batch, Limits};
use std::alloc::{AllocError, Global};
use std::marker::Model;
use std::sync::Arc;

/// The batches of a version. Memory has their number and the last one, and all where they are kept.
pub(crate) struct BatchLog {
    keeps: bool,
    count: u64,
    told: ToldBatches,
    last: Option<Arc<Batch>>,
    kept: BatchList,
}

// Written by hand: who lets one go rests on this function, and not on how each part is let go.
impl Drop for BatchLog {
    fn drop(self) {
        let BatchLog {
            keeps: _keeps,
            count: _count,
            told: _told,
            last: _last,
            kept: _kept,
        } = self;
    }
}

impl Model for BatchLog {
    ghost use Rattle.std.specs.Prelude.{◌≡◌, true, length};
    ghost use Rattle.graph_version.specs.Logs.{LogView, IsLast};

    ghost Value = { LogView };

    ghost view = { λ l. record { keeps = l.keeps; batches = l.told } };

    ghost invariant = { λ l. (l.count ≡ length l.told) × IsLast l.last l.told × (l.keeps ≡ true → l.kept ≡ l.told) };
}

/// Whether a store under these limits keeps its batches.
pub(crate) fn keeps_batches(limits: Limits) -> bool
    ensures { result ≡ logs.keeps_batches limits }
{
    limits.batches() < u32::MAX
}

impl BatchLog {
    ghost use Rattle.graph_version.specs.BatchLending.{batches_left};

    /// No batch yet. It takes no memory.
    pub(crate) fn new(alloc: Global, keeps: bool) -> BatchLog
        ensures { result ≡ record { keeps = keeps; batches = [] } }
    {
        BatchLog {
            keeps,
            count: 0,
            told: ToldBatches::none(),
            last: None,
            kept: BatchList::new(alloc),
        }
    }

    /// Whether memory has all of them.
    pub(crate) fn keeps(&self) -> bool
        ensures { result ≡ self.now.keeps }
    {
        self.keeps
    }

    /// How many batches there are.
    pub(crate) fn len(&self) -> u64
        ensures { result ≡ length self.now.batches }
    {
        self.count
    }

    /// Lends the batches in order, where they are kept.
    pub(crate) fn iter(&self) -> BatchIter<'_>
        ensures { self.now.keeps ≡ true → batches_left result ≡ self.now.batches }
    {
        self.kept.iter()
    }

    /// The last batch, kept or not.
    pub(crate) fn last(&self) -> Option<&Batch>
        ensures { MatchOption result (self.now.batches ≡ [])
            (λ b. (others : List (List NamedOp)) × (self.now.batches ≡ others ++ b.now ∷ [])) }
    {
        match &self.last {
            Some(batch) => Some(&**batch),
            None => None,
        }
    }

    /// Adds a batch. Where batches aren't kept it takes no memory. After a refused growth all is as before.
    pub(crate) fn push(&mut self, batch: Arc<Batch>) -> Result<(), AllocError>
        requires { length self.old.batches < 2 ^ 32 }
        ensures pushed { OnOk result (self.new ≡ record self.old { batches = self.old.batches ++ batch_value batch ∷ [] }) }
        ensures unchanged { OnErr result (self.new ≡ self.old) }
    {
        keep(&mut self.kept, self.keeps, &batch)?;
        let (told, batch) = self.told.share().and(batch);
        self.told = told;
        self.last = Some(batch);
        self.count += 1;
        Ok(())
    }

    /// The same batches.
    pub(crate) fn share(&self) -> Result<BatchLog, AllocError>
        ensures { IfOk result (λ copy. copy ≡ self.now) }
    {
        Ok(BatchLog {
            keeps: self.keeps,
            count: self.count,
            told: self.told.share(),
            last: shared(&self.last)?,
            kept: self.kept.share()?,
        })
    }
}

/// Keeps one batch more, where batches are kept.
fn keep(kept: &mut BatchList, keeps: bool, batch: &Arc<Batch>) -> Result<(), AllocError>
    requires { keeps ≡ true → length kept.old < 2 ^ 32 }
    ensures kept { OnOk result (keeps ≡ true → kept.new ≡ kept.old ++ batch_value batch.now ∷ []) }
    ensures unchanged { OnErr result (kept.new ≡ kept.old) }
{
    if !keeps {
        return Ok(());
    }
    kept.push(Arc::try_clone(batch)?)
}

/// The last batch once more.
fn shared(last: &Option<Arc<Batch>>) -> Result<Option<Arc<Batch>>, AllocError>
    ensures { IfOk result (λ copy. (batches : List (List NamedOp)) → IsLast last.now batches → IsLast copy batches) }
{
    match last {
        Some(batch) => Ok(Some(Arc::try_clone(batch)?)),
        None => Ok(None),
    }
}
