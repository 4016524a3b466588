//! Batches at a desk with one owner.

ghost use Rattle.std.specs.Prelude.{◌≡◌, length, count_by, IfOk, IfErr, OnOk, OnErr, List, Option};
ghost use Rattle.graph_types.specs.Step.{outcomes};
ghost use Rattle.graph_version.specs.Batches.{batch_value};
ghost use Rattle.graph_version.specs.Versions.{content};
ghost use Rattle.batch_apply.specs.Listed.{IsKnown};
ghost use Rattle.block_reclamation.specs.Status.{is_free};
ghost use Rattle.block_reclamation.specs.declared.copies.Pin.{Pin as SeatPin};
ghost use Rattle.store_steps.specs.Acceptances.{Accepts};
ghost use Rattle.owned_desk.specs.Kept.{KeepsVersions};
ghost use Rattle.owned_desk.specs.Machine.{FollowsBatch, HeldAreSnapshots};
ghost use Rattle.desk.specs.Refusals.{Refuses, IsWithin};

use crate::kept::Kept;
use crate::owned::OwnedDesk;
use crate::owned_ready::OwnedReady;
use batch_apply::KnownEnds;
use core::mem::replace_with;
use desk::{Accepted, Ready};
use graph_types::{ApplyError, Batch};
use std::alloc::AllocError;
use std::sync::Arc;

impl OwnedDesk {
    /// Applies a batch, by the caller alone; or refuses it, and leaves all as it was, as [`Desk::apply`] does.
    pub fn apply(&mut self, batch: Arc<Batch>) -> Result<Accepted, ApplyError>
        ensures accepted { OnOk result (Accepts self.old.desk (batch_value batch) self.new.desk) }
        ensures number { IfOk result (λ a. a.number ≡ length self.new.desk.last.batches) }
        ensures outcomes { IfOk result (λ a. a.outcomes ≡ outcomes (batch_value batch) (content self.old.desk.last)) }
        ensures within { OnOk result (IsWithin self.old.desk.last (count_by is_free self.old.desk.pool) (batch_value batch)) }
        ensures refused { IfErr result (Refuses self.old.desk.last (count_by is_free self.old.desk.pool) (batch_value batch)) }
        ensures held { self.new ≡ record self.old { desk = self.new.desk } }
        ensures follows { OnOk result (FollowsBatch self.old (batch_value batch) self.new) }
        ensures snapshots { HeldAreSnapshots self.new }
        ensures unchanged { OnErr result (self.new ≡ self.old) }
    {
        self.apply_known(batch, &KnownEnds::Looked(&[]))
    }

    /// As `apply`, where this is known of the ends of the batch's operations, as [`Desk::apply_known`] does.
    pub fn apply_known(
        &mut self,
        batch: Arc<Batch>,
        known: &KnownEnds<'_>,
    ) -> Result<Accepted, ApplyError>
        requires known { IsKnown (content self.old.desk.last).names (batch_value batch) known.now }
        ensures accepted { OnOk result (Accepts self.old.desk (batch_value batch) self.new.desk) }
        ensures number { IfOk result (λ a. a.number ≡ length self.new.desk.last.batches) }
        ensures outcomes { IfOk result (λ a. a.outcomes ≡ outcomes (batch_value batch) (content self.old.desk.last)) }
        ensures within { OnOk result (IsWithin self.old.desk.last (count_by is_free self.old.desk.pool) (batch_value batch)) }
        ensures refused { IfErr result (Refuses self.old.desk.last (count_by is_free self.old.desk.pool) (batch_value batch)) }
        ensures held { self.new ≡ record self.old { desk = self.new.desk } }
        ensures follows { OnOk result (FollowsBatch self.old (batch_value batch) self.new) }
        ensures snapshots { HeldAreSnapshots self.new }
        ensures unchanged { OnErr result (self.new ≡ self.old) }
    {
        replace_with(self, (batch, known), OwnedDesk::applied)
    }

    /// As `apply_known`, by value.
    fn applied(
        self,
        given: (Arc<Batch>, &KnownEnds<'_>),
    ) -> (OwnedDesk, Result<Accepted, ApplyError>)
        requires known { IsKnown (content self.desk.last).names (batch_value given.0) given.1.now }
        ensures accepted { OnOk result.1 (Accepts self.desk (batch_value given.entry.0) result.0.desk) }
        ensures number { IfOk result.1 (λ a. a.number ≡ length result.0.desk.last.batches) }
        ensures outcomes { IfOk result.1 (λ a. a.outcomes ≡ outcomes (batch_value given.entry.0) (content self.desk.last)) }
        ensures within { OnOk result.1 (IsWithin self.desk.last (count_by is_free self.desk.pool) (batch_value given.entry.0)) }
        ensures refused { IfErr result.1 (Refuses self.desk.last (count_by is_free self.desk.pool) (batch_value given.entry.0)) }
        ensures held { result.0 ≡ record self { desk = result.0.desk } }
        ensures follows { OnOk result.1 (FollowsBatch self (batch_value given.entry.0) result.0) }
        ensures unchanged { OnErr result.1 (result.0 ≡ self) }
    {
        let (batch, known) = given;
        match self.begin_known(batch, known) {
            Ok(ready) => {
                let (desk, accepted) = ready.finish();
                (desk, Ok(accepted))
            }
            Err((desk, error)) => (desk, Err(error)),
        }
    }

    /// Makes a batch ready, by the caller alone; or refuses it, and gives the desk back as it was, as [`Desk::begin`] does.
    ///
    /// ```
    /// let desk = match desk.begin(batch) {
    ///     Ok(ready) => ready.finish().0,
    ///     Err((desk, _error)) => desk,
    /// };
    /// ```
    pub fn begin(self, batch: Arc<Batch>) -> Result<OwnedReady, (OwnedDesk, ApplyError)>
        ensures begun { IfOk result (λ r. (r.old ≡ self) × (r.ops ≡ batch_value batch)) }
        ensures accepts { IfOk result (λ r. Accepts self.desk (batch_value batch) r.new) }
        ensures within { OnOk result (IsWithin self.desk.last (count_by is_free self.desk.pool) (batch_value batch)) }
        ensures refused { IfErr result (λ e. Refuses self.desk.last (count_by is_free self.desk.pool) (batch_value batch) e.1) }
        ensures unchanged { IfErr result (λ e. e.0 ≡ self) }
    {
        self.begin_known(batch, &KnownEnds::Looked(&[]))
    }
}

/// Enters that the batch that is ready touches its sources, if something is held.
pub(crate) fn touch_sources(kept: &mut Kept, ready: &Ready) -> Result<(), AllocError>
    requires { Accepts ready.now.old ready.now.ops ready.now.new }
    ensures versions { kept.new.versions ≡ kept.old.versions }
    ensures before { (pins : List (Option SeatPin)) → KeepsVersions ready.now.old pins kept.old
        → KeepsVersions ready.now.old pins kept.new }
    ensures after { OnOk result ((pins : List (Option SeatPin)) → KeepsVersions ready.now.old pins kept.old
        → KeepsVersions ready.now.new pins kept.new) }
{
    // (with it the version tells what is true of each version)
    let number = ready.version().number();
    kept.touch(ready.sources(), number as u32)
}
