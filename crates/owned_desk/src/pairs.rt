//! Pairs of versions that a desk's owner holds.

ghost use Rattle.std.specs.Prelude.{IfOk, IfErr, Some, Option, MatchOption};
ghost use Rattle.std.specs.Arc.{arc_value};
ghost use Rattle.graph_version.specs.declared.versions.Version.{Version};
ghost use Rattle.owned_desk.specs.Owned.{HoldsNothing, HoldsVersion, IsPairOf, RefusesPair};
ghost use Rattle.owned_desk.specs.Owned.{held_pin};

use crate::errors::PairError;
use crate::owned::{Hold, OwnedDesk, held_pin};
use crate::seats::seat_with;
use graph_version::Version;
use std::sync::Arc;
use version_diff::VersionPair;

impl OwnedDesk {
    /// The versions of two holds, the second of which has no smaller number, with the sources at which their rows may differ: those
    /// that batches after the first one touched. It takes 4 bytes for each such source, and time by the vertices, 4 bytes each.
    ///
    /// `NotHeld` where one of the versions isn't held, `Backwards` where the first has the greater number, and `OutOfMemory`.
    ///
    /// ```
    /// let before = desk.hold()?.hold;
    /// desk.apply(batch)?;
    /// let pair = desk.pair(before, desk.hold()?.hold)?;
    /// assert!(rt; pair.earlier().number() < pair.later().number());
    /// ```
    pub fn pair(&self, first: Hold, second: Hold) -> Result<VersionPair, PairError>
        ensures pair { IfOk result (IsPairOf self.now first second) }
        ensures refused { IfErr result (RefusesPair self.now first second) }
    {
        let Some(earlier) = self.version_of(first) else {
            return Err(PairError::NotHeld);
        };
        let Some(later) = self.version_of(second) else {
            return Err(PairError::NotHeld);
        };
        if second.number < first.number {
            return Err(PairError::Backwards);
        }
        let sources = self.kept.since(self.desk.allocator(), first.number)?;
        let (earlier, later) = (Arc::try_clone(earlier)?, Arc::try_clone(later)?);
        Ok(VersionPair::of(earlier, later, sources))
    }

    /// The version of a hold, if it is held.
    fn version_of(&self, hold: Hold) -> Option<&Arc<Version>>
        ensures { MatchOption result (HoldsNothing self.now hold)
            (λ v. HoldsVersion self.now hold (arc_value {X = Version} v.now)) }
    {
        if hold.opening != self.opening {
            return None;
        }
        let seat = seat_with(&self.board, Some(held_pin(hold.number)))?;
        self.kept.version(seat)
    }
}
