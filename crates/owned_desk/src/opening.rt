//! A store of one owner is opened.

ghost use Rattle.std.specs.Prelude.{◌≡◌, ◌≤◌, IfOk};
ghost use Rattle.graph_version.specs.Versions.{empty_version_in};
ghost use Rattle.block_reclamation.specs.Status.{most_blocks};
ghost use Rattle.store_steps.specs.Opening.{opened_desk};
ghost use Rattle.owned_desk.specs.Owned.{opened_owned};

use crate::owned::OwnedDesk;
use desk::Desk;
use graph_types::Limits;
use std::alloc::{AllocError, Global};

impl OwnedDesk {
    /// A store without edges, under these limits, with so many blocks, 16 to 4,293,918,719: version 0, of which nothing is held.
    /// A block has room for 32 edges of one source and one kind, and takes memory once a batch uses it.
    ///
    /// ```
    /// let store = OwnedDesk::open(alloc, Limits::standard(), 1_024)?;
    /// assert_eq!(rt; store.desk().last().number(), 0);
    /// ```
    pub fn open(alloc: Global, limits: Limits, blocks: u32) -> Result<OwnedDesk, AllocError>
        requires least { 16 ≤ blocks }
        requires most { blocks ≤ most_blocks }
        ensures { IfOk result (λ d. d ≡ opened_owned (opened_desk blocks (empty_version_in limits)) 0) }
    {
        Ok(OwnedDesk::over(Desk::open_within(alloc, limits, blocks)?))
    }
}
