//! Version 0 of a store, before there is a desk.

ghost use Rattle.std.specs.Prelude.{◌≡◌, ◌≤◌, ℕ, IfOk};
ghost use Rattle.std.specs.Arc.{arc_value};
ghost use Rattle.graph_version.specs.declared.versions.Version.{Version};
ghost use Rattle.block_reclamation.specs.Status.{most_blocks};
ghost use Rattle.graph_version.specs.Versions.{empty_version_in};
ghost use Rattle.graph_version.specs.Rebased.{IsRebased};
ghost use Rattle.store_steps.specs.Opening.{IsVersionZero, opened_desk};
ghost use Rattle.desk.specs.Openings.{OpensWith};
ghost use Rattle.desk.specs.Refusals.{block_count};

use crate::moves::born_blocks;
use crate::told_numbers::ToldNumbers;
use block_pool::{Grant, Pool};
use graph_types::Limits;
use graph_version::Version;
use std::alloc::{AllocError, Global};
use std::sync::Arc;

/// Version 0 of a store with the pool that its blocks are of, and their numbers, which the journal replays from.
#[derive(Drop)]
pub struct Zero {
    pub(crate) version: Arc<Version>,
    pub(crate) numbers: ToldNumbers,
    pub(crate) pool: Pool,
}

impl Zero {
    /// The version without batches and blocks, under these limits, and a pool whose blocks are all free.
    pub(crate) fn blank(alloc: Global, limits: Limits, blocks: u32) -> Result<Zero, AllocError>
        requires least { 16 ≤ blocks }
        requires most { blocks ≤ most_blocks }
        ensures opens { IfOk result (OpensWith blocks) }
        ensures version { IfOk result (λ zero. arc_value {X = Version} zero.version ≡ empty_version_in limits) }
    {
        let version = Version::empty_within(alloc, limits);
        Ok(Zero {
            numbers: ToldNumbers::of(&version),
            version: Arc::new(alloc, version)?,
            pool: Pool::new(alloc, blocks)?,
        })
    }

    /// Version 0 and the pool of its blocks, where these were made apart.
    ///
    /// ```
    /// let zero = Zero::of(alloc, version, pool)?;
    /// ```
    pub fn of(alloc: Global, version: Version, pool: Pool) -> Result<Zero, AllocError>
        ensures opens { IfOk result (λ zero. (blocks : ℕ) → IsVersionZero blocks version → pool ≡ (opened_desk blocks version).pool
            → OpensWith blocks zero) }
        ensures version { IfOk result (λ zero. arc_value {X = Version} zero.version ≡ version) }
    {
        let numbers = ToldNumbers::of(&version);
        Ok(Zero {
            version: Arc::new(alloc, version)?,
            numbers,
            pool,
        })
    }

    /// A version that begins with what this one holds, over copies of its blocks, in a pool of so many.
    ///
    /// ```
    /// let zero = Zero::over(alloc, 1_024, &version)?;
    /// ```
    pub fn over(alloc: Global, blocks: u32, version: &Version) -> Result<Zero, AllocError>
        requires least { 16 ≤ blocks }
        requires most { blocks ≤ most_blocks }
        requires room { block_count version.now ≤ blocks }
        ensures opens { IfOk result (OpensWith blocks) }
        ensures rebased { IfOk result (λ zero. IsRebased version.now (arc_value {X = Version} zero.version)) }
    {
        let mut pool = Pool::new(alloc, blocks)?;
        // So many are free, and so only memory can run out.
        let Ok(Grant { numbers, blocks }) = pool.grant(version.block_count() as u32) else {
            return Err(AllocError);
        };
        let zero = version.rebased(version.copied_into(blocks)?)?;
        // A version's contract says with its number that it is one.
        let number = zero.number();
        born_blocks(&mut pool, numbers.as_slice(), number);
        Ok(Zero {
            numbers: ToldNumbers::of(&zero),
            version: Arc::new(alloc, zero)?,
            pool,
        })
    }
}
