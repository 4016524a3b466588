//! A desk that opens anew over its last version.

ghost use Rattle.std.specs.Prelude.{◌≡◌, length, map, IfOk, OnOk, OnErr};
ghost use Rattle.std.specs.Arc.{arc_value};
ghost use Rattle.graph_version.specs.declared.versions.Version.{Version};
ghost use Rattle.graph_version.specs.Rebased.{IsRebased};
ghost use Rattle.graph_version.specs.Rows.{blocks_of, numbers_of};
ghost use Rattle.block_reclamation.specs.declared.status.BlockStatus.TheVariants.{Used};
ghost use Rattle.block_reclamation.specs.Status.{recycled};
ghost use Rattle.block_pool.specs.Pools.{marked};
ghost use Rattle.store_steps.specs.Opening.{IsVersionZero, opened_desk};
ghost use Rattle.desk.specs.Applying.{AreInUseOnce};
ghost use Rattle.desk.specs.Openings.{OpensWith, without_pins};

use crate::desks::Desk;
use crate::journals::Journal;
use crate::last::Last;
use crate::moves::born_blocks;
use crate::told_numbers::ToldNumbers;
use crate::zero::Zero;
use block_pool::Pool;
use block_reclamation::PinCopy;
use graph_version::Version;
use std::alloc::{AllocError, Global};
use std::sync::Arc;

impl Desk {
    /// Opens the desk anew over what its last version holds, in the very rows and blocks: version 0 begins with that content, no
    /// batch is kept, and no block is retired or granted. It takes memory and time by blocks, 4 bytes each, and not by edges;
    /// where batches are kept, also for the content as plain lists. The error is `AllocError` if memory runs out; all is as it was
    /// then.
    ///
    /// ```
    /// desk.reopen()?;
    /// assert_eq!(rt; desk.last().number(), 0);
    /// ```
    pub fn reopen(&mut self) -> Result<(), AllocError>
        ensures zero { OnOk result (IsVersionZero (length self.old.pool) self.new.last) }
        ensures rebased { OnOk result (IsRebased self.old.last self.new.last) }
        ensures desk { OnOk result (self.new ≡ opened_desk (length self.old.pool) self.new.last) }
        ensures unchanged { OnErr result (self.new ≡ self.old) }
    {
        let parts = &mut *self.parts;
        let last = parts.last.version();
        let zero = last.reopened(parts.alloc)?;
        let numbers = numbers_in(parts.alloc, &zero)?;
        let ended = last.number();
        // A version's contract says with its number that it is one.
        let begun = zero.number();
        let opened = ToldNumbers::of(&zero);
        let version = Arc::new(parts.alloc, zero)?;
        reset_pool(&mut parts.pool, numbers.as_slice(), begun, ended);
        parts.opened = opened;
        parts.journal = Journal::new(parts.alloc, version.keeps_batches());
        parts.last = Last::of(version);
        Ok(())
    }

    /// Opens the desk anew over a version 0 that was made apart, of as many blocks as the desk's. What the desk had is given up. It
    /// takes no memory.
    ///
    /// ```
    /// let zero = Zero::over(alloc, desk.blocks(), &other_version)?;
    /// desk.reopen_with(zero);
    /// ```
    pub fn reopen_with(&mut self, zero: Zero)
        requires { OpensWith (length self.old.pool) zero }
        ensures { self.new ≡ opened_desk (length self.old.pool) (arc_value {X = Version} zero.version) }
    {
        let parts = &mut *self.parts;
        let Zero {
            version,
            numbers,
            pool,
        } = zero;
        parts.pool = pool;
        parts.opened = numbers;
        parts.journal = Journal::new(parts.alloc, version.keeps_batches());
        parts.last = Last::of(version);
    }
}

/// The numbers of a version's blocks, source by source.
fn numbers_in(alloc: Global, version: &Version) -> Result<Vec<u32>, AllocError>
    ensures { IfOk result (λ numbers. numbers.items ≡ numbers_of (blocks_of version.now.rows)) }
{
    let mut numbers = Vec::with_capacity(alloc, version.block_count())?;
    for number in version.blocks() {
        numbers.push(number)?;
    }
    Ok(numbers)
}

/// Has blocks in use born with a version, and frees those that were retired up to another one. The bodies of free blocks are given
/// up.
fn reset_pool(pool: &mut Pool, numbers: &[u32], born: u64, last: u64)
    requires { AreInUseOnce numbers.now pool.old }
    ensures { pool.new ≡ map (recycled (without_pins last)) (marked numbers.now (Used born) pool.old) }
{
    born_blocks(pool, numbers, born);
    pool.recycle(&PinCopy {
        last,
        ..PinCopy::none()
    });
    pool.slim(0);
}
