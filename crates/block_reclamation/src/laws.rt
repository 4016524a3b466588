//! The laws of status, floor and need, as contracts of functions that do nothing.

ghost use Rattle.std.specs.Prelude.{List};
ghost use Rattle.block_reclamation.specs.declared.status.BlockStatus.{BlockStatus};
ghost use Rattle.block_reclamation.specs.Laws.{IsOneOfFour, ArePartition, FloorIsLeast, FloorSpares, NeedIsMonotone};

/// Each block is exactly one of free, granted, used and retired, so that these part the blocks.
pub fn law_partition()
    ensures one { (status : BlockStatus) → IsOneOfFour status }
    ensures all { (blocks : List BlockStatus) → ArePartition blocks }
{}

/// The floor and the need of a copy of the pins.
///
/// - `least`: the floor is at most the last number and each pin, and is one of them.
/// - `spares`: no block that was retired at latest with the floor is needed.
/// - `monotone`: a block that was born earlier and retired later than a needed one is needed.
pub fn law_need()
    ensures least { FloorIsLeast }
    ensures spares { FloorSpares }
    ensures monotone { NeedIsMonotone }
{}
