//! Where a row may have room.

ghost use Rattle.std.specs.Prelude.{◌≡◌, ℕ, List, ◌<◌, set};
ghost use Rattle.std.specs.List.{position};
ghost use Rattle.edge_block.specs.Rows as layout;
ghost use Rattle.batch_shards.specs.RowBlocks.{open_of};
ghost use Rattle.batch_shards.specs.Room.{IsRoom};

use crate::row_blocks::RowBlock;
use graph_types::KindId;

/// No block of the kind before the place has a free slot.
#[derive(Clone, Copy)]
pub struct Room {
    pub kind: KindId,
    pub place: usize,
}

impl Room {
    /// The place of the first block of the kind with a free slot.
    pub fn first(self, row: &[RowBlock], kind: KindId) -> Option<usize>
        requires { IsRoom self row.now }
        ensures { result ≡ position (λ h. layout.has_room kind.0 (open_of h).shape) row.now }
    {
        let start = if self.kind == kind { self.place } else { 0 };
        for place in start..row.len() {
            if row[place].has_room(kind) {
                return Some(place);
            }
        }
        None
    }

    /// What is so once the block at a place has been changed.
    pub fn after_change(self, row: &[RowBlock], place: usize) -> Room
        ensures { (before : List RowBlock) (y : RowBlock) → row.now ≡ set before place y → IsRoom self before
            → IsRoom result row.now }
    {
        if place < self.place && place < row.len() && row[place].has_room(self.kind) {
            Room {
                kind: self.kind,
                place,
            }
        } else {
            self
        }
    }
}
