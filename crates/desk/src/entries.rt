//! The journal's entries.

use crate::copies::KeptCopy;
use graph_types::{Batch, List};
use std::fmt;
use std::sync::Arc;

/// What the desk did: it accepted a batch, or it collected.
#[derive(Drop)]
pub enum JournalEntry {
    /// An accepted batch, with the numbers of the blocks that it took and of those that it dropped.
    Applied {
        batch: Arc<Batch>,
        taken: List<u32>,
        dropped: List<u32>,
    },
    /// A collection by this copy of the pins that recycled this many blocks, at least one.
    Collected {
        copy: KeptCopy,
        recycled: u32,
    },
}

// Written by hand: how many operations and blocks, and not each of them.
impl fmt::Debug for JournalEntry {
    fn fmt<F: fmt::Write>(&self, f: &mut fmt::Formatter<F>) -> fmt::Result {
        match self {
            JournalEntry::Applied {
                batch,
                taken,
                dropped,
            } => f
                .debug_struct("Applied")
                .field("operations", &batch.len())
                .field("taken", &taken.len())
                .field("dropped", &dropped.len())
                .finish(),
            JournalEntry::Collected { copy: _, recycled } => f
                .debug_struct("Collected")
                .field("recycled", recycled)
                .finish_non_exhaustive(),
        }
    }
}
