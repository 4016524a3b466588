//! Numbers that were found not long ago, by a short hash of their names.

use std::alloc::{AllocError, Global};
use std::sync::Arc;
use std::sync::atomic::AtomicU64;
use std::sync::atomic::Ordering::Relaxed;

/// How many cells a cache has at first.
const FEWEST: usize = 16;

/// Half of a word: a cell has a half of a name's short hash, and a number.
const HALF: u64 = 1 << 32;

/// A short hash of a text, in place of the long one of the index. Many names can be made that have one, and then each is
/// found in the index.
pub(crate) fn short_hash(text: &str) -> u64 {
    let mut hash = 0_u64;
    for byte in text.as_bytes() {
        hash = (hash.rotate_left(5) ^ u64::from(*byte)).wrapping_mul(0x9e37_79b9_7f4a_7c15);
    }
    hash
}

/// A direct-mapped cache of numbers, which books of one store share. What it tells is a guess: each number is compared by
/// its text, and so no contract speaks of it.
#[derive(Drop)]
pub(crate) struct Cache {
    cells: Vec<AtomicU64>,
}

impl Cache {
    fn with_cells(alloc: Global, count: usize) -> Result<Cache, AllocError> {
        let mut cells = Vec::with_capacity(alloc, count)?;
        for _ in 0..count {
            cells.push(AtomicU64::new(0))?;
        }
        Ok(Cache { cells })
    }

    /// The cell of a short hash: the number of cells is a power of two.
    fn cell(&self, hash: u64) -> Option<&AtomicU64> {
        let place = (hash / HALF) as usize & self.cells.len().wrapping_sub(1);
        self.cells.get(place)
    }

    /// The number that was kept last of the names in a cell, if it was kept by this short hash.
    pub(crate) fn get(&self, hash: u64) -> Option<u32> {
        let word = self.cell(hash)?.load(Relaxed);
        if word / HALF == hash % HALF {
            Some((word % HALF) as u32)
        } else {
            None
        }
    }

    /// Keeps a number.
    fn put(&self, hash: u64, number: u32) {
        if let Some(cell) = self.cell(hash) {
            cell.store((hash % HALF) * HALF + u64::from(number), Relaxed);
        }
    }
}

/// A cache for a book of so many names, or none where that one is large enough or memory for another one is refused.
fn larger(alloc: Global, cache: &Option<Arc<Cache>>, names: usize) -> Option<Arc<Cache>> {
    let cells = match cache {
        None => 0,
        Some(cache) => cache.cells.len(),
    };
    if names < cells {
        return None;
    }
    let cache = Cache::with_cells(alloc, cells.saturating_mul(2).max(FEWEST)).ok()?;
    Arc::new(alloc, cache).ok()
}

/// Makes room in the cache of a book of so many names, if it is short of it and memory isn't refused.
pub(crate) fn make_room(alloc: Global, cache: &mut Option<Arc<Cache>>, names: usize) {
    if let Some(larger) = larger(alloc, cache, names) {
        *cache = Some(larger);
    }
}

/// Keeps a number, where there is a cache.
pub(crate) fn keep(cache: &Option<Arc<Cache>>, hash: u64, number: u32) {
    if let Some(cache) = cache {
        cache.put(hash, number);
    }
}
