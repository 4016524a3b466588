ghost use Rattle.std.specs.Prelude.{◌≡◌, ◌≤◌, ◌%◌, ◌<◌, ℕ, [], length, get_or, nat_eq, Some, IfOk, OnOk, OnErr, if◌then◌else◌};
ghost use Rattle.vertex_names.specs.Index.{text_hash, found_at, shelves_of};

use crate::shelf::Shelf;
use std::alloc::{AllocError, Global};
use std::hash::{DefaultHasher, Hasher};
use std::marker::Model;
use std::sync::Arc;

/// How many shelves there are.
const SHELVES: usize = 32;

/// The hash of a text. Everybody knows its keys, but two texts with one hash take some 2^32 trials to find, and each further
/// pair more.
pub(crate) fn hash_of(text: &str) -> u64
    ensures { result ≡ text_hash text.now }
{
    let mut hasher = DefaultHasher::new();
    hasher.write(text.as_bytes());
    hasher.finish()
}

/// From hashes to numbers, in shelves of parts that copies share.
pub(crate) struct HashIndex {
    shelves: Vec<Arc<Shelf>>,
}

// By hand, so that who lets one go need not take it apart.
impl Drop for HashIndex {
    fn drop(self) {
        let HashIndex { shelves: _shelves } = self;
    }
}

impl Model for HashIndex {
    ghost use Rattle.std.specs.Prelude.{ℕ, List};
    ghost use Rattle.vertex_names.specs.Index.{shelves_of};

    ghost Value = { List (List (List (ℕ × List (ℕ × ℕ)))) };

    ghost view = { λ x. shelves_of x.shelves.items };
}

impl HashIndex {
    /// It takes no memory yet.
    pub(crate) fn new(alloc: Global) -> HashIndex
        ensures { result ≡ [] }
    {
        HashIndex {
            shelves: Vec::new(alloc),
        }
    }

    /// The number at a hash.
    pub(crate) fn first(&self, hash: u64) -> Option<u32>
        ensures { result ≡ found_at self.now hash }
    {
        self.shelves.get((hash % 32) as usize)?.first(hash)
    }

    /// Puts a number at a hash.
    pub(crate) fn put(&mut self, alloc: Global, hash: u64, number: u32) -> Result<(), AllocError>
        ensures put { OnOk result ((q : ℕ) → found_at self.new q ≡ (if nat_eq hash q then Some number else found_at self.old q)) }
        ensures unchanged { OnErr result ((q : ℕ) → found_at self.new q ≡ found_at self.old q) }
    {
        make_shelves(alloc, &mut self.shelves)?;
        put_in(alloc, &mut self.shelves, (hash % 32) as usize, hash, number)
    }

    /// An equal index.
    pub(crate) fn share(&self) -> Result<HashIndex, AllocError>
        ensures { IfOk result (λ copy. copy ≡ self.now) }
    {
        Ok(HashIndex {
            shelves: self.shelves.clone()?,
        })
    }
}

/// Makes the shelves that are not there.
fn make_shelves(alloc: Global, shelves: &mut Vec<Arc<Shelf>>) -> Result<(), AllocError>
    ensures whole { OnOk result (32 ≤ length shelves.new.items) }
    ensures same { (i : ℕ) → get_or (shelves_of shelves.new.items) i [] ≡ get_or (shelves_of shelves.old.items) i [] }
{
    while shelves.len() < SHELVES {
        let shelf = Arc::new(alloc, Shelf::new(alloc))?;
        shelves.push(shelf)?;
    }
    Ok(())
}

/// Puts a number on its shelf, on a copy of the shelf where others have it.
fn put_in(
    alloc: Global,
    shelves: &mut Vec<Arc<Shelf>>,
    place: usize,
    hash: u64,
    number: u32,
) -> Result<(), AllocError>
    requires place { place ≡ hash % 32 }
    requires whole { 32 ≤ length shelves.old.items }
    ensures put { OnOk result ((q : ℕ) → found_at (shelves_of shelves.new.items) q
        ≡ (if nat_eq hash q then Some number else found_at (shelves_of shelves.old.items) q)) }
    ensures unchanged { OnErr result ((q : ℕ) → found_at (shelves_of shelves.new.items) q ≡ found_at (shelves_of shelves.old.items) q) }
{
    Arc::make_mut(&mut shelves[place])?.put(alloc, hash, number)
}
