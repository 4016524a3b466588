//! Shelves of parts of an index.

ghost use Rattle.std.specs.Prelude.{◌≡◌, ◌≤◌, ◌%◌, ◌/◌, ◌<◌, ℕ, [], length, get_or, nat_eq, Some, IfOk, OnOk, OnErr, if◌then◌else◌};
ghost use Rattle.vertex_names.specs.Shelves.{found_on, shelf_parts};

use crate::part::Part;
use std::alloc::{AllocError, Global};
use std::marker::Model;
use std::sync::Arc;

/// How many parts there are.
const PARTS: usize = 16;

/// The place of a hash's part.
fn place_of(hash: u64) -> usize
    ensures { result ≡ hash / 32 % 16 }
{
    (hash / 32 % 16) as usize
}

/// From hashes of one shelf to numbers, in parts that copies share.
pub(crate) struct Shelf {
    parts: Vec<Arc<Part>>,
}

// By hand, so that who lets one go need not take it apart.
impl Drop for Shelf {
    fn drop(self) {
        let Shelf { parts: _parts } = self;
    }
}

impl Model for Shelf {
    ghost use Rattle.std.specs.Prelude.{ℕ, List};
    ghost use Rattle.vertex_names.specs.Shelves.{shelf_parts};

    ghost Value = { List (List (ℕ × List (ℕ × ℕ))) };

    ghost view = { λ shelf. shelf_parts shelf.parts.items };
}

impl Clone for Shelf {
    ghost is_clone = { λ shelf copy. copy ≡ shelf };

    fn clone(&self) -> Result<Shelf, AllocError> {
        Ok(Shelf {
            parts: self.parts.clone()?,
        })
    }
}

impl Shelf {
    /// It takes no memory yet.
    pub(crate) fn new(alloc: Global) -> Shelf
        ensures { result ≡ [] }
    {
        Shelf {
            parts: Vec::new(alloc),
        }
    }

    /// The number at a hash.
    pub(crate) fn first(&self, hash: u64) -> Option<u32>
        ensures { result ≡ found_on self.now hash }
    {
        self.parts.get(place_of(hash))?.first(hash)
    }

    /// Puts a number at a hash.
    pub(crate) fn put(&mut self, alloc: Global, hash: u64, number: u32) -> Result<(), AllocError>
        ensures put { OnOk result ((q : ℕ) → found_on self.new q ≡ (if nat_eq hash q then Some number else found_on self.old q)) }
        ensures unchanged { OnErr result ((q : ℕ) → found_on self.new q ≡ found_on self.old q) }
    {
        make_parts(alloc, &mut self.parts)?;
        put_in(alloc, &mut self.parts, place_of(hash), hash, number)
    }
}

/// Makes the parts that are not there.
fn make_parts(alloc: Global, parts: &mut Vec<Arc<Part>>) -> Result<(), AllocError>
    ensures whole { OnOk result (16 ≤ length parts.new.items) }
    ensures same { (i : ℕ) → get_or (shelf_parts parts.new.items) i [] ≡ get_or (shelf_parts parts.old.items) i [] }
{
    while parts.len() < PARTS {
        let part = Arc::new(alloc, Part::new(alloc))?;
        parts.push(part)?;
    }
    Ok(())
}

/// Puts a number into its part, into a copy of the part where others have it.
fn put_in(
    alloc: Global,
    parts: &mut Vec<Arc<Part>>,
    place: usize,
    hash: u64,
    number: u32,
) -> Result<(), AllocError>
    requires place { place ≡ hash / 32 % 16 }
    requires whole { 16 ≤ length parts.old.items }
    ensures put { OnOk result ((q : ℕ) → found_on (shelf_parts parts.new.items) q
        ≡ (if nat_eq hash q then Some number else found_on (shelf_parts parts.old.items) q)) }
    ensures unchanged { OnErr result ((q : ℕ) → found_on (shelf_parts parts.new.items) q ≡ found_on (shelf_parts parts.old.items) q) }
{
    Arc::make_mut(&mut parts[place])?.put(alloc, hash, number)
}
