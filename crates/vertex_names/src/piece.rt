ghost use Rattle.std.specs.Prelude.{◌≡◌, ◌≤◌, ◌<◌, ℕ, [], length, nat_eq, get_or, take, drop, Some, IfOk, IfErr, OnOk, OnErr};
ghost use Rattle.std.specs.Prelude.{if◌then◌else◌};
ghost use Rattle.std.specs.List.{insert};
ghost use Rattle.vertex_names.specs.Order.{firsts, last_place, IsRising, IsFoundAt, IsGap, Bounds};

use std::alloc::{AllocError, Global};
use std::marker::Model;

/// For how many more entries there is room where a piece is copied, or was full.
const ROOM: usize = 8;

/// How far from its guess a hash of a piece is at most, mostly.
const NEAR: usize = 4;

/// Where the hashes of a piece would stand if they were evenly spread from the lowest to the highest: the lowest one, and how
/// many places a hash that is 2^64 above it would be behind it. It is for guesses only, and nothing rests on it.
#[derive(Clone, Copy)]
struct Spread {
    lowest: u64,
    places: u64,
}

impl Spread {
    fn of(entries: &[(u64, u32)]) -> Spread {
        let len = entries.len();
        if len == 0 {
            return Spread {
                lowest: 0,
                places: 0,
            };
        }
        let lowest = entries[0].0;
        let width = (entries[len - 1].0.wrapping_sub(lowest) >> 32).wrapping_add(1);
        let places = ((len - 1) as u64).wrapping_mul(1 << 32);
        Spread {
            lowest,
            places: places.checked_div(width).unwrap_or(0),
        }
    }

    fn guess(self, hash: u64) -> usize {
        guess(hash.wrapping_sub(self.lowest), self.places)
    }
}

/// As large a part of these places as a hash is of 2^64.
pub(crate) fn guess(hash: u64, places: u64) -> usize {
    ((hash >> 32).wrapping_mul(places) >> 32) as usize
}

/// The place of the last of rising numbers that isn't above one, among pairs that have them first; the first place where all
/// are above it, or none is there. A guess is tried first, and then the place that is `near` it on the side that is left.
pub(crate) fn last_at<T>(pairs: &[(u64, T)], hash: u64, guess: usize, near: usize) -> usize
    requires { IsRising (firsts pairs.now) }
    ensures place { result ≡ last_place (firsts pairs.now) hash }
    ensures within { 0 < length pairs.now → result < length pairs.now }
{
    let (low, high) = narrowed(pairs, hash, 0, pairs.len(), guess);
    let next = if low == guess {
        guess.saturating_add(near)
    } else {
        high.saturating_sub(near)
    };
    let (low, high) = narrowed(pairs, hash, low, high, next);
    last_between(pairs, hash, low, high)
}

/// Narrower bounds of that place, by the number at a place between them; the same where that isn't between them.
fn narrowed<T>(
    pairs: &[(u64, T)],
    hash: u64,
    low: usize,
    high: usize,
    place: usize,
) -> (usize, usize)
    requires rising { IsRising (firsts pairs.now) }
    requires bounds { Bounds (firsts pairs.now) hash low high }
    requires within { high ≤ length pairs.now }
    ensures bounds { Bounds (firsts pairs.now) hash result.0 result.1 }
    ensures within { result.1 ≤ length pairs.now }
{
    // (two tests and no `||`, behind which no proof has both)
    if place <= low {
        return (low, high);
    }
    if high <= place {
        return (low, high);
    }
    if pairs[place].0 <= hash {
        (place, high)
    } else {
        (low, place)
    }
}

/// That place, between bounds of it.
fn last_between<T>(pairs: &[(u64, T)], hash: u64, low: usize, high: usize) -> usize
    requires rising { IsRising (firsts pairs.now) }
    requires bounds { Bounds (firsts pairs.now) hash low high }
    requires within { high ≤ length pairs.now }
    ensures place { result ≡ last_place (firsts pairs.now) hash }
    ensures within { 0 < length pairs.now → result < length pairs.now }
{
    let mut at = low;
    let mut end = high;
    while end - at > 1 {
        let middle = at + (end - at) / 2;
        if pairs[middle].0 <= hash {
            at = middle;
        } else {
            end = middle;
        }
    }
    at
}

/// A copy of entries, with room for more.
fn copied(alloc: Global, entries: &[(u64, u32)]) -> Result<Vec<(u64, u32)>, AllocError>
    ensures { IfOk result (λ copy. copy.items ≡ entries.now) }
{
    let mut copy = Vec::with_capacity(alloc, entries.len() + ROOM)?;
    copy.extend_from_slice(entries)?;
    Ok(copy)
}

/// Room for one more entry, and no more than a few: most pieces are copied before they are full.
fn make_room(entries: &mut Vec<(u64, u32)>) -> Result<(), AllocError>
    ensures { entries.new.items ≡ entries.old.items }
{
    if entries.len() == entries.capacity() {
        entries.reserve_exact(ROOM)?;
    }
    Ok(())
}

/// An entry at a place.
fn enter(entries: &mut Vec<(u64, u32)>, place: usize, entry: (u64, u32)) -> Result<(), AllocError>
    requires { place ≤ length entries.old.items }
    ensures entered { OnOk result (entries.new.items ≡ insert entries.old.items place entry) }
    ensures unchanged { OnErr result (entries.new.items ≡ entries.old.items) }
{
    make_room(entries)?;
    entries.insert(place, entry)?;
    Ok(())
}

/// Numbers by hash, in the order of the hashes.
pub(crate) struct Piece {
    entries: Vec<(u64, u32)>,
    spread: Spread,
}

// By hand, so that who lets one go need not take it apart.
impl Drop for Piece {
    fn drop(self) {
        let Piece {
            entries: _entries,
            spread: _spread,
        } = self;
    }
}

impl Model for Piece {
    ghost use Rattle.std.specs.Prelude.{ℕ, List};
    ghost use Rattle.vertex_names.specs.Order.{firsts, IsRising};

    ghost Value = { List (ℕ × ℕ) };

    ghost view = { λ p. p.entries.items };

    ghost invariant = { λ p. IsRising (firsts p.entries.items) };
}

impl Clone for Piece {
    ghost is_clone = { λ piece copy. copy ≡ piece };

    fn clone(&self) -> Result<Piece, AllocError> {
        Ok(Piece {
            entries: copied(*self.entries.allocator(), &self.entries)?,
            spread: self.spread,
        })
    }
}

impl Piece {
    ghost use Rattle.std.specs.Map.{lookup};

    /// It takes no memory yet.
    pub(crate) fn new(alloc: Global) -> Piece
        ensures { result ≡ [] }
    {
        Piece {
            entries: Vec::new(alloc),
            spread: Spread::of(&[]),
        }
    }

    /// How many entries there are.
    pub(crate) fn len(&self) -> usize
        ensures { result ≡ length self.now }
    {
        self.entries.len()
    }

    /// The hash at a place.
    pub(crate) fn hash(&self, place: usize) -> u64
        requires { place < length self.now }
        ensures { result ≡ get_or (firsts self.now) place 0 }
    {
        self.entries[place].0
    }

    /// Where a hash is, or where it would go.
    fn search(&self, hash: u64) -> Result<usize, usize>
        ensures found { IfOk result (IsFoundAt self.now hash) }
        ensures absent { IfErr result (IsGap self.now hash) }
    {
        let place = last_at(&self.entries, hash, self.spread.guess(hash), NEAR);
        let Some(&(known, _)) = self.entries.get(place) else {
            return Err(0);
        };
        if known == hash {
            Ok(place)
        } else if known < hash {
            Err(place + 1)
        } else {
            Err(0)
        }
    }

    /// The number at a hash.
    pub(crate) fn first(&self, hash: u64) -> Option<u32>
        ensures { result ≡ lookup (nat_eq hash) self.now }
    {
        match self.search(hash) {
            Ok(place) => Some(self.entries[place].1),
            Err(_) => None,
        }
    }

    /// Puts a number at a hash.
    pub(crate) fn put(&mut self, hash: u64, number: u32) -> Result<(), AllocError>
        ensures put { OnOk result ((q : ℕ) → lookup (nat_eq q) self.new
            ≡ (if nat_eq hash q then Some number else lookup (nat_eq q) self.old)) }
        ensures unchanged { OnErr result (self.new ≡ self.old) }
    {
        match self.search(hash) {
            Ok(place) => {
                self.entries[place] = (hash, number);
                Ok(())
            }
            Err(place) => {
                enter(&mut self.entries, place, (hash, number))?;
                self.spread = Spread::of(&self.entries);
                Ok(())
            }
        }
    }

    /// The entries before a place, which have what stands at lower hashes.
    pub(crate) fn before(&self, alloc: Global, place: usize) -> Result<Piece, AllocError>
        requires { place < length self.now }
        ensures { IfOk result (λ p. (q : ℕ) → q < get_or (firsts self.now) place 0
            → lookup (nat_eq q) p ≡ lookup (nat_eq q) self.now) }
    {
        let entries = copied(alloc, &self.entries[..place])?;
        let spread = Spread::of(&entries);
        Ok(Piece { entries, spread })
    }

    /// The entries from a place on, which have what stands at its hash and at higher ones.
    pub(crate) fn from(&self, alloc: Global, place: usize) -> Result<Piece, AllocError>
        requires { place < length self.now }
        ensures { IfOk result (λ p. (q : ℕ) → get_or (firsts self.now) place 0 ≤ q
            → lookup (nat_eq q) p ≡ lookup (nat_eq q) self.now) }
    {
        let entries = copied(alloc, &self.entries[place..])?;
        let spread = Spread::of(&entries);
        Ok(Piece { entries, spread })
    }
}
