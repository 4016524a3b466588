ghost use Rattle.std.specs.Prelude.{◌≡◌, ◌≤◌, ◌<◌, ℕ, [], length, nat_eq, Some, IfOk, OnOk, OnErr, if◌then◌else◌};
ghost use Rattle.std.specs.Map.{lookup};
ghost use Rattle.vertex_names.specs.Order.{firsts, last_place, IsRising, found_in};
ghost use Rattle.vertex_names.specs.Pieces.{pieces_of, piece_entries};

use crate::piece::{Piece, guess, last_at};
use std::alloc::{AllocError, Global};
use std::marker::Model;
use std::sync::Arc;

/// How many entries a piece has at most.
const FULL: usize = 256;

/// Numbers by hash, in pieces that copies share, each behind its lowest hash. A number costs a search of two lists that
/// rise and a copy of one piece, whichever hashes there are.
pub(crate) struct Part {
    pieces: Vec<(u64, Arc<Piece>)>,
}

// By hand, so that who lets one go need not take it apart.
impl Drop for Part {
    fn drop(self) {
        let Part { pieces: _pieces } = self;
    }
}

impl Model for Part {
    ghost use Rattle.std.specs.Prelude.{ℕ, List};
    ghost use Rattle.vertex_names.specs.Order.{firsts, IsRising};
    ghost use Rattle.vertex_names.specs.Pieces.{pieces_of};

    ghost Value = { List (ℕ × List (ℕ × ℕ)) };

    ghost view = { λ p. pieces_of p.pieces.items };

    ghost invariant = { λ p. IsRising (firsts p.pieces.items) };
}

impl Clone for Part {
    ghost is_clone = { λ part copy. copy ≡ part };

    fn clone(&self) -> Result<Part, AllocError> {
        Ok(Part {
            pieces: self.pieces.clone()?,
        })
    }
}

impl Part {
    /// It takes no memory yet.
    pub(crate) fn new(alloc: Global) -> Part
        ensures { result ≡ [] }
    {
        Part {
            pieces: Vec::new(alloc),
        }
    }

    /// The number at a hash.
    pub(crate) fn first(&self, hash: u64) -> Option<u32>
        ensures { result ≡ found_in self.now hash }
    {
        let place = last_at(&self.pieces, hash, guess(hash, self.pieces.len() as u64), 1);
        self.pieces.get(place)?.1.first(hash)
    }

    /// Puts a number at a hash.
    pub(crate) fn put(&mut self, alloc: Global, hash: u64, number: u32) -> Result<(), AllocError>
        ensures put { OnOk result ((q : ℕ) → found_in self.new q ≡ (if nat_eq hash q then Some number else found_in self.old q)) }
        ensures unchanged { OnErr result ((q : ℕ) → found_in self.new q ≡ found_in self.old q) }
    {
        make_piece(alloc, &mut self.pieces)?;
        let place = last_at(&self.pieces, hash, guess(hash, self.pieces.len() as u64), 1);
        make_room(alloc, &mut self.pieces, place)?;
        put_at(&mut self.pieces, place, hash, number)
    }
}

/// Makes the first piece, if it is not there.
fn make_piece(alloc: Global, pieces: &mut Vec<(u64, Arc<Piece>)>) -> Result<(), AllocError>
    requires { IsRising (firsts pieces.old.items) }
    ensures some { OnOk result (0 < length pieces.new.items) }
    ensures rising { IsRising (firsts pieces.new.items) }
    ensures same { (q : ℕ) → found_in (pieces_of pieces.new.items) q ≡ found_in (pieces_of pieces.old.items) q }
{
    if pieces.is_empty() {
        let piece = Arc::new(alloc, Piece::new(alloc))?;
        pieces.push((0, piece))?;
    }
    Ok(())
}

/// Makes two pieces of the one at a place, if that is full. One whose middle were not between its lowest hash and the next
/// piece's would stay whole.
fn make_room(
    alloc: Global,
    pieces: &mut Vec<(u64, Arc<Piece>)>,
    place: usize,
) -> Result<(), AllocError>
    requires place { place < length pieces.old.items }
    requires rising { IsRising (firsts pieces.old.items) }
    ensures some { 0 < length pieces.new.items }
    ensures rising { IsRising (firsts pieces.new.items) }
    ensures same { (q : ℕ) → found_in (pieces_of pieces.new.items) q ≡ found_in (pieces_of pieces.old.items) q }
{
    let (lowest, piece) = &pieces[place];
    let half = piece.len() / 2;
    if piece.len() < FULL {
        return Ok(());
    }
    let middle = piece.hash(half);
    if middle <= *lowest || last_at(pieces, middle, place, 1) != place {
        return Ok(());
    }
    let lower = Arc::new(alloc, piece.before(alloc, half)?)?;
    let upper = Arc::new(alloc, piece.from(alloc, half)?)?;
    pieces.insert(place + 1, (middle, upper))?;
    pieces[place].1 = lower;
    Ok(())
}

/// Puts a number at a hash in its piece, into a copy of the piece where others have it.
fn put_at(
    pieces: &mut Vec<(u64, Arc<Piece>)>,
    guess: usize,
    hash: u64,
    number: u32,
) -> Result<(), AllocError>
    requires some { 0 < length pieces.old.items }
    requires rising { IsRising (firsts pieces.old.items) }
    ensures rising { IsRising (firsts pieces.new.items) }
    ensures put { OnOk result ((q : ℕ) → found_in (pieces_of pieces.new.items) q
        ≡ (if nat_eq hash q then Some number else found_in (pieces_of pieces.old.items) q)) }
    ensures unchanged { OnErr result ((q : ℕ) → found_in (pieces_of pieces.new.items) q
        ≡ found_in (pieces_of pieces.old.items) q) }
{
    let place = last_at(pieces, hash, guess, 1);
    put_in(&mut pieces[place].1, hash, number)
}

/// Puts a number into a piece, or into a copy of it where others have it.
fn put_in(piece: &mut Arc<Piece>, hash: u64, number: u32) -> Result<(), AllocError>
    ensures put { OnOk result ((q : ℕ) → lookup (nat_eq q) (piece_entries piece.new)
        ≡ (if nat_eq hash q then Some number else lookup (nat_eq q) (piece_entries piece.old))) }
    ensures unchanged { OnErr result (piece_entries piece.new ≡ piece_entries piece.old) }
{
    Arc::make_mut(piece)?.put(hash, number)
}
