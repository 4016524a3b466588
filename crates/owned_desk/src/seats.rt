//! The seats of a board, by their pins.

ghost use Rattle.std.specs.Prelude.{◌≡◌, ◌≢◌, ◌<◌, ℕ, MatchBool, MatchOption};
ghost use Rattle.block_reclamation.specs.declared.copies.TheConstants.{SEATS};
ghost use Rattle.block_reclamation.specs.Copies.{pin_at};

use block_reclamation::{Board, Pin, SEATS, SeatNo};

/// Whether two seats' pins are the same.
fn is_same(a: Option<Pin>, b: Option<Pin>) -> bool
    ensures { MatchBool result (a ≡ b) (a ≢ b) }
{
    match (a, b) {
        (Some(a), Some(b)) => a.number == b.number && a.is_settled == b.is_settled,
        (None, None) => true,
        _ => false,
    }
}

/// The first seat that has this pin; the first that has none, where none is asked for.
pub(crate) fn seat_with(board: &Board, pin: Option<Pin>) -> Option<SeatNo>
    ensures { MatchOption result ((seat : ℕ) → seat < SEATS → pin_at board.now.pins seat ≢ pin)
        (λ seat. (seat < SEATS) × (pin_at board.now.pins seat ≡ pin)) }
{
    for number in 0..SEATS {
        let Some(seat) = SeatNo::new(number as u8) else {
            unreachable!()
        };
        if is_same(board.pin_of(seat), pin) {
            return Some(seat);
        }
    }
    None
}
