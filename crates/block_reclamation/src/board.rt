ghost use Rattle.std.specs.Prelude.{◌≡◌, ℕ, ◌<◌, Some, None, option_map};
ghost use Rattle.std.specs.Option.{SomeIff};
ghost use Rattle.block_reclamation.specs.Board.{no_pins, with_pin, IsBoard, IsLeast};
ghost use Rattle.block_reclamation.specs.Copies.{pin_at, unsettled, settled, copy_of, floor_of};
ghost use Rattle.block_reclamation.specs.declared.copies.TheConstants.{SEATS};

use crate::copies::{Pin, PinCopy, SEATS};
use std::marker::Model;

/// The number of a reader's seat, from 0 to 15.
#[derive(Clone, Copy, Debug, PartialEq, Eq)]
pub struct SeatNo {
    number: u8,
}

impl Model for SeatNo {
    ghost Value = { ℕ };

    ghost view = { λ seat. seat.number };

    ghost invariant = { λ seat. seat.number < SEATS };

    ghost inverse = { λ number. record { number = number } };
}

impl SeatNo {
    /// The seat of that number, where it is one of 0 to 15.
    pub fn new(number: u8) -> Option<SeatNo>
        ensures { SomeIff result (number < SEATS) number }
    {
        if usize::from(number) < SEATS {
            Some(SeatNo { number })
        } else {
            None
        }
    }

    /// The seat's number, from 0 to 15.
    pub fn number(self) -> u8
        ensures value { result ≡ self }
        ensures within { result < SEATS }
    {
        self.number
    }
}

/// The floor, and for each seat its pin, if it has one. The floor is at most each pin.
#[derive(Debug, Drop)]
pub struct Board {
    floor: u64,
    pins: [Option<Pin>; SEATS],
}

impl Model for Board {
    ghost use Rattle.block_reclamation.specs.Board.{BoardState, IsBoard};

    ghost Value = { BoardState };

    ghost view = { λ board. record { floor = board.floor; pins = board.pins } };

    ghost invariant = { λ board. IsBoard (record { floor = board.floor; pins = board.pins }) };
}

impl Default for Board {
    ghost is_default = { λ board. board ≡ no_pins };

    /// `Board::new`.
    fn default() -> Board {
        Board::new()
    }
}

impl Board {
    /// A board with floor 0 and no pin.
    pub fn new() -> Self
        ensures { result ≡ no_pins }
    {
        Board {
            floor: 0,
            pins: [None; SEATS],
        }
    }

    /// The floor: what the last `raise` answered, and 0 before it.
    pub fn floor(&self) -> u64
        ensures value { result ≡ self.now.floor }
        ensures below_pins { IsBoard self.now }
    {
        self.floor
    }

    /// The seat's pin, if it has one.
    pub fn pin_of(&self, seat: SeatNo) -> Option<Pin>
        ensures { result ≡ pin_at self.now.pins seat }
    {
        self.pins[usize::from(seat.number)]
    }

    /// Pins the seat at the floor, whatever pin it had, and answers the floor. The pin is
    /// unsettled.
    pub fn pin(&mut self, seat: SeatNo) -> u64
        ensures value { result ≡ self.old.floor }
        ensures pinned { self.new ≡ with_pin self.old seat (Some (unsettled self.old.floor)) }
        ensures there { pin_at self.new.pins seat ≡ Some (unsettled self.old.floor) }
    {
        self.pins[usize::from(seat.number)] = Some(Pin {
            number: self.floor,
            is_settled: false,
        });
        self.floor
    }

    /// Raises the seat's pin to the greater of itself and `number`, which settles it. A seat
    /// without a pin stays without.
    pub fn settle(&mut self, seat: SeatNo, number: u64)
        ensures { self.new ≡ with_pin self.old seat (option_map (settled number) (pin_at self.old.pins seat)) }
    {
        if let Some(pin) = &mut self.pins[usize::from(seat.number)] {
            pin.number = pin.number.max(number);
            pin.is_settled = true;
        }
    }

    /// Takes the seat's pin away, where it has one.
    pub fn unpin(&mut self, seat: SeatNo)
        ensures { self.new ≡ with_pin self.old seat None }
    {
        self.pins[usize::from(seat.number)] = None;
    }

    /// Sets the floor to the least of `last`, which is the number of the last version, and all
    /// pins, settled or not, and answers the copy of `last` and the pins.
    pub fn raise(&mut self, last: u64) -> PinCopy
        ensures copied { result ≡ copy_of last self.old.pins }
        ensures least { IsLeast last self.old.pins (floor_of result) }
        ensures raised { self.new ≡ record self.old { floor = floor_of result } }
    {
        let copy = PinCopy::of(last, &self.pins);
        self.floor = copy.floor();
        copy
    }
}
