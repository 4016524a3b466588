//! A copy of the pins as the journal keeps it.

ghost use Rattle.std.specs.Prelude.{◌≡◌, ◌<◌};
ghost use Rattle.block_reclamation.specs.declared.copies.TheConstants.{SEATS};
ghost use Rattle.desk.specs.Copies.{kept_pin};

use block_reclamation::{PinCopy, SEATS};
use std::marker::Model;

/// A copy of the pins, in little more than half the memory of a [`PinCopy`], whose pins are options.
///
/// ```
/// if let JournalEntry::Collected { copy, recycled } = entry {
///     assert!(rt; copy.to_pin_copy().last <= number);
/// }
/// ```
#[derive(Drop)]
pub struct KeptCopy {
    last: u64,
    settled: KeptPins,
    unsettled: KeptPins,
}

impl Model for KeptCopy {
    ghost use Rattle.block_reclamation.specs.declared.copies.PinCopy.{PinCopy};

    ghost Value = { PinCopy };

    ghost view = { λ k. record { last = k.last; settled = k.settled; unsettled = k.unsettled } };
}

/// The pins of seats: their numbers, apart from whether they are there.
#[derive(Drop)]
struct KeptPins {
    numbers: [u64; SEATS],
    are_there: [bool; SEATS],
}

impl Model for KeptPins {
    ghost use Rattle.std.specs.Prelude.{List, Option, ℕ};
    ghost use Rattle.desk.specs.Copies.{kept_pins};

    ghost Value = { List (Option ℕ) };

    ghost view = { λ p. kept_pins p.are_there p.numbers };
}

impl KeptCopy {
    /// What the journal keeps of a copy.
    pub(crate) fn of(copy: &PinCopy) -> KeptCopy
        ensures { result ≡ copy.now }
    {
        KeptCopy {
            last: copy.last,
            settled: KeptPins::of(copy.settled),
            unsettled: KeptPins::of(copy.unsettled),
        }
    }

    /// The copy that was kept.
    pub fn to_pin_copy(&self) -> PinCopy
        ensures { result ≡ self.now }
    {
        PinCopy {
            last: self.last,
            settled: self.settled.to_pins(),
            unsettled: self.unsettled.to_pins(),
        }
    }
}

impl KeptPins {
    fn of(pins: [Option<u64>; SEATS]) -> KeptPins
        ensures { result ≡ pins }
    {
        let mut numbers = [0; SEATS];
        let mut are_there = [false; SEATS];
        for seat in 0..SEATS {
            numbers[seat] = pins[seat].unwrap_or(0);
            are_there[seat] = pins[seat].is_some();
        }
        KeptPins { numbers, are_there }
    }

    fn to_pins(&self) -> [Option<u64>; SEATS]
        ensures { result ≡ self.now }
    {
        // Here a proof learns how long the lists are.
        let _ = &self.numbers;
        let mut pins = [None; SEATS];
        for seat in 0..SEATS {
            pins[seat] = self.pin(seat);
        }
        pins
    }

    fn pin(&self, seat: usize) -> Option<u64>
        requires { seat < SEATS }
        ensures { result ≡ kept_pin self.now seat }
    {
        if self.are_there[seat] {
            Some(self.numbers[seat])
        } else {
            None
        }
    }
}
