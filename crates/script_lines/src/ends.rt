//! The end of a row: numbers, each behind a space, and a line feed.

ghost use Rattle.std.specs.Prelude.{◌≡◌, ◌+◌, ◌<◌, ◌≤◌, ◌∷◌, ◌++◌, codes, decimal, length};
ghost use Rattle.std.specs.Fmt.{signed_decimal};

use itoa::write_digits;
use std::marker::Model;

/// Bytes for three numbers, each with its space and a sign, and the line feed.
const ROOM: usize = 72;

/// The end of a row. It is written from its last byte to its first, so that digits are written where they stand, and goes
/// behind the row's name by one copy.
#[derive(Drop)]
pub(crate) struct RowEnd {
    bytes: [u8; ROOM],
    start: usize,
}

impl Model for RowEnd {
    ghost use Rattle.std.specs.Prelude.{◌≡◌, ◌≤◌, ℕ, List, drop, length, IsAscii};

    ghost Value = { List ℕ };

    ghost view = { λ end. drop end.start end.bytes };

    ghost invariant = { λ end. (end.start ≤ 72) × ((length end.bytes ≡ 72) × IsAscii (drop end.start end.bytes)) };
}

impl RowEnd {
    /// The line feed alone.
    pub(crate) fn new() -> RowEnd
        ensures { result ≡ codes "\n" }
    {
        RowEnd {
            bytes: [b'\n'; ROOM],
            start: ROOM - 1,
        }
    }

    /// Puts a space and a number before what there is.
    #[inline(always)]
    pub(crate) fn put(&mut self, number: u64)
        requires { length self.old ≤ 48 }
        ensures put { self.new ≡ codes " " ++ (decimal number ++ self.old) }
        ensures short { length self.new ≤ length self.old + 21 }
    {
        self.put_number(number);
        self.put_byte(b' ');
    }

    /// Puts a space and a number that may be below zero before what there is.
    #[inline(always)]
    pub(crate) fn put_signed(&mut self, number: i64)
        requires { length self.old ≤ 48 }
        ensures put { self.new ≡ codes " " ++ (signed_decimal number ++ self.old) }
        ensures short { length self.new ≤ length self.old + 22 }
    {
        self.put_number(number.unsigned_abs());
        if number < 0 {
            self.put_byte(b'-');
        }
        self.put_byte(b' ');
    }

    /// Puts a number before what there is. Most numbers of an answer have one digit, which needs no call.
    #[inline(always)]
    #[tactic(auto, using(std::proofs::lemmas::Fmt::decimal_digit))]
    fn put_number(&mut self, number: u64)
        requires { length self.old ≤ 48 }
        ensures put { self.new ≡ decimal number ++ self.old }
        ensures short { length self.new ≤ length self.old + 20 }
    {
        if number < 10 {
            self.put_byte(b'0' + number as u8);
        } else {
            self.put_digits(number);
        }
    }

    /// Puts digits before what there is.
    #[inline(always)]
    fn put_digits(&mut self, number: u64)
        requires { length self.old ≤ 48 }
        ensures put { self.new ≡ decimal number ++ self.old }
        ensures short { length self.new ≤ length self.old + 20 }
    {
        self.start = write_digits(number, &mut self.bytes, self.start);
    }

    /// Puts a byte before what there is.
    #[inline(always)]
    fn put_byte(&mut self, byte: u8)
        requires room { length self.old < 72 }
        requires ascii { byte < 128 }
        ensures { self.new ≡ byte ∷ self.old }
    {
        self.start -= 1;
        self.bytes[self.start] = byte;
    }

    /// The text.
    pub(crate) fn as_str(&self) -> &str
        ensures { result.now ≡ self.now }
    {
        // (that each byte is ASCII is proved, so that no look at them is due)
        unsafe { std::str::from_utf8_unchecked(&self.bytes[self.start..]) }
    }
}
