//! Pins, a copy of them, and which retired blocks it needs.

ghost use Rattle.std.specs.Prelude.{◌≡◌, length, map};
ghost use Rattle.std.specs.List.{list_any};
ghost use Rattle.block_reclamation.specs.Copies as copies;
ghost use Rattle.block_reclamation.specs.declared.copies.TheConstants.{SEATS};

/// How many seats there are.
pub const SEATS: usize = 16;

/// The number of the oldest version that the reader of a seat may still need.
#[derive(Clone, Copy, Debug, PartialEq, Eq)]
pub struct Pin {
    pub number: u64,
    /// Whether the reader has entered a version since it was pinned, and told its number.
    pub is_settled: bool,
}

/// The last number, and for each seat its settled or unsettled pin, as they stood together.
#[derive(Clone, Copy, Debug, PartialEq, Eq)]
pub struct PinCopy {
    pub last: u64,
    pub settled: [Option<u64>; SEATS],
    pub unsettled: [Option<u64>; SEATS],
}

impl PinCopy {
    /// The copy of number 0 without a pin.
    pub fn none() -> PinCopy
        ensures { result ≡ copies.no_copy }
    {
        PinCopy {
            last: 0,
            settled: [None; SEATS],
            unsettled: [None; SEATS],
        }
    }

    /// The copy of the last number and of the pins as they stand.
    pub fn of(last: u64, pins: &[Option<Pin>; SEATS]) -> PinCopy
        requires { length pins.now ≡ SEATS }
        ensures { result ≡ copies.copy_of last pins.now }
    {
        PinCopy {
            last,
            settled: settled_numbers(pins),
            unsettled: unsettled_numbers(pins),
        }
    }

    /// The least of the last number and all pins.
    pub fn floor(&self) -> u64
        ensures { result ≡ copies.floor_of self.now }
    {
        least_of(least_of(self.last, &self.settled), &self.unsettled)
    }

    /// The least of the last number and the unsettled pins. Each block that was retired after it is needed.
    pub fn reach(&self) -> u64
        ensures { result ≡ copies.reach_of self.now }
    {
        least_of(self.last, &self.unsettled)
    }

    /// Whether a block of this birth and retirement is needed: it was retired after the last number, or a settled
    /// pin lies from its birth to below its retirement, or an unsettled pin lies below its retirement.
    pub fn needs(&self, birth: u64, retirement: u64) -> bool
        ensures { result ≡ copies.needs self.now birth retirement }
    {
        self.last < retirement
            || any_between(&self.settled, birth, retirement)
            || any_before(&self.unsettled, retirement)
    }
}

fn is_between(birth: u64, retirement: u64, pin: Option<u64>) -> bool
    ensures { result ≡ copies.is_between birth retirement pin }
{
    match pin {
        Some(pin) => birth <= pin && pin < retirement,
        None => false,
    }
}

fn is_before(retirement: u64, pin: Option<u64>) -> bool
    ensures { result ≡ copies.is_pin_before retirement pin }
{
    match pin {
        Some(pin) => pin < retirement,
        None => false,
    }
}

/// The least of a number and these pins.
fn least_of(last: u64, pins: &[Option<u64>]) -> u64
    ensures { result ≡ copies.least_of last pins.now }
{
    let mut least = last;
    for pin in pins {
        if let Some(pin) = pin {
            least = least.min(*pin);
        }
    }
    least
}

fn any_between(pins: &[Option<u64>], birth: u64, retirement: u64) -> bool
    ensures { result ≡ list_any (copies.is_between birth retirement) pins.now }
{
    pins.iter().any(|pin| is_between(birth, retirement, *pin))
}

fn any_before(pins: &[Option<u64>], retirement: u64) -> bool
    ensures { result ≡ list_any (copies.is_pin_before retirement) pins.now }
{
    pins.iter().any(|pin| is_before(retirement, *pin))
}

/// The numbers of the settled pins.
fn settled_numbers(pins: &[Option<Pin>; SEATS]) -> [Option<u64>; SEATS]
    requires { length pins.now ≡ SEATS }
    ensures { result ≡ map copies.settled_number pins.now }
{
    let mut numbers = [None; SEATS];
    let mut seat = 0;
    while seat < SEATS {
        numbers[seat] = settled_number(pins[seat]);
        seat += 1;
    }
    numbers
}

/// The numbers of the unsettled pins.
fn unsettled_numbers(pins: &[Option<Pin>; SEATS]) -> [Option<u64>; SEATS]
    requires { length pins.now ≡ SEATS }
    ensures { result ≡ map copies.unsettled_number pins.now }
{
    let mut numbers = [None; SEATS];
    let mut seat = 0;
    while seat < SEATS {
        numbers[seat] = unsettled_number(pins[seat]);
        seat += 1;
    }
    numbers
}

fn settled_number(pin: Option<Pin>) -> Option<u64>
    ensures { result ≡ copies.settled_number pin }
{
    match pin {
        Some(pin) if pin.is_settled => Some(pin.number),
        _ => None,
    }
}

fn unsettled_number(pin: Option<Pin>) -> Option<u64>
    ensures { result ≡ copies.unsettled_number pin }
{
    match pin {
        Some(pin) if !pin.is_settled => Some(pin.number),
        _ => None,
    }
}
