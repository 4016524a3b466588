// Numbers of a script.

ghost use Rattle.std.specs.Prelude.{◌≡◌, option_map, pos};
ghost use Rattle.feed_csv.specs.Number.{magnitude_of, number_in_text, slot_of, time_of, weight_of};

// A decimal number of at most this many digits fits 64 bits.
const MOST_DIGITS: usize = 19;

const GREATEST_WEIGHT: u64 = 1 << 40;

const GREATEST_TIME: u64 = 9_223_372_036_854_775_807;

const GREATEST_SLOT: u64 = 15;

// The number that 1 to 19 digits stand for.
fn number(text: &[u8]) -> Option<u64>
    ensures { result ≡ number_in_text text.now }
{
    if text.is_empty() || text.len() > MOST_DIGITS {
        return None;
    }
    let mut value: u64 = 0;
    for byte in text {
        if !byte.is_ascii_digit() {
            return None;
        }
        value = value * 10 + u64::from(*byte - b'0');
    }
    Some(value)
}

pub(crate) fn time(text: &[u8]) -> Option<u64>
    ensures { result ≡ time_of text.now }
{
    match number(text) {
        Some(value) if value <= GREATEST_TIME => Some(value),
        _ => None,
    }
}

pub(crate) fn slot(text: &[u8]) -> Option<u8>
    ensures { result ≡ slot_of text.now }
{
    match number(text) {
        Some(value) if value <= GREATEST_SLOT => Some(value as u8),
        _ => None,
    }
}

fn magnitude(text: &[u8]) -> Option<i64>
    ensures { result ≡ option_map pos (magnitude_of text.now) }
{
    match number(text) {
        Some(value) if value <= GREATEST_WEIGHT => Some(value as i64),
        _ => None,
    }
}

pub(crate) fn weight(text: &[u8]) -> Option<i64>
    ensures { result ≡ weight_of text.now }
{
    match text {
        [b'-', digits @ ..] => magnitude(digits).map(|size| -size),
        _ => magnitude(text),
    }
}
