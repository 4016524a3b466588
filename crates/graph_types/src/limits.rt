//! How many names, kinds and batches a store may have, and how large its weights may be.

ghost use Rattle.std.specs.Prelude.{◌≡◌, MatchResult};
ghost use Rattle.graph_types.specs.Limits.{AreLimits, standard_limits, weight_limit};

use std::marker::Model;
use thiserror::Error;

/// How many names, batches and blocks there may be where no limits are chosen.
pub const STANDARD_SIZE: u32 = 65_536;

/// How large a weight is at the most, and may be where no limit is chosen: 2^40.
pub const MOST_WEIGHT: u64 = 1 << 40;

/// How many vertex names, kind names and batches there may be, and how large a weight may be: chosen where a store is opened,
/// and kept by all its versions.
///
/// There are at most 67,108,863 names, 64 kinds and 4,294,967,295 batches, and a weight is at most 2^40. A sum of weights, one
/// for each kind of each name and one more, is below 2^63: so with weights of up to 2^40 names times kinds is at most 8,388,606.
///
/// ```
/// let limits = Limits::new(2_000_000, 4, 1_000_000)?;
/// assert_eq!(rt; limits.names(), 2_000_000);
/// assert_eq!(rt; Limits::standard().names(), 65_536);
/// let many = Limits::within(20_000_000, 4, 1_000_000, 1_000_000)?;
/// assert_eq!(rt; many.weight(), 1_000_000);
/// ```
#[derive(Clone, Copy, Debug, PartialEq, Eq)]
pub struct Limits {
    names: u32,
    kinds: u32,
    batches: u32,
    weight: u64,
}

impl Model for Limits {
    ghost use Rattle.graph_types.specs.Limits.{LimitsView, AreLimits};

    ghost Value = { LimitsView };

    ghost view = { λ l. record { names = l.names; kinds = l.kinds; batches = l.batches; weight = l.weight } };

    ghost invariant = { λ l.
        AreLimits (record { names = l.names; kinds = l.kinds; batches = l.batches; weight = l.weight }) };

    ghost inverse = { λ l. record { names = l.names; kinds = l.kinds; batches = l.batches; weight = l.weight } };
}

/// A limit past its wall.
#[derive(Clone, Copy, Debug, PartialEq, Eq, Error)]
#[error("a limit on names, kinds, batches or weights is past its wall")]
pub struct BadLimits;

impl Limits {
    /// 65,536 names, 64 kinds, 65,536 batches, and weights of up to 2^40.
    pub fn standard() -> Limits
        ensures value { result ≡ standard_limits }
        ensures limits { AreLimits result }
    {
        Limits {
            names: STANDARD_SIZE,
            kinds: 64,
            batches: STANDARD_SIZE,
            weight: MOST_WEIGHT,
        }
    }

    /// So many names, kinds and batches, and weights of up to 2^40, where these are within the walls.
    pub fn new(names: u32, kinds: u32, batches: u32) -> Result<Limits, BadLimits>
        ensures { MatchResult result
            (λ limits. (limits ≡ record { names = names; kinds = kinds; batches = batches; weight = weight_limit })
            × AreLimits limits)
            (λ _. AreLimits (record { names = names; kinds = kinds; batches = batches; weight = weight_limit }) → ⊥) }
    {
        Limits::within(names, kinds, batches, MOST_WEIGHT)
    }

    /// So many names, kinds and batches, and weights of up to this size, where these are within the walls.
    pub fn within(names: u32, kinds: u32, batches: u32, weight: u64) -> Result<Limits, BadLimits>
        ensures { MatchResult result
            (λ limits. (limits ≡ record { names = names; kinds = kinds; batches = batches; weight = weight })
            × AreLimits limits)
            (λ _. AreLimits (record { names = names; kinds = kinds; batches = batches; weight = weight }) → ⊥) }
    {
        let places = u64::from(names) * u64::from(kinds);
        let is_within = names <= 67_108_863
            && kinds <= 64
            && weight <= MOST_WEIGHT
            && u128::from(places + 1) * u128::from(weight) < 1 << 63;
        if !is_within {
            return Err(BadLimits);
        }
        Ok(Limits {
            names,
            kinds,
            batches,
            weight,
        })
    }

    /// How many vertex names there may be.
    pub fn names(self) -> u32
        ensures number { result ≡ self.names }
        ensures limits { AreLimits self }
    {
        self.names
    }

    /// How many kind names there may be.
    pub fn kinds(self) -> u32
        ensures number { result ≡ self.kinds }
        ensures limits { AreLimits self }
    {
        self.kinds
    }

    /// How many batches there may be.
    pub fn batches(self) -> u32
        ensures number { result ≡ self.batches }
        ensures limits { AreLimits self }
    {
        self.batches
    }

    /// How large a weight may be.
    pub fn weight(self) -> u64
        ensures number { result ≡ self.weight }
        ensures limits { AreLimits self }
    {
        self.weight
    }
}
