//! Numbers of blocks that stand in the proofs alone.

ghost use Rattle.std.specs.Prelude.{◌≡◌};
ghost use Rattle.graph_version.specs.Rows.{blocks_of, numbers_of};

use graph_version::Version;
use logbook::{Opening as Opens, Pens, Rule, Seen, Start};
use std::marker::Model;

/// What a list of numbers of blocks has for an entry: the numbers of one version.
pub struct AnyNumbers;

impl Model for AnyNumbers {
    ghost use Rattle.std.specs.Prelude.{List, ℕ, []};

    ghost Value = { List ℕ };

    ghost view = { λ any. [] };
}

/// Any numbers may be told.
pub struct AllNumbers;

impl Rule<AnyNumbers, u64> for AllNumbers {
    ghost use Rattle.std.specs.Prelude.{[]};
    ghost use base.Fml.{ftrue};

    ghost holds = { λ cells log. Unit {0} };

    ghost first = { [] };

    ghost hinted = { λ n log. Unit {0} };

    ghost shows = { λ log. [] };

    ghost keeps = { λ names log. ftrue };

    ghost moves = { λ ask before after answer. Unit {0} };
}

/// The numbers of a version's blocks, which stand in the proofs alone: they take no memory.
pub(crate) struct ToldNumbers {
    seen: Seen<AnyNumbers, u64, AllNumbers>,
}

// Written by hand: who lets one go rests on this function, and not on how each part is let go.
impl Drop for ToldNumbers {
    fn drop(self) {
        let ToldNumbers { seen: _seen } = self;
    }
}

impl Model for ToldNumbers {
    ghost use Rattle.std.specs.Prelude.{List, ℕ};
    ghost use Rattle.desk.specs.Told.{first_numbers};

    ghost Value = { List ℕ };

    ghost view = { λ told. first_numbers told.seen.log };
}

/// The numbers of a version's blocks.
struct NumbersOf;

impl Opens<Version, AnyNumbers> for NumbersOf {
    ghost use Rattle.std.specs.Prelude.{◌∷◌, []};
    ghost use Rattle.graph_version.specs.Rows.{blocks_of, numbers_of};

    ghost log = { λ count version. numbers_of (blocks_of version.rows) ∷ [] };
}

impl ToldNumbers {
    /// Those of this version, source by source.
    pub(crate) fn of(version: &Version) -> ToldNumbers
        ensures { result ≡ numbers_of (blocks_of version.now.rows) }
    {
        let (seen, _pens): (Seen<AnyNumbers, u64, AllNumbers>, Pens) = Seen::open_row::<
            Version,
            NumbersOf,
        >(version, Start::alone(), 0);
        ToldNumbers { seen }
    }
}
