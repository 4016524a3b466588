//! What is told of a posted version.

ghost use Rattle.std.specs.Prelude.{◌≡◌, IfOk, MatchBool};
ghost use Rattle.std.specs.Arc.{arc_value};
ghost use Rattle.graph_version.specs.declared.versions.Version.{Version};
ghost use Rattle.version_shelf.specs.Shelves.{Begins, IsOfOneShelf};

use crate::history::History;
use graph_version::Version;
use left_right::Absorb;
use std::alloc::AllocError;
use std::fmt;
use std::marker::Model;
use std::sync::Arc;

/// A version that was posted, and the beginning of the shelf's history that its batches are.
#[derive(Drop)]
pub struct Told {
    pub(crate) version: Arc<Version>,
    pub(crate) history: History,
}

// Written by hand: the version by its number and counts. The history stands in the proofs alone, but for its length.
impl fmt::Debug for Told {
    fn fmt<F: fmt::Write>(&self, f: &mut fmt::Formatter<F>) -> fmt::Result {
        f.debug_struct("Told")
            .field("version", &*self.version)
            .finish_non_exhaustive()
    }
}

impl Model for Told {
    ghost use Rattle.std.specs.Prelude.{◌≡◌};
    ghost use Rattle.std.specs.Arc.{arc_value};
    ghost use Rattle.graph_version.specs.declared.versions.Version.{Version};
    ghost use Rattle.version_shelf.specs.Shelves.{ToldView};
    ghost use Rattle.std.specs.Coded.{codes};
    ghost use Rattle.graph_types.specs.Coded.{graph_code};

    ghost Value = { ToldView };

    ghost coded = { Prim.hlevel (codes, graph_code) };

    ghost view = { λ t. record { book = t.history.book; version = arc_value {X = Version} t.version } };

    ghost invariant = { λ t. (arc_value {X = Version} t.version).batches ≡ t.history.batches };
}

impl Told {
    /// A shared copy.
    pub fn share(&self) -> Result<Told, AllocError>
        ensures { IfOk result (λ told. told ≡ self.now) }
    {
        Ok(Told {
            version: Arc::try_clone(&self.version)?,
            history: self.history.share(),
        })
    }

    /// Whether the other one has more batches. Then it begins with all of this one, and else it begins this one.
    pub(crate) fn is_below(&self, other: &Told) -> bool
        requires { IsOfOneShelf self.now other.now }
        ensures { MatchBool result (Begins self.now other.now) (Begins other.now self.now) }
    {
        self.history.is_below(&other.history)
    }
}

/// Nothing is ever applied: a publication sets the copy that no reader has, whole. So copies have nothing in common.
impl Absorb<()> for Told {
    type State = ();

    ghost state = { λ shown. tt };

    ghost applied = { λ state operation. tt };

    fn absorb_first(&mut self, _operation: &(), _other: &Told) -> Result<(), AllocError> {
        Ok(())
    }
}
