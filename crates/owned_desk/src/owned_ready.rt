//! A batch that is ready at a desk with one owner.

ghost use Rattle.std.specs.Prelude.{◌≡◌, length};
ghost use Rattle.std.specs.Arc.{arc_value};
ghost use Rattle.graph_types.specs.Step.{outcomes};
ghost use Rattle.graph_version.specs.declared.versions.Version.{Version};
ghost use Rattle.graph_version.specs.Versions.{content};
ghost use Rattle.store_steps.specs.Acceptances.{Accepts};
ghost use Rattle.owned_desk.specs.Machine.{FollowsBatch};
ghost use Rattle.owned_desk.specs.Owned.{owned_view};
ghost use Rattle.owned_desk.specs.OwnedReady.{KeepsReady};

use crate::kept::Kept;
use crate::owned::OwnedDesk;
use block_reclamation::{Board, SEATS};
use desk::{Accepted, Ready};
use graph_version::Version;
use std::marker::Model;
use std::sync::Arc;

/// A desk with one owner and a batch that is ready: nothing of it can be refused any more, and nobody has seen it yet. It ends in
/// [`finish`](OwnedReady::finish) or [`cancel`](OwnedReady::cancel); where it is dropped, so is the desk.
///
/// ```
/// let ready = desk.begin(batch)?;
/// let desk = if log.append(record).is_ok() { ready.finish().0 } else { ready.cancel() };
/// ```
pub struct OwnedReady {
    ready: Ready,
    board: Board,
    counts: [u64; SEATS],
    opening: u64,
    kept: Kept,
}

// Written by hand: who lets one go rests on this function, and not on how each part is let go.
impl Drop for OwnedReady {
    fn drop(self) {
        let OwnedReady {
            ready: _ready,
            board: _board,
            counts: _counts,
            opening: _opening,
            kept: _kept,
        } = self;
    }
}

impl Model for OwnedReady {
    ghost use Rattle.std.specs.Coded.{codes};
    ghost use Rattle.graph_types.specs.Coded.{graph_code};
    ghost use Rattle.owned_desk.specs.Owned.{owned_view};
    ghost use Rattle.owned_desk.specs.OwnedReady.{OwnedReadyView, KeepsReady};

    ghost Value = { OwnedReadyView };

    ghost coded = { Prim.hlevel (codes, graph_code) };

    ghost view = { λ r. record {
      old = owned_view r.ready.old r.board r.counts r.opening r.kept;
      ops = r.ready.ops;
      new = r.ready.new;
    } };

    ghost invariant = { λ r. KeepsReady (record {
      old = owned_view r.ready.old r.board r.counts r.opening r.kept;
      ops = r.ready.ops;
      new = r.ready.new;
    }) r.kept.touched };
}

impl OwnedReady {
    /// A batch that is ready at the desk of an owner.
    pub(crate) fn of(
        ready: Ready,
        board: Board,
        counts: [u64; SEATS],
        opening: u64,
        kept: Kept,
    ) -> OwnedReady
        requires { KeepsReady (record {
          old = owned_view ready.old board counts opening kept;
          ops = ready.ops;
          new = ready.new;
        }) kept.touched }
        ensures { result ≡ record {
          old = owned_view ready.old board counts opening kept;
          ops = ready.ops;
          new = ready.new;
        } }
    {
        OwnedReady {
            ready,
            board,
            counts,
            opening,
            kept,
        }
    }

    /// The batch is accepted: its version is the last. What is held stays held. Nothing is refused.
    pub fn finish(self) -> (OwnedDesk, Accepted)
        ensures accepted { Accepts self.old.desk self.ops result.0.desk }
        ensures desk { result.0 ≡ record self.old { desk = self.new } }
        ensures number { result.1.number ≡ length self.new.last.batches }
        ensures outcomes { result.1.outcomes ≡ outcomes self.ops (content self.old.desk.last) }
        ensures follows { FollowsBatch self.old self.ops result.0 }
    {
        let OwnedReady {
            ready,
            board,
            counts,
            opening,
            kept,
        } = self;
        let (desk, accepted) = ready.finish();
        (
            OwnedDesk::with(desk, board, counts, opening, kept),
            accepted,
        )
    }

    /// The batch is given up: the desk is the one of before, with all that is held. It takes no memory.
    pub fn cancel(self) -> OwnedDesk
        ensures { result ≡ self.old }
    {
        let OwnedReady {
            ready,
            board,
            counts,
            opening,
            kept,
        } = self;
        OwnedDesk::with(ready.cancel(), board, counts, opening, kept)
    }

    /// The version that the batch leaves.
    pub fn version(&self) -> &Arc<Version>
        ensures { arc_value {X = Version} result.now ≡ self.now.new.last }
    {
        self.ready.version()
    }
}
