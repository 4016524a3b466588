//! Two versions of one graph.

ghost use Rattle.std.specs.Prelude.{◌≡◌, ℕ, length};
ghost use Rattle.std.specs.Arc.{arc_value};
ghost use Rattle.graph_version.specs.declared.versions.Version.{Version};
ghost use Rattle.graph_version.specs.{Differences.DifferAt, Rows.row_of, Versions.{IsVersion, content}};
ghost use Rattle.version_diff.specs.Pairs.{AreSameByNumber, IsNamedAfter, AreSourcesRising, ArePair, version_pair};

use graph_types::VertexId;
use graph_version::Version;
use std::marker::Model;
use std::sync::Arc;

/// An earlier and a later version of one graph, and the sources at which their rows may differ: at every other source the two rows
/// are the same, so nothing became of the edges there.
///
/// A number stands for the same vertex, and the same kind, in both, and in the rows of a source for the same block.
pub struct VersionPair {
    earlier: Arc<Version>,
    later: Arc<Version>,
    /// Rising, each once.
    sources: Vec<VertexId>,
}

// Written by hand: who lets one go rests on this function, and not on how each part is let go.
impl Drop for VersionPair {
    fn drop(self) {
        let VersionPair {
            earlier: _earlier,
            later: _later,
            sources: _sources,
        } = self;
    }
}

impl Model for VersionPair {
    ghost use Rattle.std.specs.Arc.{arc_value};
    ghost use Rattle.std.specs.Coded.{codes};
    ghost use Rattle.graph_types.specs.Coded.{graph_code};
    ghost use Rattle.graph_version.specs.declared.versions.Version.{Version};
    ghost use Rattle.version_diff.specs.Pairs.{PairView, ArePair, version_pair};

    ghost Value = { PairView };

    ghost coded = { Prim.hlevel (codes, graph_code) };

    ghost view = { λ p. version_pair (arc_value {X = Version} p.earlier) (arc_value {X = Version} p.later) };

    ghost invariant = { λ p. ArePair (arc_value {X = Version} p.earlier) (arc_value {X = Version} p.later) p.sources.items };
}

impl VersionPair {
    /// These two versions, which have the same rows but at these sources.
    pub fn of(earlier: Arc<Version>, later: Arc<Version>, sources: Vec<VertexId>) -> VersionPair
        requires named { IsNamedAfter (arc_value {X = Version} earlier) (arc_value {X = Version} later) }
        requires alike { (source : ℕ)
            → AreSameByNumber (row_of (arc_value {X = Version} earlier).rows source) (row_of (arc_value {X = Version} later).rows source) }
        requires differ { DifferAt sources.items (arc_value {X = Version} earlier).rows (arc_value {X = Version} later).rows }
        requires rising { AreSourcesRising sources.items }
        ensures { result ≡ version_pair (arc_value {X = Version} earlier) (arc_value {X = Version} later) }
    {
        VersionPair {
            earlier,
            later,
            sources,
        }
    }

    /// The earlier version.
    pub fn earlier(&self) -> &Version
        ensures version { result.now ≡ self.now.earlier }
        ensures named { IsNamedAfter self.now.earlier self.now.later }
    {
        &self.earlier
    }

    /// The later version.
    pub fn later(&self) -> &Version
        ensures version { result.now ≡ self.now.later }
        ensures named { IsNamedAfter self.now.earlier self.now.later }
        ensures alike { (source : ℕ) → AreSameByNumber (row_of self.now.earlier.rows source) (row_of self.now.later.rows source) }
    {
        &self.later
    }

    /// How many vertices the later version has: the earlier one has no more.
    pub(crate) fn vertices(&self) -> u32
        ensures { result ≡ length (content self.now.later).names }
    {
        self.later.names().len() as u32
    }

    /// The sources at which the rows may differ, rising.
    pub(crate) fn sources(&self) -> &[VertexId]
        ensures pair { ArePair self.now.earlier self.now.later result.now }
        ensures version { IsVersion self.now.earlier }
    {
        // The version tells with its number what is true of each version.
        let _number = self.earlier.number();
        &self.sources
    }
}
