//! A graph that stands in the proofs alone.

ghost use Rattle.std.specs.Prelude.{◌≡◌};
ghost use Rattle.graph_version.specs.Begun.{graph_by};
ghost use Rattle.graph_version.specs.Versions.{content};

use crate::begun::Begun;
use crate::versions::Version;
use logbook::{Opening as Opens, Pens, Rule, Seen, Start};
use std::marker::Model;

/// What a list of graphs has for an entry.
pub struct AnyGraph;

impl Model for AnyGraph {
    ghost use Rattle.std.specs.Coded.{codes};
    ghost use Rattle.graph_types.specs.Coded.{graph_code};
    ghost use Rattle.graph_types.specs.Graph.{Graph};
    ghost use Rattle.graph_types.specs.Step.{empty_graph};

    ghost Value = { Graph };

    ghost coded = { Prim.hlevel (codes, graph_code) };

    ghost view = { λ any. empty_graph };
}

/// Any list of graphs may be told.
pub struct AnyGraphs;

impl Rule<AnyGraph, u64> for AnyGraphs {
    ghost use Rattle.std.specs.Prelude.{[]};
    ghost use base.Fml.{ftrue};

    ghost holds = { λ cells log. Unit {0} };

    ghost first = { [] };

    ghost hinted = { λ n log. Unit {0} };

    ghost shows = { λ log. [] };

    ghost keeps = { λ names log. ftrue };

    ghost moves = { λ ask before after answer. Unit {0} };
}

/// A graph that stands in the proofs alone: it takes no memory.
pub(crate) struct ToldGraph {
    seen: Seen<AnyGraph, u64, AnyGraphs>,
}

// Written by hand: who lets one go rests on this function, and not on how each part is let go.
impl Drop for ToldGraph {
    fn drop(self) {
        let ToldGraph { seen: _seen } = self;
    }
}

impl Model for ToldGraph {
    ghost use Rattle.std.specs.Coded.{codes};
    ghost use Rattle.graph_types.specs.Coded.{graph_code};
    ghost use Rattle.graph_types.specs.Graph.{Graph};
    ghost use Rattle.graph_version.specs.Graphs.{first_graph};

    ghost Value = { Graph };

    ghost coded = { Prim.hlevel (codes, graph_code) };

    ghost view = { λ told. first_graph told.seen.log };
}

/// A version's content.
struct ContentOf;

impl Opens<Version, AnyGraph> for ContentOf {
    ghost use Rattle.std.specs.Prelude.{◌∷◌, []};
    ghost use Rattle.graph_version.specs.Versions.{content};

    ghost log = { λ count version. content version ∷ [] };
}

/// The graph that a version is to begin with.
struct GraphOf;

impl Opens<Begun, AnyGraph> for GraphOf {
    ghost use Rattle.std.specs.Prelude.{◌∷◌, []};
    ghost use Rattle.graph_version.specs.Begun.{graph_by};

    ghost log = { λ count begun. graph_by begun.limits begun.names.names begun.kinds.names begun.rows ∷ [] };
}

impl ToldGraph {
    /// What a version is to begin with.
    pub(crate) fn by(begun: &Begun) -> ToldGraph
        ensures { result ≡ graph_by begun.now.limits begun.now.names.names begun.now.kinds.names begun.now.rows }
    {
        let (seen, _pens): (Seen<AnyGraph, u64, AnyGraphs>, Pens) = Seen::open_row::<
            Begun,
            GraphOf,
        >(begun, Start::alone(), 0);
        ToldGraph { seen }
    }

    /// What a version holds.
    pub(crate) fn of(version: &Version) -> ToldGraph
        ensures { result ≡ content version.now }
    {
        let (seen, _pens): (Seen<AnyGraph, u64, AnyGraphs>, Pens) = Seen::open_row::<
            Version,
            ContentOf,
        >(version, Start::alone(), 0);
        ToldGraph { seen }
    }

    /// The same graph.
    pub(crate) fn share(&self) -> ToldGraph
        ensures { result ≡ self.now }
    {
        ToldGraph {
            seen: self.seen.again(),
        }
    }
}
