//! The edges of a version by their targets.

ghost use Rattle.std.specs.Prelude.{◌≡◌, ◌++◌, IfOk, OnOk};
ghost use Rattle.std.specs.List.Sorted.{IsNonDecreasingBy};
ghost use Rattle.graph_types.specs.Graph.{entry_of};
ghost use Rattle.graph_types.specs.View as view;
ghost use Rattle.graph_version.specs.InEdges.{edges_into};
ghost use Rattle.graph_version.specs.Edges.{AreEachOnce};
ghost use Rattle.graph_version.specs.Versions.{content};
ghost use Rattle.graph_walks.specs.ByTarget.{AreByTarget, edges_of_version, sources_shown};

use graph_types::{Edge, Filter, KindId, VertexId};
use graph_version::Version;
use std::alloc::{AllocError, Global};
use std::marker::Model;
use std::sync::Arc;

/// A version, and its edges once more, in the order of their targets: so what leads to a vertex is found without a look at all
/// edges. It takes 40 bytes an edge.
pub struct Incoming {
    version: Arc<Version>,
    edges: Vec<Edge>,
}

// By hand, so that who lets one go need not take it apart.
impl Drop for Incoming {
    fn drop(self) {
        let Incoming {
            version: _version,
            edges: _edges,
        } = self;
    }
}

impl Model for Incoming {
    ghost use Rattle.std.specs.Arc.{arc_value};
    ghost use Rattle.std.specs.Coded.{codes};
    ghost use Rattle.graph_types.specs.Coded.{graph_code};
    ghost use Rattle.graph_version.specs.Versions.{VersionView};
    ghost use Rattle.graph_version.specs.declared.versions.Version.{Version};
    ghost use Rattle.graph_walks.specs.ByTarget.{AreByTarget};

    ghost Value = { VersionView };

    ghost coded = { Prim.hlevel (codes, graph_code) };

    ghost view = { λ i. arc_value {X = Version} i.version };

    ghost invariant = { λ i. AreByTarget (arc_value {X = Version} i.version) i.edges.items };
}

impl Incoming {
    ghost use Rattle.std.specs.Arc.{arc_value};
    ghost use Rattle.graph_version.specs.declared.versions.Version.{Version};

    /// Puts the edges of a version in the order of their targets. The only error is out of memory.
    pub fn over(alloc: Global, version: Arc<Version>) -> Result<Incoming, AllocError>
        ensures { IfOk result (λ incoming. incoming ≡ arc_value {X = Version} version) }
    {
        let edges = by_target(alloc, &version)?;
        Ok(Incoming { version, edges })
    }

    /// The version.
    pub fn version(&self) -> &Version
        ensures { result.now ≡ self.now }
    {
        &self.version
    }

    /// The edges that lead to a vertex, of any kind and time: sources rising, those of one source as its row lends them. There
    /// are none of a number that is no vertex. It takes no memory.
    pub fn edges_to(&self, target: VertexId) -> &[Edge]
        ensures edges { result.now ≡ edges_into target.0 (edges_of_version self.now) }
        ensures once { AreEachOnce (edges_of_version self.now) (content self.now) }
    {
        run_to(&self.edges, target.0)
    }
}

/// All edges of a version in the order of their targets, those of one target in the version's own.
fn by_target(alloc: Global, version: &Version) -> Result<Vec<Edge>, AllocError>
    ensures { IfOk result (λ edges. AreByTarget version.now edges.items) }
{
    let mut edges = listed(alloc, version)?;
    edges.sort_by_key(|edge| edge.target.0)?;
    Ok(edges)
}

/// All edges of a version.
fn listed(alloc: Global, version: &Version) -> Result<Vec<Edge>, AllocError>
    ensures edges { IfOk result (λ edges. edges.items ≡ edges_of_version version.now) }
    ensures once { OnOk result (AreEachOnce (edges_of_version version.now) (content version.now)) }
{
    let mut edges = Vec::with_capacity(alloc, version.edge_count() as usize)?;
    for edge in version.edges() {
        edges.push(edge)?;
    }
    Ok(edges)
}

/// The edges to a target, of edges whose targets rise.
fn run_to(edges: &[Edge], target: u32) -> &[Edge]
    requires { IsNonDecreasingBy (λ e. e.target.0) edges.now }
    ensures { result.now ≡ edges_into target edges.now }
{
    let begin = edges.partition_point(|edge| edge.target.0 < target);
    let end = edges.partition_point(|edge| edge.target.0 <= target);
    &edges[begin..end]
}

/// Whether a filter takes edges of a kind.
fn takes_kind(filter: &Filter, kind: KindId) -> bool
    ensures { result ≡ view.takes_kind filter.now.kind kind.0 }
{
    match filter.kind {
        None => true,
        Some(wanted) => wanted.0 == kind.0,
    }
}

/// Whether a filter lets an edge through: by its kind, and by its recent time, both ends of the window included.
pub fn passes(filter: &Filter, edge: &Edge) -> bool
    ensures { result ≡ view.in_view filter.now (entry_of edge.now) }
{
    takes_kind(filter, edge.kind) && filter.lo <= edge.recent && edge.recent <= filter.hi
}

/// Adds the sources of the edges that a filter lets through.
pub(crate) fn push_sources(
    filter: &Filter,
    edges: &[Edge],
    sources: &mut Vec<u32>,
) -> Result<(), AllocError>
    ensures { OnOk result (sources.new.items ≡ sources.old.items ++ sources_shown filter.now edges.now) }
{
    for edge in edges {
        if passes(filter, edge) {
            sources.push(edge.source.0)?;
        }
    }
    Ok(())
}
