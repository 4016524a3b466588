//! The answer to a request, by passes over the plain lists.

ghost use Rattle.std.specs.Prelude.{◌≡◌, ◌⊎◌, ◌≤◌, ◌<◌, length, All, IfOk, OnOk, IfErr, MatchResult, None, Some, true};
ghost use Rattle.std.specs.Prelude.{false, nat_abs};
ghost use Rattle.graph_types.specs.Answer.{IsAnswer, is_listed, filter_refusal, resolved_filter, degree_table, shown_stamp};
ghost use Rattle.graph_types.specs.Degrees.{CountsEdge, HasDegreeRoom, with_edge};
ghost use Rattle.graph_types.specs.Graph.{graph_of, map_of, IsContent};
ghost use Rattle.graph_types.specs.Limits.{most_kinds};
ghost use Rattle.graph_types.specs.Step.{number_of};
ghost use Rattle.graph_types.specs.Changes.{stamp_in};
ghost use Rattle.graph_model.specs.Drafts.{shown_key};
ghost use Rattle.graph_model.specs.Refusals.{needs_memory};
ghost use Rattle.std.specs.FinMap.{get};
ghost use Rattle.std.specs.Option.{option_map};

use crate::analyses::{name_rows, reply_cores, reply_labels, reply_levels};
use crate::arcs::shows;
use crate::edges::{EdgeKey, marks_at};
use crate::names::place_in;
use graph_types::{
    AskError, Content, Degree, Edge, EdgeMarks, Filter, KindId, List, Name, NamedFilter, Reply,
    Request, VertexId,
};
use std::alloc::{AllocError, Global};

/// The answer to a request over a content: the first refusal that holds (`BadWindow`, `NoKind`, `NoVertex`), or
/// else the reply; `OutOfMemory` where a growth was refused.
///
/// The degrees take one pass over the edges and one over the names, and memory for a table of degrees and for the
/// reply. One edge takes a pass over the names and one over the edges, and no memory.
pub fn plain_reply(alloc: Global, content: &Content, request: &Request) -> Result<Reply, AskError>
    requires { IsContent content.now }
    ensures answer { (result ≡ Err AskError.OutOfMemory) ⊎ IsAnswer request.now (graph_of content.now) result }
    ensures without_memory { needs_memory request.now ≡ false → IsAnswer request.now (graph_of content.now) result }
{
    match request {
        Request::Levels { source, filter } => reply_levels(alloc, content, source, filter),
        Request::Labels { filter } => reply_labels(alloc, content, filter),
        Request::Cores { filter } => reply_cores(alloc, content, filter),
        Request::Degrees { filter } => reply_degrees(alloc, content, filter),
        Request::OneEdge {
            kind,
            source,
            target,
        } => reply_edge(content, kind, source, target),
    }
}

/// The degrees of each vertex.
fn reply_degrees(alloc: Global, content: &Content, filter: &NamedFilter) -> Result<Reply, AskError>
    requires { IsContent content.now }
    ensures { (result ≡ Err AskError.OutOfMemory) ⊎ IsAnswer (Request.Degrees filter.now) (graph_of content.now) result }
{
    let filter = resolve(content, filter)?;
    let table = tally(alloc, content, filter)?;
    let rows = name_rows(alloc, content.names.as_slice(), table.as_slice())?;
    Ok(Reply::Degrees(List::of(rows)))
}

/// Weight and times of one edge, if it is there.
#[tactic(auto, using(graph_types::proofs::NameNumbers::place_none, graph_types::proofs::NameNumbers::place_some, graph_types::proofs::NameNumbers::place_number, graph_types::proofs::NameNumbers::place_within))]
fn reply_edge(
    content: &Content,
    kind: &Name,
    source: &Name,
    target: &Name,
) -> Result<Reply, AskError>
    requires { IsContent content.now }
    ensures { IsAnswer (Request.OneEdge kind.now source.now target.now) (graph_of content.now) result }
{
    let Some(kind) = place_in(content.kinds.as_slice(), kind) else {
        return Err(AskError::NoKind);
    };
    let Some(source) = place_in(content.names.as_slice(), source) else {
        return Err(AskError::NoVertex);
    };
    let Some(target) = place_in(content.names.as_slice(), target) else {
        return Err(AskError::NoVertex);
    };
    let key = EdgeKey::of(kind, source, target);
    Ok(Reply::OneEdge(shown_at(content.edges.as_slice(), key)))
}

/// Weight, first time and recent time of the edge with this key, if it is listed.
fn shown_at(edges: &[Edge], key: EdgeKey) -> Option<(i64, u64, u64)>
    ensures { result ≡ option_map shown_stamp (get (map_of edges.now) (shown_key key)) }
{
    let marks = marks_at(edges, key)?;
    Some(times_of(marks))
}

/// Weight, first time and recent time.
fn times_of(marks: EdgeMarks) -> (i64, u64, u64)
    ensures { result ≡ shown_stamp (stamp_in marks) }
{
    (marks.weight, marks.first, marks.recent)
}

/// The filter with its kind's number in place of the name.
pub(crate) fn resolve(content: &Content, filter: &NamedFilter) -> Result<Filter, AskError>
    requires { length content.now.kinds ≤ most_kinds }
    ensures found { IfOk result (λ f. f ≡ resolved_filter (graph_of content.now) filter.now) }
    ensures refused { MatchResult result
        (λ _. filter_refusal (graph_of content.now) filter.now true ≡ None)
        (λ e. filter_refusal (graph_of content.now) filter.now true ≡ Some e) }
{
    if filter.hi < filter.lo {
        return Err(AskError::BadWindow);
    }
    let kind = match &filter.kind {
        Some(name) => Some(kind_of(content, name)?),
        None => None,
    };
    Ok(Filter {
        kind,
        lo: filter.lo,
        hi: filter.hi,
    })
}

/// A kind's number.
#[tactic(auto, using(graph_types::proofs::NameNumbers::place_none, graph_types::proofs::NameNumbers::place_some, graph_types::proofs::NameNumbers::place_number))]
fn kind_of(content: &Content, name: &Name) -> Result<KindId, AskError>
    requires { length content.now.kinds ≤ most_kinds }
    ensures found { IfOk result (λ kind. kind.0 ≡ number_of content.now.kinds name.now) }
    ensures listed { OnOk result (is_listed content.now.kinds name.now ≡ true) }
    ensures refused { IfErr result (λ e. (e ≡ AskError.NoKind) × (is_listed content.now.kinds name.now ≡ false)) }
{
    match place_in(content.kinds.as_slice(), name) {
        Some(place) => Ok(KindId(place as u8)),
        None => Err(AskError::NoKind),
    }
}

/// The degrees of each vertex, by number.
#[tactic(auto, using(graph_types::proofs::DegreeTables::tally_none, graph_types::proofs::DegreeTables::tally_shown, graph_types::proofs::DegreeTables::tally_hidden))]
fn tally(alloc: Global, content: &Content, filter: Filter) -> Result<Vec<Degree>, AllocError>
    requires { IsContent content.now }
    ensures { IfOk result (λ table. table.items ≡ degree_table filter (graph_of content.now)) }
{
    let none = Degree {
        outgoing: 0,
        incoming: 0,
        out_weight: 0,
    };
    let names = content.names.as_slice();
    let edges = content.edges.as_slice();
    let mut table = vec![in alloc; none; names.len()]?;
    for edge in edges {
        if shows(filter, edge) {
            count_edge(&mut table, edge);
        }
    }
    Ok(table)
}

/// Counts an edge at its two ends.
fn count_edge(table: &mut Vec<Degree>, edge: &Edge)
    requires source { edge.now.source.0 < length table.old.items }
    requires target { edge.now.target.0 < length table.old.items }
    requires room { All (HasDegreeRoom (nat_abs edge.now.weight)) table.old.items }
    ensures { CountsEdge edge.now table.old.items table.new.items }
{
    count_at(&mut table[edge.source.0 as usize], edge, edge.source);
    if edge.target != edge.source {
        count_at(&mut table[edge.target.0 as usize], edge, edge.target);
    }
}

/// Counts an edge at a vertex.
fn count_at(degree: &mut Degree, edge: &Edge, vertex: VertexId)
    requires room { HasDegreeRoom (nat_abs edge.now.weight) degree.old }
    ensures { degree.new ≡ with_edge edge.now vertex.0 degree.old }
{
    if edge.source == vertex {
        degree.outgoing += 1;
        degree.out_weight += edge.weight;
    }
    if edge.target == vertex {
        degree.incoming += 1;
    }
}
