//! Answers with vertices by their numbers.

ghost use Rattle.std.specs.Prelude.{◌≡◌, ◌⊎◌, ℕ, List, Err, IfOk, MatchResult, None, Some, true};
ghost use Rattle.std.specs.Option.{SomeIff, option_map};
ghost use Rattle.std.specs.FinMap.{get};
ghost use Rattle.graph_types.specs.Answer.{filter_refusal, resolved_filter, shown_stamp, is_listed};
ghost use Rattle.graph_types.specs.Step.{number_of};
ghost use Rattle.graph_types.specs.declared.requests.Request.TheVariants.{Levels, Labels, Cores, Degrees, OneEdge};
ghost use Rattle.graph_version.specs.Versions.{content};
ghost use Rattle.version_answers.specs.Numbered.{IsNumberedAnswer};

use graph_cores::{cores, degrees};
use graph_levels::{labels, reached};
use graph_types::{AskError, Degree, Filter, KindId, List, Name, NamedFilter, Request, VertexId};
use graph_version::Version;
use std::alloc::Global;

/// The reply to a request, with vertices by their numbers in the version that was asked; each list is in number order, and
/// but for [`NumberedReply::Reached`] it has one item for each vertex.
#[derive(Debug, Drop)]
pub enum NumberedReply {
    /// The level of each vertex to which a walk leads from the source.
    Levels(List<Option<u32>>),
    /// The vertices to which a walk leads from the source, with their levels, where these are few.
    Reached(List<(VertexId, u32)>),
    /// The least vertex of each vertex's part.
    Labels(List<VertexId>),
    /// Core numbers.
    Cores(List<u32>),
    /// Degrees.
    Degrees(List<Degree>),
    /// Weight, first time and recent time, where the edge is there.
    OneEdge(Option<(i64, u64, u64)>),
}

/// The answer to a request over a version's content, in numbers: the first refusal that holds (`BadWindow`, `NoKind`,
/// `NoVertex`), or else the reply; `OutOfMemory` where a growth was refused, and never for one edge.
///
/// Levels, labels and core numbers take time near to linear in the edges of the view, degrees one pass over the blocks, and
/// one edge a search of its source's row and no memory.
pub fn answer_in_numbers(
    alloc: Global,
    version: &Version,
    request: &Request,
) -> Result<NumberedReply, AskError>
    ensures answer { (result ≡ Err AskError.OutOfMemory) ⊎ IsNumberedAnswer request.now (content version.now) result }
    ensures one_edge { (kind source target : List ℕ) → request.now ≡ OneEdge kind source target
        → IsNumberedAnswer request.now (content version.now) result }
{
    match request {
        Request::Levels { source, filter } => answer_levels(alloc, version, source, filter),
        Request::Labels { filter } => answer_labels(alloc, version, filter),
        Request::Cores { filter } => answer_cores(alloc, version, filter),
        Request::Degrees { filter } => answer_degrees(alloc, version, filter),
        Request::OneEdge {
            kind,
            source,
            target,
        } => answer_edge(version, kind, source, target),
    }
}

/// The level of each vertex that a walk reaches from the source.
fn answer_levels(
    alloc: Global,
    version: &Version,
    source: &Name,
    filter: &NamedFilter,
) -> Result<NumberedReply, AskError>
    ensures { (result ≡ Err AskError.OutOfMemory) ⊎ IsNumberedAnswer (Levels source.now filter.now) (content version.now) result }
{
    let view = resolve(version, filter)?;
    let Some(source) = version.names().number(source.as_str()) else {
        return Err(AskError::NoVertex);
    };
    match reached(alloc, version, VertexId(source), &view) {
        Ok(graph_levels::Levels::Each(levels)) => Ok(NumberedReply::Levels(levels)),
        Ok(graph_levels::Levels::Reached(rows)) => Ok(NumberedReply::Reached(rows)),
        Err(_) => Err(AskError::OutOfMemory),
    }
}

/// The label of each vertex.
fn answer_labels(
    alloc: Global,
    version: &Version,
    filter: &NamedFilter,
) -> Result<NumberedReply, AskError>
    ensures { (result ≡ Err AskError.OutOfMemory) ⊎ IsNumberedAnswer (Labels filter.now) (content version.now) result }
{
    let view = resolve(version, filter)?;
    let table = labels(alloc, version, &view)?;
    Ok(NumberedReply::Labels(List::of(table)))
}

/// The core number of each vertex.
fn answer_cores(
    alloc: Global,
    version: &Version,
    filter: &NamedFilter,
) -> Result<NumberedReply, AskError>
    ensures { (result ≡ Err AskError.OutOfMemory) ⊎ IsNumberedAnswer (Cores filter.now) (content version.now) result }
{
    let view = resolve(version, filter)?;
    let table = cores(alloc, version, &view)?;
    Ok(NumberedReply::Cores(List::of(table)))
}

/// The degrees of each vertex.
fn answer_degrees(
    alloc: Global,
    version: &Version,
    filter: &NamedFilter,
) -> Result<NumberedReply, AskError>
    ensures { (result ≡ Err AskError.OutOfMemory) ⊎ IsNumberedAnswer (Degrees filter.now) (content version.now) result }
{
    let view = resolve(version, filter)?;
    let table = degrees(alloc, version, &view)?;
    Ok(NumberedReply::Degrees(List::of(table)))
}

/// Weight and times of one edge, if it is there. It takes no memory.
fn answer_edge(
    version: &Version,
    kind: &Name,
    source: &Name,
    target: &Name,
) -> Result<NumberedReply, AskError>
    ensures { IsNumberedAnswer (OneEdge kind.now source.now target.now) (content version.now) result }
{
    let Some(kind) = kind_number(version, kind) else {
        return Err(AskError::NoKind);
    };
    let Some(source) = version.names().number(source.as_str()) else {
        return Err(AskError::NoVertex);
    };
    let Some(target) = version.names().number(target.as_str()) else {
        return Err(AskError::NoVertex);
    };
    let edge = edge_marks(version, kind, VertexId(source), VertexId(target));
    Ok(NumberedReply::OneEdge(edge))
}

/// Weight, first time and recent time of the edge of a kind from a source to a target, if it is there.
fn edge_marks(
    version: &Version,
    kind: KindId,
    source: VertexId,
    target: VertexId,
) -> Option<(i64, u64, u64)>
    ensures { result
        ≡ option_map shown_stamp (get (content version.now).edges (record { kind = kind.0; source = source.0; target = target.0 })) }
{
    let edge = version.edge(kind, source, target)?;
    Some((*edge.weight, *edge.first, *edge.recent))
}

/// The number of a kind that has appeared.
#[tactic(auto, using(graph_types::proofs::ListedNames::listed_below))]
fn kind_number(version: &Version, name: &Name) -> Option<KindId>
    ensures { SomeIff (option_map (λ kind. kind.0) result) (is_listed (content version.now).kinds name.now ≡ true)
        (number_of (content version.now).kinds name.now) }
{
    let number = version.kinds().number(name.as_str())?;
    // The limits tell that a kind's number has 8 bits.
    let _limits = version.limits();
    Some(KindId(number as u8))
}

/// The filter with its kind's number in place of the name. It takes no memory.
fn resolve(version: &Version, filter: &NamedFilter) -> Result<Filter, AskError>
    ensures found { IfOk result (λ f. f ≡ resolved_filter (content version.now) filter.now) }
    ensures refused { MatchResult result
        (λ _. filter_refusal (content version.now) filter.now true ≡ None)
        (λ e. filter_refusal (content version.now) filter.now true ≡ Some e) }
{
    if filter.hi < filter.lo {
        return Err(AskError::BadWindow);
    }
    let kind = match &filter.kind {
        Some(name) => {
            let Some(kind) = kind_number(version, name) else {
                return Err(AskError::NoKind);
            };
            Some(kind)
        }
        None => None,
    };
    Ok(Filter {
        kind,
        lo: filter.lo,
        hi: filter.hi,
    })
}
