//! The answers that are tables of levels, labels and core numbers: refusals in their order, and names put in.

ghost use Rattle.std.specs.Prelude.{◌≡◌, ◌⊎◌, ◌<◌, ◌++◌, length, zip, All, IfOk, OnOk};
ghost use Rattle.std.specs.Option.{option_to_list};
ghost use Rattle.graph_types.specs.Answer.{IsAnswer, reached, level_row, names_of_vertices};
ghost use Rattle.graph_types.specs.Graph.{graph_of, IsContent};
ghost use Rattle.graph_types.specs.declared.requests.Request.TheVariants.{Levels, Labels, Cores};

use crate::cores::plain_cores;
use crate::names::place_in;
use crate::reply::resolve;
use crate::walks::{plain_labels, plain_levels};
use graph_types::{AskError, Content, List, Name, NamedFilter, Reply, VertexId};
use std::alloc::{AllocError, Global};

/// The level of each vertex that a walk reaches from the source.
#[tactic(auto, using(graph_types::proofs::NameNumbers::place_none, graph_types::proofs::NameNumbers::place_some, graph_types::proofs::NameNumbers::place_number, graph_types::proofs::NameNumbers::place_within, graph_types::proofs::AnalysisReplies::refused_so, graph_types::proofs::AnalysisReplies::vertex_refused))]
pub(crate) fn reply_levels(
    alloc: Global,
    content: &Content,
    source: &Name,
    filter: &NamedFilter,
) -> Result<Reply, AskError>
    requires { IsContent content.now }
    ensures { (result ≡ Err AskError.OutOfMemory) ⊎ IsAnswer (Levels source.now filter.now) (graph_of content.now) result }
{
    let filter = resolve(content, filter)?;
    let Some(source) = place_in(content.names.as_slice(), source) else {
        return Err(AskError::NoVertex);
    };
    let levels = plain_levels(alloc, content, filter, VertexId(source as u32))?;
    let rows = name_levels(alloc, content.names.as_slice(), &levels)?;
    Ok(Reply::Levels(List::of(rows)))
}

/// The label of each vertex.
pub(crate) fn reply_labels(
    alloc: Global,
    content: &Content,
    filter: &NamedFilter,
) -> Result<Reply, AskError>
    requires { IsContent content.now }
    ensures { (result ≡ Err AskError.OutOfMemory) ⊎ IsAnswer (Labels filter.now) (graph_of content.now) result }
{
    let filter = resolve(content, filter)?;
    let labels = plain_labels(alloc, content, filter)?;
    let rows = name_labels(alloc, content.names.as_slice(), &labels)?;
    Ok(Reply::Labels(List::of(rows)))
}

/// The core number of each vertex.
pub(crate) fn reply_cores(
    alloc: Global,
    content: &Content,
    filter: &NamedFilter,
) -> Result<Reply, AskError>
    requires { IsContent content.now }
    ensures { (result ≡ Err AskError.OutOfMemory) ⊎ IsAnswer (Cores filter.now) (graph_of content.now) result }
{
    let filter = resolve(content, filter)?;
    let numbers = plain_cores(alloc, content, filter)?;
    let rows = name_rows(alloc, content.names.as_slice(), &numbers)?;
    Ok(Reply::Cores(List::of(rows)))
}

/// Each name that has a level, with it.
fn name_levels(
    alloc: Global,
    names: &[Name],
    levels: &[Option<u32>],
) -> Result<Vec<(Name, u32)>, AllocError>
    ensures { IfOk result (λ rows. rows.items ≡ reached names.now levels.now) }
{
    let mut rows = Vec::new(alloc);
    for (name, level) in names.iter().zip(levels) {
        push_level(&mut rows, name, *level)?;
    }
    Ok(rows)
}

/// Adds the row of a name that has a level.
fn push_level(
    rows: &mut Vec<(Name, u32)>,
    name: &Name,
    level: Option<u32>,
) -> Result<(), AllocError>
    ensures { OnOk result (rows.new.items ≡ rows.old.items ++ option_to_list (level_row (name.now, level))) }
{
    if let Some(level) = level {
        rows.push((name.clone()?, level))?;
    }
    Ok(())
}

/// Each name with the name of its label.
fn name_labels(
    alloc: Global,
    names: &[Name],
    labels: &[u32],
) -> Result<Vec<(Name, Name)>, AllocError>
    requires { All (λ label. label < length names.now) labels.now }
    ensures { IfOk result (λ rows. rows.items ≡ zip names.now (names_of_vertices names.now labels.now)) }
{
    let mut rows = Vec::with_capacity(alloc, names.len())?;
    for (name, label) in names.iter().zip(labels) {
        rows.push((name.clone()?, names[*label as usize].clone()?))?;
    }
    Ok(rows)
}

/// Each name with its value.
pub(crate) fn name_rows<T: Copy>(
    alloc: Global,
    names: &[Name],
    values: &[T],
) -> Result<Vec<(Name, T)>, AllocError>
    ensures { IfOk result (λ rows. rows.items ≡ zip names.now values.now) }
{
    let mut rows = Vec::with_capacity(alloc, names.len())?;
    for (name, value) in names.iter().zip(values) {
        rows.push((name.clone()?, *value))?;
    }
    Ok(rows)
}
