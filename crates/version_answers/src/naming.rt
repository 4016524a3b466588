//! Names in place of numbers.

ghost use Rattle.std.specs.Prelude.{◌≡◌, ◌++◌, ℕ, ℤ, [], length, map, zip, IfOk, OnOk, OnErr, slice_index_or};
ghost use Rattle.std.specs.declared.option.Option.{Option};
ghost use Rattle.std.specs.Option.{option_to_list};
ghost use Rattle.graph_types.specs.Answer.{reached, level_row, names_of_vertices};
ghost use Rattle.graph_levels.specs.Reached.{vertex_numbers};
ghost use Rattle.graph_version.specs.Versions.{content};
ghost use Rattle.version_answers.specs.Numbered.{named};
ghost use Rattle.version_answers.specs.declared.numbered.NumberedReply.TheVariants.{OneEdge};

use crate::numbered::NumberedReply;
use graph_types::{List, Name, Reply, VertexId};
use graph_version::Version;
use std::alloc::{AllocError, Global};
use vertex_names::NameBook;

/// The reply with the names that the version's vertices have: each row gets the name of its vertex, levels of vertices that
/// no walk reaches are left out, and a label becomes the name of its vertex.
///
/// Rows past the last vertex are left out, and a vertex past it that is a label or was reached becomes an empty text; a reply
/// about this version has neither. The only error is out of memory, and it never comes for one edge.
pub fn name_reply(
    alloc: Global,
    version: &Version,
    reply: NumberedReply,
) -> Result<Reply, AllocError>
    ensures with_names { IfOk result (λ r. r ≡ named (content version.now).names reply) }
    ensures one_edge { OnErr result ((edge : Option (ℤ × ℕ × ℕ)) → reply ≡ OneEdge edge → ⊥) }
{
    let names = version.names();
    match reply {
        NumberedReply::Levels(levels) => {
            Ok(Reply::Levels(List::of(name_levels(alloc, names, levels.as_slice())?)))
        }
        NumberedReply::Reached(rows) => {
            Ok(Reply::Levels(List::of(name_reached(alloc, names, rows.as_slice())?)))
        }
        NumberedReply::Labels(labels) => {
            Ok(Reply::Labels(List::of(name_labels(alloc, names, labels.as_slice())?)))
        }
        NumberedReply::Cores(numbers) => {
            Ok(Reply::Cores(List::of(name_rows(alloc, names, numbers.as_slice())?)))
        }
        NumberedReply::Degrees(degrees) => {
            Ok(Reply::Degrees(List::of(name_rows(alloc, names, degrees.as_slice())?)))
        }
        NumberedReply::OneEdge(edge) => Ok(Reply::OneEdge(edge)),
    }
}

/// A copy of a vertex's name, and an empty one for a number past the last.
#[tactic(auto, using(graph_types::proofs::ListedNames::name_there, graph_types::proofs::ListedNames::name_past))]
fn name_at(alloc: Global, names: &NameBook, number: u32) -> Result<Name, AllocError>
    ensures { IfOk result (λ name. name ≡ slice_index_or names.now.names number []) }
{
    match names.name(number) {
        Some(text) => Ok(Name::of(String::from_str(alloc, text)?)),
        None => Ok(Name::of(String::new(alloc))),
    }
}

/// Each name with its value.
fn name_rows<T: Copy>(
    alloc: Global,
    names: &NameBook,
    values: &[T],
) -> Result<Vec<(Name, T)>, AllocError>
    ensures { IfOk result (λ rows. rows.items ≡ zip names.now.names values.now) }
{
    let count = names.len().min(values.len());
    let mut rows = Vec::with_capacity(alloc, count)?;
    for vertex in 0..count {
        rows.push((name_at(alloc, names, vertex as u32)?, values[vertex]))?;
    }
    Ok(rows)
}

/// Each name with the name of its label.
fn name_labels(
    alloc: Global,
    names: &NameBook,
    labels: &[VertexId],
) -> Result<Vec<(Name, Name)>, AllocError>
    ensures { IfOk result (λ rows. rows.items ≡ zip names.now.names (names_of_vertices names.now.names (vertex_numbers labels.now))) }
{
    let count = names.len().min(labels.len());
    let mut rows = Vec::with_capacity(alloc, count)?;
    for vertex in 0..count {
        let name = name_at(alloc, names, vertex as u32)?;
        let label = name_at(alloc, names, labels[vertex].0)?;
        rows.push((name, label))?;
    }
    Ok(rows)
}

/// Each name that has a level, with it.
fn name_levels(
    alloc: Global,
    names: &NameBook,
    levels: &[Option<u32>],
) -> Result<Vec<(Name, u32)>, AllocError>
    ensures { IfOk result (λ rows. rows.items ≡ reached names.now.names levels.now) }
{
    let count = names.len().min(levels.len());
    let mut rows = Vec::new(alloc);
    for vertex in 0..count {
        push_level(alloc, &mut rows, names, vertex as u32, levels[vertex])?;
    }
    Ok(rows)
}

/// Adds the row of a vertex that has a level.
fn push_level(
    alloc: Global,
    rows: &mut Vec<(Name, u32)>,
    names: &NameBook,
    vertex: u32,
    level: Option<u32>,
) -> Result<(), AllocError>
    ensures { OnOk result
        (rows.new.items ≡ rows.old.items ++ option_to_list (level_row (slice_index_or names.now.names vertex [], level))) }
{
    if let Some(level) = level {
        rows.push((name_at(alloc, names, vertex)?, level))?;
    }
    Ok(())
}

/// The name of each of these vertices, with its level.
fn name_reached(
    alloc: Global,
    names: &NameBook,
    rows: &[(VertexId, u32)],
) -> Result<Vec<(Name, u32)>, AllocError>
    ensures { IfOk result (λ named. named.items
        ≡ map (λ row. (slice_index_or names.now.names row.0.0 [], row.1)) rows.now) }
{
    let mut named = Vec::with_capacity(alloc, rows.len())?;
    for row in rows {
        named.push((name_at(alloc, names, row.0.0)?, row.1))?;
    }
    Ok(named)
}
