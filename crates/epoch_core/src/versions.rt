//! Versions by their numbers.

ghost use Rattle.std.specs.Prelude.{◌≡◌, IfOk};
ghost use Rattle.std.specs.Option.{option_copied, unwrap_or};
ghost use Rattle.graph_types.specs.Graph as graph;
ghost use Rattle.epoch_core.specs.Versions as specs;

use crate::states::{Opening, Version};
use graph_types::{Content, Edge, List, Name};
use std::alloc::{AllocError, Global};

/// The version of this number; `None` for version 0, and for a number past the last. It takes no memory.
pub(crate) fn posted_at(versions: &[Version], number: u64) -> Option<&Version>
    ensures { option_copied result ≡ specs.posted_at versions.now number }
{
    if number == 0 {
        return None;
    }
    versions.get((number - 1) as usize)
}

/// The blocks of the version of this number: the opening's for version 0, and for a number past the last. It takes no
/// memory.
pub fn blocks_at<'a>(opening: &'a Opening, versions: &'a [Version], number: u64) -> &'a [usize]
    ensures { result.now ≡ specs.blocks_at opening.now versions.now number }
{
    match posted_at(versions, number) {
        Some(version) => version.blocks.as_slice(),
        None => opening.blocks.as_slice(),
    }
}

/// A copy of a list of names.
fn copy_names(alloc: Global, names: &[Name]) -> Result<List<Name>, AllocError>
    ensures { IfOk result (λ copy. copy ≡ names.now) }
{
    let mut copy = Vec::new(alloc);
    for name in names {
        copy.push(name.clone()?)?;
    }
    Ok(List::of(copy))
}

/// The content of these names, kinds and edges.
fn content_of(
    alloc: Global,
    names: &[Name],
    kinds: &[Name],
    edges: Vec<Edge>,
) -> Result<Content, AllocError>
    ensures { IfOk result (λ content. content ≡ graph.content_of names.now kinds.now edges.items) }
{
    Ok(Content {
        names: copy_names(alloc, names)?,
        kinds: copy_names(alloc, kinds)?,
        edges: List::of(edges),
    })
}

/// The content of the names and kinds of the version of this number, the opening's for version 0 and for a number past
/// the last, and of these edges. Out of memory is the only error.
pub fn content_with(
    alloc: Global,
    opening: &Opening,
    versions: &[Version],
    number: u64,
    edges: Vec<Edge>,
) -> Result<Content, AllocError>
    ensures { IfOk result (λ content. content ≡ specs.content_with
        (specs.version_at opening.now versions.now number) edges.items) }
{
    match posted_at(versions, number) {
        Some(version) => content_of(
            alloc,
            version.names.as_slice(),
            version.kinds.as_slice(),
            edges,
        ),
        None => content_of(
            alloc,
            opening.content.names.as_slice(),
            opening.content.kinds.as_slice(),
            edges,
        ),
    }
}
