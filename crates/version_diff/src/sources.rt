//! What became of the edges of sources from one on.

ghost use Rattle.std.specs.Prelude.{◌≡◌, ◌++◌, OnOk, IfOk};
ghost use Rattle.version_diff.specs.Differences.{difference_at};
ghost use Rattle.version_diff.specs.Columns.{IsFound};

use crate::pairs::VersionPair;
use crate::rows::{EdgeDifference, push_difference};
use graph_types::{Filter, VertexId};
use std::alloc::{AllocError, Global};

/// What became of the edges of some sources.
#[derive(Drop)]
pub(crate) enum Found {
    /// Of whole sources, with the first one that isn't in.
    Whole(Vec<EdgeDifference>, u32),
    /// There is no room for those of the next source, which are so many.
    TooLong(usize),
}

/// Adds what became of a source's edges.
fn push_source(
    alloc: Global,
    differences: &mut Vec<EdgeDifference>,
    pair: &VersionPair,
    view: &Filter,
    source: VertexId,
) -> Result<(), AllocError>
    ensures { OnOk result (differences.new.items ≡ differences.old.items ++ difference_at view.now pair.now source.0) }
{
    let earlier = pair.earlier().row_blocks(source);
    let later = pair.later().row_blocks(source);
    push_difference(alloc, differences, earlier, later, view, source.0)
}

/// Finds what became of the edges of the sources from one on, source by source, as far as there is room.
pub(crate) fn find_differences(
    alloc: Global,
    pair: &VersionPair,
    view: &Filter,
    from: u32,
    room: usize,
) -> Result<Found, AllocError>
    ensures { IfOk result (IsFound view.now pair.now from room) }
{
    let vertices = pair.vertices();
    let mut differences = Vec::new(alloc);
    let mut next = from;
    for source in pair.sources() {
        if source.0 < next {
            continue;
        }
        if source.0 >= vertices {
            break;
        }
        let before = differences.len();
        push_source(alloc, &mut differences, pair, view, *source)?;
        let count = differences.len();
        if count > room {
            if before == 0 {
                return Ok(Found::TooLong(count));
            }
            differences.truncate(before);
            return Ok(Found::Whole(differences, source.0));
        }
        next = source.0 + 1;
    }
    let end = from.max(vertices);
    Ok(Found::Whole(differences, end))
}
