//! Version 0 and its pool.

ghost use Rattle.std.specs.Prelude.{◌≡◌, ◌≤◌, true, IfOk, IfErr, OnOk};
ghost use Rattle.block_reclamation.specs.Status.{most_blocks};
ghost use Rattle.batch_columns.specs.Operations.{OperationTable, table_of, are_alike};
ghost use Rattle.opening_columns.specs.Numbers.{RefusesRows};
ghost use Rattle.opening_columns.specs.Openings.{IsLeftOf, IsMadeOf, RefusesColumns, RefusesEdges};

use crate::errors::OpenColumnsError;
use crate::folding::{folded, sort_puts};
use crate::laying::rows_over;
use crate::numbering::{Numbered, number_rows};
use crate::pooling::{LaidOut, laid_out};
use batch_columns::{Operations, are_alike};
use block_pool::Pool;
use graph_types::{Edge, Limits};
use graph_version::Version;
use std::alloc::Global;
use vertex_names::NameBook;

/// Version 0 and the pool of its blocks.
#[derive(Drop)]
pub struct Made {
    pub version: Version,
    pub pool: Pool,
}

/// What rows leave.
#[derive(Drop)]
struct Left {
    names: NameBook,
    kinds: NameBook,
    edges: Vec<Edge>,
}

/// What rows leave, or the place and the error that are told of the first that isn't taken.
fn left_by(
    alloc: Global,
    limits: Limits,
    columns: &Operations<'_>,
) -> Result<Left, (usize, OpenColumnsError)>
    requires alike { are_alike (table_of columns.now) ≡ true }
    ensures left { IfOk result (λ r. IsLeftOf limits (table_of columns.now) r.names r.kinds r.edges.items) }
    ensures refused { IfErr result (λ e. RefusesRows limits (table_of columns.now) e.0 e.1) }
{
    let Numbered {
        names,
        kinds,
        mut puts,
    } = number_rows(alloc, limits, columns)?;
    let Ok(()) = sort_puts(&mut puts) else {
        return Err((0, OpenColumnsError::OutOfMemory));
    };
    match folded(alloc, columns, limits.weight(), puts.as_slice()) {
        Ok(edges) => Ok(Left {
            names,
            kinds,
            edges,
        }),
        Err(_) => Err((0, OpenColumnsError::OutOfMemory)),
    }
}

/// Version 0 of what is left, in as few of so many blocks as its edges need.
fn opened(alloc: Global, limits: Limits, blocks: u32, left: Left) -> Result<Made, OpenColumnsError>
    requires least { 16 ≤ blocks }
    requires most { blocks ≤ most_blocks }
    requires left { (t : OperationTable) × IsLeftOf limits t left.names left.kinds left.edges.items }
    ensures made { IfOk result (λ made. (t : OperationTable) → IsLeftOf limits t left.names left.kinds left.edges.items
        → IsMadeOf limits blocks t made) }
    ensures refused { IfErr result (RefusesEdges blocks left.edges.items) }
{
    let Left {
        names,
        kinds,
        edges,
    } = left;
    let LaidOut {
        pool,
        blocks: bodies,
    } = laid_out(alloc, blocks, edges.as_slice())?;
    let count = edges.len() as u64;
    drop(edges);
    let rows = rows_over(alloc, bodies.as_slice())?;
    // A limit's contract says with its number that all are within the walls.
    let _walls = limits.weight();
    let version = Version::begun(alloc, limits, names, kinds, rows, count)?;
    Ok(Made { version, pool })
}

/// Version 0 of what the insertions and additions in columns leave of the empty graph, one after another, in as few of so many
/// blocks as its edges need, and the pool of these blocks. Another sort of operation is a `BadNumber`.
///
/// `done` tells the place of the first row that is refused, and else 0. `PoolEmpty` exactly where the edges need more blocks, and
/// `OutOfMemory` where a growth was refused, or where there are 2^32 rows and more.
pub fn made_of(
    alloc: Global,
    limits: Limits,
    blocks: u32,
    columns: &Operations<'_>,
    done: &mut u64,
) -> Result<Made, OpenColumnsError>
    requires least { 16 ≤ blocks }
    requires most { blocks ≤ most_blocks }
    ensures made { IfOk result (IsMadeOf limits blocks (table_of columns.now)) }
    ensures refused { IfErr result (RefusesColumns limits blocks (table_of columns.now) done.new) }
    ensures done { OnOk result (done.new ≡ 0) }
{
    *done = 0;
    if !are_alike(columns) {
        return Err(OpenColumnsError::BadLength);
    }
    match left_by(alloc, limits, columns) {
        Ok(left) => opened(alloc, limits, blocks, left),
        Err((place, error)) => {
            *done = place as u64;
            Err(error)
        }
    }
}
