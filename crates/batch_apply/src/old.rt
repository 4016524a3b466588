//! The rows of a version from which a batch's expiries may take edges.

ghost use Rattle.std.specs.Prelude.{◌≡◌, IfOk};
ghost use Rattle.graph_types.specs.Parts.{parts_of};
ghost use Rattle.graph_version.specs.Rows.{row_of};
ghost use Rattle.batch_apply.specs.OldRows.{AreOldRows, expiry_time, time_in};

use graph_types::{MOST_WEIGHT, NamedOp, OpParts, VertexId, parts_in};
use graph_version::Version;
use std::alloc::{AllocError, Global};

/// A row with an edge from before the greatest time of a batch's expiries.
#[derive(Clone, Copy, Debug)]
pub struct OldRow {
    pub source: VertexId,
    /// How many blocks of the row have such an edge.
    pub blocks: usize,
}

/// The time of an expiry, 0 of another operation.
fn time_of(op: &NamedOp) -> u64
    ensures { result ≡ time_in (parts_of op.now) }
{
    match parts_in(op, MOST_WEIGHT) {
        OpParts::OfEdge(_, _, _, _) => 0,
        OpParts::OfAll(time) => time,
    }
}

/// The greatest time of the expiries among operations, 0 where there is none.
fn expiry_time(ops: &[NamedOp]) -> u64
    ensures { result ≡ expiry_time ops.now }
{
    let mut time = 0_u64;
    for op in ops {
        time = time.max(time_of(op));
    }
    time
}

/// The rows of a version with an edge from before the greatest time of the expiries among operations, sources rising.
///
/// Of these rows alone headers are read, however many expiries there are; none where there is no expiry.
pub fn old_rows(
    alloc: Global,
    version: &Version,
    ops: &[NamedOp],
) -> Result<Vec<OldRow>, AllocError>
    ensures { IfOk result (λ v. AreOldRows (expiry_time ops.now) (row_of version.now.rows) v.items) }
{
    let mut found = Vec::new(alloc);
    let time = expiry_time(ops);
    if time == 0 {
        return Ok(found);
    }
    let mut from = VertexId(0);
    while let Some((source, blocks)) = version.next_old_row(from, time) {
        found.push(OldRow { source, blocks })?;
        from = VertexId(source.0 + 1);
    }
    Ok(found)
}
