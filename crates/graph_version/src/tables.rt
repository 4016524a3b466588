//! A version's rows without the version.

ghost use Rattle.std.specs.Prelude.{◌≡◌, IfOk};
ghost use Rattle.graph_version.specs.Differences.{DifferAt};

use crate::rows::Rows;
use crate::versions::Version;
use graph_types::VertexId;
use std::alloc::AllocError;
use std::marker::Model;

/// The rows of a version that nobody has any more, in which the next version can be made.
pub struct RowTable {
    rows: Rows,
}

// Written by hand: who lets one go rests on this function, and not on how each part is let go.
impl Drop for RowTable {
    fn drop(self) {
        let RowTable { rows: _rows } = self;
    }
}

impl Model for RowTable {
    ghost use Rattle.std.specs.Prelude.{List};
    ghost use Rattle.edge_block.specs.Slots.{BlockView};

    ghost Value = { List (List BlockView) };

    ghost view = { λ table. table.rows };
}

impl RowTable {
    /// A version's rows, once those of some sources were taken over from a later version: no other row of theirs differs, so that
    /// they are then the later version's. It takes time by these sources, and copies no page that nobody else has.
    pub fn caught_up(
        version: Version,
        later: &Version,
        sources: &[VertexId],
    ) -> Result<RowTable, AllocError>
        requires { DifferAt sources.now version.rows later.now.rows }
        ensures { IfOk result (λ table. table ≡ later.now.rows) }
    {
        Ok(RowTable {
            rows: version.into_rows().caught_up(&later.rows, sources)?,
        })
    }

    /// Its rows alone.
    pub(crate) fn into_rows(self) -> Rows
        ensures { result ≡ self }
    {
        let RowTable { rows } = self;
        rows
    }
}
