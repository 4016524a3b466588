//! The draft of a version.

ghost use Rattle.std.specs.Prelude.{◌≡◌, ◌%◌, ◌^◌, ◌<◌, length, IfOk, IfSome};
ghost use Rattle.graph_version.specs.Batches.{batch_value};
ghost use Rattle.graph_version.specs.Rows.{blocks_of};
ghost use Rattle.graph_version.specs.Sharing.{block_values};
ghost use Rattle.graph_version.specs.Edges.{edges_in_blocks};
ghost use Rattle.graph_version.specs.Kept.{edge_total};
ghost use Rattle.graph_version.specs.Drafts.{DraftView, drafted_over, with_batch, row_values, ReplacesRow, ReplacesRows, IsNextDraft, IsWhole};

use crate::batch_log::BatchLog;
use crate::opening::Opening;
use crate::row::Row;
use crate::rows::Rows;
use crate::tables::RowTable;
use crate::versions::Version;
use edge_block::Block;
use graph_types::{Batch, VertexId};
use std::alloc::AllocError;
use std::marker::Model;
use std::sync::Arc;
use vertex_names::NameBook;

/// A version that is being made over another one, from which it takes all that isn't set or replaced.
///
/// After a refused growth the draft is given up, and the version that it was drafted over is as before.
#[derive(Drop)]
pub struct VersionDraft {
    opening: Opening,
    names: NameBook,
    kinds: NameBook,
    batches: BatchLog,
    rows: Rows,
}

impl Model for VersionDraft {
    ghost use Rattle.std.specs.Prelude.{◌≡◌};
    ghost use Rattle.graph_version.specs.Kept.{version_of, opening_graph};
    ghost use Rattle.graph_version.specs.Logs.{keeps_batches};
    ghost use Rattle.graph_version.specs.Drafts.{DraftView};
    ghost use Rattle.std.specs.Coded.{codes};
    ghost use Rattle.graph_types.specs.Coded.{graph_code};

    ghost Value = { DraftView };

    ghost coded = { Prim.hlevel (codes, graph_code) };

    ghost view = { λ d. record {
      names = d.names;
      kinds = d.kinds;
      version = version_of (opening_graph d.opening) d.batches.batches d.rows;
    } };

    ghost invariant = { λ d. d.batches.keeps ≡ keeps_batches (opening_graph d.opening).limits };
}

impl VersionDraft {
    /// A draft of a version like this one. It shares the rows, the batches and the names: one reference for each
    /// 65,536 rows, one for each 8,192 batches, and one for all of a book's names.
    pub fn over(version: &Version) -> Result<VersionDraft, AllocError>
        ensures { IfOk result (λ draft. draft ≡ drafted_over version.now) }
    {
        VersionDraft::over_named(version, version.names.share()?, version.kinds.share()?)
    }

    /// As `over` and then `set_names`, for who has the books at hand: those of the version aren't shared.
    pub(crate) fn over_named(
        version: &Version,
        names: NameBook,
        kinds: NameBook,
    ) -> Result<VersionDraft, AllocError>
        ensures { IfOk result (λ draft. draft ≡ record (drafted_over version.now) { names = names; kinds = kinds }) }
    {
        Ok(VersionDraft {
            names,
            kinds,
            batches: version.batches.share()?,
            rows: version.rows.share()?,
            opening: version.opening.share()?,
        })
    }

    /// As `over_named`, made in a table of rows that are the version's, if there is one: no page of it that nobody else has is
    /// copied. Without one the version's rows are shared.
    pub(crate) fn over_table(
        version: &Version,
        names: NameBook,
        kinds: NameBook,
        table: Option<RowTable>,
    ) -> Result<VersionDraft, AllocError>
        requires { IfSome table (λ t. t ≡ version.now.rows) }
        ensures { IfOk result (λ draft. draft ≡ record (drafted_over version.now) { names = names; kinds = kinds }) }
    {
        let Some(table) = table else {
            return VersionDraft::over_named(version, names, kinds);
        };
        Ok(VersionDraft {
            names,
            kinds,
            batches: version.batches.share()?,
            rows: table.into_rows(),
            opening: version.opening.share()?,
        })
    }

    /// With these books of vertex names and of kind names.
    pub fn set_names(self, names: NameBook, kinds: NameBook) -> VersionDraft
        ensures { result ≡ record self { names = names; kinds = kinds } }
    {
        VersionDraft {
            names,
            kinds,
            ..self
        }
    }

    /// With these blocks as the row of a source; no block leaves no row.
    pub fn replace_row(
        self,
        source: VertexId,
        blocks: Vec<Arc<Block>>,
    ) -> Result<VersionDraft, AllocError>
        ensures { IfOk result (λ draft. ReplacesRow source.0 (block_values blocks.items) self draft) }
    {
        Ok(VersionDraft {
            rows: self.rows.replace_row(source, blocks)?,
            ..self
        })
    }

    /// With these rows, each in the place of its source's row, one after another. Nothing else of the draft is touched a row.
    pub fn put_rows(self, rows: Vec<(VertexId, Row)>) -> Result<VersionDraft, AllocError>
        ensures { IfOk result (ReplacesRows (row_values rows.items) self) }
    {
        let mut all = self.rows;
        for row in rows {
            all = all.put(row.0, row.1)?;
        }
        Ok(VersionDraft {
            names: self.names,
            kinds: self.kinds,
            batches: self.batches,
            opening: self.opening,
            rows: all,
        })
    }

    /// With one more batch.
    pub fn push_batch(mut self, batch: Arc<Batch>) -> Result<VersionDraft, AllocError>
        requires { length self.version.batches < 2 ^ 32 }
        ensures { IfOk result (λ draft. draft ≡ with_batch self (batch_value batch)) }
    {
        self.batches.push(batch)?;
        Ok(self)
    }

    /// The version, once its rows have what its batches leave, each block with its row's source and with an edge, no
    /// two edges of one key and no two blocks of one number, and its books have the names. Its edges are counted.
    pub fn finish(self) -> Version
        requires { IsWhole self }
        ensures { result ≡ self.version }
    {
        let edges = edges_in_rows(&self.rows);
        self.finish_counted(edges)
    }

    /// As `finish`, where it is known how many edges there are, modulo 2^64: no block is read.
    pub(crate) fn finish_counted(self, edges: u64) -> Version
        requires whole { IsWhole self }
        requires edges { edges ≡ edge_total self.version % 2 ^ 64 }
        ensures { result ≡ self.version }
    {
        Version {
            names: self.names,
            kinds: self.kinds,
            batches: self.batches,
            rows: self.rows,
            opening: self.opening,
            edges,
        }
    }
}

impl Version {
    /// The version after this one: with these books, with these rows, each in the place of its source's row, and with one more
    /// batch. So many edges it has, modulo 2^64: no block is read. It is made in a table of rows that are this version's, if there
    /// is one, as [`VersionDraft::over_table`] says.
    pub fn after_batch(
        &self,
        names: NameBook,
        kinds: NameBook,
        rows: Vec<(VertexId, Row)>,
        batch: Arc<Batch>,
        edges: u64,
        table: Option<RowTable>,
    ) -> Result<Version, AllocError>
        requires few { length self.now.batches < 2 ^ 32 }
        requires whole { (d : DraftView) → IsNextDraft self.now names kinds (row_values rows.items) (batch_value batch) d
            → IsWhole d }
        requires edges { (d : DraftView) → IsNextDraft self.now names kinds (row_values rows.items) (batch_value batch) d
            → edges ≡ edge_total d.version % 2 ^ 64 }
        requires table { IfSome table (λ t. t ≡ self.now.rows) }
        ensures { IfOk result (λ v. (d : DraftView)
            × IsNextDraft self.now names kinds (row_values rows.items) (batch_value batch) d × (v ≡ d.version)) }
    {
        let draft = VersionDraft::over_table(self, names, kinds, table)?;
        let draft = draft.put_rows(rows)?.push_batch(batch)?;
        Ok(draft.finish_counted(edges))
    }
}

/// How many edges rows have, modulo 2^64.
fn edges_in_rows(rows: &Rows) -> u64
    ensures { result ≡ length (edges_in_blocks (blocks_of rows.now)) % 2 ^ 64 }
{
    let mut edges = 0_u64;
    for source in 0..rows.len() {
        let row = rows.row_blocks(VertexId(source as u32));
        edges = edges.wrapping_add(edges_in_row(row));
    }
    edges
}

/// How many edges blocks have, modulo 2^64.
fn edges_in_row(blocks: &[Arc<Block>]) -> u64
    ensures { result ≡ length (edges_in_blocks (block_values blocks.now)) % 2 ^ 64 }
{
    let mut edges = 0_u64;
    for block in blocks {
        edges = edges.wrapping_add(block.len() as u64);
    }
    edges
}
