//! Version 0 of a store that opens with what a version holds.

ghost use Rattle.std.specs.Prelude.{◌≡◌, ◌≢◌, ◌++◌, ℕ, [], length, map, slice_index_or, All, AllPairs, IfOk, OnOk};
ghost use Rattle.graph_types.specs.Graph.{graph_in, stamp_of};
ghost use Rattle.edge_block.specs.Slots.{IsStamp};
ghost use Rattle.graph_version.specs.Rows.{row_of, blocks_of, numbers_of, Replaces};
ghost use Rattle.graph_version.specs.Sharing.{block_value, block_values};
ghost use Rattle.graph_version.specs.Versions.{content};
ghost use Rattle.graph_version.specs.Kept.{opening_graph};
ghost use Rattle.graph_version.specs.Edges.{edges_in_block, edges_in_blocks};
ghost use Rattle.graph_version.specs.Rebased.{AreCopies, IsRebased, rows_like, unnumbered};

use crate::batch_log::{BatchLog, keeps_batches};
use crate::lending::all_edges;
use crate::listed::ListedContent;
use crate::opening::Opening;
use crate::rows::Rows;
use crate::versions::Version;
use edge_block::Block;
use graph_types::{Content, Edge, List, Name, VertexId};
use std::alloc::{AllocError, Global};
use std::sync::Arc;
use vertex_names::NameBook;

impl Version {
    /// Version 0 of a store that opens with what this version holds. It begins with this version's content, and its rows are
    /// these blocks: of different numbers, each with the source, kind and slots of one of this version's blocks, in order of
    /// sources and rows.
    pub fn rebased(&self, blocks: Vec<Arc<Block>>) -> Result<Version, AllocError>
        requires { AreCopies self.now.rows (block_values blocks.items) }
        ensures rebased { IfOk result (λ version. IsRebased self.now version) }
        ensures blocks { IfOk result (λ version. blocks_of version.rows ≡ block_values blocks.items) }
    {
        let alloc = *blocks.allocator();
        Ok(Version {
            opening: self.as_opening(alloc)?,
            names: self.names.share()?,
            kinds: self.kinds.share()?,
            batches: BatchLog::new(alloc, keeps_batches(self.opening.limits())),
            rows: rows_over(alloc, &self.rows, blocks.as_slice())?,
            edges: self.edges,
        })
    }

    /// Version 0 of a store that opens with what this version holds, as [`Version::rebased`], over the very rows and blocks of this
    /// one. It takes memory and time by rows, 8,192 at a time, and not by blocks or edges; where batches are kept, also for the
    /// content as plain lists.
    pub fn reopened(&self, alloc: Global) -> Result<Version, AllocError>
        ensures rebased { IfOk result (IsRebased self.now) }
        ensures rows { IfOk result (λ version. version.rows ≡ self.now.rows) }
    {
        Ok(Version {
            opening: self.as_opening(alloc)?,
            names: self.names.share()?,
            kinds: self.kinds.share()?,
            batches: BatchLog::new(alloc, keeps_batches(self.opening.limits())),
            rows: self.rows.share()?,
            edges: self.edges,
        })
    }

    /// These blocks, as many as this version has and of different numbers, with what this version's blocks hold, in order of
    /// sources and rows: those of [`Version::rebased`].
    ///
    /// After a refused growth the blocks are given up.
    pub fn copied_into(&self, mut blocks: Vec<Arc<Block>>) -> Result<Vec<Arc<Block>>, AllocError>
        requires many { length blocks.items ≡ length (blocks_of self.now.rows) }
        requires apart { AllPairs ◌≢◌ (map (λ b. (block_value b).number) blocks.items) }
        ensures copies { IfOk result (λ copies. AreCopies self.now.rows (block_values copies.items)) }
        ensures numbers { IfOk result (λ copies.
            numbers_of (block_values copies.items) ≡ map (λ b. (block_value b).number) blocks.items) }
    {
        let held = blocks_in(*blocks.allocator(), &self.rows)?;
        copy_each(blocks.as_mut_slice(), held.as_slice())?;
        Ok(blocks)
    }

    /// Its content as an opening: as plain lists where batches are kept, and else in the proofs alone.
    fn as_opening(&self, alloc: Global) -> Result<Opening, AllocError>
        ensures { IfOk result (λ opening. opening_graph opening ≡ content self.now) }
    {
        let limits = self.opening.limits();
        if keeps_batches(limits) {
            Ok(Opening::Shared(Arc::new(alloc, self.contents(alloc)?)?))
        } else {
            Ok(Opening::told(alloc, self, limits))
        }
    }

    /// Its content as plain lists.
    fn contents(&self, alloc: Global) -> Result<ListedContent, AllocError>
        ensures { IfOk result (λ listed. graph_in listed.limits listed.content ≡ content self.now) }
    {
        let content = Content {
            names: List::of(names_in(alloc, &self.names)?),
            kinds: List::of(names_in(alloc, &self.kinds)?),
            edges: List::of(edges_in(alloc, &self.rows)?),
        };
        Ok(ListedContent {
            content,
            limits: self.opening.limits(),
        })
    }
}

/// The names of a book, in order.
pub(crate) fn names_in(alloc: Global, book: &NameBook) -> Result<Vec<Name>, AllocError>
    ensures names { IfOk result (λ names. names.items ≡ book.now.names) }
    ensures distinct { IfOk result (λ names. AllPairs (λ a b. a ≢ b) names.items) }
{
    let count = book.len();
    let mut names = Vec::with_capacity(alloc, count)?;
    for number in 0..count {
        names.push(name_at(alloc, book, number as u32)?)?;
    }
    Ok(names)
}

/// A copy of the name of a number.
fn name_at(alloc: Global, book: &NameBook, number: u32) -> Result<Name, AllocError>
    ensures { IfOk result (λ name. name ≡ slice_index_or book.now.names number []) }
{
    match book.name(number) {
        Some(text) => Ok(Name::of(String::from_str(alloc, text)?)),
        None => Ok(Name::of(String::new(alloc))),
    }
}

/// The blocks of rows, in order of sources and rows, shared.
fn blocks_in(alloc: Global, rows: &Rows) -> Result<Vec<Arc<Block>>, AllocError>
    ensures { IfOk result (λ blocks. block_values blocks.items ≡ blocks_of rows.now) }
{
    let mut blocks = Vec::new(alloc);
    for source in 0..rows.len() {
        push_blocks(&mut blocks, rows.row_blocks(VertexId(source as u32)))?;
    }
    Ok(blocks)
}

/// Adds blocks, shared.
fn push_blocks(blocks: &mut Vec<Arc<Block>>, row: &[Arc<Block>]) -> Result<(), AllocError>
    ensures { OnOk result (block_values blocks.new.items ≡ block_values blocks.old.items ++ block_values row.now) }
{
    for block in row {
        blocks.push(Arc::try_clone(block)?)?;
    }
    Ok(())
}

/// Gives each block what the one at its place holds; each keeps its number.
fn copy_each(blocks: &mut [Arc<Block>], held: &[Arc<Block>]) -> Result<(), AllocError>
    requires { length held.now ≡ length blocks.old }
    ensures same { OnOk result (map unnumbered (block_values blocks.new) ≡ map unnumbered (block_values held.now)) }
    ensures numbers { OnOk result (numbers_of (block_values blocks.new) ≡ numbers_of (block_values blocks.old)) }
{
    for place in 0..held.len() {
        Arc::make_mut(&mut blocks[place])?.copy_from(&held[place]);
    }
    Ok(())
}

/// The edges of rows, block by block, slots rising.
pub(crate) fn edges_in(alloc: Global, rows: &Rows) -> Result<Vec<Edge>, AllocError>
    ensures edges { IfOk result (λ edges. edges.items ≡ edges_in_blocks (blocks_of rows.now)) }
    ensures stamps { IfOk result (λ edges. All (λ e. IsStamp (stamp_of e)) edges.items) }
{
    let mut edges = Vec::new(alloc);
    for source in 0..rows.len() {
        push_row(&mut edges, rows.row_blocks(VertexId(source as u32)))?;
    }
    Ok(edges)
}

/// Adds the edges of blocks.
fn push_row(edges: &mut Vec<Edge>, blocks: &[Arc<Block>]) -> Result<(), AllocError>
    ensures edges { OnOk result (edges.new.items ≡ edges.old.items ++ edges_in_blocks (block_values blocks.now)) }
    ensures stamps { OnOk result (All (λ e. IsStamp (stamp_of e)) edges.old.items → All (λ e. IsStamp (stamp_of e)) edges.new.items) }
{
    for block in blocks {
        push_edges(edges, block)?;
    }
    Ok(())
}

/// Adds a block's edges, in slot order.
fn push_edges(edges: &mut Vec<Edge>, block: &Block) -> Result<(), AllocError>
    ensures edges { OnOk result (edges.new.items ≡ edges.old.items ++ edges_in_block block.now) }
    ensures stamps { OnOk result (All (λ e. IsStamp (stamp_of e)) edges.old.items → All (λ e. IsStamp (stamp_of e)) edges.new.items) }
{
    let source = block.source();
    for edge in all_edges(block) {
        edges.push(Edge {
            kind: edge.kind,
            source,
            target: VertexId(*edge.target),
            weight: *edge.weight,
            first: *edge.first,
            recent: *edge.recent,
        })?;
    }
    Ok(())
}

/// These blocks in rows, each as long as the one of these rows.
fn rows_over(alloc: Global, rows: &Rows, blocks: &[Arc<Block>]) -> Result<Rows, AllocError>
    requires { length (block_values blocks.now) ≡ length (blocks_of rows.now) }
    ensures { IfOk result (λ copy. (s : ℕ) → row_of copy s ≡ row_of (rows_like rows.now (block_values blocks.now)) s) }
{
    let mut copy = Rows::new(alloc);
    let mut left = blocks;
    for place in 0..rows.len() {
        let source = VertexId(place as u32);
        let (row, rest) = left.split_at(rows.row_blocks(source).len());
        copy = with_row(alloc, copy, source, row)?;
        left = rest;
    }
    Ok(copy)
}

/// The rows with these blocks as the row of a source that has none.
fn with_row(
    alloc: Global,
    rows: Rows,
    source: VertexId,
    blocks: &[Arc<Block>],
) -> Result<Rows, AllocError>
    requires { row_of rows source.0 ≡ [] }
    ensures { IfOk result (λ copy. Replaces source.0 (block_values blocks.now) rows copy) }
{
    if blocks.is_empty() {
        return Ok(rows);
    }
    let mut row = Vec::new(alloc);
    push_blocks(&mut row, blocks)?;
    rows.replace_row(source, row)
}
