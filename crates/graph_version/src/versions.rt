//! The version and its calls.

ghost use Rattle.std.specs.Prelude.{◌≡◌, ◌<◌, ◌≤◌, ◌*◌, ◌%◌, ◌^◌, ◌++◌, ◌∷◌, [], true, All, List, length, IfSome, IsTrue, MatchOption, SomeIff};
ghost use Rattle.std.specs.Option.{option_map};
ghost use Rattle.graph_types.specs.Graph.{IsContentIn, graph_in, stamp_of};
ghost use Rattle.graph_types.specs.Limits.{AreLimits, IsWeightIn};
ghost use Rattle.graph_types.specs.{Answer.is_listed, Step.number_of};
ghost use Rattle.graph_types.specs.declared.batches.NamedOp.{NamedOp};
ghost use Rattle.edge_block.specs.{Lending.lent_edge, Slots.IsStamp};
ghost use Rattle.graph_version.specs.Rows.{row_of, blocks_of, numbers_of};
ghost use Rattle.graph_version.specs.Sharing.{block_values};
ghost use Rattle.graph_version.specs.Ages.{IsNextOld, old_blocks};
ghost use Rattle.graph_version.specs.Versions.{IsVersion, empty_version, empty_version_in, content};
ghost use Rattle.edge_block.specs.Rows.{shape_of, block_at};
ghost use Rattle.graph_version.specs.Edges.{lent_to, edges_in_blocks, AreEachOnce};
ghost use Rattle.graph_version.specs.LentEdges.{edges_to_come};
ghost use Rattle.graph_version.specs.InEdges.{edges_into, into_left};
ghost use Rattle.graph_version.specs.Kept.{vertex_book, kind_book, edge_total};
ghost use Rattle.graph_version.specs.Logs.{keeps_batches};

use crate::batch_log::{BatchLog, keeps_batches};
use crate::batches::BatchIter;
use crate::edges::EdgeIter;
use crate::in_edges::InEdgeIter;
use crate::lending::{BlockNumbers, RowIter};
use crate::opening::Opening;
use crate::row::old_blocks_in;
use crate::rows::Rows;
use edge_block::{Block, EdgeRef};
use graph_types::{Batch, Content, KindId, Limits, VertexId};
use std::alloc::Global;
use std::fmt;
use std::marker::Model;
use std::sync::Arc;
use vertex_names::NameBook;

/// A graph after some batches. It never changes.
///
/// A version's rows, batches and names are shared with the versions before and after it but where a batch changed
/// them. It is dropped in time linear in what it alone holds.
pub struct Version {
    pub(crate) opening: Opening,
    pub(crate) names: NameBook,
    pub(crate) kinds: NameBook,
    pub(crate) batches: BatchLog,
    pub(crate) rows: Rows,
    pub(crate) edges: u64,
}

// Written by hand: a graph's number and counts, and not its edges.
impl fmt::Debug for Version {
    fn fmt<F: fmt::Write>(&self, f: &mut fmt::Formatter<F>) -> fmt::Result {
        f.debug_struct("Version")
            .field("number", &self.number())
            .field("vertices", &self.names.len())
            .field("kinds", &self.kinds.len())
            .field("edges", &self.edges)
            .finish_non_exhaustive()
    }
}

// Written by hand: who lets one go rests on this function, and not on how each part is let go.
impl Drop for Version {
    fn drop(self) {
        let Version {
            opening: _opening,
            names: _names,
            kinds: _kinds,
            batches: _batches,
            rows: _rows,
            edges: _edges,
        } = self;
    }
}

impl Model for Version {
    ghost use Rattle.graph_version.specs.Versions.{VersionView};
    ghost use Rattle.graph_version.specs.Kept.{version_of, opening_graph, IsSummary};
    ghost use Rattle.std.specs.Coded.{codes};
    ghost use Rattle.graph_types.specs.Coded.{graph_code};

    ghost Value = { VersionView };

    ghost coded = { Prim.hlevel (codes, graph_code) };

    ghost view = { λ v. version_of (opening_graph v.opening) v.batches.batches v.rows };

    ghost invariant = { λ v.
        IsSummary v.names v.kinds v.edges v.batches.keeps (version_of (opening_graph v.opening) v.batches.batches v.rows) };
}

impl Version {
    ghost use Rattle.graph_version.specs.BatchLending.{batches_left};
    ghost use Rattle.graph_version.specs.Lending.{lent_at, lent_in_blocks, row_left, numbers_left};

    /// The version without batches, under the standard limits: no name, no kind, no edge. It takes no memory.
    pub fn empty(alloc: Global) -> Version
        ensures { result ≡ empty_version }
    {
        Version::empty_within(alloc, Limits::standard())
    }

    /// The version without batches, under these limits. It takes no memory.
    ///
    /// ```
    /// let version = Version::empty_within(alloc, Limits::new(2_000_000, 4, 1_000_000)?);
    /// assert_eq!(rt; version.limits().names(), 2_000_000);
    /// ```
    pub fn empty_within(alloc: Global, limits: Limits) -> Version
        ensures { result ≡ empty_version_in limits }
    {
        Version {
            opening: Opening::empty(alloc, limits),
            names: NameBook::new(alloc, limits.names()),
            kinds: NameBook::new(alloc, limits.kinds()),
            batches: BatchLog::new(alloc, keeps_batches(limits)),
            rows: Rows::new(alloc),
            edges: 0,
        }
    }

    /// Its rows alone.
    pub(crate) fn into_rows(self) -> Rows
        ensures { result ≡ self.rows }
    {
        let Version {
            opening: _opening,
            names: _names,
            kinds: _kinds,
            batches: _batches,
            rows,
            edges: _edges,
        } = self;
        rows
    }

    /// What it began with, before its first batch: a content within the limits, with each edge listed once. It takes no memory.
    /// Where batches aren't kept, it is a content of no use.
    pub fn opening(&self) -> &Content
        ensures graph { keeps_batches self.now.opening.limits ≡ true
            → graph_in self.now.opening.limits result.now ≡ self.now.opening }
        ensures content { IsContentIn self.now.opening.limits result.now }
    {
        self.opening.content()
    }

    /// How many names, kinds and batches there may be, in this version and in each that follows it.
    pub fn limits(&self) -> Limits
        ensures limits { result ≡ (content self.now).limits }
        ensures opening { result ≡ self.now.opening.limits }
        ensures walls { AreLimits result }
        ensures version { IsVersion self.now }
    {
        self.opening.limits()
    }

    /// How many batches there are.
    pub fn number(&self) -> u64
        ensures number { result ≡ length self.now.batches }
        ensures version { IsVersion self.now }
    {
        self.batches.len()
    }

    /// Whether its batches are kept: under limits of fewer than 4,294,967,295 batches, as the standard ones. It takes no memory.
    ///
    /// ```
    /// let endless = Version::empty_within(alloc, Limits::new(65_536, 64, u32::MAX)?);
    /// assert!(rt; !endless.keeps_batches());
    /// ```
    pub fn keeps_batches(&self) -> bool
        ensures { result ≡ keeps_batches self.now.opening.limits }
    {
        self.batches.keeps()
    }

    /// Lends the batches, the first one first, where they are kept. Where they aren't, a version has its last batch alone, and
    /// lends none.
    pub fn batches(&self) -> BatchIter<'_>
        ensures { keeps_batches self.now.opening.limits ≡ true → batches_left result ≡ self.now.batches }
    {
        self.batches.iter()
    }

    /// The last batch.
    pub fn last_batch(&self) -> Option<&Batch>
        ensures batch { MatchOption result (self.now.batches ≡ [])
            (λ b. (others : List (List NamedOp)) × (self.now.batches ≡ others ++ b.now ∷ [])) }
        ensures version { IsVersion self.now }
    {
        self.batches.last()
    }

    /// The vertex names: a vertex's number is the place of its name.
    pub fn names(&self) -> &NameBook
        ensures names { result.now ≡ vertex_book (content self.now) }
        ensures version { IsVersion self.now }
    {
        &self.names
    }

    /// The kind names.
    pub fn kinds(&self) -> &NameBook
        ensures { result.now ≡ kind_book (content self.now) }
    {
        &self.kinds
    }

    /// The vertex of a name, if the name has appeared. It takes no memory.
    ///
    /// ```
    /// if let Some(source) = version.vertex("berlin") {
    ///     println!(&rt; "{}", version.out_edges(source).count())?;
    /// }
    /// ```
    #[tactic(auto, using(graph_types::proofs::ListedNames::listed_below))]
    pub fn vertex(&self, name: &str) -> Option<VertexId>
        ensures number { SomeIff (option_map (λ vertex. vertex.0) result) (IsTrue (is_listed (content self.now).names name.now))
            (number_of (content self.now).names name.now) }
        ensures below { IfSome result (λ vertex. vertex.0 < length (content self.now).names) }
        ensures version { IsVersion self.now }
    {
        let number = self.names.number(name)?;
        Some(VertexId(number))
    }

    /// The kind of a name, if the name has appeared. It takes no memory.
    ///
    /// ```
    /// let edge = version.edge(version.kind("road")?, source, target)?;
    /// ```
    #[tactic(auto, using(graph_types::proofs::ListedNames::listed_below))]
    pub fn kind(&self, name: &str) -> Option<KindId>
        ensures number { SomeIff (option_map (λ kind. kind.0) result) (IsTrue (is_listed (content self.now).kinds name.now))
            (number_of (content self.now).kinds name.now) }
        ensures below { IfSome result (λ kind. kind.0 < length (content self.now).kinds) }
        ensures version { IsVersion self.now }
    {
        let number = self.kinds.number(name)?;
        // There are at most 64 kinds, so a kind's number has 8 bits.
        Some(KindId(number as u8))
    }

    /// How many edges there are. The number is kept, and no block is read.
    pub fn edge_count(&self) -> u64
        ensures edges { result ≡ edge_total self.now }
        ensures version { IsVersion self.now }
    {
        self.edges
    }

    /// How many blocks there are.
    pub fn block_count(&self) -> usize
        ensures { result ≡ length (blocks_of self.now.rows) }
    {
        blocks_in_rows(&self.rows)
    }

    /// The edge of a kind from a source to a target.
    pub fn edge(&self, kind: KindId, source: VertexId, target: VertexId) -> Option<EdgeRef<'_>>
        ensures edge { option_map lent_edge result ≡ lent_at self.now kind.0 source.0 target.0 }
        ensures in_range { IfSome result (λ edge. IsStamp (lent_edge edge).stamp) }
    {
        for block in self.rows.row_blocks(source) {
            if let Some(edge) = edge_in(block, kind, target) {
                return Some(edge);
            }
        }
        None
    }

    /// All edges by value: sources rising, and those of one source as [`Version::row`] lends them. It takes no memory, and time
    /// by the vertices and edges.
    ///
    /// ```
    /// for edge in version.edges() {
    ///     println!(&rt; "{} {} {}", edge.source.0, edge.target.0, edge.weight)?;
    /// }
    /// ```
    pub fn edges(&self) -> EdgeIter<'_>
        ensures edges { edges_to_come result ≡ edges_in_blocks (blocks_of self.now.rows) }
        ensures each_once { AreEachOnce (edges_to_come result) (content self.now) }
        ensures weights { All (λ edge. IsWeightIn (content self.now).limits.weight edge.weight) (edges_to_come result) }
    {
        EdgeIter::over(&self.rows)
    }

    /// The edges that leave a vertex by value, as [`Version::row`] lends them. It takes no memory.
    ///
    /// ```
    /// let edges = Vec::from_iter(alloc, version.out_edges(source))?;
    /// ```
    pub fn out_edges(&self, source: VertexId) -> EdgeIter<'_>
        ensures edges { edges_to_come result ≡ edges_in_blocks (row_of self.now.rows source.0) }
        ensures in_range { All (λ edge. IsStamp (stamp_of edge)) (edges_to_come result) }
        ensures weights { All (λ edge. IsWeightIn (content self.now).limits.weight edge.weight) (edges_to_come result) }
        ensures few { length (edges_to_come result) ≤ length (content self.now).names * length (content self.now).kinds }
        ensures version { IsVersion self.now }
    {
        EdgeIter::of_row(&self.rows, source)
    }

    /// The edges that lead to a vertex, in the order of [`Version::edges`]. It takes no memory. Blocks are kept by sources alone,
    /// so it looks once into each block of the version, however few of its edges lead there.
    ///
    /// ```
    /// for edge in version.in_edges(target) {
    ///     println!(&rt; "{} {}", edge.source.0, edge.weight)?;
    /// }
    /// ```
    pub fn in_edges(&self, target: VertexId) -> InEdgeIter<'_>
        ensures edges { into_left result ≡ edges_into target.0 (edges_in_blocks (blocks_of self.now.rows)) }
        ensures weights { All (λ edge. IsWeightIn (content self.now).limits.weight edge.weight) (into_left result) }
        ensures version { IsVersion self.now }
    {
        InEdgeIter::over(&self.rows, target)
    }

    /// Lends the edges that leave a vertex: blocks in row order, slots rising. There are so few of them, and each weight is so
    /// small, that a sum of all their weights is in the range of an `i64`.
    pub fn row(&self, source: VertexId) -> RowIter<'_>
        ensures lends { row_left result ≡ lent_in_blocks (row_of self.now.rows source.0) }
        ensures in_range { All (λ edge. IsStamp edge.stamp) (row_left result) }
        ensures weights { All (λ edge. IsWeightIn (content self.now).limits.weight edge.stamp.weight) (row_left result) }
        ensures few { length (row_left result) ≤ length (content self.now).names * length (content self.now).kinds }
        ensures version { IsVersion self.now }
    {
        RowIter::over(self.rows.row_blocks(source))
    }

    /// The blocks of a vertex's row, in row order.
    pub fn row_blocks(&self, source: VertexId) -> &[Arc<Block>]
        ensures blocks { block_values result.now ≡ row_of self.now.rows source.0 }
        ensures version { IsVersion self.now }
    {
        self.rows.row_blocks(source)
    }

    /// The next vertex, from one on, with a block in its row that has an edge that was last touched before a time.
    ///
    /// It takes time by the rows that have one, and not by all: bounds of the recent times of rows are kept. For example, where
    /// edges leave the vertices 2 and 7 alone, with the recent times 10 and 20, from 3 on there is none before 20, and one
    /// before 21, which is 7. A row of more than 64 blocks is looked through each time.
    pub fn next_old(&self, from: VertexId, time: u64) -> Option<VertexId>
        ensures { IsNextOld time self.now.rows from.0 result }
    {
        self.rows.next_old(from, time)
    }

    /// The next vertex as [`Version::next_old`] finds it, and how many blocks of its row have such an edge.
    pub fn next_old_row(&self, from: VertexId, time: u64) -> Option<(VertexId, usize)>
        ensures next { IsNextOld time self.now.rows from.0 (option_map (λ r. r.0) result) }
        ensures blocks { IfSome result (λ r. r.1 ≡ old_blocks time (row_of self.now.rows r.0.0)) }
        ensures version { IsVersion self.now }
    {
        match self.rows.next_old(from, time) {
            None => None,
            Some(source) => {
                let blocks = old_blocks_in(self.rows.row_blocks(source), time);
                Some((source, blocks))
            }
        }
    }

    /// The numbers of the blocks, row by row.
    pub fn blocks(&self) -> BlockNumbers<'_>
        ensures { numbers_left result ≡ numbers_of (blocks_of self.now.rows) }
    {
        BlockNumbers::over(&self.rows)
    }
}

/// How many blocks rows have, modulo 2^64.
fn blocks_in_rows(rows: &Rows) -> usize
    ensures { result ≡ length (blocks_of rows.now) % 2 ^ 64 }
{
    let mut blocks = 0_usize;
    for source in 0..rows.len() {
        blocks = blocks.wrapping_add(rows.row_blocks(VertexId(source as u32)).len());
    }
    blocks
}

/// A block's edge of a kind to a target.
fn edge_in(block: &Block, kind: KindId, target: VertexId) -> Option<EdgeRef<'_>>
    ensures edge { option_map lent_edge result ≡ lent_to kind.0 target.0 (block_at (shape_of block.now) (kind.0, target.0)) }
    ensures in_range { IfSome result (λ edge. IsStamp (lent_edge edge).stamp) }
{
    if block.kind() == kind {
        block.find(target.0)
    } else {
        None
    }
}
