//! The rows of all sources.

ghost use Rattle.std.specs.Prelude.{◌≡◌, ◌*◌, ◌^◌, ◌<◌, ◌≤◌, ℕ, [], All, IfOk, MatchOption, OnOk, length, slice_set};
ghost use Rattle.edge_block.specs.Slots.{IsBlock};
ghost use Rattle.graph_version.specs.Rows.{row_of, Replaces};
ghost use Rattle.graph_version.specs.Differences.{DifferAt, SameRows};
ghost use Rattle.graph_version.specs.Sharing.{block_values};
ghost use Rattle.graph_version.specs.Ages.{IsNextOld};
ghost use Rattle.graph_version.specs.RowHalls.{in_halls, AreHalls};

use crate::row::Row;
use crate::row_hall::Hall;
use edge_block::Block;
use graph_types::VertexId;
use std::alloc::{AllocError, Global};
use std::marker::Model;
use std::sync::Arc;

/// How many rows stand in one hall.
const HALL: usize = 65_536;

/// The rows of all sources, in halls that versions share. They never change; a change makes new ones.
pub struct Rows {
    len: usize,
    halls: Vec<Arc<Hall>>,
}

// Written by hand: who lets one go rests on this function, and not on how each part is let go.
impl Drop for Rows {
    fn drop(self) {
        let Rows {
            len: _len,
            halls: _halls,
        } = self;
    }
}

impl Model for Rows {
    ghost use Rattle.std.specs.Prelude.{◌≤◌, ◌*◌, ◌^◌, List, length, take};
    ghost use Rattle.edge_block.specs.Slots.{BlockView};
    ghost use Rattle.graph_version.specs.Rows.{IsBlankFrom};
    ghost use Rattle.graph_version.specs.RowHalls.{in_halls, AreHalls};

    ghost Value = { List (List BlockView) };

    ghost view = { λ rows. take rows.len (in_halls rows.halls.items) };

    // (the rows of halls past the last one that was written are empty)
    ghost invariant = { λ rows. AreHalls rows.halls.items × (length rows.halls.items ≤ 2 ^ 16)
        × (rows.len ≤ length rows.halls.items * 65536) × IsBlankFrom rows.len (in_halls rows.halls.items) };
}

impl Rows {
    /// Rows that are all empty. It takes no memory.
    pub fn new(alloc: Global) -> Rows
        ensures { result ≡ [] }
    {
        Rows {
            len: 0,
            halls: Vec::new(alloc),
        }
    }

    /// How many rows there are: the row of each further source is empty.
    pub fn len(&self) -> usize
        ensures count { result ≡ length self.now }
        ensures few { length self.now ≤ 2 ^ 32 }
    {
        self.len
    }

    /// The blocks of a source's row, in order.
    pub fn row_blocks(&self, source: VertexId) -> &[Arc<Block>]
        ensures blocks { block_values result.now ≡ row_of self.now source.0 }
        ensures each { All IsBlock (row_of self.now source.0) }
    {
        match self.row(source) {
            None => &[],
            Some(row) => row.blocks(),
        }
    }

    /// A source's row; behind the last group there is none, which is an empty one.
    fn row(&self, source: VertexId) -> Option<&Row>
        ensures { MatchOption result (row_of self.now source.0 ≡ []) (λ r. r.now ≡ row_of self.now source.0) }
    {
        let source = source.0 as usize;
        match self.halls.get(source / HALL) {
            None => None,
            Some(hall) => hall.row(source % HALL),
        }
    }

    /// A copy of a source's row, which shares its blocks.
    fn shared_row(&self, source: VertexId) -> Result<Row, AllocError>
        ensures { IfOk result (λ row. row ≡ row_of self.now source.0) }
    {
        match self.row(source) {
            None => Ok(Row::empty()),
            Some(row) => row.clone(),
        }
    }

    /// The next source, from one on, whose row has a block with an edge that was last touched before a time.
    ///
    /// 64 or 8 sources are passed over at once where a kept bound, which is at most the least recent time of their edges, isn't
    /// before that time. A row of more than 64 blocks keeps none, and is looked through.
    pub fn next_old(&self, from: VertexId, time: u64) -> Option<VertexId>
        ensures { IsNextOld time self.now from.0 result }
    {
        let mut source = from.0 as usize;
        while source < self.len {
            let young = self.halls[source / HALL].young_from(source % HALL, time);
            if young == 0 {
                return Some(VertexId(source as u32));
            }
            source += young;
        }
        None
    }

    /// Equal rows, all of whose halls are shared: one reference for each 65,536 rows.
    pub fn share(&self) -> Result<Rows, AllocError>
        ensures { IfOk result (λ rows. rows ≡ self.now) }
    {
        Ok(Rows {
            len: self.len,
            halls: self.halls.clone()?,
        })
    }

    /// These rows once those of some sources were taken over from other rows, from which no other one differs: the other rows.
    /// What nobody else has is written in place.
    ///
    /// After a refused growth the rows are given up.
    pub fn caught_up(self, from: &Rows, sources: &[VertexId]) -> Result<Rows, AllocError>
        requires { DifferAt sources.now self from.now }
        ensures { IfOk result (λ rows. rows ≡ from.now) }
    {
        let alloc = *self.halls.allocator();
        let Rows {
            len: _len,
            mut halls,
        } = self;
        take_over(alloc, &mut halls, from, sources)?;
        add_halls(alloc, &mut halls, from.halls.len())?;
        Ok(Rows {
            len: from.len,
            halls,
        })
    }

    /// The rows with these blocks as the row of a source. Other rows that share its hall, group, page or part keep theirs.
    ///
    /// After a refused growth the rows are given up.
    pub fn replace_row(self, source: VertexId, blocks: Vec<Arc<Block>>) -> Result<Rows, AllocError>
        ensures { IfOk result (λ rows. Replaces source.0 (block_values blocks.items) self rows) }
    {
        let row = Row::of(*self.halls.allocator(), blocks)?;
        self.put(source, row)
    }

    /// As `replace_row`, with the row made.
    pub fn put(self, source: VertexId, row: Row) -> Result<Rows, AllocError>
        ensures { IfOk result (λ rows. Replaces source.0 row self rows) }
    {
        let alloc = *self.halls.allocator();
        let source = source.0 as usize;
        let Rows { len, mut halls } = self;
        put_row(alloc, &mut halls, source, row)?;
        Ok(Rows {
            len: len.max(source + 1),
            halls,
        })
    }
}

/// Writes the rows of these sources as other rows have them.
fn take_over(
    alloc: Global,
    halls: &mut Vec<Arc<Hall>>,
    from: &Rows,
    sources: &[VertexId],
) -> Result<(), AllocError>
    requires halls { AreHalls halls.old.items }
    requires few { length halls.old.items ≤ 2 ^ 16 }
    requires differ { DifferAt sources.now (in_halls halls.old.items) from.now }
    ensures same { OnOk result (SameRows (in_halls halls.new.items) from.now) }
    ensures halls { AreHalls halls.new.items }
    ensures few { length halls.new.items ≤ 2 ^ 16 }
{
    let mut rest = sources;
    while let [source, others @ ..] = rest {
        let row = from.shared_row(*source)?;
        put_row(alloc, halls, source.0 as usize, row)?;
        rest = others;
    }
    Ok(())
}

/// Adds halls of empty rows up to a count.
fn add_halls(alloc: Global, halls: &mut Vec<Arc<Hall>>, count: usize) -> Result<(), AllocError>
    requires halls { AreHalls halls.old.items }
    requires few { length halls.old.items ≤ 2 ^ 16 }
    requires count { count ≤ 2 ^ 16 }
    ensures enough { OnOk result (count ≤ length halls.new.items) }
    ensures same { (s : ℕ) → row_of (in_halls halls.new.items) s ≡ row_of (in_halls halls.old.items) s }
    ensures halls { AreHalls halls.new.items }
    ensures more { length halls.old.items ≤ length halls.new.items }
    ensures few { length halls.new.items ≤ 2 ^ 16 }
{
    while halls.len() < count {
        let hall = Arc::new(alloc, Hall::blank(alloc))?;
        halls.push(hall)?;
    }
    Ok(())
}

/// Writes a source's row into its hall, group, page and part, into copies of these where other versions have them.
fn put_row(
    alloc: Global,
    halls: &mut Vec<Arc<Hall>>,
    source: usize,
    row: Row,
) -> Result<(), AllocError>
    requires halls { AreHalls halls.old.items }
    requires few { length halls.old.items ≤ 2 ^ 16 }
    requires source { source < 2 ^ 32 }
    ensures rows { OnOk result (Replaces source row (in_halls halls.old.items) (in_halls halls.new.items)) }
    ensures enough { OnOk result (source < length halls.new.items * 65536) }
    ensures halls { AreHalls halls.new.items }
    ensures more { length halls.old.items ≤ length halls.new.items }
    ensures few { length halls.new.items ≤ 2 ^ 16 }
{
    add_halls(alloc, halls, source / HALL + 1)?;
    Arc::make_mut(&mut halls[source / HALL])?.put(alloc, source % HALL, row)
}
