//! Pages of rows, in parts.

ghost use Rattle.std.specs.Prelude.{◌≡◌, ◌<◌, ◌*◌, ◌&&◌, [], IfOk, OnOk, length, min, nat_le, nat_lt, replicate};
ghost use Rattle.std.specs.Prelude.{slice_index_or, slice_set};
ghost use Rattle.graph_version.specs.Parts.{in_parts, AreParts};
ghost use Rattle.graph_version.specs.Ages.{AreSince, AreYoung};

use crate::row::Row;
use std::alloc::{AllocError, Global};
use std::marker::Model;
use std::sync::Arc;

/// How many rows stand in one part.
const PART: usize = 8;

/// How many rows stand in one page.
const PAGE: usize = 64;

/// The rows of eight sources that follow one another, and since when their edges have been touched.
pub(crate) struct Part {
    rows: [Row; 8],
    since: u64,
}

// By hand, so that who lets one go need not take it apart.
impl Drop for Part {
    fn drop(self) {
        let Part {
            rows: _rows,
            since: _since,
        } = self;
    }
}

impl Model for Part {
    ghost use Rattle.std.specs.Prelude.{◌≡◌, List, length};
    ghost use Rattle.edge_block.specs.Slots.{BlockView};
    ghost use Rattle.graph_version.specs.Ages.{AreSince};

    ghost Value = { List (List BlockView) };

    ghost view = { λ part. part.rows };

    ghost invariant = { λ part. AreSince part.since part.rows × (length part.rows ≡ 8) };
}

impl Clone for Part {
    ghost is_clone = { λ part copy. copy ≡ part };

    fn clone(&self) -> Result<Part, AllocError> {
        Ok(Part {
            rows: self.rows.clone()?,
            since: self.since,
        })
    }
}

impl Part {
    /// Eight empty rows.
    fn blank() -> Part
        ensures { result ≡ replicate 8 [] }
    {
        Part {
            rows: [
                Row::empty(),
                Row::empty(),
                Row::empty(),
                Row::empty(),
                Row::empty(),
                Row::empty(),
                Row::empty(),
                Row::empty(),
            ],
            since: u64::MAX,
        }
    }

    /// The row at a place.
    fn row(&self, place: usize) -> &Row
        requires { place < 8 }
        ensures row { result.now ≡ slice_index_or self.now place [] }
    {
        &self.rows[place]
    }

    /// A time such that no edge was last touched before it.
    fn since(&self) -> u64
        ensures { AreSince result self.now }
    {
        self.since
    }

    /// How many rows from a place on have no edge that was last touched before a time, as far as is known at once. There is
    /// none only where the row at the place has one.
    fn young_from(&self, place: usize, time: u64) -> usize
        requires { place < 8 }
        ensures { AreYoung time self.now place result }
    {
        if self.since >= time {
            return PART - place;
        }
        let row = &self.rows[place];
        if row.has_before(time) { 0 } else { 1 }
    }

    /// Writes a row at a place. The result is the time since which the edges of the row before had been touched.
    fn set(&mut self, place: usize, row: Row) -> u64
        requires { place < 8 }
        ensures { self.new ≡ slice_set self.old place row }
    {
        let since = row.since();
        let before = self.rows[place].since();
        self.rows[place] = row;
        self.since = rows_bound(&self.rows, self.since, before, since);
        before
    }
}

/// Whether a bound of rows may rise with that of one of them, which was `before` and is `since` now.
fn is_raised(kept: u64, before: u64, since: u64) -> bool
    ensures { result ≡ (nat_le before kept && nat_lt before since) }
{
    before <= kept && before < since
}

/// The bound of rows of which one was written: the least, where it may rise.
fn rows_bound(rows: &[Row], kept: u64, before: u64, since: u64) -> u64
    ensures { AreSince (min kept since) rows.now → AreSince result rows.now }
{
    if is_raised(kept, before, since) {
        rows_since(rows)
    } else {
        kept.min(since)
    }
}

/// The least of the times since which the edges of rows have been touched.
fn rows_since(rows: &[Row]) -> u64
    ensures { AreSince result rows.now }
{
    let mut since = u64::MAX;
    for row in rows {
        since = since.min(row.since());
    }
    since
}

/// The rows of 64 sources that follow one another, in parts that versions share, and since when their edges have been touched.
pub(crate) struct Page {
    parts: [Arc<Part>; 8],
    since: u64,
}

// By hand, so that who lets one go need not take it apart.
impl Drop for Page {
    fn drop(self) {
        let Page {
            parts: _parts,
            since: _since,
        } = self;
    }
}

impl Model for Page {
    ghost use Rattle.std.specs.Prelude.{◌≡◌, List, length};
    ghost use Rattle.edge_block.specs.Slots.{BlockView};
    ghost use Rattle.graph_version.specs.Parts.{in_parts, AreParts};
    ghost use Rattle.graph_version.specs.Ages.{AreSince};

    ghost Value = { List (List BlockView) };

    ghost view = { λ page. in_parts page.parts };

    ghost invariant = { λ page. AreParts page.parts × (length page.parts ≡ 8) × AreSince page.since (in_parts page.parts) };
}

impl Clone for Page {
    ghost is_clone = { λ page copy. copy ≡ page };

    fn clone(&self) -> Result<Page, AllocError> {
        let parts = self.parts.clone()?;
        Ok(Page {
            parts,
            since: self.since,
        })
    }
}

impl Page {
    /// Sixty-four empty rows, in one part that stands eight times.
    pub(crate) fn blank(alloc: Global) -> Result<Page, AllocError>
        ensures { IfOk result (λ page. page ≡ replicate 64 []) }
    {
        let part = Arc::new(alloc, Part::blank())?;
        Ok(Page {
            parts: [&part; 8].try_map(Arc::try_clone)?,
            since: u64::MAX,
        })
    }

    /// The row at a place.
    pub(crate) fn row(&self, place: usize) -> &Row
        requires { place < 64 }
        ensures { result.now ≡ slice_index_or self.now place [] }
    {
        self.parts[place / PART].row(place % PART)
    }

    /// How many rows from a place on have no edge from before a time, as `Part::young_from`.
    pub(crate) fn young_from(&self, place: usize, time: u64) -> usize
        requires { place < 64 }
        ensures { AreYoung time self.now place result }
    {
        if self.since >= time {
            return PAGE - place;
        }
        self.parts[place / PART].young_from(place % PART, time)
    }

    /// Writes a row at a place, into a copy of its part where other versions have it.
    pub(crate) fn put(&mut self, place: usize, row: Row) -> Result<(), AllocError>
        requires { place < 64 }
        ensures rows { OnOk result (self.new ≡ slice_set self.old place row) }
        ensures length { length self.new ≡ 64 }
    {
        let since = row.since();
        let kept = self.since;
        self.since = 0;
        let before = put_in_part(&mut self.parts, place, row)?;
        self.since = parts_bound(&self.parts, kept, before, since);
        Ok(())
    }
}

/// Writes a row into its part, into a copy of the part where other versions have it. The result is as that of `Part::set`.
fn put_in_part(parts: &mut [Arc<Part>], place: usize, row: Row) -> Result<u64, AllocError>
    requires parts { AreParts parts.old }
    requires place { place < length parts.old * 8 }
    ensures rows { OnOk result (in_parts parts.new ≡ slice_set (in_parts parts.old) place row) }
    ensures parts { AreParts parts.new }
{
    let before = Arc::make_mut(&mut parts[place / PART])?.set(place % PART, row);
    Ok(before)
}

/// The bound of parts in which a row was written, as `rows_bound`.
fn parts_bound(parts: &[Arc<Part>], kept: u64, before: u64, since: u64) -> u64
    ensures { AreSince (min kept since) (in_parts parts.now) → AreSince result (in_parts parts.now) }
{
    if is_raised(kept, before, since) {
        parts_since(parts)
    } else {
        kept.min(since)
    }
}

/// The least of the times since which the edges of parts have been touched.
fn parts_since(parts: &[Arc<Part>]) -> u64
    ensures { AreSince result (in_parts parts.now) }
{
    let mut since = u64::MAX;
    for part in parts {
        since = since.min(part.since());
    }
    since
}
