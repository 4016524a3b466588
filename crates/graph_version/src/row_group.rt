//! Groups of pages.

ghost use Rattle.std.specs.Prelude.{◌≡◌, ◌<◌, ◌*◌, [], IfOk, OnOk, length, replicate, slice_index_or, slice_set};
ghost use Rattle.graph_version.specs.RowPages.{in_pages, ArePages};
ghost use Rattle.graph_version.specs.Ages.{AreYoung};

use crate::row::Row;
use crate::row_page::Page;
use std::alloc::{AllocError, Global};
use std::marker::Model;
use std::sync::Arc;

/// How many rows stand in one page.
const PAGE: usize = 64;

/// The rows of 1,024 sources that follow one another, in pages that versions share.
pub(crate) struct Group {
    pages: [Arc<Page>; 16],
}

// By hand, so that who lets one go need not take it apart.
impl Drop for Group {
    fn drop(self) {
        let Group { pages: _pages } = self;
    }
}

impl Model for Group {
    ghost use Rattle.std.specs.Prelude.{◌≡◌, List, length};
    ghost use Rattle.edge_block.specs.Slots.{BlockView};
    ghost use Rattle.graph_version.specs.RowPages.{in_pages, ArePages};

    ghost Value = { List (List BlockView) };

    ghost view = { λ group. in_pages group.pages };

    ghost invariant = { λ group. ArePages group.pages × (length group.pages ≡ 16) };
}

impl Clone for Group {
    ghost is_clone = { λ group copy. copy ≡ group };

    fn clone(&self) -> Result<Group, AllocError> {
        Ok(Group {
            pages: self.pages.clone()?,
        })
    }
}

impl Group {
    /// So many empty rows, in one page that stands sixteen times.
    pub(crate) fn blank(alloc: Global) -> Result<Group, AllocError>
        ensures { IfOk result (λ group. group ≡ replicate 1024 []) }
    {
        let page = Arc::new(alloc, Page::blank(alloc)?)?;
        Ok(Group {
            pages: [&page; 16].try_map(Arc::try_clone)?,
        })
    }

    /// The row at a place.
    pub(crate) fn row(&self, place: usize) -> &Row
        requires { place < 1024 }
        ensures { result.now ≡ slice_index_or self.now place [] }
    {
        self.pages[place / PAGE].row(place % PAGE)
    }

    /// How many rows from a place on have no edge from before a time, as `Part::young_from`.
    pub(crate) fn young_from(&self, place: usize, time: u64) -> usize
        requires { place < 1024 }
        ensures { AreYoung time self.now place result }
    {
        self.pages[place / PAGE].young_from(place % PAGE, time)
    }

    /// Writes a row at a place, into copies of its page and part where other versions have them.
    pub(crate) fn put(&mut self, place: usize, row: Row) -> Result<(), AllocError>
        requires { place < 1024 }
        ensures rows { OnOk result (self.new ≡ slice_set self.old place row) }
        ensures length { length self.new ≡ 1024 }
    {
        put_in_page(&mut self.pages, place, row)
    }
}

/// Writes a row into its page, into a copy of the page where other versions have it.
fn put_in_page(pages: &mut [Arc<Page>], place: usize, row: Row) -> Result<(), AllocError>
    requires pages { ArePages pages.old }
    requires place { place < length pages.old * 64 }
    ensures rows { OnOk result (in_pages pages.new ≡ slice_set (in_pages pages.old) place row) }
    ensures pages { ArePages pages.new }
{
    Arc::make_mut(&mut pages[place / PAGE])?.put(place % PAGE, row)
}
