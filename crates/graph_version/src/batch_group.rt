//! Groups of pages.

ghost use Rattle.std.specs.Prelude.{◌≡◌, ◌<◌, ◌^◌, ◌++◌, ◌∷◌, [], length, slice_get, option_copied, IfOk, OnOk, OnErr};
ghost use Rattle.graph_version.specs.Batches.{batch_value};
ghost use Rattle.graph_version.specs.BatchPages.{in_pages, ArePages};

use crate::batch_page::{BatchPage, PAGE};
use graph_types::Batch;
use std::alloc::{AllocError, Global};
use std::marker::Model;
use std::sync::Arc;
use std::vec::VecCloneMethods;

/// How many batches stand in one group.
pub(crate) const GROUP: usize = 256;

/// How many pages stand in one group.
const PAGES: usize = 16;

/// At most 256 batches that follow one another, in pages of 16 that copies share.
pub(crate) struct BatchGroup {
    len: usize,
    pages: Vec<Arc<BatchPage>>,
}

// By hand, so that who lets one go need not take it apart.
impl Drop for BatchGroup {
    fn drop(self) {
        let BatchGroup {
            len: _len,
            pages: _pages,
        } = self;
    }
}

impl Model for BatchGroup {
    ghost use Rattle.std.specs.Prelude.{◌≡◌, List, length};
    ghost use Rattle.graph_types.specs.declared.batches.NamedOp.{NamedOp};
    ghost use Rattle.graph_version.specs.BatchPages.{in_pages, ArePages};

    ghost Value = { List (List NamedOp) };

    ghost view = { λ group. in_pages group.pages.items };

    ghost invariant = { λ group. (length (in_pages group.pages.items) ≡ group.len) × ArePages group.pages.items };
}

impl Clone for BatchGroup {
    ghost is_clone = { λ group copy. copy ≡ group };

    // With room for all that a group can have, so that the push behind a copy asks for no memory.
    fn clone(&self) -> Result<BatchGroup, AllocError> {
        let mut pages = Vec::with_capacity(*self.pages.allocator(), PAGES)?;
        VecCloneMethods::extend_from_slice(&mut pages, &self.pages)?;
        Ok(BatchGroup {
            len: self.len,
            pages,
        })
    }
}

impl BatchGroup {
    /// The group of one batch.
    pub(crate) fn of(alloc: Global, batch: Arc<Batch>) -> Result<BatchGroup, AllocError>
        ensures { IfOk result (λ group. group ≡ batch_value batch ∷ []) }
    {
        let mut group = BatchGroup {
            len: 0,
            pages: Vec::new(alloc),
        };
        group.push(batch)?;
        Ok(group)
    }

    /// The batch at a place.
    pub(crate) fn get(&self, place: usize) -> Option<&Batch>
        ensures { option_copied result ≡ slice_get self.now place }
    {
        self.pages.get(place / PAGE)?.get(place % PAGE)
    }

    /// One more batch: one page is made or copied, and every other is shared.
    pub(crate) fn push(&mut self, batch: Arc<Batch>) -> Result<(), AllocError>
        requires { length self.old < 2 ^ 32 }
        ensures pushed { OnOk result (self.new ≡ self.old ++ batch_value batch ∷ []) }
        ensures unchanged { OnErr result (self.new ≡ self.old) }
    {
        let alloc = *self.pages.allocator();
        add_to_pages(alloc, &mut self.pages, self.len, batch)?;
        self.len += 1;
        Ok(())
    }
}

/// One more batch after the last: in a new page where all are full, and otherwise in the last page, or in a copy of
/// it where other groups have it.
fn add_to_pages(
    alloc: Global,
    pages: &mut Vec<Arc<BatchPage>>,
    len: usize,
    batch: Arc<Batch>,
) -> Result<(), AllocError>
    requires len { length (in_pages pages.old.items) ≡ len }
    requires pages { ArePages pages.old.items }
    ensures added { OnOk result (in_pages pages.new.items ≡ in_pages pages.old.items ++ batch_value batch ∷ []) }
    ensures unchanged { OnErr result (in_pages pages.new.items ≡ in_pages pages.old.items) }
    ensures pages { ArePages pages.new.items }
{
    if len % PAGE == 0 {
        let page = Arc::new(alloc, BatchPage::of(alloc, batch)?)?;
        pages.push(page)?;
        return Ok(());
    }
    Arc::make_mut(&mut pages[len / PAGE])?.push(batch)
}
