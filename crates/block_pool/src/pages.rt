//! Lists whose elements take memory a page at a time, when they are first written.

ghost use Rattle.std.specs.Prelude.{◌≡◌, ◌<◌, ◌≤◌, ◌+◌, ℕ, length, slice_index_or, slice_set, IfOk, OnOk, vec_len, true};
ghost use Rattle.block_pool.specs.Paging.{HasRoom, by_place};

use std::alloc::{AllocError, Global};
use std::marker::Model;
use std::mem;

/// How many elements a page has.
const PAGE: usize = 4_096;

/// What an element is before it is first written.
pub(crate) trait Blank: Drop {
    ghost blank: { ℕ → Self };

    /// The blank element of a place.
    fn blank(place: usize) -> Self
        requires { place < 4294967296 }
        ensures { result ≡ blank place };
}

impl Blank for u32 {
    ghost blank = { λ place. place };

    fn blank(place: usize) -> u32 {
        place as u32
    }
}

/// A list of a fixed length. An element takes memory, with those of its page, before it is first written; until then it is blank.
#[derive(Debug, Drop)]
pub(crate) struct Pages<T: Blank> {
    pages: Vec<Vec<T>>,
    len: usize,
}

impl<T: Blank> Model for Pages<T> {
    ghost use Rattle.std.specs.Prelude.{map, ◌<◌, ◌/◌, ◌≤◌, length};
    ghost use Rattle.block_pool.specs.Paging.{Paged, paged, items_of};

    ghost Value = { Paged T };

    ghost view = { λ p. paged T.blank (map items_of p.pages.items) p.len };

    ghost invariant = { λ p. (p.len / 4096 < length p.pages.items) × (p.len ≤ 4294967296) };
}

impl<T: Blank> Pages<T> {
    /// So many blank elements. It takes memory for a pointer to each page.
    pub fn new(alloc: Global, len: usize) -> Result<Pages<T>, AllocError>
        requires { len ≤ 4294967296 }
        ensures { IfOk result (λ list. list.items ≡ by_place T.blank len) }
    {
        let count = len / PAGE + 1;
        let mut pages = Vec::with_capacity(alloc, count)?;
        for _ in 0..count {
            pages.push(Vec::new(alloc))?;
        }
        Ok(Pages { pages, len })
    }

    /// How many elements there are.
    pub fn len(&self) -> usize
        ensures { result ≡ length self.now.items }
    {
        self.len
    }

    /// Makes the page of a place where it isn't there. It takes memory for the page's elements.
    #[inline]
    pub fn make(&mut self, place: usize) -> Result<(), AllocError>
        requires { place < length self.old.items }
        ensures items { self.new.items ≡ self.old.items }
        ensures room { OnOk result (HasRoom self.new.rooms place) }
        ensures kept { (other : ℕ) → HasRoom self.old.rooms other → HasRoom self.new.rooms other }
    {
        if place % PAGE < self.pages[place / PAGE].len() {
            return Ok(());
        }
        self.make_page(place)
    }

    // Apart, so that the test above is inlined: most pages are there.
    #[cold]
    #[inline(never)]
    fn make_page(&mut self, place: usize) -> Result<(), AllocError>
        requires { place < length self.old.items }
        ensures items { self.new.items ≡ self.old.items }
        ensures room { OnOk result (HasRoom self.new.rooms place) }
        ensures kept { (other : ℕ) → HasRoom self.old.rooms other → HasRoom self.new.rooms other }
    {
        let page = place / PAGE;
        let first = page * PAGE;
        fill(&mut self.pages[page], first, PAGE.min(self.len - first))
    }

    /// The element at a place.
    pub fn get(&self, place: usize) -> T
    where
        T: Copy,
        requires { place < length self.now.items }
        ensures { result ≡ slice_index_or self.now.items place result }
    {
        match self.pages[place / PAGE].get(place % PAGE) {
            Some(item) => *item,
            None => T::blank(place),
        }
    }

    /// Whether there is memory for the element at a place.
    pub fn has(&self, place: usize) -> bool
        requires { place < length self.now.items }
        ensures { result ≡ true → HasRoom self.now.rooms place }
    {
        place % PAGE < self.pages[place / PAGE].len()
    }

    /// Writes the element at a place.
    pub fn set(&mut self, place: usize, item: T)
        requires within { place < length self.old.items }
        requires room { HasRoom self.old.rooms place }
        ensures { self.new ≡ record { items = slice_set self.old.items place item; rooms = self.old.rooms } }
    {
        self.pages[place / PAGE][place % PAGE] = item;
    }

    /// Takes the element at a place, and leaves a blank one.
    pub fn take(&mut self, place: usize) -> T
        requires within { place < length self.old.items }
        requires room { HasRoom self.old.rooms place }
        ensures item { result ≡ slice_index_or self.old.items place result }
        ensures left { self.new ≡ record { items = slice_set self.old.items place (T.blank place); rooms = self.old.rooms } }
    {
        mem::replace(&mut self.pages[place / PAGE][place % PAGE], T::blank(place))
    }
}

/// Fills a page whose first place is given up to so many elements.
fn fill<T: Blank>(page: &mut Vec<T>, first: usize, count: usize) -> Result<(), AllocError>
    requires { first + count ≤ 4294967296 }
    ensures same { (k : ℕ) → slice_index_or page.new.items k (T.blank (first + k)) ≡ slice_index_or page.old.items k (T.blank (first + k)) }
    ensures more { vec_len page.old ≤ vec_len page.new }
    ensures filled { OnOk result (count ≤ vec_len page.new) }
{
    let missing = count.saturating_sub(page.len());
    page.reserve_exact(missing)?;
    for place in page.len()..count {
        page.push(T::blank(first + place))?;
    }
    Ok(())
}
