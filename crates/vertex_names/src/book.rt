ghost use Rattle.std.specs.Prelude.{◌≡◌, ◌≤◌, ◌<◌, ◌^◌, ◌↔◌, ℕ, Some, length, slice_get, option_copied, IsTrue, IsOk, IfOk, IfErr, OnOk};
ghost use Rattle.std.specs.Prelude.{OnErr, IfSome};
ghost use Rattle.std.specs.Option.{SomeIff};
ghost use Rattle.graph_types.specs.Step.{with_name, number_of};
ghost use Rattle.graph_types.specs.Answer.{is_listed};
ghost use Rattle.graph_types.specs.Valid.{is_name};
ghost use Rattle.vertex_names.specs.Book.{empty_book, with_entry, IsBook, RefusesName};
ghost use Rattle.vertex_names.specs.Index.{text_hash};
ghost use Rattle.vertex_names.specs.Lending.{names_left};

use crate::cache::{Cache, keep, make_room, short_hash};
use crate::index::hash_of;
use crate::lending::NameIter;
use crate::tables::{Tables, is_at, push_name, shared};
use std::alloc::{AllocError, AllocFailed, Global};
use std::fmt;
use std::marker::Model;
use std::sync::Arc;
use thiserror::Error;

/// Why a name was not added.
#[derive(Clone, Copy, Debug, PartialEq, Eq, Error)]
pub enum AddError {
    #[error("the book would have more names than its limit")]
    NamesFull,
    #[error("out of memory")]
    OutOfMemory,
}

impl From<AllocError> for AddError {
    ghost use Rattle.vertex_names.specs.declared.book.AddError.TheVariants.{OutOfMemory};

    ghost from_gives = { λ _ e. e ≡ OutOfMemory };

    fn from(_refused: AllocError) -> AddError {
        AddError::OutOfMemory
    }
}

impl<T: Drop> From<AllocFailed<T>> for AddError {
    ghost use Rattle.vertex_names.specs.declared.book.AddError.TheVariants.{OutOfMemory};

    ghost from_gives = { λ _ e. e ≡ OutOfMemory };

    fn from(_refused: AllocFailed<T>) -> AddError {
        AddError::OutOfMemory
    }
}

/// The names that have appeared, in order of first appearance; a name's number is its place.
///
/// A look-up takes no memory: one look into the cache and one comparison of texts, or else one hash, a search in two lists
/// that rise, and one comparison more. A new name takes one copy of its text. The first one after a `share` takes a pointer for
/// each 32,768 names, each chunk of 256 of the last ones and each of 32 shelves of the index, and each one copies of the last
/// 256 texts at most, and of the 16 pointers of a shelf, a list and a piece of one part. The cache takes 8 to 16 bytes a name.
pub struct NameBook {
    limit: u32,
    alloc: Global,
    /// `None` before the first name.
    tables: Option<Arc<Tables>>,
    /// Numbers of names that were found not long ago; `None` before the first name, and where memory for it was refused.
    cache: Option<Arc<Cache>>,
}

// Written by hand: how many names there are, and not each of them.
impl fmt::Debug for NameBook {
    fn fmt<F: fmt::Write>(&self, f: &mut fmt::Formatter<F>) -> fmt::Result {
        f.debug_struct("NameBook")
            .field("limit", &self.limit)
            .field("names", &self.len())
            .finish_non_exhaustive()
    }
}

impl Model for NameBook {
    ghost use Rattle.vertex_names.specs.Book.{Book, IsBook};
    ghost use Rattle.vertex_names.specs.Tables.{names_of};

    ghost Value = { Book };

    ghost view = { λ book. record { limit = book.limit; names = names_of book.tables } };

    ghost invariant = { λ book. IsBook (record { limit = book.limit; names = names_of book.tables }) };
}

// Written by hand: who lets one go rests on this function, and not on how each part is let go.
impl Drop for NameBook {
    fn drop(self) {
        let NameBook {
            limit: _limit,
            alloc: _alloc,
            tables: _tables,
            cache: _cache,
        } = self;
    }
}

impl NameBook {
    /// A book without names that takes at most `limit` of them. It takes no memory yet.
    pub fn new(alloc: Global, limit: u32) -> Self
        ensures { result ≡ empty_book limit }
    {
        NameBook {
            limit,
            alloc,
            tables: None,
            cache: None,
        }
    }

    /// How many names there are.
    pub fn len(&self) -> usize
        ensures value { result ≡ length self.now.names }
        ensures book { IsBook self.now }
    {
        match &self.tables {
            None => 0,
            Some(tables) => tables.len(),
        }
    }

    /// Whether there are no names.
    pub fn is_empty(&self) -> bool
        ensures { IsTrue result ↔ (length self.now.names ≡ 0) }
    {
        self.len() == 0
    }

    /// The number of a name that has appeared. Like each number of a name, it is below the limit.
    pub fn number(&self, name: &str) -> Option<u32>
        ensures number { SomeIff result (IsTrue (is_listed self.now.names name.now)) (number_of self.now.names name.now) }
        ensures within { length self.now.names ≤ self.now.limit }
    {
        let short = short_hash(name);
        if let Some(number) = self.cached(short, name) {
            return Some(number);
        }
        let number = self.number_at(hash_of(name), name)?;
        keep(&self.cache, short, number);
        Some(number)
    }

    /// The number of a name that has appeared, by its hash.
    fn number_at(&self, hash: u64, name: &str) -> Option<u32>
        requires { hash ≡ text_hash name.now }
        ensures { SomeIff result (IsTrue (is_listed self.now.names name.now)) (number_of self.now.names name.now) }
    {
        match &self.tables {
            None => None,
            Some(tables) => tables.number_at(hash, name),
        }
    }

    /// A number, if it is the name's.
    fn if_named(&self, number: u32, name: &str) -> Option<u32>
        ensures listed { IfSome result (λ number. IsTrue (is_listed self.now.names name.now)) }
        ensures number { IfSome result (λ number. number ≡ number_of self.now.names name.now) }
    {
        if is_at(&self.tables, number, name) {
            Some(number)
        } else {
            None
        }
    }

    /// The number that the cache has for this short hash, if it is the name's.
    fn cached(&self, short: u64, name: &str) -> Option<u32>
        ensures listed { IfSome result (λ number. IsTrue (is_listed self.now.names name.now)) }
        ensures number { IfSome result (λ number. number ≡ number_of self.now.names name.now) }
        ensures within { length self.now.names ≤ self.now.limit }
    {
        let number = self.cache.as_ref()?.get(short)?;
        self.if_named(number, name)
    }

    /// The name of that number, if there are more names than that.
    pub fn name(&self, number: u32) -> Option<&str>
        ensures { option_copied result ≡ slice_get self.now.names number }
    {
        self.name_of(number)
    }

    /// The name of that number, of which there are fewer than 2^32.
    pub(crate) fn name_of(&self, number: u32) -> Option<&str>
        ensures name { option_copied result ≡ slice_get self.now.names number }
        ensures few { length self.now.names < 2 ^ 32 }
    {
        match &self.tables {
            None => None,
            Some(tables) => tables.name(number),
        }
    }

    /// Lends the names in the order of their numbers.
    ///
    /// ```
    /// for name in version.names().iter() {
    ///     println!(&rt; "{name}")?;
    /// }
    /// ```
    pub fn iter(&self) -> NameIter<'_>
        ensures { names_left result ≡ self.now.names }
    {
        NameIter::over(self)
    }

    /// The number of a name, which becomes the last one where it has not appeared before.
    ///
    /// `NamesFull` where the name is new and the book has as many names as its limit; `OutOfMemory` where a
    /// growth was refused, which only a new name asks for. After either the book is as before.
    pub fn add(&mut self, name: &str) -> Result<u32, AddError>
        requires { IsTrue (is_name name.now) }
        ensures number { IfOk result (λ number. number ≡ number_of self.old.names name.now) }
        ensures added { OnOk result (self.new ≡ with_entry self.old name.now) }

        // A name that has appeared is never refused, and another one within the limit only if memory runs out.
        ensures known { IsTrue (is_listed self.old.names name.now) → IsOk result }
        ensures within { OnOk result (length self.new.names ≤ self.new.limit) }
        ensures refused { IfErr result (λ error. RefusesName error self.old name.now) }
        ensures unchanged { OnErr result (self.new ≡ self.old) }
    {
        let short = short_hash(name);
        if let Some(number) = self.cached(short, name) {
            return Ok(number);
        }
        let hash = hash_of(name);
        if let Some(number) = self.number_at(hash, name) {
            keep(&self.cache, short, number);
            return Ok(number);
        }
        let number = self.len();
        if number >= self.limit as usize {
            return Err(AddError::NamesFull);
        }
        push_name(&mut self.tables, self.alloc, hash, name)?;
        make_room(self.alloc, &mut self.cache, number);
        keep(&self.cache, short, number as u32);
        Ok(number as u32)
    }

    /// An equal book, which later changes of this one leave alone. It copies nothing, and takes no memory.
    pub fn share(&self) -> Result<NameBook, AllocError>
        ensures { IfOk result (λ copy. copy ≡ self.now) }
    {
        Ok(NameBook {
            limit: self.limit,
            alloc: self.alloc,
            tables: shared(&self.tables)?,
            cache: match &self.cache {
                None => None,
                Some(cache) => Some(Arc::try_clone(cache)?),
            },
        })
    }
}
