ghost use Rattle.std.specs.Prelude.{◌≡◌, ◌≢◌, ◌<◌, ◌^◌, ◌++◌, ◌∷◌, ◌↔◌, ℕ, [], length, slice_get, option_copied, Some, IsTrue};
ghost use Rattle.std.specs.Prelude.{AllPairs, IfOk, OnOk, OnErr};
ghost use Rattle.std.specs.Option.{SomeIff};
ghost use Rattle.graph_types.specs.Step.{number_of};
ghost use Rattle.graph_types.specs.Answer.{is_listed};
ghost use Rattle.vertex_names.specs.Index.{text_hash, Stands};
ghost use Rattle.vertex_names.specs.Tables.{names_of};

use crate::chunk::Entry;
use crate::index::HashIndex;
use crate::texts::Texts;
use std::alloc::{AllocError, Global};
use std::marker::Model;
use std::sync::Arc;

/// The names of a book, and what finds them. Books share it until one of them adds a name.
pub(crate) struct Tables {
    texts: Texts,
    index: HashIndex,
    /// The numbers of the names whose hash another name had taken.
    others: Vec<u32>,
}

// By hand, so that who lets one go need not take it apart.
impl Drop for Tables {
    fn drop(self) {
        let Tables {
            texts: _texts,
            index: _index,
            others: _others,
        } = self;
    }
}

impl Model for Tables {
    ghost use Rattle.std.specs.Prelude.{ℕ, List};
    ghost use Rattle.vertex_names.specs.Index.{IsIndexed};

    ghost Value = { List (List ℕ) };

    ghost view = { λ t. t.texts };

    ghost invariant = { λ t. IsIndexed t.texts t.index t.others.items };
}

impl Clone for Tables {
    ghost is_clone = { λ tables copy. copy ≡ tables };

    fn clone(&self) -> Result<Tables, AllocError> {
        Ok(Tables {
            texts: self.texts.share()?,
            index: self.index.share()?,
            others: self.others.clone()?,
        })
    }
}

impl Tables {
    /// Tables without names. It takes no memory yet.
    fn new(alloc: Global) -> Tables
        ensures { result ≡ [] }
    {
        Tables {
            texts: Texts::new(alloc),
            index: HashIndex::new(alloc),
            others: Vec::new(alloc),
        }
    }

    /// How many names there are.
    pub(crate) fn len(&self) -> usize
        ensures { result ≡ length self.now }
    {
        self.texts.len()
    }

    /// The name at a place.
    pub(crate) fn name(&self, number: u32) -> Option<&str>
        ensures { option_copied result ≡ slice_get self.now number }
    {
        self.texts.name(number)
    }

    /// Whether this name stands at a place.
    pub(crate) fn is_at(&self, number: u32, name: &str) -> bool
        ensures { IsTrue result ↔ (slice_get self.now number ≡ Some name.now) }
    {
        self.texts.is_at(number, name)
    }

    /// The number of a name that is there, by its hash.
    pub(crate) fn number_at(&self, hash: u64, name: &str) -> Option<u32>
        requires hash { hash ≡ text_hash name.now }
        requires distinct { AllPairs (λ a b. a ≢ b) self.now }
        ensures { SomeIff result (IsTrue (is_listed self.now name.now)) (number_of self.now name.now) }
    {
        let first = self.index.first(hash)?;
        if self.texts.is_at(first, name) {
            return Some(first);
        }
        self.texts.find_among(&self.others, name)
    }

    /// One more name, the last.
    fn push(&mut self, alloc: Global, hash: u64, name: &str) -> Result<(), AllocError>
        requires hash { hash ≡ text_hash name.now }
        requires few { length self.old < 2 ^ 32 }
        ensures pushed { OnOk result (self.new ≡ self.old ++ name.now ∷ []) }
        ensures unchanged { OnErr result (self.new ≡ self.old) }
    {
        let number = self.texts.len();
        let text = Entry::of(alloc, name)?;
        enter(
            alloc,
            &mut self.index,
            &mut self.others,
            hash,
            number as u32,
        )?;
        self.texts.push(alloc, text)?;
        Ok(())
    }
}

/// A number for a hash: at the hash where that is free, and otherwise among the others. What a refused growth left
/// behind stands already.
fn enter(
    alloc: Global,
    index: &mut HashIndex,
    others: &mut Vec<u32>,
    hash: u64,
    number: u32,
) -> Result<(), AllocError>
    ensures entered { OnOk result (Stands index.new others.new.items hash number) }
    ensures kept { (q i : ℕ) → Stands index.old others.old.items q i → Stands index.new others.new.items q i }
{
    match index.first(hash) {
        None => index.put(alloc, hash, number),
        Some(known) if known == number => Ok(()),
        Some(_) => {
            others.push(number)?;
            Ok(())
        }
    }
}

/// The first name's tables.
fn first(alloc: Global, hash: u64, name: &str) -> Result<Arc<Tables>, AllocError>
    requires { hash ≡ text_hash name.now }
    ensures { IfOk result (λ t. names_of (Some t) ≡ name.now ∷ []) }
{
    let mut tables = Tables::new(alloc);
    tables.push(alloc, hash, name)?;
    Ok(Arc::new(alloc, tables)?)
}

/// One more name, in a copy of the tables where other books have them.
fn push_in(tables: &mut Arc<Tables>, alloc: Global, hash: u64, name: &str) -> Result<(), AllocError>
    requires hash { hash ≡ text_hash name.now }
    requires few { length (names_of (Some tables.old)) < 2 ^ 32 }
    ensures pushed { OnOk result (names_of (Some tables.new) ≡ names_of (Some tables.old) ++ name.now ∷ []) }
    ensures unchanged { OnErr result (names_of (Some tables.new) ≡ names_of (Some tables.old)) }
{
    Arc::make_mut(tables)?.push(alloc, hash, name)
}

/// One more name of a book, the last.
pub(crate) fn push_name(
    tables: &mut Option<Arc<Tables>>,
    alloc: Global,
    hash: u64,
    name: &str,
) -> Result<(), AllocError>
    requires hash { hash ≡ text_hash name.now }
    requires few { length (names_of tables.old) < 2 ^ 32 }
    ensures pushed { OnOk result (names_of tables.new ≡ names_of tables.old ++ name.now ∷ []) }
    ensures unchanged { OnErr result (names_of tables.new ≡ names_of tables.old) }
{
    match tables {
        Some(tables) => push_in(tables, alloc, hash, name),
        None => {
            *tables = Some(first(alloc, hash, name)?);
            Ok(())
        }
    }
}

/// Whether this name stands at a place.
pub(crate) fn is_at(tables: &Option<Arc<Tables>>, number: u32, name: &str) -> bool
    ensures { IsTrue result ↔ (slice_get (names_of tables.now) number ≡ Some name.now) }
{
    match tables {
        None => false,
        Some(tables) => tables.is_at(number, name),
    }
}

/// The same tables.
pub(crate) fn shared(tables: &Option<Arc<Tables>>) -> Result<Option<Arc<Tables>>, AllocError>
    ensures { IfOk result (λ copy. names_of copy ≡ names_of tables.now) }
{
    match tables {
        None => Ok(None),
        Some(tables) => Ok(Some(Arc::try_clone(tables)?)),
    }
}
