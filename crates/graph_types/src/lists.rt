//! A list that is a field of another type.

ghost use Rattle.std.specs.Prelude.{◌≡◌, ◌<◌, ◌^◌, ◌↔◌, [], length, IsTrue};
ghost use Rattle.std.specs.List.{AllZip};
ghost use Rattle.std.specs.Slice.Iter.{iter_rest};
ghost use Rattle.std.specs.Vec.Iter.{into_iter_items};
ghost use Rattle.std.specs.Cmp.Lexicographic.{pointwise, lists_equiv, lists_per};

use std::alloc::AllocError;
use std::marker::Model;
use std::{slice, vec};

/// A list that is a field of another type; contracts see the list itself, and not its spare room.
///
/// ```
/// for (name, level) in &levels {
///     println!(rt; "{name} {level}")?;
/// }
/// ```
#[derive(Debug, Drop)]
pub struct List<T> {
    items: Vec<T>,
}

impl<T> Model for List<T> {
    ghost use Rattle.std.specs.Prelude.{List as Items};

    ghost Value = { Items T };

    ghost view = { λ l. l.items.items };
}

impl<T> List<T> {
    /// The list that shows these items. It takes no memory.
    pub fn of(items: Vec<T>) -> List<T>
        ensures { result ≡ items.items }
    {
        Self { items }
    }

    /// The items. It takes no memory.
    pub fn as_slice(&self) -> &[T]
        ensures { result.now ≡ self.now }
    {
        self.items.as_slice()
    }

    /// How many items there are. It takes no memory.
    ///
    /// ```
    /// assert_eq!(rt; List::of(vec![in alloc; 7, 9]?).len(), 2);
    /// ```
    pub fn len(&self) -> usize
        ensures { result ≡ length self.now }
    {
        self.items.len()
    }

    /// Whether there is no item. It takes no memory.
    ///
    /// ```
    /// assert!(rt; List::<u32>::of(Vec::new(alloc)).is_empty());
    /// ```
    pub fn is_empty(&self) -> bool
        ensures { IsTrue result ↔ (self.now ≡ []) }
    {
        self.items.is_empty()
    }

    /// Lends the items in order. It takes no memory.
    ///
    /// ```
    /// let greatest = list.iter().max();
    /// ```
    pub fn iter(&self) -> slice::Iter<'_, T>
        ensures items { iter_rest result ≡ self.now }
        ensures few { length self.now < 2 ^ 64 }
    {
        self.items.iter()
    }

    /// The items themselves. It takes no memory.
    pub fn into_vec(self) -> Vec<T>
        ensures { result.items ≡ self }
    {
        let List { items } = self;
        items
    }
}

impl<T: Clone> Clone for List<T> {
    ghost is_clone = { λ list copy. AllZip T.is_clone list copy };

    fn clone(&self) -> Result<List<T>, AllocError> {
        Ok(List {
            items: self.items.clone()?,
        })
    }
}

impl<'a, T> IntoIterator for &'a List<T> {
    type Item = &'a T;

    type IntoIter = slice::Iter<'a, T>;

    ghost into_iter_gives = { λ list items. (iter_rest items ≡ list.now) × (length (iter_rest items) < 2 ^ 64) };

    fn into_iter(self) -> slice::Iter<'a, T> {
        self.iter()
    }
}

impl<T: Drop> IntoIterator for List<T> {
    type Item = T;

    type IntoIter = vec::IntoIter<T>;

    ghost into_iter_gives = { λ list items. into_iter_items items ≡ list };

    fn into_iter(self) -> vec::IntoIter<T> {
        self.into_vec().into_iter()
    }
}

impl<T: PartialEq> PartialEq for List<T> {
    ghost eq = { pointwise T.eq };

    ghost laws = { lists_per T.laws };

    fn eq(&self, other: &List<T>) -> bool {
        self.as_slice() == other.as_slice()
    }
}

impl<T: Eq> Eq for List<T> {
    ghost laws = { lists_equiv T.Eq.laws };
}
