//! Names, and chunks of them.

ghost use Rattle.std.specs.Prelude.{◌≡◌, ◌++◌, ◌∷◌, [], slice_get, option_copied, IfOk, OnOk, OnErr};

use arrayvec::ArrayString;
use std::alloc::{AllocError, Global};
use std::marker::Model;

/// A name's text, in place where it is short.
#[derive(Drop)]
pub(crate) enum Kept {
    Short(ArrayString<24>),
    Long(String),
}

/// A name of a book. Most are short, and are then read where the name stands, without a further place in memory.
pub(crate) struct Entry {
    kept: Kept,
}

// By hand, so that who lets one go need not take it apart.
impl Drop for Entry {
    fn drop(self) {
        let Entry { kept: _kept } = self;
    }
}

impl Model for Entry {
    ghost use Rattle.std.specs.Prelude.{ℕ, List};
    ghost use Rattle.vertex_names.specs.Names.{kept_bytes};

    ghost Value = { List ℕ };

    ghost view = { λ e. kept_bytes e.kept };
}

impl Entry {
    /// The name of this text. It takes memory only where the text is longer than 24 bytes.
    pub(crate) fn of(alloc: Global, text: &str) -> Result<Entry, AllocError>
        ensures { IfOk result (λ e. e ≡ text.now) }
    {
        match ArrayString::from(text) {
            Ok(short) => Ok(Entry {
                kept: Kept::Short(short),
            }),
            Err(_) => {
                let long = String::from_str(alloc, text)?;
                Ok(Entry {
                    kept: Kept::Long(long),
                })
            }
        }
    }

    /// The text.
    fn as_str(&self) -> &str
        ensures { result.now ≡ self.now }
    {
        match &self.kept {
            Kept::Short(short) => short.as_str(),
            Kept::Long(long) => long.as_str(),
        }
    }
}

impl Clone for Entry {
    ghost is_clone = { λ entry copy. copy ≡ entry };

    fn clone(&self) -> Result<Entry, AllocError> {
        match &self.kept {
            Kept::Short(short) => Ok(Entry {
                kept: Kept::Short(*short),
            }),
            Kept::Long(long) => Ok(Entry {
                kept: Kept::Long(long.clone()?),
            }),
        }
    }
}

/// Names that follow one another.
pub(crate) struct Chunk {
    names: Vec<Entry>,
}

// By hand, so that who lets one go need not take it apart.
impl Drop for Chunk {
    fn drop(self) {
        let Chunk { names: _names } = self;
    }
}

impl Model for Chunk {
    ghost use Rattle.std.specs.Prelude.{ℕ, List};

    ghost Value = { List (List ℕ) };

    ghost view = { λ c. c.names.items };
}

impl Clone for Chunk {
    ghost is_clone = { λ chunk copy. copy ≡ chunk };

    fn clone(&self) -> Result<Chunk, AllocError> {
        Ok(Chunk {
            names: self.names.clone()?,
        })
    }
}

impl Chunk {
    /// The chunk of one name.
    pub(crate) fn of(alloc: Global, name: Entry) -> Result<Chunk, AllocError>
        ensures { IfOk result (λ c. c ≡ name ∷ []) }
    {
        let mut names = Vec::new(alloc);
        names.push(name)?;
        Ok(Chunk { names })
    }

    /// The name at a place.
    pub(crate) fn name(&self, place: usize) -> Option<&str>
        ensures { option_copied result ≡ slice_get self.now place }
    {
        let name = self.names.get(place)?;
        Some(name.as_str())
    }

    /// One more name.
    pub(crate) fn push(&mut self, name: Entry) -> Result<(), AllocError>
        ensures pushed { OnOk result (self.new ≡ self.old ++ name ∷ []) }
        ensures unchanged { OnErr result (self.new ≡ self.old) }
    {
        self.names.push(name)?;
        Ok(())
    }
}
