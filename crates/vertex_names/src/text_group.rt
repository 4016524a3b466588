//! Groups of chunks.

ghost use Rattle.std.specs.Prelude.{◌≡◌, ◌<◌, ◌^◌, ◌++◌, ◌∷◌, [], length, slice_get, option_copied, IfOk, OnOk, OnErr};
ghost use Rattle.vertex_names.specs.Texts.{in_chunks, AreChunks};

use crate::chunk::{Chunk, Entry};
use std::alloc::{AllocError, Global};
use std::marker::Model;
use std::sync::Arc;

/// How many names stand in one chunk.
const CHUNK: usize = 256;

/// Names that follow one another, in chunks of 256 that copies share: at most 32,768 of them.
pub(crate) struct TextGroup {
    len: usize,
    chunks: Vec<Arc<Chunk>>,
}

// By hand, so that who lets one go need not take it apart.
impl Drop for TextGroup {
    fn drop(self) {
        let TextGroup {
            len: _len,
            chunks: _chunks,
        } = self;
    }
}

impl Model for TextGroup {
    ghost use Rattle.std.specs.Prelude.{◌≡◌, ℕ, List, length};
    ghost use Rattle.vertex_names.specs.Texts.{in_chunks, AreChunks};

    ghost Value = { List (List ℕ) };

    ghost view = { λ group. in_chunks group.chunks.items };

    ghost invariant = { λ group. (length (in_chunks group.chunks.items) ≡ group.len) × AreChunks group.chunks.items };
}

impl Clone for TextGroup {
    ghost is_clone = { λ group copy. copy ≡ group };

    fn clone(&self) -> Result<TextGroup, AllocError> {
        Ok(TextGroup {
            len: self.len,
            chunks: self.chunks.clone()?,
        })
    }
}

impl TextGroup {
    /// The group of one name.
    pub(crate) fn of(alloc: Global, name: Entry) -> Result<TextGroup, AllocError>
        ensures { IfOk result (λ group. group ≡ name ∷ []) }
    {
        let mut group = TextGroup {
            len: 0,
            chunks: Vec::new(alloc),
        };
        group.push(alloc, name)?;
        Ok(group)
    }

    /// The name at a place.
    pub(crate) fn name(&self, place: usize) -> Option<&str>
        ensures { option_copied result ≡ slice_get self.now place }
    {
        self.chunks.get(place / CHUNK)?.name(place % CHUNK)
    }

    /// One more name, the last: one chunk is made or copied, and every other is shared.
    pub(crate) fn push(&mut self, alloc: Global, name: Entry) -> Result<(), AllocError>
        requires { length self.old < 2 ^ 32 }
        ensures pushed { OnOk result (self.new ≡ self.old ++ name ∷ []) }
        ensures unchanged { OnErr result (self.new ≡ self.old) }
    {
        add_to_chunks(alloc, &mut self.chunks, self.len, name)?;
        self.len += 1;
        Ok(())
    }
}

/// One more name after the last: in a new chunk where all are full, and otherwise in the last chunk, or in a
/// copy of it where others have it.
fn add_to_chunks(
    alloc: Global,
    chunks: &mut Vec<Arc<Chunk>>,
    len: usize,
    name: Entry,
) -> Result<(), AllocError>
    requires len { length (in_chunks chunks.old.items) ≡ len }
    requires chunks { AreChunks chunks.old.items }
    ensures added { OnOk result (in_chunks chunks.new.items ≡ in_chunks chunks.old.items ++ name ∷ []) }
    ensures unchanged { OnErr result (in_chunks chunks.new.items ≡ in_chunks chunks.old.items) }
    ensures chunks { AreChunks chunks.new.items }
{
    if len % CHUNK == 0 {
        let chunk = Arc::new(alloc, Chunk::of(alloc, name)?)?;
        chunks.push(chunk)?;
        return Ok(());
    }
    Arc::make_mut(&mut chunks[len / CHUNK])?.push(name)
}
