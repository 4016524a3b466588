//! Which sources later batches touched.

ghost use Rattle.std.specs.Prelude.{◌≡◌, ◌+◌, ◌*◌, ◌≤◌, ◌^◌, [], length, max, IfOk, OnOk, OnErr};
ghost use Rattle.owned_desk.specs.Touched.{AreBounds, AreTouchedBelow, AreTouchedSince, HaveRoom, TouchesSources, SameNumbers};

use graph_types::VertexId;
use std::alloc::{AllocError, Global};
use std::marker::Model;

/// How many sources that follow one another have one bound.
const GROUP: usize = 64;

/// By source, the number of the last batch that touched it, 0 for none. A source past the end has none either.
pub(crate) struct Touched {
    numbers: Vec<u32>,
    /// For each 64 sources, a number that is at least each of theirs.
    bounds: Vec<u32>,
}

// Written by hand: who lets one go rests on this function, and not on how each part is let go.
impl Drop for Touched {
    fn drop(self) {
        let Touched {
            numbers: _numbers,
            bounds: _bounds,
        } = self;
    }
}

impl Model for Touched {
    ghost use Rattle.std.specs.Prelude.{List, ℕ, length, ◌≤◌, ◌^◌};
    ghost use Rattle.owned_desk.specs.Touched.{AreBounds};

    ghost Value = { List ℕ };

    ghost view = { λ t. t.numbers.items };

    ghost invariant = { λ t. (length t.numbers.items ≤ 2 ^ 32) × (length t.bounds.items ≤ 2 ^ 27)
        × AreBounds t.bounds.items t.numbers.items };
}

impl Touched {
    /// No source was touched. It takes no memory.
    pub(crate) fn none(alloc: Global) -> Touched
        ensures { result ≡ [] }
    {
        Touched {
            numbers: Vec::new(alloc),
            bounds: Vec::new(alloc),
        }
    }

    /// Enters that the batch of this number touches these sources: 4 bytes for each source up to the greatest of them, whatever
    /// it was before. If memory runs out, each source has the number of before.
    pub(crate) fn touch(&mut self, sources: &[VertexId], number: u32) -> Result<(), AllocError>
        ensures touched { OnOk result (TouchesSources sources.now number self.old self.new) }
        ensures unchanged { OnErr result (SameNumbers self.old self.new) }
    {
        let room = room_for(sources);
        reach(&mut self.numbers, room)?;
        reach(&mut self.bounds, room / GROUP + 1)?;
        stamp(
            self.numbers.as_mut_slice(),
            self.bounds.as_mut_slice(),
            sources,
            number,
        );
        Ok(())
    }

    /// The sources that batches of greater numbers touched, rising. It looks at a number for each 64 sources, and at those of all 64
    /// where one of them was touched.
    pub(crate) fn since(&self, alloc: Global, number: u64) -> Result<Vec<VertexId>, AllocError>
        ensures { IfOk result (λ v. AreTouchedSince number self.now v.items) }
    {
        let mut sources = Vec::new(alloc);
        for (group, bound) in self.bounds.iter().enumerate() {
            if u64::from(*bound) > number {
                push_since(&mut sources, self.numbers.as_slice(), group * GROUP, number)?;
            }
        }
        Ok(sources)
    }
}

/// Adds those of 64 sources from one on that batches of greater numbers touched.
fn push_since(
    sources: &mut Vec<VertexId>,
    numbers: &[u32],
    from: usize,
    number: u64,
) -> Result<(), AllocError>
    requires few { length numbers.now ≤ 2 ^ 32 }
    requires since { AreTouchedBelow from number numbers.now sources.old.items }
    ensures { OnOk result (AreTouchedBelow (from + 64) number numbers.now sources.new.items) }
{
    let end = from.saturating_add(GROUP).min(numbers.len()).max(from);
    for source in from..end {
        if u64::from(numbers[source]) > number {
            sources.push(VertexId(source as u32))?;
        }
    }
    Ok(())
}

/// Makes at least so many numbers: further ones are 0.
fn reach(numbers: &mut Vec<u32>, count: usize) -> Result<(), AllocError>
    ensures same { SameNumbers numbers.old.items numbers.new.items }
    ensures enough { OnOk result (count ≤ length numbers.new.items) }
    ensures most { length numbers.new.items ≤ max (length numbers.old.items) count }
{
    if numbers.len() < count {
        numbers.resize(count, 0)?;
    }
    Ok(())
}

/// How many numbers there must be so that each of these sources has one.
fn room_for(sources: &[VertexId]) -> usize
    ensures room { HaveRoom result sources.now }
    ensures few { result ≤ 2 ^ 32 }
{
    let mut room = 0;
    for source in sources {
        room = room.max(source.0 as usize + 1);
    }
    room
}

/// Gives each of these sources this number, and raises the bounds.
fn stamp(numbers: &mut [u32], bounds: &mut [u32], sources: &[VertexId], number: u32)
    requires room { HaveRoom (length numbers.old) sources.now }
    requires groups { HaveRoom (length bounds.old * 64) sources.now }
    requires bounds { AreBounds bounds.old numbers.old }
    ensures touched { TouchesSources sources.now number numbers.old numbers.new }
    ensures bounds { AreBounds bounds.new numbers.new }
{
    for source in sources {
        let at = source.0 as usize;
        numbers[at] = number;
        bounds[at / GROUP] = bounds[at / GROUP].max(number);
    }
}
