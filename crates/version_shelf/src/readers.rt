//! Readers of the shelf.

ghost use Rattle.std.specs.Prelude.{◌≡◌, IfSome, MatchResult, Some};
ghost use Rattle.std.specs.Arc.{arc_value};
ghost use Rattle.left_right.specs.Sides.{view};
ghost use Rattle.graph_version.specs.declared.versions.Version.{Version};
ghost use Rattle.version_shelf.specs.Shelves.{ToldView, Begins, IsOfOneShelf, Continues};

use crate::rules::{Look, ReaderPlace};
use crate::told::Told;
use core::mem::replace_with;
use graph_version::Version;
use std::alloc::{AllocError, Global};
use std::marker::Model;
use std::sync::Arc;

/// A reader of the shelf. It keeps the newest version that it entered or learnt, at first the one at the opening, and
/// contracts see it as what was told of that version.
pub struct ShelfReader {
    pub(crate) alloc: Global,
    pub(crate) place: ReaderPlace,
    pub(crate) newest: Told,
}

// Written by hand: who lets one go rests on this function, and not on how each part is let go.
impl Drop for ShelfReader {
    fn drop(self) {
        let ShelfReader {
            alloc: _alloc,
            place: _place,
            newest: _newest,
        } = self;
    }
}

impl Model for ShelfReader {
    ghost use Rattle.std.specs.Prelude.{IfSome, IsSome};
    ghost use Rattle.left_right.specs.Sides.{view as seen_at};
    ghost use Rattle.version_shelf.specs.Shelves.{ToldView, IsOfOneShelf};
    ghost use Rattle.std.specs.Coded.{codes};
    ghost use Rattle.graph_types.specs.Coded.{graph_code};

    ghost Value = { ToldView };

    ghost coded = { Prim.hlevel (codes, graph_code) };

    ghost view = { λ r. r.newest };

    ghost invariant = { λ r. IsSome (seen_at r.place.place)
        × IfSome (seen_at r.place.place) (λ seen. IsOfOneShelf seen r.newest) };
}

/// What is shown, where a shared copy of it is to be had, and the place afterwards.
fn glance(place: ReaderPlace) -> (ReaderPlace, Option<Told>)
    ensures seen { (before : ToldView) → view place.place ≡ Some before → (after : ToldView) × (view result.0.place ≡ Some after)
        × IsOfOneShelf before after × IfSome result.1 (λ told. IsOfOneShelf before told) }
{
    match place.enter_as::<Look>() {
        Ok(reading) => {
            let shown = reading.get().share().ok();
            (reading.leave(), shown)
        }
        Err(place) => (place, None),
    }
}

impl ShelfReader {
    ghost use Rattle.std.specs.Borrow.{sem};
    ghost use Rattle.version_shelf.specs.Lending.{Rests};

    /// Takes over what was told, where it is newer. Both are of one shelf.
    pub fn learn(&mut self, told: &Told) -> Result<(), AllocError>
        requires { IsOfOneShelf told.now self.old }
        ensures { MatchResult result (λ _. Begins self.old self.new × Begins told.now self.new) (λ _. self.new ≡ self.old) }
    {
        if self.newest.is_below(told) {
            self.newest = told.share()?;
        }
        Ok(())
    }

    /// Looks at the shelf, and keeps what it shows where that is newer.
    pub fn look(&mut self)
        ensures { Begins self.old self.new }
    {
        let shown = replace_with(
            &mut self.place,
            (),
            |place: ReaderPlace, _: ()| -> (ReaderPlace, Option<Told>)
                ensures { (before : ToldView) → view place.place ≡ Some before → (after : ToldView)
                    × (view result.0.place ≡ Some after) × IsOfOneShelf before after
                    × IfSome result.1 (λ told. IsOfOneShelf before told) }
            { glance(place) },
        );
        if let Some(told) = shown {
            if self.newest.is_below(&told) {
                self.newest = told;
            }
        }
    }

    /// The newest version that was entered or learnt.
    pub fn newest(&self) -> &Arc<Version>
        ensures { arc_value {X = Version} result.now ≡ self.now.version }
    {
        &self.newest.version
    }

    /// What is told of that version.
    pub fn told(&self) -> &Told
        ensures { result.now ≡ self.now }
    {
        &self.newest
    }

    /// The allocator of its shelf, for what a reader makes of a version.
    pub fn allocator(&self) -> Global {
        self.alloc
    }

    /// The version that the shelf shows, where it is newer than all that was seen, and else the newest that was seen.
    /// It takes no memory but one shared copy, and where that is refused it gives the version kept.
    pub fn enter(&mut self) -> &Arc<Version>
        ensures* rests { sem 𝓛 (Rests self.entry (λ after. Begins self.old after
            × (arc_value {X = Version} result.now ≡ after.version))) }
        ensures later { Continues self.old.version (arc_value {X = Version} result.now) }
    {
        self.look();
        self.newest()
    }
}
