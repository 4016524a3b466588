//! The writer of the shelf, and its opening.

ghost use Rattle.std.specs.Prelude.{◌≡◌, ◌<◌, ◌≤◌, ◌^◌, ◌++◌, ◌∷◌, [], length, IfOk, MatchBool, MatchResult, All, vec_len, Some};
ghost use Rattle.std.specs.Arc.{arc_value};
ghost use Rattle.left_right.specs.Sides.{view};
ghost use Rattle.graph_version.specs.declared.versions.Version.{Version};
ghost use mathlib.Core.List.{IsPrefix};
ghost use Rattle.version_shelf.specs.Shelves.{ToldView, Begins, IsNext, opened_shelf};

use crate::history::{History, HistoryEnd};
use crate::readers::ShelfReader;
use crate::rules::{Look, Notes, WriterPlace};
use crate::told::Told;
use core::mem::replace_with;
use graph_types::Batch;
use graph_version::Version;
use left_right::writer::Writer;
use std::alloc::{AllocError, Global};
use std::marker::Model;
use std::mem::ManuallyDrop;
use std::sync::{Arc, Wait};
use thiserror::Error;

/// Why a shelf wasn't opened.
#[derive(Clone, Copy, Debug, PartialEq, Eq, Error)]
pub enum ShelfError {
    #[error("no reader's place was to be had")]
    NoReader,
    #[error("out of memory")]
    OutOfMemory,
}

impl From<AllocError> for ShelfError {
    ghost use Rattle.std.specs.Prelude.{◌≡◌};
    ghost use Rattle.version_shelf.specs.declared.writers.ShelfError.TheVariants.{OutOfMemory};

    ghost from_gives = { λ _ e. e ≡ OutOfMemory };

    fn from(_error: AllocError) -> ShelfError {
        ShelfError::OutOfMemory
    }
}

/// The writer of a shelf. Contracts see it as the posted batches, and those of the version that readers find.
pub struct ShelfWriter {
    place: WriterPlace,
    end: HistoryEnd,
    history: History,
}

impl Model for ShelfWriter {
    ghost use Rattle.std.specs.Prelude.{◌≡◌, Some};
    ghost use Rattle.version_shelf.specs.Shelves.{ShelfView};
    ghost use Rattle.left_right.specs.Sides.{view as seen_at};
    ghost use Rattle.version_shelf.specs.Histories.{IsEnd};
    ghost use Rattle.version_shelf.specs.Shelves.{shelf_of, IsShowing};
    ghost use Rattle.std.specs.Coded.{codes};
    ghost use Rattle.graph_types.specs.Coded.{graph_code};

    ghost Value = { ShelfView };

    ghost coded = { Prim.hlevel (codes, graph_code) };

    ghost view = { λ w. shelf_of w.history w.place.desk.shown.value };

    ghost invariant = { λ w. IsEnd w.end.word w.end.pen.book w.end.pen.nib w.history
        × IsShowing w.history w.place.desk.shown.value × (seen_at w.place.desk.place ≡ Some w.place.desk.shown.value) };
}

impl Drop for ShelfWriter {
    /// What the shelf shows stays for its readers, and its memory is never given back: `close` gives it back.
    fn drop(self) {
        let ShelfWriter {
            place,
            end: _end,
            history: _history,
        } = self;
        let _left = unsafe { ManuallyDrop::new_unchecked(place) };
    }
}

/// A shelf that shows a version without batches, and its readers, 1 to 16. It waits for nobody.
pub fn shelf<R: Wait>(
    rt: &R,
    alloc: Global,
    opening: Arc<Version>,
    readers: usize,
) -> Result<(ShelfWriter, Vec<ShelfReader>), ShelfError>
    requires opening { (arc_value {X = Version} opening).batches ≡ [] }
    requires readers { (0 < readers) × (readers ≤ 16) }
    ensures writer { IfOk result (λ r. r.0 ≡ opened_shelf r.0.book (arc_value {X = Version} opening)) }
    ensures count { IfOk result (λ r. vec_len r.1 ≡ readers) }
    ensures readers { IfOk result (λ r.
        All (λ (x : ToldView). x ≡ record { book = r.0.book; version = arc_value {X = Version} opening }) r.1.items) }
{
    let Some((end, history)) = History::open() else {
        return Err(ShelfError::NoReader);
    };
    let told = Told {
        version: opening,
        history: history.share(),
    };
    let place = opened(rt, alloc, &told, readers)?;
    let mut writer = ShelfWriter {
        place,
        end,
        history,
    };
    let places = readers_of(&mut writer, alloc, &told, readers)?;
    Ok((writer, places))
}

/// So many readers, each of which has learnt what was told.
fn readers_of(
    writer: &mut ShelfWriter,
    alloc: Global,
    told: &Told,
    readers: usize,
) -> Result<Vec<ShelfReader>, ShelfError>
    requires book { told.now.book ≡ writer.old.book }
    requires opening { told.now.version.opening ≡ writer.old.opening }
    ensures count { IfOk result (λ v. vec_len v ≡ readers) }
    ensures readers { IfOk result (λ v. All (λ (x : ToldView). x ≡ told.now) v.items) }
    ensures writer { writer.new ≡ writer.old }
{
    let mut places = Vec::new(alloc);
    for _ in 0..readers {
        writer.add_reader(alloc, told, &mut places)?;
    }
    Ok(places)
}

/// A writer's place that has seen what it shows.
fn opened<R: Wait>(
    rt: &R,
    alloc: Global,
    told: &Told,
    readers: usize,
) -> Result<WriterPlace, ShelfError>
    requires { (0 < readers) × (readers ≤ 16) }
    ensures { IfOk result (λ w. (w.desk.shown.value ≡ told.now) × (view w.desk.place ≡ Some w.desk.shown.value)) }
{
    let first = told.share()?;
    let spare = told.share()?;
    let second = told.share()?;
    let mut place = Writer::new(alloc, first, spare, readers)?;
    show(rt, &mut place, second);
    Ok(place)
}

/// Shows readers what was told. It takes no memory: the copy that no reader has is set, and shown in place of the other.
fn show<R: Wait>(rt: &R, place: &mut WriterPlace, told: Told)
    requires newer { Begins place.old.desk.shown.value told }
    ensures shown { place.new.desk.shown.value ≡ told }
    ensures view { view place.new.desk.place ≡ Some told }
{
    replace_with(
        &mut place.desk,
        (rt, told),
        |desk, (rt, told)|
            requires { Begins desk.shown.value told }
            ensures { (result.0.shown.value ≡ told) × (view result.0.place ≡ Some told) }
        {
            let (open, mut spare) = desk.open(rt);
            *spare = told;
            (open.show_as::<Look>(spare), ())
        },
    )
}

/// Shows readers what was told in both copies, one after the other: then neither has what was told before.
fn show_twice<R: Wait>(rt: &R, place: &mut WriterPlace, told: Told, again: Told)
    requires newer { Begins place.old.desk.shown.value told }
    requires same { again ≡ told }
    ensures shown { place.new.desk.shown.value ≡ told }
    ensures view { view place.new.desk.place ≡ Some told }
{
    show(rt, place, told);
    show(rt, place, again);
}

impl ShelfWriter {
    /// Posts the next version and shows it: one publication. The shelf then has no older one. What is refused is posted nowhere and never shown.
    pub fn post<R: Wait>(&mut self, rt: &R, version: Arc<Version>) -> Result<Told, AllocError>
        requires next { IsNext self.old (arc_value {X = Version} version) }
        ensures posted { MatchResult result
            (λ told. (self.new.posted ≡ (arc_value {X = Version} version).batches)
            × (self.new.shown ≡ (arc_value {X = Version} version).batches)
            × (told ≡ record { book = self.old.book; version = arc_value {X = Version} version }))
            (λ _. self.new ≡ self.old) }
        ensures same { (self.new.book ≡ self.old.book) × (self.new.opening ≡ self.old.opening) }
    {
        let copy = Arc::try_clone(&version)?;
        let other = Arc::try_clone(&version)?;
        let Some(batch) = version.last_batch() else {
            unreachable!()
        };
        if !self.enter_batch(batch) {
            return Err(AllocError);
        }
        let shown = Told {
            version: copy,
            history: self.history.share(),
        };
        let again = Told {
            version: other,
            history: self.history.share(),
        };
        show_twice(rt, &mut self.place, shown, again);
        Ok(Told {
            version,
            history: self.history.share(),
        })
    }

    /// Enters a batch in the history, and says whether it did. Readers find it once it is shown.
    fn enter_batch(&mut self, batch: &Batch) -> bool
        requires room { length self.old.posted < 2 ^ 62 }
        ensures posted { MatchBool result (self.new.posted ≡ self.old.posted ++ batch.now ∷ []) (self.new.posted ≡ self.old.posted) }
        ensures same { self.new ≡ (record self.old { posted = self.new.posted }) }
    {
        self.history.push(&mut self.end, batch)
    }

    /// What was told of a version of this shelf, by a post or by what a reader entered, is a beginning of the posted list. It
    /// changes nothing, takes no memory and waits for nobody.
    ///
    /// So no reader sees a batch that wasn't posted, or sees batches in another order.
    pub fn confirm(&mut self, told: &Told)
        requires { told.now.book ≡ self.old.book }
        ensures published { IsPrefix told.now.version.batches self.old.posted }
        ensures same { self.new ≡ self.old }
    {
        self.history.confirm(&mut self.end, &told.history);
    }

    /// Ends the shelf: what it showed last comes back, and all else that it kept is given back. Its readers keep what they have
    /// seen, and find nothing newer. It waits for those that are looking.
    pub fn close<R: Wait>(self, rt: &R) -> Told
        ensures book { result.book ≡ self.book }
        ensures opening { result.version.opening ≡ self.opening }
        ensures shown { result.version.batches ≡ self.shown }
    {
        let ShelfWriter {
            place,
            end: _end,
            history: _history,
        } = self;
        Box::into_inner(place.take(rt))
    }

    /// One reader more, which has learnt what was told.
    fn add_reader(
        &mut self,
        alloc: Global,
        told: &Told,
        readers: &mut Vec<ShelfReader>,
    ) -> Result<(), ShelfError>
        requires book { told.now.book ≡ self.old.book }
        requires opening { told.now.version.opening ≡ self.old.opening }
        ensures readers { IfOk result (λ _. readers.new.items ≡ readers.old.items ++ told.now ∷ []) }
        ensures writer { self.new ≡ self.old }
    {
        let mut place = self
            .place
            .factory()
            .reader()
            .map_err(|_| ShelfError::NoReader)?;
        place.learn::<Notes>(self.place.tell::<Notes>());
        let newest = told.share()?;
        readers
            .push(ShelfReader {
                alloc,
                place,
                newest,
            })
            .map_err(|_| ShelfError::OutOfMemory)
    }
}
