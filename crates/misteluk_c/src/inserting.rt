//! Insertions in columns.

ghost use Rattle.std.specs.Prelude.{◌≡◌, Some, None};
ghost use Rattle.desk_columns.specs.Feeding.{columns_of};
ghost use Rattle.misteluk_c.specs.Held.{Asks};
ghost use Rattle.misteluk_c.specs.Desks.{held_desk, identity_in};
ghost use Rattle.misteluk_c.specs.Columns.{TellsFeeding};
ghost use Rattle.misteluk_c.specs.Columns as columns;

use crate::codes::{BAD_LENGTH, MEMORY, NO_HANDLE, OK, insert_code};
use crate::desks::apply_code;
use desk_columns::{InsertColumnsError, Insertions, insert_columns};
use desk_counts::Counts;
use std::alloc::Global;
use store_handles::{Handle, Held};

/// Applies insertions of one kind in batches.
#[unsafe(no_mangle)]
pub extern "C" fn misteluk_desk_insert_columns(
    alloc: Global,
    desk: &mut Handle,
    kind: &[u8],
    text: &[u8],
    ends: &[u64],
    sources: &[u32],
    targets: &[u32],
    weights: &[i64],
    times: &[u64],
    counts: &mut Counts,
    done: &mut u64,
) -> u32
    ensures told { Asks (held_desk desk.old.held) result (λ o. TellsFeeding (record {
      kind = kind.now;
      text = text.now;
      ends = ends.now;
      sources = sources.now;
      targets = targets.now;
      weights = weights.now;
      times = times.now;
    }) o desk.new.held result counts.new done.new) }
    ensures identity { identity_in desk.new.held ≡ identity_in desk.old.held }
    ensures none { held_desk desk.old.held ≡ None
        → (desk.new.held ≡ desk.old.held) × (counts.new ≡ counts.old) × (done.new ≡ done.old) }
{
    let insertions = Insertions {
        kind,
        text,
        ends,
        sources,
        targets,
        weights,
        times,
    };
    let Some(mut held) = desk.take(alloc) else {
        return NO_HANDLE;
    };
    let code = insert_by(alloc, &mut held, &insertions, counts, done);
    desk.put(held);
    code
}

fn insert_by(
    alloc: Global,
    held: &mut Held,
    insertions: &Insertions<'_>,
    counts: &mut Counts,
    done: &mut u64,
) -> u32
    ensures told { Asks (held_desk (Some held.old)) result
        (λ o. TellsFeeding (columns_of insertions.now) o (Some held.new) result counts.new done.new) }
    ensures identity { identity_in (Some held.new) ≡ identity_in (Some held.old) }
    ensures none { held_desk (Some held.old) ≡ None
        → (held.new ≡ held.old) × (counts.new ≡ counts.old) × (done.new ≡ done.old) }
{
    let Held::Desk { desk, .. } = held else {
        return NO_HANDLE;
    };
    insert_columns_code(insert_columns(alloc, desk, insertions, counts, done))
}

/// What insertions in columns are told by.
fn insert_columns_code(answer: Result<(), InsertColumnsError>) -> u32
    ensures { result ≡ columns.insert_columns_code answer }
{
    match answer {
        Ok(()) => OK,
        Err(InsertColumnsError::BadLength) => BAD_LENGTH,
        Err(InsertColumnsError::BadInsertion(error)) => insert_code(error),
        Err(InsertColumnsError::Refused(error)) => apply_code(error),
        Err(InsertColumnsError::OutOfMemory) => MEMORY,
    }
}
