//! Operations in columns.

ghost use Rattle.std.specs.Prelude.{◌≡◌, ◌≤◌, ◌↔◌, Some, None, IsTrue};
ghost use Rattle.graph_types.specs.Limits.{most_operations};
ghost use Rattle.batch_columns.specs.Operations.{table_of};
ghost use Rattle.misteluk_c.specs.Held.{batch_in, Asks};
ghost use Rattle.misteluk_c.specs.Columns.{TellsColumns, TellsGiven, given_table, IsOperationLimit};

use crate::batches::unshare;
use crate::codes::{BAD_LIMITS, BAD_SIZE, MEMORY, NO_HANDLE, OK, operations_code};
use batch_columns::{Operations, append_operations};
use graph_types::MOST_OPERATIONS;
use std::alloc::Global;
use store_handles::{Handle, Held};

/// Operations in columns, and the two dictionaries that their numbers are of.
#[derive(Clone, Copy)]
#[repr(C)]
pub struct OperationColumns<'a> {
    /// How many bytes the struct has for who gives it: what lies past them is none of it.
    pub size: usize,
    pub kind_text: &'a [u8],
    pub kind_ends: &'a [u64],
    pub text: &'a [u8],
    pub ends: &'a [u64],
    pub operations: &'a [u8],
    pub kinds: &'a [u32],
    pub sources: &'a [u32],
    pub targets: &'a [u32],
    pub weights: &'a [i64],
    pub times: &'a [u64],
}

/// How large that struct is.
pub(crate) const COLUMNS_SIZE: usize = 168;

/// Appends operations in columns to a batch that may have so many.
#[unsafe(no_mangle)]
pub extern "C" fn misteluk_batch_columns(
    alloc: Global,
    batch: &mut Handle,
    columns: &OperationColumns<'_>,
    limit: u32,
    done: &mut u64,
) -> u32
    ensures told { TellsGiven columns.now limit done.old batch.old.held done.new batch.new.held result }
    ensures memory { result ≡ 1 → done.new ≡ done.old }
    ensures none { batch_in batch.old.held ≡ None → (batch.new.held ≡ batch.old.held) × (done.new ≡ done.old) }
{
    if columns.size != COLUMNS_SIZE {
        return BAD_SIZE;
    }
    if !is_operation_limit(limit) {
        return BAD_LIMITS;
    }
    append_by(alloc, batch, limit as usize, &operations_in(columns), done)
}

/// The columns of C's struct.
pub(crate) fn operations_in<'a>(columns: &OperationColumns<'a>) -> Operations<'a>
    ensures { table_of result ≡ given_table columns.now }
{
    Operations {
        kind_text: columns.kind_text,
        kind_ends: columns.kind_ends,
        text: columns.text,
        ends: columns.ends,
        sorts: columns.operations,
        kinds: columns.kinds,
        sources: columns.sources,
        targets: columns.targets,
        weights: columns.weights,
        times: columns.times,
    }
}

/// Whether a batch may have so many operations.
fn is_operation_limit(limit: u32) -> bool
    ensures { IsTrue result ↔ IsOperationLimit limit }
{
    limit >= 1 && limit as usize <= MOST_OPERATIONS
}

/// Appends to the batch that a handle holds, if it holds one.
fn append_by(
    alloc: Global,
    batch: &mut Handle,
    limit: usize,
    operations: &Operations<'_>,
    done: &mut u64,
) -> u32
    requires { limit ≤ most_operations }
    ensures told { Asks (batch_in batch.old.held) result
        (λ ops. TellsColumns limit (table_of operations.now) done.old ops done.new batch.new.held result) }
    ensures memory { result ≡ 1 → done.new ≡ done.old }
    ensures none { batch_in batch.old.held ≡ None → (batch.new.held ≡ batch.old.held) × (done.new ≡ done.old) }
{
    let Some(mut held) = batch.take(alloc) else {
        return NO_HANDLE;
    };
    let code = append_in(alloc, &mut held, limit, operations, done);
    batch.put(held);
    code
}

/// Appends to a batch that is held; to one's own copy, where it is shared.
#[tactic(auto, using(crate::proofs::Memory::columns_not_unshared, crate::proofs::Memory::memory_moves_none))]
fn append_in(
    alloc: Global,
    held: &mut Held,
    limit: usize,
    operations: &Operations<'_>,
    done: &mut u64,
) -> u32
    requires { limit ≤ most_operations }
    ensures told { Asks (batch_in (Some held.old)) result
        (λ ops. TellsColumns limit (table_of operations.now) done.old ops done.new (Some held.new) result) }
    ensures memory { result ≡ 1 → done.new ≡ done.old }
    ensures none { batch_in (Some held.old) ≡ None → (held.new ≡ held.old) × (done.new ≡ done.old) }
{
    let Ok(()) = unshare(held) else {
        return MEMORY;
    };
    let Held::Batch(batch) = held else {
        return NO_HANDLE;
    };
    match append_operations(alloc, batch, limit, operations, done) {
        Ok(()) => OK,
        Err(error) => operations_code(error),
    }
}
