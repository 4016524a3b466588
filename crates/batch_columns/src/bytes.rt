//! Operations of bytes.

ghost use Rattle.std.specs.Prelude.{◌≡◌, ◌≤◌, ◌⊎◌, true, false, IfOk, IfErr, OnOk, OnErr};
ghost use Rattle.graph_types.specs.Limits.{is_time, is_weight, most_operations};
ghost use Rattle.graph_types.specs.Valid.{is_kind_name, is_name};
ghost use Rattle.graph_types.specs.declared.batches.NamedOp.TheVariants.{Insert, Incr, Remove, Expire};
ghost use Rattle.batch_columns.specs.Dictionaries.{IsPushed};

use graph_types::{Batch, MOST_WEIGHT, NamedOp, PushError, is_kind_name_bytes, is_name_bytes};
use std::alloc::Global;

/// A vertex's name as a text. Each byte is looked at once: a name is ASCII, and so text.
#[tactic(auto, using(graph_types::proofs::NameTexts::is_name_text))]
fn name_of(bytes: &[u8]) -> Result<&str, PushError>
    ensures text { IfOk result (λ text. text.now ≡ bytes.now) }
    ensures name { OnOk result (is_name bytes.now ≡ true) }
    ensures refused { OnErr result (is_name bytes.now ≡ false) }
    ensures error { IfErr result (λ e. e ≡ PushError.BadName) }
{
    if is_name_bytes(bytes) {
        Ok(unsafe { str::from_utf8_unchecked(bytes) })
    } else {
        Err(PushError::BadName)
    }
}

/// As `name_of`, of a kind's name.
#[tactic(auto, using(graph_types::proofs::NameTexts::is_kind_name_text))]
fn kind_of(bytes: &[u8]) -> Result<&str, PushError>
    ensures text { IfOk result (λ text. text.now ≡ bytes.now) }
    ensures kind { OnOk result (is_kind_name bytes.now ≡ true) }
    ensures refused { OnErr result (is_kind_name bytes.now ≡ false) }
    ensures error { IfErr result (λ e. e ≡ PushError.BadName) }
{
    if is_kind_name_bytes(bytes) {
        Ok(unsafe { str::from_utf8_unchecked(bytes) })
    } else {
        Err(PushError::BadName)
    }
}

/// Whether a weight and a time are in range, or the first refusal that holds.
fn in_range(weight: i64, time: u64) -> Result<(), PushError>
    ensures ok { OnOk result ((is_weight weight ≡ true) × (is_time time ≡ true)) }
    ensures refused { IfErr result (λ e. ((e ≡ PushError.BadWeight) × (is_weight weight ≡ false))
        ⊎ ((e ≡ PushError.BadTime) × (is_weight weight ≡ true) × (is_time time ≡ false))) }
{
    if weight.unsigned_abs() > MOST_WEIGHT {
        return Err(PushError::BadWeight);
    }
    if time >= 1 << 63 {
        return Err(PushError::BadTime);
    }
    Ok(())
}

/// Appends an insertion to a batch, which may have as many operations as the limit; or changes nothing and tells the first refusal
/// that holds: `BadName`, `BadWeight`, `BadTime`, `BatchFull`. Out of memory may be reported in place of any of these.
pub fn push_insert(
    alloc: Global,
    batch: &mut Batch,
    limit: usize,
    kind: &[u8],
    source: &[u8],
    target: &[u8],
    weight: i64,
    time: u64,
) -> Result<(), PushError>
    requires { limit ≤ most_operations }
    ensures { IsPushed limit (Insert kind.now source.now target.now weight time) batch.old batch.new result }
{
    let (kind, source, target) = (kind_of(kind)?, name_of(source)?, name_of(target)?);
    in_range(weight, time)?;
    batch.push_valid_within(
        NamedOp::insert(alloc, kind, source, target, weight, time)?,
        limit,
    )
}

/// As [`push_insert`], of an addition to the weight.
pub fn push_add(
    alloc: Global,
    batch: &mut Batch,
    limit: usize,
    kind: &[u8],
    source: &[u8],
    target: &[u8],
    amount: i64,
    time: u64,
) -> Result<(), PushError>
    requires { limit ≤ most_operations }
    ensures { IsPushed limit (Incr kind.now source.now target.now amount time) batch.old batch.new result }
{
    let (kind, source, target) = (kind_of(kind)?, name_of(source)?, name_of(target)?);
    in_range(amount, time)?;
    batch.push_valid_within(
        NamedOp::incr(alloc, kind, source, target, amount, time)?,
        limit,
    )
}

/// As [`push_insert`], of a removal.
pub fn push_remove(
    alloc: Global,
    batch: &mut Batch,
    limit: usize,
    kind: &[u8],
    source: &[u8],
    target: &[u8],
) -> Result<(), PushError>
    requires { limit ≤ most_operations }
    ensures { IsPushed limit (Remove kind.now source.now target.now) batch.old batch.new result }
{
    let (kind, source, target) = (kind_of(kind)?, name_of(source)?, name_of(target)?);
    batch.push_valid_within(NamedOp::remove(alloc, kind, source, target)?, limit)
}

/// As [`push_insert`], of an expiry.
pub fn push_expire(batch: &mut Batch, limit: usize, time: u64) -> Result<(), PushError>
    requires { limit ≤ most_operations }
    ensures { IsPushed limit (Expire time) batch.old batch.new result }
{
    batch.push_within(NamedOp::expire(time), limit)
}
