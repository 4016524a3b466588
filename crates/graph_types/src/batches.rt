//! Operations on edges, and batches of them.

ghost use Rattle.std.specs.Prelude.{◌≡◌, ◌<◌, ◌≤◌, [], ◌∷◌, ◌++◌, length, take, IfOk, OnOk, OnErr, IfErr, ◌⊎◌, ◌↔◌, ◌&&◌, IsTrue};
ghost use Rattle.graph_types.specs.declared.batches.PushError.TheVariants.{OutOfMemory};
ghost use Rattle.graph_types.specs.Limits.{most_operations, operation_limit};
ghost use Rattle.graph_types.specs.Valid.{push_refusal, push_refusal_within, IsBatch, IsValid};
ghost use Rattle.graph_types.specs.Valid as valid;
ghost use Rattle.graph_types.specs.Limits as limits;
ghost use Rattle.graph_types.specs.Step as step;
ghost use Rattle.std.specs.List.{list_any};
ghost use Rattle.std.specs.declared.option.Option.TheVariants.{None, Some};

use crate::{EdgeChange, MOST_WEIGHT, Name, OpParts, is_kind_name, is_name, parts_in};
use std::alloc::{AllocError, Global};
use std::marker::Model;
use thiserror::Error;

/// How many operations [`Batch::push`] lets a batch have.
pub const OPERATION_LIMIT: usize = 4096;

/// How many operations a batch has at the most, whoever fills it.
pub const MOST_OPERATIONS: usize = 1 << 20;

/// One operation on one edge, with names as texts (STINGER's insertion, increment and removal, HPEC 2012), or on all
/// edges that were last touched before a time.
#[derive(Debug, PartialEq, Eq)]
pub enum NamedOp {
    /// Adds the edge, or replaces the weight of the one that is there.
    Insert {
        kind: Name,
        source: Name,
        target: Name,
        weight: i64,
        time: u64,
    },
    /// Adds to the weight of the edge that is there, or adds the edge with this weight.
    Incr {
        kind: Name,
        source: Name,
        target: Name,
        amount: i64,
        time: u64,
    },
    /// Takes the edge away.
    Remove {
        kind: Name,
        source: Name,
        target: Name,
    },
    /// Takes away every edge whose recent time is less than this time.
    Expire {
        time: u64,
    },
}

// Written by hand: who lets one go rests on this function, and not on how each part is let go.
impl Drop for NamedOp {
    fn drop(self) {
        match self {
            NamedOp::Insert {
                kind: _kind,
                source: _source,
                target: _target,
                weight: _weight,
                time: _time,
            } => {}
            NamedOp::Incr {
                kind: _kind,
                source: _source,
                target: _target,
                amount: _amount,
                time: _time,
            } => {}
            NamedOp::Remove {
                kind: _kind,
                source: _source,
                target: _target,
            } => {}
            NamedOp::Expire { time: _time } => {}
        }
    }
}

impl Clone for NamedOp {
    ghost is_clone = { λ op copy. copy ≡ op };

    fn clone(&self) -> Result<NamedOp, AllocError> {
        match self {
            NamedOp::Insert {
                kind,
                source,
                target,
                weight,
                time,
            } => Ok(NamedOp::Insert {
                kind: kind.clone()?,
                source: source.clone()?,
                target: target.clone()?,
                weight: *weight,
                time: *time,
            }),
            NamedOp::Incr {
                kind,
                source,
                target,
                amount,
                time,
            } => Ok(NamedOp::Incr {
                kind: kind.clone()?,
                source: source.clone()?,
                target: target.clone()?,
                amount: *amount,
                time: *time,
            }),
            NamedOp::Remove {
                kind,
                source,
                target,
            } => Ok(NamedOp::Remove {
                kind: kind.clone()?,
                source: source.clone()?,
                target: target.clone()?,
            }),
            NamedOp::Expire { time } => Ok(NamedOp::Expire { time: *time }),
        }
    }
}

/// What an operation did.
#[derive(Clone, Copy, Debug, PartialEq, Eq)]
pub enum Outcome {
    /// The edge was absent and is there now.
    Inserted,
    /// The edge was there; its weight and its recent time changed.
    Updated,
    /// The edge was there and is gone.
    Removed,
    /// There was no edge to remove.
    Absent,
    /// The weight, the amount or the sum is past the limit of weights: nothing changed but that the names are there.
    Overflow,
    /// As many edges were last touched before a time, and are gone.
    Expired(u64),
}

/// Why an operation was not added to a batch; the first that holds, in this order.
#[derive(Clone, Copy, Debug, PartialEq, Eq, Error)]
pub enum PushError {
    #[error("a name has 1 to 64 bytes from ! to ~, and a kind is not *")]
    BadName,
    #[error("a weight is from -2^40 to 2^40")]
    BadWeight,
    #[error("a time is below 2^63")]
    BadTime,
    #[error("the batch has as many operations as it may have")]
    BatchFull,
    #[error("out of memory")]
    OutOfMemory,
}

impl From<AllocError> for PushError {
    ghost from_gives = { λ _ e. e ≡ OutOfMemory };

    fn from(_error: AllocError) -> PushError {
        PushError::OutOfMemory
    }
}

/// A list of valid operations, which stand for themselves one after another in order. `push` lets it have 4,096 of them, and
/// `push_within` a limit of its caller's, at most 2^20.
///
/// ```
/// let mut batch = Batch::new(alloc);
/// batch.push(NamedOp::insert(alloc, "knows", "ann", "bob", 1, 1)?)?;
/// batch.push_within(NamedOp::expire(7), 65_536)?;
/// ```
#[derive(Debug)]
pub struct Batch {
    ops: Vec<NamedOp>,
}

// Written by hand: who lets one go rests on this function, and not on how each part is let go.
impl Drop for Batch {
    fn drop(self) {
        let Batch { ops: _ops } = self;
    }
}

impl Model for Batch {
    ghost use Rattle.std.specs.Prelude.{List};
    ghost use Rattle.graph_types.specs.declared.batches.NamedOp.{NamedOp};
    ghost use Rattle.graph_types.specs.Valid.{IsBatch};

    ghost Value = { List NamedOp };

    ghost view = { λ b. b.ops.items };

    ghost invariant = { λ b. IsBatch b.ops.items };
}

impl Batch {
    /// An empty batch, which will grow by this allocator. It takes no memory.
    pub fn new(alloc: Global) -> Batch
        ensures { result ≡ [] }
    {
        Batch {
            ops: Vec::new(alloc),
        }
    }

    /// An empty batch with room for so many operations, at most 2^20, where there is memory for it, and else without. One that
    /// grows to that length without room asks for memory once for each doubling, and moves its operations as often.
    pub fn with_room(alloc: Global, count: usize) -> Batch
        ensures { result ≡ [] }
    {
        match Vec::with_capacity(alloc, count.min(MOST_OPERATIONS)) {
            Ok(ops) => Batch { ops },
            Err(_) => Batch::new(alloc),
        }
    }

    /// How many operations there are: at most 2^20. It takes no memory.
    pub fn len(&self) -> usize
        ensures count { result ≡ length self.now }
        ensures batch { IsBatch self.now }
    {
        self.ops.len()
    }

    /// Whether there is no operation. It takes no memory.
    pub fn is_empty(&self) -> bool
        ensures { IsTrue result ↔ (self.now ≡ []) }
    {
        self.ops.is_empty()
    }

    /// The operations in order: at most 2^20, all valid. It takes no memory.
    pub fn ops(&self) -> &[NamedOp]
        ensures ops { result.now ≡ self.now }
        ensures batch { IsBatch self.now }
    {
        self.ops.as_slice()
    }

    /// Whether an operation is among them that expires edges. It takes no memory.
    pub fn has_expire(&self) -> bool
        ensures { result ≡ list_any step.is_expire self.now }
    {
        self.ops.iter().any(is_expire)
    }

    /// Appends a valid operation, or changes nothing and tells the first refusal that holds: a field that is no
    /// name, a weight or an amount past 2^40, a time from 2^63 on, a batch that has 4,096 operations. Out of memory may be reported
    /// in place of any of these.
    pub fn push(&mut self, op: NamedOp) -> Result<(), PushError>
        ensures valid { OnOk result (push_refusal op (length self.old) ≡ None) }
        ensures added { OnOk result (self.new ≡ self.old ++ op ∷ []) }
        ensures refused { IfErr result (λ e. (e ≡ PushError.OutOfMemory) ⊎ (push_refusal op (length self.old) ≡ Some e)) }
        ensures unchanged { OnErr result (self.new ≡ self.old) }
    {
        self.push_within(op, OPERATION_LIMIT)
    }

    /// As `push`, of a batch that may have so many operations.
    pub fn push_within(&mut self, op: NamedOp, limit: usize) -> Result<(), PushError>
        requires { limit ≤ most_operations }
        ensures valid { OnOk result (push_refusal_within limit op (length self.old) ≡ None) }
        ensures added { OnOk result (self.new ≡ self.old ++ op ∷ []) }
        ensures refused { IfErr result (λ e. (e ≡ PushError.OutOfMemory)
            ⊎ (push_refusal_within limit op (length self.old) ≡ Some e)) }
        ensures unchanged { OnErr result (self.new ≡ self.old) }
    {
        if !has_names(&op) {
            return Err(PushError::BadName);
        }
        if !has_weight(&op) {
            return Err(PushError::BadWeight);
        }
        if !has_time(&op) {
            return Err(PushError::BadTime);
        }
        self.push_valid_within(op, limit)
    }

    /// Appends an operation that is known to be valid, and isn't judged again; or changes nothing and tells that the batch has
    /// 4,096 operations. Out of memory may be reported in place of that.
    pub fn push_valid(&mut self, op: NamedOp) -> Result<(), PushError>
        requires { IsValid op }
        ensures room { OnOk result (length self.old < operation_limit) }
        ensures added { OnOk result (self.new ≡ self.old ++ op ∷ []) }
        ensures refused { IfErr result (λ e. (e ≡ PushError.OutOfMemory)
            ⊎ ((e ≡ PushError.BatchFull) × (operation_limit ≤ length self.old))) }
        ensures unchanged { OnErr result (self.new ≡ self.old) }
    {
        self.push_valid_within(op, OPERATION_LIMIT)
    }

    /// As `push_valid`, of a batch that may have so many operations.
    pub fn push_valid_within(&mut self, op: NamedOp, limit: usize) -> Result<(), PushError>
        requires valid { IsValid op }
        requires limit { limit ≤ most_operations }
        ensures room { OnOk result (length self.old < limit) }
        ensures added { OnOk result (self.new ≡ self.old ++ op ∷ []) }
        ensures refused { IfErr result (λ e. (e ≡ PushError.OutOfMemory)
            ⊎ ((e ≡ PushError.BatchFull) × (limit ≤ length self.old))) }
        ensures unchanged { OnErr result (self.new ≡ self.old) }
    {
        if self.ops.len() >= limit {
            return Err(PushError::BatchFull);
        }
        match self.ops.push(op) {
            Ok(()) => Ok(()),
            Err(_) => Err(PushError::OutOfMemory),
        }
    }

    /// Has the first operations alone, so many; where there are no more than that, all stay. It takes no memory.
    ///
    /// ```
    /// batch.truncate(1);
    /// ```
    pub fn truncate(&mut self, count: usize)
        ensures { self.new ≡ take count self.old }
    {
        self.ops.truncate(count);
    }
}

impl Clone for Batch {
    ghost is_clone = { λ batch copy. copy ≡ batch };

    #[tactic(auto, using(crate::proofs::Copies::same_by_zip))]
    fn clone(&self) -> Result<Batch, AllocError> {
        let ops = self.ops.clone()?;
        Ok(Batch { ops })
    }
}

/// Whether an operation expires edges.
fn is_expire(op: &NamedOp) -> bool
    ensures { result ≡ step.is_expire op.now }
{
    matches!(op, NamedOp::Expire { .. })
}

/// Whether these are the names of an edge's kind and of its two ends.
fn are_names(kind: &Name, source: &Name, target: &Name) -> bool
    ensures { result ≡ valid.are_names kind.now source.now target.now }
{
    is_kind_name(kind.as_str()) && is_name(source.as_str()) && is_name(target.as_str())
}

/// Whether the operation speaks of an edge by names.
fn has_names(op: &NamedOp) -> bool
    ensures { result ≡ valid.has_names op.now }
{
    match parts_in(op, MOST_WEIGHT) {
        OpParts::OfEdge(_, kind, source, target) => are_names(kind, source, target),
        OpParts::OfAll(_) => true,
    }
}

/// Whether its weight or its amount is in range, if it has one.
fn has_weight(op: &NamedOp) -> bool
    ensures { result ≡ valid.has_weight op.now }
{
    match parts_in(op, MOST_WEIGHT) {
        OpParts::OfEdge(change, _, _, _) => has_weight_at(change),
        OpParts::OfAll(_) => true,
    }
}

/// Whether a change's weight or amount is in range, if it has one.
fn has_weight_at(change: EdgeChange) -> bool
    ensures { result ≡ valid.has_weight_at change }
{
    match change {
        EdgeChange::Insert { weight, .. } => is_weight(weight),
        EdgeChange::Incr { amount, .. } => is_weight(amount),
        EdgeChange::Remove => true,
    }
}

/// Whether its time is in range, if it has one.
fn has_time(op: &NamedOp) -> bool
    ensures { result ≡ valid.has_time op.now }
{
    match parts_in(op, MOST_WEIGHT) {
        OpParts::OfEdge(change, _, _, _) => has_time_at(change),
        OpParts::OfAll(time) => is_time(time),
    }
}

/// Whether a change's time is in range, if it has one.
fn has_time_at(change: EdgeChange) -> bool
    ensures { result ≡ valid.has_time_at change }
{
    match change {
        EdgeChange::Insert { time, .. } => is_time(time),
        EdgeChange::Incr { time, .. } => is_time(time),
        EdgeChange::Remove => true,
    }
}

/// Whether a weight is from -2^40 to 2^40.
fn is_weight(weight: i64) -> bool
    ensures { result ≡ limits.is_weight weight }
{
    weight.unsigned_abs() <= 1 << 40
}

/// Whether a time is below 2^63.
fn is_time(time: u64) -> bool
    ensures { result ≡ limits.is_time time }
{
    time < 1 << 63
}
