//! Operations made of texts.

ghost use Rattle.std.specs.Prelude.{◌≡◌, IfOk};

use crate::{Name, NamedOp};
use std::alloc::{AllocError, Global};

impl NamedOp {
    /// Adds the edge, or replaces the weight of the one that is there. Any texts and numbers are taken; a batch refuses those
    /// that aren't valid when the operation is pushed: `BadName`, `BadWeight`, `BadTime`.
    ///
    /// ```
    /// batch.push(NamedOp::insert(alloc, "road", "ulm", "kiel", 12, 1)?)?;
    /// ```
    pub fn insert(
        alloc: Global,
        kind: &str,
        source: &str,
        target: &str,
        weight: i64,
        time: u64,
    ) -> Result<NamedOp, AllocError>
        ensures { IfOk result (λ op. op ≡ NamedOp.Insert kind.now source.now target.now weight time) }
    {
        Ok(NamedOp::Insert {
            kind: Name::from_str(alloc, kind)?,
            source: Name::from_str(alloc, source)?,
            target: Name::from_str(alloc, target)?,
            weight,
            time,
        })
    }

    /// Adds to the weight of the edge that is there, or adds the edge with this weight. Any texts and numbers are taken; a batch
    /// refuses those that aren't valid when the operation is pushed: `BadName`, `BadWeight`, `BadTime`.
    ///
    /// ```
    /// batch.push(NamedOp::incr(alloc, "road", "ulm", "kiel", -2, 2)?)?;
    /// ```
    pub fn incr(
        alloc: Global,
        kind: &str,
        source: &str,
        target: &str,
        amount: i64,
        time: u64,
    ) -> Result<NamedOp, AllocError>
        ensures { IfOk result (λ op. op ≡ NamedOp.Incr kind.now source.now target.now amount time) }
    {
        Ok(NamedOp::Incr {
            kind: Name::from_str(alloc, kind)?,
            source: Name::from_str(alloc, source)?,
            target: Name::from_str(alloc, target)?,
            amount,
            time,
        })
    }

    /// Another name for [`NamedOp::incr`], as scripts and other languages call this operation.
    ///
    /// ```
    /// batch.push(NamedOp::add(alloc, "transfer", "ana", "ben", 980, 5)?)?;
    /// ```
    pub fn add(
        alloc: Global,
        kind: &str,
        source: &str,
        target: &str,
        amount: i64,
        time: u64,
    ) -> Result<NamedOp, AllocError>
        ensures { IfOk result (λ op. op ≡ NamedOp.Incr kind.now source.now target.now amount time) }
    {
        NamedOp::incr(alloc, kind, source, target, amount, time)
    }

    /// Takes the edge away. Any texts are taken; a batch refuses those that are no names when the operation is pushed: `BadName`.
    ///
    /// ```
    /// batch.push(NamedOp::remove(alloc, "road", "ulm", "kiel")?)?;
    /// ```
    pub fn remove(
        alloc: Global,
        kind: &str,
        source: &str,
        target: &str,
    ) -> Result<NamedOp, AllocError>
        ensures { IfOk result (λ op. op ≡ NamedOp.Remove kind.now source.now target.now) }
    {
        Ok(NamedOp::Remove {
            kind: Name::from_str(alloc, kind)?,
            source: Name::from_str(alloc, source)?,
            target: Name::from_str(alloc, target)?,
        })
    }

    /// Takes away every edge whose recent time is less than this one. A time from 2^63 on is refused when the operation is
    /// pushed: `BadTime`. It takes no memory.
    ///
    /// ```
    /// batch.push(NamedOp::expire(10))?;
    /// ```
    pub fn expire(time: u64) -> NamedOp
        ensures { result ≡ NamedOp.Expire time }
    {
        NamedOp::Expire { time }
    }
}
