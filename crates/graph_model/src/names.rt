//! Names and kinds in order of first appearance, as operations make them.

ghost use Rattle.std.specs.Prelude.{◌≡◌, ◌≤◌, length, position, bytes_eq, IfOk, OnOk, IfErr};
ghost use Rattle.graph_types.specs.Step as step;
ghost use Rattle.graph_types.specs.Parts.{names_after, names_after_all};
ghost use Rattle.graph_model.specs.Refusals.{IsNamesRefusal, IsKindsRefusal};

use graph_types::{ApplyError, EdgeChange, MOST_WEIGHT, Name, NamedOp, OpParts, parts_in};
use std::alloc::{AllocError, Global};

/// The place of a name in a list of names, if it is listed. It takes no memory.
pub(crate) fn place_in(names: &[Name], name: &Name) -> Option<usize>
    ensures { result ≡ position (bytes_eq name.now) names.now }
{
    names
        .iter()
        .position(|listed| name.as_str() == listed.as_str())
}

/// A name's number: its place, and for a name that is absent the number after the last. It takes no memory.
#[tactic(auto, using(graph_types::proofs::NameNumbers::place_number, graph_types::proofs::NameNumbers::number_none))]
pub(crate) fn number_of(names: &[Name], name: &Name) -> usize
    ensures { result ≡ step.number_of names.now name.now }
{
    match place_in(names, name) {
        Some(number) => number,
        None => names.len(),
    }
}

/// Adds a name at the end, unless it has appeared.
#[tactic(auto, using(graph_types::proofs::NameNumbers::place_none, graph_types::proofs::NameNumbers::place_some))]
fn add_name(names: &mut Vec<Name>, name: &Name) -> Result<(), AllocError>
    ensures { OnOk result (names.new.items ≡ step.with_name names.old.items name.now) }
{
    match place_in(names.as_slice(), name) {
        Some(_) => Ok(()),
        None => Ok(names.push(name.clone()?)?),
    }
}

/// Adds the names of an edge's two ends, where the change makes them. `NamesFull` where they would be more than
/// the limit.
pub(crate) fn make_names(
    names: &mut Vec<Name>,
    limit: u32,
    change: EdgeChange,
    source: &Name,
    target: &Name,
) -> Result<(), ApplyError>
    ensures made { OnOk result (names.new.items ≡ step.names_made change source.now target.now names.old.items) }
    ensures few { OnOk result (length names.old.items ≤ limit → length names.new.items ≤ limit) }
    ensures refused { IfErr result (λ e. IsNamesRefusal limit e (step.names_made change source.now target.now names.old.items)) }
{
    if !change.makes_names() {
        return Ok(());
    }
    make_both(names, limit, source, target)
}

/// Adds the names of an edge's two ends. `NamesFull` where they would be more than the limit.
fn make_both(
    names: &mut Vec<Name>,
    limit: u32,
    source: &Name,
    target: &Name,
) -> Result<(), ApplyError>
    ensures made { OnOk result (names.new.items ≡ step.with_name (step.with_name names.old.items source.now) target.now) }
    ensures few { OnOk result (length names.new.items ≤ limit) }
    ensures refused { IfErr result (λ e. IsNamesRefusal limit e
        (step.with_name (step.with_name names.old.items source.now) target.now)) }
{
    add_name(names, source)?;
    add_name(names, target)?;
    if names.len() > limit as usize {
        return Err(ApplyError::NamesFull);
    }
    Ok(())
}

/// Adds the name of an edge's kind, where the change makes it. `KindsFull` where they would be more than the limit.
pub(crate) fn make_kind(
    kinds: &mut Vec<Name>,
    limit: u32,
    change: EdgeChange,
    kind: &Name,
) -> Result<(), ApplyError>
    ensures made { OnOk result (kinds.new.items ≡ step.kinds_made change kind.now kinds.old.items) }
    ensures few { OnOk result (length kinds.old.items ≤ limit → length kinds.new.items ≤ limit) }
    ensures refused { IfErr result (λ e. IsKindsRefusal limit e (step.kinds_made change kind.now kinds.old.items)) }
{
    if !change.makes_names() {
        return Ok(());
    }
    add_name(kinds, kind)?;
    if kinds.len() > limit as usize {
        return Err(ApplyError::KindsFull);
    }
    Ok(())
}

/// Adds the vertices' names that an operation makes. `NamesFull` where they would be more than the limit.
fn make_names_of(names: &mut Vec<Name>, limit: u32, op: &NamedOp) -> Result<(), ApplyError>
    ensures made { OnOk result (names.new.items ≡ names_after op.now names.old.items) }
    ensures few { OnOk result (length names.old.items ≤ limit → length names.new.items ≤ limit) }
    ensures refused { IfErr result (λ e. IsNamesRefusal limit e (names_after op.now names.old.items)) }
{
    match parts_in(op, MOST_WEIGHT) {
        OpParts::OfEdge(change, _, source, target) => {
            make_names(names, limit, change, source, target)
        }
        OpParts::OfAll(_) => Ok(()),
    }
}

/// The vertices' names that the operations leave. `NamesFull` where they are more than the limit.
pub(crate) fn names_after_all(
    alloc: Global,
    limit: u32,
    names: &[Name],
    ops: &[NamedOp],
) -> Result<Vec<Name>, ApplyError>
    requires { length names.now ≤ limit }
    ensures left { IfOk result (λ all. all.items ≡ names_after_all ops.now names.now) }
    ensures few { IfOk result (λ all. length all.items ≤ limit) }
    ensures refused { IfErr result (λ e. IsNamesRefusal limit e (names_after_all ops.now names.now)) }
{
    let mut all = names.to_vec(alloc)?;
    for op in ops {
        make_names_of(&mut all, limit, op)?;
    }
    Ok(all)
}
