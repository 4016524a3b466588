// Records to commands, one function for each command.

ghost use Rattle.std.specs.Prelude.{◌≡◌, ◌<◌, MatchResult, Ok, Err, IfOk, IfErr, bytes_eq, codes, false};
ghost use Rattle.csv.specs.Records.{fields_of};
ghost use Rattle.feed_csv.specs.Commands as spec;
ghost use Rattle.feed_csv.specs.Fields.{of_length};
ghost use Rattle.feed_csv.specs.declared.command.Command.TheVariants as command;
ghost use Rattle.graph_types.specs.declared.batches.NamedOp.TheVariants as operation;
ghost use Rattle.graph_types.specs.declared.requests.Request.TheVariants as request;
ghost use Rattle.feed_csv.specs.Fields as fields;

use crate::fields::{any_kind_at, field, kind_at, name_at, slot_at, time_at, weight_at};
use crate::{Command, FeedWord};
use csv::ByteRecord;
use graph_types::{Name, NamedFilter, NamedOp, Request};
use std::alloc::Global;

/// The command of a record.
#[tactic(auto, using(crate::proofs::Giving::gives_same), unfolding(crate::specs::Commands::item_of))]
pub(crate) fn command_of(alloc: Global, row: &ByteRecord) -> Result<Command, FeedWord>
    ensures { spec.Gives result (spec.item_of (fields_of row.now)) }
{
    let word = field(row, 0);
    if word == b"i".as_slice() {
        insert(alloc, row)
    } else if word == b"a".as_slice() {
        incr(alloc, row)
    } else if word == b"r".as_slice() {
        remove(alloc, row)
    } else {
        other_command(alloc, row)
    }
}

/// The command of a record that has no edge's operation. It isn't inlined, since the room for what each of its rules gives would
/// then be cleared at every record.
#[inline(never)]
#[tactic(auto, using(crate::proofs::Giving::gives_same), unfolding(crate::specs::Commands::item_of))]
fn other_command(alloc: Global, row: &ByteRecord) -> Result<Command, FeedWord>
    requires no_insert { bytes_eq (fields.field (fields_of row.now) 0) (codes "i") ≡ false }
    requires no_incr { bytes_eq (fields.field (fields_of row.now) 0) (codes "a") ≡ false }
    requires no_remove { bytes_eq (fields.field (fields_of row.now) 0) (codes "r") ≡ false }
    ensures { spec.Gives result (spec.item_of (fields_of row.now)) }
{
    let word = field(row, 0);
    if word == b"x".as_slice() {
        expire(row)
    } else if word == b"commit".as_slice() {
        commit(row)
    } else if word == b"open".as_slice() {
        open(row)
    } else if word == b"close".as_slice() {
        close(row)
    } else if word == b"bfs".as_slice() {
        levels(alloc, row)
    } else if word == b"comp".as_slice() {
        labels(alloc, row)
    } else if word == b"core".as_slice() {
        cores(alloc, row)
    } else if word == b"deg".as_slice() {
        degrees(alloc, row)
    } else if word == b"edge".as_slice() {
        edge(alloc, row)
    } else if word == b"stat".as_slice() {
        stat(row)
    } else if word == b"collect".as_slice() {
        collect(row)
    } else if word == b"rebase".as_slice() {
        rebase(row)
    } else {
        Err(FeedWord::BadCommand)
    }
}

#[tactic(auto, unfolding(crate::specs::Fields::of_length))]
fn check_length(row: &ByteRecord, count: usize) -> Result<(), FeedWord>
    ensures { MatchResult result (λ _. of_length count (fields_of row.now) ≡ Ok (fields_of row.now))
        (λ word. of_length count (fields_of row.now) ≡ Err word) }
{
    if row.len() == count {
        Ok(())
    } else {
        Err(FeedWord::BadFields)
    }
}

/// An edge's kind, source and target.
#[derive(Drop)]
struct EdgeNames {
    kind: Name,
    source: Name,
    target: Name,
}

/// Three fields from a place on: a kind, a source and a target.
#[tactic(auto, using(crate::proofs::Giving::refuses_same), unfolding(crate::specs::Commands::names_at))]
fn names_at(alloc: Global, row: &ByteRecord, place: usize) -> Result<EdgeNames, FeedWord>
    requires { place < 8 }
    ensures { spec.Gives result (spec.names_at (fields_of row.now) place) }
{
    let kind = kind_at(row, place)?;
    let source = name_at(row, place + 1)?;
    let target = name_at(row, place + 2)?;
    let kind = Name::from_str(alloc, kind)?;
    let source = Name::from_str(alloc, source)?;
    let target = Name::from_str(alloc, target)?;
    Ok(EdgeNames {
        kind,
        source,
        target,
    })
}

/// What an operation on an edge has: its names, its weight or what is added to it, and its time.
#[derive(Drop)]
struct EdgeFields {
    names: EdgeNames,
    amount: i64,
    time: u64,
}

#[tactic(auto, using(crate::proofs::Giving::refuses_same), unfolding(crate::specs::Commands::edge_fields))]
fn edge_fields(alloc: Global, row: &ByteRecord) -> Result<EdgeFields, FeedWord>
    ensures { spec.Gives result (spec.edge_fields (fields_of row.now)) }
{
    check_length(row, 6)?;
    let names = names_at(alloc, row, 1)?;
    let amount = weight_at(row, 4)?;
    let time = time_at(row, 5)?;
    Ok(EdgeFields {
        names,
        amount,
        time,
    })
}

#[tactic(auto, using(crate::proofs::Giving::refuses_same), unfolding(crate::specs::Commands::edge_command))]
fn insert(alloc: Global, row: &ByteRecord) -> Result<Command, FeedWord>
    ensures { spec.Gives result (spec.edge_command operation.Insert (fields_of row.now)) }
{
    let EdgeFields {
        names,
        amount,
        time,
    } = edge_fields(alloc, row)?;
    Ok(Command::Op(NamedOp::Insert {
        kind: names.kind,
        source: names.source,
        target: names.target,
        weight: amount,
        time,
    }))
}

#[tactic(auto, using(crate::proofs::Giving::refuses_same), unfolding(crate::specs::Commands::edge_command))]
fn incr(alloc: Global, row: &ByteRecord) -> Result<Command, FeedWord>
    ensures { spec.Gives result (spec.edge_command operation.Incr (fields_of row.now)) }
{
    let EdgeFields {
        names,
        amount,
        time,
    } = edge_fields(alloc, row)?;
    Ok(Command::Op(NamedOp::Incr {
        kind: names.kind,
        source: names.source,
        target: names.target,
        amount,
        time,
    }))
}

#[tactic(auto, using(crate::proofs::Giving::refuses_same), unfolding(crate::specs::Commands::remove_of))]
fn remove(alloc: Global, row: &ByteRecord) -> Result<Command, FeedWord>
    ensures { spec.Gives result (spec.remove_of (fields_of row.now)) }
{
    check_length(row, 4)?;
    let names = names_at(alloc, row, 1)?;
    Ok(Command::Op(NamedOp::Remove {
        kind: names.kind,
        source: names.source,
        target: names.target,
    }))
}

#[tactic(auto, unfolding(crate::specs::Commands::expire_of))]
fn expire(row: &ByteRecord) -> Result<Command, FeedWord>
    ensures { result ≡ spec.expire_of (fields_of row.now) }
{
    check_length(row, 2)?;
    let time = time_at(row, 1)?;
    Ok(Command::Op(NamedOp::Expire { time }))
}

#[tactic(auto, unfolding(crate::specs::Commands::bare_command))]
fn commit(row: &ByteRecord) -> Result<Command, FeedWord>
    ensures { result ≡ spec.bare_command command.Commit (fields_of row.now) }
{
    check_length(row, 1)?;
    Ok(Command::Commit)
}

#[tactic(auto, unfolding(crate::specs::Commands::bare_command))]
fn stat(row: &ByteRecord) -> Result<Command, FeedWord>
    ensures { result ≡ spec.bare_command command.Stat (fields_of row.now) }
{
    check_length(row, 1)?;
    Ok(Command::Stat)
}

#[tactic(auto, unfolding(crate::specs::Commands::bare_command))]
fn collect(row: &ByteRecord) -> Result<Command, FeedWord>
    ensures { result ≡ spec.bare_command command.Collect (fields_of row.now) }
{
    check_length(row, 1)?;
    Ok(Command::Collect)
}

#[tactic(auto, unfolding(crate::specs::Commands::slot_command))]
fn open(row: &ByteRecord) -> Result<Command, FeedWord>
    ensures { result ≡ spec.slot_command command.OpenSlot (fields_of row.now) }
{
    check_length(row, 2)?;
    let slot = slot_at(row, 1)?;
    Ok(Command::OpenSlot(slot))
}

#[tactic(auto, unfolding(crate::specs::Commands::slot_command))]
fn close(row: &ByteRecord) -> Result<Command, FeedWord>
    ensures { result ≡ spec.slot_command command.CloseSlot (fields_of row.now) }
{
    check_length(row, 2)?;
    let slot = slot_at(row, 1)?;
    Ok(Command::CloseSlot(slot))
}

#[tactic(auto, unfolding(crate::specs::Commands::slot_command))]
fn rebase(row: &ByteRecord) -> Result<Command, FeedWord>
    ensures { result ≡ spec.slot_command command.Rebase (fields_of row.now) }
{
    check_length(row, 2)?;
    let slot = slot_at(row, 1)?;
    Ok(Command::Rebase(slot))
}

/// Three fields from a place on: a kind or `*`, and the two ends of the window.
#[tactic(auto, using(crate::proofs::Giving::refuses_same), unfolding(crate::specs::Commands::filter_at))]
fn filter_at(alloc: Global, row: &ByteRecord, place: usize) -> Result<NamedFilter, FeedWord>
    requires { place < 8 }
    ensures { spec.Gives result (spec.filter_at (fields_of row.now) place) }
{
    let kind = any_kind_at(row, place)?;
    let lo = time_at(row, place + 1)?;
    let hi = time_at(row, place + 2)?;
    let kind = match kind {
        Some(text) => Some(Name::from_str(alloc, text)?),
        None => None,
    };
    Ok(NamedFilter { kind, lo, hi })
}

/// What a request with a filter alone has: its slot and the filter.
#[tactic(auto, using(crate::proofs::Giving::refuses_same), unfolding(crate::specs::Commands::filter_fields))]
fn filter_fields(alloc: Global, row: &ByteRecord) -> Result<(u8, NamedFilter), FeedWord>
    ensures { spec.Gives result (spec.filter_fields (fields_of row.now)) }
{
    check_length(row, 5)?;
    let filter = filter_at(alloc, row, 2)?;
    let slot = slot_at(row, 1)?;
    Ok((slot, filter))
}

#[tactic(auto, using(crate::proofs::Giving::refuses_same), unfolding(crate::specs::Commands::levels_of))]
fn levels(alloc: Global, row: &ByteRecord) -> Result<Command, FeedWord>
    ensures { spec.Gives result (spec.levels_of (fields_of row.now)) }
{
    check_length(row, 6)?;
    let source = name_at(row, 2)?;
    let filter = filter_at(alloc, row, 3)?;
    let slot = slot_at(row, 1)?;
    let source = Name::from_str(alloc, source)?;
    Ok(Command::Query(slot, Request::Levels { source, filter }))
}

#[tactic(auto, using(crate::proofs::Giving::refuses_same), unfolding(crate::specs::Commands::filter_command))]
fn labels(alloc: Global, row: &ByteRecord) -> Result<Command, FeedWord>
    ensures { spec.Gives result (spec.filter_command request.Labels (fields_of row.now)) }
{
    let (slot, filter) = filter_fields(alloc, row)?;
    Ok(Command::Query(slot, Request::Labels { filter }))
}

#[tactic(auto, using(crate::proofs::Giving::refuses_same), unfolding(crate::specs::Commands::filter_command))]
fn cores(alloc: Global, row: &ByteRecord) -> Result<Command, FeedWord>
    ensures { spec.Gives result (spec.filter_command request.Cores (fields_of row.now)) }
{
    let (slot, filter) = filter_fields(alloc, row)?;
    Ok(Command::Query(slot, Request::Cores { filter }))
}

#[tactic(auto, using(crate::proofs::Giving::refuses_same), unfolding(crate::specs::Commands::filter_command))]
fn degrees(alloc: Global, row: &ByteRecord) -> Result<Command, FeedWord>
    ensures { spec.Gives result (spec.filter_command request.Degrees (fields_of row.now)) }
{
    let (slot, filter) = filter_fields(alloc, row)?;
    Ok(Command::Query(slot, Request::Degrees { filter }))
}

#[tactic(auto, using(crate::proofs::Giving::refuses_same), unfolding(crate::specs::Commands::edge_of))]
fn edge(alloc: Global, row: &ByteRecord) -> Result<Command, FeedWord>
    ensures { spec.Gives result (spec.edge_of (fields_of row.now)) }
{
    check_length(row, 5)?;
    let names = names_at(alloc, row, 2)?;
    let slot = slot_at(row, 1)?;
    let request = Request::OneEdge {
        kind: names.kind,
        source: names.source,
        target: names.target,
    };
    Ok(Command::Query(slot, request))
}
