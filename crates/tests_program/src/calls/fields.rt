// The fields of the types of the design, each with its type: another one would be refused here. Their calls are called beside
// this.

use batch_apply::Applied;
use block_pool::{Grant, GrantError};
use edge_block::{Block, EdgeRef};
use epoch_core::{Event, Step};
use feed_csv::{Command, FeedFault, FeedWord};
use graph_model::{
    Batch, Content, Degree, Edge, KindId, List, Name, NamedFilter, NamedOp, Outcome, PinCopy,
    Reply, Request,
};
use graph_version::Version;
use std::sync::Arc;
use stinger_server::{DriveReport, ServeFault, Summary};
use stream_store::{Collected, JournalEntry, Receipt, Stat};
use version_shelf::Told;

fn of_a_grant(it: &Grant) -> (&Vec<u32>, &Vec<Arc<Block>>) {
    (&it.numbers, &it.blocks)
}

fn of_a_refused_grant(it: &GrantError) -> Option<(u32, u32)> {
    match it {
        GrantError::PoolEmpty { needed, free } => Some((*needed, *free)),
        _ => None,
    }
}

type AppliedFields<'a> = (
    &'a Version,
    &'a Vec<Outcome>,
    &'a Vec<u32>,
    &'a Vec<Arc<Block>>,
    &'a Vec<Arc<Block>>,
);

fn of_an_application(it: &Applied) -> AppliedFields<'_> {
    (
        &it.version,
        &it.outcomes,
        &it.taken,
        &it.dropped,
        &it.unused,
    )
}

fn of_a_receipt(it: &Receipt) -> (u64, &List<Outcome>, &Told) {
    (it.number, &it.outcomes, &it.told)
}

fn of_a_collection(it: Collected) -> (u64, u32, u32) {
    (it.floor, it.recycled, it.retired)
}

fn of_counts(it: Stat) -> (u64, usize, u64, u32, u32, u32) {
    (it.number, it.names, it.edges, it.free, it.retired, it.used)
}

fn of_a_batch_entry(it: &JournalEntry) -> Option<(&Arc<Batch>, &List<u32>, &List<u32>)> {
    match it {
        JournalEntry::Applied {
            batch,
            taken,
            dropped,
        } => Some((batch, taken, dropped)),
        JournalEntry::Collected { .. } => None,
    }
}

fn of_a_collection_entry(it: &JournalEntry) -> Option<(PinCopy, u32)> {
    match it {
        JournalEntry::Applied { .. } => None,
        JournalEntry::Collected { copy, recycled } => Some((copy.to_pin_copy(), *recycled)),
    }
}

fn of_an_operation(it: &NamedOp) -> Option<(&Name, &Name, &Name, i64, u64)> {
    match it {
        NamedOp::Insert {
            kind,
            source,
            target,
            weight,
            time,
        } => Some((kind, source, target, *weight, *time)),
        NamedOp::Incr {
            kind,
            source,
            target,
            amount,
            time,
        } => Some((kind, source, target, *amount, *time)),
        NamedOp::Remove {
            kind,
            source,
            target,
        } => Some((kind, source, target, 0, 0)),
        NamedOp::Expire { .. } => None,
    }
}

fn of_a_filter(it: &NamedFilter) -> (&Option<Name>, u64, u64) {
    (&it.kind, it.lo, it.hi)
}

type Asked<'a> = (Option<&'a Name>, Option<&'a Name>, Option<&'a NamedFilter>);

fn of_a_request(it: &Request) -> Asked<'_> {
    match it {
        Request::Levels { source, filter } => (Some(source), None, Some(filter)),
        Request::Labels { filter } => (None, None, Some(filter)),
        Request::Cores { filter } => (None, None, Some(filter)),
        Request::Degrees { filter } => (None, None, Some(filter)),
        Request::OneEdge { source, target, .. } => (Some(source), Some(target), None),
    }
}

fn of_numbers(it: &Reply) -> Option<&List<(Name, u32)>> {
    match it {
        Reply::Levels(rows) => Some(rows),
        Reply::Cores(rows) => Some(rows),
        _ => None,
    }
}

fn of_labels(it: &Reply) -> Option<&List<(Name, Name)>> {
    match it {
        Reply::Labels(rows) => Some(rows),
        _ => None,
    }
}

fn of_degrees(it: &Reply) -> Option<&List<(Name, Degree)>> {
    match it {
        Reply::Degrees(rows) => Some(rows),
        _ => None,
    }
}

fn of_one_edge(it: &Reply) -> Option<&Option<(i64, u64, u64)>> {
    match it {
        Reply::OneEdge(marks) => Some(marks),
        _ => None,
    }
}

fn of_a_degree(it: Degree) -> (u32, u32, i64) {
    (it.outgoing, it.incoming, it.out_weight)
}

fn of_a_content(it: &Content) -> (&List<Name>, &List<Name>, &List<Edge>) {
    (&it.names, &it.kinds, &it.edges)
}

type Lent<'b> = (KindId, &'b u32, &'b i64, &'b u64, &'b u64);

fn of_a_lent_edge(it: EdgeRef<'_>) -> Lent<'_> {
    (it.kind, it.target, it.weight, it.first, it.recent)
}

fn of_a_copy(it: &PinCopy) -> (u64, &[Option<u64>; 16], &[Option<u64>; 16]) {
    (it.last, &it.settled, &it.unsettled)
}

fn of_a_post(it: &Event) -> Option<(&Batch, &List<usize>)> {
    match it {
        Event::Post(batch, blocks) => Some((batch, blocks)),
        _ => None,
    }
}

fn of_a_question(it: &Event) -> Option<(usize, &Request)> {
    match it {
        Event::Ask(session, request) => Some((*session, request)),
        _ => None,
    }
}

fn of_a_step(it: Step) -> bool {
    match it {
        Step::Done => true,
        Step::Skipped => false,
    }
}

fn of_a_command(it: &Command) -> Option<(u8, &Request)> {
    match it {
        Command::Query(slot, request) => Some((*slot, request)),
        _ => None,
    }
}

fn of_a_fault(it: FeedFault) -> (u64, FeedWord) {
    (it.at, it.word)
}

fn of_a_run(it: Summary) -> (u64, u64, u64) {
    (it.records, it.errors, it.pending)
}

fn of_its_fault(it: ServeFault) -> u8 {
    match it {
        ServeFault::Start => 0,
        ServeFault::Read => 1,
        ServeFault::Memory => 2,
        ServeFault::Write => 3,
    }
}

fn of_a_report(it: DriveReport) -> (usize, u32, u32, u32, u64) {
    (it.readers, it.batches, it.checked, it.wrong, it.last)
}
