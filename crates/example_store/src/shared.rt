//! A store that threads share: one feeds it while two others read. Each of these asks one version in two threads.

ghost use Rattle.misteluk.specs.Opened.{IsOpeningOf};
ghost use Rattle.misteluk.specs.Stores.{IsSeatOfOpening};

use anyhow::{Result, bail};
use misteluk::{
    Batch, Command, Config, EndlessFeed, NamedFilter, NamedOp, Naming, Opened, PassAll, Reply,
    Request, Seat, Store, Version, answer,
};
use std::alloc::Global;
use std::io::Read;
use std::marker::Brand;
use std::sync::Wait;
use std::thread::{Threads, join};

/// Two roads from `ulm`, as records.
const ROADS: &str = "i,road,ulm,jena,1,1\ni,road,ulm,bern,1,1\n";

/// A batch of one operation.
fn batch_of(alloc: Global, op: NamedOp) -> Result<Batch> {
    let mut batch = Batch::new(alloc);
    batch.push(op)?;
    Ok(batch)
}

/// A batch of one road, from `ulm` to this town.
fn road(alloc: Global, town: &str) -> Result<Batch> {
    let op = NamedOp::insert(alloc, "road", "ulm", town, 1, 1)?;
    batch_of(alloc, op)
}

/// A batch of the next record, if it is an operation.
fn next_batch<R: Read>(alloc: Global, records: &mut EndlessFeed<R>) -> Result<Batch> {
    match records.next()? {
        Some(Command::Op(op)) => batch_of(alloc, op),
        _ => bail!("the record is no operation"),
    }
}

/// Builds the roads of the records, and returns the number of the version with both.
fn feed<J: Naming, R: Threads + Wait + Sync>(
    rt: &R,
    alloc: Global,
    store: &Store<J>,
) -> Result<u64> {
    let mut records = EndlessFeed::over(alloc, ROADS.as_bytes());
    let first = next_batch(alloc, &mut records)?;
    let _jena = store.apply(rt, &PassAll, first)?;
    let second = next_batch(alloc, &mut records)?;
    let bern = store.apply(rt, &PassAll, second)?;
    let _collected = store.collect(rt);
    Ok(bern.number)
}

/// How many towns roads join in this version.
fn towns(alloc: Global, version: &Version) -> Result<usize> {
    let question = Request::labels(NamedFilter::all());
    match answer(alloc, version, &question)? {
        Reply::Labels(labels) => Ok(labels.len()),
        _ => bail!("no labels"),
    }
}

/// How many towns roads lead to from `ulm` in this version, `ulm` among them.
fn reached(alloc: Global, version: &Version) -> Result<usize> {
    let question = Request::levels(alloc, "ulm", NamedFilter::all())?;
    match answer(alloc, version, &question)? {
        Reply::Levels(levels) => Ok(levels.len()),
        _ => bail!("no levels"),
    }
}

/// Whether a session shows two or more towns, and roads lead to as many in its version, which another thread asks meanwhile.
fn read<J: Naming, R: Threads + Wait + Sync>(
    rt: &R,
    alloc: Global,
    store: &Store<J>,
    seat: Seat,
) -> Result<bool> {
    let session = seat.pin(rt, store).enter(rt, store);
    let version = session.version();
    let (all, led) = join(rt, || towns(alloc, version), || reached(alloc, version));
    let _seat = session.release(rt, store);
    let (all, led) = (all?, led?);
    Ok(all >= 2 && all == led)
}

/// Builds a road, of which the seat learns.
fn learnt<J: Naming, R: Threads + Wait + Sync>(
    rt: &R,
    alloc: Global,
    store: &Store<J>,
    mut seat: Seat,
    town: &str,
) -> Result<Seat>
    requires { IsSeatOfOpening J.book J.opening seat }
{
    let receipt = store.apply(rt, &PassAll, road(alloc, town)?)?;
    seat.learn(&receipt)?;
    Ok(seat)
}

/// What a feeder and two readers return, whose seats learn of a road each.
fn over<J: Naming + Send + Sync, R: Threads + Wait + Sync>(
    rt: &R,
    alloc: Global,
    opened: Opened,
) -> Result<(u64, (bool, bool))>
    requires { IsOpeningOf J.book J.opening opened }
{
    let (store, mut seats) = opened.named::<J>();
    let (Some(one), Some(two)) = (seats.pop(), seats.pop()) else {
        bail!("the store has two seats");
    };
    let one = learnt(rt, alloc, &store, one, "kiel")?;
    let two = learnt(rt, alloc, &store, two, "trier")?;
    let (fed, (one, two)) = join(
        rt,
        || feed(rt, alloc, &store),
        || {
            join(
                rt,
                || read(rt, alloc, &store, one),
                || read(rt, alloc, &store, two),
            )
        },
    );
    let _last = store.close(rt);
    Ok((fed?, (one?, two?)))
}

/// Opens the store, and prints what was returned.
pub(crate) fn run<R: Threads + Wait + Sync + Print>(rt: &R, alloc: Global) -> Result<()> {
    let opened = Store::open(rt, alloc, Config::new(2, 16, 2)?)?;
    let (fed, (one, two)) = over::<Brand, R>(rt, alloc, opened)?;
    println!(rt; "version {fed}, and each session as it was: {one}, {two}")?;
    Ok(())
}
