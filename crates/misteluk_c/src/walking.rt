//! Walks over a version's edges, and the edges that lead to one vertex.

ghost use Rattle.std.specs.Prelude.{◌≡◌, ◌==◌, ◌⊎◌, Some, None, MatchBool, MatchOption, false};
ghost use Rattle.version_columns.specs.Nearby.{near_columns};
ghost use Rattle.misteluk_c.specs.Edges.{edge_table, AreTheColumns, TellsInto, TellsInEdges};
ghost use Rattle.misteluk_c.specs.Held.{held_version_of, Asks};
ghost use Rattle.misteluk_c.specs.Walks.{TellsPath, TellsWithin};
ghost use Rattle.misteluk_c.specs.Walks as walks;

use crate::codes::{BAD_NUMBER, BAD_SIZE, NO_HANDLE, OK, columns_code};
use crate::held::{indexed, version_in};
use crate::versions::{EDGES_SIZE, EdgeColumns};
use graph_walks::Incoming;
use std::alloc::Global;
use store_handles::{Handle, Held};
use version_columns::{View, Ways, write_in_edges, write_path, write_within};

/// Which way a step of a walk goes along an edge.
#[derive(Clone, Copy)]
pub enum Direction {
    Along,
    Against,
    Either,
}

/// The direction of a number.
fn direction_of(number: u32) -> Option<Direction>
    ensures { result ≡ walks.direction_of number }
{
    match number {
        0 => Some(Direction::Along),
        1 => Some(Direction::Against),
        2 => Some(Direction::Either),
        _ => None,
    }
}

/// Puts a version's edges in the order of their targets, too, and keeps them with the handle.
#[unsafe(no_mangle)]
pub extern "C" fn misteluk_version_index(alloc: Global, version: &mut Handle) -> u32
    ensures same { held_version_of version.new.held ≡ held_version_of version.old.held }
    ensures told { Asks (held_version_of version.old.held) result (λ v. (result ≡ 0) ⊎ (result ≡ 1)) }
{
    let Some(mut held) = version.take(alloc) else {
        return NO_HANDLE;
    };
    let code = index(alloc, &mut held);
    version.put(held);
    code
}

fn index(alloc: Global, held: &mut Held) -> u32
    ensures same { held_version_of (Some held.new) ≡ held_version_of (Some held.old) }
    ensures told { Asks (held_version_of (Some held.old)) result (λ v. (result ≡ 0) ⊎ (result ≡ 1)) }
{
    match indexed(alloc, held) {
        Ok(_incoming) => OK,
        Err(code) => code,
    }
}

/// Writes the vertices that walks reach, each with its level.
#[unsafe(no_mangle)]
pub extern "C" fn misteluk_version_within(
    alloc: Global,
    version: &mut Handle,
    view: &View,
    direction: u32,
    sources: &[u32],
    steps: u32,
    vertices: &mut [u32],
    levels: &mut [u32],
    count: &mut u64,
) -> u32
    ensures same { held_version_of version.new.held ≡ held_version_of version.old.held }
    ensures told { MatchOption (walks.direction_of direction) (result ≡ 8) (λ way. Asks (held_version_of version.old.held) result
        (λ v. TellsWithin way v view.now sources.now steps (near_columns vertices.old levels.old)
        (near_columns vertices.new levels.new) count.new result)) }
    ensures none { (walks.direction_of direction ≡ None) ⊎ (held_version_of version.old.held ≡ None)
        → (vertices.new ≡ vertices.old) × (levels.new ≡ levels.old) × (count.new ≡ count.old) }
{
    let Some(direction) = direction_of(direction) else {
        return BAD_NUMBER;
    };
    let Some(mut held) = version.take(alloc) else {
        return NO_HANDLE;
    };
    let code = within(
        alloc, &mut held, view, direction, sources, steps, vertices, levels, count,
    );
    version.put(held);
    code
}

fn within(
    alloc: Global,
    held: &mut Held,
    view: &View,
    direction: Direction,
    sources: &[u32],
    steps: u32,
    vertices: &mut [u32],
    levels: &mut [u32],
    count: &mut u64,
) -> u32
    ensures same { held_version_of (Some held.new) ≡ held_version_of (Some held.old) }
    ensures told { Asks (held_version_of (Some held.old)) result
        (λ v. TellsWithin direction v view.now sources.now steps (near_columns vertices.old levels.old)
        (near_columns vertices.new levels.new) count.new result) }
    ensures none { held_version_of (Some held.old) ≡ None
        → (vertices.new ≡ vertices.old) × (levels.new ≡ levels.old) × (count.new ≡ count.old) }
{
    match direction {
        Direction::Along => match version_in(held) {
            Some(version) => columns_code(write_within(
                alloc,
                &Ways::Along(version),
                view,
                sources,
                steps,
                vertices,
                levels,
                count,
            )),
            None => NO_HANDLE,
        },
        Direction::Against => match indexed(alloc, held) {
            Ok(incoming) => columns_code(write_within(
                alloc,
                &Ways::Against(&incoming),
                view,
                sources,
                steps,
                vertices,
                levels,
                count,
            )),
            Err(code) => code,
        },
        Direction::Either => match indexed(alloc, held) {
            Ok(incoming) => columns_code(write_within(
                alloc,
                &Ways::EitherWay(&incoming),
                view,
                sources,
                steps,
                vertices,
                levels,
                count,
            )),
            Err(code) => code,
        },
    }
}

/// Writes the vertices of a shortest walk.
#[unsafe(no_mangle)]
pub extern "C" fn misteluk_version_path(
    alloc: Global,
    version: &mut Handle,
    view: &View,
    source: u32,
    target: u32,
    vertices: &mut [u32],
    count: &mut u64,
) -> u32
    ensures same { held_version_of version.new.held ≡ held_version_of version.old.held }
    ensures told { Asks (held_version_of version.old.held) result
        (λ v. TellsPath v view.now source target vertices.old vertices.new count.new result) }
    ensures none { held_version_of version.old.held ≡ None → (vertices.new ≡ vertices.old) × (count.new ≡ count.old) }
{
    let Some(mut held) = version.take(alloc) else {
        return NO_HANDLE;
    };
    let code = path_to(alloc, &mut held, view, source, target, vertices, count);
    version.put(held);
    code
}

fn path_to(
    alloc: Global,
    held: &mut Held,
    view: &View,
    source: u32,
    target: u32,
    vertices: &mut [u32],
    count: &mut u64,
) -> u32
    ensures same { held_version_of (Some held.new) ≡ held_version_of (Some held.old) }
    ensures told { Asks (held_version_of (Some held.old)) result
        (λ v. TellsPath v view.now source target vertices.old vertices.new count.new result) }
    ensures none { held_version_of (Some held.old) ≡ None → (vertices.new ≡ vertices.old) × (count.new ≡ count.old) }
{
    match indexed(alloc, held) {
        Ok(incoming) => columns_code(write_path(
            alloc, &incoming, view, source, target, vertices, count,
        )),
        Err(code) => code,
    }
}

/// Writes the edges that lead to one vertex.
#[unsafe(no_mangle)]
pub extern "C" fn misteluk_version_in_edges(
    alloc: Global,
    version: &mut Handle,
    view: &View,
    target: u32,
    into: &mut EdgeColumns<'_>,
    count: &mut u64,
) -> u32
    ensures same { held_version_of version.new.held ≡ held_version_of version.old.held }
    ensures struct_same { AreTheColumns into.old into.new }
    ensures told { MatchBool (into.old.size == 104) (Asks (held_version_of version.old.held) result
        (λ v. TellsInEdges v view.now target into.old into.new count.new result)) (result ≡ 21) }
    ensures targets { into.new.targets.now ≡ into.old.targets.now }
    ensures none { (into.old.size == 104 ≡ false) ⊎ (held_version_of version.old.held ≡ None)
        → (edge_table into.new ≡ edge_table into.old) × (count.new ≡ count.old) }
{
    if into.size != EDGES_SIZE {
        return BAD_SIZE;
    }
    let Some(mut held) = version.take(alloc) else {
        return NO_HANDLE;
    };
    let code = in_edges_to(alloc, &mut held, view, target, into, count);
    version.put(held);
    code
}

fn in_edges_to(
    alloc: Global,
    held: &mut Held,
    view: &View,
    target: u32,
    into: &mut EdgeColumns<'_>,
    count: &mut u64,
) -> u32
    ensures same { held_version_of (Some held.new) ≡ held_version_of (Some held.old) }
    ensures struct_same { AreTheColumns into.old into.new }
    ensures told { Asks (held_version_of (Some held.old)) result
        (λ v. TellsInEdges v view.now target into.old into.new count.new result) }
    ensures targets { into.new.targets.now ≡ into.old.targets.now }
    ensures none { held_version_of (Some held.old) ≡ None → (edge_table into.new ≡ edge_table into.old) × (count.new ≡ count.old) }
{
    match indexed(alloc, held) {
        Ok(incoming) => edges_into(&incoming, view, target, into, count),
        Err(code) => code,
    }
}

fn edges_into(
    incoming: &Incoming,
    view: &View,
    target: u32,
    into: &mut EdgeColumns<'_>,
    count: &mut u64,
) -> u32
    ensures struct_same { AreTheColumns into.old into.new }
    ensures told { TellsInto incoming.now view.now target into.old into.new count.new result }
    ensures targets { into.new.targets.now ≡ into.old.targets.now }
{
    columns_code(write_in_edges(
        incoming,
        view,
        target,
        into.kinds,
        into.sources,
        into.weights,
        into.firsts,
        into.recents,
        count,
    ))
}
