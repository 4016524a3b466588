//! Versions.

ghost use Rattle.std.specs.Prelude.{◌≡◌, ◌==◌, ◌⊎◌, Some, None, length, MatchBool, MatchOption, false};
ghost use Rattle.graph_version.specs.Versions.{content};
ghost use Rattle.version_columns.specs.Lookups.{size_of, marks_of_edge};
ghost use Rattle.version_columns.specs.Tables.{WritesCores, WritesLabels, WritesLevels, WritesDegrees, WritesWeightsIn, degree_columns};
ghost use Rattle.misteluk_c.specs.Edges.{edge_table, AreTheColumns, TellsRow, TellsEdges};
ghost use Rattle.misteluk_c.specs.Held.{held_version_of, Asks, MakesHeld, TellsCode, TellsNumber, TellsNames, TellsEdge};

use crate::codes::{
    BAD_SIZE, HELD_ALREADY, MEMORY, NO_HANDLE, NO_KIND, NO_VERTEX, OK, column_code, columns_code,
    names_code,
};
use crate::held::{copy_of, version_in};
use graph_version::Version;
use std::alloc::Global;
use store_handles::{Handle, Held};
use version_columns as columns;
use version_columns::{Marks, VersionSize, View};

/// Makes a second handle on the same version.
#[unsafe(no_mangle)]
pub extern "C" fn misteluk_version_clone(
    alloc: Global,
    version: &mut Handle,
    out: &mut Handle,
) -> u32
    ensures same { version.new.held ≡ version.old.held }
    ensures made { Asks (held_version_of version.old.held) result
        (λ v. MakesHeld out.old.held out.new.held result (λ held. held_version_of held ≡ Some v)) }
    ensures none { held_version_of version.old.held ≡ None → out.new.held ≡ out.old.held }
{
    let Some(held) = version.take(alloc) else {
        return NO_HANDLE;
    };
    let code = clone_of(alloc, &held, out);
    version.put(held);
    code
}

fn clone_of(alloc: Global, held: &Held, out: &mut Handle) -> u32
    ensures made { Asks (held_version_of (Some held.now)) result
        (λ v. MakesHeld out.old.held out.new.held result (λ held. held_version_of held ≡ Some v)) }
    ensures none { held_version_of (Some held.now) ≡ None → out.new.held ≡ out.old.held }
{
    if version_in(held).is_none() {
        return NO_HANDLE;
    }
    if !out.is_empty() {
        return HELD_ALREADY;
    }
    let Ok(copy) = copy_of(alloc, held) else {
        return MEMORY;
    };
    out.put(copy);
    OK
}

/// Ends what a handle holds, if it holds anything, and leaves it empty.
#[unsafe(no_mangle)]
pub extern "C" fn misteluk_version_free(alloc: Global, version: &mut Handle)
    ensures { version.new.held ≡ None }
{
    drop(version.take(alloc));
}

/// Tells its sizes.
#[unsafe(no_mangle)]
pub extern "C" fn misteluk_version_size(
    alloc: Global,
    version: &mut Handle,
    out: &mut VersionSize,
) -> u32
    ensures same { version.new.held ≡ version.old.held }
    ensures told { Asks (held_version_of version.old.held) result (λ v. (result ≡ 0) × (out.new ≡ size_of v)) }
    ensures none { held_version_of version.old.held ≡ None → out.new ≡ out.old }
{
    let Some(held) = version.take(alloc) else {
        return NO_HANDLE;
    };
    let code = match version_in(&held) {
        Some(version) => size_to(version, out),
        None => NO_HANDLE,
    };
    version.put(held);
    code
}

/// Tells the number of a vertex.
#[unsafe(no_mangle)]
pub extern "C" fn misteluk_version_vertex(
    alloc: Global,
    version: &mut Handle,
    name: &[u8],
    out: &mut u32,
) -> u32
    ensures same { version.new.held ≡ version.old.held }
    ensures told { Asks (held_version_of version.old.held) result (λ v. TellsNumber 16 (content v).names name.now result out.new) }
    ensures none { held_version_of version.old.held ≡ None → out.new ≡ out.old }
{
    let Some(held) = version.take(alloc) else {
        return NO_HANDLE;
    };
    let code = match version_in(&held) {
        Some(version) => number_to(columns::vertex(version, name), NO_VERTEX, out),
        None => NO_HANDLE,
    };
    version.put(held);
    code
}

/// Tells the number of a kind.
#[unsafe(no_mangle)]
pub extern "C" fn misteluk_version_kind(
    alloc: Global,
    version: &mut Handle,
    name: &[u8],
    out: &mut u32,
) -> u32
    ensures same { version.new.held ≡ version.old.held }
    ensures told { Asks (held_version_of version.old.held) result (λ v. TellsNumber 17 (content v).kinds name.now result out.new) }
    ensures none { held_version_of version.old.held ≡ None → out.new ≡ out.old }
{
    let Some(held) = version.take(alloc) else {
        return NO_HANDLE;
    };
    let code = match version_in(&held) {
        Some(version) => number_to(columns::kind(version, name), NO_KIND, out),
        None => NO_HANDLE,
    };
    version.put(held);
    code
}

/// Writes names of vertices.
#[unsafe(no_mangle)]
pub extern "C" fn misteluk_version_names(
    alloc: Global,
    version: &mut Handle,
    first: u32,
    text: &mut [u8],
    ends: &mut [u64],
) -> u32
    ensures same { version.new.held ≡ version.old.held }
    ensures told { Asks (held_version_of version.old.held) result (λ v. TellsNames 16 (content v).names first text.old text.new ends.new result) }
    ensures none { held_version_of version.old.held ≡ None → (text.new ≡ text.old) × (ends.new ≡ ends.old) }
{
    let Some(held) = version.take(alloc) else {
        return NO_HANDLE;
    };
    let code = match version_in(&held) {
        Some(version) => names_code(
            NO_VERTEX,
            columns::write_names(version.names(), first, text, ends),
        ),
        None => NO_HANDLE,
    };
    version.put(held);
    code
}

/// Writes names of kinds.
#[unsafe(no_mangle)]
pub extern "C" fn misteluk_version_kind_names(
    alloc: Global,
    version: &mut Handle,
    first: u32,
    text: &mut [u8],
    ends: &mut [u64],
) -> u32
    ensures same { version.new.held ≡ version.old.held }
    ensures told { Asks (held_version_of version.old.held) result (λ v. TellsNames 17 (content v).kinds first text.old text.new ends.new result) }
    ensures none { held_version_of version.old.held ≡ None → (text.new ≡ text.old) × (ends.new ≡ ends.old) }
{
    let Some(held) = version.take(alloc) else {
        return NO_HANDLE;
    };
    let code = match version_in(&held) {
        Some(version) => names_code(
            NO_KIND,
            columns::write_names(version.kinds(), first, text, ends),
        ),
        None => NO_HANDLE,
    };
    version.put(held);
    code
}

/// Tells one edge.
#[unsafe(no_mangle)]
pub extern "C" fn misteluk_version_edge(
    alloc: Global,
    version: &mut Handle,
    kind: u32,
    source: u32,
    target: u32,
    out: &mut Marks,
) -> u32
    ensures same { version.new.held ≡ version.old.held }
    ensures told { Asks (held_version_of version.old.held) result (λ v. TellsEdge (marks_of_edge (content v) kind source target) result out.new) }
    ensures none { held_version_of version.old.held ≡ None → out.new ≡ out.old }
{
    let Some(held) = version.take(alloc) else {
        return NO_HANDLE;
    };
    let code = match version_in(&held) {
        Some(version) => edge_to(version, kind, source, target, out),
        None => NO_HANDLE,
    };
    version.put(held);
    code
}

/// Writes the degrees of each vertex.
#[unsafe(no_mangle)]
pub extern "C" fn misteluk_version_degrees(
    alloc: Global,
    version: &mut Handle,
    view: &View,
    outgoing: &mut [u32],
    incoming: &mut [u32],
    out_weight: &mut [i64],
) -> u32
    ensures same { version.new.held ≡ version.old.held }
    ensures told { Asks (held_version_of version.old.held) result (λ v. TellsCode result (WritesDegrees (content v) view.now (degree_columns outgoing.old incoming.old out_weight.old)
        (degree_columns outgoing.new incoming.new out_weight.new))) }
    ensures none { held_version_of version.old.held ≡ None
        → (outgoing.new ≡ outgoing.old) × (incoming.new ≡ incoming.old)
        × (out_weight.new ≡ out_weight.old) }
{
    let Some(held) = version.take(alloc) else {
        return NO_HANDLE;
    };
    let code = match version_in(&held) {
        Some(version) => {
            columns_code(columns::write_degrees(
                alloc, version, view, outgoing, incoming, out_weight,
            ))
        },
        None => NO_HANDLE,
    };
    version.put(held);
    code
}

/// Writes the weight that comes into each vertex.
#[unsafe(no_mangle)]
pub extern "C" fn misteluk_version_weights_in(
    alloc: Global,
    version: &mut Handle,
    view: &View,
    weights: &mut [i64],
) -> u32
    ensures same { version.new.held ≡ version.old.held }
    ensures told { Asks (held_version_of version.old.held) result
        (λ v. TellsCode result (WritesWeightsIn (content v) view.now weights.old weights.new)) }
    ensures none { held_version_of version.old.held ≡ None → weights.new ≡ weights.old }
{
    let Some(held) = version.take(alloc) else {
        return NO_HANDLE;
    };
    let code = match version_in(&held) {
        Some(version) => columns_code(columns::write_weights_in(version, view, weights)),
        None => NO_HANDLE,
    };
    version.put(held);
    code
}

/// Writes the level of each vertex.
#[unsafe(no_mangle)]
pub extern "C" fn misteluk_version_levels(
    alloc: Global,
    version: &mut Handle,
    view: &View,
    source: u32,
    levels: &mut [u32],
) -> u32
    ensures same { version.new.held ≡ version.old.held }
    ensures told { Asks (held_version_of version.old.held) result (λ v. TellsCode result (WritesLevels (content v) view.now source levels.old levels.new)) }
    ensures none { held_version_of version.old.held ≡ None → levels.new ≡ levels.old }
{
    let Some(held) = version.take(alloc) else {
        return NO_HANDLE;
    };
    let code = match version_in(&held) {
        Some(version) => columns_code(columns::write_levels(alloc, version, view, source, levels)),
        None => NO_HANDLE,
    };
    version.put(held);
    code
}

/// Writes the label of each vertex.
#[unsafe(no_mangle)]
pub extern "C" fn misteluk_version_labels(
    alloc: Global,
    version: &mut Handle,
    view: &View,
    labels: &mut [u32],
) -> u32
    ensures same { version.new.held ≡ version.old.held }
    ensures told { Asks (held_version_of version.old.held) result (λ v. TellsCode result (WritesLabels (content v) view.now labels.old labels.new)) }
    ensures none { held_version_of version.old.held ≡ None → labels.new ≡ labels.old }
{
    let Some(held) = version.take(alloc) else {
        return NO_HANDLE;
    };
    let code = match version_in(&held) {
        Some(version) => columns_code(columns::write_labels(alloc, version, view, labels)),
        None => NO_HANDLE,
    };
    version.put(held);
    code
}

/// Writes the core number of each vertex.
#[unsafe(no_mangle)]
pub extern "C" fn misteluk_version_cores(
    alloc: Global,
    version: &mut Handle,
    view: &View,
    cores: &mut [u32],
) -> u32
    ensures same { version.new.held ≡ version.old.held }
    ensures told { Asks (held_version_of version.old.held) result (λ v. TellsCode result (WritesCores (content v) view.now cores.old cores.new)) }
    ensures none { held_version_of version.old.held ≡ None → cores.new ≡ cores.old }
{
    let Some(held) = version.take(alloc) else {
        return NO_HANDLE;
    };
    let code = match version_in(&held) {
        Some(version) => columns_code(columns::write_cores(alloc, version, view, cores)),
        None => NO_HANDLE,
    };
    version.put(held);
    code
}

/// Columns that edges are written to.
#[derive(Drop)]
#[repr(C)]
pub struct EdgeColumns<'a> {
    /// How many bytes the struct has for who gives it: what lies past them is none of it.
    pub size: usize,
    pub kinds: &'a mut [u32],
    pub sources: &'a mut [u32],
    pub targets: &'a mut [u32],
    pub weights: &'a mut [i64],
    pub firsts: &'a mut [u64],
    pub recents: &'a mut [u64],
}

/// How large that struct is.
pub(crate) const EDGES_SIZE: usize = 104;

/// Writes the edges of one source.
#[unsafe(no_mangle)]
pub extern "C" fn misteluk_version_row(
    alloc: Global,
    version: &mut Handle,
    view: &View,
    source: u32,
    into: &mut EdgeColumns<'_>,
    count: &mut u64,
) -> u32
    ensures same { version.new.held ≡ version.old.held }
    ensures struct_same { AreTheColumns into.old into.new }
    ensures told { MatchBool (into.old.size == 104) (Asks (held_version_of version.old.held) result
        (λ v. TellsRow v view.now source into.old into.new count.new result)) (result ≡ 21) }
    ensures sources { into.new.sources.now ≡ into.old.sources.now }
    ensures none { (into.old.size == 104 ≡ false) ⊎ (held_version_of version.old.held ≡ None)
        → (edge_table into.new ≡ edge_table into.old) × (count.new ≡ count.old) }
{
    if into.size != EDGES_SIZE {
        return BAD_SIZE;
    }
    let Some(held) = version.take(alloc) else {
        return NO_HANDLE;
    };
    let code = match version_in(&held) {
        Some(version) => row_to(version, view, source, into, count),
        None => NO_HANDLE,
    };
    version.put(held);
    code
}

fn row_to(
    version: &Version,
    view: &View,
    source: u32,
    into: &mut EdgeColumns<'_>,
    count: &mut u64,
) -> u32
    ensures struct_same { AreTheColumns into.old into.new }
    ensures told { TellsRow version.now view.now source into.old into.new count.new result }
    ensures sources { into.new.sources.now ≡ into.old.sources.now }
{
    columns_code(columns::write_row(
        version,
        view,
        source,
        into.kinds,
        into.targets,
        into.weights,
        into.firsts,
        into.recents,
        count,
    ))
}

/// Writes the edges of sources from one on.
#[unsafe(no_mangle)]
pub extern "C" fn misteluk_version_edges(
    alloc: Global,
    version: &mut Handle,
    view: &View,
    source: &mut u32,
    into: &mut EdgeColumns<'_>,
    count: &mut u64,
) -> u32
    ensures same { version.new.held ≡ version.old.held }
    ensures struct_same { AreTheColumns into.old into.new }
    ensures told { MatchBool (into.old.size == 104) (Asks (held_version_of version.old.held) result
        (λ v. TellsEdges v view.now source.old into.old source.new into.new count.new result)) (result ≡ 21) }
    ensures none { (into.old.size == 104 ≡ false) ⊎ (held_version_of version.old.held ≡ None)
        → (edge_table into.new ≡ edge_table into.old) × (source.new ≡ source.old) × (count.new ≡ count.old) }
{
    if into.size != EDGES_SIZE {
        return BAD_SIZE;
    }
    let Some(held) = version.take(alloc) else {
        return NO_HANDLE;
    };
    let code = match version_in(&held) {
        Some(version) => edges_to(version, view, source, into, count),
        None => NO_HANDLE,
    };
    version.put(held);
    code
}

fn edges_to(
    version: &Version,
    view: &View,
    source: &mut u32,
    into: &mut EdgeColumns<'_>,
    count: &mut u64,
) -> u32
    ensures struct_same { AreTheColumns into.old into.new }
    ensures told { TellsEdges version.now view.now source.old into.old source.new into.new count.new result }
{
    columns_code(columns::write_edges(
        version,
        view,
        source,
        into.kinds,
        into.sources,
        into.targets,
        into.weights,
        into.firsts,
        into.recents,
        count,
    ))
}

fn size_to(version: &Version, out: &mut VersionSize) -> u32
    ensures { (result ≡ 0) × (out.new ≡ size_of version.now) }
{
    *out = columns::size(version);
    OK
}

fn number_to(number: Option<u32>, missing: u32, out: &mut u32) -> u32
    ensures { MatchOption number (result ≡ missing) (λ found. (result ≡ 0) × (out.new ≡ found)) }
{
    match number {
        Some(number) => {
            *out = number;
            OK
        }
        None => missing,
    }
}

fn edge_to(version: &Version, kind: u32, source: u32, target: u32, out: &mut Marks) -> u32
    ensures { TellsEdge (marks_of_edge (content version.now) kind source target) result out.new }
{
    match columns::edge(version, kind, source, target) {
        Ok(marks) => {
            *out = marks;
            OK
        }
        Err(error) => column_code(error),
    }
}
