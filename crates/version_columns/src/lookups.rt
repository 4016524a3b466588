//! Sizes, numbers of names, and one edge.

ghost use Rattle.std.specs.Prelude.{◌≡◌, ◌<◌, length, slice_get, Some, IsTrue};
ghost use Rattle.std.specs.Option.{SomeIff};
ghost use Rattle.graph_types.specs.Answer.{is_listed};
ghost use Rattle.graph_types.specs.Step.{number_of};
ghost use Rattle.graph_version.specs.Versions.{content};
ghost use Rattle.version_columns.specs.Lookups.{byte_count, size_of, marks_of_edge};

use crate::views::ColumnError;
use graph_types::{KindId, VertexId};
use graph_version::Version;
use vertex_names::NameBook;

/// The number of a version, and how much it has.
#[derive(Clone, Copy, Debug, PartialEq, Eq)]
#[repr(C)]
pub struct VersionSize {
    pub version: u64,
    pub vertices: u64,
    pub kinds: u64,
    pub edges: u64,
    /// How many bytes the vertices' names have, and the kinds'.
    pub name_bytes: u64,
    pub kind_bytes: u64,
}

/// What an edge bears.
#[derive(Clone, Copy, Debug, PartialEq, Eq)]
#[repr(C)]
pub struct Marks {
    pub weight: i64,
    /// The time of its first insertion, and of the last operation that touched it.
    pub first: u64,
    pub recent: u64,
}

/// The sizes of a version. It takes time by the names.
pub fn size(version: &Version) -> VersionSize
    ensures { result ≡ size_of version.now }
{
    let names = version.names();
    let kinds = version.kinds();
    VersionSize {
        version: version.number(),
        vertices: names.len() as u64,
        kinds: kinds.len() as u64,
        edges: version.edge_count(),
        name_bytes: bytes_in(names),
        kind_bytes: bytes_in(kinds),
    }
}

/// How many bytes the names of a book have.
fn bytes_in(book: &NameBook) -> u64
    ensures { result ≡ byte_count book.now.names }
{
    let mut bytes = 0_u64;
    for number in 0..book.len() {
        bytes += name_of(book, number as u32).len() as u64;
    }
    bytes
}

/// The bytes of a name of a book.
pub(crate) fn name_of(book: &NameBook, number: u32) -> &[u8]
    requires { number < length book.now.names }
    ensures { slice_get book.now.names number ≡ Some result.now }
{
    match book.name(number) {
        Some(name) => name.as_bytes(),
        None => &[],
    }
}

/// The number of a vertex by its name's bytes.
pub fn vertex(version: &Version, name: &[u8]) -> Option<u32>
    ensures { SomeIff result (IsTrue (is_listed (content version.now).names name.now)) (number_of (content version.now).names name.now) }
{
    number_in(version.names(), name)
}

/// The number of a kind by its name's bytes.
pub fn kind(version: &Version, name: &[u8]) -> Option<u32>
    ensures { SomeIff result (IsTrue (is_listed (content version.now).kinds name.now)) (number_of (content version.now).kinds name.now) }
{
    number_in(version.kinds(), name)
}

/// The number of a name of a book, if it has it.
fn number_in(book: &NameBook, name: &[u8]) -> Option<u32>
    ensures { SomeIff result (IsTrue (is_listed book.now.names name.now)) (number_of book.now.names name.now) }
{
    // Who asks for the length learns that the names are names, and so text.
    let _length = book.len();
    match str::from_utf8(name) {
        Ok(name) => book.number(name),
        Err(_) => None,
    }
}

/// One edge by its numbers: `NoKind`, `NoVertex`, `NoEdge` in this order. It takes no memory.
pub fn edge(version: &Version, kind: u32, source: u32, target: u32) -> Result<Marks, ColumnError>
    ensures { result ≡ marks_of_edge (content version.now) kind source target }
{
    if kind as usize >= version.kinds().len() {
        return Err(ColumnError::NoKind);
    }
    let vertices = version.names().len();
    if source as usize >= vertices || target as usize >= vertices {
        return Err(ColumnError::NoVertex);
    }
    match version.edge(KindId(kind as u8), VertexId(source), VertexId(target)) {
        Some(edge) => Ok(Marks {
            weight: *edge.weight,
            first: *edge.first,
            recent: *edge.recent,
        }),
        None => Err(ColumnError::NoEdge),
    }
}
