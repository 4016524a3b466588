//! Numbers of vertices and kinds, edges, filters and degrees: plain data.

/// The number of a vertex: the place of its name, counted from 0 in order of first appearance.
#[derive(Clone, Copy, Debug, PartialEq, Eq, PartialOrd, Ord, Hash)]
pub struct VertexId(pub u32);

/// The number of a kind (STINGER's edge type): the place of its name, counted from 0 in order of first
/// appearance.
#[derive(Clone, Copy, Debug, PartialEq, Eq, PartialOrd, Ord, Hash)]
pub struct KindId(pub u8);

/// A directed edge: STINGER's weight and two times (HPEC 2012, section II), stored with its source.
#[derive(Clone, Copy, Debug, PartialEq, Eq)]
pub struct Edge {
    pub kind: KindId,
    pub source: VertexId,
    pub target: VertexId,
    /// From -2^40 to 2^40.
    pub weight: i64,
    /// The time of its first insertion, below 2^63.
    pub first: u64,
    /// The time of the last operation that touched it, below 2^63; it may be earlier than `first`.
    pub recent: u64,
}

/// Which edges are looked at: those of one kind, or of any, whose recent time is in `lo..=hi`.
#[derive(Clone, Copy, Debug, PartialEq, Eq)]
pub struct Filter {
    pub kind: Option<KindId>,
    pub lo: u64,
    pub hi: u64,
}

/// How many edges leave and enter a vertex (a loop counts once in each), and the sum of the weights of
/// those that leave it.
#[derive(Clone, Copy, Debug, PartialEq, Eq)]
pub struct Degree {
    pub outgoing: u32,
    pub incoming: u32,
    pub out_weight: i64,
}
