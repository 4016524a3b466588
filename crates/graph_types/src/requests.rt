//! Requests about a graph, replies and refusals.

ghost use Rattle.std.specs.Prelude.{◌≡◌};
ghost use Rattle.graph_types.specs.declared.requests.AskError.TheVariants.{OutOfMemory};

use crate::{Degree, List, Name};
use std::alloc::AllocError;
use thiserror::Error;

/// Which edges a request looks at, with the kind as a text; `None` is any kind. Both ends of the window of
/// recent times are included.
///
/// ```
/// let roads = NamedFilter::of_kind(alloc, "road")?;
/// let new_edges = NamedFilter::all().within(10, 20);
/// ```
#[derive(Debug, PartialEq, Eq)]
pub struct NamedFilter {
    pub kind: Option<Name>,
    pub lo: u64,
    pub hi: u64,
}

// Written by hand: who lets one go rests on this function, and not on how each part is let go.
impl Drop for NamedFilter {
    fn drop(self) {
        let NamedFilter {
            kind: _kind,
            lo: _lo,
            hi: _hi,
        } = self;
    }
}

impl Clone for NamedFilter {
    ghost is_clone = { λ filter copy. copy ≡ filter };

    fn clone(&self) -> Result<NamedFilter, AllocError> {
        let kind = match &self.kind {
            Some(kind) => Some(kind.clone()?),
            None => None,
        };
        Ok(NamedFilter {
            kind,
            lo: self.lo,
            hi: self.hi,
        })
    }
}

/// A request about a graph, with names as texts.
///
/// ```
/// let levels_over_all_edges = Request::levels(alloc, "ann", NamedFilter::all())?;
/// ```
#[derive(Debug, PartialEq, Eq)]
pub enum Request {
    /// The level of each vertex from the source over the view of the filter.
    Levels {
        source: Name,
        filter: NamedFilter,
    },
    /// The label of each vertex over the view of the filter.
    Labels {
        filter: NamedFilter,
    },
    /// The core number of each vertex over the view of the filter.
    Cores {
        filter: NamedFilter,
    },
    /// The degrees of each vertex over the view of the filter.
    Degrees {
        filter: NamedFilter,
    },
    /// Weight and times of one edge.
    OneEdge {
        kind: Name,
        source: Name,
        target: Name,
    },
}

// Written by hand, as that of a filter.
impl Drop for Request {
    fn drop(self) {
        match self {
            Request::Levels {
                source: _source,
                filter: _filter,
            } => {}
            Request::Labels { filter: _filter } => {}
            Request::Cores { filter: _filter } => {}
            Request::Degrees { filter: _filter } => {}
            Request::OneEdge {
                kind: _kind,
                source: _source,
                target: _target,
            } => {}
        }
    }
}

impl Clone for Request {
    ghost is_clone = { λ request copy. copy ≡ request };

    fn clone(&self) -> Result<Request, AllocError> {
        match self {
            Request::Levels { source, filter } => Ok(Request::Levels {
                source: source.clone()?,
                filter: filter.clone()?,
            }),
            Request::Labels { filter } => Ok(Request::Labels {
                filter: filter.clone()?,
            }),
            Request::Cores { filter } => Ok(Request::Cores {
                filter: filter.clone()?,
            }),
            Request::Degrees { filter } => Ok(Request::Degrees {
                filter: filter.clone()?,
            }),
            Request::OneEdge {
                kind,
                source,
                target,
            } => Ok(Request::OneEdge {
                kind: kind.clone()?,
                source: source.clone()?,
                target: target.clone()?,
            }),
        }
    }
}

/// The reply to a request; lists are in order of the vertices' numbers.
#[derive(Debug, Drop, PartialEq, Eq)]
pub enum Reply {
    /// The name and the level of each vertex to which a walk leads from the source.
    Levels(List<(Name, u32)>),
    /// Each vertex's name, and the name of the least vertex of its part.
    Labels(List<(Name, Name)>),
    /// Each vertex's name and core number.
    Cores(List<(Name, u32)>),
    /// Each vertex's name and degrees.
    Degrees(List<(Name, Degree)>),
    /// Weight, first time and recent time, where the edge is there.
    OneEdge(Option<(i64, u64, u64)>),
}

impl Clone for Reply {
    ghost is_clone = { λ reply copy. copy ≡ reply };

    #[tactic(auto, using(crate::proofs::Copies::same_pairs))]
    fn clone(&self) -> Result<Reply, AllocError> {
        match self {
            Reply::Levels(levels) => Ok(Reply::Levels(levels.clone()?)),
            Reply::Labels(labels) => Ok(Reply::Labels(labels.clone()?)),
            Reply::Cores(numbers) => Ok(Reply::Cores(numbers.clone()?)),
            Reply::Degrees(degrees) => Ok(Reply::Degrees(degrees.clone()?)),
            Reply::OneEdge(edge) => Ok(Reply::OneEdge(*edge)),
        }
    }
}

/// Why a request has no reply; the first that holds, in this order.
#[derive(Clone, Copy, Debug, PartialEq, Eq, Error)]
pub enum AskError {
    #[error("the window ends before it begins")]
    BadWindow,
    #[error("the graph has no such kind")]
    NoKind,
    #[error("the graph has no such vertex")]
    NoVertex,
    #[error("out of memory")]
    OutOfMemory,
}

impl From<AllocError> for AskError {
    ghost from_gives = { λ _ e. e ≡ OutOfMemory };

    fn from(_error: AllocError) -> AskError {
        AskError::OutOfMemory
    }
}
