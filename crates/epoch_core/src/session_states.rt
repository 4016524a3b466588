//! The parts of the machine's state.

ghost use Rattle.std.specs.Prelude.{◌≡◌, []};

use crate::states::{Opening, Version};
use block_reclamation::{BlockStatus, PinCopy};
use graph_types::{AskError, Edge, List, Reply, Request};
use std::alloc::Global;

/// A reply, or the refusal that stands in its place.
pub(crate) type Answer = Result<Reply, AskError>;

/// A list without items. It takes no memory.
pub(crate) fn no_items<T>(alloc: Global) -> List<T>
    ensures { result ≡ [] }
{
    List::of(Vec::new(alloc))
}

/// What a session that holds a version has: its pin, and the number of the version.
#[derive(Clone, Copy)]
pub(crate) struct Hold {
    pub(crate) pin: u64,
    /// Whether the pin was moved up to the version's number.
    pub(crate) settled: bool,
    pub(crate) version: u64,
}

/// A request, and how far the blocks of the held version are read for it.
pub(crate) struct Inquiry {
    pub(crate) request: Request,
    /// How many blocks are read.
    pub(crate) next: usize,
    /// The edges that were read in them.
    pub(crate) read: List<Edge>,
}

// Written by hand: a session's move lets one go by this function, and doesn't take a request apart.
impl Drop for Inquiry {
    fn drop(self) {
        let Inquiry {
            request: _request,
            next: _next,
            read: _read,
        } = self;
    }
}

/// Where a session stands.
pub(crate) enum SessionState {
    /// It has no pin.
    Idle,
    /// It has this pin, and holds nothing.
    Pinned(u64),
    /// It holds a version.
    Holding(Hold),
    /// It holds a version and has asked a request of it.
    Asking(Hold, Inquiry),
}

// Written by hand: a move lets the state before it go by this function, and doesn't tell states apart for that.
impl Drop for SessionState {
    fn drop(self) {
        match self {
            SessionState::Idle => {}
            SessionState::Pinned(_pin) => {}
            SessionState::Holding(_hold) => {}
            SessionState::Asking(_hold, _inquiry) => {}
        }
    }
}

/// The fields of the machine.
pub(crate) struct Parts {
    pub(crate) alloc: Global,
    pub(crate) opening: Opening,
    pub(crate) heap: Vec<List<Edge>>,
    pub(crate) status: Vec<BlockStatus>,
    /// The versions after version 0, in the order of their numbers.
    pub(crate) versions: Vec<Version>,
    pub(crate) floor: u64,
    /// What the last Floor saw: the last number, and the pins.
    pub(crate) copy: PinCopy,
    pub(crate) sessions: Vec<SessionState>,
    pub(crate) replies: Vec<List<Answer>>,
}

// Written by hand: what makes the parts, or lets them go after a refused growth, doesn't take each apart.
impl Drop for Parts {
    fn drop(self) {
        let Parts {
            alloc: _alloc,
            opening: _opening,
            heap: _heap,
            status: _status,
            versions: _versions,
            floor: _floor,
            copy: _copy,
            sessions: _sessions,
            replies: _replies,
        } = self;
    }
}
