//! What versions are.

use graph_types::{Batch, Content, Limits, List, Name};

/// A version after version 0: the batch that made it, the blocks that have its edges, its names and its kinds.
#[derive(Debug)]
pub struct Version {
    pub batch: Batch,
    pub blocks: List<usize>,
    pub names: List<Name>,
    pub kinds: List<Name>,
}

// Written by hand: who lets one go rests on this function, and not on how each part is let go.
impl Drop for Version {
    fn drop(self) {
        let Version {
            batch: _batch,
            blocks: _blocks,
            names: _names,
            kinds: _kinds,
        } = self;
    }
}

/// What stands before the first batch: a content, the blocks that have its edges, and the limits.
#[derive(Debug)]
pub struct Opening {
    pub content: Content,
    pub blocks: List<usize>,
    pub limits: Limits,
}

// Written by hand, as that of a version.
impl Drop for Opening {
    fn drop(self) {
        let Opening {
            content: _content,
            blocks: _blocks,
            limits: _limits,
        } = self;
    }
}
