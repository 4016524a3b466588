//! A graph as plain lists.

ghost use Rattle.std.specs.Prelude.{◌≡◌};

use crate::{Edge, List, Name};
use std::alloc::AllocError;

/// A graph as plain lists: its vertex names and its kind names in order of first appearance, and its edges in
/// any order, each key once. Contracts see it as the graph that it is (`graph_in` of `specs/Graph.antt`).
#[derive(Debug)]
pub struct Content {
    /// All different, and at most as many as the limits allow; a vertex's number is its place.
    pub names: List<Name>,
    /// All different, and at most as many as the limits allow; a kind's number is its place.
    pub kinds: List<Name>,
    pub edges: List<Edge>,
}

// Written by hand: who lets one go rests on this function, and not on how each part is let go.
impl Drop for Content {
    fn drop(self) {
        let Content {
            names: _names,
            kinds: _kinds,
            edges: _edges,
        } = self;
    }
}

impl Clone for Content {
    ghost is_clone = { λ content copy. copy ≡ content };

    #[tactic(auto, using(crate::proofs::Copies::same_by_zip))]
    fn clone(&self) -> Result<Content, AllocError> {
        Ok(Content {
            names: self.names.clone()?,
            kinds: self.kinds.clone()?,
            edges: self.edges.clone()?,
        })
    }
}

impl Content {
    /// Its vertex names and its kind names, in their orders; the edges are let go. It takes no memory.
    ///
    /// ```
    /// let (names, kinds) = content.into_names();
    /// ```
    pub fn into_names(self) -> (List<Name>, List<Name>)
        ensures { result ≡ (self.names, self.kinds) }
    {
        let Content {
            names,
            kinds,
            edges: _edges,
        } = self;
        (names, kinds)
    }
}
