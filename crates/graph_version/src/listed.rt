//! A content of which it is known that it is one.

ghost use Rattle.std.specs.Prelude.{◌≡◌, IfOk};
ghost use Rattle.graph_types.specs.Graph.{IsContentIn};

use graph_types::{Content, Limits};
use std::alloc::AllocError;

/// A content within its limits: its names and kinds are distinct, and it lists each edge once.
#[derive(Drop)]
pub(crate) struct ListedContent {
    pub(crate) content: Content,
    pub(crate) limits: Limits,
    ghost listed_once: { IsContentIn limits content },
}

impl ListedContent {
    /// A copy.
    pub(crate) fn share(&self) -> Result<ListedContent, AllocError>
        ensures content { IfOk result (λ copy. copy.content ≡ self.now.content) }
        ensures limits { IfOk result (λ copy. copy.limits ≡ self.now.limits) }
    {
        Ok(ListedContent {
            content: self.content.clone()?,
            limits: self.limits,
        })
    }
}
