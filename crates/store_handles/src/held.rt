//! What is held.

use graph_types::Batch;
use graph_version::Version;
use graph_walks::Incoming;
use owned_desk::{OwnedDesk, OwnedReady};
use std::sync::Arc;
use version_diff::VersionPair;

/// What a handle may hold.
#[derive(Drop)]
pub enum Held {
    /// A desk, and the identity that its holds have.
    Desk { desk: OwnedDesk, identity: u64 },
    /// A desk at which a batch is ready, and its identity.
    Ready { ready: OwnedReady, identity: u64 },
    Batch(Batch),
    /// A batch that a desk refused, which had shared it.
    Shared(Arc<Batch>),
    Version(Arc<Version>),
    /// A version, with its edges in the order of their targets.
    Indexed(Arc<Incoming>),
    /// Two versions, an earlier and a later one.
    Pair(VersionPair),
}
