//! The store as a library: one crate to name.
#![tactic(auto)]

pub use batch_apply::{Gate, PassAll};
pub use block_reclamation::{Board, Pin, PinCopy, SeatNo};
pub use desk::{Accepted, KeptCopy};
pub use edge_block::{Block, BlockIter, EdgeRef};
pub use feed_csv::{Command, EndlessFeed, Feed, FeedFault, FeedWord};
pub use graph_types::{
    AskError, BadLimits, Batch, Content, Degree, Edge, Filter, KindId, Limits, List, Name,
    NamedFilter, NamedOp, Outcome, PushError, Reply, Request, VertexId, is_kind_name, is_name,
};
pub use graph_version::{BatchIter, BlockNumbers, EdgeIter, InEdgeIter, RowIter, Version};
pub use owned_desk::{Held, Hold, HoldError, OwnedDesk, OwnedReady, PairError, ReleaseError};
pub use stream_store::{
    ApplyError, BadConfig, Collected, Config, Desk, JournalEntry, Naming, OpenError, Opened,
    PinnedSeat, Receipt, Seat, Session, Stat, Store, open_parts, open_parts_from,
};
pub use version_answers::{NumberedReply, answer, answer_in_numbers};
pub use version_diff::{
    CHANGED, DiffError, EdgeDifference, EdgeMarks, GONE, NEW, VersionPair, write_differences,
};
pub use version_shelf::Told;
pub use vertex_names::{AddError, NameBook, NameIter};
