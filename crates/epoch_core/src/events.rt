//! The events of the machine.

use graph_types::{Batch, Edge, List, Request};

/// An event of the machine: one atomic step of the writer, the collector or a session.
pub enum Event {
    /// The writer takes a free block.
    Take(usize),
    /// The writer fills a granted block with these edges.
    Fill(usize, List<Edge>),
    /// The writer posts a batch as the next version, whose edges are in these blocks.
    Post(Batch, List<usize>),
    /// The collector raises the floor to the least of the last number and all pins, and copies them.
    Floor,
    /// The collector frees a retired block that the copy doesn't need.
    Recycle(usize),
    /// A session pins the floor.
    Pin(usize),
    /// A pinned session takes hold of the last version.
    Enter(usize),
    /// A session that holds a version moves its pin up to that version's number.
    Settle(usize),
    /// A session asks a request of the version that it holds.
    Ask(usize, Request),
    /// A session that has asked reads the next block of its version.
    Read(usize),
    /// A session that has read all blocks of its version is answered.
    Reply(usize),
    /// A session lets go of its version and its pin.
    Release(usize),
}

// Written by hand: who lets one go rests on this function, and doesn't tell events apart for that.
impl Drop for Event {
    fn drop(self) {
        match self {
            Event::Fill(_block, _edges) => {}
            Event::Post(_batch, _blocks) => {}
            Event::Ask(_session, _request) => {}
            Event::Take(_)
            | Event::Floor
            | Event::Recycle(_)
            | Event::Pin(_)
            | Event::Enter(_)
            | Event::Settle(_)
            | Event::Read(_)
            | Event::Reply(_)
            | Event::Release(_) => {}
        }
    }
}
