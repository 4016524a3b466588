// The model: its types, batches, and the slow functions over lists.

ghost use Rattle.graph_types.specs.Graph.{IsContentIn};
ghost use Rattle.graph_types.specs.Limits.{standard_limits};

use graph_model::{
    ApplyError, AskError, Batch, Content, Degree, Edge, Filter, KindId, List, Name, NamedFilter,
    NamedOp, Outcome, PinCopy, PushError, Reply, Request, VertexId, is_kind_name, is_name,
    plain_apply, plain_reply,
};
use std::alloc::Global;

fn names(text: String) -> (bool, bool, usize, String) {
    let name = Name::of(text);
    let is = (is_name(name.as_str()), is_kind_name(name.as_str()));
    (is.0, is.1, name.as_str().len(), name.into_string())
}

fn lists(edges: Vec<Edge>) -> (usize, Vec<Edge>) {
    let list = List::of(edges);
    (list.as_slice().len(), list.into_vec())
}

fn edge() -> (Edge, Filter) {
    let edge = Edge {
        kind: KindId(0),
        source: VertexId(0),
        target: VertexId(1),
        weight: 2,
        first: 3,
        recent: 4,
    };
    let filter = Filter {
        kind: Some(KindId(0)),
        lo: 3,
        hi: 4,
    };
    (edge, filter)
}

fn pushes(alloc: Global, op: NamedOp) -> (Result<(), PushError>, usize, usize, bool) {
    let mut batch = Batch::new(alloc);
    let pushed = batch.push(op);
    (pushed, batch.len(), batch.ops().len(), batch.has_expire())
}

fn expires(time: u64) -> (NamedOp, Outcome) {
    (NamedOp::Expire { time }, Outcome::Expired(0))
}

// The copy of the pins by which a collection goes.
fn copies(pin: Option<u64>) -> (u64, bool) {
    let copy = PinCopy {
        last: 7,
        settled: [pin; 16],
        unsettled: [None; 16],
    };
    (copy.floor(), copy.needs(1, 2))
}

fn incr(kind: Name, source: Name, target: Name) -> NamedOp {
    NamedOp::Incr {
        kind,
        source,
        target,
        amount: 1,
        time: 2,
    }
}

fn requests(source: Name, filter: NamedFilter) -> Request {
    Request::Levels { source, filter }
}

fn degrees_of(reply: &Reply) -> Option<&[(Name, Degree)]> {
    match reply {
        Reply::Degrees(rows) => Some(rows.as_slice()),
        _ => None,
    }
}

fn applies(alloc: Global, content: &mut Content, batch: &Batch) -> Result<Vec<Outcome>, ApplyError>
    requires { IsContentIn standard_limits content.old }
{
    plain_apply(alloc, content, batch)
}

fn answers(alloc: Global, content: &Content, request: &Request) -> Result<Reply, AskError>
    requires { IsContentIn standard_limits content.now }
{
    plain_reply(alloc, content, request)
}
