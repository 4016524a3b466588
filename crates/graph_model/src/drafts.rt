//! A content while operations are applied to it.

ghost use Rattle.std.specs.Prelude.{◌≡◌, IfOk, OnOk, IfErr};
ghost use Rattle.graph_types.specs.Changes.{AllowsUpTo, IsChange};
ghost use Rattle.graph_types.specs.Graph.{graph_in, IsContentIn};
ghost use Rattle.graph_types.specs.Step as step;
ghost use Rattle.graph_types.specs.Valid.{IsValid};
ghost use Rattle.graph_model.specs.Drafts.{shown_by};
ghost use Rattle.graph_model.specs.Refusals.{Exceeds};
ghost use Rattle.graph_types.specs.declared.batches.NamedOp.TheVariants.{Expire};

use crate::edges::{EdgeKey, clear_before, marks_at, put_at};
use crate::names::{make_kind, make_names, number_of};
use graph_types::{
    ApplyError, Content, Edge, EdgeChange, Limits, List, Name, NamedOp, OpParts, Outcome,
    change_edge, parts_in,
};
use std::alloc::{AllocError, Global};

/// A copy of a content, whose lists can grow.
#[derive(Drop)]
pub(crate) struct Draft {
    names: Vec<Name>,
    kinds: Vec<Name>,
    edges: Vec<Edge>,
}

impl Draft {
    /// A copy of the content.
    pub(crate) fn of(alloc: Global, content: &Content) -> Result<Draft, AllocError>
        ensures { IfOk result (λ draft. shown_by draft ≡ content.now) }
    {
        Ok(Draft {
            names: content.names.as_slice().to_vec(alloc)?,
            kinds: content.kinds.as_slice().to_vec(alloc)?,
            edges: content.edges.as_slice().to_vec(alloc)?,
        })
    }

    /// The content that this shows. It takes no memory.
    pub(crate) fn into_content(self) -> Content
        ensures { result ≡ shown_by self }
    {
        Content {
            names: List::of(self.names),
            kinds: List::of(self.kinds),
            edges: List::of(self.edges),
        }
    }

    /// Applies an operation. After an error the draft is of no use.
    ///
    /// `NamesFull` where it would leave more vertices than the limits allow, `KindsFull` where it would leave more kinds,
    /// and `OutOfMemory` where a growth was refused.
    #[tactic(auto, using(graph_types::proofs::OperationParts::outcome_is))]
    pub(crate) fn apply(&mut self, limits: Limits, op: &NamedOp) -> Result<Outcome, ApplyError>
        requires content { IsContentIn limits (shown_by self.old) }
        requires valid { IsValid op.now }
        ensures outcome { IfOk result (λ o. o ≡ step.outcome op.now (graph_in limits (shown_by self.old))) }
        ensures graph { OnOk result (graph_in limits (shown_by self.new) ≡ step.after op.now (graph_in limits (shown_by self.old))) }
        ensures content { OnOk result (IsContentIn limits (shown_by self.new)) }
        ensures refused { IfErr result (λ e. Exceeds e (step.after op.now (graph_in limits (shown_by self.old)))) }
    {
        match parts_in(op, limits.weight()) {
            OpParts::OfEdge(change, kind, source, target) => {
                self.change(limits, change, kind, source, target)
            }
            OpParts::OfAll(time) => Ok(self.expire(limits, time)),
        }
    }

    /// Takes away the edges that were last touched before a time, and answers by how many. It takes no memory.
    fn expire(&mut self, limits: Limits, time: u64) -> Outcome
        requires { IsContentIn limits (shown_by self.old) }
        ensures outcome { result ≡ step.outcome (Expire time) (graph_in limits (shown_by self.old)) }
        ensures graph { graph_in limits (shown_by self.new) ≡ step.after (Expire time) (graph_in limits (shown_by self.old)) }
        ensures content { IsContentIn limits (shown_by self.new) }
    {
        let before = self.edges.as_slice().len();
        clear_before(&mut self.edges, time);
        let after = self.edges.as_slice().len();
        Outcome::Expired((before - after) as u64)
    }

    /// Changes the edge of this kind between these vertices, with the errors of an operation.
    fn change(
        &mut self,
        limits: Limits,
        change: EdgeChange,
        kind: &Name,
        source: &Name,
        target: &Name,
    ) -> Result<Outcome, ApplyError>
        requires content { IsContentIn limits (shown_by self.old) }
        requires change { IsChange change }
        requires most { AllowsUpTo limits.weight change }
        ensures outcome { IfOk result (λ o.
            o ≡ step.change_outcome change kind.now source.now target.now (graph_in limits (shown_by self.old))) }
        ensures graph { OnOk result
            (graph_in limits (shown_by self.new) ≡ step.changed change kind.now source.now target.now (graph_in limits (shown_by self.old))) }
        ensures content { OnOk result (IsContentIn limits (shown_by self.new)) }
        ensures refused { IfErr result (λ e.
            Exceeds e (step.changed change kind.now source.now target.now (graph_in limits (shown_by self.old)))) }
    {
        make_names(&mut self.names, limits.names(), change, source, target)?;
        make_kind(&mut self.kinds, limits.kinds(), change, kind)?;
        let key = EdgeKey::of(
            number_of(self.kinds.as_slice(), kind),
            number_of(self.names.as_slice(), source),
            number_of(self.names.as_slice(), target),
        );
        let before = marks_at(self.edges.as_slice(), key);
        let (outcome, after) = change_edge(change, before);
        put_at(&mut self.edges, key, after)?;
        Ok(outcome)
    }
}
