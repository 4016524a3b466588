//! The answer with names.

ghost use Rattle.std.specs.Prelude.{◌≡◌, ◌⊎◌, ℕ, List, Err};
ghost use Rattle.graph_types.specs.Answer.{IsAnswer};
ghost use Rattle.graph_types.specs.declared.requests.Request.TheVariants.{OneEdge};
ghost use Rattle.graph_version.specs.Versions.{content};

use crate::naming::name_reply;
use crate::numbered::answer_in_numbers;
use graph_types::{AskError, Reply, Request};
use graph_version::Version;
use std::alloc::Global;

/// The answer to a request over a version's content: the first refusal that holds (`BadWindow`, `NoKind`, `NoVertex`), or
/// else the reply; `OutOfMemory` where a growth was refused, and never for one edge.
///
/// It is [`answer_in_numbers`] with names put in, one copy of a name's text for each row, and two for each label.
#[tactic(auto, using(crate::proofs::NamedRows::named_reply))]
pub fn answer(alloc: Global, version: &Version, request: &Request) -> Result<Reply, AskError>
    ensures answer { (result ≡ Err AskError.OutOfMemory) ⊎ IsAnswer request.now (content version.now) result }
    ensures one_edge { (kind source target : List ℕ) → request.now ≡ OneEdge kind source target
        → IsAnswer request.now (content version.now) result }
{
    let reply = answer_in_numbers(alloc, version, request)?;
    Ok(name_reply(alloc, version, reply)?)
}
