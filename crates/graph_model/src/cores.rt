//! Core numbers.

ghost use Rattle.std.specs.Prelude.{◌≡◌, ◌<◌, ◌≤◌, ◌⊎◌, ℕ, suc, length, count_by, replicate, All, IfOk, sum, true, false};
ghost use Rattle.graph_types.specs.Limits.{most_names};
ghost use Rattle.graph_types.specs.Graph.{graph_of, IsContent};
ghost use Rattle.graph_types.specs.Analyses.{AreCoreNumbers};
ghost use Rattle.graph_types.specs.Arcs.{AreWithin, at};
ghost use Rattle.graph_model.specs.Links.{AreLinks};
ghost use Rattle.graph_model.specs.Links as definition;

use crate::arcs::{arcs_of, two_way};
use graph_types::{Content, Filter};
use std::alloc::{AllocError, Global};

/// The core number of each vertex, in number order: the greatest k for which it is in a set of vertices of which each has
/// at least k different others of the set as neighbors, by edges that the filter lets through, in either direction.
///
/// Numbers start from how many neighbors there are. In each round those fall by one that fewer neighbors have as much as
/// (Montresor, De Pellegrini, Miorandi, Distributed k-core decomposition, 2013, lower them all the way), until none does.
/// A round is a pass over the edges. The only error is that memory runs out for some tables and a list of the view's edges.
pub fn plain_cores(alloc: Global, content: &Content, filter: Filter) -> Result<Vec<u32>, AllocError>
    requires { IsContent content.now }
    ensures { IfOk result (λ cores. AreCoreNumbers filter (graph_of content.now) cores.items) }
{
    let count = content.names.as_slice().len();
    let links = links_of(alloc, content, filter)?;
    let zeros = all_zero(alloc, count)?;
    let mut numbers = supports(alloc, &links, &zeros)?;
    'rounds: loop {
        let enough = supports(alloc, &links, &numbers)?;
        if !lower_once(&mut numbers, &enough) {
            break;
        }
    }
    shortened(alloc, &numbers)
}

/// No neighbors yet.
fn all_zero(alloc: Global, count: usize) -> Result<Vec<usize>, AllocError>
    ensures { IfOk result (λ zeros. zeros.items ≡ replicate count 0) }
{
    vec![in alloc; 0; count]
}

/// The two ends of each edge that the filter lets through, both ways, without loops and each pair once, sorted.
fn links_of(alloc: Global, content: &Content, filter: Filter) -> Result<Vec<(u32, u32)>, AllocError>
    requires { IsContent content.now }
    ensures links { IfOk result (λ links. AreLinks filter (graph_of content.now) links.items) }
    ensures within { IfOk result (λ links. AreWithin (length content.now.names) links.items) }
{
    let arcs = arcs_of(alloc, content, filter)?;
    let mut links = two_way(alloc, &arcs)?;
    links.retain(|link| link.0 != link.1);
    links.sort_unstable();
    links.dedup();
    Ok(links)
}

/// How many links lead from each vertex to one of at least its number.
#[tactic(auto, using(crate::proofs::Rounds::count_kept, crate::proofs::Rounds::count_counted, crate::proofs::Rounds::count_room))]
fn supports(
    alloc: Global,
    links: &[(u32, u32)],
    numbers: &[usize],
) -> Result<Vec<usize>, AllocError>
    requires { AreWithin (length numbers.now) links.now }
    ensures size { IfOk result (λ supports. length supports.items ≡ length numbers.now) }
    ensures counted { IfOk result (λ supports. (v : ℕ)
        → at supports.items v ≡ count_by (definition.supports numbers.now v) links.now) }
{
    let mut supports = vec![in alloc; 0; numbers.len()]?;
    for link in links {
        if numbers[link.0 as usize] <= numbers[link.1 as usize] {
            supports[link.0 as usize] += 1;
        }
    }
    Ok(supports)
}

/// Each number that is greater than its support falls by one. Tells whether there was one.
#[tactic(auto, using(crate::proofs::Rounds::round_start, crate::proofs::Rounds::round_kept, crate::proofs::Rounds::round_lowered))]
fn lower_once(numbers: &mut [usize], supports: &[usize]) -> bool
    requires { length supports.now ≡ length numbers.old }
    ensures size { length numbers.new ≡ length numbers.old }
    ensures each { (v : ℕ) → (at numbers.new v ≡ at numbers.old v)
        ⊎ ((suc (at numbers.new v) ≡ at numbers.old v) × (at supports.now v < at numbers.old v)) }
    ensures falls { result ≡ true → sum numbers.new < sum numbers.old }
    ensures stays { result ≡ false → (numbers.new ≡ numbers.old) × ((v : ℕ) → at numbers.old v ≤ at supports.now v) }
{
    let mut lowered = false;
    for vertex in 0..numbers.len() {
        if supports[vertex] < numbers[vertex] {
            numbers[vertex] -= 1;
            lowered = true;
        }
    }
    lowered
}

/// The same numbers, which are at most as many as there are vertices, in 32 bits.
fn shortened(alloc: Global, numbers: &[usize]) -> Result<Vec<u32>, AllocError>
    requires { All (λ number. number ≤ most_names) numbers.now }
    ensures { IfOk result (λ short. short.items ≡ numbers.now) }
{
    let mut short = Vec::with_capacity(alloc, numbers.len())?;
    for number in numbers {
        short.push(*number as u32)?;
    }
    Ok(short)
}
