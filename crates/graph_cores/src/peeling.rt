//! Core numbers, by peeling.

ghost use Rattle.std.specs.Prelude.{◌≡◌, ◌<◌, ◌≤◌, ◌++◌, ℕ, [], length, All, IfOk, OnOk, IsTrue, filter, replicate, true};
ghost use Rattle.std.specs.List.{Contains};
ghost use Rattle.graph_types.specs.Analyses.{AreCoreNumbers, IsCoreNumber, IsTable};
ghost use Rattle.graph_types.specs.Arcs.{AreNeighbors, at};
ghost use Rattle.graph_types.specs.Graph.{Graph};
ghost use Rattle.graph_types.specs.Limits.{most_names};
ghost use Rattle.graph_types.specs.declared.ids.Filter.{Filter};
ghost use Rattle.graph_cores.specs.Rows.{IsRows, neighbor_row};
ghost use Rattle.graph_cores.specs.Peel.{IsPeeling, is_alive, is_high, is_low, lowered};

use crate::rows::{Rows, neighbor_rows};
use graph_version::ViewEdges;
use std::alloc::{AllocError, Global};
use std::mem;

/// The core number of each vertex, in number order: the greatest k for which it is in a set of vertices of which each has
/// at least k different others of the set as neighbors, by edges of the view in either direction (Seidman, Network
/// structure and minimum degree, 1983, without asking that a core be connected).
///
/// Peeling in rounds of rising k: what has at most k neighbors left is taken out with the number k, until none has
/// (Matula, Beck, Smallest-last ordering and clustering and graph coloring algorithms, 1983). Each vertex is asked for its
/// targets once, and looked at once in each round up to its own, so the time is linear in the edges. All tables come before
/// the peeling: the links one way, twice the neighbors, and some numbers for each vertex. The only error is out of memory.
pub fn cores_over<E: ViewEdges>(alloc: Global, edges: &E) -> Result<Vec<u32>, AllocError>
    ensures { IfOk result (λ cores. AreCoreNumbers (E.filter edges.now) (E.graph edges.now) cores.items) }
{
    let count = edges.vertex_count();
    let rows = neighbor_rows(alloc, edges)?;
    peel(alloc, &rows, count)
}

/// The core number of each vertex, from its neighbors.
fn peel(alloc: Global, rows: &Rows, count: usize) -> Result<Vec<u32>, AllocError>
    requires rows { IsRows count rows.now }
    requires few { count ≤ most_names }
    requires short { (v : ℕ) → length (neighbor_row rows.now v) ≤ count }
    ensures { IfOk result (λ cores. (f : Filter) (g : Graph) → AreNeighbors f g (neighbor_row rows.now)
        → IsTable count (IsCoreNumber f g) cores.items) }
{
    let vertices = numbers(alloc, count as u32)?;
    let mut degrees = lengths(alloc, rows, count)?;
    let mut alive = vec![in alloc; true; count]?;
    let mut cores = vec![in alloc; 0; count]?;
    rounds(alloc, rows, &mut alive, &mut degrees, &mut cores, vertices)?;
    Ok(cores)
}

/// Peels in rounds until none is left: none has more neighbors than there are vertices.
fn rounds(
    alloc: Global,
    rows: &Rows,
    alive: &mut [bool],
    degrees: &mut [u32],
    cores: &mut [u32],
    vertices: Vec<u32>,
) -> Result<(), AllocError>
    requires rows { IsRows (length cores.old) rows.now }
    requires few { length cores.old ≤ most_names }
    requires short { (v : ℕ) → length (neighbor_row rows.now v) ≤ length cores.old }
    requires alive { alive.old ≡ replicate (length cores.old) true }
    requires degrees_long { length degrees.old ≡ length cores.old }
    requires degrees { (v : ℕ) → at degrees.old v ≡ length (neighbor_row rows.now v) }
    requires vertices_within { All (λ w. w < length cores.old) vertices.items }
    requires vertices { (v : ℕ) → v < length cores.old → Contains vertices.items v }
    ensures { OnOk result ((f : Filter) (g : Graph) → AreNeighbors f g (neighbor_row rows.now)
        → IsTable (length cores.old) (IsCoreNumber f g) cores.new) }
{
    let mut left = vertices;
    let mut more = Vec::with_capacity(alloc, cores.len())?;
    let mut stack = Vec::with_capacity(alloc, cores.len())?;
    for k in 0..cores.len() as u32 + 1 {
        if left.is_empty() {
            return Ok(());
        }
        more.clear();
        split(alive, degrees, &left, &mut stack, &mut more, k)?;
        mem::swap(&mut left, &mut more);
        peel_level(rows, alive, degrees, cores, &mut stack, k)?;
    }
    Ok(())
}

/// Puts those that are left on the stack, where they have at most k neighbors left, and otherwise into `more`.
fn split(
    alive: &[bool],
    degrees: &[u32],
    from: &[u32],
    stack: &mut Vec<u32>,
    more: &mut Vec<u32>,
    k: u32,
) -> Result<(), AllocError>
    requires alive { All (λ w. w < length alive.now) from.now }
    requires degrees { All (λ w. w < length degrees.now) from.now }
    ensures low { OnOk result (stack.new.items ≡ stack.old.items ++ filter (is_low alive.now degrees.now k) from.now) }
    ensures high { OnOk result (more.new.items ≡ more.old.items ++ filter (is_high alive.now degrees.now k) from.now) }
{
    for vertex in from {
        let place = *vertex as usize;
        if alive[place] {
            if degrees[place] <= k {
                stack.push(*vertex)?;
            } else {
                more.push(*vertex)?;
            }
        }
    }
    Ok(())
}

/// Takes out what the stack has, and what that leaves with at most k neighbors.
fn peel_level(
    rows: &Rows,
    alive: &mut [bool],
    degrees: &mut [u32],
    cores: &mut [u32],
    stack: &mut Vec<u32>,
    k: u32,
) -> Result<(), AllocError>
    requires rows { IsRows (length cores.old) rows.now }
    requires alive { length alive.old ≡ length cores.old }
    requires degrees { length degrees.old ≡ length cores.old }
    requires stack { All (λ w. w < length cores.old) stack.old.items }
    requires few { k ≤ most_names }
    ensures shrinks { OnOk result ((v : ℕ) → (IsTrue (is_alive alive.new v) → IsTrue (is_alive alive.old v))
        × (at degrees.new v ≤ at degrees.old v)) }
    ensures empty { OnOk result (stack.new.items ≡ []) }
    ensures peeling { OnOk result ((f : Filter) (g : Graph) → AreNeighbors f g (neighbor_row rows.now)
        → IsPeeling f g (length cores.old) (neighbor_row rows.now) alive.old degrees.old cores.old stack.old.items k
        → IsPeeling f g (length cores.old) (neighbor_row rows.now) alive.new degrees.new cores.new [] k) }
{
    while let Some(vertex) = stack.pop() {
        let place = vertex as usize;
        if alive[place] {
            let neighbors = rows.of(place, cores.len());
            alive[place] = false;
            cores[place] = k;
            lower(degrees, stack, neighbors, k)?;
        }
    }
    Ok(())
}

/// Takes one neighbor from each of these, and puts those that are left with k on the stack.
fn lower(
    degrees: &mut [u32],
    stack: &mut Vec<u32>,
    neighbors: &[u32],
    k: u32,
) -> Result<(), AllocError>
    requires within { All (λ w. w < length degrees.old) neighbors.now }
    requires few { k ≤ most_names }
    ensures { OnOk result ((degrees.new, stack.new.items) ≡ lowered k neighbors.now degrees.old stack.old.items) }
{
    for neighbor in neighbors {
        let vertex = *neighbor as usize;
        let degree = degrees[vertex];
        if degree == k + 1 {
            stack.push(*neighbor)?;
        }
        degrees[vertex] = degree.saturating_sub(1);
    }
    Ok(())
}

/// How many neighbors each vertex has.
fn lengths(alloc: Global, rows: &Rows, count: usize) -> Result<Vec<u32>, AllocError>
    requires rows { IsRows count rows.now }
    requires few { count ≤ most_names }
    requires short { (v : ℕ) → length (neighbor_row rows.now v) ≤ count }
    ensures long { IfOk result (λ degrees. length degrees.items ≡ count) }
    ensures each { IfOk result (λ degrees. (v : ℕ) → v < count → at degrees.items v ≡ length (neighbor_row rows.now v)) }
{
    let mut degrees = Vec::with_capacity(alloc, count)?;
    for vertex in 0..count {
        degrees.push(rows.of(vertex, count).len() as u32)?;
    }
    Ok(degrees)
}

/// The numbers below this one.
fn numbers(alloc: Global, count: u32) -> Result<Vec<u32>, AllocError>
    ensures long { IfOk result (λ numbers. length numbers.items ≡ count) }
    ensures each { IfOk result (λ numbers. (v : ℕ) → v < count → at numbers.items v ≡ v) }
{
    let mut numbers = Vec::with_capacity(alloc, count as usize)?;
    for number in 0..count {
        numbers.push(number)?;
    }
    Ok(numbers)
}
