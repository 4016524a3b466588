//! Labels, by joined trees.

ghost use Rattle.std.specs.Prelude.{◌≡◌, ◌<◌, ◌≤◌, ℕ, length, All, IfOk, OnOk};
ghost use Rattle.std.specs.List.{range_with_len};
ghost use Rattle.graph_types.specs.Analyses.{AreLabels, Joins, Connects};
ghost use Rattle.graph_types.specs.Graph.{Graph};
ghost use Rattle.graph_types.specs.declared.ids.Filter.{Filter};
ghost use Rattle.graph_levels.specs.Forest.{parent, IsForest, IsSoundForest, Respects};

use graph_version::ViewEdges;
use std::alloc::{AllocError, Global};

/// The root of a vertex. The path to it gets shorter: each vertex on it is put below its parent's parent.
fn find(parents: &mut [u32], start: u32) -> u32
    requires forest { IsForest parents.old }
    requires within { start < length parents.old }
    ensures forest { IsForest parents.new }
    ensures root { parent parents.new result ≡ result }
    ensures low { result ≤ start }
    ensures coarser { (label : ℕ → ℕ) → Respects parents.new label → Respects parents.old label × (label start ≡ label result) }
    ensures roots { (v : ℕ) → parent parents.old v ≡ v → parent parents.new v ≡ v }
    ensures sound { (f : Filter) (g : Graph) → IsSoundForest f g parents.old → IsSoundForest f g parents.new × Connects f g result start }
{
    let mut vertex = start;
    while parents[vertex as usize] != vertex {
        let above = parents[parents[vertex as usize] as usize];
        parents[vertex as usize] = above;
        vertex = above;
    }
    vertex
}

/// Joins the trees of two vertices: the greater root is put below the lesser. Two with one parent are joined already, as most
/// are in a graph of one large part.
fn join(parents: &mut [u32], a: u32, b: u32)
    requires forest { IsForest parents.old }
    requires a_within { a < length parents.old }
    requires b_within { b < length parents.old }
    ensures forest { IsForest parents.new }
    ensures coarser { (label : ℕ → ℕ) → Respects parents.new label → Respects parents.old label × (label a ≡ label b) }
    ensures sound { (f : Filter) (g : Graph) → IsSoundForest f g parents.old → Joins f g a b → IsSoundForest f g parents.new }
{
    if parents[a as usize] == parents[b as usize] {
        return;
    }
    let first = find(parents, a);
    let second = find(parents, b);
    if first < second {
        parents[second as usize] = first;
    } else {
        parents[first as usize] = second;
    }
}

/// Joins the trees of a vertex and of the targets.
fn join_all(parents: &mut [u32], vertex: u32, targets: &[u32])
    requires forest { IsForest parents.old }
    requires vertex_within { vertex < length parents.old }
    requires targets_within { All (λ v. v < length parents.old) targets.now }
    ensures forest { IsForest parents.new }
    ensures coarser { (label : ℕ → ℕ) → Respects parents.new label
        → Respects parents.old label × All (λ v. label vertex ≡ label v) targets.now }
    ensures sound { (f : Filter) (g : Graph) → IsSoundForest f g parents.old → All (λ v. Joins f g vertex v) targets.now
        → IsSoundForest f g parents.new }
{
    for target in targets {
        join(parents, vertex, *target);
    }
}

/// Puts each vertex right below its root.
fn flatten(parents: &mut [u32])
    requires { IsForest parents.old }
    ensures forest { IsForest parents.new }
    ensures flat { (v : ℕ) → parent parents.new (parent parents.new v) ≡ parent parents.new v }
    ensures coarser { (label : ℕ → ℕ) → Respects parents.new label → Respects parents.old label }
    ensures sound { (f : Filter) (g : Graph) → IsSoundForest f g parents.old → IsSoundForest f g parents.new }
{
    for vertex in 0..parents.len() {
        parents[vertex] = parents[parents[vertex] as usize];
    }
}

/// Joins along each edge of the view, and puts each vertex right below its root.
fn settle<R: ViewEdges>(alloc: Global, edges: &R, parents: &mut [u32]) -> Result<(), AllocError>
    requires forest { IsForest parents.old }
    requires long { length parents.old ≡ length (R.graph edges.now).names }
    ensures labels { OnOk result (IsSoundForest (R.filter edges.now) (R.graph edges.now) parents.old
        → AreLabels (R.filter edges.now) (R.graph edges.now) parents.new) }
{
    let mut targets = Vec::new(alloc);
    for vertex in 0..edges.vertex_count() {
        let vertex = vertex as u32;
        edges.list_targets(vertex, &mut targets)?;
        join_all(parents, vertex, &targets);
    }
    flatten(parents);
    Ok(())
}

/// Each vertex as its own parent.
fn own_parents(alloc: Global, count: u32) -> Result<Vec<u32>, AllocError>
    ensures { IfOk result (λ parents. parents.items ≡ range_with_len 0 count) }
{
    let mut parents = Vec::with_capacity(alloc, count as usize)?;
    for vertex in 0..count {
        parents.push(vertex)?;
    }
    Ok(parents)
}

/// The label of each vertex, in number order: the least vertex to which edges of the view join it, each taken in either
/// direction.
///
/// Trees of vertices, joined along each edge (Tarjan, Efficiency of a good but not linear set union algorithm, 1975), with
/// the least vertex of a tree at its root. Each vertex is asked for its targets once. The table comes before the work;
/// beside it there is one vertex's targets. The only error is out of memory.
pub fn labels_over<R: ViewEdges>(alloc: Global, edges: &R) -> Result<Vec<u32>, AllocError>
    ensures { IfOk result (λ labels. AreLabels (R.filter edges.now) (R.graph edges.now) labels.items) }
{
    let count = edges.vertex_count() as u32;
    let mut labels = own_parents(alloc, count)?;
    settle(alloc, edges, &mut labels)?;
    Ok(labels)
}
