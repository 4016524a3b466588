//! Levels, by frontiers.

ghost use Rattle.std.specs.Prelude.{◌≡◌, ◌<◌, ◌≤◌, ◌+◌, ◌*◌, ◌/◌, ℕ, List, [], length, drop, replicate, All, IfOk, OnOk};
ghost use Rattle.std.specs.Prelude.{IfSome, nat_lt, not, true, false, ◌&&◌};
ghost use Rattle.graph_types.specs.Limits.{most_names};
ghost use Rattle.graph_levels.specs.Near as near;
ghost use Rattle.graph_levels.specs.Near.{AreFoundFor};
ghost use Rattle.graph_levels.specs.Reached as reached;
ghost use Rattle.graph_levels.specs.Reached.{AreRows, AreVertexMarks, met, level_table, vertices_of};
ghost use Rattle.graph_levels.specs.Search.{IsCutSearch, IsSearch};

use crate::marks::{WORD, is_marked, mark};
use crate::steps::Steps;
use graph_types::VertexId;
use std::alloc::{AllocError, Global};

/// Adds a row with the level for each target that isn't marked, and marks it.
fn visit(
    marks: &mut [u64],
    rows: &mut Vec<(VertexId, u32)>,
    targets: &[u32],
    level: u32,
) -> Result<(), AllocError>
    requires within { All (λ v. v / 64 < length marks.old) targets.now }
    requires marks { AreVertexMarks marks.old rows.old.items }
    ensures rows { OnOk result (rows.new.items ≡ met level targets.now rows.old.items) }
    ensures marks { OnOk result (AreVertexMarks marks.new rows.new.items) }
{
    for target in targets {
        if !is_marked(marks, *target) {
            mark(marks, *target);
            rows.push((VertexId(*target), level))?;
        }
    }
    Ok(())
}

/// Whether there is a vertex to be reached, and it stands in a row.
fn is_found(marks: &[u64], rows: &[(VertexId, u32)], until: Option<u32>) -> bool
    requires marks { AreVertexMarks marks.now rows.now }
    requires within { IfSome until (λ t. t / 64 < length marks.now) }
    ensures { result ≡ reached.is_found rows.now until }
{
    match until {
        Some(vertex) => is_marked(marks, vertex),
        None => false,
    }
}

/// Adds the next frontier: the vertices without a row to which a step leads from the rows that stand behind the first ones,
/// which are this frontier. Each gets the level after `depth`, which is this frontier's. Once the vertex `until` has a row it goes
/// no further, and tells so.
fn advance<S: Steps>(
    steps: &S,
    marks: &mut [u64],
    rows: &mut Vec<(VertexId, u32)>,
    next: &mut Vec<u32>,
    first: usize,
    depth: u32,
    until: Option<u32>,
) -> Result<bool, AllocError>
    requires words { S.vertices steps.now ≤ 64 * length marks.old }
    requires within { (a b : ℕ) → S.leads steps.now a b → (a < S.vertices steps.now) × (b < S.vertices steps.now) }
    requires few { depth < most_names }
    requires until { IfSome until (λ t. t < S.vertices steps.now) }
    requires marks { AreVertexMarks marks.old rows.old.items }
    requires rows { AreRows (S.vertices steps.now) rows.old.items }
    ensures marks { OnOk result (AreVertexMarks marks.new rows.new.items) }
    ensures rows { OnOk result (AreRows (S.vertices steps.now) rows.new.items) }
    ensures more { OnOk result (length rows.old.items ≤ length rows.new.items) }
    ensures search { IfOk result (λ found. found ≡ false → (sources : List ℕ)
        → IsSearch (S.leads steps.now) sources (level_table (S.vertices steps.now) rows.old.items)
        (vertices_of (drop first rows.old.items)) [] depth
        → IsSearch (S.leads steps.now) sources (level_table (S.vertices steps.now) rows.new.items)
        [] (vertices_of (drop (length rows.old.items) rows.new.items)) depth) }
    ensures early { IfOk result (λ found. found ≡ true → (reached.is_found rows.new.items until ≡ true)
        × ((sources : List ℕ) → IsSearch (S.leads steps.now) sources (level_table (S.vertices steps.now) rows.old.items)
        (vertices_of (drop first rows.old.items)) [] depth
        → IsCutSearch (S.leads steps.now) sources (level_table (S.vertices steps.now) rows.new.items) depth)) }
{
    for place in first..rows.len() {
        steps.list_next(rows[place].0.0, next)?;
        visit(marks, rows, next, depth + 1)?;
        if is_found(marks, rows, until) {
            return Ok(true);
        }
    }
    Ok(false)
}

/// Whether a level is below the bound, if there is one.
fn is_below(level: u32, most: Option<u32>) -> bool
    ensures { result ≡ near.is_below level most }
{
    match most {
        Some(most) => level < most,
        None => true,
    }
}

/// Whether a search goes on: a frontier is left, its level is below the bound, and what was to be reached isn't yet.
fn goes_on(first: usize, end: usize, depth: u32, most: Option<u32>, found: bool) -> bool
    ensures { result ≡ (nat_lt first end && near.is_below depth most && not found) }
{
    first < end && is_below(depth, most) && !found
}

/// The vertices that a walk reaches from the sources, within the bound if there is one, each with its level, in the order in
/// which they are found. Each of them is marked. Once the vertex `until` is reached, it goes no further.
fn reach<S: Steps>(
    alloc: Global,
    steps: &S,
    marks: &mut [u64],
    sources: &[u32],
    most: Option<u32>,
    until: Option<u32>,
) -> Result<Vec<(VertexId, u32)>, AllocError>
    requires sources { All (λ s. s < S.vertices steps.now) sources.now }
    requires until { IfSome until (λ t. t < S.vertices steps.now) }
    requires fresh { marks.old ≡ replicate (S.vertices steps.now / 64 + 1) 0 }
    requires within { (a b : ℕ) → S.leads steps.now a b → (a < S.vertices steps.now) × (b < S.vertices steps.now) }
    requires few { S.vertices steps.now ≤ most_names }
    ensures levels { IfOk result (λ rows. AreFoundFor (S.vertices steps.now) (S.leads steps.now) sources.now most until
        (level_table (S.vertices steps.now) rows.items)) }
    ensures rows { IfOk result (λ rows. AreRows (S.vertices steps.now) rows.items) }
{
    let mut rows = Vec::new(alloc);
    visit(marks, &mut rows, sources, 0)?;
    let mut next = Vec::new(alloc);
    let mut first = 0;
    let mut depth = 0;
    'frontiers: while goes_on(
        first,
        rows.len(),
        depth,
        most,
        is_found(marks, &rows, until),
    ) {
        let end = rows.len();
        if advance(steps, marks, &mut rows, &mut next, first, depth, until)? {
            return Ok(rows);
        }
        first = end;
        depth += 1;
    }
    Ok(rows)
}

/// The vertices that a walk reaches from the sources, within the bound if there is one, each with its level, in the order in
/// which they are found; it goes no further once it reached the vertex `until`. Beside them it takes a bit for each vertex, and
/// where steps lead from one vertex.
pub(crate) fn search<S: Steps>(
    alloc: Global,
    steps: &S,
    sources: &[u32],
    most: Option<u32>,
    until: Option<u32>,
) -> Result<Vec<(VertexId, u32)>, AllocError>
    requires sources { All (λ s. s < S.vertices steps.now) sources.now }
    requires until { IfSome until (λ t. t < S.vertices steps.now) }
    ensures levels { IfOk result (λ rows. AreFoundFor (S.vertices steps.now) (S.leads steps.now) sources.now most until
        (level_table (S.vertices steps.now) rows.items)) }
    ensures rows { IfOk result (λ rows. AreRows (S.vertices steps.now) rows.items) }
{
    let mut marks = vec![in alloc; 0; steps.vertex_count() / WORD + 1]?;
    reach(alloc, steps, &mut marks, sources, most, until)
}
