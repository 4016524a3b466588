//! Marks of vertices, one bit each.

ghost use Rattle.std.specs.Prelude.{◌≡◌, ◌≢◌, ◌↔◌, ◌<◌, ◌/◌, ℕ, IsTrue, length};
ghost use Rattle.graph_levels.specs.Reached.{IsMarked};

/// How many vertices a word marks.
pub(crate) const WORD: usize = 64;

/// Whether a vertex is marked.
#[inline(always)]
pub(crate) fn is_marked(marks: &[u64], vertex: u32) -> bool
    requires { vertex / 64 < length marks.now }
    ensures { IsTrue result ↔ IsMarked marks.now vertex }
{
    (marks[vertex as usize / WORD] >> (vertex % 64)) & 1 == 1
}

/// Marks a vertex.
#[inline(always)]
pub(crate) fn mark(marks: &mut [u64], vertex: u32)
    requires { vertex / 64 < length marks.old }
    ensures marked { IsMarked marks.new vertex }
    ensures others { (v : ℕ) → v ≢ vertex → (IsMarked marks.new v ↔ IsMarked marks.old v) }
{
    marks[vertex as usize / WORD] |= 1 << (vertex % 64);
}
