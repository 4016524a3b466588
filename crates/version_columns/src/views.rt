//! Views, and what is refused.

ghost use Rattle.std.specs.Prelude.{◌≡◌};
ghost use Rattle.graph_version.specs.Versions.{content};
ghost use Rattle.version_columns.specs.Views as views;

use graph_types::{Filter, KindId};
use graph_version::Version;
use thiserror::Error;

/// What stands for any kind in a [`View`], and for a vertex to which no walk leads among levels.
pub const NO_NUMBER: u32 = u32::MAX;

/// Which edges count: those of one kind by its number, or of any where that is [`NO_NUMBER`], whose recent time is in
/// `from..=to`. Where `from` is greater there are none.
#[derive(Clone, Copy, Debug, PartialEq, Eq)]
#[repr(C)]
pub struct View {
    pub from: u64,
    pub to: u64,
    pub kind: u32,
}

/// Why nothing was told; the first that holds, in this order, and out of memory last.
#[derive(Clone, Copy, Debug, PartialEq, Eq, Error)]
pub enum ColumnError {
    #[error("the version has no such kind")]
    NoKind,
    #[error("the version has no such vertex")]
    NoVertex,
    #[error("the version has no such edge")]
    NoEdge,
    #[error("columns differ in length, or have no room")]
    BadLength,
    #[error("out of memory")]
    OutOfMemory,
}

/// The filter of a view, if its kind is one of the version's.
pub fn filter_of(version: &Version, view: &View) -> Option<Filter>
    ensures { result ≡ views.filter_of (content version.now) view.now }
{
    let kind = if view.kind == NO_NUMBER {
        None
    } else if (view.kind as usize) < version.kinds().len() {
        // The version tells with its limits that it has at most 64 kinds.
        let _limits = version.limits();
        Some(KindId(view.kind as u8))
    } else {
        return None;
    };
    Some(Filter {
        kind,
        lo: view.from,
        hi: view.to,
    })
}
