//! Filters and requests made of texts.

ghost use Rattle.std.specs.Prelude.{◌≡◌, IfOk};
ghost use Rattle.std.specs.declared.option.Option.TheVariants.{None, Some};

use crate::{Name, NamedFilter, Request};
use std::alloc::{AllocError, Global};

impl NamedFilter {
    /// All edges: of any kind, and last touched at any time. It takes no memory.
    ///
    /// ```
    /// let parts = Request::labels(NamedFilter::all());
    /// ```
    pub fn all() -> NamedFilter
        ensures { result ≡ record { kind = None; lo = 0; hi = 18446744073709551615 } }
    {
        NamedFilter {
            kind: None,
            lo: 0,
            hi: u64::MAX,
        }
    }

    /// All edges of one kind. A text that names no kind is refused as `NoKind` by the graph that is asked.
    ///
    /// ```
    /// let degrees = Request::degrees(NamedFilter::of_kind(alloc, "road")?);
    /// ```
    pub fn of_kind(alloc: Global, kind: &str) -> Result<NamedFilter, AllocError>
        ensures { IfOk result (λ filter. filter ≡ record { kind = Some kind.now; lo = 0; hi = 18446744073709551615 }) }
    {
        Ok(NamedFilter {
            kind: Some(Name::from_str(alloc, kind)?),
            ..NamedFilter::all()
        })
    }

    /// The edges of the same kind, or of any, that were last touched from `lo` to `hi`, both included. A window that ends before
    /// it begins is refused as `BadWindow` by the graph that is asked. It takes no memory.
    ///
    /// ```
    /// let parts = Request::labels(NamedFilter::all().within(10, 20));
    /// ```
    pub fn within(self, lo: u64, hi: u64) -> NamedFilter
        ensures { result ≡ record { kind = self.kind; lo = lo; hi = hi } }
    {
        let mut filter = self;
        filter.lo = lo;
        filter.hi = hi;
        filter
    }
}

impl Request {
    /// Asks for the level of each vertex from the source over the filter's view. A text that names no vertex is refused as
    /// `NoVertex` by the graph that is asked. If memory runs out, the filter is dropped.
    ///
    /// ```
    /// let levels = Request::levels(alloc, "ann", NamedFilter::all())?;
    /// ```
    pub fn levels(alloc: Global, source: &str, filter: NamedFilter) -> Result<Request, AllocError>
        ensures { IfOk result (λ request. request ≡ Request.Levels source.now filter) }
    {
        Ok(Request::Levels {
            source: Name::from_str(alloc, source)?,
            filter,
        })
    }

    /// Asks for the label of each vertex over the filter's view. It takes no memory.
    ///
    /// ```
    /// let labels = Request::labels(NamedFilter::all());
    /// ```
    pub fn labels(filter: NamedFilter) -> Request
        ensures { result ≡ Request.Labels filter }
    {
        Request::Labels { filter }
    }

    /// Asks for the core number of each vertex over the filter's view. It takes no memory.
    ///
    /// ```
    /// let cores = Request::cores(NamedFilter::of_kind(alloc, "road")?);
    /// ```
    pub fn cores(filter: NamedFilter) -> Request
        ensures { result ≡ Request.Cores filter }
    {
        Request::Cores { filter }
    }

    /// Asks for the degrees of each vertex over the filter's view. It takes no memory.
    ///
    /// ```
    /// let degrees = Request::degrees(NamedFilter::all().within(0, 7));
    /// ```
    pub fn degrees(filter: NamedFilter) -> Request
        ensures { result ≡ Request.Degrees filter }
    {
        Request::Degrees { filter }
    }

    /// Asks for weight and times of one edge. A text that names no kind or no vertex is refused as `NoKind` or `NoVertex` by
    /// the graph that is asked.
    ///
    /// ```
    /// let edge = Request::one_edge(alloc, "knows", "ann", "bob")?;
    /// ```
    pub fn one_edge(
        alloc: Global,
        kind: &str,
        source: &str,
        target: &str,
    ) -> Result<Request, AllocError>
        ensures { IfOk result (λ request. request ≡ Request.OneEdge kind.now source.now target.now) }
    {
        Ok(Request::OneEdge {
            kind: Name::from_str(alloc, kind)?,
            source: Name::from_str(alloc, source)?,
            target: Name::from_str(alloc, target)?,
        })
    }
}
