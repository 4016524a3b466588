//! The numbers of a batch's names, each operation by the names at its place.

ghost use Rattle.std.specs.Prelude.{◌≡◌, ◌≤◌, ◌<◌, ◌∷◌, ℕ, List, [], length, IfOk, IfErr, OnOk, IfSome, Some, IsTrue, All};
ghost use Rattle.graph_types.specs.Step.{with_name};
ghost use Rattle.edge_block.specs.Batches.{AtKey, resolve_parts};
ghost use Rattle.vertex_names.specs.Book.{Book};
ghost use Rattle.graph_types.specs.declared.batches.NamedOp.{NamedOp};
ghost use Rattle.graph_types.specs.Valid.{is_name, is_kind_name, has_names, IsValid};
ghost use Rattle.std.specs.Option.{option_map};
ghost use Rattle.graph_types.specs.Parts.{parts_in, names_after, kinds_after, names_after_all};
ghost use Rattle.graph_types.specs.Limits.{weight_limit};
ghost use Rattle.batch_apply.specs.Plan.{known, key_from, key_shown, shown_op, with_names, ends_made, kind_made};
ghost use Rattle.batch_apply.specs.Plan.{Fits, WasFound, IsSeen, IsInRange, IsRefusal, IsUnplanned};

use graph_types::{ApplyError, EdgeChange, KindId, MOST_WEIGHT, NamedOp, OpParts, parts_in};
use vertex_names::{AddError, NameBook, is_same_name};

/// The numbers of an operation's source and target: none where a name has not appeared.
#[derive(Clone, Copy, Debug)]
pub struct Ends {
    pub source: Option<u32>,
    pub target: Option<u32>,
}

/// Which edge: the numbers of its kind, its source and its target.
#[derive(Clone, Copy, Debug)]
pub struct EdgeKey {
    pub kind: KindId,
    pub source: u32,
    pub target: u32,
}

/// An operation with its names resolved.
#[derive(Clone, Copy, Debug)]
pub enum ResolvedOp {
    /// Its source's number and its edge's key, none where a name has not appeared, and what it does to the edge.
    Edge(Option<u32>, Option<EdgeKey>, EdgeChange),
    /// It expires the edges that were last touched before a time.
    Expire(u64),
}

/// The number of a name, which is added. It may have been found before: a name keeps its number.
fn add_name(names: &mut NameBook, name: &str, found: Option<u32>) -> Result<u32, AddError>
    requires within { Fits names.old }
    requires name { IsTrue (is_name name.now) }
    requires found { IfSome found (λ number. known names.old.names name.now ≡ Some number) }
    ensures number { IfOk result (λ number. known (with_name names.old.names name.now) name.now ≡ Some number) }
    ensures names { OnOk result (names.new ≡ with_names names.old (with_name names.old.names name.now)) }
    ensures within { OnOk result (Fits names.new) }
    ensures refused { IfErr result (λ error. IsRefusal error names.old (with_name names.old.names name.now)) }
{
    match found {
        Some(number) => Ok(number),
        None => names.add(name),
    }
}

/// The numbers of two names, which are added, the source before the target. Some may have been found before.
fn add_ends(names: &mut NameBook, source: &str, target: &str, found: Ends) -> Result<Ends, AddError>
    requires within { Fits names.old }
    requires source { IsTrue (is_name source.now) }
    requires target { IsTrue (is_name target.now) }
    requires found_source { IfSome found.source (λ number. known names.old.names source.now ≡ Some number) }
    requires found_target { IfSome found.target (λ number. known names.old.names target.now ≡ Some number) }
    ensures ends { let after = with_name (with_name names.old.names source.now) target.now in
        IfOk result (λ e. e ≡ record { source = known after source.now; target = known after target.now }) }
    ensures names { OnOk result (names.new ≡ with_names names.old (with_name (with_name names.old.names source.now) target.now)) }
    ensures within { OnOk result (Fits names.new) }
    ensures refused { IfErr result (λ error. IsRefusal error names.old
        (with_name (with_name names.old.names source.now) target.now)) }
{
    let source = add_name(names, source, found.source)?;
    let target = add_name(names, target, found.target)?;
    Ok(Ends {
        source: Some(source),
        target: Some(target),
    })
}

/// The number of a name, where it has appeared. It may have been found before.
fn find_name(names: &NameBook, name: &str, found: Option<u32>) -> Option<u32>
    requires { IfSome found (λ number. known names.now.names name.now ≡ Some number) }
    ensures { result ≡ known names.now.names name.now }
{
    match found {
        Some(number) => Some(number),
        None => names.number(name),
    }
}

/// The numbers of an edge's ends, of which some may have been found before; where its change makes names, they are added first.
fn edge_ends(
    names: &mut NameBook,
    makes: bool,
    source: &str,
    target: &str,
    found: Ends,
) -> Result<Ends, AddError>
    requires within { Fits names.old }
    requires source { IsTrue (is_name source.now) }
    requires target { IsTrue (is_name target.now) }
    requires found_source { IfSome found.source (λ number. known names.old.names source.now ≡ Some number) }
    requires found_target { IfSome found.target (λ number. known names.old.names target.now ≡ Some number) }
    ensures ends { let after = ends_made makes source.now target.now names.old.names in
        IfOk result (λ e. e ≡ record { source = known after source.now; target = known after target.now }) }
    ensures names { OnOk result (names.new ≡ with_names names.old (ends_made makes source.now target.now names.old.names)) }
    ensures within { OnOk result (Fits names.new) }
    ensures refused { IfErr result (λ error. IsRefusal error names.old (ends_made makes source.now target.now names.old.names)) }
{
    if makes {
        return add_ends(names, source, target, found);
    }
    Ok(Ends {
        source: find_name(names, source, found.source),
        target: find_name(names, target, found.target),
    })
}

/// A kind's text and its number.
#[derive(Clone, Copy)]
pub struct SeenKind<'a> {
    pub text: &'a str,
    pub number: KindId,
}

/// The number of a kind, if it was seen before: a name keeps its number.
fn if_seen(kind: &str, seen: Option<SeenKind<'_>>) -> Option<u32>
    ensures { (kinds : List (List ℕ)) → IsSeen kinds seen.entry → IfSome result (λ n. known kinds kind.now ≡ Some n) }
{
    let seen = seen?;
    if is_same_name(seen.text, kind) {
        Some(u32::from(seen.number.0))
    } else {
        None
    }
}

/// The number of an edge's kind, which may have been found before; where the edge's change makes names, it is added first.
fn kind_number(
    kinds: &mut NameBook,
    makes: bool,
    kind: &str,
    found: Option<u32>,
) -> Result<Option<u32>, AddError>
    requires within { Fits kinds.old }
    requires kind { IsTrue (is_name kind.now) }
    requires found { IfSome found (λ n. known kinds.old.names kind.now ≡ Some n) }
    ensures number { IfOk result (λ n. n ≡ known (kind_made makes kind.now kinds.old.names) kind.now) }
    ensures kinds { OnOk result (kinds.new ≡ with_names kinds.old (kind_made makes kind.now kinds.old.names)) }
    ensures within { OnOk result (Fits kinds.new) }
    ensures refused { IfErr result (λ error. IsRefusal error kinds.old (kind_made makes kind.now kinds.old.names)) }
{
    if makes {
        return Ok(Some(add_name(kinds, kind, found)?));
    }
    Ok(find_name(kinds, kind, found))
}

/// The number of an edge's kind, which may have been seen before; where the edge's change makes names, it is added first.
fn edge_kind(
    kinds: &mut NameBook,
    makes: bool,
    kind: &str,
    seen: Option<SeenKind<'_>>,
) -> Result<Option<KindId>, AddError>
    requires limit { kinds.old.limit ≤ 64 }
    requires within { Fits kinds.old }
    requires kind { IsTrue (is_name kind.now) }
    requires seen { IsSeen kinds.old.names seen }
    ensures kind { IfOk result (λ k. option_map (λ k. k.0) k ≡ known (kind_made makes kind.now kinds.old.names) kind.now) }
    ensures kinds { OnOk result (kinds.new ≡ with_names kinds.old (kind_made makes kind.now kinds.old.names)) }
    ensures within { OnOk result (Fits kinds.new) }
    ensures refused { IfErr result (λ error. IsRefusal error kinds.old (kind_made makes kind.now kinds.old.names)) }
{
    let found = if_seen(kind, seen);
    let number = kind_number(kinds, makes, kind, found)?;
    Ok(kind_of(number))
}

/// A kind by its number.
fn kind_of(number: Option<u32>) -> Option<KindId>
    requires { IfSome number (λ n. n < 256) }
    ensures { option_map (λ k. k.0) result ≡ number }
{
    Some(KindId(number? as u8))
}

/// The key of numbers of which each is known.
fn key_by(ends: Ends, kind: Option<KindId>) -> Option<EdgeKey>
    ensures { option_map key_shown result ≡ key_from (option_map (λ k. k.0) kind) ends.source ends.target }
{
    Some(EdgeKey {
        kind: kind?,
        source: ends.source?,
        target: ends.target?,
    })
}

/// An operation on the edge of these ends and this kind.
fn on_edge(ends: Ends, kind: Option<KindId>, change: EdgeChange) -> ResolvedOp
    ensures { shown_op result ≡ AtKey ends.source (key_from (option_map (λ k. k.0) kind) ends.source ends.target) change }
{
    ResolvedOp::Edge(ends.source, key_by(ends, kind), change)
}

/// Why a batch isn't planned whose names are refused.
#[tactic(auto, using(crate::proofs::Names::unplanned_names))]
fn names_refusal(error: AddError) -> ApplyError
    ensures { (ops : List NamedOp) (names kinds : Book) → IsRefusal error names (names_after_all ops names.names)
        → IsUnplanned result ops names kinds }
{
    match error {
        AddError::NamesFull => ApplyError::NamesFull,
        AddError::OutOfMemory => ApplyError::OutOfMemory,
    }
}

/// Adds the names of an operation's ends, where it makes any.
fn add_op_names(names: &mut NameBook, op: &NamedOp) -> Result<(), AddError>
    requires within { Fits names.old }
    requires names { IsTrue (has_names op.now) }
    ensures names { OnOk result (names.new ≡ with_names names.old (names_after op.now names.old.names)) }
    ensures within { OnOk result (Fits names.new) }
    ensures refused { IfErr result (λ error. IsRefusal error names.old (names_after op.now names.old.names)) }
{
    let OpParts::OfEdge(change, _, source, target) = parts_in(op, MOST_WEIGHT) else {
        return Ok(());
    };
    let unfound = Ends {
        source: None,
        target: None,
    };
    edge_ends(
        names,
        change.makes_names(),
        source.as_str(),
        target.as_str(),
        unfound,
    )?;
    Ok(())
}

/// Adds the names of operations in order.
///
/// After an error the book has some of them.
fn add_names(names: &mut NameBook, ops: &[NamedOp]) -> Result<(), AddError>
    requires within { Fits names.old }
    requires valid { All IsValid ops.now }
    ensures within { OnOk result (length (names_after_all ops.now names.old.names) ≤ names.old.limit) }
    ensures refused { IfErr result (λ error. IsRefusal error names.old (names_after_all ops.now names.old.names)) }
{
    for op in ops {
        add_op_names(names, op)?;
    }
    Ok(())
}

/// Why a batch isn't planned that is refused for an operation's kind, and has these operations behind that one: for its
/// names, where they don't fit.
fn kinds_refusal(error: AddError, names: &mut NameBook, behind: &[NamedOp]) -> ApplyError
    requires within { Fits names.old }
    requires valid { All IsValid behind.now }
    ensures { (op : NamedOp) (before kinds : Book) → names.old ≡ with_names before (names_after op before.names)
        → IsRefusal error kinds (kinds_after op kinds.names) → IsUnplanned result (op ∷ behind.now) before kinds }
{
    match error {
        AddError::OutOfMemory => ApplyError::OutOfMemory,
        AddError::NamesFull => match add_names(names, behind) {
            Ok(()) => ApplyError::KindsFull,
            Err(error) => names_refusal(error),
        },
    }
}

/// An operation with its names resolved, and its kind, if that has a number.
#[derive(Clone, Copy)]
pub struct Resolution<'a> {
    pub op: ResolvedOp,
    pub kind: Option<SeenKind<'a>>,
}

/// A kind with its number, if it has one.
fn seen_kind<'a>(text: &'a str, number: Option<KindId>) -> Option<SeenKind<'a>>
    ensures { (kinds : List (List ℕ)) → option_map (λ k. k.0) number ≡ known kinds text.now → IsSeen kinds result }
{
    Some(SeenKind {
        text,
        number: number?,
    })
}

/// An operation with the numbers of its names, which are added first, where it makes any; weights are of at most this size. These
/// operations are behind it, and this was found of its ends. A kind may have been seen before.
///
/// After an error the books have some of the names.
pub fn resolve_op<'a>(
    names: &mut NameBook,
    kinds: &mut NameBook,
    op: &'a NamedOp,
    most: u64,
    behind: &[NamedOp],
    found: Ends,
    seen: Option<SeenKind<'_>>,
) -> Result<Resolution<'a>, ApplyError>
    requires limit { kinds.old.limit ≤ 64 }
    requires within { Fits names.old × Fits kinds.old }
    requires op { IsValid op.now }
    requires most { most ≤ weight_limit }
    requires behind { All IsValid behind.now }
    requires found { WasFound names.old.names op.now found }
    requires seen { IsSeen kinds.old.names seen }
    ensures op { IfOk result (λ r. shown_op r.op
        ≡ resolve_parts (names_after op.now names.old.names) (kinds_after op.now kinds.old.names) (parts_in most op.now)) }
    ensures change { IfOk result (λ r. IsInRange r.op) }
    ensures kind { IfOk result (λ r. IsSeen (kinds_after op.now kinds.old.names) r.kind) }
    ensures names { OnOk result (names.new ≡ with_names names.old (names_after op.now names.old.names)) }
    ensures kinds { OnOk result (kinds.new ≡ with_names kinds.old (kinds_after op.now kinds.old.names)) }
    ensures within { OnOk result (Fits names.new × Fits kinds.new) }
    ensures refused { IfErr result (λ error. IsUnplanned error (op.now ∷ behind.now) names.old kinds.old) }
{
    let (change, kind, source, target) = match parts_in(op, most) {
        OpParts::OfEdge(change, kind, source, target) => (change, kind, source, target),
        OpParts::OfAll(time) => {
            return Ok(Resolution {
                op: ResolvedOp::Expire(time),
                kind: None,
            });
        }
    };
    let makes = change.makes_names();
    let (kind, source, target) = (kind.as_str(), source.as_str(), target.as_str());
    let ends = match edge_ends(names, makes, source, target, found) {
        Ok(ends) => ends,
        Err(error) => return Err(names_refusal(error)),
    };
    match edge_kind(kinds, makes, kind, seen) {
        Ok(number) => Ok(Resolution {
            op: on_edge(ends, number, change),
            kind: seen_kind(kind, number),
        }),
        Err(error) => Err(kinds_refusal(error, names, behind)),
    }
}
