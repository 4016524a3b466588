//! The publication of a batch's version.

ghost use Rattle.std.specs.Prelude.{◌≡◌, length, IfOk, IfErr, OnOk, OnErr};
ghost use Rattle.std.specs.Arc.{arc_value};
ghost use Rattle.graph_types.specs.Step.{outcomes};
ghost use Rattle.graph_version.specs.Versions.{content};
ghost use Rattle.graph_version.specs.declared.versions.Version.{Version};
ghost use Rattle.version_shelf.specs.Shelves.{IsNext};

use crate::receipts::Receipt;
use desk::{Accepted, Desk, Ready};
use graph_version::Version;
use std::alloc::AllocError;
use std::sync::{Arc, Wait};
use version_shelf::{ShelfWriter, Told};

/// Posts a version, which its owner keeps too; or changes nothing.
fn post<R: Wait>(
    rt: &R,
    shelf: &mut ShelfWriter,
    version: &Arc<Version>,
) -> Result<Told, AllocError>
    requires { IsNext shelf.old (arc_value {X = Version} version.now) }
    ensures posted { OnOk result (shelf.new.posted ≡ (arc_value {X = Version} version.now).batches) }
    ensures shown { OnOk result (shelf.new.shown ≡ (arc_value {X = Version} version.now).batches) }
    ensures told { IfOk result (λ told. told
        ≡ record { book = shelf.old.book; version = arc_value {X = Version} version.now }) }
    ensures same { (shelf.new.book ≡ shelf.old.book) × (shelf.new.opening ≡ shelf.old.opening) }
    ensures unchanged { OnErr result (shelf.new ≡ shelf.old) }
{
    let shown = Arc::try_clone(version)?;
    let told = shelf.post(rt, shown)?;
    Ok(told)
}

/// Posts the version that is ready, and then accepts it; or changes nothing, and gives the desk of before back.
pub(crate) fn post_and_finish<R: Wait>(
    rt: &R,
    ready: Ready,
    shelf: &mut ShelfWriter,
) -> Result<(Desk, Receipt), Desk>
    requires { IsNext shelf.old ready.new.last }
    ensures desk { IfOk result (λ r. r.0 ≡ ready.new) }
    ensures number { IfOk result (λ r. r.1.number ≡ length ready.new.last.batches) }
    ensures outcomes { IfOk result (λ r. r.1.outcomes ≡ outcomes ready.ops (content ready.old.last)) }
    ensures told { IfOk result (λ r. r.1.told ≡ record { book = shelf.old.book; version = ready.new.last }) }
    ensures posted { OnOk result (shelf.new.posted ≡ ready.new.last.batches) }
    ensures shown { OnOk result (shelf.new.shown ≡ ready.new.last.batches) }
    ensures same { (shelf.new.book ≡ shelf.old.book) × (shelf.new.opening ≡ shelf.old.opening) }
    ensures cancelled { IfErr result (λ d. d ≡ ready.old) }
    ensures unchanged { OnErr result (shelf.new ≡ shelf.old) }
{
    let Ok(told) = post(rt, shelf, ready.version()) else {
        return Err(ready.cancel());
    };
    let (desk, accepted) = ready.finish();
    let Accepted { number, outcomes } = accepted;
    Ok((
        desk,
        Receipt {
            number,
            outcomes,
            told,
        },
    ))
}
