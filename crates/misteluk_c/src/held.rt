//! The version that a handle holds.

ghost use Rattle.std.specs.Prelude.{◌≡◌, Some, IfOk, IfErr};
ghost use Rattle.std.specs.Option.{option_copied};
ghost use Rattle.std.specs.Arc.{arc_value};
ghost use Rattle.graph_version.specs.declared.versions.Version.{Version};
ghost use Rattle.graph_walks.specs.declared.incoming.Incoming.{Incoming};
ghost use Rattle.misteluk_c.specs.Held.{held_version_of, Asks};

use crate::codes::{MEMORY, NO_HANDLE};
use graph_version::Version;
use graph_walks::Incoming;
use std::alloc::{AllocError, Global};
use std::sync::Arc;
use store_handles::Held;

/// The version, if one is held.
pub(crate) fn version_in(held: &Held) -> Option<&Version>
    ensures { option_copied result ≡ held_version_of (Some held.now) }
{
    match held {
        Held::Version(version) => Some(version),
        Held::Indexed(incoming) => Some(incoming.version()),
        _ => None,
    }
}

/// The same version, held once more.
pub(crate) fn copy_of(alloc: Global, held: &Held) -> Result<Box<Held>, AllocError>
    ensures { IfOk result (λ boxed. held_version_of (Some boxed.value) ≡ held_version_of (Some held.now)) }
{
    let copy = match held {
        Held::Version(version) => Held::Version(Arc::try_clone(version)?),
        Held::Indexed(incoming) => Held::Indexed(Arc::try_clone(incoming)?),
        _ => return Err(AllocError),
    };
    Ok(Box::new(alloc, copy)?)
}

/// A version's edges by their targets.
fn incoming_of(alloc: Global, version: &Arc<Version>) -> Result<Arc<Incoming>, AllocError>
    ensures { IfOk result (λ incoming. arc_value {X = Incoming} incoming ≡ arc_value {X = Version} version.now) }
{
    let incoming = Incoming::over(alloc, Arc::try_clone(version)?)?;
    Ok(Arc::new(alloc, incoming)?)
}

/// The edges of the version that is held by their targets, which are held with it from then on; or the code that there is no
/// version, or no memory.
pub(crate) fn indexed(alloc: Global, held: &mut Held) -> Result<Arc<Incoming>, u32>
    ensures same { held_version_of (Some held.new) ≡ held_version_of (Some held.old) }
    ensures made { IfOk result (λ incoming. held_version_of (Some held.old) ≡ Some (arc_value {X = Incoming} incoming)) }
    ensures refused { IfErr result (λ code. Asks (held_version_of (Some held.old)) code (λ v. code ≡ 1)) }
{
    let made = match &*held {
        Held::Version(version) => incoming_of(alloc, version),
        Held::Indexed(incoming) => return Arc::try_clone(incoming).or(Err(MEMORY)),
        _ => return Err(NO_HANDLE),
    };
    let Ok(incoming) = made else {
        return Err(MEMORY);
    };
    let Ok(copy) = Arc::try_clone(&incoming) else {
        return Err(MEMORY);
    };
    *held = Held::Indexed(incoming);
    Ok(copy)
}
