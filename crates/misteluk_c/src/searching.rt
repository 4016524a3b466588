//! Names that a text is in.

ghost use Rattle.std.specs.Prelude.{◌≡◌, None};
ghost use Rattle.graph_version.specs.Versions.{content};
ghost use Rattle.version_columns.specs.Searches.{WritesNumbers};
ghost use Rattle.misteluk_c.specs.Held.{held_version_of, Asks};

use crate::codes::{NO_HANDLE, OK};
use crate::held::version_in;
use graph_version::Version;
use std::alloc::Global;
use store_handles::Handle;
use version_columns::write_names_like;

/// Writes the numbers of vertices whose names have a text.
#[unsafe(no_mangle)]
pub extern "C" fn misteluk_version_names_like(
    alloc: Global,
    version: &mut Handle,
    text: &[u8],
    from: &mut u32,
    numbers: &mut [u32],
    count: &mut u64,
) -> u32
    ensures same { version.new.held ≡ version.old.held }
    ensures told { Asks (held_version_of version.old.held) result
        (λ v. (result ≡ 0) × WritesNumbers (content v).names text.now from.old from.new numbers.old numbers.new count.new) }
    ensures none { held_version_of version.old.held ≡ None
        → (numbers.new ≡ numbers.old) × (from.new ≡ from.old) × (count.new ≡ count.old) }
{
    let Some(held) = version.take(alloc) else {
        return NO_HANDLE;
    };
    let code = match version_in(&held) {
        Some(version) => numbers_to(version, text, from, numbers, count),
        None => NO_HANDLE,
    };
    version.put(held);
    code
}

fn numbers_to(
    version: &Version,
    text: &[u8],
    from: &mut u32,
    numbers: &mut [u32],
    count: &mut u64,
) -> u32
    ensures { (result ≡ 0)
        × WritesNumbers (content version.now).names text.now from.old from.new numbers.old numbers.new count.new }
{
    write_names_like(version.names(), text, from, numbers, count);
    OK
}
