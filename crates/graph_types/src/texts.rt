//! Names: small texts, and which of them are names of vertices and of kinds.

ghost use Rattle.std.specs.Prelude.{◌≡◌, string_bytes, IfOk};
ghost use Rattle.std.specs.List.{list_all};
ghost use Rattle.graph_types.specs.Valid as valid;

use std::alloc::{AllocError, Global};
use std::marker::Model;

/// A text that is a field of another type; contracts see the list of its bytes. Names are equal, ordered, hashed and
/// displayed as their texts are.
///
/// Any text can stand here: [`is_name`] and [`is_kind_name`] tell which are names.
///
/// ```
/// let ann = Name::from_str(alloc, "ann")?;
/// let bob = Name::from_str(alloc, "bob")?;
/// assert!(rt; ann < bob);
/// println!(rt; "{ann}")?;
/// ```
#[derive(Debug)]
pub struct Name {
    text: String,
}

// Written by hand: who lets one go rests on this function, and not on how each part is let go.
impl Drop for Name {
    fn drop(self) {
        let Name { text: _text } = self;
    }
}

impl Model for Name {
    ghost use Rattle.std.specs.Prelude.{ℕ, List, string_bytes};

    ghost Value = { List ℕ };

    ghost view = { λ n. string_bytes n.text };
}

impl Name {
    /// The name that shows a copy of this text, which may be any; the name of no vertex and of no kind is refused where it is
    /// used, as `BadName` or `NoVertex`.
    ///
    /// ```
    /// let ann = Name::from_str(alloc, "ann")?;
    /// assert_eq!(rt; ann.as_str(), "ann");
    /// ```
    pub fn from_str(alloc: Global, text: &str) -> Result<Name, AllocError>
        ensures { IfOk result (λ name. name ≡ text.now) }
    {
        Ok(Name {
            text: String::from_str(alloc, text)?,
        })
    }

    /// The name that shows this text. It takes no memory.
    pub fn of(text: String) -> Name
        ensures { result ≡ string_bytes text }
    {
        Self { text }
    }

    /// The text. It takes no memory.
    pub fn as_str(&self) -> &str
        ensures { result.now ≡ self.now }
    {
        self.text.as_str()
    }

    /// The text itself. It takes no memory.
    pub fn into_string(self) -> String
        ensures { string_bytes result ≡ self }
    {
        let Name { text } = self;
        text
    }
}

impl Clone for Name {
    ghost is_clone = { λ name copy. copy ≡ name };

    fn clone(&self) -> Result<Name, AllocError> {
        Ok(Name {
            text: self.text.clone()?,
        })
    }
}

/// Whether a text is a vertex's name: 1 to 64 bytes, each from `!` (0x21) to `~` (0x7E), as this
/// project's profile fixes it. It takes no memory.
pub fn is_name(text: &str) -> bool
    ensures { result ≡ valid.is_name text.now }
{
    is_name_bytes(text.as_bytes())
}

/// Whether a text is a kind's name: a name other than `*`, which stands for any kind. It takes no memory.
pub fn is_kind_name(text: &str) -> bool
    ensures { result ≡ valid.is_kind_name text.now }
{
    is_kind_name_bytes(text.as_bytes())
}

/// Whether bytes are those of a vertex's name. They are ASCII then, and so a text. It takes no memory.
///
/// ```
/// let name = if is_name_bytes(field) { str::from_utf8(field).ok() } else { None };
/// ```
pub fn is_name_bytes(bytes: &[u8]) -> bool
    ensures { result ≡ valid.is_name bytes.now }
{
    !bytes.is_empty() && bytes.len() <= 64 && all_printable(bytes)
}

/// Whether bytes are those of a kind's name. They are ASCII then, and so a text. It takes no memory.
pub fn is_kind_name_bytes(bytes: &[u8]) -> bool
    ensures { result ≡ valid.is_kind_name bytes.now }
{
    is_name_bytes(bytes) && bytes != b"*".as_slice()
}

/// Whether each byte is from `!` to `~`.
fn all_printable(bytes: &[u8]) -> bool
    ensures { result ≡ list_all valid.is_printable bytes.now }
{
    bytes.iter().all(|byte| *byte >= 0x21 && *byte <= 0x7e)
}
