ghost use Rattle.std.specs.Prelude.{◌≡◌, ◌<◌, ◌^◌, ◌++◌, ◌∷◌, [], length, slice_get};
ghost use Rattle.std.specs.Prelude.{option_copied, IfOk, OnOk, OnErr, All, IfSome, IfNone, ◌≢◌, Some, ◌↔◌, IsTrue};
ghost use Rattle.vertex_names.specs.Groups.{in_text_groups, AreTextGroups};

use crate::chunk::Entry;
use crate::same::is_same_name;
use crate::text_group::TextGroup;
use std::alloc::{AllocError, Global};
use std::marker::Model;
use std::sync::Arc;

/// How many names stand in one group.
const GROUP: usize = 32_768;

/// Names in order, in groups of 32,768 that copies share.
pub(crate) struct Texts {
    len: usize,
    groups: Vec<Arc<TextGroup>>,
}

// By hand, so that who lets one go need not take it apart.
impl Drop for Texts {
    fn drop(self) {
        let Texts {
            len: _len,
            groups: _groups,
        } = self;
    }
}

impl Model for Texts {
    ghost use Rattle.std.specs.Prelude.{◌≡◌, ℕ, List, length};
    ghost use Rattle.vertex_names.specs.Groups.{in_text_groups, AreTextGroups};

    ghost Value = { List (List ℕ) };

    ghost view = { λ t. in_text_groups t.groups.items };

    ghost invariant = { λ t. (length (in_text_groups t.groups.items) ≡ t.len) × AreTextGroups t.groups.items };
}

impl Texts {
    /// It takes no memory yet.
    pub(crate) fn new(alloc: Global) -> Texts
        ensures { result ≡ [] }
    {
        Texts {
            len: 0,
            groups: Vec::new(alloc),
        }
    }

    /// How many names there are.
    pub(crate) fn len(&self) -> usize
        ensures { result ≡ length self.now }
    {
        self.len
    }

    /// The name at a place.
    pub(crate) fn name(&self, number: u32) -> Option<&str>
        ensures { option_copied result ≡ slice_get self.now number }
    {
        let place = number as usize;
        self.groups.get(place / GROUP)?.name(place % GROUP)
    }

    /// Whether this name stands at a place.
    pub(crate) fn is_at(&self, number: u32, name: &str) -> bool
        ensures { IsTrue result ↔ (slice_get self.now number ≡ Some name.now) }
    {
        match self.name(number) {
            None => false,
            Some(known) => is_same_name(known, name),
        }
    }

    /// The first of the places at which this name stands.
    pub(crate) fn find_among(&self, numbers: &[u32], name: &str) -> Option<u32>
        ensures found { IfSome result (λ number. slice_get self.now number ≡ Some name.now) }
        ensures absent { IfNone result (All (λ number. slice_get self.now number ≢ Some name.now) numbers.now) }
    {
        for &number in numbers {
            if self.is_at(number, name) {
                return Some(number);
            }
        }
        None
    }

    /// One more name, the last.
    pub(crate) fn push(&mut self, alloc: Global, name: Entry) -> Result<(), AllocError>
        requires { length self.old < 2 ^ 32 }
        ensures pushed { OnOk result (self.new ≡ self.old ++ name ∷ []) }
        ensures unchanged { OnErr result (self.new ≡ self.old) }
    {
        add_to_groups(alloc, &mut self.groups, self.len, name)?;
        self.len += 1;
        Ok(())
    }

    /// An equal list.
    pub(crate) fn share(&self) -> Result<Texts, AllocError>
        ensures { IfOk result (λ copy. copy ≡ self.now) }
    {
        Ok(Texts {
            len: self.len,
            groups: self.groups.clone()?,
        })
    }
}

/// One more name after the last: in a new group where all are full, and otherwise in the last group, or in a
/// copy of it where others have it.
fn add_to_groups(
    alloc: Global,
    groups: &mut Vec<Arc<TextGroup>>,
    len: usize,
    name: Entry,
) -> Result<(), AllocError>
    requires len { length (in_text_groups groups.old.items) ≡ len }
    requires groups { AreTextGroups groups.old.items }
    ensures added { OnOk result (in_text_groups groups.new.items ≡ in_text_groups groups.old.items ++ name ∷ []) }
    ensures unchanged { OnErr result (in_text_groups groups.new.items ≡ in_text_groups groups.old.items) }
    ensures groups { AreTextGroups groups.new.items }
{
    if len % GROUP == 0 {
        let group = Arc::new(alloc, TextGroup::of(alloc, name)?)?;
        groups.push(group)?;
        return Ok(());
    }
    Arc::make_mut(&mut groups[len / GROUP])?.push(alloc, name)
}
