//! What an owner keeps of the versions held.

ghost use Rattle.std.specs.Prelude.{◌≡◌, ◌⊎◌, None, [], replicate, slice_set, OnOk, OnErr, IfOk, MatchBool, option_map};
ghost use Rattle.std.specs.Arc.{arc_value};
ghost use Rattle.block_reclamation.specs.declared.copies.TheConstants.{SEATS};
ghost use Rattle.graph_version.specs.declared.versions.Version.{Version};
ghost use Rattle.owned_desk.specs.Kept.{HasVersion, IsWithoutVersions, seat_version};
ghost use Rattle.owned_desk.specs.Touched.{AreTouchedSince, TouchesSources, SameNumbers};

use crate::touched::Touched;
use block_reclamation::{SEATS, SeatNo};
use graph_types::VertexId;
use graph_version::Version;
use std::alloc::{AllocError, Global};
use std::marker::Model;
use std::sync::Arc;

/// The version of each seat that has a pin, and the sources that batches touched while there was one.
pub(crate) struct Kept {
    versions: [Option<Arc<Version>>; SEATS],
    touched: Touched,
}

// Written by hand: who lets one go rests on this function, and not on how each part is let go.
impl Drop for Kept {
    fn drop(self) {
        let Kept {
            versions: _versions,
            touched: _touched,
        } = self;
    }
}

impl Model for Kept {
    ghost use Rattle.std.specs.Prelude.{map, option_map};
    ghost use Rattle.std.specs.Arc.{arc_value};
    ghost use Rattle.std.specs.Coded.{codes};
    ghost use Rattle.graph_types.specs.Coded.{graph_code};
    ghost use Rattle.graph_version.specs.declared.versions.Version.{Version};
    ghost use Rattle.owned_desk.specs.Kept.{KeptView};

    ghost Value = { KeptView };

    ghost coded = { Prim.hlevel (codes, graph_code) };

    ghost view = { λ k. record {
      versions = map (option_map (arc_value {X = Version})) k.versions;
      touched = k.touched;
    } };
}

impl Kept {
    /// No version. It takes no memory.
    pub(crate) fn none(alloc: Global) -> Kept
        ensures { result ≡ record { versions = replicate SEATS None; touched = [] } }
    {
        Kept {
            versions: [
                None, None, None, None, None, None, None, None, None, None, None, None, None, None,
                None, None,
            ],
            touched: Touched::none(alloc),
        }
    }

    /// The version of a seat, if it has one.
    pub(crate) fn version(&self, seat: SeatNo) -> Option<&Arc<Version>>
        ensures { option_map (λ v. arc_value {X = Version} v.now) result ≡ seat_version self.now.versions seat }
    {
        self.versions[usize::from(seat.number())].as_ref()
    }

    /// Puts a version, or none, at a seat.
    pub(crate) fn put(&mut self, seat: SeatNo, version: Option<Arc<Version>>)
        ensures { self.new ≡ record self.old {
          versions = slice_set self.old.versions seat (option_map (arc_value {X = Version}) version);
        } }
    {
        self.versions[usize::from(seat.number())] = version;
    }

    /// Enters that the batch of this number touches these sources, where there is a version: else nobody asks for them. If memory
    /// runs out, each source has the number of before.
    pub(crate) fn touch(&mut self, sources: &[VertexId], number: u32) -> Result<(), AllocError>
        ensures versions { self.new.versions ≡ self.old.versions }
        ensures touched { OnOk result (IsWithoutVersions self.old.versions
            ⊎ TouchesSources sources.now number self.old.touched self.new.touched) }
        ensures unchanged { OnErr result (SameNumbers self.old.touched self.new.touched) }
    {
        if self.is_empty() {
            return Ok(());
        }
        self.touched.touch(sources, number)
    }

    /// The sources that batches of greater numbers touched, rising.
    pub(crate) fn since(&self, alloc: Global, number: u64) -> Result<Vec<VertexId>, AllocError>
        ensures { IfOk result (λ v. AreTouchedSince number self.now.touched v.items) }
    {
        self.touched.since(alloc, number)
    }

    /// Whether no seat has a version.
    fn is_empty(&self) -> bool
        ensures { MatchBool result (IsWithoutVersions self.now.versions) (HasVersion self.now.versions) }
    {
        for version in &self.versions {
            if version.is_some() {
                return false;
            }
        }
        true
    }
}
