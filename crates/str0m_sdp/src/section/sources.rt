//! What is said of the sources of a section, in order of first appearance, and where that stands by their numbers: so one is
//! found among many without a look at each, whoever chose them. A table whose hash is known has to look at all that were chosen
//! to fall together.
ghost use Rattle.indexmap.specs.IndexMap.{insert_entry};
ghost use Rattle.std.specs.Map.{values_of};
ghost use Rattle.std.specs.Prelude.{◌≡◌, ◌<◌, [], length, nat_eq, slice_get, IfOk, OnOk, Some};
ghost use Rattle.str0m_sdp.specs.section.Sources.{AreSourcesPlaced, IsPutAtSource, source_entries};
ghost use Rattle.str0m_sdp.specs.section.SsrcInfoReading.{source_so_far, source_with_value};

use crate::section::ssrc_info::SsrcInfo;
use std::alloc::{AllocError, Global};
use std::collections::BTreeMap;
use str0m_values::Ssrc;

/// The sources so far.
#[derive(Drop)]
pub(crate) struct Sources {
    infos: Vec<SsrcInfo>,
    places: BTreeMap<u32, usize>,
}

impl Sources {
    /// No source. Takes no memory.
    pub(crate) fn new(alloc: Global) -> Sources
        ensures none { source_entries result ≡ [] }
        ensures placed { AreSourcesPlaced result }
    {
        Sources {
            infos: Vec::new(alloc),
            places: BTreeMap::new(alloc),
        }
    }

    /// The place of a source, which joins the others where it isn't among them.
    fn place_of(&mut self, ssrc: Ssrc) -> Result<usize, AllocError>
        requires { AreSourcesPlaced self.old }
        ensures within { IfOk result (λ place. place < length self.new.infos.items) }
        ensures info { IfOk result (λ place. slice_get self.new.infos.items place ≡ Some (source_so_far (source_entries self.old) ssrc)) }
        ensures put { IfOk result (λ place. IsPutAtSource self.old self.new ssrc place) }
    {
        if let Some(place) = self.places.get(&*ssrc) {
            return Ok(*place);
        }
        let place = self.infos.len();
        self.places.insert(*ssrc, place)?;
        self.infos.push(SsrcInfo::empty(ssrc))?;
        Ok(place)
    }

    /// Adds what the value of an `Ssrc` attribute says of a source.
    pub(crate) fn add_value(
        &mut self,
        alloc: Global,
        ssrc: Ssrc,
        name: &str,
        value: &str,
    ) -> Result<(), AllocError>
        requires { AreSourcesPlaced self.old }
        ensures entries { OnOk result (source_entries self.new ≡ insert_entry nat_eq (source_entries self.old) ssrc (source_with_value name.now value.now (source_so_far (source_entries self.old) ssrc))) }
        ensures placed { OnOk result (AreSourcesPlaced self.new) }
    {
        let place = self.place_of(ssrc)?;
        self.infos[place].set_value(alloc, name, value)?;
        Ok(())
    }

    /// Adds that a source repairs another one.
    pub(crate) fn add_repair(&mut self, repaired: Ssrc, repairing: Ssrc) -> Result<(), AllocError>
        requires { AreSourcesPlaced self.old }
        ensures entries { OnOk result (source_entries self.new ≡ insert_entry nat_eq (source_entries self.old) repairing (record (source_so_far (source_entries self.old) repairing) { repairs = Some repaired })) }
        ensures placed { OnOk result (AreSourcesPlaced self.new) }
    {
        let place = self.place_of(repairing)?;
        let info = &mut self.infos[place];
        info.repairs = Some(repaired);
        Ok(())
    }

    /// What is said of each, in order of first appearance. Takes no memory.
    #[tactic(auto, using(crate::proofs::section::SourceLaws::source_values_stand))]
    pub(crate) fn into_infos(self) -> Vec<SsrcInfo>
        ensures { result.items ≡ values_of (source_entries self) }
    {
        self.infos
    }
}
