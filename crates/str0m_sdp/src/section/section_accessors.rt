//! What a section says, and its first fault.
ghost use Rattle.std.specs.List.{AllZip, list_any};
ghost use Rattle.std.specs.Prelude.{◌≡◌, ◌<◌, ◌↔◌, ◌++◌, [], IfOk, IsTrue, None, Ok, OnOk, Some, count_by, filter_map, length, map, option_copied, option_map, slice_set, string_bytes};
ghost use Rattle.str0m_sdp.specs.Common.{first, last};
ghost use Rattle.str0m_sdp.specs.section.Consistency.{Consistent, NoSectionFaultIff, is_direction, is_mid, mid_of};
ghost use Rattle.str0m_sdp.specs.section.SectionAccessors.{IsRidOf, ext_map_at, ext_map_of, section_max_message_size_of, msid_of, rid_name_of, sctp_init_of, simulcast_of};
ghost use Rattle.str0m_sdp.specs.section.SectionDirection.{section_direction, with_direction};
ghost use Rattle.str0m_sdp.specs.section.Sources.{AreSourcesPlaced, source_entries};
ghost use Rattle.str0m_sdp.specs.section.SsrcInfo.{infos, repair_source, source_of};
ghost use Rattle.str0m_sdp.specs.section.SsrcInfoReading.{AreSourcesGathered};
ghost use Rattle.str0m_sdp.specs.session.Candidates.{candidates_left, section_candidates};
ghost use Rattle.str0m_sdp.specs.session.Fault.{section_message};
ghost use Rattle.str0m_sdp.specs.session.PreferredFingerprint.{IsPreferred};
ghost use Rattle.str0m_sdp.specs.session.Transport.{media_creds, media_ends, media_fingerprint, media_setup};

use crate::attribute::MediaAttribute;
use crate::attribute::msid::Msid;
use crate::attribute::setup::Setup;
use crate::attribute::simulcast::Simulcast;
use crate::section::consistency::{check_section, first_mid};
use crate::section::media_line::MediaLine;
use crate::section::section_direction::{direction_place, first_direction};
use crate::section::sources::Sources;
use crate::section::ssrc_info::SsrcInfo;
use crate::session::candidates::Candidates;
use crate::session::fault::FaultMessage;
use crate::session::preferred_fingerprint::{copied_fingerprint, preferred};
use crate::session::transport::{copied_transport_creds, ends, first_setup, first_transport_creds};
use std::alloc::{AllocError, Global};
use str0m_values::{Direction, Extension, Fingerprint, IceCreds, Mid, Rid};

impl MediaLine {
    /// Whether an attribute names the section (RFC 5888, section 4).
    #[tactic(auto, using(crate::proofs::section::SectionDirectionHolders::mid_counted))]
    pub fn has_mid(&self) -> bool
        ensures { IsTrue result ↔ (0 < count_by is_mid self.now.attrs) }
    {
        first_mid(self.attrs.as_slice()).is_some()
    }

    /// The name of the section (RFC 5888, section 4), by the first attribute that says one; `has_mid`
    /// tells whether there is one.
    pub fn mid(&self) -> Mid
        requires { 0 < count_by is_mid self.now.attrs }
        ensures { first (filter_map mid_of self.now.attrs) ≡ Some result }
    {
        first_mid(self.attrs.as_slice()).unwrap()
    }

    /// Whether an attribute says a direction (RFC 8866, section 6.7).
    #[tactic(auto, using(crate::proofs::section::SectionDirectionHolders::direction_counted))]
    pub fn has_direction(&self) -> bool
        ensures { IsTrue result ↔ (0 < count_by is_direction self.now.attrs) }
    {
        first_direction(self.attrs.as_slice()).is_some()
    }

    /// The direction (RFC 8866, section 6.7) of the first attribute that says one; `Inactive` where
    /// none does.
    pub fn direction(&self) -> Direction
        ensures { result ≡ section_direction self.now.attrs }
    {
        first_direction(self.attrs.as_slice()).unwrap_or(Direction::Inactive)
    }

    /// Sets the direction (RFC 8866, section 6.7): the first attribute that says one is replaced where
    /// it stands; `has_direction` tells whether there is one. Nothing else changes, and no memory is
    /// taken.
    pub fn set_direction(&mut self, dir: Direction)
        requires { 0 < count_by is_direction self.old.attrs }
        ensures replaced { self.new ≡ record self.old { attrs = with_direction dir self.old.attrs } }

        // It reads back.
        ensures set { section_direction self.new.attrs ≡ dir }
    {
        let place = direction_place(self.attrs.as_slice());
        self.put(place, MediaAttribute::from(dir));
    }

    /// Puts an attribute in place of another.
    fn put(&mut self, place: usize, attr: MediaAttribute)
        requires { place < length self.old.attrs }
        ensures { self.new ≡ record self.old { attrs = slice_set self.old.attrs place attr } }
    {
        self.attrs.0[place] = attr;
    }

    /// The role in the DTLS handshake (RFC 8842, section 5.2): of the first attribute that says one.
    pub fn setup(&self) -> Option<Setup>
        ensures { result ≡ first (filter_map media_setup self.now.attrs) }
    {
        first_setup(self.attrs.as_slice())
    }

    /// A copy of the first username fragment and the first password (RFC 8839, section 5.4); `None`
    /// where one of them is missing. The only error is that memory was refused.
    pub fn ice_creds(&self) -> Result<Option<IceCreds>, AllocError>
        ensures { IfOk result (λ found. found ≡ media_creds self.now.attrs) }
    {
        copied_transport_creds(first_transport_creds(self.attrs.as_slice()))
    }

    /// A copy of the preferred fingerprint (RFC 8122, section 5.1): the first of those with the
    /// least `hash_preference`; `None` where there is none. The only error is that memory was
    /// refused.
    pub fn fingerprint(&self) -> Result<Option<Fingerprint>, AllocError>
        ensures { IfOk result (IsPreferred (filter_map media_fingerprint self.now.attrs)) }
    {
        copied_fingerprint(preferred(self.attrs.as_slice()))
    }

    /// The candidates that the section lists, in attribute order (RFC 8839, section 5.1).
    pub fn ice_candidates(&self) -> Candidates<'_>
        ensures { candidates_left result ≡ section_candidates self.now }
    {
        Candidates {
            session: &[],
            media: self.attrs.as_slice(),
        }
    }

    /// Whether an attribute says that no candidate follows (RFC 8840, section 8.1).
    pub fn end_of_candidates(&self) -> bool
        ensures { result ≡ list_any media_ends self.now.attrs }
    {
        ends(self.attrs.as_slice())
    }

    /// The first INIT chunk of SCTP, in base 64 (draft-hancke-tsvwg-snap); `None` where no
    /// attribute has one. Takes no memory.
    pub fn sctp_init(&self) -> Option<&str>
        ensures { option_copied result ≡ first (filter_map sctp_init_of self.now.attrs) }
    {
        let attrs = self.attrs.as_slice();
        attrs.iter().find_map(|attr| attr.as_sctp_init())
    }

    /// A copy of the first ids of a stream and a track (RFC 8830, section 2); `None` where no
    /// attribute has them. The only error is that memory was refused.
    pub fn msid(&self) -> Result<Option<Msid>, AllocError>
        ensures { IfOk result (λ found. found ≡ first (filter_map msid_of self.now.attrs)) }
    {
        match first_msid(self.attrs.as_slice()) {
            None => Ok(None),
            Some(msid) => {
                let copy = msid.clone()?;
                Ok(Some(copy))
            }
        }
    }

    /// The most bytes that a message may have (RFC 8841, section 6), by the first attribute that says
    /// it.
    pub fn max_message_size(&self) -> Option<u64>
        ensures { result ≡ first (filter_map section_max_message_size_of self.now.attrs) }
    {
        let attrs = self.attrs.as_slice();
        attrs.iter().find_map(|attr| attr.as_max_message_size())
    }

    /// A copy of the last layers (RFC 8853, section 5.1); `None` where no attribute has any. The
    /// only error is that memory was refused.
    pub fn simulcast(&self) -> Result<Option<Simulcast>, AllocError>
        ensures { IfOk result (λ found. found ≡ last (filter_map simulcast_of self.now.attrs)) }
    {
        match last_simulcast(self.attrs.as_slice()) {
            None => Ok(None),
            Some(simulcast) => {
                let copy = simulcast.clone()?;
                Ok(Some(copy))
            }
        }
    }

    /// The header extensions with their numbers, 0 to 255 (RFC 8285, section 5), in the order of
    /// the attributes. The only error is that memory was refused.
    pub fn extmaps(&self) -> Result<Vec<(u8, &Extension)>, AllocError>
        ensures { IfOk result (λ maps. map ext_map_at maps.items ≡ filter_map ext_map_of self.now.attrs) }
    {
        let mut maps = Vec::new(*self.attrs.allocator());
        for attr in self.attrs.as_slice() {
            if let Some(lent) = attr.as_ext_map() {
                maps.push(lent)?;
            }
        }
        Ok(maps)
    }

    /// The names of the streams that may be restricted (RFC 8851, section 4), in the order of the
    /// attributes; of a name of more than 16 bytes the longest beginning of at most 16 bytes that
    /// ends between characters. The only error is that memory was refused.
    pub fn rids(&self) -> Result<Vec<Rid>, AllocError>
        ensures { IfOk result (λ rids. AllZip IsRidOf (filter_map rid_name_of self.now.attrs) rids.items) }
    {
        let mut rids = Vec::new(*self.attrs.allocator());
        for attr in self.attrs.as_slice() {
            if let Some(name) = attr.as_rid_name() {
                rids.push(Rid::from(name))?;
            }
        }
        Ok(rids)
    }

    /// What the `Ssrc` attributes say of each source, in order of first appearance.
    fn gather_values(&self, alloc: Global) -> Result<Sources, AllocError>
        ensures said { IfOk result (λ sources. AreSourcesGathered (filter_map source_of self.now.attrs) [] self.now.attrs (source_entries sources)) }
        ensures placed { IfOk result AreSourcesPlaced }
    {
        let mut sources = Sources::new(alloc);
        for line in self.attrs.as_slice() {
            if let MediaAttribute::Ssrc { ssrc, attr, value } = line {
                sources.add_value(alloc, *ssrc, attr.as_str(), value.as_str())?;
            }
        }
        Ok(sources)
    }

    /// Adds which sources repair others. Those that have no entry yet come last.
    fn add_repairs(&self, sources: &mut Sources) -> Result<(), AllocError>
        requires said { AreSourcesGathered (filter_map source_of self.now.attrs) [] self.now.attrs (source_entries sources.old) }
        requires placed { AreSourcesPlaced sources.old }
        ensures { OnOk result (AreSourcesGathered (filter_map source_of self.now.attrs ++ filter_map repair_source self.now.attrs) self.now.attrs self.now.attrs (source_entries sources.new)) }
    {
        for line in self.attrs.as_slice() {
            if let Some((repaired, repairing)) = line.repair_pair() {
                sources.add_repair(repaired, repairing)?;
            }
        }
        Ok(())
    }

    /// What the section says of each of its sources (RFC 5576, sections 4.1, 4.2 and 6.1).
    ///
    /// There is one entry for each source of an `Ssrc` attribute, in order of first appearance. Its
    /// `cname` attribute names it. Its `msid` attribute has the id of its stream and, after a space,
    /// that of its track; white space at their ends is left out, and `-` stands for none (RFC 8830,
    /// section 2). A group `FID` of two sources says that the second repairs the first; a second one
    /// without an entry gets one at the end. Where two attributes say the same of a source, the later
    /// one holds. Names are compared without regard to the case of ASCII letters. Time grows as that of
    /// a sort, whatever the numbers are. `AllocError` where memory is refused.
    #[tactic(auto, using(crate::proofs::section::SsrcInfoLaws::gathered_infos))]
    pub fn ssrc_info(&self) -> Result<Vec<SsrcInfo>, AllocError>
        ensures { IfOk result (λ list. list.items ≡ infos self.now.attrs) }
    {
        let alloc = *self.attrs.allocator();
        let mut sources = self.gather_values(alloc)?;
        self.add_repairs(&mut sources)?;
        Ok(sources.into_infos())
    }

    /// The message of the section's first fault; `None` where it is consistent.
    ///
    /// A section has exactly one `a=mid` line and at most one `a=setup` line (RFC 8829, section
    /// 5.2.1). Over Srtp it has exactly one direction, and a payload type unless it is disabled.
    /// Each payload type of its m-line has exactly one `a=rtpmap` line (RFC 8866, section 6.6); a
    /// static type (RFC 3551, section 6; `CodecSpec::from_static_pt`) may have none. The `apt` values of
    /// one payload type's fmtp lines name one primary type (RFC 4588, section 8.1). Faults are looked
    /// for in this order.
    ///
    /// Only a message takes memory, so a consistent section needs none; the only error is that
    /// memory for the message was refused.
    #[tactic(auto, using(crate::proofs::session::FaultLaws::consistent_if_ok, crate::proofs::session::FaultLaws::consistent_not_err))]
    pub fn check_consistent(&self) -> Result<Option<String>, AllocError>
        ensures told { IfOk result (λ message. NoSectionFaultIff message (Consistent self.now)) }
        ensures first { IfOk result (λ message. option_map string_bytes message ≡ section_message self.now) }
        ensures takes_no_memory { Consistent self.now → result ≡ Ok None }
    {
        match check_section(self) {
            Ok(()) => Ok(None),
            Err(fault) => {
                let section = self;
                let message = FaultMessage { fault, section };
                let alloc = *self.attrs.allocator();
                Ok(Some(message.to_string(alloc)?))
            }
        }
    }
}

fn first_msid(attrs: &[MediaAttribute]) -> Option<&Msid>
    ensures { option_copied result ≡ first (filter_map msid_of attrs.now) }
{
    attrs.iter().find_map(|attr| attr.as_msid())
}

fn last_simulcast(attrs: &[MediaAttribute]) -> Option<&Simulcast>
    ensures { option_copied result ≡ last (filter_map simulcast_of attrs.now) }
{
    attrs.iter().rev().find_map(|attr| attr.as_simulcast())
}
