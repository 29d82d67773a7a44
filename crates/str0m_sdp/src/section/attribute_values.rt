//! What an attribute of a section is, and what it holds.
ghost use Rattle.std.specs.Prelude.{◌≡◌, option_copied, option_map};
ghost use Rattle.str0m_sdp.specs.section.Consistency.{is_direction, is_mid, is_setup, mid_of};
ghost use Rattle.str0m_sdp.specs.section.MadeSection.{is_of_type};
ghost use Rattle.str0m_sdp.specs.section.SectionAccessors.{ext_map_at, ext_map_of, section_max_message_size_of, msid_of, rid_name_of, sctp_init_of, simulcast_of};
ghost use Rattle.str0m_sdp.specs.section.SectionDirection.{direction_of};
ghost use Rattle.str0m_sdp.specs.section.SsrcInfo.{repair_pair};

use crate::attribute::MediaAttribute;
use crate::attribute::msid::Msid;
use crate::attribute::simulcast::Simulcast;
use str0m_values::cuts::is_same_text;
use str0m_values::{Direction, Extension, Mid, Ssrc};

impl MediaAttribute {
    pub(crate) fn is_mid(&self) -> bool
        ensures { result ≡ is_mid self.now }
    {
        matches!(self, MediaAttribute::Mid(_))
    }

    pub(crate) fn as_mid(&self) -> Option<Mid>
        ensures { result ≡ mid_of self.now }
    {
        match self {
            MediaAttribute::Mid(mid) => Some(*mid),
            _ => None,
        }
    }

    pub(crate) fn is_setup(&self) -> bool
        ensures { result ≡ is_setup self.now }
    {
        matches!(self, MediaAttribute::Setup(_))
    }

    /// Whether this is one of the four directions (RFC 8866, section 6.7).
    pub fn is_direction(&self) -> bool
        ensures { result ≡ is_direction self.now }
    {
        matches!(
            self,
            MediaAttribute::RecvOnly
                | MediaAttribute::SendRecv
                | MediaAttribute::SendOnly
                | MediaAttribute::Inactive
        )
    }

    pub(crate) fn as_direction(&self) -> Option<Direction>
        ensures { result ≡ direction_of self.now }
    {
        match self {
            MediaAttribute::SendRecv => Some(Direction::SendRecv),
            MediaAttribute::SendOnly => Some(Direction::SendOnly),
            MediaAttribute::RecvOnly => Some(Direction::RecvOnly),
            MediaAttribute::Inactive => Some(Direction::Inactive),
            _ => None,
        }
    }

    /// Whether the attribute describes a payload type: an rtpmap, rtcp-fb or fmtp line (RFC 8866,
    /// section 6.6; RFC 4585, section 4.2; RFC 8866, section 6.15).
    pub fn is_of_type(&self) -> bool
        ensures { result ≡ is_of_type self.now }
    {
        matches!(
            self,
            MediaAttribute::RtpMap { .. }
                | MediaAttribute::RtcpFb { .. }
                | MediaAttribute::Fmtp { .. }
        )
    }

    pub(crate) fn as_sctp_init(&self) -> Option<&str>
        ensures { option_copied result ≡ sctp_init_of self.now }
    {
        match self {
            MediaAttribute::SctpInit(text) => Some(text.as_str()),
            _ => None,
        }
    }

    pub(crate) fn as_msid(&self) -> Option<&Msid>
        ensures { option_copied result ≡ msid_of self.now }
    {
        match self {
            MediaAttribute::Msid(msid) => Some(msid),
            _ => None,
        }
    }

    pub(crate) fn as_max_message_size(&self) -> Option<u64>
        ensures { result ≡ section_max_message_size_of self.now }
    {
        match self {
            MediaAttribute::MaxMessageSize(size) => Some(*size),
            _ => None,
        }
    }

    pub(crate) fn as_simulcast(&self) -> Option<&Simulcast>
        ensures { option_copied result ≡ simulcast_of self.now }
    {
        match self {
            MediaAttribute::Simulcast(simulcast) => Some(simulcast),
            _ => None,
        }
    }

    pub(crate) fn as_ext_map(&self) -> Option<(u8, &Extension)>
        ensures { option_map ext_map_at result ≡ ext_map_of self.now }
    {
        match self {
            MediaAttribute::ExtMap { id, ext } => Some((*id, ext)),
            _ => None,
        }
    }

    pub(crate) fn as_rid_name(&self) -> Option<&str>
        ensures { option_copied result ≡ rid_name_of self.now }
    {
        match self {
            MediaAttribute::Rid { id, .. } => Some(id.0.as_str()),
            _ => None,
        }
    }

    /// A source and the one that repairs it, where this is their group (RFC 5576, section 4.2).
    pub(crate) fn repair_pair(&self) -> Option<(Ssrc, Ssrc)>
        ensures { result ≡ repair_pair self.now }
    {
        let MediaAttribute::SsrcGroup { semantics, ssrcs } = self else {
            return None;
        };
        match ssrcs.as_slice() {
            [repaired, repairing] if is_same_text(semantics.as_str(), "fid") => {
                Some((*repaired, *repairing))
            }
            _ => None,
        }
    }
}
