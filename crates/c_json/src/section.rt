//! The members of a section, in the order of their keys.

ghost use Rattle.c_json.specs.JsonWriter.{InList, InObject};
ghost use Rattle.std.specs.Prelude.{◌≡◌, OnOk};

use crate::head::{
    add_head_bandwidth, add_head_connection, add_head_formats, add_head_rtcp, section_head,
};
use crate::json_writer::JsonWriter;
use crate::lists::add_list;
use crate::rows::add_rows;
use crate::section_lists::SectionList;
use crate::streams::{add_layers, are_layers_printed};
use crate::transport::Transport;
use std::alloc::{AllocError, Global};
use str0m_sdp::label;
use str0m_signal::{MediaAttribute, MediaLine, Msid};

/// What the last attribute says that has the key, of keys that are no lists.
#[derive(Clone, Copy)]
struct SaidBySection<'a> {
    transport: Transport<'a>,
    direction: Option<&'a str>,
    max_message_size: Option<u64>,
    mid: Option<&'a str>,
    msid: Option<&'a Msid>,
    rtcp: Option<&'a str>,
    rtcp_mux: Option<&'a str>,
    rtcp_mux_only: Option<&'a str>,
    rtcp_rsize: Option<&'a str>,
    sctp_init: Option<&'a str>,
    sctp_port: Option<u64>,
    simulcast: Option<&'a MediaAttribute>,
}

impl<'a> SaidBySection<'a> {
    fn unsaid() -> SaidBySection<'a> {
        SaidBySection {
            transport: Transport::unsaid(),
            direction: None,
            max_message_size: None,
            mid: None,
            msid: None,
            rtcp: None,
            rtcp_mux: None,
            rtcp_mux_only: None,
            rtcp_rsize: None,
            sctp_init: None,
            sctp_port: None,
            simulcast: None,
        }
    }

    fn by(attrs: &'a [MediaAttribute]) -> SaidBySection<'a> {
        let mut said = SaidBySection::unsaid();
        for attr in attrs {
            said.note(attr);
        }
        said
    }

    /// Notes what an attribute says; whether it has a key.
    fn note(&mut self, attr: &'a MediaAttribute) -> bool {
        match attr {
            MediaAttribute::SendRecv => self.direction = Some(label::SEND_RECV),
            MediaAttribute::SendOnly => self.direction = Some(label::SEND_ONLY),
            MediaAttribute::RecvOnly => self.direction = Some(label::RECV_ONLY),
            MediaAttribute::Inactive => self.direction = Some(label::INACTIVE),
            MediaAttribute::MaxMessageSize(size) => self.max_message_size = Some(*size),
            MediaAttribute::Mid(mid) => self.mid = Some(mid.as_str()),
            MediaAttribute::Msid(msid) => self.msid = Some(msid),
            MediaAttribute::Rtcp(text) => self.rtcp = Some(text.as_str()),
            MediaAttribute::RtcpMux => self.rtcp_mux = Some(label::RTCP_MUX),
            MediaAttribute::RtcpMuxOnly => self.rtcp_mux_only = Some(label::RTCP_MUX_ONLY),
            MediaAttribute::RtcpRsize => self.rtcp_rsize = Some(label::RTCP_RSIZE),
            MediaAttribute::SctpInit(text) => self.sctp_init = Some(text.as_str()),
            MediaAttribute::SctpPort(port) => self.sctp_port = Some(u64::from(*port)),
            MediaAttribute::Simulcast(layers) if are_layers_printed(layers) => self.simulcast =
                Some(attr),
            MediaAttribute::Simulcast(_) => {}
            _ => return self.note_transport(attr),
        }
        true
    }

    fn note_transport(&mut self, attr: &'a MediaAttribute) -> bool {
        let said = &mut self.transport;
        match attr {
            MediaAttribute::EndOfCandidates => said.end_of_candidates = Some(
                label::END_OF_CANDIDATES,
            ),
            MediaAttribute::Fingerprint(hash) => said.fingerprint = Some(hash),
            MediaAttribute::IceOptions(text) => said.ice_options = Some(text.as_str()),
            MediaAttribute::IcePwd(text) => said.ice_pwd = Some(text.as_str()),
            MediaAttribute::IceUfrag(text) => said.ice_ufrag = Some(text.as_str()),
            MediaAttribute::Setup(setup) => said.setup = Some(*setup),
            _ => return false,
        }
        true
    }

    fn add_msid(&self, json: &mut JsonWriter) -> Result<(), AllocError>
        requires { InObject json.old }
        ensures { OnOk result (json.new ≡ json.old) }
    {
        match self.msid {
            Some(msid) => json.shown("msid", msid),
            None => Ok(()),
        }
    }
}

/// Whether an attribute has a key that is no list.
pub(crate) fn section_has_key<'a>(attr: &'a MediaAttribute) -> bool {
    let mut said: SaidBySection<'a> = SaidBySection::unsaid();
    said.note(attr)
}

/// The keys from `bandwidth` to `invalid`.
fn add_first_of_section(
    alloc: Global,
    json: &mut JsonWriter,
    head: &str,
    attrs: &[MediaAttribute],
    said: &SaidBySection<'_>,
) -> Result<(), AllocError>
    requires { InObject json.old }
    ensures { OnOk result (json.new ≡ json.old) }
{
    add_head_bandwidth(json, head)?;
    add_list(alloc, json, SectionList::Candidates, attrs)?;
    add_head_connection(json, head)?;
    json.maybe_text("direction", said.direction)?;
    said.transport.add_end_of_candidates(json)?;
    add_list(alloc, json, SectionList::Ext, attrs)?;
    said.transport.add_fingerprint(json)?;
    add_list(alloc, json, SectionList::Fmtp, attrs)?;
    said.transport.add_ice(json)?;
    add_list(alloc, json, SectionList::Invalid, attrs)
}

/// The keys from `maxMessageSize` to `rows`.
fn add_next_section_keys(
    alloc: Global,
    json: &mut JsonWriter,
    head: &str,
    section: &MediaLine,
    said: &SaidBySection<'_>,
) -> Result<(), AllocError>
    requires { InObject json.old }
    ensures { OnOk result (json.new ≡ json.old) }
{
    json.maybe_number("maxMessageSize", said.max_message_size)?;
    json.maybe_text("mid", said.mid)?;
    said.add_msid(json)?;
    add_head_formats(json, head)?;
    add_list(alloc, json, SectionList::Rids, section.attrs.as_slice())?;
    add_rows(json, section)
}

/// The keys from `rtcp` to `rtp`.
fn add_rtp_section_keys(
    alloc: Global,
    json: &mut JsonWriter,
    attrs: &[MediaAttribute],
    said: &SaidBySection<'_>,
) -> Result<(), AllocError>
    requires { InObject json.old }
    ensures { OnOk result (json.new ≡ json.old) }
{
    add_head_rtcp(json, said.rtcp)?;
    add_list(alloc, json, SectionList::RtcpFb, attrs)?;
    json.maybe_text("rtcpMux", said.rtcp_mux)?;
    json.maybe_text("rtcpMuxOnly", said.rtcp_mux_only)?;
    json.maybe_text("rtcpRsize", said.rtcp_rsize)?;
    add_list(alloc, json, SectionList::Rtp, attrs)
}

/// The keys from `sctpInit` on.
fn add_last_section_keys(
    alloc: Global,
    json: &mut JsonWriter,
    section: &MediaLine,
    said: &SaidBySection<'_>,
) -> Result<(), AllocError>
    requires { InObject json.old }
    ensures { OnOk result (json.new ≡ json.old) }
{
    let attrs = section.attrs.as_slice();
    json.maybe_text("sctpInit", said.sctp_init)?;
    json.maybe_number("sctpPort", said.sctp_port)?;
    said.transport.add_setup(json)?;
    add_layers(alloc, json, said.simulcast)?;
    add_list(alloc, json, SectionList::SsrcGroups, attrs)?;
    add_list(alloc, json, SectionList::Ssrcs, attrs)?;
    json.shown("type", &section.typ)
}

/// Adds a section to a list of them.
pub(crate) fn add_section(
    alloc: Global,
    json: &mut JsonWriter,
    section: &MediaLine,
) -> Result<(), AllocError>
    requires { InList json.old }
    ensures { OnOk result (json.new ≡ json.old) }
{
    let head = section_head(alloc, section)?;
    let attrs = section.attrs.as_slice();
    let said = SaidBySection::by(attrs);
    json.begin_item()?;
    add_first_of_section(alloc, json, head.as_str(), attrs, &said)?;
    add_next_section_keys(alloc, json, head.as_str(), section, &said)?;
    add_rtp_section_keys(alloc, json, attrs, &said)?;
    add_last_section_keys(alloc, json, section, &said)?;
    json.end_object()
}
