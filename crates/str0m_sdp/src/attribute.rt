//! The attributes of sessions and of sections.
ghost use Rattle.std.specs.Fmt.{WritesOnOk};
ghost use Rattle.std.specs.Prelude.{◌≡◌, false, true, IfOk, Some, refl};
ghost use Rattle.str0m_sdp.specs.attribute.Attribute.{session_attribute_text, media_attribute_text, direction_attribute, session_words, media_words, attribute_word_read, is_session_text_alone, has_session_values, is_media_text_alone, has_one_media_value, has_many_media_values};
ghost use Rattle.str0m_sdp.specs.form.Printed.{attribute_line};

use crate::attribute::ext_map::write_ext_map;
use crate::attribute::feedback::write_feedback;
use crate::attribute::fmtp::write_fmtp;
use crate::attribute::group::{GroupLine, MsidSemanticLine};
use crate::attribute::msid::Msid;
use crate::attribute::rid::RidLine;
use crate::attribute::rtp_map::{RtpMap, write_rtp_map};
use crate::attribute::setup::Setup;
use crate::attribute::simulcast::{RestrictionId, Simulcast, SimulcastLine};
use crate::attribute::source::write_source;
use crate::attribute::ssrc_group::SsrcGroupLine;
use crate::form::printed::{Printed, write_alone, write_labelled, write_value};
use crate::form::word::Word;
use crate::label;
use std::alloc::AllocError;
use std::fmt;
use str0m_formats::FormatParam;
use str0m_values::{
    Boxed, Candidate, Direction, Extension, Fingerprint, Items, Mid, Name, Pt, Ssrc, Text,
};

pub(crate) mod bandwidth;
pub(crate) mod ext_map;
pub(crate) mod feedback;
pub(crate) mod fmtp;
pub(crate) mod group;
pub(crate) mod media_type;
pub(crate) mod msid;
pub(crate) mod proto;
pub(crate) mod random_msid;
pub(crate) mod rid;
pub(crate) mod rtp_map;
pub(crate) mod setup;
pub(crate) mod simulcast;
pub(crate) mod source;
pub(crate) mod ssrc_group;

/// An attribute line of a session (RFC 8866, section 5.13).
#[derive(Clone, Debug, PartialEq, Eq, Drop)]
pub enum SessionAttribute {
    /// `a=group:` (RFC 5888, section 5; RFC 8843, section 5; now RFC 9143, section 5).
    Group {
        /// What the sections have in common, as `BUNDLE`.
        typ: Text,
        /// The names of the sections, in order.
        mids: Items<Mid>,
    },
    /// `a=msid-semantic:` (an early draft of RFC 8830).
    MsidSemantic {
        /// What the ids mean, as `WMS`.
        semantic: Text,
        /// The ids of streams, in order.
        stream_ids: Items<Text>,
    },
    /// `a=extmap-allow-mixed` (RFC 8285, section 6).
    AllowMixedExts,
    /// `a=ice-lite` (RFC 8839, section 5.3).
    IceLite,
    /// `a=ice-ufrag:` (RFC 8839, section 5.4).
    IceUfrag(Text),
    /// `a=ice-pwd:` (RFC 8839, section 5.4).
    IcePwd(Text),
    /// `a=ice-options:` (RFC 8839, section 5.6).
    IceOptions(Text),
    /// `a=fingerprint:` (RFC 8122, section 5).
    Fingerprint(Fingerprint),
    /// `a=setup:` (RFC 8842, section 5.2).
    Setup(Setup),
    /// `a=candidate:` (RFC 8839, section 5.1).
    Candidate(Boxed<Candidate>),
    /// `a=end-of-candidates` (RFC 8840, section 8.1).
    EndOfCandidates,
    /// Any other attribute, as the text after `a=`.
    Unused(Text),
}

/// An attribute line of a section (RFC 8866, section 5.13). What is large and rare lies in memory of its own, since each line
/// takes as much room as the largest.
#[derive(Clone, Debug, PartialEq, Eq, Drop)]
pub enum MediaAttribute {
    /// `a=rtcp:` (RFC 3605, section 2.1).
    Rtcp(Text),
    /// `a=ice-ufrag:` (RFC 8839, section 5.4).
    IceUfrag(Text),
    /// `a=ice-pwd:` (RFC 8839, section 5.4).
    IcePwd(Text),
    /// `a=ice-options:` (RFC 8839, section 5.6).
    IceOptions(Text),
    /// `a=fingerprint:` (RFC 8122, section 5).
    Fingerprint(Fingerprint),
    /// `a=setup:` (RFC 8842, section 5.2).
    Setup(Setup),
    /// `a=mid:` (RFC 5888, section 4).
    Mid(Mid),
    /// `a=sctp-port:` (RFC 8841, section 5).
    SctpPort(u16),
    /// `a=max-message-size:` in bytes (RFC 8841, section 6).
    MaxMessageSize(u64),
    /// `a=sctp-init:`, an INIT chunk of SCTP in base 64 (draft-hancke-tsvwg-snap).
    SctpInit(Text),
    /// `a=extmap:` (RFC 8285, section 5).
    ExtMap {
        /// The number of the extension in RTP packets, 0 to 255.
        id: u8,
        /// The extension, by its URI.
        ext: Extension,
    },
    /// `a=recvonly` (RFC 8866, section 6.7.1).
    RecvOnly,
    /// `a=sendrecv` (RFC 8866, section 6.7.2).
    SendRecv,
    /// `a=sendonly` (RFC 8866, section 6.7.3).
    SendOnly,
    /// `a=inactive` (RFC 8866, section 6.7.4).
    Inactive,
    /// `a=msid:` (RFC 8830, section 2).
    Msid(Msid),
    /// `a=rtcp-mux` (RFC 5761, section 5.1.1).
    RtcpMux,
    /// `a=rtcp-mux-only` (RFC 8858, section 3).
    RtcpMuxOnly,
    /// `a=rtcp-rsize` (RFC 5506, section 5).
    RtcpRsize,
    /// `a=candidate:` (RFC 8839, section 5.1).
    Candidate(Boxed<Candidate>),
    /// `a=end-of-candidates` (RFC 8840, section 8.1).
    EndOfCandidates,
    /// `a=rtpmap:` (RFC 8866, section 6.6).
    RtpMap {
        /// The payload type; 0 to 127 in what is read.
        pt: Pt,
        /// The codec, its clock rate in Hz and its channels.
        value: RtpMap,
    },
    /// `a=rtcp-fb:` (RFC 4585, section 4.2).
    RtcpFb {
        /// The payload type; 0 to 127 in what is read.
        pt: Pt,
        /// The feedback, as `nack pli`.
        value: Text,
    },
    /// `a=fmtp:` (RFC 8866, section 6.15).
    Fmtp {
        /// The payload type; 0 to 127 in what is read.
        pt: Pt,
        /// The parameters of the format, in order.
        values: Items<FormatParam>,
    },
    /// `a=rid:` (RFC 8851, section 4). The direction is `send` or `recv` in what is read.
    Rid {
        /// The name of the stream. The line doesn't say whether the stream is active.
        id: Boxed<RestrictionId>,
        /// Which way the stream goes.
        direction: Word,
        /// The payload types that the stream may have, in order, 0 to 127 in what is read; none
        /// where it may have any.
        pt: Items<Pt>,
        /// The names and values of the other restrictions, in order (RFC 8851, section 5).
        restriction: Boxed<Items<(Text, Text)>>,
    },
    /// `a=simulcast:` (RFC 8853, section 5.1).
    Simulcast(Simulcast),
    /// `a=ssrc-group:` (RFC 5576, section 4.2).
    SsrcGroup {
        /// What the sources have in common, as `FID`.
        semantics: Text,
        /// The sources, in order.
        ssrcs: Items<Ssrc>,
    },
    /// `a=ssrc:` (RFC 5576, section 4.1).
    Ssrc {
        /// The source that the line speaks of.
        ssrc: Ssrc,
        /// The name of what it says, as `cname`.
        attr: Name,
        /// The text after the colon that ends the name.
        value: Text,
    },
    /// Any other attribute, as the text after `a=`.
    Unused(Text),
}

impl SessionAttribute {
    /// The attribute that is this word alone, as `ice-lite`; none where no attribute is.
    pub fn from_word(text: &str) -> Option<SessionAttribute>
        ensures { result ≡ attribute_word_read session_words text.now }
    {
        match text {
            label::EXTMAP_ALLOW_MIXED => Some(SessionAttribute::AllowMixedExts),
            label::ICE_LITE => Some(SessionAttribute::IceLite),
            label::END_OF_CANDIDATES => Some(SessionAttribute::EndOfCandidates),
            _ => None,
        }
    }

    /// A copy that equals its source; the only error is that memory was refused.
    pub fn clone(&self) -> Result<SessionAttribute, AllocError>
        ensures { IfOk result (λ attribute. attribute ≡ self.now) }
    {
        <SessionAttribute as Clone>::clone(self)
    }
}

impl MediaAttribute {
    /// The attribute that is this word alone, as `rtcp-mux`; none where no attribute is.
    pub fn from_word(text: &str) -> Option<MediaAttribute>
        ensures { result ≡ attribute_word_read media_words text.now }
    {
        match text {
            label::RECV_ONLY => Some(MediaAttribute::RecvOnly),
            label::SEND_RECV => Some(MediaAttribute::SendRecv),
            label::SEND_ONLY => Some(MediaAttribute::SendOnly),
            label::INACTIVE => Some(MediaAttribute::Inactive),
            label::RTCP_MUX => Some(MediaAttribute::RtcpMux),
            label::RTCP_MUX_ONLY => Some(MediaAttribute::RtcpMuxOnly),
            label::RTCP_RSIZE => Some(MediaAttribute::RtcpRsize),
            label::END_OF_CANDIDATES => Some(MediaAttribute::EndOfCandidates),
            _ => None,
        }
    }

    /// A copy that equals its source; the only error is that memory was refused.
    pub fn clone(&self) -> Result<MediaAttribute, AllocError>
        ensures { IfOk result (λ attribute. attribute ≡ self.now) }
    {
        <MediaAttribute as Clone>::clone(self)
    }
}

/// The attribute that says the direction of a section.
impl From<Direction> for MediaAttribute {
    ghost from_gives = { λ direction attribute. attribute ≡ direction_attribute direction };

    fn from(direction: Direction) -> MediaAttribute {
        match direction {
            Direction::SendRecv => MediaAttribute::SendRecv,
            Direction::SendOnly => MediaAttribute::SendOnly,
            Direction::RecvOnly => MediaAttribute::RecvOnly,
            Direction::Inactive => MediaAttribute::Inactive,
        }
    }
}

impl SessionAttribute {
    /// What the line says after `a=` where that is a text alone: a word, or all of what isn't known.
    #[inline]
    fn text_alone(&self) -> &str
        requires { is_session_text_alone self.now ≡ true }
        ensures { session_attribute_text self.now ≡ attribute_line result.now }
    {
        match self {
            SessionAttribute::AllowMixedExts => label::EXTMAP_ALLOW_MIXED,
            SessionAttribute::IceLite => label::ICE_LITE,
            SessionAttribute::EndOfCandidates => label::END_OF_CANDIDATES,
            SessionAttribute::Unused(text) => text.as_str(),
            _ => unreachable!(),
        }
    }
}

/// Writes the `a=` line of a text, with its end: of a label and the text, or of the text alone.
#[inline]
fn write_session_text<W: fmt::Write>(
    f: &mut fmt::Formatter<W>,
    attribute: &SessionAttribute,
) -> fmt::Result
    requires { has_session_values attribute.now ≡ false }
    ensures { WritesOnOk W.write_str_gives f.old result (session_attribute_text attribute.now) f.new }
{
    match attribute {
        SessionAttribute::IceUfrag(text) => write_labelled(f, label::ICE_UFRAG, text),
        SessionAttribute::IcePwd(text) => write_labelled(f, label::ICE_PWD, text),
        SessionAttribute::IceOptions(text) => write_labelled(f, label::ICE_OPTIONS, text),
        _ => write_alone(f, attribute.text_alone()),
    }
}

/// The `a=` line, with its end.
impl fmt::Display for SessionAttribute {
    ghost output = { λ attribute. Some (session_attribute_text attribute) };

    fn fmt<W: fmt::Write>(&self, f: &mut fmt::Formatter<W>) -> fmt::Result {
        match self {
            SessionAttribute::Group { typ, mids } => GroupLine { typ, mids }.fmt(f),
            SessionAttribute::MsidSemantic {
                semantic,
                stream_ids: ids,
            } => MsidSemanticLine { semantic, ids }.fmt(f),
            SessionAttribute::Fingerprint(hash) => write_labelled(f, label::FINGERPRINT, hash),
            SessionAttribute::Setup(setup) => write_labelled(f, label::SETUP, setup),
            SessionAttribute::Candidate(found) => write_value(f, found.get()),
            _ => write_session_text(f, self),
        }
    }
}

impl Printed for SessionAttribute {
    ghost text = { session_attribute_text };

    ghost prints = { λ _. refl };
}

impl MediaAttribute {
    /// What the line says after `a=` where that is a text alone: a word, or all of what isn't known.
    #[inline]
    fn text_alone(&self) -> &str
        requires { is_media_text_alone self.now ≡ true }
        ensures { media_attribute_text self.now ≡ attribute_line result.now }
    {
        match self {
            MediaAttribute::RecvOnly => label::RECV_ONLY,
            MediaAttribute::SendRecv => label::SEND_RECV,
            MediaAttribute::SendOnly => label::SEND_ONLY,
            MediaAttribute::Inactive => label::INACTIVE,
            MediaAttribute::RtcpMux => label::RTCP_MUX,
            MediaAttribute::RtcpMuxOnly => label::RTCP_MUX_ONLY,
            MediaAttribute::RtcpRsize => label::RTCP_RSIZE,
            MediaAttribute::EndOfCandidates => label::END_OF_CANDIDATES,
            MediaAttribute::Unused(text) => text.as_str(),
            _ => unreachable!(),
        }
    }
}

/// Writes the `a=` line of a text, with its end: of a label and the text, or of the text alone.
#[inline]
fn write_media_text<W: fmt::Write>(
    f: &mut fmt::Formatter<W>,
    attribute: &MediaAttribute,
) -> fmt::Result
    requires many { has_many_media_values attribute.now ≡ false }
    requires one { has_one_media_value attribute.now ≡ false }
    ensures { WritesOnOk W.write_str_gives f.old result (media_attribute_text attribute.now) f.new }
{
    match attribute {
        MediaAttribute::Rtcp(text) => write_labelled(f, label::RTCP, text),
        MediaAttribute::IceUfrag(text) => write_labelled(f, label::ICE_UFRAG, text),
        MediaAttribute::IcePwd(text) => write_labelled(f, label::ICE_PWD, text),
        MediaAttribute::IceOptions(text) => write_labelled(f, label::ICE_OPTIONS, text),
        MediaAttribute::SctpInit(text) => write_labelled(f, label::SCTP_INIT, text),
        _ => write_alone(f, attribute.text_alone()),
    }
}

/// Writes the `a=` line of a label and one value, with its end.
#[inline]
fn write_media_value<W: fmt::Write>(
    f: &mut fmt::Formatter<W>,
    attribute: &MediaAttribute,
) -> fmt::Result
    requires { has_many_media_values attribute.now ≡ false }
    ensures { WritesOnOk W.write_str_gives f.old result (media_attribute_text attribute.now) f.new }
{
    match attribute {
        MediaAttribute::Fingerprint(hash) => write_labelled(f, label::FINGERPRINT, hash),
        MediaAttribute::Setup(setup) => write_labelled(f, label::SETUP, setup),
        MediaAttribute::Mid(mid) => write_labelled(f, label::MID, mid),
        MediaAttribute::SctpPort(port) => write_labelled(f, label::SCTP_PORT, port),
        MediaAttribute::MaxMessageSize(size) => write_labelled(f, label::MAX_MESSAGE_SIZE, size),
        MediaAttribute::Msid(msid) => write_labelled(f, label::MSID, msid),
        MediaAttribute::Candidate(candidate) => write_value(f, candidate.get()),
        _ => write_media_text(f, attribute),
    }
}

/// The `a=` line, with its end; nothing for what has no line: an `Fmtp` none of whose values has a
/// text, an extension that isn't written, layers that are none or munged, a group without sources.
impl fmt::Display for MediaAttribute {
    ghost output = { λ attribute. Some (media_attribute_text attribute) };

    fn fmt<W: fmt::Write>(&self, f: &mut fmt::Formatter<W>) -> fmt::Result {
        match self {
            MediaAttribute::ExtMap { id, ext } => write_ext_map(f, *id, ext),
            MediaAttribute::RtpMap { pt, value } => write_rtp_map(f, *pt, *value),
            MediaAttribute::RtcpFb { pt, value } => write_feedback(f, *pt, value),
            MediaAttribute::Fmtp { pt, values } => write_fmtp(f, *pt, values.as_slice()),
            MediaAttribute::Rid {
                id,
                direction,
                pt: pts,
                restriction,
            } => RidLine {
                id: id.get(),
                direction,
                pts,
                restrictions: restriction.get(),
            }
            .fmt(f),
            MediaAttribute::Simulcast(simulcast) => SimulcastLine(simulcast).fmt(f),
            MediaAttribute::SsrcGroup { semantics, ssrcs } => {
                let ssrcs = ssrcs.as_slice();
                SsrcGroupLine { semantics, ssrcs }.fmt(f)
            }
            MediaAttribute::Ssrc { ssrc, attr, value } => write_source(f, *ssrc, attr, value),
            _ => write_media_value(f, self),
        }
    }
}

impl Printed for MediaAttribute {
    ghost text = { media_attribute_text };

    ghost prints = { λ _. refl };
}
