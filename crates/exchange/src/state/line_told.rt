//! Attributes that tell by what they hold that their lines are read as what they say.

ghost use Rattle.exchange.specs.state.LineByLine.{IsLineReadAlike, IsParamTold, is_line_text};
ghost use Rattle.std.specs.Prelude.{◌≡◌, ◌≢◌, ◌<◌, ◌&&◌, [], All, IsTrue};
ghost use Rattle.str0m_sdp.specs.declared.attribute.MediaAttribute.TheVariants.{ExtMap, Fingerprint as Hashed, Fmtp, IceOptions, IcePwd, IceUfrag, MaxMessageSize, Mid as Named, Msid as Streamed, RtcpFb, RtpMap as Mapped, SctpPort, Setup as InRole};
ghost use Rattle.str0m_values.specs.Cuts.{lacks};

use str0m_signal::{
    Codec, Extension, Fingerprint, FormatParam, MediaAttribute, Mid, Msid, Pt, RtpMap, Setup,
};
use str0m_values::Separator;
use str0m_values::cuts::has;

/// The highest payload type of RTP (RFC 3550, section 5.1).
pub(crate) const HIGHEST_TYPE: u8 = 127;

/// Whether the text is one or more characters, none of which ends a line.
fn is_line_text(text: &str) -> bool
    ensures { result ≡ is_line_text text.now }
{
    !text.is_empty() && !has(text, Separator::LineFeed) && !has(text, Separator::CarriageReturn)
}

/// Whether the text is such characters, none of which is a space.
fn is_line_word(text: &str) -> bool
    ensures { result ≡ is_line_text text.now && lacks 32 text.now }
{
    is_line_text(text) && !has(text, Separator::Space)
}

/// Whether the numbers of a mapping tell that its line is read as it.
#[tactic(auto, using(crate::proofs::state::LineToldLaws::line_mapping_told))]
fn is_mapping_told(pt: Pt, map: RtpMap) -> bool
    ensures { IsTrue result → IsLineReadAlike (Mapped pt map) }
{
    let hertz = map.clock_rate.get();
    match (map.codec, map.channels) {
        (Codec::Null, _) => false,
        (_, None) => pt.value() <= HIGHEST_TYPE && hertz > 0,
        (_, Some(channels)) => pt.value() <= HIGHEST_TYPE && hertz > 0 && channels > 0,
    }
}

/// Whether the type and the characters of feedback tell that its line is read as it.
#[tactic(auto, using(crate::proofs::state::LineToldLaws::line_feedback_told))]
fn is_feedback_told(pt: Pt, value: &str) -> bool
    ensures { IsTrue result → IsLineReadAlike (RtcpFb pt value.now) }
{
    pt.value() <= HIGHEST_TYPE && is_line_text(value)
}

/// Whether the characters of a header extension tell that its line is read as it.
#[tactic(auto, using(crate::proofs::state::LineToldLaws::line_extension_told))]
fn is_extension_told(id: u8, ext: &Extension) -> bool
    ensures { IsTrue result → IsLineReadAlike (ExtMap id ext.now) }
{
    ext.is_serialized() && is_line_word(ext.as_uri())
}

/// Whether a parameter has a key, and a value that is read back as it prints.
fn is_param_told(param: FormatParam) -> bool
    ensures { IsTrue result → IsParamTold param }
{
    matches!(
        param,
        FormatParam::MinPTime(_)
            | FormatParam::Stereo(_)
            | FormatParam::SpropStereo(_)
            | FormatParam::UseInbandFec(_)
            | FormatParam::UseDtx(_)
            | FormatParam::LevelAsymmetryAllowed(_)
            | FormatParam::PacketizationMode(_)
            | FormatParam::ProfileLevelId(_)
            | FormatParam::ProfileId(_)
            | FormatParam::Profile(_)
            | FormatParam::LevelIdx(_)
            | FormatParam::Tier(_)
            | FormatParam::OctetAlign(_)
            | FormatParam::Apt(_)
    )
}

fn are_params_told(values: &[FormatParam]) -> bool
    ensures { IsTrue result → (values.now ≢ []) × All IsParamTold values.now }
{
    !values.is_empty() && values.iter().all(|param| is_param_told(*param))
}

/// Whether the parameters of a format tell that its line is read as it.
#[tactic(auto, using(crate::proofs::state::LineToldLaws::line_format_told))]
fn is_format_told(pt: Pt, values: &[FormatParam]) -> bool
    ensures { IsTrue result → IsLineReadAlike (Fmtp pt values.now) }
{
    pt.value() <= HIGHEST_TYPE && are_params_told(values)
}

/// Whether a hash has a byte. That each has eight bits, its type says.
fn has_hash_bytes(bytes: &[u8]) -> bool
    ensures { IsTrue result → (bytes.now ≢ []) × All (λ byte. byte < 256) bytes.now }
{
    !bytes.is_empty()
}

/// Whether the name of a hash and its bytes tell that its line is read as it.
fn is_fingerprint_told(hash: &Fingerprint) -> bool
    ensures { IsTrue result → IsLineReadAlike (Hashed hash.now) }
{
    is_line_word(hash.hash_func.as_str()) && has_hash_bytes(hash.bytes.as_slice())
}

/// Whether the text of ICE credentials or options tells that its line is read as it.
fn is_ufrag_told(text: &str) -> bool
    ensures { IsTrue result → IsLineReadAlike (IceUfrag text.now) }
{
    is_line_text(text)
}

fn is_password_told(text: &str) -> bool
    ensures { IsTrue result → IsLineReadAlike (IcePwd text.now) }
{
    is_line_text(text)
}

fn are_options_told(text: &str) -> bool
    ensures { IsTrue result → IsLineReadAlike (IceOptions text.now) }
{
    is_line_text(text)
}

/// Whether the characters of a name tell that its line is read as it: a name has sixteen bytes at most.
fn is_mid_told(mid: Mid) -> bool
    ensures { IsTrue result → IsLineReadAlike (Named mid) }
{
    is_line_text(mid.as_str())
}

/// Whether the ids of a stream and a track tell that their line is read as they are.
fn is_stream_told(msid: &Msid) -> bool
    ensures { IsTrue result → IsLineReadAlike (Streamed msid.now) }
{
    is_line_word(msid.stream_id.as_str()) && is_line_text(msid.track_id.as_str())
}

#[tactic(auto, using(crate::proofs::state::LineToldLaws::line_role_told))]
fn is_role_told(role: Setup) -> bool
    ensures { IsTrue result → IsLineReadAlike (InRole role) }
{
    matches!(role, Setup::ActPass | Setup::Active | Setup::Passive)
}

/// Whether a port tells that its line is read as it: each does, since it has sixteen bits.
fn is_port_told(port: u16) -> bool
    ensures { IsTrue result → IsLineReadAlike (SctpPort port) }
{
    true
}

/// Whether the size of a message tells that its line is read as it: each does, since it has 64 bits.
fn is_size_told(size: u64) -> bool
    ensures { IsTrue result → IsLineReadAlike (MaxMessageSize size) }
{
    true
}

/// Whether an attribute is a word alone.
#[tactic(auto, using(crate::proofs::state::LineToldLaws::line_word_told))]
fn is_word_told(attr: &MediaAttribute) -> bool
    ensures { IsTrue result → IsLineReadAlike attr.now }
{
    matches!(
        attr,
        MediaAttribute::RecvOnly
            | MediaAttribute::SendRecv
            | MediaAttribute::SendOnly
            | MediaAttribute::Inactive
            | MediaAttribute::RtcpMux
            | MediaAttribute::RtcpMuxOnly
            | MediaAttribute::RtcpRsize
            | MediaAttribute::EndOfCandidates
    )
}

/// Whether what an attribute holds tells that its line is read as it: where it doesn't, nothing is said.
pub(crate) fn is_line_told(attr: &MediaAttribute) -> bool
    ensures { IsTrue result → IsLineReadAlike attr.now }
{
    match attr {
        MediaAttribute::RtpMap { pt, value } => is_mapping_told(*pt, *value),
        MediaAttribute::RtcpFb { pt, value } => is_feedback_told(*pt, value.as_str()),
        MediaAttribute::ExtMap { id, ext } => is_extension_told(*id, ext),
        MediaAttribute::Fmtp { pt, values } => is_format_told(*pt, values.as_slice()),
        MediaAttribute::IceUfrag(text) => is_ufrag_told(text.as_str()),
        MediaAttribute::IcePwd(text) => is_password_told(text.as_str()),
        MediaAttribute::IceOptions(text) => are_options_told(text.as_str()),
        MediaAttribute::Mid(mid) => is_mid_told(*mid),
        MediaAttribute::Msid(msid) => is_stream_told(msid),
        MediaAttribute::Setup(role) => is_role_told(*role),
        MediaAttribute::Fingerprint(hash) => is_fingerprint_told(hash),
        MediaAttribute::SctpPort(port) => is_port_told(*port),
        MediaAttribute::MaxMessageSize(size) => is_size_told(*size),
        _ => is_word_told(attr),
    }
}
