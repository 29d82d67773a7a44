//! The members of a session, in the order of their keys.

ghost use Rattle.c_json.specs.JsonWriter.{InObject};
ghost use Rattle.std.specs.Prelude.{◌≡◌, OnOk};

use crate::head::{
    add_head_bandwidth, add_head_origin, add_head_timing, add_head_version, session_head,
};
use crate::json_writer::JsonWriter;
use crate::lists::add_list;
use crate::section::add_section;
use crate::session_lists::SessionList;
use crate::transport::Transport;
use crate::words::words_after_beginning;
use std::alloc::{AllocError, Global};
use str0m_sdp::label;
use str0m_signal::{Items, MediaLine, Sdp, SessionAttribute, Text};

/// What the last attribute says that has the key, of keys that are no lists.
#[derive(Clone, Copy)]
struct SaidBySession<'a> {
    transport: Transport<'a>,
    allow_mixed: Option<&'a str>,
    ice_lite: Option<&'a str>,
    semantic: Option<(&'a Text, &'a Items<Text>)>,
}

impl<'a> SaidBySession<'a> {
    fn unsaid() -> SaidBySession<'a> {
        SaidBySession {
            transport: Transport::unsaid(),
            allow_mixed: None,
            ice_lite: None,
            semantic: None,
        }
    }

    fn by(attrs: &'a [SessionAttribute]) -> SaidBySession<'a> {
        let mut said = SaidBySession::unsaid();
        for attr in attrs {
            said.note(attr);
        }
        said
    }

    /// Notes what an attribute says; whether it has a key.
    fn note(&mut self, attr: &'a SessionAttribute) -> bool {
        let transport = &mut self.transport;
        match attr {
            SessionAttribute::AllowMixedExts => self.allow_mixed = Some(label::EXTMAP_ALLOW_MIXED),
            SessionAttribute::IceLite => self.ice_lite = Some(label::ICE_LITE),
            SessionAttribute::MsidSemantic {
                semantic,
                stream_ids,
            } => self.semantic = Some((semantic, stream_ids)),
            SessionAttribute::EndOfCandidates => {
                transport.end_of_candidates = Some(label::END_OF_CANDIDATES);
            }
            SessionAttribute::Fingerprint(hash) => transport.fingerprint = Some(hash),
            SessionAttribute::IceOptions(text) => transport.ice_options = Some(text.as_str()),
            SessionAttribute::IcePwd(text) => transport.ice_pwd = Some(text.as_str()),
            SessionAttribute::IceUfrag(text) => transport.ice_ufrag = Some(text.as_str()),
            SessionAttribute::Setup(setup) => transport.setup = Some(*setup),
            _ => return false,
        }
        true
    }

    fn add_semantic(&self, json: &mut JsonWriter) -> Result<(), AllocError>
        requires { InObject json.old }
        ensures { OnOk result (json.new ≡ json.old) }
    {
        let Some((semantic, ids)) = self.semantic else {
            return Ok(());
        };
        json.begin_object("msidSemantic")?;
        json.text("semantic", semantic.as_str())?;
        json.spaced("token", ids.as_slice())?;
        json.end_object()
    }
}

/// Whether an attribute has a key that is no list.
pub(crate) fn session_has_key<'a>(attr: &'a SessionAttribute) -> bool {
    let mut said: SaidBySession<'a> = SaidBySession::unsaid();
    said.note(attr)
}

fn add_session_media(
    alloc: Global,
    json: &mut JsonWriter,
    sections: &[MediaLine],
) -> Result<(), AllocError>
    requires { InObject json.old }
    ensures { OnOk result (json.new ≡ json.old) }
{
    json.begin_list("media")?;
    for section in sections {
        add_section(alloc, json, section)?;
    }
    json.end_list()
}

/// The keys from `bandwidth` to `invalid`.
fn add_first_of_session(
    alloc: Global,
    json: &mut JsonWriter,
    head: &str,
    attrs: &[SessionAttribute],
    said: &SaidBySession<'_>,
) -> Result<(), AllocError>
    requires { InObject json.old }
    ensures { OnOk result (json.new ≡ json.old) }
{
    add_head_bandwidth(json, head)?;
    add_list(alloc, json, SessionList::Candidates, attrs)?;
    said.transport.add_end_of_candidates(json)?;
    json.maybe_text("extmapAllowMixed", said.allow_mixed)?;
    said.transport.add_fingerprint(json)?;
    add_list(alloc, json, SessionList::Groups, attrs)?;
    said.transport.add_ice(json)?;
    json.maybe_text("icelite", said.ice_lite)?;
    add_list(alloc, json, SessionList::Invalid, attrs)
}

/// Adds all that a description says, with its sections.
pub(crate) fn add_session(alloc: Global, json: &mut JsonWriter, sdp: &Sdp) -> Result<(), AllocError>
    requires { InObject json.old }
    ensures { OnOk result (json.new ≡ json.old) }
{
    let text = session_head(alloc, &sdp.session)?;
    let head = text.as_str();
    let attrs = sdp.session.attrs.as_slice();
    let said = SaidBySession::by(attrs);
    add_first_of_session(alloc, json, head, attrs, &said)?;
    add_session_media(alloc, json, sdp.media_lines.as_slice())?;
    said.add_semantic(json)?;
    json.text("name", words_after_beginning(head, "s=").unwrap_or(""))?;
    add_head_origin(json, head)?;
    said.transport.add_setup(json)?;
    add_head_timing(json, head)?;
    add_head_version(json, head)
}
