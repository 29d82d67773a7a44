//! Attributes that hold a given text in one field, also a text that no line is read as.

use format_cases::Answer;
use std::alloc::{AllocError, Global};
use str0m_signal::{
    Boxed, Candidate, CandidateKind, Extension, Fingerprint, IpAddr, Items, MediaAttribute, Mid,
    Msid, Name, Protocol, Pt, RestrictionId, SessionAttribute, Simulcast, SimulcastGroups,
    SimulcastLayer, SocketAddr, Ssrc, Text, Word,
};

/// An attribute of a session with the text in this field; where there is no such field, one that is kept unread.
pub(crate) fn in_session(answer: &mut Answer, field: &str, text: &str) -> SessionAttribute {
    match field {
        "group" | "group-mid" => held_in_group(answer, field, text),
        "semantic" | "semantic-stream" => held_in_semantic(answer, field, text),
        "fingerprint" => SessionAttribute::Fingerprint(held_fingerprint(answer, text)),
        "candidate" => held_in_session_candidate(answer, text, None),
        "candidate-ufrag" => held_in_session_candidate(answer, "1", Some(text)),
        _ => in_session_line(field, text_of(answer, text)),
    }
}

fn held_in_group(answer: &mut Answer, field: &str, text: &str) -> SessionAttribute {
    let (typ, mids) = match field {
        "group" => (text, Items::empty(answer.alloc())),
        _ => ("1", one_held_item(answer, Mid::from(text))),
    };
    let typ = text_of(answer, typ);
    SessionAttribute::Group { typ, mids }
}

fn held_in_semantic(answer: &mut Answer, field: &str, text: &str) -> SessionAttribute {
    let (semantic, stream_ids) = match field {
        "semantic" => (text, Items::empty(answer.alloc())),
        _ => {
            let stream_id = text_of(answer, text);
            ("1", one_held_item(answer, stream_id))
        }
    };
    let semantic = text_of(answer, semantic);
    SessionAttribute::MsidSemantic {
        semantic,
        stream_ids,
    }
}

/// An attribute of a session whose line has one text.
fn in_session_line(field: &str, held: Text) -> SessionAttribute {
    match field {
        "ice-ufrag" => SessionAttribute::IceUfrag(held),
        "ice-pwd" => SessionAttribute::IcePwd(held),
        "ice-options" => SessionAttribute::IceOptions(held),
        _ => SessionAttribute::Unused(held),
    }
}

/// An attribute of a section with the text in this field; where there is no such field, one that is kept unread.
pub(crate) fn in_section(answer: &mut Answer, field: &str, text: &str) -> MediaAttribute {
    match field {
        "mid" => MediaAttribute::Mid(Mid::from(text)),
        "extension" => held_extension(answer, text),
        "fingerprint" => MediaAttribute::Fingerprint(held_fingerprint(answer, text)),
        "candidate" => held_in_candidate(answer, text, None),
        "candidate-ufrag" => held_in_candidate(answer, "1", Some(text)),
        _ => held_in_stream(answer, field, text),
    }
}

fn held_extension(answer: &mut Answer, uri: &str) -> MediaAttribute {
    match Extension::new(answer.alloc(), uri, true) {
        Ok(ext) => MediaAttribute::ExtMap { id: 1, ext },
        Err(_) => {
            answer.refuse();
            MediaAttribute::SendRecv
        }
    }
}

/// An attribute that speaks of streams or sources with the text in this field, and another text in the field beside it.
fn held_in_stream(answer: &mut Answer, field: &str, text: &str) -> MediaAttribute {
    match field {
        "msid-stream" => held_msid(answer, text, "1"),
        "msid-track" => held_msid(answer, "1", text),
        "source-group" => held_source_group(answer, text),
        "source-name" => held_source(answer, text, "1"),
        "source-value" => held_source(answer, "1", text),
        "send" | "recv" | "layer-note" => held_in_layer(answer, field, text),
        _ => held_in_rid(answer, field, text),
    }
}

fn held_msid(answer: &mut Answer, stream_id: &str, track_id: &str) -> MediaAttribute {
    let made = made_msid(answer.alloc(), stream_id, track_id);
    answer.kept(made, MediaAttribute::SendRecv)
}

fn made_msid(alloc: Global, stream_id: &str, track_id: &str) -> Result<MediaAttribute, AllocError> {
    let stream_id = Name::from_str(alloc, stream_id)?;
    let track_id = Text::from_str(alloc, track_id)?;
    Ok(MediaAttribute::Msid(Msid {
        stream_id,
        track_id,
    }))
}

fn held_source_group(answer: &mut Answer, semantics: &str) -> MediaAttribute {
    MediaAttribute::SsrcGroup {
        semantics: text_of(answer, semantics),
        ssrcs: one_held_item(answer, Ssrc::from(1)),
    }
}

fn held_source(answer: &mut Answer, attr: &str, value: &str) -> MediaAttribute {
    let made = made_source(answer.alloc(), attr, value);
    answer.kept(made, MediaAttribute::SendRecv)
}

fn made_source(alloc: Global, attr: &str, value: &str) -> Result<MediaAttribute, AllocError> {
    let attr = Name::from_str(alloc, attr)?;
    let value = Text::from_str(alloc, value)?;
    Ok(MediaAttribute::Ssrc {
        ssrc: Ssrc::from(1),
        attr,
        value,
    })
}

/// A rid whose restriction, if it has one, is named or given by the text; else an attribute of one text.
fn held_in_rid(answer: &mut Answer, field: &str, text: &str) -> MediaAttribute {
    let none = Items::empty(answer.alloc());
    match field {
        "rid" => held_rid(answer, text, "send", none),
        "rid-way" => held_rid(answer, "1", "x\r\na=mid:9", none),
        "rid-key" => {
            let restriction = noted_text(answer, text, "2");
            held_rid(answer, "1", "send", restriction)
        }
        "rid-value" => {
            let restriction = noted_text(answer, "2", text);
            held_rid(answer, "1", "send", restriction)
        }
        _ => in_line(field, text_of(answer, text)),
    }
}

/// An attribute of a section whose line has one text, beside which at most a payload type stands.
fn in_line(field: &str, held: Text) -> MediaAttribute {
    let pt = Pt::from(111);
    match field {
        "rtcp" => MediaAttribute::Rtcp(held),
        "ice-ufrag" => MediaAttribute::IceUfrag(held),
        "ice-pwd" => MediaAttribute::IcePwd(held),
        "ice-options" => MediaAttribute::IceOptions(held),
        "sctp-init" => MediaAttribute::SctpInit(held),
        "feedback" => MediaAttribute::RtcpFb { pt, value: held },
        _ => MediaAttribute::Unused(held),
    }
}

fn held_rid(
    answer: &mut Answer,
    name: &str,
    direction: &'static str,
    restriction: Items<(Text, Text)>,
) -> MediaAttribute {
    let id = RestrictionId::new_active(text_of(answer, name));
    let made = made_rid(answer.alloc(), id, Word(direction), restriction);
    answer.kept(made, MediaAttribute::SendRecv)
}

fn made_rid(
    alloc: Global,
    id: RestrictionId,
    direction: Word,
    restriction: Items<(Text, Text)>,
) -> Result<MediaAttribute, AllocError> {
    let id = Boxed::new(alloc, id)?;
    let restriction = Boxed::new(alloc, restriction)?;
    Ok(MediaAttribute::Rid {
        id,
        direction,
        pt: Items::empty(alloc),
        restriction,
    })
}

fn held_in_candidate(answer: &mut Answer, foundation: &str, ufrag: Option<&str>) -> MediaAttribute {
    let candidate = held_candidate(answer, foundation, ufrag);
    let made = made_candidate(answer.alloc(), candidate);
    answer.kept(made, MediaAttribute::SendRecv)
}

fn made_candidate(alloc: Global, candidate: Candidate) -> Result<MediaAttribute, AllocError> {
    let candidate = Boxed::new(alloc, candidate)?;
    Ok(MediaAttribute::Candidate(candidate))
}

fn held_in_session_candidate(
    answer: &mut Answer,
    foundation: &str,
    ufrag: Option<&str>,
) -> SessionAttribute {
    let candidate = held_candidate(answer, foundation, ufrag);
    let made = made_session_candidate(answer.alloc(), candidate);
    answer.kept(made, SessionAttribute::IceLite)
}

fn made_session_candidate(
    alloc: Global,
    candidate: Candidate,
) -> Result<SessionAttribute, AllocError> {
    let candidate = Boxed::new(alloc, candidate)?;
    Ok(SessionAttribute::Candidate(candidate))
}

/// A layer that is sent or received under this name; else one that is sent under another, of which the text is noted.
fn held_in_layer(answer: &mut Answer, field: &str, text: &str) -> MediaAttribute {
    let none = SimulcastGroups(Items::empty(answer.alloc()));
    let (send, recv) = match field {
        "send" => (held_layer(answer, text, None), none),
        "recv" => (none, held_layer(answer, text, None)),
        _ => {
            let notes = noted_text(answer, "x", text);
            (held_layer(answer, "1", Some(notes)), none)
        }
    };
    MediaAttribute::Simulcast(Simulcast {
        send,
        recv,
        is_munged: false,
    })
}

/// One layer, and what is noted of it.
fn held_layer(
    answer: &mut Answer,
    name: &str,
    attributes: Option<Items<(Text, Text)>>,
) -> SimulcastGroups {
    let restriction_id = RestrictionId::new_active(text_of(answer, name));
    let layer = SimulcastLayer {
        restriction_id,
        attributes,
    };
    SimulcastGroups(one_held_item(answer, layer))
}

/// A list of one key and its value.
fn noted_text(answer: &mut Answer, key: &str, value: &str) -> Items<(Text, Text)> {
    let (key, value) = (text_of(answer, key), text_of(answer, value));
    one_held_item(answer, (key, value))
}

/// A fingerprint of one byte.
fn held_fingerprint(answer: &mut Answer, hash_func: &str) -> Fingerprint {
    Fingerprint {
        hash_func: text_of(answer, hash_func),
        bytes: one_held_item(answer, 5),
    }
}

/// A candidate with this foundation and, where there is one, this user's fragment.
fn held_candidate(answer: &mut Answer, foundation: &str, ufrag: Option<&str>) -> Candidate {
    let foundation = text_of(answer, foundation);
    let ufrag = match ufrag {
        Some(ufrag) => Some(text_of(answer, ufrag)),
        None => None,
    };
    let addr = SocketAddr {
        ip: IpAddr::V4([192, 0, 2, 1]),
        port: 9,
    };
    let (proto, kind) = (Protocol::Udp, CandidateKind::Host);
    Candidate::from_parts(foundation, 1, proto, 1, addr, kind, None, None, ufrag)
}

pub(crate) fn text_of(answer: &mut Answer, text: &str) -> Text {
    let alloc = answer.alloc();
    answer.kept(Text::from_str(alloc, text), Text::empty())
}

/// A list of one item.
pub(crate) fn one_held_item<T: Drop>(answer: &mut Answer, item: T) -> Items<T> {
    let mut list = Items::empty(answer.alloc());
    answer.note(list.push(item));
    list
}
