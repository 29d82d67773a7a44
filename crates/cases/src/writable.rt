//! Whether sessions are writable, as they are read and with one change that no text makes.

use crate::escapes::push_escaped;
use crate::held_texts::{in_section, in_session, one_held_item, text_of};
use crate::spoken::spoken_description;
use format_cases::Answer;
use str0m_signal::{
    Bandwidth, FormatParam, Items, MediaAttribute, MediaLine, MediaType, Mid, Proto, Pt, Sdp,
    SdpOffer, Session, SessionAttribute, is_writable,
};

/// Two audio sections.
const WRITABLE_SECTIONS: &str =
    "m=audio 9 UDP/TLS/RTP/SAVPF 0\r\na=mid:0\r\na=sendrecv\r\nm=audio 9 UDP/TLS/RTP/SAVPF 0\r\na=mid:1\r\na=sendrecv\r\n";

/// Answers what the word asks of the text; whether it is one of these words.
pub(crate) fn answers(answer: &mut Answer, word: &str, text: &str) -> bool {
    match word {
        "writable" => writable(answer, text),
        "printed-with" => printed_with(answer, text),
        _ => return false,
    }
    true
}

/// `INDEX LINES | CHANGE`: whether the changed description is writable at the index.
fn writable(answer: &mut Answer, text: &str) {
    let (index, text) = text.split_once(' ').unwrap_or((text, ""));
    if let Some(sdp) = &changed_attribute(answer, text) {
        push_writable_at(answer, sdp, index);
    }
}

fn push_writable_at(answer: &mut Answer, sdp: &Sdp, index: &str) {
    match index.parse::<usize>() {
        Ok(index) => push_writable(answer, sdp, index),
        Err(_) => answer.push("no index"),
    }
}

fn push_writable(answer: &mut Answer, sdp: &Sdp, index: usize) {
    match is_writable(sdp, index) {
        Ok(is_writable) => answer.push(if is_writable { "true" } else { "false" }),
        Err(_) => answer.refuse(),
    }
}

/// `printed-with CHANGE`: what the change adds to the printed text of two sections, and whether the first and the second
/// are writable then.
fn printed_with(answer: &mut Answer, change: &str) {
    if let Some(mut sdp) = spoken_description(answer, WRITABLE_SECTIONS) {
        change_writable_description(answer, &mut sdp, change);
        show_offer(answer, &SdpOffer::from(sdp));
    }
}

fn show_offer(answer: &mut Answer, offer: &SdpOffer) {
    let printed = offer.to_sdp_string();
    if let Some(printed) = answer.made(&printed) {
        push_added_to_writable(answer, printed.as_str());
    }
    answer.push("\nwritable ");
    push_writable(answer, offer, 0);
    answer.push(", ");
    push_writable(answer, offer, 1);
}

/// What stands in the printed text beside what the two sections print.
fn push_added_to_writable(answer: &mut Answer, printed: &str) {
    if let Some(sdp) = &spoken_description(answer, WRITABLE_SECTIONS) {
        let (session, before) = (answer.printed(&sdp.session), answer.printed(sdp));
        let added = added_to_writable(printed, before.as_str(), session.as_str());
        push_escaped(answer, added);
    }
}

/// What stands in the printed text after the one before, or else between its session and its sections.
fn added_to_writable<'a>(printed: &'a str, before: &str, session: &str) -> &'a str {
    if let Some(added) = printed.strip_prefix(before) {
        return added;
    }
    match (printed.strip_prefix(session), before.strip_prefix(session)) {
        (Some(behind), Some(sections)) => behind.strip_suffix(sections).unwrap_or(behind),
        _ => printed,
    }
}

/// `LINES | CHANGE`: the description of the lines, changed.
pub(crate) fn changed_attribute(answer: &mut Answer, text: &str) -> Option<Sdp> {
    let (lines, change) = text.split_once(" | ").unwrap_or((text, ""));
    let mut sdp = spoken_description(answer, lines);
    if let Some(sdp) = &mut sdp {
        change_writable_description(answer, sdp, change);
    }
    sdp
}

/// Changes what the first word names: `session`, or a section by its number.
fn change_writable_description(answer: &mut Answer, sdp: &mut Sdp, change: &str) {
    let (place, change) = change.split_once(' ').unwrap_or((change, ""));
    let (change, text) = change.split_once(' ').unwrap_or((change, ""));
    match place.parse::<usize>() {
        Ok(index) => change_section(answer, &mut sdp.media_lines, index, change, text),
        Err(_) => change_session(answer, &mut sdp.session, change, text),
    }
}

fn change_session(answer: &mut Answer, session: &mut Session, change: &str, text: &str) {
    match change {
        "" => {}
        "bandwidth" => session.bw = Some(changed_bandwidth(answer, text)),
        "mixed" => answer.note(session.attrs.push(SessionAttribute::AllowMixedExts)),
        field => {
            let attribute = in_session(answer, field, text);
            answer.note(session.attrs.push(attribute));
        }
    }
}

fn change_section(
    answer: &mut Answer,
    sections: &mut Items<MediaLine>,
    index: usize,
    change: &str,
    text: &str,
) {
    if let Some(section) = sections.0.get_mut(index) {
        match change {
            "type" => section.typ = MediaType::Unknown(text_of(answer, text)),
            "sctp" => section.proto = Proto::Sctp,
            "srtp" => section.proto = Proto::Srtp,
            "bandwidth" => section.bw = Some(changed_bandwidth(answer, text)),
            _ => change_attributes(answer, &mut section.attrs, change, text),
        }
    }
}

/// A name and a direction alone, or one attribute more, which may hold what no line is read as.
fn change_attributes(
    answer: &mut Answer,
    attributes: &mut Items<MediaAttribute>,
    change: &str,
    text: &str,
) {
    if change == "named" {
        attributes.0.clear();
        answer.note(attributes.push(MediaAttribute::Mid(Mid::from(text))));
        answer.note(attributes.push(MediaAttribute::SendRecv));
    } else {
        let attribute = attribute(answer, change, text);
        answer.note(attributes.push(attribute));
    }
}

/// The type and value that stand before and after the first colon.
fn changed_bandwidth(answer: &mut Answer, text: &str) -> Bandwidth {
    let (typ, val) = text.split_once(':').unwrap_or((text, ""));
    Bandwidth {
        typ: text_of(answer, typ),
        val: text_of(answer, val),
    }
}

fn attribute(answer: &mut Answer, word: &str, text: &str) -> MediaAttribute {
    match word {
        "events" => changed_fmtp_of(answer, FormatParam::TelephoneEvents(15)),
        "red" => changed_fmtp_of(answer, FormatParam::Red(Pt::from(111))),
        "distance" => changed_fmtp_of(answer, FormatParam::SpropMaxDonDiff(40_000)),
        "unknown" => changed_fmtp_of(answer, FormatParam::Unknown),
        field => in_section(answer, field, text),
    }
}

/// An fmtp line of the payload type 96 with this value alone.
fn changed_fmtp_of(answer: &mut Answer, value: FormatParam) -> MediaAttribute {
    MediaAttribute::Fmtp {
        pt: Pt::from(96),
        values: one_held_item(answer, value),
    }
}
