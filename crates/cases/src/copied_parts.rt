//! Copies of parts of a description, each by the call of its own type.

use crate::lines::push_printed;
use crate::spoken::fail_to_speak;
use format_cases::Answer;
use std::alloc::AllocError;
use std::fmt::Display;
use str0m_signal::{
    Bandwidth, MediaAttribute, MediaLine, MediaType, Msid, RestrictionId, Session,
    SessionAttribute, Simulcast, SimulcastGroups, SimulcastLayer, Text, sdp_parser,
};

/// A line for each copy: of the session's bandwidth and its attributes, of the first section's media type, stream, attributes and
/// layers.
pub(crate) fn copied_layer(answer: &mut Answer, text: &str) {
    match &sdp_parser(answer.alloc(), text) {
        Ok((sdp, _)) => {
            copies_of_session(answer, &sdp.session);
            of_sections(answer, sdp.media_lines.as_slice());
        }
        Err(error) => fail_to_speak(answer, error),
    }
}

fn copies_of_session(answer: &mut Answer, session: &Session) {
    if let Some(bandwidth) = &session.bw {
        show_copied_bandwidth(answer, bandwidth);
    }
    for attribute in session.attrs.as_slice() {
        of_session_attribute(answer, attribute);
    }
}

fn of_sections(answer: &mut Answer, sections: &[MediaLine]) {
    if let Some(section) = sections.first() {
        show_copied_type(answer, &section.typ);
        let msid = section.msid();
        if let Some(msid) = answer.found(&msid) {
            show_copied_msid(answer, msid);
        }
        for attribute in section.attrs.as_slice() {
            of_media_attribute(answer, attribute);
        }
        let simulcast = section.simulcast();
        if let Some(simulcast) = answer.found(&simulcast) {
            show_copied_simulcast(answer, simulcast);
        }
    }
}

fn show_copied_bandwidth(answer: &mut Answer, bandwidth: &Bandwidth) {
    show_copy(answer, "bandwidth", &bandwidth.clone());
}

fn of_session_attribute(answer: &mut Answer, attribute: &SessionAttribute) {
    show_copy(answer, "attribute", &attribute.clone());
}

fn show_copied_type(answer: &mut Answer, typ: &MediaType) {
    show_copy(answer, "type", &typ.clone());
}

fn show_copied_msid(answer: &mut Answer, msid: &Msid) {
    show_copy(answer, "msid", &msid.clone());
    show_copied_text(answer, &msid.track_id);
}

fn show_copied_text(answer: &mut Answer, text: &Text) {
    show_copy(answer, "track", &text.clone());
}

fn of_media_attribute(answer: &mut Answer, attribute: &MediaAttribute) {
    show_copy(answer, "attribute", &attribute.clone());
}

fn show_copied_simulcast(answer: &mut Answer, simulcast: &Simulcast) {
    let copy = simulcast.clone();
    if let Some(copy) = answer.made(&copy) {
        show_copied_layers(answer, &copy.send);
    }
}

fn show_copied_layers(answer: &mut Answer, layers: &SimulcastGroups) {
    show_copy(answer, "layers", &layers.clone());
    for layer in layers.0.as_slice() {
        show_copied_layer(answer, layer);
    }
}

fn show_copied_layer(answer: &mut Answer, layer: &SimulcastLayer) {
    show_copy(answer, "layer", &layer.clone());
    show_copied_name(answer, &layer.restriction_id);
}

fn show_copied_name(answer: &mut Answer, name: &RestrictionId) {
    show_copy(answer, "name", &name.clone());
}

fn show_copy<T: Display>(answer: &mut Answer, label: &str, copy: &Result<T, AllocError>) {
    if let Some(copy) = answer.made(copy) {
        answer.line(label);
        push_printed(answer, copy);
    }
}
