//! What sections say (RFC 8866, section 5.14), and their direction when it is set.

use crate::escapes::push_escaped;
use crate::said_by_both::{
    add_said_credentials, add_said_fingerprint, add_said_flag, add_said_foundations, add_said_setup,
};
use crate::spoken::spoken_section;
use format_cases::Answer;
use str0m_signal::{Direction, MediaLine, Simulcast};

/// Answers what the word asks of the text; whether it is one of these words.
pub(crate) fn answers(answer: &mut Answer, word: &str, text: &str) -> bool {
    match word {
        "section-says" => section_says(answer, text),
        "set-direction" => section_with_direction(answer, text),
        _ => return false,
    }
    true
}

/// All that a section says, a line each.
fn section_says(answer: &mut Answer, text: &str) {
    let section = spoken_section(answer, text);
    add_section_role(answer, &section);
    add_section_transport(answer, &section);
    add_section_data(answer, &section);
    add_section_streams(answer, &section);
    add_section_layers(answer, &section);
}

fn add_section_role(answer: &mut Answer, section: &MediaLine) {
    if section.has_mid() {
        answer.line("mid");
        answer.show(&section.mid());
    }
    answer.line("direction");
    answer.push(section_direction_word(section.direction()));
    answer.push_if(!section.has_direction(), ", as none is said");
    add_said_setup(answer, section.setup());
}

fn section_direction_word(direction: Direction) -> &'static str {
    match direction {
        Direction::SendRecv => "sendrecv",
        Direction::SendOnly => "sendonly",
        Direction::RecvOnly => "recvonly",
        Direction::Inactive => "inactive",
    }
}

fn add_section_transport(answer: &mut Answer, section: &MediaLine) {
    add_said_credentials(answer, &section.ice_creds());
    add_said_fingerprint(answer, &section.fingerprint());
    add_said_foundations(answer, section.ice_candidates());
    add_said_flag(answer, "end of candidates", section.end_of_candidates());
}

fn add_section_data(answer: &mut Answer, section: &MediaLine) {
    if let Some(init) = section.sctp_init() {
        answer.line("sctp-init");
        answer.push(init);
    }
    if let Some(size) = section.max_message_size() {
        answer.line("max-message-size");
        answer.show(&size);
    }
}

fn add_section_streams(answer: &mut Answer, section: &MediaLine) {
    let msid = section.msid();
    if let Some(msid) = answer.found(&msid) {
        answer.line("msid");
        answer.show(msid);
    }
    add_section_extensions(answer, section);
    add_section_rids(answer, section);
}

fn add_section_extensions(answer: &mut Answer, section: &MediaLine) {
    let all = section.extmaps();
    if let Some(all) = answer.made(&all) {
        for (index, (id, extension)) in all.iter().enumerate() {
            answer.item_of_line("extensions", index);
            answer.show(id);
            answer.push(" ");
            answer.push(extension.as_uri());
        }
    }
}

fn add_section_rids(answer: &mut Answer, section: &MediaLine) {
    let all = section.rids();
    if let Some(all) = answer.made(&all) {
        for (index, rid) in all.iter().enumerate() {
            answer.item_of_line("rids", index);
            answer.show(rid);
        }
    }
}

/// The layers of both ways, and what the other side calls them.
fn add_section_layers(answer: &mut Answer, section: &MediaLine) {
    match section.simulcast() {
        Ok(Some(simulcast)) => {
            add_section_ways(answer, "simulcast", &simulcast);
            add_section_ways(answer, "inverted", &simulcast.invert());
        }
        Ok(None) => {}
        Err(_) => answer.refuse(),
    }
}

fn add_section_ways(answer: &mut Answer, label: &str, simulcast: &Simulcast) {
    answer.line(label);
    answer.push("send `");
    answer.show(&simulcast.send);
    answer.push("` recv `");
    answer.show(&simulcast.recv);
    answer.push("`");
    answer.push_if(simulcast.is_munged, ", munged");
}

/// The word's direction is set in a section of the lines after it: the direction then, and the section.
fn section_with_direction(answer: &mut Answer, text: &str) {
    let (word, lines) = text.split_once(' ').unwrap_or((text, ""));
    let mut section = spoken_section(answer, lines);
    if section.has_direction() {
        section.set_direction(direction_of_section(word));
        show_turned_section(answer, &section);
    } else {
        answer.push("no direction to set");
    }
}

/// The section's direction, and the section.
fn show_turned_section(answer: &mut Answer, section: &MediaLine) {
    answer.push(section_direction_word(section.direction()));
    answer.push("\n");
    let printed = section.to_string(answer.alloc());
    if let Some(printed) = answer.made(&printed) {
        push_escaped(answer, printed.as_str());
    }
}

fn direction_of_section(word: &str) -> Direction {
    match word {
        "sendrecv" => Direction::SendRecv,
        "sendonly" => Direction::SendOnly,
        "recvonly" => Direction::RecvOnly,
        _ => Direction::Inactive,
    }
}
