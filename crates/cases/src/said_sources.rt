//! What sections say of their sources (RFC 5576), and ids that say that there is no stream.

use crate::spoken::spoken_section;
use format_cases::Answer;
use str0m_signal::{SsrcInfo, Text, is_no_stream};

/// Answers what the word asks of the text; whether it is one of these words.
pub(crate) fn answers(answer: &mut Answer, word: &str, text: &str) -> bool {
    match word {
        "sources" => sources(answer, text),
        "stream-id" => answer.push(if is_no_stream(text) {
            "no stream"
        } else {
            "a stream"
        }),
        _ => return false,
    }
    true
}

/// Copies of the sources of an audio section with these lines, a line each.
fn sources(answer: &mut Answer, lines: &str) {
    let section = spoken_section(answer, lines);
    let found = section.ssrc_info();
    if let Some(found) = answer.made(&found) {
        show_sources(answer, found.as_slice());
    }
    answer.or_word("no source");
}

fn show_sources(answer: &mut Answer, sources: &[SsrcInfo]) {
    for info in sources {
        let copy = info.clone();
        if let Some(copy) = answer.made(&copy) {
            show_source(answer, copy);
        }
    }
}

/// A source, the one that it repairs, and its names, as far as they are said.
fn show_source(answer: &mut Answer, info: &SsrcInfo) {
    answer.item("\n");
    answer.show(&info.ssrc);
    if let Some(repaired) = info.repairs {
        answer.push(" repairs ");
        answer.show(&repaired);
    }
    add_source_name(answer, " cname ", &info.cname);
    add_source_name(answer, " stream ", &info.stream_id);
    add_source_name(answer, " track ", &info.track_id);
}

fn add_source_name(answer: &mut Answer, label: &str, name: &Option<Text>) {
    if let Some(name) = name {
        answer.push(label);
        answer.push(name.as_str());
    }
}
