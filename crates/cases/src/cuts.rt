//! The beginnings of one text, as offers.

use crate::spoken::push_failure_to_speak;
use format_cases::Answer;
use std::str;
use str0m_signal::{MediaAttribute, MediaLine, SdpError, SdpOffer};

/// A header and a section of Opus: 198 bytes.
const OPUS_TO_CUT: &str =
    "v=0\r\no=- 7 2 IN IP4 127.0.0.1\r\ns=-\r\nt=0 0\r\nm=audio 9 UDP/TLS/RTP/SAVPF 111\r\nc=IN IP4 0.0.0.0\r\na=setup:actpass\r\na=mid:0\r\na=sendrecv\r\na=rtpmap:111 opus/48000/2\r\na=fmtp:111 minptime=10;useinbandfec=1\r\n";

/// How many sections are read of the text's first bytes, so many as the number says.
pub(crate) fn cut(answer: &mut Answer, number: &str) {
    match cut_beginning(number) {
        Some(text) => sections_of(answer, text),
        None => answer.push("no beginning"),
    }
}

fn cut_beginning(number: &str) -> Option<&'static str> {
    let len = number.parse::<usize>().ok()?;
    let bytes = OPUS_TO_CUT.as_bytes().get(..len)?;
    str::from_utf8(bytes).ok()
}

/// How many sections the text has, and the clock rate of each.
fn sections_of(answer: &mut Answer, text: &str) {
    let read = SdpOffer::from_sdp_string(answer.alloc(), text);
    sections_read(answer, &read);
}

fn sections_read(answer: &mut Answer, read: &Result<SdpOffer, SdpError>) {
    match read {
        Ok(offer) => show_sections(answer, offer.media_lines.as_slice()),
        Err(error) => push_failure_to_speak(answer, error),
    }
}

fn show_sections(answer: &mut Answer, sections: &[MediaLine]) {
    answer.push("sections ");
    answer.show(&sections.len());
    for section in sections {
        answer.push(", clock rate ");
        answer.show(&clock_rate_of_cut(section));
        answer.push(" Hz");
    }
}

/// The clock rate of the section's last mapping; 0 where it has none.
fn clock_rate_of_cut(section: &MediaLine) -> u32 {
    let mut rate = 0;
    for attribute in section.attrs.as_slice() {
        if let MediaAttribute::RtpMap { value, .. } = attribute {
            rate = value.clock_rate.get();
        }
    }
    rate
}
