//! Rows and lists as answers show them.

use crate::answer::Answer;
use str0m_formats::{CodecSpec, PayloadParams};

/// The text, and `-` for an empty one.
pub(crate) fn push_answer_or_dash(answer: &mut Answer, text: &str) {
    answer.push(if text.is_empty() { "-" } else { text });
}

/// A codec with its rates, as `opus/48000/2`.
pub(crate) fn show_codec(answer: &mut Answer, spec: &CodecSpec) {
    answer.show(&spec.codec);
    answer.push("/");
    answer.show(&spec.clock_rate);
    if let Some(channels) = spec.channels {
        answer.push("/");
        answer.show(&channels);
    }
}

/// A row as a case writes it.
pub(crate) fn show_row(answer: &mut Answer, row: &PayloadParams) {
    show_row_types(answer, row);
    let spec = row.spec();
    show_codec(answer, &spec);
    answer.push(" ");
    let format = answer.printed(&spec.format);
    push_answer_or_dash(answer, format.as_str());
    answer.push_if(!row.fb_transport_cc(), " no-transport-cc");
}

fn show_row_types(answer: &mut Answer, row: &PayloadParams) {
    answer.show(&row.pt());
    answer.push(" ");
    answer.show_or(&row.resend(), "-");
    answer.push(" ");
    answer.show_or(&row.red(), "-");
    answer.push(" ");
}

/// The rows, each after `locked` or `open`; `none` for no row.
pub fn show_rows(answer: &mut Answer, rows: &[PayloadParams]) {
    answer.push_if(rows.is_empty(), "none");
    let mut separator = "";
    for row in rows {
        answer.push(separator);
        answer.push(if row.locked() { "locked " } else { "open " });
        show_row(answer, row);
        separator = " + ";
    }
}
