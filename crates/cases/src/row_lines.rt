//! The lines that describe rows, after one that was there before.

use format_cases::{Answer, rows_of};
use str0m_signal::{AsMediaAttrs, Items, MediaAttribute, PayloadParams};

/// `row-lines ROWS`; whether it is this word.
pub(crate) fn answers(answer: &mut Answer, word: &str, text: &str) -> bool {
    if word == "row-lines" {
        row_lines(answer, text);
    }
    word == "row-lines"
}

fn row_lines(answer: &mut Answer, text: &str) {
    let rows = rows_of(answer, text);
    let mut lines = Items::empty(answer.alloc());
    answer.note(lines.push(MediaAttribute::RtcpMux));
    for row in rows.iter() {
        append_lines(answer, &mut lines, row);
    }
    show_lines(answer, lines.as_slice());
}

/// Appends the row's lines. Where that is refused, the list has to be what it was.
fn append_lines(answer: &mut Answer, lines: &mut Items<MediaAttribute>, row: &PayloadParams) {
    let none = Items::empty(answer.alloc());
    let before = answer.kept(lines.clone(), none);
    if row.as_media_attrs(&mut lines.0).is_err() {
        answer.refuse_if(*lines == before);
    }
}

fn show_lines(answer: &mut Answer, lines: &[MediaAttribute]) {
    let mut separator = "";
    for line in lines {
        let printed = answer.printed(line);
        answer.push(separator);
        answer.push(printed.trim_end());
        separator = "\n";
    }
}
