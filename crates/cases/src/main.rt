//! Answers cases: each line of standard input is a word and its text, as `address ::1`. It is written again, and under
//! it the answer, `=> ::1`, whose further lines are indented. In the text of a case `\r`, `\n`, `\t` and `\\` stand for
//! a carriage return, a line feed, a tab and a backslash; answers write them the same way.
#![tactic(auto)]

mod attribute_parts;
mod back_words;
mod copied_parts;
mod cuts;
mod descriptions;
mod escapes;
mod fmtp_lines;
mod held_texts;
mod layers;
mod line_words;
mod lines;
mod made_sections;
mod negotiated;
mod random_names;
mod read_back;
mod row_lines;
mod said_by_both;
mod said_by_sections;
mod said_by_sessions;
mod said_roles;
mod said_rows;
mod said_sources;
mod said_words;
mod section_shown;
mod spoken;
mod without_memory;
mod writable;

use crate::escapes::{push_indented, push_unescaped};
use format_cases::Answer;
use std::alloc::{AllocError, Global};
use std::io;

/// Answers what the word asks of the text.
fn answer_to(answer: &mut Answer, word: &str, text: &str) {
    let is_known = format_cases::answers(answer, word, text)
        || line_words::answers(answer, word, text)
        || said_words::answers(answer, word, text)
        || back_words::answers(answer, word, text);
    answer.push_if(!is_known, "no such word");
}

/// The text of a case as it is meant.
fn unescaped_case(alloc: Global, text: &str) -> Result<String, AllocError> {
    let mut meant = Answer::new(alloc);
    push_unescaped(&mut meant, text);
    meant.finish()
}

/// The answer as it stands after `=>`.
fn indented_answer(alloc: Global, answer: &str) -> Result<String, AllocError> {
    let mut shown = Answer::new(alloc);
    push_indented(&mut shown, answer);
    shown.finish()
}

fn answered_case(alloc: Global, word: &str, text: &str) -> Result<String, AllocError> {
    let mut answer = Answer::new(alloc);
    answer_to(&mut answer, word, text);
    answer.finish()
}

/// The case as it is written: its line, and its answer under it.
fn written_case(alloc: Global, line: &str) -> Result<String, AllocError> {
    let (word, text) = line.split_once(' ').unwrap_or((line, ""));
    let text = unescaped_case(alloc, text)?;
    let answer = answered_case(alloc, word, text.as_str())?;
    let answer = indented_answer(alloc, answer.as_str())?;
    format!(in alloc; "{line}\n=>{answer}")
}

fn main(rt: HostRuntime) -> io::Result<()> {
    for line in rt.lines(rt.alloc()) {
        let case = written_case(rt.alloc(), line?.as_str())?;
        println!(rt; "{case}")?;
    }
    Ok(())
}
