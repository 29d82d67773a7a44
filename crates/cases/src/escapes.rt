//! Texts of several lines as one, and answers of several lines.

use format_cases::Answer;

/// The text that a case writes with `\r`, `\n`, `\t` and `\\`.
pub(crate) fn push_unescaped(unescaped: &mut Answer, text: &str) {
    let mut is_escaped = false;
    for character in text.chars() {
        if is_escaped {
            unescaped.show(&escape_meaning(character));
            is_escaped = false;
        } else if character == '\\' {
            is_escaped = true;
        } else {
            unescaped.show(&character);
        }
    }
}

fn escape_meaning(escape: char) -> char {
    match escape {
        'r' => '\r',
        'n' => '\n',
        't' => '\t',
        itself => itself,
    }
}

/// The text as an answer writes it: a line break stands after each `\n` but the last.
pub(crate) fn push_escaped(answer: &mut Answer, text: &str) {
    for character in text.trim_end_matches('\n').chars() {
        match character {
            '\r' => answer.push("\\r"),
            '\n' => answer.push("\\n\n"),
            '\t' => answer.push("\\t"),
            '\\' => answer.push("\\\\"),
            itself => answer.show(&itself),
        }
    }
    answer.push_if(text.ends_with('\n'), "\\n");
}

/// The answer after `=>`: a space before it, and its further lines under its first.
pub(crate) fn push_indented(shown: &mut Answer, answer: &str) {
    shown.push_if(!answer.is_empty(), " ");
    for character in answer.chars() {
        shown.show(&character);
        shown.push_if(character == '\n', "   ");
    }
}
