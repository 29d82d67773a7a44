//! Parts of printed lines.

/// The text up to the first space, and what stands after it.
pub(crate) fn first_word(text: &str) -> (&str, &str) {
    text.split_once(' ').unwrap_or((text, ""))
}

/// What stands after the label of a printed attribute; `None` where it prints nothing.
pub(crate) fn words_after_label<'a>(line: &'a str, label: &str) -> Option<&'a str> {
    line.strip_prefix("a=")?
        .strip_prefix(label)?
        .strip_suffix("\r\n")
}

/// What stands in the first line that begins so.
pub(crate) fn words_after_beginning<'a>(text: &'a str, beginning: &str) -> Option<&'a str> {
    for line in text.lines() {
        if let Some(said) = line.strip_prefix(beginning) {
            return Some(said);
        }
    }
    None
}
