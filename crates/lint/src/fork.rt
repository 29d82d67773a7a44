//! Where two lines begin to differ.
ghost use Rattle.std.specs.Prelude.{◌<◌, IfSome, length};

/// Whether the character parts words of a line.
fn is_fork_separator(byte: u8) -> bool {
    matches!(byte, b' ' | b':' | b';' | b',' | b'=' | b'/')
}

/// How many bytes of two lines are the same, up to the last separator before they differ; where the line goes on after what is printed
/// with a separator, with that.
fn fork_start(line: &[u8], printed: &[u8]) -> usize {
    let shorter = line.len().min(printed.len());
    let mut start = 0usize;
    for i in 0..shorter {
        if line[i] != printed[i] {
            return start;
        }
        if is_fork_separator(line[i]) {
            start = i + 1;
        }
    }
    match line.get(shorter) {
        Some(byte) if is_fork_separator(*byte) => shorter.saturating_add(1),
        _ => start,
    }
}

/// What stands in two lines from the word on in which they differ.
pub(crate) fn fork<'a, 'b>(line: &'a str, printed: &'b str) -> (&'a str, &'b str) {
    let start = fork_start(line.as_bytes(), printed.as_bytes());
    (
        line.get(start..).unwrap_or(""),
        printed.get(start..).unwrap_or(""),
    )
}

/// The first byte that isn't blank, in lower case, and the text after it.
fn next_fork_letter(text: &[u8]) -> Option<(u8, &[u8])>
    ensures { IfSome result (λ found. length found.1.now < length text.now) }
{
    let mut rest = text;
    while let Some((byte, after)) = rest.split_first() {
        if !matches!(*byte, b' ' | b'\t') {
            return Some((byte.to_ascii_lowercase(), after));
        }
        rest = after;
    }
    None
}

/// Whether two lines differ in blanks and in the case of letters alone.
pub(crate) fn is_fork_of_spelling(line: &str, printed: &str) -> bool {
    let (mut left, mut right) = (line.as_bytes(), printed.as_bytes());
    while let Some((byte, rest)) = next_fork_letter(left) {
        match next_fork_letter(right) {
            Some((other, more)) if other == byte => right = more,
            _ => return false,
        }
        left = rest;
    }
    next_fork_letter(right).is_none()
}
