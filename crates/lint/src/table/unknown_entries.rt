//! Why a line is kept unread, in the order of `Unknown`.

use crate::table::Entry;

static UNKNOWNS: [Entry; 2] = [
    Entry {
        name: "unknown-attribute",
        title: "this attribute isn't known",
        remedy: "leave it where another program reads it",
        explanation: "The line is kept and printed as it came, and nothing is read of it.",
        source: "RFC 8866, section 5.13",
        example: "a=tool:example",
    },
    Entry {
        name: "other-level",
        title: "this attribute isn't read on this level",
        remedy: "leave it where another program reads it, or put it where it is read",
        explanation: "The attribute is read in sections and not in the session, or the other way round. Here it is kept and printed as it came, and says nothing.",
        source: "RFC 8866, section 5.13",
        example: "a=sendrecv before the first m-line",
    },
];

pub(crate) fn unknown_entries() -> &'static [Entry; 2] {
    &UNKNOWNS
}
