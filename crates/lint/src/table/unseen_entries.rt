//! What is left unknown, in the order of `Unseen`.

use crate::table::Entry;

static UNSEENS: [Entry; 1] = [Entry {
    name: "unknown-feedback",
    title: "this feedback isn't looked at",
    remedy: "leave it where another program reads it",
    explanation: "Rows know `transport-cc`, `goog-remb`, `ccm fir`, `nack` and `nack pli`.",
    source: "RFC 4585, section 4.2",
    example: "a=rtcp-fb:96 nack sli",
}];

pub(crate) fn unseen_entries() -> &'static [Entry; 1] {
    &UNSEENS
}
