//! What comes of a row of the other side in a round, in the order of `Fate`.

use crate::table::Entry;

static FATES: [Entry; 6] = [
    Entry {
        name: "locked-row",
        title: "a row of this side would be locked to this one",
        remedy: "nothing is to be done",
        explanation: "The round of the section is accepted, and this row is the one that fits a row of this side best. The payload type is locked as long as the session lasts.",
        source: "RFC 3264, sections 6.1 and 8.3.2",
        example: "a=rtpmap:109 opus/48000/2 where this side has opus",
    },
    Entry {
        name: "no-row-of-codec",
        title: "this side has no row of this codec",
        remedy: "add a row of the codec to this side, if it is to be used",
        explanation: "A row goes with one of the same codec. The line stays without use, and an answer doesn't list its payload type.",
        source: "RFC 3264, section 6.1",
        example: "a=rtpmap:9 G722/8000 where this side has opus",
    },
    Entry {
        name: "no-row-of-format",
        title: "no row of this side fits the format of this one",
        remedy: "give a row of this side the same value, if the codec is to be used so",
        explanation: "Rows of one codec go together where their clock rates, channels and formats fit (docs/ROUNDS.md, Scores). The finding names the row of this side that is nearest, and the first key by which the two don't fit.",
        source: "RFC 3264, section 6.1; RFC 6184, section 8.2.2",
        example: "a=fmtp:126 packetization-mode=0 where this side has 1",
    },
    Entry {
        name: "other-row",
        title: "the row of this side that fits this one goes with another",
        remedy: "nothing is to be done, unless this row is the one that is meant: then give the other one another format",
        explanation: "A row of this side goes with the row that fits it best, and with the last of those that fit it as well. The others stay without use.",
        source: "RFC 3264, section 6.1",
        example: "a=rtpmap:96 VP8/90000 before a=rtpmap:97 VP8/90000",
    },
    Entry {
        name: "taken-type",
        title: "a payload type of this row is taken",
        remedy: "give the row a payload type that stands for nothing else in the session",
        explanation: "A type that is locked stands for one thing as long as the session lasts. The other side receives here, and demands the type for something else.",
        source: "RFC 3264, section 8.3.2; RFC 8829, section 5.2.2",
        example: "a=rtpmap:109 VP8/90000 after a section with a=rtpmap:109 opus/48000/2",
    },
    Entry {
        name: "refused-round",
        title: "the round of this m-section would be refused",
        remedy: "change the payload type that is named: nothing of the section is agreed",
        explanation: "A round is accepted whole or not at all. A type that is above 127, or that would stand for two things, refuses it (docs/ROUNDS.md, Refusals); the rounds of other sections go on.",
        source: "RFC 3264, section 8.3.2; RFC 3550, section 5.1",
        example: "a=rtpmap:109 VP8/90000 after a section with a=rtpmap:109 opus/48000/2",
    },
];

pub(crate) fn fate_entries() -> &'static [Entry; 6] {
    &FATES
}
