//! Which part doesn't fit, in the order of `Misfit`.

use crate::table::Entry;

static MISFITS: [Entry; 13] = [
    Entry {
        name: "payload-type",
        title: "this is no payload type",
        remedy: "choose a number from 0 to 127 that the section doesn't use, and write it into each of its lines and into the m-line",
        explanation: "Payload types have seven bits.",
        source: "RFC 8866, section 6.6; RFC 3550, section 5.1",
        example: "a=rtpmap:128 opus/48000/2",
    },
    Entry {
        name: "feedback-of-all",
        title: "feedback for all payload types isn't read",
        remedy: "write a line for each payload type that is meant",
        explanation: "RFC 4585 lets `*` stand for all payload types. This layer keeps such a line as it came, and no codec gets the feedback.",
        source: "RFC 4585, section 4.2",
        example: "a=rtcp-fb:* nack",
    },
    Entry {
        name: "number",
        title: "this number isn't read",
        remedy: "write a decimal number in the range of its attribute",
        explanation: "Numbers of header extensions have 8 bits, ports and components 16, sources and priorities 32, message sizes 64.",
        source: "RFC 8866, section 9",
        example: "a=ssrc:4294967296 cname:x",
    },
    Entry {
        name: "clock-rate",
        title: "this is no clock rate",
        remedy: "write the rate in Hz as a number above 0",
        explanation: "A mapping says the rate of RTP timestamps in Hz.",
        source: "RFC 8866, section 6.6",
        example: "a=rtpmap:111 opus/48k/2",
    },
    Entry {
        name: "host-name",
        title: "the address of this candidate is no IP address",
        remedy: "write the IP address that the name resolves to, or leave the line: it is kept as it stands, only this candidate isn't used, and this warning stays",
        explanation: "Browsers hide local addresses behind names that end in `.local` and are resolved by multicast DNS. This layer resolves no names: such a candidate isn't among its candidates.",
        source: "RFC 8839, section 5.1",
        example: "a=candidate:1 1 udp 2122260223 a1b2.local 54321 typ host",
    },
    Entry {
        name: "setup-role",
        title: "this is no role of DTLS",
        remedy: "write `actpass`, `active` or `passive`",
        explanation: "A side that offers says `actpass`, one that answers `active` or `passive`.",
        source: "RFC 8842, section 5.2",
        example: "a=setup:holdconn",
    },
    Entry {
        name: "stream-name",
        title: "the name of this stream holds another character than letters and digits",
        remedy: "name the stream with letters and digits alone",
        explanation: "RFC 8851 lets `-` and `_` stand in names, but RFC 8852 doesn't let them go into a header extension, so that this layer doesn't read them.",
        source: "RFC 8851, section 10; RFC 8852, section 3",
        example: "a=rid:layer-1 send",
    },
    Entry {
        name: "stream-direction",
        title: "this is no direction of a stream",
        remedy: "write `send` or `recv`",
        explanation: "A stream is sent or received by the side that writes the line.",
        source: "RFC 8851, section 4",
        example: "a=rid:hi sendrecv",
    },
    Entry {
        name: "fingerprint-bytes",
        title: "these are no bytes of a fingerprint",
        remedy: "write each byte as two hexadecimal digits, with `:` between each two",
        explanation: "A fingerprint is the name of a hash function, a space and the bytes of the hash.",
        source: "RFC 8122, section 5",
        example: "a=fingerprint:sha-256 AB:C",
    },
    Entry {
        name: "empty-value",
        title: "nothing stands after the name",
        remedy: "write the value after the colon, or take the line out",
        explanation: "This attribute has a value.",
        source: "RFC 8866, section 5.13",
        example: "a=mid:",
    },
    Entry {
        name: "missing-part",
        title: "a part of this line is missing",
        remedy: "write the whole line, as in the example of its standard",
        explanation: "This attribute has more parts than stand here.",
        source: "RFC 8866, section 5.13",
        example: "a=msid:stream",
    },
    Entry {
        name: "word-alone",
        title: "something stands after this attribute, which is a word alone",
        remedy: "end the line after the word",
        explanation: "This attribute has no value; a blank after it is something, too.",
        source: "RFC 8866, section 5.13",
        example: "a=rtcp-mux:1",
    },
    Entry {
        name: "other-form",
        title: "this line doesn't fit the form of its attribute",
        remedy: "write it as its standard has it, or take it out",
        explanation: "The line is kept as it came, and nothing is read of it.",
        source: "RFC 8866, section 5.13",
        example: "a=simulcast:both hi",
    },
];

pub(crate) fn misfit_entries() -> &'static [Entry; 13] {
    &MISFITS
}
