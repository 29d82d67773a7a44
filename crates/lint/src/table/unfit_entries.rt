//! Why a line fits nowhere, in the order of `Unfit`.

use crate::table::Entry;

static UNFITS: [Entry; 10] = [
    Entry {
        name: "blank-line",
        title: "this line is blank",
        remedy: "take the blank line out",
        explanation: "No form of line is empty. A blank line ends the description, as it ends a body of SIP or HTTP.",
        source: "RFC 8866, section 5",
        example: "a=mid:0, a blank line and a=sendrecv",
    },
    Entry {
        name: "lone-return",
        title: "a carriage return without a line feed stands in this line",
        remedy: "put a line end (CR LF, or LF) in place of this carriage return: two lines have run together",
        explanation: "A line ends with CR LF, or with LF. A carriage return alone ends none, so that two lines have run together here.",
        source: "RFC 8866, section 5 and section 9",
        example: "a=mid:0\\ra=sendrecv\\n",
    },
    Entry {
        name: "m-line-parts",
        title: "a part of this m-line is missing",
        remedy: "write `m=`, the type, the port, the protocol and the payload types, with one space between each two",
        explanation: "An m-line has four parts, of which the last lists the formats.",
        source: "RFC 8866, section 5.14",
        example: "m=audio 9 UDP/TLS/RTP/SAVPF",
    },
    Entry {
        name: "m-line-type",
        title: "the type of this m-line isn't read",
        remedy: "write `audio`, `video` or `application`",
        explanation: "A type is one of these words, or another word that begins with none of them.",
        source: "RFC 8866, section 5.14",
        example: "m=audiox 9 UDP/TLS/RTP/SAVPF 0",
    },
    Entry {
        name: "m-line-protocol",
        title: "the protocol of this m-line isn't read",
        remedy: "have the media sent over `UDP/TLS/RTP/SAVPF`, data channels over `UDP/DTLS/SCTP`, as WebRTC does: no other protocol is read",
        explanation: "WebRTC carries media by RTP over DTLS and UDP, with feedback, and data channels by SCTP over DTLS. Sections of other protocols, as of SIP phones and gateways, end the reading.",
        source: "RFC 8829, section 5.1.2; RFC 5764, section 8; RFC 8841, section 4",
        example: "m=audio 49170 RTP/AVP 0",
    },
    Entry {
        name: "m-line-formats",
        title: "the formats of this m-line begin with a space",
        remedy: "write one space after the protocol",
        explanation: "One space stands between each two parts of an m-line.",
        source: "RFC 8866, section 5.14",
        example: "m=audio 9 UDP/TLS/RTP/SAVPF  0",
    },
    Entry {
        name: "connection-place",
        title: "a `c=` line doesn't stand here",
        remedy: "leave one `c=` line for a section, right after its m-line, and take others out: no address of it is kept",
        explanation: "A `c=` line stands in the header, or right after an m-line, once.",
        source: "RFC 8866, section 5.7",
        example: "c=IN IP4 0.0.0.0 after a=mid:0",
    },
    Entry {
        name: "bandwidth-place",
        title: "a `b=` line doesn't stand here",
        remedy: "put one `b=TYPE:VALUE` line after the m-line, after its `c=` line where it has one",
        explanation: "One `b=` line stands in the header before `t=`, or after an m-line and its `c=` line. This layer reads the first of several alone.",
        source: "RFC 8866, section 5.8",
        example: "b=AS:64 after b=TIAS:64000",
    },
    Entry {
        name: "empty-attribute",
        title: "nothing stands after `a=`",
        remedy: "write the attribute, or take the line out",
        explanation: "An attribute has a name.",
        source: "RFC 8866, section 5.13",
        example: "a=",
    },
    Entry {
        name: "no-line-form",
        title: "this is neither an attribute line nor an m-line",
        remedy: "take out what stands before `a=` where this is an attribute, be it a blank; else take the line out",
        explanation: "In a session's attributes and in sections stand lines that begin with `a=`, and m-lines begin sections. Names of lines are lower case, with no blank before and after the name.",
        source: "RFC 8866, section 5",
        example: "a blank before a=mid:0",
    },
];

pub(crate) fn unfit_entries() -> &'static [Entry; 10] {
    &UNFITS
}
