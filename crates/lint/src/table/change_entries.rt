//! What is lost where a line is printed otherwise than it stands, in the order of `Change`.

use crate::table::Entry;

static CHANGES: [Entry; 11] = [
    Entry {
        name: "unknown-codec",
        title: "this codec isn't known",
        remedy: "hand the text on as it stands where the other side is to have the codec: no row comes of this type",
        explanation: "The mapping is read, but the codec is none that this layer negotiates. It is printed as `unknown`.",
        source: "RFC 8866, section 6.6",
        example: "a=rtpmap:116 ulpfec/90000",
    },
    Entry {
        name: "unknown-format-key",
        title: "this format holds something that isn't known",
        remedy: "hand the text on as it stands where the other side is to have it",
        explanation: "A key of the format, or the value of a key, is none that this layer knows. It is left out where the line is printed, and so is a line of which nothing is known.",
        source: "RFC 8866, section 6.15",
        example: "a=fmtp:96 x-google-min-bitrate=1000",
    },
    Entry {
        name: "format-value",
        title: "a value of this format is printed otherwise",
        remedy: "write it as it is printed, where that is what is meant",
        explanation: "A flag that is neither 0 nor 1 is printed as 0, a second primary type of RED as the first, and a key that stands twice may be printed once.",
        source: "RFC 8866, section 6.15",
        example: "a=fmtp:111 stereo=2",
    },
    Entry {
        name: "extension-part",
        title: "a part of this header extension isn't kept",
        remedy: "hand the text on as it stands where the other side is to have it",
        explanation: "A header extension is kept by its number and URI. Its direction and what follows the URI, as the second URI of an encrypted extension, are left out where the line is printed.",
        source: "RFC 8285, section 5; RFC 6904, section 4",
        example: "a=extmap:1/sendonly urn:ietf:params:rtp-hdrext:ssrc-audio-level",
    },
    Entry {
        name: "layer-alternatives",
        title: "the alternatives of a simulcast layer aren't kept",
        remedy: "list the stream that is meant alone",
        explanation: "A layer may list several streams with `,` between them. The first is kept, the others are left out where the line is printed.",
        source: "RFC 8853, section 5.1",
        example: "a=simulcast:send hi,mid;lo",
    },
    Entry {
        name: "formats-replaced",
        title: "the formats of this m-line aren't kept",
        remedy: "write payload types for media, `webrtc-datachannel` for data channels",
        explanation: "Formats of media are payload types, and those of data channels `webrtc-datachannel`. Others are replaced where the line is printed.",
        source: "RFC 8866, section 5.14; RFC 8841, section 4.3",
        example: "m=application 9 UDP/DTLS/SCTP 5000",
    },
    Entry {
        name: "long-mid",
        title: "this name of a section is too long",
        remedy: "name sections with at most 16 bytes",
        explanation: "The name of a section goes into a header extension, which has room for 16 bytes. Its first bytes are kept, cut between characters.",
        source: "RFC 8843, section 15.1; RFC 8285, section 4.2",
        example: "a=mid:a-name-of-twenty-one",
    },
    Entry {
        name: "header-line",
        title: "this line of the header isn't kept",
        remedy: "hand the text on as it stands where the other side is to have it",
        explanation: "Of the header are kept the number of the session and its bandwidth. The lines `i=`, `u=`, `e=`, `p=`, `z=` and `k=` aren't printed.",
        source: "RFC 8866, sections 5.4 to 5.6, 5.11 and 5.12",
        example: "i=a meeting",
    },
    Entry {
        name: "old-protocol",
        title: "this protocol is printed under its present name",
        remedy: "write `UDP/DTLS/SCTP`",
        explanation: "Data channels were offered as `DTLS/SCTP` by drafts.",
        source: "RFC 8841, section 4",
        example: "m=application 9 DTLS/SCTP webrtc-datachannel",
    },
    Entry {
        name: "candidate-part",
        title: "a part of this candidate isn't kept",
        remedy: "hand the text on as it stands where the other side is to have it",
        explanation: "A candidate is kept with its address, its type, its related address, its TCP type and its name fragment. Its generation, the number and the cost of its network are left out where the line is printed.",
        source: "RFC 8839, section 5.1",
        example: "a=candidate:1 1 udp 1 192.0.2.1 9 typ host generation 0",
    },
    Entry {
        name: "other-spelling",
        title: "this line is printed in another spelling",
        remedy: "write it as it is printed, if the difference matters",
        explanation: "Blanks that mean nothing are left out, numbers are printed without leading zeros and plus, bytes of fingerprints in upper case, and names of codecs as the table has them.",
        source: "RFC 8866, section 9",
        example: "a=rtpmap:111 OPUS/48000/2",
    },
];

pub(crate) fn change_entries() -> &'static [Entry; 11] {
    &CHANGES
}
