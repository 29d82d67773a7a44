//! What a line says against others, in the order of `Conflict`.

use crate::table::Entry;

static CONFLICTS: [Entry; 8] = [
    Entry {
        name: "repeated-mid",
        title: "an earlier m-section has this mid",
        remedy: "give each section a name of its own",
        explanation: "Groups and candidates speak of a section by its mid, so that no two sections may have the same.",
        source: "RFC 5888, section 4; RFC 8829, section 5.2.1",
        example: "a=mid:0 in two sections",
    },
    Entry {
        name: "no-group",
        title: "this session has no `a=group`",
        remedy: "write `a=group:BUNDLE` with the mids of the sections before the first m-line",
        explanation: "Offers and answers of WebRTC list the sections of one transport in a group, be it one section alone. A description without a group is read, but its consistency (`assert_consistency`) asks for one.",
        source: "RFC 8829, section 5.2.1; RFC 9143, section 7.2",
        example: "v=0, o=, s=, t=0 0 and m-sections",
    },
    Entry {
        name: "group-of-nothing",
        title: "this group names a mid that no m-section has",
        remedy: "take the name out of the group, or write `a=mid` with it into the section that is meant",
        explanation: "A group lists the mids of sections. Where reading ended early, the section may stand after that.",
        source: "RFC 5888, section 5",
        example: "a=group:BUNDLE 0 1 with one section",
    },
    Entry {
        name: "other-group",
        title: "this group doesn't list the m-sections as they stand",
        remedy: "list the mid of each section that isn't disabled in it, in the order of the sections",
        explanation: "The first group lists the sections that take part in it, each once: those that aren't disabled, and disabled ones that it names. The standards leave their order free; the consistency of a description (`assert_consistency`) asks for that of the sections.",
        source: "RFC 8829, section 5.2.1; RFC 9143, sections 6 and 7.2",
        example: "a=group:BUNDLE 1 0 with the sections 0 and 1",
    },
    Entry {
        name: "other-kind",
        title: "a payload type of this m-section stands for a codec of another kind of media",
        remedy: "map the type to a codec of the kind that the m-line says, or move it to another section",
        explanation: "An audio section carries audio codecs, a video section video codecs. The row of the type is of no use there. PCMU, PCMA, G722 and CN (0, 8, 9 and 13) are audio without a mapping.",
        source: "RFC 8866, sections 5.14 and 6.6; RFC 3551, section 6",
        example: "a=rtpmap:96 VP8/90000 in a section of audio",
    },
    Entry {
        name: "unmapped-type",
        title: "this line speaks of a payload type that isn't mapped",
        remedy: "write `a=rtpmap` for the type into the section, or take the type out of this line",
        explanation: "Formats, feedback and the types of a stream belong to the codec of a type. Without its `a=rtpmap` the line is printed, and no row has what it says.",
        source: "RFC 8866, sections 6.6 and 6.15; RFC 4585, section 4.2; RFC 8851, section 5",
        example: "a=fmtp:97 apt=96 without a=rtpmap:97",
    },
    Entry {
        name: "no-primary-type",
        title: "this payload type repeats no other that is mapped",
        remedy: "name a type that is mapped, by `a=fmtp:TYPE apt=OTHER` for retransmissions, by `a=fmtp:TYPE OTHER/OTHER` for redundant audio, or take the type out",
        explanation: "Retransmissions (`rtx`) and redundant audio (`red`) repeat another type of the section. Where that isn't mapped, or a format of retransmissions doesn't name it, no row has them.",
        source: "RFC 4588, section 8.1; RFC 2198, section 5",
        example: "a=fmtp:97 apt=96 without a=rtpmap:96",
    },
    Entry {
        name: "not-writable",
        title: "rows can't be written back into this description because of this line",
        remedy: "write `UDP/DTLS/SCTP` for data channels, payload types for media, and one space before `pt=`",
        explanation: "What is printed of this line is read as something else: a restriction `pt` after two spaces as payload types, data channels over RTP as a section without types, and media without types as type 0. So rows that are put into an audio or video section over RTP aren't read back (`is_writable`).",
        source: "RFC 8851, section 10; RFC 8841, section 4; RFC 8866, section 5.14",
        example: "a=rid:lo send  pt=5",
    },
];

pub(crate) fn conflict_entries() -> &'static [Entry; 8] {
    &CONFLICTS
}
