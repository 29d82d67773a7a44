//! Runs of the program, by its arguments and what it reads.

use crate::program::{PROGRAM_HEADER_PRINTED, PROGRAM_USAGE, run_program_over};
use std::test::Fail;

/// Sections with rows of every kind of line.
const RUN_SECTIONS: &[u8] =
    b"v=0\no=- 7 2 x\ns=-\nt=0 0\nm=audio 9 UDP/TLS/RTP/SAVPF 111 63 101 9\na=mid:0\na=sendrecv\na=rtpmap:111 opus/48000/2\na=fmtp:111 minptime=10;useinbandfec=1\na=rtpmap:63 red/48000/2\na=fmtp:63 111/111\na=rtpmap:101 telephone-event/8000\nm=video 9 UDP/TLS/RTP/SAVPF 96 97\na=mid:one\na=sendonly\na=rtpmap:96 VP8/90000\na=rtpmap:97 rtx/90000\na=fmtp:97 apt=96\nm=audio 9 UDP/TLS/RTP/SAVPF 122\na=mid:2\na=sendrecv\na=rtpmap:122 AMR-WB/16000\na=fmtp:122 crc=1\n";

/// Their rows.
const RUN_ROWS: &str =
    "0 111 - 63 opus/48000/2 minptime=10;useinbandfec=1\n0 101 - - telephone-event/8000 0-16\n0 9 - - G722/16000 -\none 96 97 - VP8/90000 -\n";

/// A session that allows header extensions of one and of two bytes side by side.
const RUN_MIXED: &[u8] =
    b"v=0\r\no=- 1 1 IN IP4 127.0.0.1\r\ns=-\r\nt=0 0\r\na=extmap-allow-mixed\r\n";

/// What it prints.
const RUN_MIXED_PRINTED: &str =
    "v=0\r\no=str0m-0.25.0 1 2 IN IP4 0.0.0.0\r\ns=-\r\nt=0 0\r\na=extmap-allow-mixed\r\n";

/// A section of one row.
const RUN_OPUS_BYTES: &[u8] =
    b"v=0\r\no=- 7 2 IN IP4 127.0.0.1\r\ns=-\r\nt=0 0\r\nm=audio 9 UDP/TLS/RTP/SAVPF 111\r\nc=IN IP4 0.0.0.0\r\na=setup:actpass\r\na=mid:0\r\na=sendrecv\r\na=rtpmap:111 opus/48000/2\r\na=fmtp:111 minptime=10;useinbandfec=1\r\n";

/// A section that takes a payload type which the default rows give to a retransmission.
const RUN_OPUS_AT_109: &[u8] =
    b"v=0\r\no=- 1 1 IN IP4 127.0.0.1\r\ns=-\r\nt=0 0\r\nm=audio 9 UDP/TLS/RTP/SAVPF 109\r\nc=IN IP4 0.0.0.0\r\na=setup:actpass\r\na=mid:0\r\na=sendrecv\r\na=rtpmap:109 opus/48000/2\r\na=fmtp:109 minptime=10;useinbandfec=1\r\n";

/// What its round comes to.
const RUN_NEGOTIATED: &str =
    "round 1 ok\nlocked 109 - - opus/48000/2 minptime=10;useinbandfec=1\nopen 96 97 - VP8/90000 -\nopen 127 121 - H264/90000 level-asymmetry-allowed=1;packetization-mode=1;profile-level-id=42001f\nopen 125 107 - H264/90000 level-asymmetry-allowed=1;packetization-mode=0;profile-level-id=42001f\nopen 108 104 - H264/90000 level-asymmetry-allowed=1;packetization-mode=1;profile-level-id=42e01f\nopen 124 120 - H264/90000 level-asymmetry-allowed=1;packetization-mode=0;profile-level-id=42e01f\nopen 123 119 - H264/90000 level-asymmetry-allowed=1;packetization-mode=1;profile-level-id=4d001f\nopen 35 36 - H264/90000 level-asymmetry-allowed=1;packetization-mode=0;profile-level-id=4d001f\nopen 114 115 - H264/90000 level-asymmetry-allowed=1;packetization-mode=1;profile-level-id=64001f\nopen 102 103 - H265/90000 profile-id=1;tier-flag=0;level-id=180\nopen 98 99 - VP9/90000 profile-id=0\nopen 100 101 - VP9/90000 profile-id=2\nopen 45 46 - AV1/90000 -\n";

/// A section of H264 at a lower level than the default rows have, which says nothing of levels of its own.
const RUN_H264_AT_LEVEL_3: &[u8] =
    b"v=0\r\no=- 1 1 IN IP4 127.0.0.1\r\ns=-\r\nt=0 0\r\nm=video 9 UDP/TLS/RTP/SAVPF 106\r\na=mid:0\r\na=recvonly\r\na=rtpmap:106 H264/90000\r\na=fmtp:106 packetization-mode=1;profile-level-id=42e01e\r\n";

/// What its round comes to.
const RUN_NARROWED: &str =
    "round 1 ok\nopen 111 - - opus/48000/2 minptime=10;useinbandfec=1\nopen 96 97 - VP8/90000 -\nopen 127 121 - H264/90000 level-asymmetry-allowed=1;packetization-mode=1;profile-level-id=42001f\nopen 125 107 - H264/90000 level-asymmetry-allowed=1;packetization-mode=0;profile-level-id=42001f\nlocked 106 - - H264/90000 level-asymmetry-allowed=1;packetization-mode=1;profile-level-id=42e01e\nopen 124 120 - H264/90000 level-asymmetry-allowed=1;packetization-mode=0;profile-level-id=42e01f\nopen 123 119 - H264/90000 level-asymmetry-allowed=1;packetization-mode=1;profile-level-id=4d001f\nopen 35 36 - H264/90000 level-asymmetry-allowed=1;packetization-mode=0;profile-level-id=4d001f\nopen 114 115 - H264/90000 level-asymmetry-allowed=1;packetization-mode=1;profile-level-id=64001f\nopen 102 103 - H265/90000 profile-id=1;tier-flag=0;level-id=180\nopen 98 99 - VP9/90000 profile-id=0\nopen 100 101 - VP9/90000 profile-id=2\nopen 45 46 - AV1/90000 -\n";

/// A section of static types alone.
const RUN_STATIC: &[u8] =
    b"v=0\r\no=- 1 1 IN IP4 127.0.0.1\r\ns=-\r\nt=0 0\r\na=group:BUNDLE 0\r\nm=audio 9 UDP/TLS/RTP/SAVPF 0 8 9 13\r\nc=IN IP4 0.0.0.0\r\na=setup:actpass\r\na=sendrecv\r\na=mid:0\r\n";

/// A video section with a row and its retransmissions.
const RUN_VIDEO: &[u8] =
    b"v=0\r\no=- 1 1 IN IP4 127.0.0.1\r\ns=-\r\nt=0 0\r\nm=video 9 UDP/TLS/RTP/SAVPF 96 97\r\nc=IN IP4 0.0.0.0\r\na=mid:1\r\na=sendrecv\r\na=rtpmap:96 VP8/90000\r\na=rtpmap:97 rtx/90000\r\na=fmtp:97 apt=96\r\n";

/// A section of telephone events that says no range.
const RUN_TELEPHONE: &[u8] =
    b"v=0\r\no=- 1 1 IN IP4 127.0.0.1\r\ns=-\r\nt=0 0\r\nm=audio 9 UDP/TLS/RTP/SAVPF 101\r\nc=IN IP4 0.0.0.0\r\na=mid:0\r\na=sendrecv\r\na=rtpmap:101 telephone-event/8000\r\n";

/// A section whose one type asks for checksums, which no row has.
const RUN_CHECKSUMS: &[u8] =
    b"v=0\r\no=- 1 1 IN IP4 127.0.0.1\r\ns=-\r\nt=0 0\r\nm=audio 9 UDP/TLS/RTP/SAVPF 122\r\nc=IN IP4 0.0.0.0\r\na=mid:0\r\na=sendrecv\r\na=rtpmap:122 AMR-WB/16000\r\na=fmtp:122 crc=1\r\n";

/// Arguments, what is read, the status, and what is written and said.
static RUNS: [(&[&str], &[u8], u8, &str, &str); 32] = [
    (&[], b"", 2, "", PROGRAM_USAGE),
    (&[""], b"", 2, "", PROGRAM_USAGE),
    (&["show"], b"", 2, "", PROGRAM_USAGE),
    (&["Text"], b"", 2, "", PROGRAM_USAGE),
    (&["text "], b"", 2, "", PROGRAM_USAGE),
    (&["Rows"], b"", 2, "", PROGRAM_USAGE),
    (&["Negotiate"], b"", 2, "", PROGRAM_USAGE),
    (&["negotiate", "text"], b"", 2, "", PROGRAM_USAGE),
    (
        &["negotiate"],
        b"",
        1,
        "",
        "SDP parse: bad session header\n",
    ),
    (&["negotiate"], RUN_OPUS_AT_109, 0, RUN_NEGOTIATED, ""),
    (&["negotiate"], RUN_H264_AT_LEVEL_3, 0, RUN_NARROWED, ""),
    (&["rows", "rows"], b"", 2, "", PROGRAM_USAGE),
    (&["rows"], b"", 1, "", "SDP parse: bad session header\n"),
    (&["rows"], b"v=0\no=- 7 2 x\ns=-\nt=0 0\n", 0, "", ""),
    (&["rows"], RUN_SECTIONS, 0, RUN_ROWS, ""),
    (
        &["rows"],
        RUN_OPUS_BYTES,
        0,
        "0 111 - - opus/48000/2 minptime=10;useinbandfec=1\n",
        "",
    ),
    (
        &["rows"],
        RUN_STATIC,
        0,
        "0 0 - - PCMU/8000 -\n0 8 - - PCMA/8000 -\n0 9 - - G722/16000 -\n0 13 - - CN/8000 -\n",
        "",
    ),
    (&["rows"], RUN_VIDEO, 0, "1 96 97 - VP8/90000 -\n", ""),
    (
        &["rows"],
        RUN_TELEPHONE,
        0,
        "0 101 - - telephone-event/8000 0-16\n",
        "",
    ),
    (&["rows"], RUN_CHECKSUMS, 0, "", ""),
    (&["text", "text"], b"", 2, "", PROGRAM_USAGE),
    (&["text", ""], b"", 2, "", PROGRAM_USAGE),
    (
        &["text"],
        b"v=0\no=- 7 2 x\ns=-\nt=0 0\n",
        0,
        PROGRAM_HEADER_PRINTED,
        "",
    ),
    (
        &["text"],
        b"v=0\no=- 7 2 x\ns=-\nt=0 0\n\xc3\xa9\n",
        0,
        PROGRAM_HEADER_PRINTED,
        "",
    ),
    (
        &["text"],
        b"v=0\no=- 7 2 x\ns=-\nt=0 0\n\xff\n",
        1,
        "",
        "input is not UTF-8\n",
    ),
    (&["text"], RUN_MIXED, 0, RUN_MIXED_PRINTED, ""),
    (&["text"], b"\xc3", 1, "", "input is not UTF-8\n"),
    (&["text"], b"\xff", 1, "", "input is not UTF-8\n"),
    (&["rows"], b"\xff", 1, "", "input is not UTF-8\n"),
    (&["negotiate"], b"\xff", 1, "", "input is not UTF-8\n"),
    (&["text"], b"", 1, "", "SDP parse: bad session header\n"),
    (
        &["text"],
        b"v=0\no=- 7 2 x\ns=-\nt=0 0\nm=audio 9 UDP/TLS/RTP/SAVPF 0\n",
        1,
        "",
        "SDP parse: Media is missing a=mid: audio UDP/TLS/RTP/SAVPF\n",
    ),
];

#[test]
fn each_status_comes_with_its_line(rt: HostRuntime) -> Result<(), Fail> {
    for (words, held, status, written, said) in &RUNS {
        let mut input: &[u8] = held;
        let ran = run_program_over(rt.alloc(), words, &mut input)?;
        assert!(rt; ran.is(*status, written, said), "{words:?}: {ran:?}");
    }
    Ok(())
}
