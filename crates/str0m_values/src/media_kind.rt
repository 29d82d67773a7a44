//! Kinds of media.

/// What a media section that carries RTP is made of (RFC 8866, section 5.14).
#[derive(Clone, Copy, Debug, PartialEq, Eq, Hash)]
pub enum MediaKind {
    /// Of `m=audio`.
    Audio,
    /// Of `m=video`.
    Video,
}
