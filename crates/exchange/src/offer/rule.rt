//! The rules of answers to offers of this side, and of later offers.

use thiserror::Error;

/// A rule that a description of the other side breaks. Those of a section are asked in this order.
#[derive(Clone, Copy, Debug, PartialEq, Eq, Error)]
pub enum Rule {
    /// As many m-sections as the offer (RFC 3264, section 6).
    #[error("an answer has as many m-sections as its offer")]
    Sections,
    /// The type of the offered section (RFC 3264, section 6).
    #[error("a section has the media type of the offered one")]
    MediaType,
    /// The protocol of the offered section (RFC 3264, section 6).
    #[error("a section has the protocol of the offered one")]
    Protocol,
    /// The mid of the offered section (RFC 8829, section 5.3.1).
    #[error("a section has the mid of the offered one, in its place")]
    Name,
    /// Port 0 where the offered section has port 0 (RFC 3264, section 6).
    #[error("a section that is offered with port 0 is answered with port 0")]
    Stopped,
    /// Sends only where the offer receives, and receives only where it sends (RFC 3264, section 6.1).
    #[error("a section sends only where the offer receives, and receives only where it sends")]
    Direction,
    /// The active or the passive role, and never both (RFC 8842, section 5.3).
    #[error("an accepted section is active or passive, and not actpass")]
    Role,
    /// A format that both sides have (RFC 3264, section 6.1).
    #[error("an accepted section of media has a format that is offered")]
    Formats,
    /// `rtcp-mux`, `rtcp-rsize` and header extensions only as offered (RFC 5761, section 5.1.1; RFC 5506, section 5; RFC 8285,
    /// section 6).
    #[error("rtcp-mux, rtcp-rsize and extmap lines are said only as they are offered")]
    Lines,
    /// Rids and layers only as offered, turned round (RFC 8851, section 6.3; RFC 8853, section 5.3.2).
    #[error("rids and layers are those of the offer, sent where it receives them")]
    Layers,
    /// Credentials of ICE in each accepted section, in the session, or in the first section of the bundle (RFC 8839,
    /// section 5.4; RFC 9143, section 7.1.3).
    #[error("an accepted section has ice-ufrag and ice-pwd")]
    Credentials,
    /// A fingerprint likewise (RFC 8122, section 5).
    #[error("an accepted section has a fingerprint")]
    Fingerprint,
    /// The `BUNDLE` group lists accepted sections of the offer's group alone (RFC 9143, section 7.3).
    #[error("the BUNDLE group lists names of accepted sections that the offer's group lists")]
    Bundle,
    /// Each section of a description has a mid of its own (RFC 5888, section 4; RFC 8829, section 5.2.1).
    #[error("no two sections have one mid")]
    OwnName,
    /// Sections keep their places and their mids; a new mid takes a place that is over or after the last (RFC 3264,
    /// section 8; RFC 8829, section 5.2.2).
    #[error("a section keeps its place and its mid; a mid that is new takes a place that is over")]
    Place,
}

/// What doesn't fit: a rule, and the section that breaks it, counted from 0. The number of sections where a rule of the whole
/// description is broken.
#[derive(Clone, Copy, Debug, PartialEq, Eq)]
pub(crate) struct RuleMisfit {
    pub(crate) section: usize,
    pub(crate) rule: Rule,
}
