//! Session descriptions.
ghost use Rattle.std.specs.Prelude.{◌≡◌, IfOk, Some, refl, decimal};
ghost use Rattle.str0m_sdp.specs.session.Session.{origin_line, session_lines, session_text, sdp_text, versioned_origin, versioned_text};

use crate::attribute::SessionAttribute;
use crate::attribute::bandwidth::{Bandwidth, BandwidthLine};
use crate::form::printed::{Printed, PrintedEach};
use crate::section::media_line::MediaLine;
use std::alloc::AllocError;
use std::fmt;
use str0m_values::{Items, SessionId};

pub(crate) mod candidate_key;
pub(crate) mod candidates;
pub(crate) mod distinct_candidates;
pub(crate) mod error;
pub(crate) mod fault;
pub(crate) mod ordered_mids;
pub(crate) mod preferred_fingerprint;
pub(crate) mod sdp_accessors;
pub(crate) mod seen_candidates;
pub(crate) mod session_accessors;
pub(crate) mod session_consistency;
pub(crate) mod transport;

/// A session description (RFC 8866, section 5).
#[derive(Clone, Debug, PartialEq, Eq, Drop)]
pub struct Sdp {
    /// What is said of the session as a whole.
    pub session: Session,
    /// The sections, in order.
    pub media_lines: Items<MediaLine>,
}

/// What a description says of the session as a whole.
#[derive(Clone, Debug, PartialEq, Eq, Drop)]
pub struct Session {
    /// The number of 64 bits in the `o=` line (RFC 8866, section 5.2).
    pub id: SessionId,
    /// The proposed bandwidth, where a `b=` line says one (RFC 8866, section 5.8).
    pub bw: Option<Bandwidth>,
    /// The attribute lines, in order.
    pub attrs: Items<SessionAttribute>,
}

impl Sdp {
    /// A copy that equals its source; the only error is that memory was refused.
    #[tactic(auto, using(crate::proofs::attribute::AttributeCopies::sdp_copied))]
    pub fn clone(&self) -> Result<Sdp, AllocError>
        ensures { IfOk result (λ sdp. sdp ≡ self.now) }
    {
        <Sdp as Clone>::clone(self)
    }
}

impl Session {
    /// A copy that equals its source; the only error is that memory was refused.
    #[tactic(auto, using(crate::proofs::attribute::AttributeCopies::session_copied))]
    pub fn clone(&self) -> Result<Session, AllocError>
        ensures { IfOk result (λ session. session ≡ self.now) }
    {
        <Session as Clone>::clone(self)
    }
}

/// The `o=` line of a session (RFC 8866, section 5.2), with its end.
#[derive(Drop)]
struct Origin(SessionId);

impl fmt::Display for Origin {
    ghost output = { λ origin. Some (origin_line origin.0) };

    fn fmt<W: fmt::Write>(&self, f: &mut fmt::Formatter<W>) -> fmt::Result {
        f.write_str("o=str0m-0.25.0 ")?;
        self.0.fmt(f)?;
        f.write_str(" 2 IN IP4 0.0.0.0\r\n")
    }
}

impl Printed for Origin {
    ghost text = { λ origin. origin_line origin.0 };

    ghost prints = { λ _. refl };
}

/// The `o=` line of a session with a version, with its end.
#[derive(Drop)]
struct VersionedOrigin {
    id: SessionId,
    version: u64,
}

impl fmt::Display for VersionedOrigin {
    ghost output = { λ origin. Some (versioned_origin (decimal origin.version) origin.id) };

    fn fmt<W: fmt::Write>(&self, f: &mut fmt::Formatter<W>) -> fmt::Result {
        let id = self.id;
        let version = self.version;
        write!(f, "o=str0m-0.25.0 {id} {version} IN IP4 0.0.0.0\r\n")
    }
}

impl Printed for VersionedOrigin {
    ghost text = { λ origin. versioned_origin (decimal origin.version) origin.id };

    ghost prints = { λ _. refl };
}

/// The lines of a session with this `o=` line.
#[derive(Drop)]
struct SessionLines<'a, O> {
    session: &'a Session,
    origin: &'a O,
}

impl<'a, O: Printed> fmt::Display for SessionLines<'a, O> {
    ghost output = { λ lines. Some (session_lines (O.text lines.origin.now) lines.session.now) };

    #[inline(always)]
    fn fmt<W: fmt::Write>(&self, f: &mut fmt::Formatter<W>) -> fmt::Result {
        f.write_str("v=0\r\n")?;
        self.origin.fmt(f)?;
        f.write_str("s=-\r\n")?;
        BandwidthLine(&self.session.bw).fmt(f)?;
        f.write_str("t=0 0\r\n")?;
        PrintedEach(self.session.attrs.as_slice()).fmt(f)
    }
}

/// The lines of the session: `v=`, `o=`, `s=`, its bandwidth, `t=` and its attributes.
impl fmt::Display for Session {
    ghost output = { λ session. Some (session_text session) };

    fn fmt<W: fmt::Write>(&self, f: &mut fmt::Formatter<W>) -> fmt::Result {
        let session = self;
        let origin = Origin(self.id);
        let origin = &origin;
        SessionLines { session, origin }.fmt(f)
    }
}

/// The whole description: the session and its sections in order.
impl fmt::Display for Sdp {
    ghost output = { λ sdp. Some (sdp_text sdp) };

    fn fmt<W: fmt::Write>(&self, f: &mut fmt::Formatter<W>) -> fmt::Result {
        self.session.fmt(f)?;
        PrintedEach(self.media_lines.as_slice()).fmt(f)
    }
}

/// A description that prints with a version of its own in the `o=` line, where an `Sdp` alone has 2: each later description of a
/// session that has changed has a greater one (RFC 3264, section 8; RFC 8866, section 5.2).
#[derive(Drop)]
pub struct VersionedSdp<'a> {
    /// The description.
    pub sdp: &'a Sdp,
    /// The version.
    pub version: u64,
}

/// The whole description: the session and its sections in order.
impl<'a> fmt::Display for VersionedSdp<'a> {
    ghost output = { λ it. Some (versioned_text it.version it.sdp.now) };

    fn fmt<W: fmt::Write>(&self, f: &mut fmt::Formatter<W>) -> fmt::Result {
        let session = &self.sdp.session;
        let id = session.id;
        let version = self.version;
        let origin = VersionedOrigin { id, version };
        let origin = &origin;
        let lines = SessionLines { session, origin };
        let media_lines = PrintedEach(self.sdp.media_lines.as_slice());
        write!(f, "{lines}{media_lines}")
    }
}
