//! The streams that a section's media belongs to.
ghost use Rattle.std.specs.Prelude.{◌≡◌, ◌↔◌, IfOk, IsTrue, Some, codes, refl};
ghost use Rattle.std.specs.Str.{trim};
ghost use Rattle.str0m_sdp.specs.attribute.Msid.{msid_text};

use crate::form::printed::Printed;
use std::alloc::AllocError;
use std::fmt;
use str0m_values::{Name, Text};

/// The ids of a stream and of a track in it (RFC 8830, section 2). Any texts can be held.
#[derive(Clone, Debug, PartialEq, Eq, Drop)]
pub struct Msid {
    /// The id of the stream; `-` where there is none.
    pub stream_id: Name,
    /// The id of the track.
    pub track_id: Text,
}

impl Msid {
    /// A copy that equals its source; the only error is that memory was refused.
    pub fn clone(&self) -> Result<Msid, AllocError>
        ensures { IfOk result (λ msid. msid ≡ self.now) }
    {
        Clone::clone(self)
    }
}

/// The stream's id, a space, and the track's.
impl fmt::Display for Msid {
    ghost output = { λ msid. Some (msid_text msid) };

    fn fmt<W: fmt::Write>(&self, f: &mut fmt::Formatter<W>) -> fmt::Result {
        let Msid {
            stream_id,
            track_id,
        } = self;
        stream_id.fmt(f)?;
        f.write_str(" ")?;
        track_id.fmt(f)
    }
}

impl Printed for Msid {
    ghost text = { msid_text };

    ghost prints = { λ _. refl };
}

/// Whether an id says that there is no stream: without white space at its ends it is `-`
/// (RFC 8830, section 2).
pub fn is_no_stream(id: &str) -> bool
    ensures { IsTrue result ↔ (trim id.now ≡ codes "-") }
{
    id.trim() == "-"
}
