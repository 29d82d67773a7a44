//! The sources of a section.
ghost use Rattle.std.specs.Prelude.{◌≡◌, IfOk, OnOk};
ghost use Rattle.str0m_sdp.specs.section.SsrcInfo.{source_id_of, empty_info};
ghost use Rattle.str0m_sdp.specs.section.SsrcInfoReading.{source_with_value};

use crate::attribute::msid::is_no_stream;
use std::alloc::{AllocError, Global};
use str0m_values::cuts::{before, cut, is_same_text};
use str0m_values::{Separator, Ssrc, Text};

/// What a section says of a source of RTP packets (RFC 5576).
#[derive(Clone, Debug, PartialEq, Eq, Drop)]
pub struct SsrcInfo {
    /// The number of the source, of 32 bits (RFC 3550, section 3).
    pub ssrc: Ssrc,
    /// The source whose packets this one sends again.
    pub repairs: Option<Ssrc>,
    /// The name of the endpoint that sends it (RFC 5576, section 6.1).
    pub cname: Option<Text>,
    /// The id of its stream (RFC 8830, section 2).
    pub stream_id: Option<Text>,
    /// The id of its track in the stream.
    pub track_id: Option<Text>,
}

/// The id in a piece of a value, where it has one (RFC 8830, section 2).
fn source_id_of(alloc: Global, piece: &str) -> Result<Option<Text>, AllocError>
    ensures { IfOk result (λ id. id ≡ source_id_of piece.now) }
{
    if is_no_stream(piece) {
        return Ok(None);
    }
    Ok(Some(Text::from_str(alloc, piece.trim())?))
}

impl SsrcInfo {
    ghost use Rattle.str0m_sdp.specs.section.SsrcInfoReading.{source_with_ids};

    /// A source of which nothing is said.
    pub(crate) fn empty(ssrc: Ssrc) -> SsrcInfo
        ensures { result ≡ empty_info ssrc }
    {
        SsrcInfo {
            ssrc,
            repairs: None,
            cname: None,
            stream_id: None,
            track_id: None,
        }
    }

    /// A copy that equals its source; the only error is that memory was refused.
    pub fn clone(&self) -> Result<SsrcInfo, AllocError>
        ensures { IfOk result (λ info. info ≡ self.now) }
    {
        Clone::clone(self)
    }

    /// Sets the ids of an `msid` value: a stream, and after a space a track.
    fn set_ids(&mut self, alloc: Global, value: &str) -> Result<(), AllocError>
        ensures { OnOk result (self.new ≡ source_with_ids value.now self.old) }
    {
        self.stream_id = source_id_of(alloc, before(value, Separator::Space))?;
        if let Some((_, rest)) = cut(value, Separator::Space) {
            self.track_id = source_id_of(alloc, before(rest, Separator::Space))?;
        }
        Ok(())
    }

    /// Sets what the value of an `Ssrc` attribute says (RFC 5576, section 4.1).
    pub(crate) fn set_value(
        &mut self,
        alloc: Global,
        name: &str,
        value: &str,
    ) -> Result<(), AllocError>
        ensures { OnOk result (self.new ≡ source_with_value name.now value.now self.old) }
    {
        if is_same_text(name, "cname") {
            self.cname = Some(Text::from_str(alloc, value)?);
        } else if is_same_text(name, "msid") {
            self.set_ids(alloc, value)?;
        }
        Ok(())
    }
}

/// Source 0, of which nothing is said.
impl Default for SsrcInfo {
    ghost is_default = { λ info. info ≡ empty_info 0 };

    fn default() -> SsrcInfo {
        SsrcInfo::empty(Ssrc::from(0))
    }
}
