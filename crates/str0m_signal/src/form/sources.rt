//! Lines of sources and of feedback.
ghost use Rattle.std.specs.Prelude.{◌≡◌, IfOk};
ghost use Rattle.str0m_signal.specs.form.MediaAttribute.{rtcp_fb, ssrc, ssrc_group};

use crate::line::fields::two_texts;
use crate::line::front::number_and_rest;
use crate::line::parts::parts;
use std::alloc::{AllocError, Global};
use str0m_sdp::{MediaAttribute, label};
use str0m_values::cuts::{cut, num_u32, strip};
use str0m_values::{Name, Pt, Separator, Ssrc, Text};

/// The rtcp-fb line of the text after `a=`.
#[inline(always)]
pub(crate) fn rtcp_fb(alloc: Global, text: &str) -> Result<Option<MediaAttribute>, AllocError>
    ensures { IfOk result (λ found. found ≡ rtcp_fb.read text.now) }
{
    let Some(body) = strip(text, label::RTCP_FB) else {
        return Ok(None);
    };
    let Some((pt, value)) = number_and_rest(body, 127) else {
        return Ok(None);
    };
    if value.is_empty() {
        return Ok(None);
    }
    let value = Text::from_str(alloc, value)?;
    Ok(Some(MediaAttribute::RtcpFb {
        pt: Pt::new_with_value(pt),
        value,
    }))
}

/// The ssrc line of the text after `a=`.
#[inline(never)]
pub(crate) fn ssrc(alloc: Global, text: &str) -> Result<Option<MediaAttribute>, AllocError>
    ensures { IfOk result (λ found. found ≡ ssrc.read text.now) }
{
    let Some(body) = strip(text, label::SSRC) else {
        return Ok(None);
    };
    let Some((number, more)) = cut(body, Separator::Space) else {
        return Ok(None);
    };
    let Some(ssrc) = num_u32(number) else {
        return Ok(None);
    };
    let Some((attr, value)) = two_texts(more, Separator::Colon) else {
        return Ok(None);
    };
    let attr = Name::from_str(alloc, attr)?;
    let value = Text::from_str(alloc, value)?;
    Ok(Some(MediaAttribute::Ssrc {
        ssrc: Ssrc::from(ssrc),
        attr,
        value,
    }))
}

/// The ssrc-group line of the text after `a=`.
#[inline(never)]
pub(crate) fn ssrc_group(alloc: Global, text: &str) -> Result<Option<MediaAttribute>, AllocError>
    ensures { IfOk result (λ found. found ≡ ssrc_group.read text.now) }
{
    let Some(body) = strip(text, label::SSRC_GROUP) else {
        return Ok(None);
    };
    let Some((word, sources)) = cut(body, Separator::Space) else {
        return Ok(None);
    };
    if word.is_empty() {
        return Ok(None);
    }
    let Some(ssrcs) = parts::<Ssrc>(alloc, sources, Separator::Space)? else {
        return Ok(None);
    };
    let semantics = Text::from_str(alloc, word)?;
    Ok(Some(MediaAttribute::SsrcGroup { semantics, ssrcs }))
}
