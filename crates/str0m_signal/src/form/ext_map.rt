//! Lines of header extensions.
ghost use Rattle.std.specs.Prelude.{◌≡◌, IfOk, option_map};
ghost use Rattle.str0m_signal.specs.Prelude.{cut, num, parts};
ghost use Rattle.str0m_signal.specs.form.FormReading.{text_read, tailed_read};
ghost use Rattle.str0m_signal.specs.form.MediaAttribute.{ext_map};

use memchr::memchr;
use std::alloc::{AllocError, Global};
use str0m_sdp::{MediaAttribute, label};
use str0m_values::cuts::{cut, num_u8, strip};
use str0m_values::{Extension, Separator};

/// The number of the extension; a direction may stand after it.
fn ext_map_id(text: &str) -> Option<u8>
    ensures { result ≡ tailed_read 47 (num 255) text.now }
{
    match cut(text, Separator::Slash) {
        None => num_u8(text, 255),
        Some((number, direction)) => {
            let id = num_u8(number, 255)?;
            if direction.is_empty() { None } else { Some(id) }
        }
    }
}

/// The parts before and after the first space. URIs are long, so a search over many bytes at once finds it sooner.
fn cut_uri(text: &str) -> Option<(&str, &str)>
    ensures { parts result ≡ cut 32 text.now }
{
    match memchr(b' ', text.as_bytes()) {
        Some(place) => Some((&text[..place], &text[place + 1..])),
        None => None,
    }
}

/// The URI; more may stand after it.
fn uri(text: &str) -> Option<&str>
    ensures { option_map (λ x. x.now) result ≡ tailed_read 32 text_read text.now }
{
    match cut_uri(text) {
        None => { if text.is_empty() { None } else { Some(text) } }
        Some((uri, more)) => {
            if uri.is_empty() {
                return None;
            }
            if more.is_empty() { None } else { Some(uri) }
        }
    }
}

/// The extmap line of the text after `a=`.
#[inline(always)]
pub(crate) fn ext_map(alloc: Global, text: &str) -> Result<Option<MediaAttribute>, AllocError>
    ensures { IfOk result (λ found. found ≡ ext_map.read text.now) }
{
    let Some(body) = strip(text, label::EXTMAP) else {
        return Ok(None);
    };
    let Some((number, rest)) = cut(body, Separator::Space) else {
        return Ok(None);
    };
    let Some(id) = ext_map_id(number) else {
        return Ok(None);
    };
    let Some(uri) = uri(rest) else {
        return Ok(None);
    };
    let ext = Extension::from_sdp_uri(alloc, uri)?;
    Ok(Some(MediaAttribute::ExtMap { id, ext }))
}
