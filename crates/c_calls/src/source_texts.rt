//! What calls write of the sources of a section.

ghost use Rattle.c_calls.specs.Prelude.{infos};
ghost use Rattle.c_calls.specs.Said.{PutsText, Says};
ghost use Rattle.c_calls.specs.SourceTexts.{source_text};
ghost use Rattle.std.specs.Prelude.{◌≡◌, option_map, slice_get};

use crate::said::{NO_MEMORY, NO_SECTION, put_said};
use str0m_signal::{MediaLine, SsrcInfo};

/// What a call writes of a source.
#[derive(Clone, Copy)]
pub(crate) enum SourceText {
    /// The name of the endpoint that sends it.
    Cname,
    /// The id of its stream.
    Stream,
    /// The id of its track.
    Track,
}

/// Nothing where the section doesn't say it.
fn source_text(info: &SsrcInfo, what: SourceText) -> &str
    ensures { result.now ≡ source_text what info.now }
{
    let said = match what {
        SourceText::Cname => &info.cname,
        SourceText::Stream => &info.stream_id,
        SourceText::Track => &info.track_id,
    };
    match said {
        Some(text) => text.as_str(),
        None => "",
    }
}

fn put_source(
    infos: &[SsrcInfo],
    index: usize,
    what: SourceText,
    room: &mut [u8],
    needed: &mut usize,
) -> u32
    ensures { PutsText (option_map (source_text what) (slice_get infos.now index)) (room.old, needed.old) (result, room.new, needed.new) }
{
    match infos.get(index) {
        Some(info) => put_said(source_text(info, what).as_bytes(), room, needed),
        None => NO_SECTION,
    }
}

pub(crate) fn put_source_text(
    section: &MediaLine,
    index: usize,
    what: SourceText,
    room: &mut [u8],
    needed: &mut usize,
) -> u32
    ensures { Says (option_map (source_text what) (slice_get (infos section.now.attrs) index)) (room.old, needed.old) (result, room.new, needed.new) }
{
    match section.ssrc_info() {
        Ok(infos) => put_source(infos.as_slice(), index, what, room, needed),
        Err(_) => NO_MEMORY,
    }
}
