//! Calls that write a text of a section.

ghost use Rattle.c_calls.specs.Common.{OfHandle};
ghost use Rattle.c_calls.specs.Prelude.{IsRoomFull, first, last, msid_of, simulcast_of};
ghost use Rattle.c_calls.specs.Said.{PutsText, Says};
ghost use Rattle.c_calls.specs.SectionTexts.{ids_text, section_layer_name, section_layers_both_ways, section_text, text_at, text_numbered};
ghost use Rattle.std.specs.Prelude.{◌≡◌, ◌++◌, IfOk, Some, filter_map, option_copied, option_map, slice_get, string_bytes};

use crate::line_texts::{LineText, put_line_text};
use crate::row_calls::{RowText, put_section_row_text};
use crate::said::{NO_MEMORY, NO_SECTION, put_said};
use crate::source_texts::{SourceText, put_source_text};
use c_parts::session_handle::SessionHandle;
use std::alloc::{AllocError, Global};
use str0m_signal::{MediaLine, Sdp, Simulcast, SimulcastLayer};

/// What a call writes of a section.
#[derive(Clone, Copy)]
pub(crate) enum SectionText {
    /// A text of a row.
    Row(RowText),
    /// The ids of its stream and of its track.
    Msid,
    /// What a line says, among those that say it.
    Line(LineText),
    /// The name of a layer.
    Layer,
    /// What is said of a source.
    Source(SourceText),
}

/// Which of them a number is.
fn text_numbered(number: u8) -> SectionText
    ensures { result ≡ text_numbered number }
{
    match number {
        0 => SectionText::Row(RowText::Codec),
        1 => SectionText::Row(RowText::Format),
        2 => SectionText::Msid,
        3 => SectionText::Line(LineText::Uri),
        4 => SectionText::Line(LineText::RidName),
        5 => SectionText::Line(LineText::Restrictions),
        6 => SectionText::Layer,
        7 => SectionText::Source(SourceText::Cname),
        8 => SectionText::Source(SourceText::Stream),
        9 => SectionText::Source(SourceText::Track),
        _ => SectionText::Line(LineText::Semantics),
    }
}

/// The ids of a stream and a track that a section says first; nothing where it says none.
fn ids_text(alloc: Global, section: &MediaLine) -> Result<String, AllocError>
    ensures { IfOk result (λ text. string_bytes text ≡ ids_text (first (filter_map msid_of section.now.attrs))) }
{
    match section.msid()? {
        Some(msid) => msid.to_string(alloc),
        None => Ok(String::new(alloc)),
    }
}

fn put_section_ids(alloc: Global, section: &MediaLine, room: &mut [u8], needed: &mut usize) -> u32
    ensures { Says (Some (ids_text (first (filter_map msid_of section.now.attrs)))) (room.old, needed.old) (result, room.new, needed.new) }
{
    match ids_text(alloc, section) {
        Ok(text) => put_said(text.as_bytes(), room, needed),
        Err(_) => NO_MEMORY,
    }
}

/// The layer at an index: those that are sent are counted first.
fn section_layer_at(simulcast: &Simulcast, index: usize) -> Option<&SimulcastLayer>
    ensures { option_copied result ≡ slice_get (simulcast.now.send.0 ++ simulcast.now.recv.0) index }
{
    let (sent, received) = (&simulcast.send.0, &simulcast.recv.0);
    let sent = sent.as_slice().iter();
    sent.chain(received.as_slice().iter()).nth(index)
}

fn put_section_layer_name(
    simulcast: &Simulcast,
    index: usize,
    room: &mut [u8],
    needed: &mut usize,
) -> u32
    ensures { PutsText (option_map section_layer_name (slice_get (section_layers_both_ways (Some simulcast.now)) index)) (room.old, needed.old) (result, room.new, needed.new) }
{
    match section_layer_at(simulcast, index) {
        Some(layer) => put_said(layer.restriction_id.0.as_str().as_bytes(), room, needed),
        None => NO_SECTION,
    }
}

fn put_section_layer(section: &MediaLine, index: usize, room: &mut [u8], needed: &mut usize) -> u32
    ensures { Says (option_map section_layer_name (slice_get (section_layers_both_ways (last (filter_map simulcast_of section.now.attrs))) index))
        (room.old, needed.old) (result, room.new, needed.new) }
{
    match section.simulcast() {
        Ok(Some(simulcast)) => put_section_layer_name(&simulcast, index, room, needed),
        Ok(None) => NO_SECTION,
        Err(_) => NO_MEMORY,
    }
}

fn put_section_text(
    alloc: Global,
    section: &MediaLine,
    what: SectionText,
    index: usize,
    room: &mut [u8],
    needed: &mut usize,
) -> u32
    ensures { Says (section_text what section.now index) (room.old, needed.old) (result, room.new, needed.new) }
{
    match what {
        SectionText::Row(text) => put_section_row_text(alloc, section, index, text, room, needed),
        SectionText::Msid => put_section_ids(alloc, section, room, needed),
        SectionText::Line(text) => {
            let lines = section.attrs.as_slice();
            put_line_text(alloc, lines, index, text, room, needed)
        }
        SectionText::Layer => put_section_layer(section, index, room, needed),
        SectionText::Source(text) => put_source_text(section, index, text, room, needed),
    }
}

fn put_text_at(
    alloc: Global,
    sdp: &Sdp,
    at: usize,
    what: SectionText,
    index: usize,
    room: &mut [u8],
    needed: &mut usize,
) -> u32
    ensures { Says (text_at what sdp.now at index) (room.old, needed.old) (result, room.new, needed.new) }
{
    match sdp.media_lines.get(at) {
        Some(section) => put_section_text(alloc, section, what, index, room, needed),
        None => NO_SECTION,
    }
}

/// A text of a section by its number (`enum section_text` of capi/proved_calls.h): of what stands at an index, where it is one of several.
#[unsafe(no_mangle)]
pub extern "C" fn zaxp_session_text(
    alloc: Global,
    handle: &mut SessionHandle,
    at: usize,
    what: u8,
    index: usize,
    room: &mut [u8],
    needed: &mut usize,
) -> u32
    requires { IsRoomFull handle.old.inner }
    ensures same { handle.new.inner ≡ handle.old.inner }
    ensures says { OfHandle handle.old.inner (λ sdp.
        Says (text_at (text_numbered what) sdp at index) (room.old, needed.old) (result, room.new, needed.new)) }
{
    let sdp = handle.take(alloc);
    let what = text_numbered(what);
    let code = put_text_at(alloc, &sdp, at, what, index, room, needed);
    handle.put(sdp);
    code
}
