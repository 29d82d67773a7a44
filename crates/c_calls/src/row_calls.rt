//! Calls of rows, and what is written of a row.

ghost use Rattle.c_calls.specs.Common.{OfHandle};
ghost use Rattle.c_calls.specs.Prelude.{IsRoomFull, c_row, rows};
ghost use Rattle.c_calls.specs.Said.{Says};
ghost use Rattle.c_calls.specs.SectionCalls.{row_text, row_text_numbered, text_in};
ghost use Rattle.std.specs.Prelude.{◌≡◌, IfOk, Some, map, string_bytes};

use crate::said::{NO_MEMORY, NO_SECTION, put_said, put_said_text};
use c_parts::config_handle::ConfigHandle;
use c_parts::row::{Row, rows_of};
use std::alloc::{AllocError, Global};
use str0m_signal::{MediaLine, PayloadParams};

/// What a call prints of a row.
#[derive(Clone, Copy)]
pub(crate) enum RowText {
    /// The name of its codec, as an rtpmap line has it.
    Codec,
    /// Its format, as an fmtp line has it.
    Format,
}

/// Which of them a number is.
pub(crate) fn row_text_numbered(number: u8) -> RowText
    ensures { result ≡ row_text_numbered number }
{
    match number {
        0 => RowText::Codec,
        _ => RowText::Format,
    }
}

pub(crate) fn put_rows(
    alloc: Global,
    rows: &[PayloadParams],
    room: &mut [Row],
    needed: &mut usize,
) -> u32
    ensures { Says (Some (map c_row rows.now)) (room.old, needed.old) (result, room.new, needed.new) }
{
    match rows_of(alloc, rows) {
        Ok(made) => put_said(made.as_slice(), room, needed),
        Err(_) => NO_MEMORY,
    }
}

fn printed_row_text(alloc: Global, row: &PayloadParams, what: RowText) -> Result<String, AllocError>
    ensures { IfOk result (λ text. string_bytes text ≡ row_text what row.now) }
{
    let spec = row.spec();
    match what {
        RowText::Codec => spec.codec.to_string(alloc),
        RowText::Format => spec.format.to_string(alloc),
    }
}

pub(crate) fn put_row_text(
    alloc: Global,
    rows: &[PayloadParams],
    row: usize,
    what: RowText,
    room: &mut [u8],
    needed: &mut usize,
) -> u32
    ensures { Says (text_in what rows.now row) (room.old, needed.old) (result, room.new, needed.new) }
{
    match rows.get(row) {
        Some(found) => put_said_text(printed_row_text(alloc, found, what), room, needed),
        None => NO_SECTION,
    }
}

pub(crate) fn put_section_row_text(
    alloc: Global,
    section: &MediaLine,
    row: usize,
    what: RowText,
    room: &mut [u8],
    needed: &mut usize,
) -> u32
    ensures { Says (text_in what (rows section.now) row) (room.old, needed.old) (result, room.new, needed.new) }
{
    match section.rtp_params() {
        Ok(found) => put_row_text(alloc, found.as_slice(), row, what, room, needed),
        Err(_) => NO_MEMORY,
    }
}

/// The rows of a configuration, each with whether it is locked.
#[unsafe(no_mangle)]
pub extern "C" fn zaxp_config_rows(
    alloc: Global,
    handle: &mut ConfigHandle,
    room: &mut [Row],
    needed: &mut usize,
) -> u32
    requires { IsRoomFull handle.old.inner }
    ensures same { handle.new.inner ≡ handle.old.inner }
    ensures says { OfHandle handle.old.inner (λ config. Says (Some (map c_row config.params.items)) (room.old, needed.old) (result, room.new, needed.new)) }
{
    let config = handle.take(alloc);
    let code = put_rows(alloc, config.params(), room, needed);
    handle.put(config);
    code
}

/// A text of a row of a configuration, by its number (`enum section_text`).
#[unsafe(no_mangle)]
pub extern "C" fn zaxp_config_text(
    alloc: Global,
    handle: &mut ConfigHandle,
    what: u8,
    row: usize,
    room: &mut [u8],
    needed: &mut usize,
) -> u32
    requires { IsRoomFull handle.old.inner }
    ensures same { handle.new.inner ≡ handle.old.inner }
    ensures says { OfHandle handle.old.inner (λ config.
        Says (text_in (row_text_numbered what) config.params.items row) (room.old, needed.old) (result, room.new, needed.new)) }
{
    let config = handle.take(alloc);
    let what = row_text_numbered(what);
    let code = put_row_text(alloc, config.params(), row, what, room, needed);
    handle.put(config);
    code
}
