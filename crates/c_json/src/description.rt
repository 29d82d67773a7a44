//! The whole of a description.
ghost use Rattle.c_json.specs.Description.{IsJsonText};
ghost use Rattle.std.specs.Prelude.{IfOk, string_bytes};

use crate::json_writer::JsonWriter;
use crate::session::add_session;
use std::alloc::{AllocError, Global};
use str0m_signal::Sdp;

/// The description as it prints, as JSON without spaces, the keys of each object in the order of their bytes. The only error is
/// that memory was refused.
pub fn json_text(alloc: Global, sdp: &Sdp) -> Result<String, AllocError>
    ensures { IfOk result (λ text. IsJsonText (string_bytes text)) }
{
    let mut json = JsonWriter::new(alloc)?;
    add_session(alloc, &mut json, sdp)?;
    json.end_object()?;
    Ok(json.into_text())
}
