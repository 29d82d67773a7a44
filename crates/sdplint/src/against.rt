//! The rows of this side, which texts are the other side of.

use crate::fault::Fault;
use std::alloc::{AllocError, Global};
use str0m_signal::{CodecConfig, MediaLine, PayloadParams, SdpError, Text, sdp_parser};

/// Adds rows to the others, each once.
fn add_rows_against(
    rows: &mut Vec<PayloadParams>,
    more: &[PayloadParams],
) -> Result<(), AllocError> {
    for row in more {
        if !rows.as_slice().contains(row) {
            rows.push(*row)?;
        }
    }
    Ok(())
}

/// The rows of the audio and video sections, each once.
fn rows_against(alloc: Global, sections: &[MediaLine]) -> Result<Vec<PayloadParams>, AllocError> {
    let mut rows = Vec::new(alloc);
    for section in sections {
        if section.typ.is_media() {
            let more = section.rtp_params()?;
            add_rows_against(&mut rows, more.as_slice())?;
        }
    }
    Ok(rows)
}

/// The rows of the side that has made the text of a file.
pub(crate) fn side_against(alloc: Global, file: &str, text: &str) -> Result<CodecConfig, Fault> {
    match sdp_parser(alloc, text) {
        Ok((sdp, _)) => {
            let rows = rows_against(alloc, sdp.media_lines.as_slice())?;
            Ok(CodecConfig::new_from_payload_params(alloc, rows))
        }
        Err(SdpError::Memory) => Err(Fault::Memory),
        Err(_) => Err(Fault::NoDescription {
            file: Text::from_str(alloc, file)?,
        }),
    }
}
