//! The rows that rounds have locked.

ghost use Rattle.std.specs.Prelude.{◌≡◌, ◌≢◌, [], IfOk};
ghost use Rattle.str0m_signal.specs.back.ReadBack.{CanRowsBeReadBack};
ghost use Rattle.str0m_signal.specs.session.Locked.{is_carried_by_section, locked_of_kind};

use std::alloc::{AllocError, Global};
use str0m_formats::{CodecConfig, PayloadParams};
use str0m_values::MediaKind;

/// Whether sections of the kind carry what the row is of.
fn is_carried_by_section(kind: MediaKind, row: &PayloadParams) -> bool
    ensures { result ≡ is_carried_by_section kind row.now }
{
    let codec = row.spec().codec;
    match kind {
        MediaKind::Video => codec.is_video(),
        MediaKind::Audio => codec.is_audio() || codec.is_tele(),
    }
}

/// Copies of the locked rows of a kind.
fn locked_among(
    alloc: Global,
    kind: MediaKind,
    rows: &[PayloadParams],
) -> Result<Vec<PayloadParams>, AllocError>
    ensures { IfOk result (λ locked. locked.items ≡ locked_of_kind kind rows.now) }
{
    let mut locked = Vec::new(alloc);
    for row in rows {
        if row.locked() && is_carried_by_section(kind, row) {
            locked.push(*row)?;
        }
    }
    Ok(locked)
}

/// The rows of a kind of media that rounds have locked, in order: of audio and telephone events for
/// audio, of video for video. Both sides have agreed on them, and an answer lists them in a section
/// of that kind (RFC 3264, section 6.1; RFC 8829, section 5.3.1). Where the rows may be printed (each is
/// plain, and no payload type stands twice), so may these, where there is one.
///
/// The only error is that memory was refused. The configuration stays as it is.
pub fn locked_rows(config: &CodecConfig, kind: MediaKind) -> Result<Vec<PayloadParams>, AllocError>
    ensures locked { IfOk result (λ rows. rows.items ≡ locked_of_kind kind config.now.params.items) }
    ensures printable { CanRowsBeReadBack config.now.params.items → IfOk result (λ rows. rows.items ≢ [] → CanRowsBeReadBack rows.items) }
{
    locked_among(*config.allocator(), kind, config.params())
}
