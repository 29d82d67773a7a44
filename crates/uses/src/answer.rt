//! An offer that is answered.

ghost use Rattle.std.specs.Prelude.{◌≡◌, ◌≢◌, ◌<◌, [], IfErr, IfOk, IfSome, List, None, Some, length, slice_set, slice_get, string_bytes};
ghost use Rattle.str0m_formats.specs.round.RoundsRuns.{OutcomeOfRound};
ghost use Rattle.str0m_sdp.specs.declared.section.media_line.MediaLine.{MediaLine};
ghost use Rattle.str0m_sdp.specs.declared.session.error.SdpError.TheVariants.{Memory};
ghost use Rattle.str0m_sdp.specs.section.MadeSection.{made};
ghost use Rattle.str0m_sdp.specs.session.Session.{sdp_text};
ghost use Rattle.str0m_signal.specs.back.ReadBack.{CanRowsBeReadBack, ReadsBack, with_rows};
ghost use Rattle.str0m_signal.specs.back.Writable.{Writable};
ghost use Rattle.str0m_signal.specs.session.Negotiation.{NegotiatedText};
ghost use Rattle.str0m_signal.specs.session.Reader.{DescribesSession};
ghost use Rattle.str0m_signal.specs.session.ReaderAnswers.{ReaderRefuses};
ghost use Rattle.uses.specs.Answer.{agreed_answer, agreed_answer_of_type};

use std::alloc::AllocError;
use str0m_signal::{
    CodecConfig, MediaKind, MediaLine, MediaType, PayloadParams, Sdp, SdpAnswer, SdpError,
    is_writable, locked_rows, negotiate_text, section_of,
};

/// The text of a description with this section in the place of one.
pub(crate) fn answer_with_section(
    mut own: Sdp,
    at: usize,
    section: MediaLine,
) -> Result<String, AllocError>
    requires { at < length own.media_lines }
    ensures { IfOk result (λ text. string_bytes text ≡ sdp_text (record own { media_lines = slice_set own.media_lines at section })) }
{
    own.media_lines.0[at] = section;
    let answer = SdpAnswer::from(own);
    answer.to_sdp_string()
}

/// The section of `own` at `at`, counted from 0, with these rows for its own. `None` where there is no such
/// section, or where rows printed there might not be read again.
pub(crate) fn printable_answer_section(
    own: &Sdp,
    at: usize,
    rows: &[PayloadParams],
) -> Result<Option<MediaLine>, AllocError>
    ensures there { IfOk result (λ found. IfSome found (λ _. at < length own.now.media_lines)) }
    ensures made { IfOk result (λ found. IfSome found (λ section.
        (frame : MediaLine) × (slice_get own.now.media_lines at ≡ Some frame) × (section ≡ made frame rows.now))) }
    ensures read_back { CanRowsBeReadBack rows.now → IfOk result (λ found. IfSome found (λ section. ReadsBack own.now at rows.now)) }
    ensures none { IfOk result (λ found. found ≡ None → Writable own.now at → ⊥) }
    ensures some { IfOk result (λ found. IfSome found (λ _. Writable own.now at)) }
{
    if !is_writable(own, at)? {
        return Ok(None);
    }
    match own.media_lines.get(at) {
        Some(frame) => Ok(Some(section_of(frame, rows)?)),
        None => Ok(None),
    }
}

/// The locked rows of what sections of this type carry.
fn answer_rows_of_type(
    config: &CodecConfig,
    typ: &MediaType,
) -> Result<Vec<PayloadParams>, AllocError>
    ensures rows { IfOk result (λ rows. rows.items ≡ agreed_answer_of_type typ.now config.now.params.items) }
    ensures printable { CanRowsBeReadBack config.now.params.items → IfOk result (λ rows. rows.items ≢ [] → CanRowsBeReadBack rows.items) }
{
    match typ {
        MediaType::Audio => locked_rows(config, MediaKind::Audio),
        MediaType::Video => locked_rows(config, MediaKind::Video),
        _ => Ok(Vec::new(*config.allocator())),
    }
}

/// The locked rows of what the section at `at` carries; none where there is no such section.
fn agreed_answer_rows(
    config: &CodecConfig,
    own: &Sdp,
    at: usize,
) -> Result<Vec<PayloadParams>, AllocError>
    ensures agreed { IfOk result (λ rows. rows.items ≡ agreed_answer own.now at config.now.params.items) }
    ensures printable { CanRowsBeReadBack config.now.params.items → IfOk result (λ rows. rows.items ≢ [] → CanRowsBeReadBack rows.items) }
{
    match own.media_lines.get(at) {
        Some(section) => answer_rows_of_type(config, &section.typ),
        None => Ok(Vec::new(*config.allocator())),
    }
}

/// That section with the rows of its kind that are locked; `None` where none is, too.
fn locked_answer_section(
    config: &CodecConfig,
    own: &Sdp,
    at: usize,
) -> Result<Option<MediaLine>, AllocError>
    ensures there { IfOk result (λ found. IfSome found (λ _. at < length own.now.media_lines)) }
    ensures made { IfOk result (λ found. IfSome found (λ section. (frame : MediaLine)
        × (slice_get own.now.media_lines at ≡ Some frame)
        × (section ≡ made frame (agreed_answer own.now at config.now.params.items)))) }
    ensures read_back { CanRowsBeReadBack config.now.params.items → IfOk result (λ found. IfSome found (λ section.
        ReadsBack own.now at (agreed_answer own.now at config.now.params.items))) }
    ensures none { IfOk result (λ found. found ≡ None → Writable own.now at → agreed_answer own.now at config.now.params.items ≡ []) }
    ensures some { IfOk result (λ found. IfSome found (λ _. Writable own.now at × (agreed_answer own.now at config.now.params.items ≢ []))) }
{
    let rows = agreed_answer_rows(config, own, at)?;
    if rows.is_empty() {
        return Ok(None);
    }
    // Taken apart, since the prover carries a clause over to the configuration's rows for one section alone.
    match printable_answer_section(own, at, rows.as_slice())? {
        Some(section) => Ok(Some(section)),
        None => Ok(None),
    }
}

/// Negotiates with an offer, and answers with `own`, the description of the answering side: in its
/// section at `at`, counted from 0, stand the rows of its kind that are locked then, those of audio and
/// telephone events in one of audio, those of video in one of video. `None` exactly where no such row
/// is locked, or where `is_writable` is false of `own` and `at`.
///
/// The other side reads the answer to its end, and finds these rows in that section, in order, where
/// the rows of the configuration were plain and distinct.
///
/// Of the configuration nothing but its rows changes.
///
/// # Errors
///
/// `ParseError` where the offer's text describes no session: nothing has changed then. `Memory` where
/// memory was refused, before the rounds or after them.
pub fn answer_section(
    config: &mut CodecConfig,
    offer: &str,
    own: Sdp,
    at: usize,
) -> Result<Option<String>, SdpError>
    ensures negotiated { IfOk result (λ answer. (outcomes : List OutcomeOfRound)
        × NegotiatedText offer.now config.old.params.items outcomes config.new.params.items) }
    ensures refused { IfErr result (λ error. ReaderRefuses error (DescribesSession offer.now)) }
    ensures err { IfErr result (λ error. error ≢ Memory → config.new ≡ config.old) }
    ensures else_same { config.new ≡ record config.old { params = config.new.params } }
    ensures printable { CanRowsBeReadBack config.old.params.items → CanRowsBeReadBack config.new.params.items }
    ensures text { IfOk result (λ answer. IfSome answer (λ text.
        (frame : MediaLine) × (slice_get own.media_lines at ≡ Some frame)
        × (string_bytes text ≡ sdp_text (with_rows own at frame (agreed_answer own at config.new.params.items))))) }
    ensures read_back { CanRowsBeReadBack config.old.params.items → IfOk result (λ answer. IfSome answer (λ text.
        ReadsBack own at (agreed_answer own at config.new.params.items))) }
    ensures none { IfOk result (λ answer. answer ≡ None → Writable own at → agreed_answer own at config.new.params.items ≡ []) }
    ensures some { IfOk result (λ answer. IfSome answer (λ _. Writable own at × (agreed_answer own at config.new.params.items ≢ []))) }
{
    negotiate_text(config, offer)?;
    match locked_answer_section(config, &own, at)? {
        Some(section) => Ok(Some(answer_with_section(own, at, section)?)),
        None => Ok(None),
    }
}
