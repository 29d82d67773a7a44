//! What would come of a text in rounds of negotiation, line by line.
ghost use Rattle.lint.specs.Fates.{AddsFates, RoundsSay, SaysRounds, codes};
ghost use Rattle.lint.specs.Findings.{ReadsAs};
ghost use Rattle.lint.specs.Lines.{IsWithinLines, last_line};
ghost use Rattle.lint.specs.Prelude.{AtMostOneAnswer, PayloadParams, Reading, Sdp};
ghost use Rattle.lint.specs.declared.code.Code.TheVariants.{Round};
ghost use Rattle.lint.specs.declared.code.Fate.{Fate};
ghost use Rattle.std.specs.Prelude.{◌≡◌, ℕ, List, [], All, IfOk, OnOk, map};

use crate::finding::Report;
use crate::found::read;
use crate::lines::line_count;
use crate::notes::Notes;
use crate::round_notes::note_rounds;
use std::alloc::{AllocError, Global};
use str0m_formats::CodecConfig;
use str0m_sdp::Sdp;

/// Says what comes of the rounds with a description that is read of a text.
fn note_outcomes(
    notes: &mut Notes,
    text: &str,
    sdp: &Sdp,
    ours: &CodecConfig,
) -> Result<(), AllocError>
    ensures said { OnOk result ((fates : List Fate) × (after : List PayloadParams) × AddsFates fates notes.old notes.new
        × RoundsSay sdp.now.media_lines ours.now.params.items fates after) }
    ensures last { notes.new.last ≡ notes.old.last }
{
    let mut config = ours.clone()?;
    note_rounds(notes, text, sdp.media_lines.as_slice(), &mut config)
}

/// Says what comes of the rounds with a text by what was read of it.
fn note_reading(
    notes: &mut Notes,
    text: &str,
    found: Option<(Sdp, &str)>,
    ours: &CodecConfig,
) -> Result<(), AllocError>
    ensures said { notes.old.findings ≡ [] → AtMostOneAnswer (Reading text.now) → ReadsAs text.now found.entry
        → OnOk result (SaysRounds text.now ours.now.params.items notes.new.findings) }
    ensures last { notes.new.last ≡ notes.old.last }
{
    match found {
        Some((sdp, _)) => note_outcomes(notes, text, &sdp, ours),
        None => Ok(()),
    }
}

/// What would come of a text in rounds of negotiation, as the other side against the rows of this one: which rows would be locked and
/// under which types, which stay open and why, and which rounds are refused (docs/ROUNDS.md).
///
/// One round is run for each audio and video section, in order, as `negotiate_text` of `str0m_signal` does, on a copy: `ours` stays as
/// it is. Each finding is of the kind `Round`, and stands on the line of the row's `a=rtpmap`, on the m-line where the row has none
/// and where the round is refused. Of a text that is refused, nothing is said: `findings` says why.
///
/// The only error is that memory was refused.
pub fn rounds(alloc: Global, text: &str, ours: &CodecConfig) -> Result<Report, AllocError>
    ensures numbered { IfOk result (λ report. All (IsWithinLines (last_line text.now)) report.findings) }
    ensures refused { IfOk result (λ report. ((v : Sdp × List ℕ) → Reading text.now v → ⊥) → report.findings ≡ []) }
    ensures said { IfOk result (λ report. (sdp : Sdp) (rest : List ℕ) → Reading text.now (sdp, rest)
        → (fates : List Fate) × (codes report.findings ≡ map Round fates)
        × (after : List PayloadParams) × RoundsSay sdp.media_lines ours.now.params.items fates after) }
{
    let mut notes = Notes::new(alloc, line_count(text));
    let found = read(alloc, text)?;
    note_reading(&mut notes, text, found, ours)?;
    let findings = notes.into_findings();
    Ok(Report { findings })
}
