//! What a text loses, and why it is refused, line by line.
ghost use Rattle.lint.specs.Findings.{AreFindingsOf, AreFindingsSilent, IsNotOutOfMemory, ReadsAs, TellsUnread, end_lines, lines_kept, is_refused};
ghost use Rattle.lint.specs.Kept.{kept_at, kept_flags};
ghost use Rattle.lint.specs.Lines.{IsWithinLines, attribute_numbers, last_line, unread_lines};
ghost use Rattle.lint.specs.Prelude.{AtMostOneAnswer, Reading, Sdp, lines_of};
ghost use Rattle.lint.specs.Told.{NothingLost};
ghost use Rattle.std.specs.Prelude.{◌≡◌, ◌↔◌, ℕ, List, [], true, All, IfOk, OnOk};

use crate::attribute_lines::note_attributes;
use crate::changes::note_changes;
use crate::conflicts::note_conflicts;
use crate::finding::Report;
use crate::lines::{line_count, lines_before_rest};
use crate::mark::all_marks;
use crate::notes::Notes;
use crate::refused::note_refused;
use crate::unfit::note_end;
use std::alloc::{AllocError, Global};
use str0m_sdp::{Sdp, SdpError};
use str0m_signal::sdp_parser;

/// Says what is lost of a text that is read so, with this rest.
fn note_read(notes: &mut Notes, text: &str, sdp: &Sdp, rest: &str) -> Result<(), AllocError>
    ensures tells { notes.old.last ≡ last_line text.now → OnOk result (TellsUnread text.now sdp.now rest.now notes.old notes.new) }
    ensures last { notes.new.last ≡ notes.old.last }
{
    let marks = all_marks(notes.alloc(), sdp)?;
    note_attributes(notes, 0, text, marks.as_slice())?;
    let printed = sdp.to_string(notes.alloc())?;
    note_changes(
        notes,
        lines_before_rest(text, rest),
        printed.as_str(),
        marks.as_slice(),
    )?;
    if rest.is_empty() {
        return Ok(());
    }
    let before = line_count(text).saturating_sub(line_count(rest));
    note_end(notes, before.saturating_add(1), rest)
}

/// Says what there is to be said of a text that is read so, with this rest.
fn note_described(notes: &mut Notes, text: &str, sdp: &Sdp, rest: &str) -> Result<(), AllocError>
    ensures tells { notes.old.last ≡ last_line text.now → OnOk result (TellsUnread text.now sdp.now rest.now notes.old notes.new) }
    ensures last { notes.new.last ≡ notes.old.last }
{
    note_read(notes, text, sdp, rest)?;
    note_conflicts(notes, lines_before_rest(text, rest), sdp, rest.is_empty())
}

/// Of an error that isn't out of memory, nothing.
fn found_unless_memory(error: SdpError) -> Result<(), AllocError>
    ensures { OnOk result (IsNotOutOfMemory error) }
{
    match error {
        SdpError::Memory => Err(AllocError),
        SdpError::ParseError(_) => Ok(()),
        SdpError::Inconsistent(_) => Ok(()),
    }
}

/// The description that a text begins with, and the rest; none where the text is refused.
pub(crate) fn read(alloc: Global, text: &str) -> Result<Option<(Sdp, &str)>, AllocError>
    ensures read { IfOk result (ReadsAs text.now) }
    ensures one { AtMostOneAnswer (Reading text.now) }
{
    match sdp_parser(alloc, text) {
        Ok(found) => Ok(Some(found)),
        Err(error) => {
            found_unless_memory(error)?;
            Ok(None)
        }
    }
}

/// Says what there is to be said of a text by what was read of it.
fn note_found(notes: &mut Notes, text: &str, found: Option<(Sdp, &str)>) -> Result<(), AllocError>
    ensures said { notes.old.findings ≡ [] → notes.old.last ≡ last_line text.now → AtMostOneAnswer (Reading text.now) → ReadsAs text.now found.entry
        → OnOk result (AreFindingsOf text.now notes.new.findings) }
    ensures last { notes.new.last ≡ notes.old.last }
{
    match found {
        Some((sdp, rest)) => note_described(notes, text, &sdp, rest),
        None => note_refused(notes, text),
    }
}

/// What there is to be said of a text: why it is refused, where its reading ends, which lines are kept unread, what of the lines
/// that are read isn't known, and which of them are printed otherwise than they stand.
///
/// Lines are numbered from 1, and each finding names a line of the text, of an empty text line 1. A finding of the kind `Refused`
/// stands there exactly where `sdp_parser` refuses the text. Where the text is read, a finding of the kind `Unread` stands there
/// exactly where a rest isn't read, at the line at which it begins; and those of the kinds `Malformed` and `Unknown` are, in order,
/// the attribute lines that are read as `Unused` (RFC 8866, section 5.13).
///
/// No finding is of the kind `Refused`, `Unread` or `Changed` exactly where nothing is lost: the text is read to its end, and its lines
/// are those that are printed of it, but for `o=`, `s=` and `c=` lines and ports other than 0, which printing fixes. Line ends aren't
/// compared.
///
/// The only error is that memory was refused.
pub fn findings(alloc: Global, text: &str) -> Result<Report, AllocError>
    ensures numbered { IfOk result (λ report. All (IsWithinLines (last_line text.now)) report.findings) }
    ensures refused { IfOk result (λ report. (is_refused report.findings ≡ true) ↔ ((v : Sdp × List ℕ) → Reading text.now v → ⊥)) }
    ensures unread { IfOk result (λ report. (sdp : Sdp) (rest : List ℕ) → Reading text.now (sdp, rest) → end_lines report.findings ≡ unread_lines text.now rest) }
    ensures kept { IfOk result (λ report. (sdp : Sdp) (rest : List ℕ) → Reading text.now (sdp, rest)
        → lines_kept report.findings ≡ kept_at (kept_flags sdp) (attribute_numbers 1 (lines_of text.now))) }
    ensures silent { IfOk result (λ report. AreFindingsSilent report.findings ↔ NothingLost text.now) }
{
    let mut notes = Notes::new(alloc, line_count(text));
    let found = read(alloc, text)?;
    note_found(&mut notes, text, found)?;
    let findings = notes.into_findings();
    Ok(Report { findings })
}
