//! The rows that answer a section.
ghost use Rattle.exchange.specs.Prelude.{AllTypesDistinct, IsPlain, PayloadParams, distinct, has, locked_types, rows, types};
ghost use Rattle.exchange.specs.answer.OfferedFeedback.{TellsFeedbackOf};
ghost use Rattle.exchange.specs.answer.Rows.{IsAgreedRow, BelongsInAnswer, KeepsRowPlain, SaysWhatIsOffered, agreed_row_type, as_answered, is_answered, is_row_carried_in, row_matches, answer_to, answer_under, answered_rows, own_types};
ghost use Rattle.std.specs.Prelude.{◌≡◌, ◌==◌, ◌++◌, ◌∷◌, [], All, Contains, IfOk, OnOk, filter, filter_map, find, if◌then◌else◌, option_to_list, option_copied};

use crate::answer::offered_feedback::{SectionFeedback, section_feedback};
use std::alloc::{AllocError, Global};
use str0m_signal::{CodecConfig, MediaLine, MediaType, PayloadParams, Pt};

fn is_answered_type_listed(listed: &[Pt], pt: Pt) -> bool
    ensures { result ≡ has listed.now pt }
{
    listed.iter().any(|other| *other == pt)
}

/// The type that both sides have in a role, where the m-line lists it.
fn agreed_row_type(listed: &[Pt], ours: Option<Pt>, theirs: Option<Pt>) -> Option<Pt>
    ensures { result ≡ agreed_row_type listed.now ours theirs }
{
    match (ours, theirs) {
        (Some(ours), Some(theirs)) => {
            if ours == theirs && is_answered_type_listed(listed, ours) {
                Some(ours)
            } else {
                None
            }
        }
        _ => None,
    }
}

/// What an answer says of our row beside the one that is offered.
#[tactic(auto, unfolding(crate::specs::answer::Rows::as_answered))]
fn as_answered(
    section: &MediaLine,
    feedback: &SectionFeedback,
    theirs: &PayloadParams,
    ours: &PayloadParams,
) -> PayloadParams
    requires { TellsFeedbackOf section.now feedback.now }
    ensures { result ≡ as_answered section.now theirs.now ours.now }
{
    let (pt, listed) = (ours.pt(), section.pts.as_slice());
    let offered = feedback.for_type(section, pt);
    let resend = agreed_row_type(listed, ours.resend(), theirs.resend());
    let red = agreed_row_type(listed, ours.red(), theirs.red());
    let mut row = PayloadParams::new(pt, resend, ours.spec()).with_red(red);
    row.set_fb_transport_cc(ours.fb_transport_cc() && offered.transport_cc);
    row.set_fb_fir(ours.fb_fir() && offered.fir);
    row.set_fb_nack(ours.fb_nack() && offered.nack);
    row.set_fb_pli(ours.fb_pli() && offered.pli);
    row.set_fb_remb(ours.fb_remb() && offered.remb);
    row
}

/// Whether sections of this type carry what the row is of.
fn is_row_carried(typ: &MediaType, row: &PayloadParams) -> bool
    ensures { result ≡ is_row_carried_in typ.now row.now }
{
    let codec = row.spec().codec;
    match typ {
        MediaType::Audio => codec.is_audio() || codec.is_tele(),
        MediaType::Video => codec.is_video(),
        _ => false,
    }
}

/// Whether our row answers an offered one.
fn row_matches(typ: &MediaType, theirs: &PayloadParams, ours: &PayloadParams) -> bool
    ensures { result ≡ row_matches typ.now theirs.now ours.now }
{
    ours.locked()
        && ours.pt() == theirs.pt()
        && is_row_carried(typ, ours)
        && ours.match_score(theirs).is_some()
}

/// The offered row of a payload type.
fn offered_under(offered: &[PayloadParams], pt: Pt) -> Option<&PayloadParams>
    ensures { option_copied result ≡ find (λ row. row.pt == pt) offered.now }
{
    offered.iter().find(|row| row.pt() == pt)
}

/// Our row that answers an offered one.
fn our_row_match<'a>(
    own: &'a [PayloadParams],
    typ: &MediaType,
    theirs: &PayloadParams,
) -> Option<&'a PayloadParams>
    ensures { option_copied result ≡ find (row_matches typ.now theirs.now) own.now }
{
    own.iter().find(|ours| row_matches(typ, theirs, ours))
}

/// What the answer says of an offered row.
fn answer_to(
    own: &[PayloadParams],
    section: &MediaLine,
    feedback: &SectionFeedback,
    theirs: &PayloadParams,
) -> Option<PayloadParams>
    requires { TellsFeedbackOf section.now feedback.now }
    ensures { result ≡ answer_to own.now section.now theirs.now }
{
    match our_row_match(own, &section.typ, theirs) {
        Some(ours) => Some(as_answered(section, feedback, theirs, ours)),
        None => None,
    }
}

/// What the answer says of a payload type.
#[tactic(auto, unfolding(crate::specs::answer::Rows::answer_under))]
fn answer_under(
    own: &[PayloadParams],
    section: &MediaLine,
    feedback: &SectionFeedback,
    offered: &[PayloadParams],
    pt: Pt,
) -> Option<PayloadParams>
    requires { TellsFeedbackOf section.now feedback.now }
    ensures { result ≡ answer_under own.now section.now offered.now pt }
{
    match offered_under(offered, pt) {
        Some(theirs) => answer_to(own, section, feedback, theirs),
        None => None,
    }
}

/// A payload type after the others, unless it stands among them.
fn push_answered_type(once: &mut Vec<Pt>, pt: Pt) -> Result<(), AllocError>
    ensures { OnOk result (once.new.items ≡ once.old.items ++ (if has once.old.items pt then [] else pt ∷ [])) }
{
    if !is_answered_type_listed(once.as_slice(), pt) {
        once.push(pt)?;
    }
    Ok(())
}

/// The payload types of an m-line, each where it stands first.
fn answered_types_once(alloc: Global, listed: &[Pt]) -> Result<Vec<Pt>, AllocError>
    ensures { IfOk result (λ once. once.items ≡ distinct ◌==◌ listed.now) }
{
    let mut once = Vec::with_capacity(alloc, listed.len())?;
    for pt in listed {
        push_answered_type(&mut once, *pt)?;
    }
    Ok(once)
}

fn push_answer(
    rows: &mut Vec<PayloadParams>,
    answer: Option<PayloadParams>,
) -> Result<(), AllocError>
    ensures { OnOk result (rows.new.items ≡ rows.old.items ++ option_to_list answer) }
{
    match answer {
        Some(row) => rows.extend_from_slice(&[row]),
        None => Ok(()),
    }
}

/// What the answer says of each of these types.
fn answers_under(
    own: &[PayloadParams],
    section: &MediaLine,
    feedback: &SectionFeedback,
    offered: &[PayloadParams],
    listed: &[Pt],
) -> Result<Vec<PayloadParams>, AllocError>
    requires { TellsFeedbackOf section.now feedback.now }
    ensures { IfOk result (λ rows. rows.items ≡ filter_map (answer_under own.now section.now offered.now) listed.now) }
{
    let mut rows = Vec::with_capacity(*section.attrs.allocator(), offered.len())?;
    for pt in listed {
        let answer = answer_under(own, section, feedback, offered, *pt);
        push_answer(&mut rows, answer)?;
    }
    Ok(rows)
}

/// What the answer says of each type of the m-line of a section that offers these rows.
#[tactic(auto, unfolding(crate::specs::answer::Rows::answered_rows))]
pub(crate) fn answered_rows(
    own: &[PayloadParams],
    section: &MediaLine,
    offered: &[PayloadParams],
) -> Result<Vec<PayloadParams>, AllocError>
    requires { offered.now ≡ rows section.now }
    ensures { IfOk result (λ answer. answer.items ≡ answered_rows own.now section.now) }
{
    let listed = answered_types_once(*section.attrs.allocator(), section.pts.as_slice())?;
    let feedback = section_feedback(section);
    let answer = answers_under(own, section, &feedback, offered, listed.as_slice())?;
    Ok(answer)
}

/// The rows by which this side answers an offered section: those of the configuration that are locked, of the section's kind
/// (audio and telephone events in audio, video in video, none in others), and under a payload type that the section's m-line
/// lists for a format that they match (`match_score`). They stand in the order of the m-line, each once (RFC 3264, section 6.1;
/// RFC 8829, section 5.3.1). A row under a type that this m-line doesn't list, or lists for another codec, is left out.
///
/// What is said of a row beside its type and its format is no more than what this very section offers for that type: the RTX
/// type (RFC 4588, section 8.1) and the RED type (RFC 2198, section 5) where they are the offered ones and stand in the
/// m-line, feedback where an `a=rtcp-fb` line of the type or of all types (`*`) names it (RFC 4585, section 4.2). As in what
/// `rtp_params` answers, no row is locked.
///
/// The only error is that memory was refused. Configuration and section stay as they are.
#[tactic(auto, using(crate::proofs::answer::RowLaws::all_rows_agreed, crate::proofs::answer::RowLaws::rows_in_order))]
pub fn rows_for(config: &CodecConfig, section: &MediaLine) -> Result<Vec<PayloadParams>, AllocError>
    ensures exact { IfOk result (λ rows. rows.items ≡ answered_rows config.now.params.items section.now) }
    ensures agreed { IfOk result (λ rows. All (IsAgreedRow config.now.params.items section.now) rows.items) }
    ensures offered { IfOk result (λ rows. All (SaysWhatIsOffered section.now) rows.items) }
    ensures ordered { IfOk result (λ rows. own_types rows.items ≡ filter (is_answered config.now.params.items section.now) (distinct ◌==◌ section.now.pts)) }
    ensures distinct { IfOk result (λ rows. AllTypesDistinct (own_types rows.items)) }
    // So no type of any role stands twice, where rounds have locked the rows.
    ensures apart { AllTypesDistinct (locked_types config.now.params.items) → IfOk result (λ rows. AllTypesDistinct (types rows.items)) }
    // Rows of video need all their feedback for that, and not each section offers it.
    ensures plain { All IsPlain config.now.params.items → IfOk result (λ rows. All KeepsRowPlain rows.items) }
    ensures complete { IfOk result (λ rows. (ours : PayloadParams) → BelongsInAnswer config.now.params.items section.now ours → Contains (own_types rows.items) ours.pt) }
{
    let offered = section.rtp_params()?;
    let rows = answered_rows(config.params(), section, offered.as_slice())?;
    Ok(rows)
}
