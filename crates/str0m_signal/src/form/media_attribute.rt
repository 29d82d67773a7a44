//! The attributes of a section.

ghost use Rattle.std.specs.Prelude.{◌≡◌, ◌∷◌, [], IfOk};
ghost use Rattle.str0m_sdp.specs.declared.attribute.MediaAttribute.TheVariants.{Fingerprint, Setup, Candidate, Unused};
ghost use Rattle.str0m_signal.specs.Prelude.{media_words};
ghost use Rattle.str0m_signal.specs.form.FormTable.{any_word_form, first_read, form_made_as, pair_forms, texts, unused_read, form_first_byte, letter_read};
ghost use Rattle.str0m_signal.specs.form.FormTransport.{candidate, fingerprint, setup};
ghost use Rattle.str0m_signal.specs.form.MediaAttribute.{media_texts, media_pairs, rid, rtcp, mid, sctp_port, sctp_init, max_message_size, media_forms, named_read, media_read, IsMediaLine};
ghost use Rattle.str0m_signal.specs.line.Lines.{Run, OneLine};
ghost use Rattle.str0m_signal.specs.line.LinesReading.{lines_of, TakesLast};

use crate::form::ext_map::ext_map;
use crate::form::fingerprint::fingerprint;
use crate::form::fmtp::fmtp;
use crate::form::rid::rid;
use crate::form::rtp_map::rtp_map;
use crate::form::simulcast::simulcast_line;
use crate::form::sources::{rtcp_fb, ssrc, ssrc_group};
use crate::line::attributes::{Attribute, attribute_run, taken, taken_attribute_result};
use crate::line::fields::{both_texts, kept_field, role_field, short_field};
use std::alloc::{AllocError, Global};
use str0m_sdp::{MediaAttribute, Msid, label};
use str0m_values::candidate_text::candidate;
use str0m_values::cuts::{num_u16, num_u64, strip};
use str0m_values::{Boxed, Items, Name, Text};

/// The attributes that are a label and a text.
#[inline(never)]
fn media_text(alloc: Global, text: &str) -> Result<Option<MediaAttribute>, AllocError>
    ensures { IfOk result (λ found. found ≡ (texts media_texts).read text.now) }
{
    if let Some(value) = kept_field(alloc, text, label::ICE_UFRAG)? {
        return Ok(Some(MediaAttribute::IceUfrag(value)));
    }
    if let Some(value) = kept_field(alloc, text, label::ICE_PWD)? {
        return Ok(Some(MediaAttribute::IcePwd(value)));
    }
    match kept_field(alloc, text, label::ICE_OPTIONS)? {
        Some(value) => Ok(Some(MediaAttribute::IceOptions(value))),
        None => Ok(None),
    }
}

/// The attributes that are a label and two texts.
#[inline(never)]
fn media_pair(alloc: Global, text: &str) -> Result<Option<MediaAttribute>, AllocError>
    ensures { IfOk result (λ found. found ≡ (pair_forms media_pairs).read text.now) }
{
    let Some((stream_id, track_id)) = both_texts(text, label::MSID) else {
        return Ok(None);
    };
    let stream_id = Name::from_str(alloc, stream_id)?;
    let track_id = Text::from_str(alloc, track_id)?;
    Ok(Some(MediaAttribute::Msid(Msid {
        stream_id,
        track_id,
    })))
}

#[inline(never)]
fn rtcp(alloc: Global, text: &str) -> Result<Option<MediaAttribute>, AllocError>
    ensures { IfOk result (λ found. found ≡ rtcp.read text.now) }
{
    match kept_field(alloc, text, label::RTCP)? {
        Some(value) => Ok(Some(MediaAttribute::Rtcp(value))),
        None => Ok(None),
    }
}

#[inline(never)]
fn sctp_port(text: &str) -> Option<MediaAttribute>
    ensures { result ≡ sctp_port.read text.now }
{
    let body = strip(text, label::SCTP_PORT)?;
    Some(MediaAttribute::SctpPort(num_u16(body)?))
}

#[inline(never)]
fn sctp_init(alloc: Global, text: &str) -> Result<Option<MediaAttribute>, AllocError>
    ensures { IfOk result (λ found. found ≡ sctp_init.read text.now) }
{
    match kept_field(alloc, text, label::SCTP_INIT)? {
        Some(value) => Ok(Some(MediaAttribute::SctpInit(value))),
        None => Ok(None),
    }
}

#[inline(never)]
fn max_message_size(text: &str) -> Option<MediaAttribute>
    ensures { result ≡ max_message_size.read text.now }
{
    let body = strip(text, label::MAX_MESSAGE_SIZE)?;
    Some(MediaAttribute::MaxMessageSize(num_u64(body)?))
}

#[inline(never)]
fn media_fingerprint(alloc: Global, text: &str) -> Result<Option<MediaAttribute>, AllocError>
    ensures { IfOk result (λ found. found ≡ (form_made_as fingerprint Fingerprint).read text.now) }
{
    match fingerprint(alloc, text)? {
        Some(hash) => Ok(Some(MediaAttribute::Fingerprint(hash))),
        None => Ok(None),
    }
}

#[inline(never)]
fn media_candidate(alloc: Global, text: &str) -> Result<Option<MediaAttribute>, AllocError>
    ensures { IfOk result (λ found. found ≡ (form_made_as candidate Candidate).read text.now) }
{
    match candidate(alloc, text)? {
        Some(candidate) => Ok(Some(MediaAttribute::Candidate(Boxed::new(alloc, candidate)?))),
        None => Ok(None),
    }
}

#[inline(never)]
fn media_setup(text: &str) -> Option<MediaAttribute>
    ensures { result ≡ (setup Setup).read text.now }
{
    let word = strip(text, label::SETUP)?;
    Some(MediaAttribute::Setup(role_field(word)?))
}

#[inline(never)]
fn mid(text: &str) -> Option<MediaAttribute>
    ensures { result ≡ mid.read text.now }
{
    let name = strip(text, label::MID)?;
    if name.is_empty() {
        return None;
    }
    Some(MediaAttribute::Mid(short_field(name)))
}

/// The forms whose names begin with `e`.
fn forms_of_e(
    alloc: Global,
    text: &str,
    place: &mut Vec<MediaAttribute>,
) -> Result<bool, AllocError>
    ensures { IfOk result (TakesLast (letter_read media_forms 101 text.now) place.old.items place.new.items) }
{
    if taken_attribute_result(ext_map(alloc, text), place)? {
        return Ok(true);
    }
    taken(MediaAttribute::from_word(text), place)
}

/// The forms whose names begin with `f`.
fn forms_of_f(
    alloc: Global,
    text: &str,
    place: &mut Vec<MediaAttribute>,
) -> Result<bool, AllocError>
    ensures { IfOk result (TakesLast (letter_read media_forms 102 text.now) place.old.items place.new.items) }
{
    if taken_attribute_result(fmtp(alloc, text), place)? {
        return Ok(true);
    }
    taken_attribute_result(media_fingerprint(alloc, text), place)
}

/// The forms whose names begin with `i`.
fn forms_of_i(
    alloc: Global,
    text: &str,
    place: &mut Vec<MediaAttribute>,
) -> Result<bool, AllocError>
    ensures { IfOk result (TakesLast (letter_read media_forms 105 text.now) place.old.items place.new.items) }
{
    if taken_attribute_result(media_text(alloc, text), place)? {
        return Ok(true);
    }
    taken(MediaAttribute::from_word(text), place)
}

/// The forms whose names begin with `m`.
fn forms_of_m(
    alloc: Global,
    text: &str,
    place: &mut Vec<MediaAttribute>,
) -> Result<bool, AllocError>
    ensures { IfOk result (TakesLast (letter_read media_forms 109 text.now) place.old.items place.new.items) }
{
    if taken(mid(text), place)? {
        return Ok(true);
    }
    if taken_attribute_result(media_pair(alloc, text), place)? {
        return Ok(true);
    }
    taken(max_message_size(text), place)
}

/// The rarer forms whose names begin with `r`: where they stood among the others, each line would clear the places of their results.
#[inline(never)]
fn rare_forms_of_r(
    alloc: Global,
    text: &str,
    place: &mut Vec<MediaAttribute>,
) -> Result<bool, AllocError>
    ensures { IfOk result (TakesLast (first_read (rid ∷ rtcp ∷ any_word_form media_words ∷ []) text.now) place.old.items place.new.items) }
{
    if taken_attribute_result(rid(alloc, text), place)? {
        return Ok(true);
    }
    if taken_attribute_result(rtcp(alloc, text), place)? {
        return Ok(true);
    }
    taken(MediaAttribute::from_word(text), place)
}

/// The forms whose names begin with `r`.
fn forms_of_r(
    alloc: Global,
    text: &str,
    place: &mut Vec<MediaAttribute>,
) -> Result<bool, AllocError>
    ensures { IfOk result (TakesLast (letter_read media_forms 114 text.now) place.old.items place.new.items) }
{
    if taken(rtp_map(text), place)? {
        return Ok(true);
    }
    if taken_attribute_result(rtcp_fb(alloc, text), place)? {
        return Ok(true);
    }
    rare_forms_of_r(alloc, text, place)
}

/// The forms whose names begin with `s`.
fn forms_of_s(
    alloc: Global,
    text: &str,
    place: &mut Vec<MediaAttribute>,
) -> Result<bool, AllocError>
    ensures { IfOk result (TakesLast (letter_read media_forms 115 text.now) place.old.items place.new.items) }
{
    if taken_attribute_result(ssrc(alloc, text), place)? {
        return Ok(true);
    }
    if taken(media_setup(text), place)? {
        return Ok(true);
    }
    if taken_attribute_result(ssrc_group(alloc, text), place)? {
        return Ok(true);
    }
    if taken_attribute_result(simulcast_line(alloc, text), place)? {
        return Ok(true);
    }
    if taken(sctp_port(text), place)? {
        return Ok(true);
    }
    if taken_attribute_result(sctp_init(alloc, text), place)? {
        return Ok(true);
    }
    taken(MediaAttribute::from_word(text), place)
}

fn form_first_byte(text: &str) -> u8
    ensures { result ≡ form_first_byte text.now }
{
    match text.as_bytes() {
        [first, ..] => *first,
        [] => b'\n',
    }
}

/// The attribute whose form is named: only forms whose names begin as the text does are asked.
fn media_named(
    alloc: Global,
    text: &str,
    place: &mut Vec<MediaAttribute>,
) -> Result<bool, AllocError>
    ensures { IfOk result (TakesLast (named_read text.now) place.old.items place.new.items) }
{
    match form_first_byte(text) {
        b'c' => taken_attribute_result(media_candidate(alloc, text), place),
        b'e' => forms_of_e(alloc, text, place),
        b'f' => forms_of_f(alloc, text, place),
        b'i' => forms_of_i(alloc, text, place),
        b'm' => forms_of_m(alloc, text, place),
        b'r' => forms_of_r(alloc, text, place),
        b's' => forms_of_s(alloc, text, place),
        _ => Ok(false),
    }
}

/// What isn't empty, as it stands.
fn media_unused(alloc: Global, text: &str) -> Result<Option<MediaAttribute>, AllocError>
    ensures { IfOk result (λ found. found ≡ unused_read Unused text.now) }
{
    if text.is_empty() {
        return Ok(None);
    }
    Ok(Some(MediaAttribute::Unused(Text::from_str(alloc, text)?)))
}

impl Attribute for MediaAttribute {
    ghost reading = { media_read };

    #[inline(always)]
    fn take(
        alloc: Global,
        text: &str,
        place: &mut Vec<MediaAttribute>,
    ) -> Result<bool, AllocError> {
        if media_named(alloc, text, place)? {
            return Ok(true);
        }
        taken_attribute_result(media_unused(alloc, text), place)
    }
}

/// How many attribute lines browsers give a short section.
const USUAL_MEDIA_LINES: usize = 32;

/// The run of attribute lines that stands next.
pub(crate) fn media_attributes(
    alloc: Global,
    text: &str,
) -> Result<(Items<MediaAttribute>, &str), AllocError>
    ensures { IfOk result (λ found. Run (OneLine IsMediaLine) (lines_of text.now) found.0 (lines_of found.1.now)) }
{
    attribute_run(alloc, text, USUAL_MEDIA_LINES)
}
