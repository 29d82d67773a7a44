//! The forms of attributes as a person reads them, a part after the other, to say which part of a line doesn't fit.

use crate::code::Misfit;
use crate::part::Part;
use str0m_sdp::{SETUPS, label};
use str0m_values::cuts::{before, cut, hex_u8, num_u8, num_u16, num_u32};
use str0m_values::{IpAddr, Separator, candidate_label, case_of};

/// Where an attribute is read.
#[derive(Clone, Copy, PartialEq, Eq)]
pub(crate) enum FormLevel {
    Session,
    Section,
    Both,
}

/// What a part of an attribute is.
#[derive(Clone, Copy)]
enum FormPartKind {
    Text,
    PayloadType,
    Extension,
    Port,
    Number,
    Size,
    Rate,
    Channels,
    Address,
    Role,
    Name,
    Direction,
    HexPair,
    Any,
}

/// A part, what ends it, and whether the line may end after it.
#[derive(Clone, Copy)]
struct FormStep(FormPartKind, Separator, bool);

// (a line holds no line feed: what one ends goes to the line's end)
const TYPE: FormStep = FormStep(FormPartKind::PayloadType, Separator::Space, false);

const TYPE_OR_END: FormStep = FormStep(FormPartKind::PayloadType, Separator::Space, true);

const WORD: FormStep = FormStep(FormPartKind::Text, Separator::Space, false);

const NAME_OF_CODEC: FormStep = FormStep(FormPartKind::Text, Separator::Slash, false);

const RATE: FormStep = FormStep(FormPartKind::Rate, Separator::Slash, true);

const CHANNELS: FormStep = FormStep(FormPartKind::Channels, Separator::LineFeed, true);

const EXTENSION: FormStep = FormStep(FormPartKind::Extension, Separator::Space, false);

const NUMBER: FormStep = FormStep(FormPartKind::Number, Separator::Space, false);

const NUMBER_OR_END: FormStep = FormStep(FormPartKind::Number, Separator::Space, true);

const PORT: FormStep = FormStep(FormPartKind::Port, Separator::Space, false);

const LAST_PORT: FormStep = FormStep(FormPartKind::Port, Separator::LineFeed, true);

const LAST_SIZE: FormStep = FormStep(FormPartKind::Size, Separator::LineFeed, true);

const ADDRESS: FormStep = FormStep(FormPartKind::Address, Separator::Space, false);

const LAST_ROLE: FormStep = FormStep(FormPartKind::Role, Separator::LineFeed, true);

const NAME: FormStep = FormStep(FormPartKind::Name, Separator::Space, false);

const DIRECTION: FormStep = FormStep(FormPartKind::Direction, Separator::Space, true);

const HEX_PAIR: FormStep = FormStep(FormPartKind::HexPair, Separator::Colon, true);

const KEY: FormStep = FormStep(FormPartKind::Text, Separator::Colon, false);

const LAST: FormStep = FormStep(FormPartKind::Text, Separator::LineFeed, true);

const MORE: FormStep = FormStep(FormPartKind::Any, Separator::LineFeed, true);

/// How many parts of a form are told apart.
const FORM_PARTS: usize = 6;

/// An attribute: its label, where it is read, and its parts after the label. A word alone has none.
#[derive(Clone, Copy)]
pub(crate) struct Form(&'static str, FormLevel, [FormStep; FORM_PARTS]);

const WORD_ALONE: [FormStep; FORM_PARTS] = [MORE; FORM_PARTS];

const ONE_TEXT: [FormStep; FORM_PARTS] = [LAST, MORE, MORE, MORE, MORE, MORE];

const WORDS: [FormStep; FORM_PARTS] = [WORD, LAST, MORE, MORE, MORE, MORE];

static FORMS: [Form; 32] = [
    Form(
        label::RTPMAP,
        FormLevel::Section,
        [TYPE, NAME_OF_CODEC, RATE, CHANNELS, MORE, MORE],
    ),
    Form(
        label::FMTP,
        FormLevel::Section,
        [TYPE_OR_END, MORE, MORE, MORE, MORE, MORE],
    ),
    Form(
        label::RTCP_FB,
        FormLevel::Section,
        [TYPE, LAST, MORE, MORE, MORE, MORE],
    ),
    Form(
        label::EXTMAP,
        FormLevel::Section,
        [EXTENSION, LAST, MORE, MORE, MORE, MORE],
    ),
    Form(
        candidate_label::CANDIDATE,
        FormLevel::Both,
        [WORD, PORT, WORD, NUMBER, ADDRESS, PORT],
    ),
    Form(
        label::SSRC,
        FormLevel::Section,
        [NUMBER, KEY, LAST, MORE, MORE, MORE],
    ),
    Form(
        label::SSRC_GROUP,
        FormLevel::Section,
        [
            WORD,
            NUMBER_OR_END,
            NUMBER_OR_END,
            NUMBER_OR_END,
            NUMBER_OR_END,
            MORE,
        ],
    ),
    Form(
        label::SETUP,
        FormLevel::Both,
        [LAST_ROLE, MORE, MORE, MORE, MORE, MORE],
    ),
    Form(
        label::FINGERPRINT,
        FormLevel::Both,
        [WORD, HEX_PAIR, HEX_PAIR, HEX_PAIR, HEX_PAIR, HEX_PAIR],
    ),
    Form(
        label::RID,
        FormLevel::Section,
        [NAME, DIRECTION, MORE, MORE, MORE, MORE],
    ),
    Form(
        label::SIMULCAST,
        FormLevel::Section,
        [DIRECTION, MORE, MORE, MORE, MORE, MORE],
    ),
    Form(
        label::SCTP_PORT,
        FormLevel::Section,
        [LAST_PORT, MORE, MORE, MORE, MORE, MORE],
    ),
    Form(
        label::MAX_MESSAGE_SIZE,
        FormLevel::Section,
        [LAST_SIZE, MORE, MORE, MORE, MORE, MORE],
    ),
    Form(label::MSID, FormLevel::Section, WORDS),
    Form(label::MSID_SEMANTIC, FormLevel::Session, WORDS),
    Form(label::GROUP, FormLevel::Session, ONE_TEXT),
    Form(label::ICE_UFRAG, FormLevel::Both, ONE_TEXT),
    Form(label::ICE_PWD, FormLevel::Both, ONE_TEXT),
    Form(label::ICE_OPTIONS, FormLevel::Both, ONE_TEXT),
    Form(label::MID, FormLevel::Section, ONE_TEXT),
    Form(label::RTCP, FormLevel::Section, ONE_TEXT),
    Form(label::SCTP_INIT, FormLevel::Section, ONE_TEXT),
    Form(label::EXTMAP_ALLOW_MIXED, FormLevel::Session, WORD_ALONE),
    Form(label::ICE_LITE, FormLevel::Session, WORD_ALONE),
    Form(label::END_OF_CANDIDATES, FormLevel::Both, WORD_ALONE),
    Form(label::RECV_ONLY, FormLevel::Section, WORD_ALONE),
    Form(label::SEND_RECV, FormLevel::Section, WORD_ALONE),
    Form(label::SEND_ONLY, FormLevel::Section, WORD_ALONE),
    Form(label::INACTIVE, FormLevel::Section, WORD_ALONE),
    Form(label::RTCP_MUX, FormLevel::Section, WORD_ALONE),
    Form(label::RTCP_MUX_ONLY, FormLevel::Section, WORD_ALONE),
    Form(label::RTCP_RSIZE, FormLevel::Section, WORD_ALONE),
];

// Nothing else names the table: what does is proved over a copy of it.
fn all_forms() -> &'static [Form] {
    FORMS.as_slice()
}

/// The form of this name among those that are listed.
fn form_named_among(forms: &[Form], name: &str) -> Option<Form> {
    forms
        .iter()
        .copied()
        .find(|form| before(form.0, Separator::Colon) == name)
}

/// Whether the text is one or more ASCII letters and digits, and letters of other scripts.
fn is_form_name(text: &str) -> bool {
    !text.is_empty()
        && text
            .bytes()
            .all(|byte| byte.is_ascii_alphanumeric() || !byte.is_ascii())
}

/// What is said where the part isn't of this kind.
fn form_misfit_unless(is: bool, misfit: Misfit) -> Option<Misfit> {
    if is { None } else { Some(misfit) }
}

impl FormPartKind {
    /// Why the text isn't of this kind.
    fn misfit(self, text: &str) -> Option<Misfit> {
        if let FormPartKind::Any = self {
            return None;
        }
        if text.is_empty() {
            return Some(Misfit::Missing);
        }
        match self {
            FormPartKind::Text | FormPartKind::Any => None,
            FormPartKind::PayloadType => match text {
                "*" => Some(Misfit::AllTypes),
                _ => form_misfit_unless(num_u8(text, 127).is_some(), Misfit::PayloadType),
            },
            FormPartKind::Extension => form_misfit_unless(
                num_u8(before(text, Separator::Slash), 255).is_some(),
                Misfit::Number,
            ),
            FormPartKind::Channels => form_misfit_unless(
                num_u8(text, 255).is_some(),
                Misfit::Number,
            ),
            FormPartKind::Port => form_misfit_unless(num_u16(text).is_some(), Misfit::Number),
            FormPartKind::Number => form_misfit_unless(num_u32(text).is_some(), Misfit::Number),
            FormPartKind::Size => form_misfit_unless(text.parse::<u64>().is_ok(), Misfit::Number),
            FormPartKind::Rate => match num_u32(text) {
                Some(rate) => form_misfit_unless(rate > 0, Misfit::ClockRate),
                None => Some(Misfit::ClockRate),
            },
            FormPartKind::Address => form_misfit_unless(
                IpAddr::from_text(text).is_some(),
                Misfit::HostName,
            ),
            FormPartKind::Role => form_misfit_unless(
                case_of(&SETUPS, text).is_some(),
                Misfit::Role,
            ),
            FormPartKind::Name => form_misfit_unless(is_form_name(text), Misfit::StreamName),
            FormPartKind::Direction => form_misfit_unless(
                text == "send" || text == "recv",
                Misfit::StreamDirection,
            ),
            FormPartKind::HexPair => form_misfit_unless(
                text.len() == 2 && hex_u8(text).is_some(),
                Misfit::Hash,
            ),
        }
    }
}

/// The name of an attribute: the text after `a=` up to a colon or a space.
pub(crate) fn form_name_of(text: &str) -> &str {
    before(before(text, Separator::Colon), Separator::Space)
}

impl Form {
    /// The form of the attribute of this name.
    pub(crate) fn named(name: &str) -> Option<Form> {
        form_named_among(all_forms(), name)
    }

    /// The label, with its colon where a value follows.
    pub(crate) fn label(self) -> &'static str {
        self.0
    }

    /// Where the attribute is read.
    pub(crate) fn level(self) -> FormLevel {
        self.1
    }

    /// The first part of the value that doesn't fit; none where each that is told apart does.
    pub(crate) fn misfit<'a>(self, value: &'a str) -> Option<(Misfit, Part<'a>)> {
        let mut rest = value;
        for step in self.2 {
            let FormStep(kind, end, may_be_last) = step;
            let (shown, more) = match cut(rest, end) {
                Some((front, more)) => (front, Some(more)),
                None => (rest, None),
            };
            if let Some(misfit) = kind.misfit(shown) {
                let behind = rest;
                return Some((misfit, Part { shown, behind }));
            }
            match more {
                Some(more) => rest = more,
                None if may_be_last => return None,
                None => return Some((Misfit::Missing, Part::to_end(""))),
            }
        }
        None
    }
}
