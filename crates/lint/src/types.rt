//! The payload types of a section, and what its lines say of others.

use crate::code::Conflict;
use str0m_formats::{Codec, CodecSpec, FormatParam};
use str0m_sdp::{MediaAttribute, MediaLine, MediaType};
use str0m_values::Pt;

/// Which payload types a section lists, the codecs that they are mapped to, and which of them repeat another, by their numbers.
#[derive(Clone, Copy)]
pub(crate) struct Types<'a> {
    section: &'a MediaLine,
    listed: [bool; 256],
    codecs: [Option<Codec>; 256],
    repeating: [bool; 256],
}

/// The primary type of retransmissions that a value names (RFC 4588, section 8.1).
fn primary_type_named(value: FormatParam) -> Option<Pt> {
    match value {
        FormatParam::Apt(pt) => Some(pt),
        _ => None,
    }
}

/// The first type of redundant audio that a value names (RFC 2198, section 5).
fn redundant_type_named(value: FormatParam) -> Option<Pt> {
    match value {
        FormatParam::BarePtList(pt) | FormatParam::Red(pt) => Some(pt),
        _ => None,
    }
}

/// The type that a value names in the format of a codec that repeats others.
fn repeated_type(codec: Codec, value: FormatParam) -> Option<Pt> {
    match codec {
        Codec::Rtx => primary_type_named(value),
        Codec::Red => redundant_type_named(value),
        _ => None,
    }
}

/// Whether a format names a primary type of retransmissions.
fn names_primary_type(values: &[FormatParam]) -> bool {
    values
        .iter()
        .any(|value| primary_type_named(*value).is_some())
}

/// Whether a codec carries another kind of media than sections of this type.
fn is_type_of_other_kind(typ: &MediaType, codec: Codec) -> bool {
    match typ {
        MediaType::Audio => codec.is_video(),
        MediaType::Video => codec.is_audio() || codec.is_tele(),
        _ => false,
    }
}

impl<'a> Types<'a> {
    /// The types of a section.
    pub(crate) fn of(section: &'a MediaLine) -> Types<'a> {
        let mut types = Types {
            section,
            listed: [false; 256],
            codecs: [None; 256],
            repeating: [false; 256],
        };
        types.list();
        types.map();
        types
    }

    fn list(&mut self) {
        for pt in self.section.pts.as_slice() {
            self.listed[usize::from(pt.value())] = true;
        }
    }

    fn map(&mut self) {
        for attribute in self.section.attrs.as_slice() {
            match attribute {
                MediaAttribute::RtpMap { pt, value } => {
                    self.codecs[usize::from(pt.value())] = Some(value.codec);
                }
                MediaAttribute::Fmtp { pt, values } if names_primary_type(values.as_slice()) => {
                    self.repeating[usize::from(pt.value())] = true;
                }
                _ => {}
            }
        }
    }

    /// The codec that a type is mapped to.
    fn codec(&self, pt: Pt) -> Option<Codec> {
        self.codecs[usize::from(pt.value())]
    }

    /// The codec that a type of the m-line stands for without a mapping, where it has none.
    fn static_codec(&self, pt: Pt) -> Option<Codec> {
        if !self.listed[usize::from(pt.value())] || self.codec(pt).is_some() {
            return None;
        }
        let spec = CodecSpec::from_static_pt(pt)?;
        Some(spec.codec)
    }

    fn is_mapped(&self, pt: Pt) -> bool {
        self.codec(pt).is_some() || self.static_codec(pt).is_some()
    }

    /// The first type of the m-line that stands for a codec of another kind without a mapping. A disabled section may list any type,
    /// which says nothing (RFC 3264, section 6).
    pub(crate) fn static_of_other_kind(&self) -> Option<Pt> {
        if self.section.disabled {
            return None;
        }
        let typ = &self.section.typ;
        self.section
            .pts
            .as_slice()
            .iter()
            .copied()
            .find(|pt| match self.static_codec(*pt) {
                Some(codec) => is_type_of_other_kind(typ, codec),
                None => false,
            })
    }

    /// What a mapping says against the others.
    fn map_conflict(&self, pt: Pt, codec: Codec) -> Option<Conflict> {
        let place = usize::from(pt.value());
        if !self.listed[place] {
            return None;
        }
        if is_type_of_other_kind(&self.section.typ, codec) {
            return Some(Conflict::OtherKind);
        }
        match codec {
            Codec::Rtx if !self.repeating[place] => Some(Conflict::NoPrimary),
            _ => None,
        }
    }

    /// Whether a value names a type that isn't mapped, in the format of a codec that repeats others.
    fn repeats_none(&self, codec: Codec, value: FormatParam) -> bool {
        match repeated_type(codec, value) {
            Some(pt) => !self.is_mapped(pt),
            None => false,
        }
    }

    /// What a format says against the others.
    fn format_conflict(&self, pt: Pt, values: &[FormatParam]) -> Option<Conflict> {
        let Some(codec) = self.codec(pt) else {
            return match self.static_codec(pt) {
                Some(_) => None,
                None => Some(Conflict::Unmapped),
            };
        };
        if values.iter().any(|value| self.repeats_none(codec, *value)) {
            return Some(Conflict::NoPrimary);
        }
        None
    }

    /// The first type of a stream that isn't mapped.
    fn unmapped(&self, types: &[Pt]) -> Option<Pt> {
        types.iter().copied().find(|pt| !self.is_mapped(*pt))
    }

    /// What a line of the section says against the others, and of which type.
    pub(crate) fn conflict(&self, attribute: &MediaAttribute) -> Option<(Conflict, Pt)> {
        match attribute {
            MediaAttribute::RtpMap { pt, value } => Some((
                self.map_conflict(*pt, value.codec)?,
                *pt,
            )),
            MediaAttribute::Fmtp { pt, values } => Some((
                self.format_conflict(*pt, values.as_slice())?,
                *pt,
            )),
            MediaAttribute::RtcpFb { pt, .. } if !self.is_mapped(*pt) => Some((
                Conflict::Unmapped,
                *pt,
            )),
            MediaAttribute::Rid { pt, .. } => Some((
                Conflict::Unmapped,
                self.unmapped(pt.as_slice())?,
            )),
            _ => None,
        }
    }
}
