//! Which codec each payload type of a section stands for.
ghost use Rattle.std.specs.List.{list_any};
ghost use Rattle.std.specs.Prelude.{◌≡◌, ◌==◌, ◌<◌, ◌++◌, ℕ, false, IfOk, OnOk, get_or, length, filter_map, map, option_to_list};
ghost use Rattle.str0m_sdp.specs.Prelude.{empty, static_spec};
ghost use Rattle.str0m_sdp.specs.section.Mappings.{codec_of_type, mapping, static_type, is_mapped_to};

use crate::attribute::MediaAttribute;
use crate::section::type_tables::{TYPES, place};
use std::alloc::{AllocError, Global};
use str0m_formats::{Codec, CodecSpec, FormatParams};
use str0m_values::{Frequency, Pt};

/// A payload type, and the codec that it stands for, of whose format nothing is said yet: a `CodecSpec` would carry an empty one
/// for each type, five times as large as all else.
#[derive(Drop)]
pub(crate) struct MappedType {
    pub(crate) pt: Pt,
    pub(crate) codec: Codec,
    clock_rate: Frequency,
    channels: Option<u8>,
}

impl MappedType {
    /// The type with a codec, but for the codec's format.
    fn new(pt: Pt, spec: CodecSpec) -> MappedType
        ensures { codec_of_type result ≡ (pt, record spec { format = empty }) }
    {
        MappedType {
            pt,
            codec: spec.codec,
            clock_rate: spec.clock_rate,
            channels: spec.channels,
        }
    }

    /// The codec in this format.
    pub(crate) fn spec(&self, format: FormatParams) -> CodecSpec
        ensures { result ≡ record (codec_of_type self.now).1 { format = format } }
    {
        CodecSpec {
            codec: self.codec,
            clock_rate: self.clock_rate,
            channels: self.channels,
            format,
        }
    }
}

/// The types of rtpmap lines with their codecs, in order. There is room for as many as are likely.
pub(crate) fn mappings(
    alloc: Global,
    attrs: &[MediaAttribute],
    likely: usize,
) -> Result<Vec<MappedType>, AllocError>
    ensures { IfOk result (λ types. map codec_of_type types.items ≡ filter_map mapping attrs.now) }
{
    let mut types = Vec::with_capacity(alloc, likely)?;
    for attr in attrs {
        if let MediaAttribute::RtpMap { pt, value } = attr {
            types.push(MappedType::new(*pt, CodecSpec::from(*value)))?;
        }
    }
    Ok(types)
}

/// The codec that a type stands for without an rtpmap line.
#[tactic(auto, using(str0m_formats::proofs::static_is))]
pub(crate) fn static_spec(pt: Pt) -> Option<CodecSpec>
    ensures { result ≡ static_spec pt }
{
    CodecSpec::from_static_pt(pt)
}

/// Which types are mapped.
pub(crate) fn mapped_types(mapped: &[MappedType]) -> [bool; TYPES]
    ensures rows { (pt : ℕ) → pt < 256 → get_or result pt false ≡ list_any (λ row. row.pt == pt) mapped.now }
    ensures whole { length result ≡ 256 }
{
    let mut types = [false; TYPES];
    for row in mapped {
        types[place(row.pt)] = true;
    }
    types
}

/// Which types stand for the codec.
pub(crate) fn types_of(mapped: &[MappedType], codec: Codec) -> [bool; TYPES]
    ensures rows { (pt : ℕ) → pt < 256 → get_or result pt false ≡ is_mapped_to codec (map codec_of_type mapped.now) pt }
    ensures whole { length result ≡ 256 }
{
    let mut types = [false; TYPES];
    for row in mapped {
        if row.codec == codec {
            types[place(row.pt)] = true;
        }
    }
    types
}

/// One more type, where it needs no rtpmap line.
pub(crate) fn push_static_mapping(mapped: &mut Vec<MappedType>, pt: Pt) -> Result<(), AllocError>
    ensures { OnOk result (map codec_of_type mapped.new.items ≡ map codec_of_type mapped.old.items ++ option_to_list (static_type pt)) }
{
    match CodecSpec::from_static_pt(pt) {
        Some(spec) => mapped.push(MappedType::new(pt, spec))?,
        None => {}
    }
    Ok(())
}
