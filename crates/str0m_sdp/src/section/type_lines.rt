//! The fmtp lines of a section by payload type, and what they say of codecs, each made once.
ghost use Rattle.std.specs.Prelude.{◌≡◌, ◌++◌, [], ◌∷◌, All, IfOk, IfSome, List, OnOk};
ghost use Rattle.str0m_sdp.specs.Prelude.{FormatParam, format_of_fmtp};
ghost use Rattle.str0m_sdp.specs.section.TypeLines.{AreGrouped, IsTypeGroup, IsKnownFormat};

use crate::section::type_tables::TYPES;
use std::alloc::{AllocError, Global};
use str0m_formats::{Codec, FormatParam, FormatParams};

/// What lines say of a codec; none where they are refused.
#[derive(Clone, Copy)]
pub(crate) struct KnownFormat {
    codec: Codec,
    format: Option<FormatParams>,
}

/// What is known of the codec, where it was asked for.
#[tactic(auto, unfolding(crate::specs::section::TypeLines::IsKnownFormat))]
fn known_format(known: &[KnownFormat], codec: Codec) -> Option<Option<FormatParams>>
    ensures { (lines : List (List FormatParam)) → All (IsKnownFormat lines) known.now → IfSome result (λ format. format ≡ format_of_fmtp codec lines) }
{
    for it in known {
        if it.codec == codec {
            return Some(it.format);
        }
    }
    None
}

/// The fmtp lines of a payload type, and what they say of each codec that was asked for.
#[derive(Drop)]
pub(crate) struct TypeLines<'a> {
    lines: Vec<&'a [FormatParam]>,
    known: Vec<KnownFormat>,
}

impl<'a> TypeLines<'a> {
    /// No line. Takes no memory.
    fn new(alloc: Global) -> TypeLines<'a>
        ensures lines { result.lines.items ≡ [] }
        ensures known { result.known.items ≡ [] }
    {
        TypeLines {
            lines: Vec::new(alloc),
            known: Vec::new(alloc),
        }
    }

    /// One more line.
    fn add(&mut self, values: &'a [FormatParam]) -> Result<(), AllocError>
        ensures lines { OnOk result (self.new.lines.items ≡ self.old.lines.items ++ values.entry ∷ []) }
        ensures known { self.new.known ≡ self.old.known }
    {
        self.lines.push(values)?;
        Ok(())
    }

    /// What the lines say of the codec, which joins what is known.
    #[tactic(auto, unfolding(crate::specs::section::TypeLines::IsKnownFormat))]
    fn learn(&mut self, codec: Codec) -> Result<Option<FormatParams>, AllocError>
        ensures format { (lines : List (List FormatParam)) → IsTypeGroup lines self.old → IfOk result (λ format. format ≡ format_of_fmtp codec lines) }
        ensures group { (lines : List (List FormatParam)) → IsTypeGroup lines self.old → IsTypeGroup lines self.new }
    {
        let format = FormatParams::from_sdp_fmtp(codec, self.lines.as_slice());
        self.known.push(KnownFormat { codec, format })?;
        Ok(format)
    }

    /// What the lines say of the codec: it is looked up among what is known, and joins it.
    pub(crate) fn format_of(&mut self, codec: Codec) -> Result<Option<FormatParams>, AllocError>
        ensures format { (lines : List (List FormatParam)) → IsTypeGroup lines self.old → IfOk result (λ format. format ≡ format_of_fmtp codec lines) }
        ensures group { (lines : List (List FormatParam)) → IsTypeGroup lines self.old → IsTypeGroup lines self.new }
    {
        match known_format(self.known.as_slice(), codec) {
            Some(format) => Ok(format),
            None => self.learn(codec),
        }
    }
}

/// A group for each payload type, without lines.
fn no_type_lines<'a>(alloc: Global) -> Result<Vec<TypeLines<'a>>, AllocError>
    ensures { IfOk result (λ groups. AreGrouped [] groups.items) }
{
    let mut groups = Vec::with_capacity(alloc, TYPES)?;
    while groups.len() < TYPES {
        groups.push(TypeLines::new(alloc))?;
    }
    Ok(groups)
}

/// The lines, each in the group of the type that it stands beside.
pub(crate) fn grouped<'a>(
    alloc: Global,
    lines: &[(u8, &'a [FormatParam])],
) -> Result<Vec<TypeLines<'a>>, AllocError>
    ensures { IfOk result (λ groups. AreGrouped lines.now groups.items) }
{
    let mut groups = no_type_lines(alloc)?;
    for (number, values) in lines {
        groups[usize::from(*number)].add(*values)?;
    }
    Ok(groups)
}
