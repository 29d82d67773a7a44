//! Header extensions as C holds them.

ghost use Rattle.c_parts.specs.Extension.{c_extension, c_extensions};
ghost use Rattle.std.specs.Prelude.{◌≡◌, IfOk, map};
ghost use Rattle.str0m_sdp.specs.section.SectionAccessors.{ext_map_at};

use crate::section_item::SectionItem;
use std::alloc::{AllocError, Global};
use str0m_signal::{Extension, MediaLine};

/// A header extension that a section maps.
#[repr(C)]
#[derive(Clone, Copy)]
pub struct SectionExtension {
    pub id: u8,
    pub reserved: [u8; 3],
}

fn extension_of(mapped: &(u8, &Extension)) -> SectionExtension
    ensures { result ≡ c_extension (ext_map_at mapped.now) }
{
    SectionExtension {
        id: mapped.0,
        reserved: [0; 3],
    }
}

fn extensions_of(
    alloc: Global,
    maps: &[(u8, &Extension)],
) -> Result<Vec<SectionExtension>, AllocError>
    ensures { IfOk result (λ made. made.items ≡ map c_extension (map ext_map_at maps.now)) }
{
    let mut made = Vec::new(alloc);
    for mapped in maps {
        made.push(extension_of(mapped))?;
    }
    Ok(made)
}

/// The header extensions of a section.
impl SectionItem for SectionExtension {
    ghost listed = { c_extensions };

    fn all_of(alloc: Global, section: &MediaLine) -> Result<Vec<SectionExtension>, AllocError> {
        let maps = section.extmaps()?;
        extensions_of(alloc, maps.as_slice())
    }
}
