//! Sources of RTP packets as C holds them.

ghost use Rattle.c_parts.specs.Source.{c_source, c_sources};
ghost use Rattle.std.specs.Prelude.{◌≡◌, IfOk, map};

use crate::section_item::SectionItem;
use std::alloc::{AllocError, Global};
use str0m_signal::{MediaLine, SsrcInfo};

/// A source of RTP packets.
#[repr(C)]
#[derive(Clone, Copy)]
pub struct SectionSource {
    pub ssrc: u32,
    pub repairs: u32,
    pub is_repair: u8,
    pub reserved: [u8; 3],
}

fn source_of(info: &SsrcInfo) -> SectionSource
    ensures { result ≡ c_source info.now }
{
    let (repairs, is_repair) = match info.repairs {
        Some(repaired) => (*repaired, 1),
        None => (0, 0),
    };
    SectionSource {
        ssrc: *info.ssrc,
        repairs,
        is_repair,
        reserved: [0; 3],
    }
}

fn sources_of(alloc: Global, infos: &[SsrcInfo]) -> Result<Vec<SectionSource>, AllocError>
    ensures { IfOk result (λ made. made.items ≡ map c_source infos.now) }
{
    let mut made = Vec::new(alloc);
    for info in infos {
        made.push(source_of(info))?;
    }
    Ok(made)
}

/// The sources of a section.
impl SectionItem for SectionSource {
    ghost listed = { c_sources };

    fn all_of(alloc: Global, section: &MediaLine) -> Result<Vec<SectionSource>, AllocError> {
        let infos = section.ssrc_info()?;
        sources_of(alloc, infos.as_slice())
    }
}
