//! What C gets of a section as a list of structs.

ghost use Rattle.std.specs.Prelude.{◌≡◌, IfOk, List};
ghost use Rattle.str0m_sdp.specs.declared.section.media_line.MediaLine.{MediaLine};

use std::alloc::{AllocError, Global};
use str0m_signal::MediaLine;

/// An item of such a list.
pub trait SectionItem: Copy {
    // what a section lists, in order
    ghost listed: { MediaLine → List Self };

    /// What the section lists. The only error is that memory was refused.
    fn all_of(alloc: Global, section: &MediaLine) -> Result<Vec<Self>, AllocError>
        ensures { IfOk result (λ made. made.items ≡ listed section.now) };
}
