//! Which outcome of a text's rounds is of which section.
ghost use Rattle.exchange.specs.Prelude.{Negotiated, OutcomeOfRound, PayloadParams};
ghost use Rattle.exchange.specs.section.RoundNames.{has_round, negotiated_names};
ghost use Rattle.std.specs.Prelude.{◌≡◌, List, IfOk, length};

use crate::section::stopped::name_of;
use std::alloc::{AllocError, Global};
use str0m_signal::{MediaLine, Mid, Sdp};

fn has_round(section: &MediaLine) -> bool
    ensures { result ≡ has_round section.now }
{
    section.typ.is_media()
}

/// The names of the audio and video sections, in order: one for each outcome that `negotiate_text` returns for a text of
/// this description, in the same order, also of sections whose port is 0. `None` where a section says no name; each that is
/// read of a text says one. The description stays as it is. The only error is that memory was refused.
pub fn negotiated_names(alloc: Global, sdp: &Sdp) -> Result<Vec<Option<Mid>>, AllocError>
    ensures names { IfOk result (λ names. names.items ≡ negotiated_names sdp.now) }
    ensures one_each { IfOk result (λ names. (before after : List PayloadParams) (outcomes : List OutcomeOfRound)
        → Negotiated sdp.now.media_lines before outcomes after → length names.items ≡ length outcomes) }
{
    let sections = sdp.media_lines.as_slice();
    let mut names = Vec::new(alloc);
    for section in sections {
        if has_round(section) {
            names.push(name_of(section))?;
        }
    }
    Ok(names)
}
