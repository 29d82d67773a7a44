//! Whether each section of a description has a name of its own (RFC 5888, section 4).
ghost use Rattle.exchange.specs.Prelude.{AreMidsDistinct, section_mids};
ghost use Rattle.exchange.specs.offer.OwnNames.{IsNamedAgain};
ghost use Rattle.exchange.specs.section.Stopped.{name_of};
ghost use Rattle.std.specs.Prelude.{◌≡◌, IfOk, MatchOption, map};

use crate::section::stopped::name_of;
use std::alloc::{AllocError, Global};
use std::collections::BTreeSet;
use str0m_signal::{MediaLine, Mid};

/// The names of sections, in order; `None` where a section says none.
fn added_names_of(alloc: Global, sections: &[MediaLine]) -> Result<Vec<Option<Mid>>, AllocError>
    ensures { IfOk result (λ names. names.items ≡ map name_of sections.now) }
{
    let mut names = Vec::new(alloc);
    for section in sections {
        names.push(name_of(section))?;
    }
    Ok(names)
}

/// The first section that has the name of one before it; `None` where each has a name of its own.
pub(crate) fn first_named_again(
    alloc: Global,
    sections: &[MediaLine],
) -> Result<Option<usize>, AllocError>
    ensures { IfOk result (λ found. MatchOption found (AreMidsDistinct (section_mids sections.now)) (IsNamedAgain sections.now)) }
{
    let names = added_names_of(alloc, sections)?;
    let mut before = BTreeSet::new(alloc);
    for (at, name) in names.iter().enumerate() {
        if let Some(name) = name {
            if !before.insert(name.as_str())? {
                return Ok(Some(at));
            }
        }
    }
    Ok(None)
}
