//! Names of sections in the order of their bytes, so that one is found among many without a look at each, whoever chose
//! them, and the names that sections of a session have had.
ghost use Rattle.exchange.specs.Prelude.{HoldsMids, is_mid_held};
ghost use Rattle.exchange.specs.offer.Names.{grown_names, new_name};
ghost use Rattle.std.specs.Prelude.{◌≡◌, ◌++◌, IfOk, OnOk, option_to_list};

use crate::section::stopped::name_of;
use std::alloc::{AllocError, Global};
use std::collections::BTreeSet;
use str0m_signal::{Items, MediaLine, Mid};

/// The names, each once.
pub(crate) fn ordered_names(alloc: Global, mids: &[Mid]) -> Result<BTreeSet<&str>, AllocError>
    ensures { IfOk result (λ names. HoldsMids names mids.now) }
{
    let mut names = BTreeSet::new(alloc);
    for mid in mids {
        names.insert(mid.as_str())?;
    }
    Ok(names)
}

/// Whether a name is among them; `false` of none.
pub(crate) fn is_mid_held(names: &BTreeSet<&str>, mid: Option<Mid>) -> bool
    ensures { result ≡ is_mid_held names.now mid }
{
    match mid {
        Some(mid) => names.contains(mid.as_str()),
        None => false,
    }
}

/// The name of a section, where it isn't among the others.
fn new_name(had: &[Mid], names: &BTreeSet<&str>, section: &MediaLine) -> Option<Mid>
    requires { HoldsMids names.now had.now }
    ensures { result ≡ new_name had.now section.now }
{
    if is_mid_held(names, name_of(section)) {
        None
    } else {
        name_of(section)
    }
}

/// Puts a name after the others, where there is one.
pub(crate) fn push_name(names: &mut Vec<Mid>, name: Option<Mid>) -> Result<(), AllocError>
    ensures { OnOk result (names.new.items ≡ names.old.items ++ option_to_list name) }
{
    if let Some(name) = name {
        names.push(name)?;
    }
    Ok(())
}

/// The names with those of these sections that are new.
pub(crate) fn grown_names(
    alloc: Global,
    had: &Items<Mid>,
    sections: &[MediaLine],
) -> Result<Items<Mid>, AllocError>
    ensures { IfOk result (λ names. names ≡ grown_names had.now sections.now) }
{
    let names = ordered_names(alloc, had.as_slice())?;
    let mut all = Vec::from_slice(alloc, had.as_slice())?;
    for section in sections {
        push_name(&mut all, new_name(had.as_slice(), &names, section))?;
    }
    Ok(Items::from(all))
}
