//! Mids in the order of their bytes, so that one is found among many without a look at each, whoever
//! chose them. A table whose hash is known has to look at all that were chosen to fall together.
ghost use Rattle.std.specs.Prelude.{◌≡◌, IfOk};
ghost use Rattle.str0m_sdp.specs.session.OrderedMids.{HoldsMids, is_mid_held};
ghost use Rattle.str0m_sdp.specs.session.SessionFault.{first_mid_again};

use std::alloc::{AllocError, Global};
use std::collections::BTreeSet;
use str0m_values::Mid;

/// The mids by name, each once.
pub(crate) fn mid_names_of(mids: &[Mid], alloc: Global) -> Result<BTreeSet<&str>, AllocError>
    ensures { IfOk result (λ names. HoldsMids names mids.now) }
{
    let mut names = BTreeSet::new(alloc);
    for mid in mids {
        names.insert(mid.as_str())?;
    }
    Ok(names)
}

/// Whether the mid is among the names.
pub(crate) fn is_mid_held(names: &BTreeSet<&str>, mid: Option<Mid>) -> bool
    ensures { result ≡ is_mid_held names.now mid }
{
    match mid {
        Some(mid) => names.contains(mid.as_str()),
        None => false,
    }
}

/// The first mid that stands again after its place. They are passed from the last to the first: so
/// those after a mid are known when it comes, and the last that is found is the first of all.
pub(crate) fn find_mid_again(mids: &[Mid], alloc: Global) -> Result<Option<Mid>, AllocError>
    ensures { IfOk result (λ found. found ≡ first_mid_again mids.now) }
{
    let mut later = BTreeSet::new(alloc);
    let mut found = None;
    let mut left = mids;
    while let Some((mid, before)) = left.split_last() {
        if !later.insert(mid.as_str())? {
            found = Some(*mid);
        }
        left = before;
    }
    Ok(found)
}
