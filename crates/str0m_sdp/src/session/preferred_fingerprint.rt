//! Which of several fingerprints is preferred.
ghost use Rattle.std.specs.Prelude.{◌≡◌, IfOk, filter_map, option_copied};
ghost use Rattle.str0m_sdp.specs.session.PreferredFingerprint.{better_fingerprint_of, preferred};

use crate::session::transport::TransportAttribute;
use std::alloc::AllocError;
use str0m_values::Fingerprint;

/// The one to keep of the best so far and another: the best, unless the other is preferred to it.
fn better_fingerprint_of<'a>(
    best: Option<&'a Fingerprint>,
    other: &'a Fingerprint,
) -> &'a Fingerprint
    ensures { result.now ≡ better_fingerprint_of (option_copied best.entry) other.now }
{
    match best {
        Some(best) if best.hash_preference() <= other.hash_preference() => best,
        _ => other,
    }
}

/// The preferred fingerprint of attributes (RFC 8122, section 5.1).
pub(crate) fn preferred<A: TransportAttribute>(attrs: &[A]) -> Option<&Fingerprint>
    ensures { option_copied result ≡ preferred (filter_map A.fingerprint attrs.now) }
{
    let mut best = None;
    for attr in attrs {
        if let Some(print) = attr.as_fingerprint() {
            best = Some(better_fingerprint_of(best, print));
        }
    }
    best
}

/// A copy of a fingerprint.
pub(crate) fn copied_fingerprint(
    found: Option<&Fingerprint>,
) -> Result<Option<Fingerprint>, AllocError>
    ensures { IfOk result (λ copy. copy ≡ option_copied found.entry) }
{
    match found {
        None => Ok(None),
        Some(print) => {
            let copy = print.clone()?;
            Ok(Some(copy))
        }
    }
}
