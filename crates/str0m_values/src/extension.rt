//! Header extensions of RTP.
ghost use Rattle.std.specs.Prelude.{◌≡◌, IfOk, IsOk, true};
ghost use Rattle.str0m_values.specs.KnownExtension.{is_known_uri};

use crate::known_extension::known_extension;
use crate::text::Text;
use std::alloc::{AllocError, Global};

/// The text of a URI. The only error is that memory was refused.
#[tactic(auto, using(crate::proofs::WordsOfCases::case_found_passes), unfolding(crate::specs::KnownExtension::is_known_uri, crate::specs::Words::case_of))]
fn uri_text(alloc: Global, uri: &str) -> Result<Text, AllocError>
    ensures copy { IfOk result (λ text. text ≡ uri.now) }
    ensures known { is_known_uri uri.now ≡ true → IsOk result }
{
    match known_extension(uri) {
        Some(known) => Ok(Text::of_known(known)),
        None => Text::from_str(alloc, uri),
    }
}

/// A header extension, which its URI names (RFC 8285, section 5).
#[derive(Clone, Debug, PartialEq, Eq, Drop)]
pub struct Extension {
    /// The URI that names it.
    pub uri: Text,
    /// Whether descriptions list it; one that they don't is for this side's own use.
    pub serialized: bool,
}

impl Extension {
    /// The extension of a URI that stands in a description, so that descriptions list it. The only error is
    /// that memory was refused, of which the URIs that browsers write need none.
    #[inline(always)] // (each extmap line is read by it)
    pub fn from_sdp_uri(alloc: Global, uri: &str) -> Result<Extension, AllocError>
        ensures made { IfOk result (λ e. e ≡ record { uri = uri.now; serialized = true }) }
        ensures known { is_known_uri uri.now ≡ true → IsOk result }
    {
        Extension::new(alloc, uri, true)
    }

    /// The extension of a URI, which descriptions list where `serialized` holds. The only error is that memory
    /// was refused, of which the URIs that browsers write need none.
    pub fn new(alloc: Global, uri: &str, serialized: bool) -> Result<Extension, AllocError>
        ensures made { IfOk result (λ e. e ≡ record { uri = uri.now; serialized = serialized }) }
        ensures known { is_known_uri uri.now ≡ true → IsOk result }
    {
        let uri = uri_text(alloc, uri)?;
        Ok(Extension { uri, serialized })
    }

    /// A copy that equals its source. The only error is that memory was refused.
    pub fn clone(&self) -> Result<Extension, AllocError>
        ensures { IfOk result (λ e. e ≡ self.now) }
    {
        Clone::clone(self)
    }

    /// The URI that names it.
    pub fn as_uri(&self) -> &str
        ensures { result.now ≡ self.now.uri }
    {
        self.uri.as_str()
    }

    /// Whether descriptions list it.
    pub fn is_serialized(&self) -> bool
        ensures { result ≡ self.now.serialized }
    {
        self.serialized
    }
}
