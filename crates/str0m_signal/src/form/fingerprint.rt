//! Lines with the fingerprint of a certificate.
ghost use Rattle.std.specs.Prelude.{◌≡◌, IfOk, IfSome, Some};
ghost use Rattle.str0m_signal.specs.form.Fingerprint.{IsHashPairBefore, hash_read};
ghost use Rattle.str0m_signal.specs.form.FormTransport.{fingerprint};

use crate::line::parts::parts;
use crate::line::words::{hex_byte, hex_pair};
use arrayvec::ArrayVec;
use std::alloc::{AllocError, Global};
use str0m_sdp::label;
use str0m_values::cuts::{cut, strip};
use str0m_values::{Fingerprint, Items, Separator, Text};

/// The byte that two hex digits write before a `:`, and what follows that.
#[inline(always)]
fn hash_pair_before(text: &str) -> Option<(u8, &str)>
    ensures { IfSome result (λ found. IsHashPairBefore text.now found.0 found.1.now) }
{
    let bytes = text.as_bytes();
    if bytes.len() > 2 && bytes[2] == b':' {
        let byte = hex_byte(bytes[0], bytes[1])?;
        Some((byte, &text[3..]))
    } else {
        None
    }
}

/// How many bytes of a hash are read in place, so that their list asks for memory once: SHA-512 makes as many.
const FEW_HASH_BYTES: usize = 64;

/// The bytes of a hash, where they are few.
fn few_hash_bytes(alloc: Global, text: &str) -> Result<Option<Items<u8>>, AllocError>
    ensures { IfOk result (λ found. IfSome found (λ bytes. Some bytes ≡ hash_read text.now)) }
{
    let mut few: ArrayVec<u8, FEW_HASH_BYTES> = ArrayVec::new();
    let mut rest = text;
    while let Some((byte, more)) = hash_pair_before(rest) {
        if few.is_full() {
            return Ok(None);
        }
        few.push(byte);
        rest = more;
    }
    match hex_pair(rest) {
        Some(last) if !few.is_full() => {
            few.push(last);
            let bytes = Vec::from_slice(alloc, few.as_slice())?;
            Ok(Some(Items::from(bytes)))
        }
        _ => Ok(None),
    }
}

/// The bytes of a hash.
fn hash_bytes(alloc: Global, text: &str) -> Result<Option<Items<u8>>, AllocError>
    ensures { IfOk result (λ found. found ≡ hash_read text.now) }
{
    match few_hash_bytes(alloc, text)? {
        Some(bytes) => Ok(Some(bytes)),
        None => parts::<u8>(alloc, text, Separator::Colon),
    }
}

/// The fingerprint of the text after `a=`.
pub(crate) fn fingerprint(alloc: Global, text: &str) -> Result<Option<Fingerprint>, AllocError>
    ensures { IfOk result (λ found. found ≡ fingerprint.read text.now) }
{
    let Some(body) = strip(text, label::FINGERPRINT) else {
        return Ok(None);
    };
    let Some((name, pairs)) = cut(body, Separator::Space) else {
        return Ok(None);
    };
    if name.is_empty() {
        return Ok(None);
    }
    let Some(bytes) = hash_bytes(alloc, pairs)? else {
        return Ok(None);
    };
    let hash_func = Text::from_str(alloc, name)?;
    Ok(Some(Fingerprint { hash_func, bytes }))
}
