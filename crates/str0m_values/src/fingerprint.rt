//! Fingerprints of certificates.
ghost use Rattle.std.specs.Prelude.{◌≡◌, ◌<◌, ◌+◌, ◌∷◌, ◌↔◌, IfOk, IfSome, IsErr, IsErrOf, IsTrue, None, Some, length, true, flat_map};
ghost use Rattle.str0m_values.specs.CutsParts.{Lacks, part_text_of};
ghost use Rattle.str0m_values.specs.Fingerprint.{IsFingerprint, IsHexByte, IsFingerprintWrittenBy, HasBadByte, IsHashFront, IsBytesReading, IsBytesReadingAfter, IsFingerprintReading, GivesFingerprint, CanFingerprintBeReadBack, fingerprint_text, hex_pair, pairs_text, hash_preference_of};
ghost use Rattle.str0m_values.specs.declared.fingerprint.Fingerprint.{Fingerprint};
ghost use Rattle.str0m_values.specs.declared.fingerprint.FingerprintError.TheVariants.{NoSpace, BadByte, Memory};
ghost use Rattle.str0m_values.specs.declared.fingerprint.TheConstants.{COLON_PAIRS};

use crate::cuts::{cut, hex_u8, is_same_text};
use crate::digit_values::value_of_digit;
use crate::items::Items;
use crate::separator::Separator;
use crate::text::Text;
use std::alloc::{AllocError, AllocFailed, Global};
use std::fmt;
use std::hash::Hash;
use thiserror::Error;

/// Why a text is no fingerprint.
#[derive(Clone, Copy, Debug, PartialEq, Eq, Error)]
pub enum FingerprintError {
    /// No space stands in the text, which parts the name from the bytes.
    #[error("no space")]
    NoSpace,
    /// A byte can't be read, or is empty.
    #[error("bad byte")]
    BadByte,
    /// Memory was refused.
    #[error("out of memory")]
    Memory,
}

impl From<AllocError> for FingerprintError {
    ghost from_gives = { λ _ e. e ≡ Memory };

    fn from(_refused: AllocError) -> FingerprintError {
        FingerprintError::Memory
    }
}

impl<T: Drop> From<AllocFailed<T>> for FingerprintError {
    ghost from_gives = { λ _ e. e ≡ Memory };

    fn from(_refused: AllocFailed<T>) -> FingerprintError {
        FingerprintError::Memory
    }
}

/// A hash of a certificate, by which a peer that shows it is known (RFC 8122, section 5).
#[derive(Clone, Debug, PartialEq, Eq, Hash, Drop)]
pub struct Fingerprint {
    /// The name of the hash function, as it stands in the description.
    pub hash_func: Text,
    /// The hash.
    pub bytes: Items<u8>,
}

impl Fingerprint {
    /// Reads the name of a hash function, a space, and bytes with `:` between each two.
    ///
    /// The name reaches to the first space. Each byte is in hexadecimal as std reads a `u8`, so one
    /// digit is enough, and a leading plus and leading zeros are allowed; an empty one is no byte.
    /// `NoSpace` where there is no space, `BadByte` where a byte can't be read, and `Memory` where
    /// there is no room for the name or the bytes.
    pub fn from_str(alloc: Global, text: &str) -> Result<Fingerprint, FingerprintError>
        ensures reads { IfOk result (IsFingerprint text.now) }
        ensures only { (f : Fingerprint) → IsFingerprint text.now f → GivesFingerprint f result }
        ensures no_space { IsErrOf result NoSpace ↔ Lacks 32 text.now }
        ensures bad_byte { IsErrOf result BadByte → HasBadByte text.now }
        ensures refuses { HasBadByte text.now → IsErr result }

        // What is printed reads as itself.
        ensures itself { (f : Fingerprint) → CanFingerprintBeReadBack f → text.now ≡ fingerprint_text f → GivesFingerprint f result }

        // Equal fingerprints hash alike.
        ensures alike { (f g : Fingerprint) → IsTrue (⟦<Fingerprint as PartialEq>⟧.eq f g) →
            ⟦<Fingerprint as Hash>⟧.hash_input f ≡ ⟦<Fingerprint as Hash>⟧.hash_input g }
    {
        read_fingerprint(alloc, text)
    }

    /// A copy that equals its source. The only error is that memory was refused.
    pub fn clone(&self) -> Result<Fingerprint, AllocError>
        ensures { IfOk result (λ f. f ≡ self.now) }
    {
        Clone::clone(self)
    }

    /// Where the hash stands in the order of preference: 0 for `sha-256`, 1 for `sha-1`, without
    /// regard to ASCII case, and 2 for all others. A least one is preferred (RFC 8122, section 5.1).
    pub fn hash_preference(&self) -> u8
        ensures { result ≡ hash_preference_of self.now.hash_func }
    {
        let name = self.hash_func.as_str();
        if is_same_text(name, "sha-256") {
            0
        } else if is_same_text(name, "sha-1") {
            1
        } else {
            2
        }
    }
}

fn read_fingerprint(alloc: Global, text: &str) -> Result<Fingerprint, FingerprintError>
    ensures { IsFingerprintReading text.now result }
{
    let Some((name, rest)) = cut(text, Separator::Space) else {
        return Err(FingerprintError::NoSpace);
    };
    let bytes = read_bytes(alloc, rest)?;
    let hash_func = Text::from_str(alloc, name)?;
    Ok(Fingerprint { hash_func, bytes })
}

/// The bytes of the pieces, in one run over the text. Nearly all are two hex digits for each, and for these there is room from the
/// start, so that their loop calls nothing.
fn read_bytes(alloc: Global, text: &str) -> Result<Items<u8>, FingerprintError>
    ensures { IsBytesReading text.now result }
{
    let mut bytes = Vec::with_capacity(alloc, text.len() / 3 + 1)?;
    let mut left = text;
    while let Some((byte, rest)) = first_hash_pair(left) {
        bytes.push_reserved(byte);
        left = rest;
    }
    match last_hash_pair(left) {
        Some(byte) => {
            bytes.push_reserved(byte);
            Ok(Items(bytes))
        }
        None => read_hash_pieces(bytes, left),
    }
}

/// The byte of the first piece and what follows its `:`, where these are two hex digits and a `:`.
#[inline(always)]
fn first_hash_pair(text: &str) -> Option<(u8, &str)>
    ensures front { IfSome result (λ pair. IsHashFront text.now (Some pair.0) (Some pair.1.now)) }
    ensures three { IfSome result (λ pair. length pair.1.now + 3 ≡ length text.now) }
{
    let bytes = text.as_bytes();
    if bytes.len() > 2 && bytes[2] == b':' {
        match pair_byte(bytes[0], bytes[1]) {
            Some(byte) => Some((byte, &text[3..])),
            None => None,
        }
    } else {
        None
    }
}

/// The byte of a text that is two hex digits.
#[inline(always)]
fn last_hash_pair(text: &str) -> Option<u8>
    ensures front { IfSome result (λ byte. IsHashFront text.now (Some byte) None) }
    ensures two { IfSome result (λ _. length text.now ≡ 2) }
{
    let bytes = text.as_bytes();
    if bytes.len() == 2 {
        pair_byte(bytes[0], bytes[1])
    } else {
        None
    }
}

/// The bytes that are there, and then those of the pieces of the text.
#[inline(never)]
fn read_hash_pieces(mut bytes: Vec<u8>, text: &str) -> Result<Items<u8>, FingerprintError>
    ensures { IsBytesReadingAfter bytes.items text.now result }
{
    let mut left = text;
    loop {
        let (byte, rest) = first_hash_byte(left);
        let Some(byte) = byte else {
            return Err(FingerprintError::BadByte);
        };
        bytes.push(byte)?;
        match rest {
            Some(rest) => left = rest,
            None => return Ok(Items(bytes)),
        }
    }
}

/// The byte of the first piece, `None` where it is none, and what follows its `:`.
fn first_hash_byte(text: &str) -> (Option<u8>, Option<&str>)
    ensures front { IsHashFront text.now result.0 (part_text_of result.1) }
    ensures shorter { IfSome result.1 (λ rest. length rest.now < length text.now) }
{
    match cut(text, Separator::Colon) {
        Some((piece, rest)) => (hex_u8(piece), Some(rest)),
        None => (hex_u8(text), None),
    }
}

/// The byte that two hex digits write.
#[inline(always)]
fn pair_byte(high: u8, low: u8) -> Option<u8>
    ensures { IfSome result (IsFingerprintWrittenBy high low) }
{
    let (high, low) = (value_of_digit(high), value_of_digit(low));
    if high < 16 && low < 16 {
        Some(high * 16 + low)
    } else {
        None
    }
}

impl fmt::Display for Fingerprint {
    ghost output = { λ f. Some (fingerprint_text f) };

    fn fmt<W: fmt::Write>(&self, f: &mut fmt::Formatter<W>) -> fmt::Result {
        f.write_str(self.hash_func.as_str())?;
        f.write_str(" ")?;
        FingerprintFmt(self.bytes.as_slice()).fmt(f)
    }
}

/// The bytes of a fingerprint as descriptions show them: two upper-case hex digits for each, with
/// `:` between each two (RFC 8122, section 5). No bytes print nothing.
#[derive(Clone, Copy, Debug)]
pub struct FingerprintFmt<'a>(pub &'a [u8]);

impl<'a> fmt::Display for FingerprintFmt<'a> {
    ghost output = { λ b. Some (pairs_text b.0.now) };

    fn fmt<W: fmt::Write>(&self, f: &mut fmt::Formatter<W>) -> fmt::Result {
        let Some((first, more)) = self.0.split_first() else {
            return Ok(());
        };
        f.write_str(bare_pair(*first))?;
        MorePairs(more).fmt(f)
    }
}

/// Bytes, each as two upper-case hex digits after a `:`.
#[derive(Drop)]
struct MorePairs<'a>(&'a [u8]);

impl<'a> fmt::Display for MorePairs<'a> {
    ghost output = { λ more. Some (flat_map (λ byte. 58 ∷ hex_pair byte) more.0.now) };

    fn fmt<W: fmt::Write>(&self, f: &mut fmt::Formatter<W>) -> fmt::Result {
        for byte in self.0 {
            f.write_str(colon_pair(*byte))?;
        }
        Ok(())
    }
}

/// The two upper-case hex digits of each byte, in order, with `:` before each pair.
const COLON_PAIRS: &str =
    ":00:01:02:03:04:05:06:07:08:09:0A:0B:0C:0D:0E:0F:10:11:12:13:14:15:16:17:18:19:1A:1B:1C:1D:1E:1F\
    :20:21:22:23:24:25:26:27:28:29:2A:2B:2C:2D:2E:2F:30:31:32:33:34:35:36:37:38:39:3A:3B:3C:3D:3E:3F\
    :40:41:42:43:44:45:46:47:48:49:4A:4B:4C:4D:4E:4F:50:51:52:53:54:55:56:57:58:59:5A:5B:5C:5D:5E:5F\
    :60:61:62:63:64:65:66:67:68:69:6A:6B:6C:6D:6E:6F:70:71:72:73:74:75:76:77:78:79:7A:7B:7C:7D:7E:7F\
    :80:81:82:83:84:85:86:87:88:89:8A:8B:8C:8D:8E:8F:90:91:92:93:94:95:96:97:98:99:9A:9B:9C:9D:9E:9F\
    :A0:A1:A2:A3:A4:A5:A6:A7:A8:A9:AA:AB:AC:AD:AE:AF:B0:B1:B2:B3:B4:B5:B6:B7:B8:B9:BA:BB:BC:BD:BE:BF\
    :C0:C1:C2:C3:C4:C5:C6:C7:C8:C9:CA:CB:CC:CD:CE:CF:D0:D1:D2:D3:D4:D5:D6:D7:D8:D9:DA:DB:DC:DD:DE:DF\
    :E0:E1:E2:E3:E4:E5:E6:E7:E8:E9:EA:EB:EC:ED:EE:EF:F0:F1:F2:F3:F4:F5:F6:F7:F8:F9:FA:FB:FC:FD:FE:FF";

/// The pairs, by name: so the proof of what is cut out of them stays short.
#[inline(always)]
fn colon_pairs() -> &'static str
    ensures { result.now ≡ COLON_PAIRS.now }
{
    COLON_PAIRS
}

/// A `:` and the two upper-case hex digits of the byte: to write what stands there takes less than to make it.
#[inline(always)]
fn colon_pair(byte: u8) -> &'static str
    ensures { result.now ≡ 58 ∷ hex_pair byte }
{
    let at = byte as usize * 3;
    &colon_pairs()[at..at + 3]
}

/// The two upper-case hex digits of the byte.
fn bare_pair(byte: u8) -> &'static str
    ensures { result.now ≡ hex_pair byte }
{
    &colon_pair(byte)[1..]
}
