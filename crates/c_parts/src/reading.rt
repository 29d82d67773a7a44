//! A text that C gives, read.

ghost use Rattle.c_parts.specs.Reading.{RefusesReading};
ghost use Rattle.std.specs.Prelude.{◌≡◌, ◌≢◌, IfErr, IfOk, List, length, ℕ, IsUtf8};
ghost use Rattle.str0m_sdp.specs.declared.session.Sdp.{Sdp};
ghost use Rattle.str0m_signal.specs.session.Reader.{DescribesSession, Reading};
ghost use Rattle.str0m_signal.specs.session.ReaderAnswers.{ReaderRefuses};

use std::alloc::{AllocError, Global};
use std::str;
use str0m_signal::{Sdp, SdpError, sdp_parser};

/// Why a text isn't read.
#[derive(Drop)]
pub enum Refusal {
    NotUtf8,
    Refused(SdpError),
}

fn read_text(alloc: Global, text: &str) -> Result<(Sdp, usize), SdpError>
    ensures read { IfOk result (λ read. (rest : List ℕ) × Reading text.now (read.0, rest) × (read.1 ≡ length rest)) }
    ensures refused { IfErr result (λ error. ReaderRefuses error (DescribesSession text.now)) }
{
    match sdp_parser(alloc, text) {
        Ok((sdp, rest)) => Ok((sdp, rest.len())),
        Err(error) => Err(error),
    }
}

/// The description that the bytes begin with, and how many bytes after it are unread.
pub fn read(alloc: Global, bytes: &[u8]) -> Result<(Sdp, usize), Refusal>
    ensures read { IfOk result (λ read. (rest : List ℕ) × Reading bytes.now (read.0, rest) × (read.1 ≡ length rest)) }
    ensures refused { IfErr result (λ refusal. RefusesReading refusal bytes.now) }
{
    match str::from_utf8(bytes) {
        Ok(text) => match read_text(alloc, text) {
            Ok(read) => Ok(read),
            Err(error) => Err(Refusal::Refused(error)),
        },
        Err(_) => Err(Refusal::NotUtf8),
    }
}

impl Refusal {
    /// Its number in C.
    pub fn code(&self) -> u32
        ensures refused { result ≢ 0 }
        ensures no_session { (text : List ℕ) → RefusesReading self.now text → result ≡ 1 → (sdp : Sdp) → DescribesSession text sdp → ⊥ }
        ensures no_text { (text : List ℕ) → RefusesReading self.now text → result ≡ 2 → IsUtf8 text → ⊥ }
    {
        match self {
            Refusal::NotUtf8 => 2,
            Refusal::Refused(SdpError::Memory) => 3,
            Refusal::Refused(SdpError::ParseError(_)) => 1,
            Refusal::Refused(SdpError::Inconsistent(_)) => 1,
        }
    }

    /// Its message, a line of English without an end.
    pub fn message(&self, alloc: Global) -> Result<String, AllocError> {
        match self {
            Refusal::NotUtf8 => String::from_str(alloc, "text is not UTF-8"),
            Refusal::Refused(error) => error.to_string(alloc),
        }
    }
}
