//! Candidates as they are trickled.

ghost use Rattle.exchange.specs.Prelude.{Answers, AtMostOneAnswer, FirstLine, IsCandidateLine, IsReaderRefusal};
ghost use Rattle.exchange.specs.section.Trickled.{IsTrickled, trickled_as_line};
ghost use Rattle.std.specs.Prelude.{◌≡◌, IfOk, [], string_bytes};

use std::alloc::{AllocError, Global};
use str0m_signal::{Candidate, SdpError, candidate_attribute};

/// The text as a line of a description.
fn trickled_as_line(alloc: Global, text: &str) -> Result<String, AllocError>
    ensures { IfOk result (λ line. string_bytes line ≡ trickled_as_line text.now) }
{
    if text.starts_with("a=") {
        return String::from_str(alloc, text);
    }
    format!(in alloc; "a={text}")
}

fn trickle_refusal(alloc: Global, message: &str) -> SdpError
    ensures { IsReaderRefusal result }
{
    match String::from_str(alloc, message) {
        Ok(message) => SdpError::ParseError(message),
        Err(_) => SdpError::Memory,
    }
}

/// The candidate, where nothing stands after it.
fn trickled_alone(alloc: Global, candidate: Candidate, rest: &str) -> Result<Candidate, SdpError>
    ensures { Answers (λ read. read) result (λ read. (read ≡ candidate) × (rest.now ≡ [])) }
{
    if rest.is_empty() {
        Ok(candidate)
    } else {
        Err(trickle_refusal(alloc, "text behind the candidate"))
    }
}

/// The candidate of a text that is one line and nothing more.
fn only_candidate(alloc: Global, line: &str) -> Result<Candidate, SdpError>
    ensures { Answers (λ candidate. candidate) result (λ candidate. FirstLine IsCandidateLine line.now (candidate, [])) }
{
    match candidate_attribute(alloc, line) {
        Ok((candidate, rest)) => trickled_alone(alloc, candidate, rest),
        Err(error) => Err(error),
    }
}

/// Reads a candidate as browsers trickle it (RFC 8838; RFC 8839, section 5.1): the text of one
/// `candidate:` line, with `a=` in front of it or without, and with a line end or without.
///
/// # Errors
///
/// `ParseError` exactly where the text is no such line, or where something stands after it; so of the
/// empty text, by which browsers say that no candidate follows. `Memory` where a growth was refused.
pub fn trickled_candidate(alloc: Global, text: &str) -> Result<Candidate, SdpError>
    ensures read { Answers (λ candidate. candidate) result (IsTrickled text.now) }
    ensures one { AtMostOneAnswer (IsTrickled text.now) }
{
    let line = trickled_as_line(alloc, text)?;
    only_candidate(alloc, line.as_str())
}
