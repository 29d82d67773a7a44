//! Lines that an answer says only where its offer does.
ghost use Rattle.exchange.specs.offer.Rules.{SaysOnlyOffered, needs_offer};
ghost use Rattle.std.specs.Prelude.{◌≡◌, ◌↔◌, IsTrue, true, Contains};

use str0m_signal::{MediaAttribute, MediaLine};

fn needs_offer(line: &MediaAttribute) -> bool
    ensures { result ≡ needs_offer line.now }
{
    matches!(
        line,
        MediaAttribute::RtcpMux | MediaAttribute::RtcpRsize | MediaAttribute::ExtMap { .. }
    )
}

#[tactic(auto, using(str0m_sdp::proofs::media_Decides))]
fn is_equal_offered_line(line: &MediaAttribute, other: &MediaAttribute) -> bool
    ensures { IsTrue result ↔ (line.now ≡ other.now) }
{
    line == other
}

fn has_equal_offered_line(lines: &[MediaAttribute], line: &MediaAttribute) -> bool
    ensures { IsTrue result ↔ Contains lines.now line.now }
{
    lines.iter().any(|other| is_equal_offered_line(other, line))
}

fn offered_line_may_be_said(offered: &[MediaAttribute], line: &MediaAttribute) -> bool
    ensures { IsTrue result ↔ (needs_offer line.now ≡ true → Contains offered.now line.now) }
{
    !needs_offer(line) || has_equal_offered_line(offered, line)
}

/// Whether `rtcp-mux`, `rtcp-rsize` and header extensions are said only as the offered section says them.
pub(crate) fn says_only_offered(offered: &MediaLine, answered: &MediaLine) -> bool
    ensures { IsTrue result ↔ SaysOnlyOffered offered.now answered.now }
{
    let (offers, answers) = (offered.attrs.as_slice(), answered.attrs.as_slice());
    answers
        .iter()
        .all(|line| offered_line_may_be_said(offers, line))
}
