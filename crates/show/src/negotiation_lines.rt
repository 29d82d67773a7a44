//! The lines of `sdpshow negotiate`.
ghost use Rattle.show.specs.NegotiationLines.{PrintsRounds, outcome_line, outcome_lines, state_line, negotiation_lock_text};
ghost use Rattle.std.specs.Prelude.{◌≡◌, ◌++◌, IfErr, IfOk, OnOk, Some, flat_map, string_bytes};
ghost use Rattle.str0m_signal.specs.session.Reader.{DescribesSession};
ghost use Rattle.str0m_signal.specs.session.ReaderAnswers.{ReaderRefuses};

use crate::row_lines::row_line;
use std::alloc::{AllocError, Global};
use std::fmt;
use str0m_signal::{CodecConfig, NegotiationError, PayloadParams, SdpError, negotiate_text};

/// What the round of a number, counted from 1, came to.
#[derive(Clone, Copy)]
struct OutcomeLine {
    number: usize,
    outcome: Result<(), NegotiationError>,
}

impl fmt::Display for OutcomeLine {
    ghost output = { λ line. Some (outcome_line line.number line.outcome) };

    fn fmt<W: fmt::Write>(&self, f: &mut fmt::Formatter<W>) -> fmt::Result {
        let number = self.number;
        match self.outcome {
            Ok(()) => write!(f, "round {number} ok\n"),
            Err(cause) => write!(f, "round {number} refused: {cause}\n"),
        }
    }
}

/// The outcomes in order, a line each.
fn outcome_lines(
    alloc: Global,
    outcomes: &[Result<(), NegotiationError>],
) -> Result<String, AllocError>
    ensures { IfOk result (λ text. string_bytes text ≡ outcome_lines 1 outcomes.now) }
{
    let mut text = String::new(alloc);
    for (i, outcome) in outcomes.iter().enumerate() {
        let line = OutcomeLine {
            number: i + 1,
            outcome: *outcome,
        };
        let line = line.to_string(alloc)?;
        text.push_str(line.as_str())?;
    }
    Ok(text)
}

fn negotiation_lock_text(is_locked: bool) -> &'static str
    ensures { result.now ≡ negotiation_lock_text is_locked }
{
    if is_locked { "locked" } else { "open" }
}

/// Appends the rows of a configuration, a line each.
fn append_negotiation_states(
    alloc: Global,
    text: &mut String,
    rows: &[PayloadParams],
) -> Result<(), AllocError>
    ensures { OnOk result (string_bytes text.new ≡ string_bytes text.old ++ flat_map state_line rows.now) }
{
    for row in rows {
        let line = row_line(alloc, negotiation_lock_text(row.locked()), row)?;
        text.push_str(line.as_str())?;
    }
    Ok(())
}

/// The rounds of the default configuration against a text: what each came to, and then the rows.
pub(crate) fn negotiation_text(alloc: Global, text: &str) -> Result<String, SdpError>
    ensures printed { IfOk result (λ printed. PrintsRounds text.now (string_bytes printed)) }
    ensures refused { IfErr result (λ error. ReaderRefuses error (DescribesSession text.now)) }
{
    let mut config = CodecConfig::new_with_defaults(alloc)?;
    let outcomes = negotiate_text(&mut config, text)?;
    let mut printed = outcome_lines(alloc, outcomes.as_slice())?;
    append_negotiation_states(alloc, &mut printed, config.params())?;
    Ok(printed)
}
