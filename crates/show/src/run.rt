//! The program over any reader and any two writers.
ghost use Rattle.show.specs.Faults.{fault_line, usage_line, IsFaultOf, IsFaultOfInput, IsFaultOfReading};
ghost use Rattle.show.specs.RowLines.{rows_text};
ghost use Rattle.show.specs.Run.{run_asked, run_asked_by, Prints, PrintsBy, Shows, ShowsAsked, RunInputDescribes};
ghost use Rattle.show.specs.declared.fault.Fault.TheVariants.{NotUtf8, Unwritable};
ghost use Rattle.std.specs.Io.KnownBytes.{Appends, IsAtEnd};
ghost use Rattle.std.specs.Prelude.{◌≡◌, ◌↔◌, ◌⊎◌, ℕ, List, None, IfErr, IfOk, IfSome, OnOk, OnErr, map, IsUtf8, string_bytes};
ghost use Rattle.str0m_sdp.specs.session.Session.{sdp_text};
ghost use Rattle.str0m_signal.specs.session.Reader.{DescribesSession};
ghost use Rattle.str0m_signal.specs.session.ReaderAnswers.{ReaderRefuses};

use crate::fault::Fault;
use crate::negotiation_lines::negotiation_text;
use crate::row_lines::rows_text;
use std::alloc::Global;
use std::io;
use std::io::{ErrorKind, Read, Write};
use str0m_signal::{SdpError, SdpOffer};

/// How a run ended.
#[derive(Drop)]
pub struct RunEnding {
    /// The exit status.
    pub status: u8,
    /// Whether the line that goes with it could be written; without a line it is `Ok`.
    pub said: io::Result<()>,
}

impl RunEnding {
    /// What was asked for is shown, and nothing is said.
    const SHOWN: RunEnding = RunEnding {
        status: 0,
        said: Ok(()),
    };
}

/// Says how the program is called. The status is 2.
pub fn run_usage<F: Write>(faults: &mut F) -> RunEnding
    ensures status { result.status ≡ 2 }
    ensures said { OnOk result.said (Appends (F.contents faults.old) (F.contents faults.new) usage_line) }
{
    let said = faults.write_all(b"usage: sdpshow text|rows|negotiate\n");
    RunEnding { status: 2, said }
}

/// Says in one line why a run fails. The status is 1.
pub fn refuse_run<F: Write>(faults: &mut F, fault: &Fault) -> RunEnding
    ensures status { result.status ≡ 1 }
    ensures said { OnOk result.said (Appends (F.contents faults.old) (F.contents faults.new) (fault_line fault.now)) }
{
    let said = writeln!(faults, "{fault}");
    RunEnding { status: 1, said }
}

/// What the program is asked to show of a description.
#[derive(Clone, Copy)]
enum Shown {
    /// Its text.
    Text,
    /// Its rows.
    Rows,
    /// What the rounds of its sections come to.
    Negotiation,
}

/// What a word asks for: `text`, `rows` or `negotiate`, exactly so written.
fn run_asked_by(word: &str) -> Option<Shown>
    ensures { result ≡ run_asked_by word.now }
{
    match word {
        "text" => Some(Shown::Text),
        "rows" => Some(Shown::Rows),
        "negotiate" => Some(Shown::Negotiation),
        _ => None,
    }
}

/// What the arguments ask for: that one word alone.
fn run_asked(words: &[String]) -> Option<Shown>
    ensures { result ≡ run_asked (map string_bytes words.now) }
{
    match words {
        [word] => run_asked_by(word.as_str()),
        _ => None,
    }
}

/// All bytes that the reader holds.
fn run_input_bytes<R: Read>(alloc: Global, input: &mut R) -> Result<Vec<u8>, Fault>
    ensures whole { IfOk result (λ bytes. IfSome (R.remaining input.old) (λ held. bytes.items ≡ held)) }
    ensures end { OnOk result (IsAtEnd (R.remaining input.new)) }
    ensures fault { IfErr result IsFaultOfReading }
{
    let mut bytes = Vec::new(alloc);
    if let Err(error) = input.read_to_end(&mut bytes) {
        return match error.kind() {
            ErrorKind::OutOfMemory => Err(Fault::OUT_OF_MEMORY),
            _ => Err(Fault::Unreadable),
        };
    }
    Ok(bytes)
}

/// What was read, as a text: the only fault is that it is none.
fn run_input_text_of(bytes: Vec<u8>) -> Result<String, Fault>
    ensures text { IfOk result (λ text. string_bytes text ≡ bytes.items) }
    ensures fault { IfErr result (λ fault. (fault ≡ NotUtf8) × (IsUtf8 bytes.items → ⊥)) }
{
    match String::from_utf8(bytes) {
        Ok(text) => Ok(text),
        Err(_) => Err(Fault::NotUtf8),
    }
}

/// All that the reader holds.
#[tactic(auto, using(crate::proofs::Faults::of_reading, crate::proofs::Faults::fault_of_no_text))]
fn run_input_text<R: Read>(alloc: Global, input: &mut R) -> Result<String, Fault>
    ensures whole { IfOk result (λ text. IfSome (R.remaining input.old) (λ held. string_bytes text ≡ held)) }
    ensures end { OnOk result (IsAtEnd (R.remaining input.new)) }
    ensures fault { IfErr result (IsFaultOfInput (R.remaining input.old)) }
{
    run_input_text_of(run_input_bytes(alloc, input)?)
}

fn run_offer_text(alloc: Global, text: &str) -> Result<String, SdpError>
    ensures printed { IfOk result (λ printed. PrintsBy sdp_text text.now (string_bytes printed)) }
    ensures refused { IfErr result (λ error. ReaderRefuses error (DescribesSession text.now)) }
{
    let offer = SdpOffer::from_sdp_string(alloc, text)?;
    Ok(offer.to_sdp_string()?)
}

fn run_offer_rows(alloc: Global, text: &str) -> Result<String, SdpError>
    ensures printed { IfOk result (λ printed. PrintsBy rows_text text.now (string_bytes printed)) }
    ensures refused { IfErr result (λ error. ReaderRefuses error (DescribesSession text.now)) }
{
    let offer = SdpOffer::from_sdp_string(alloc, text)?;
    Ok(rows_text(alloc, &offer)?)
}

/// What is shown of the description that the text begins with.
fn printed(alloc: Global, shown: Shown, text: &str) -> Result<String, SdpError>
    ensures printed { IfOk result (λ printed. Prints shown text.now (string_bytes printed)) }
    ensures refused { IfErr result (λ error. ReaderRefuses error (DescribesSession text.now)) }
{
    match shown {
        Shown::Text => run_offer_text(alloc, text),
        Shown::Rows => run_offer_rows(alloc, text),
        Shown::Negotiation => negotiation_text(alloc, text),
    }
}

fn write_whole<W: Write>(output: &mut W, text: &str) -> Result<(), Fault>
    ensures written { OnOk result (Appends (W.contents output.old) (W.contents output.new) text.now) }
    ensures fault { IfErr result (λ fault. fault ≡ Unwritable) }
{
    if output.write_all(text.as_bytes()).is_err() || output.flush().is_err() {
        return Err(Fault::Unwritable);
    }
    Ok(())
}

/// Shows the description that the reader holds.
#[tactic(auto, using(crate::proofs::Faults::fault_of_input, crate::proofs::Faults::fault_of_refusal))]
fn show<R: Read, W: Write>(
    alloc: Global,
    shown: Shown,
    input: &mut R,
    output: &mut W,
) -> Result<(), Fault>
    ensures shown { OnOk result ((printed : List ℕ) × Shows shown (R.remaining input.old) printed
        × Appends (W.contents output.old) (W.contents output.new) printed) }
    ensures end { OnOk result (IsAtEnd (R.remaining input.new)) }
    ensures refused { OnErr result ((output.new ≡ output.old) ⊎ RunInputDescribes (R.remaining input.old)) }
    ensures fault { IfErr result (IsFaultOf (R.remaining input.old)) }
{
    let text = run_input_text(alloc, input)?;
    let printed = printed(alloc, shown, text.as_str())?;
    write_whole(output, printed.as_str())
}

/// Runs the program: the arguments after its name, what it reads, what it writes, and what it says of
/// faults. Answers the exit status, and whether the line that goes with it could be written.
///
/// The word `text`, `rows` or `negotiate` alone reads the whole input as UTF-8. `text` prints the
/// session description that it begins with (RFC 8866, section 5); `rows` prints the rows of its
/// sections, a line each: `MID PT RTX RED CODEC/CLOCK[/CHANNELS] FORMAT`, the clock in Hz, with `-`
/// for what is absent. `negotiate` runs a round of the default configuration for each audio and video
/// section, and prints `round N ok` or `round N refused: CAUSE`, counted from 1, then the rows of the
/// configuration, with `locked` or `open` in place of the mid; a round that is refused is no fault of
/// the run. Nothing is read before the arguments are compared, and nothing is written before the output is
/// whole.
///
/// Status 0: it is printed, and nothing is said. Status 1, and one line that says why: the text is
/// no description, is not UTF-8 or can't be read, a growth was refused, or the output can't be
/// written. Status 2, and one line that says how the program is called: the arguments are others. Where
/// that line can't be written, the status is the same.
pub fn run<R: Read, W: Write, F: Write>(
    alloc: Global,
    words: &[String],
    input: &mut R,
    output: &mut W,
    faults: &mut F,
) -> RunEnding
    ensures statuses { (result.status ≡ 0) ⊎ (result.status ≡ 1) ⊎ (result.status ≡ 2) }

    // Status 2 is for other arguments, and then nothing is read or written.
    ensures usage { (result.status ≡ 2) ↔ (run_asked (map string_bytes words.now) ≡ None) }
    ensures unread { result.status ≡ 2 → input.new ≡ input.old }
    ensures unwritten { result.status ≡ 2 → output.new ≡ output.old }

    // Status 0: all that was held is read, what was asked for is printed, and nothing is said.
    ensures shown { result.status ≡ 0 → (printed : List ℕ)
        × ShowsAsked (run_asked (map string_bytes words.now)) (R.remaining input.old) printed
        × Appends (W.contents output.old) (W.contents output.new) printed }
    ensures end { result.status ≡ 0 → IsAtEnd (R.remaining input.new) }
    ensures silent { result.status ≡ 0 → faults.new ≡ faults.old }

    // Status 1: nothing is written of a text that describes no session.
    ensures refused { result.status ≡ 1 → (output.new ≡ output.old) ⊎ RunInputDescribes (R.remaining input.old) }

    // Where it could be written, one line says what is wrong, which is so, or how the program is called.
    ensures said { result.status ≡ 1 → (fault : Fault) × IsFaultOf (R.remaining input.old) fault
        × OnOk result.said (Appends (F.contents faults.old) (F.contents faults.new) (fault_line fault)) }
    ensures called { result.status ≡ 2
        → OnOk result.said (Appends (F.contents faults.old) (F.contents faults.new) usage_line) }
{
    let Some(shown) = run_asked(words) else {
        return run_usage(faults);
    };
    match show(alloc, shown, input, output) {
        Ok(()) => RunEnding::SHOWN,
        Err(fault) => refuse_run(faults, &fault),
    }
}
