//! The feedback that a section offers for each payload type, by one pass over its lines.
ghost use Rattle.exchange.specs.answer.OfferedFeedback.{IsFeedbackGathered, TellsFeedbackOf, either_offered, named_offered, none_offered, offered_feedback, with_offered, feedback_for_all};
ghost use Rattle.std.specs.Prelude.{◌≡◌, ◌<◌, get_or, set, option_copied};

use str0m_sdp::label::{FIR, NACK, PLI, REMB, TRANSPORT_CC};
use str0m_signal::{MediaAttribute, MediaLine, Pt};
use str0m_values::cuts::strip;

/// As many payload types as have a place in a table: eight bits hold their numbers.
const FEEDBACK_TYPES: usize = 256;

/// What is offered for a payload type.
#[derive(Clone, Copy)]
pub(crate) struct OfferedFeedback {
    pub(crate) transport_cc: bool,
    pub(crate) fir: bool,
    pub(crate) nack: bool,
    pub(crate) pli: bool,
    pub(crate) remb: bool,
}

/// What a section offers, by payload type.
#[derive(Drop)]
pub(crate) struct SectionFeedback {
    /// By lines of the type.
    of_types: [OfferedFeedback; FEEDBACK_TYPES],
    /// By lines of all types.
    of_all: OfferedFeedback,
}

/// The value of a line that offers feedback for all types.
fn feedback_for_all(attr: &MediaAttribute) -> Option<&str>
    ensures { option_copied result ≡ feedback_for_all attr.now }
{
    match attr {
        MediaAttribute::Unused(text) => strip(text.as_str(), "rtcp-fb:* "),
        _ => None,
    }
}

impl OfferedFeedback {
    fn none() -> OfferedFeedback
        ensures { result ≡ none_offered }
    {
        OfferedFeedback {
            transport_cc: false,
            fir: false,
            nack: false,
            pli: false,
            remb: false,
        }
    }

    /// Switches on what the words name.
    fn note(&mut self, words: &str)
        ensures { self.new ≡ either_offered self.old (named_offered words.now) }
    {
        match words {
            TRANSPORT_CC => self.transport_cc = true,
            FIR => self.fir = true,
            NACK => self.nack = true,
            PLI => self.pli = true,
            REMB => self.remb = true,
            _ => {}
        }
    }

    /// What either of both names.
    fn or(self, other: OfferedFeedback) -> OfferedFeedback
        ensures { result ≡ either_offered self other }
    {
        OfferedFeedback {
            transport_cc: self.transport_cc || other.transport_cc,
            fir: self.fir || other.fir,
            nack: self.nack || other.nack,
            pli: self.pli || other.pli,
            remb: self.remb || other.remb,
        }
    }

    /// With what a line offers for all types.
    fn with_line(mut self, attr: &MediaAttribute) -> OfferedFeedback
        ensures { result ≡ with_offered self (feedback_for_all attr.now) }
    {
        if let Some(words) = feedback_for_all(attr) {
            self.note(words);
        }
        self
    }
}

/// The place of a payload type in a table of all.
fn feedback_place(pt: Pt) -> usize
    ensures is { result ≡ pt }
    ensures within { result < 256 }
{
    usize::from(pt.value())
}

/// Adds what the value of a line names to the feedback of its payload type.
fn add_feedback_value(table: &mut [OfferedFeedback; FEEDBACK_TYPES], pt: Pt, words: &str)
    ensures added { table.new ≡ set table.old pt (either_offered (get_or table.old pt none_offered) (named_offered words.now)) }
    ensures within { pt < 256 }
{
    table[feedback_place(pt)].note(words);
}

/// What these lines offer.
fn gathered_feedback(attrs: &[MediaAttribute]) -> SectionFeedback
    ensures { IsFeedbackGathered attrs.now result.of_types result.of_all }
{
    let nothing = OfferedFeedback::none();
    let mut of_types = [nothing; FEEDBACK_TYPES];
    let mut of_all = nothing;
    for attr in attrs {
        match attr {
            MediaAttribute::RtcpFb { pt, value } => add_feedback_value(
                &mut of_types,
                *pt,
                value.as_str(),
            ),
            _ => of_all = of_all.with_line(attr),
        }
    }
    SectionFeedback { of_types, of_all }
}

/// What a section offers.
pub(crate) fn section_feedback(section: &MediaLine) -> SectionFeedback
    ensures { TellsFeedbackOf section.now result }
{
    gathered_feedback(section.attrs.as_slice())
}

impl SectionFeedback {
    /// What the section offers for a payload type, by lines of its own or of all types.
    #[tactic(auto, using(crate::proofs::answer::OfferedFeedbackLaws::feedback_told))]
    pub(crate) fn for_type(&self, section: &MediaLine, pt: Pt) -> OfferedFeedback
        requires { TellsFeedbackOf section.now self.now }
        ensures { result ≡ offered_feedback section.now.attrs pt }
    {
        let own = self.of_types[feedback_place(pt)];
        own.or(self.of_all)
    }
}
