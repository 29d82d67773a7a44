//! The feedback that a section speaks of, by payload type.
ghost use Rattle.std.specs.Fmt.{WritesOnOk};
ghost use Rattle.std.specs.Prelude.{◌≡◌, ◌<◌, ◌++◌, codes, decimal, get_or, set};
ghost use Rattle.str0m_sdp.specs.declared.label.TheConstants as label;
ghost use Rattle.str0m_sdp.specs.form.Printed.{labelled_line};

use crate::form::printed::{write_end, write_numbered};
use crate::label;
use crate::label::{FIR, NACK, PLI, REMB, TRANSPORT_CC};
use crate::section::type_tables::{TYPES, place};
use std::fmt;
use str0m_formats::PayloadParams;
use str0m_values::{Pt, Text};

/// Writes the `a=rtcp-fb` line of a payload type, with its end (RFC 4585, section 4.2).
pub(crate) fn write_feedback<W: fmt::Write>(
    f: &mut fmt::Formatter<W>,
    pt: Pt,
    value: &Text,
) -> fmt::Result
    ensures { WritesOnOk W.write_str_gives f.old result (labelled_line label.RTCP_FB.now (decimal pt ++ (codes " " ++ value.now))) f.new }
{
    write_numbered(f, label::RTCP_FB, pt.value())?;
    f.write_str(value.as_str())?;
    write_end(f)
}

/// The feedback that goes with a payload type.
#[derive(Clone, Copy)]
pub(crate) struct Feedback {
    pub(crate) transport_cc: bool,
    pub(crate) fir: bool,
    pub(crate) nack: bool,
    pub(crate) pli: bool,
    pub(crate) remb: bool,
}

impl Feedback {
    ghost use Rattle.str0m_sdp.specs.attribute.Feedback.{empty_feedback, named_feedback, either_feedback, with_feedback};

    pub(crate) fn none() -> Feedback
        ensures { result ≡ empty_feedback }
    {
        Feedback {
            transport_cc: false,
            fir: false,
            nack: false,
            pli: false,
            remb: false,
        }
    }

    /// Switches on what the value of an rtcp-fb line names.
    fn note(&mut self, value: &str)
        ensures { self.new ≡ either_feedback self.old (named_feedback value.now) }
    {
        match value {
            TRANSPORT_CC => self.transport_cc = true,
            FIR => self.fir = true,
            NACK => self.nack = true,
            PLI => self.pli = true,
            REMB => self.remb = true,
            _ => {}
        }
    }

    /// The row with this feedback.
    pub(crate) fn switched_on(self, mut row: PayloadParams) -> PayloadParams
        ensures { result ≡ with_feedback self row }
    {
        // A new row has transport-cc on, though in a section only a line says it: so it is set. The
        // other four a new row has on where its codec carries video: lines only add to them.
        row.set_fb_transport_cc(self.transport_cc);
        row.set_fb_fir(row.fb_fir() || self.fir);
        row.set_fb_nack(row.fb_nack() || self.nack);
        row.set_fb_pli(row.fb_pli() || self.pli);
        row.set_fb_remb(row.fb_remb() || self.remb);
        row
    }
}

ghost use Rattle.str0m_sdp.specs.attribute.Feedback.{empty_feedback, named_feedback, either_feedback};

/// Adds what the value of an rtcp-fb line names to the feedback of its payload type.
pub(crate) fn note_feedback(table: &mut [Feedback; TYPES], pt: Pt, value: &str)
    ensures noted { table.new ≡ set table.old pt (either_feedback (get_or table.old pt empty_feedback) (named_feedback value.now)) }
    ensures within { pt < 256 }
{
    table[place(pt)].note(value);
}
