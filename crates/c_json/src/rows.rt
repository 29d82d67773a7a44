//! The rows of a section.

ghost use Rattle.c_json.specs.JsonWriter.{InList, InObject};
ghost use Rattle.std.specs.Prelude.{◌≡◌, OnOk};

use crate::json_writer::JsonWriter;
use std::alloc::AllocError;
use str0m_sdp::label;
use str0m_signal::{MediaLine, PayloadParams, Pt};
use str0m_values::Worded;

fn row_type_number(pt: Option<Pt>) -> Option<u8> {
    match pt {
        Some(pt) => Some(pt.value()),
        None => None,
    }
}

/// The feedback that is on, as rtcp-fb lines say it.
fn add_row_feedback(json: &mut JsonWriter, row: &PayloadParams) -> Result<(), AllocError>
    requires { InObject json.old }
    ensures { OnOk result (json.new ≡ json.old) }
{
    let said = [
        (row.fb_transport_cc(), label::TRANSPORT_CC),
        (row.fb_nack(), label::NACK),
        (row.fb_pli(), label::PLI),
        (row.fb_fir(), label::FIR),
        (row.fb_remb(), label::REMB),
    ];
    json.begin_list("feedback")?;
    for (is_on, word) in said {
        if is_on {
            json.item(word)?;
        }
    }
    json.end_list()
}

fn add_row(json: &mut JsonWriter, row: &PayloadParams) -> Result<(), AllocError>
    requires { InList json.old }
    ensures { OnOk result (json.new ≡ json.old) }
{
    let spec = row.spec();
    json.begin_item()?;
    json.number_or_null("channels", spec.channels)?;
    json.text("codec", spec.codec.word())?;
    add_row_feedback(json, row)?;
    json.shown("fmtp", &spec.format)?;
    json.number("pt", u64::from(row.pt().value()))?;
    json.number("rate", u64::from(spec.clock_rate.get()))?;
    json.number_or_null("red", row_type_number(row.red()))?;
    json.number_or_null("rtx", row_type_number(row.resend()))?;
    json.end_object()
}

/// Adds the rows of a section, in order.
pub(crate) fn add_rows(json: &mut JsonWriter, section: &MediaLine) -> Result<(), AllocError>
    requires { InObject json.old }
    ensures { OnOk result (json.new ≡ json.old) }
{
    let rows = section.rtp_params()?;
    json.begin_list("rows")?;
    for row in rows.iter() {
        add_row(json, row)?;
    }
    json.end_list()
}
