//! Candidates (RFC 8839, section 5.1).

ghost use Rattle.c_json.specs.JsonWriter.{InList, InObject};
ghost use Rattle.std.specs.Prelude.{◌≡◌, OnOk};

use crate::json_writer::JsonWriter;
use std::alloc::AllocError;
use str0m_signal::{Candidate, SocketAddr};
use str0m_values::Worded;

/// Where it was found from.
fn add_candidate_related(
    json: &mut JsonWriter,
    related: Option<SocketAddr>,
) -> Result<(), AllocError>
    requires { InObject json.old }
    ensures { OnOk result (json.new ≡ json.old) }
{
    let Some(addr) = related else {
        return Ok(());
    };
    json.shown("raddr", &addr.ip)?;
    json.number("rport", u64::from(addr.port))
}

fn add_candidate_parts(json: &mut JsonWriter, found: &Candidate) -> Result<(), AllocError>
    requires { InObject json.old }
    ensures { OnOk result (json.new ≡ json.old) }
{
    let addr = found.addr();
    json.number("component", u64::from(found.component_id()))?;
    json.text("foundation", found.foundation())?;
    json.shown("ip", &addr.ip)?;
    json.number("port", u64::from(addr.port))?;
    json.number("priority", u64::from(found.prio()))?;
    add_candidate_related(json, found.raddr())?;
    json.maybe_text("tcptype", found.tcptype().map(|tcptype| tcptype.word()))?;
    json.text("transport", found.proto().word())?;
    json.text("type", found.kind().word())?;
    json.maybe_text("ufrag", found.ufrag())
}

/// A candidate, with those of its further parts that it has.
pub(crate) fn add_candidate(json: &mut JsonWriter, found: &Candidate) -> Result<(), AllocError>
    requires { InList json.old }
    ensures { OnOk result (json.new ≡ json.old) }
{
    json.begin_item()?;
    add_candidate_parts(json, found)?;
    json.end_object()
}
