//! What sessions and sections both say: of their transport, and lines that are kept unread.

ghost use Rattle.c_json.specs.JsonWriter.{InList, InObject};
ghost use Rattle.std.specs.Prelude.{◌≡◌, OnOk};

use crate::json_writer::JsonWriter;
use crate::words::words_after_label;
use std::alloc::AllocError;
use str0m_signal::{Fingerprint, FingerprintFmt, Setup};
use str0m_values::Worded;

/// What the last line says that has the key.
#[derive(Clone, Copy)]
pub(crate) struct Transport<'a> {
    pub(crate) end_of_candidates: Option<&'a str>,
    pub(crate) fingerprint: Option<&'a Fingerprint>,
    pub(crate) ice_options: Option<&'a str>,
    pub(crate) ice_pwd: Option<&'a str>,
    pub(crate) ice_ufrag: Option<&'a str>,
    pub(crate) setup: Option<Setup>,
}

impl<'a> Transport<'a> {
    /// What no line says.
    pub(crate) fn unsaid() -> Transport<'a> {
        Transport {
            end_of_candidates: None,
            fingerprint: None,
            ice_options: None,
            ice_pwd: None,
            ice_ufrag: None,
            setup: None,
        }
    }

    pub(crate) fn add_end_of_candidates(&self, json: &mut JsonWriter) -> Result<(), AllocError>
        requires { InObject json.old }
        ensures { OnOk result (json.new ≡ json.old) }
    {
        json.maybe_text("endOfCandidates", self.end_of_candidates)
    }

    pub(crate) fn add_fingerprint(&self, json: &mut JsonWriter) -> Result<(), AllocError>
        requires { InObject json.old }
        ensures { OnOk result (json.new ≡ json.old) }
    {
        let Some(fingerprint) = self.fingerprint else {
            return Ok(());
        };
        json.begin_object("fingerprint")?;
        json.shown("hash", &FingerprintFmt(fingerprint.bytes.as_slice()))?;
        json.text("type", fingerprint.hash_func.as_str())?;
        json.end_object()
    }

    pub(crate) fn add_ice(&self, json: &mut JsonWriter) -> Result<(), AllocError>
        requires { InObject json.old }
        ensures { OnOk result (json.new ≡ json.old) }
    {
        json.maybe_text("iceOptions", self.ice_options)?;
        json.maybe_text("icePwd", self.ice_pwd)?;
        json.maybe_text("iceUfrag", self.ice_ufrag)
    }

    pub(crate) fn add_setup(&self, json: &mut JsonWriter) -> Result<(), AllocError>
        requires { InObject json.old }
        ensures { OnOk result (json.new ≡ json.old) }
    {
        json.maybe_text("setup", self.setup.map(|setup| setup.word()))
    }
}

/// Adds a line that is kept unread.
pub(crate) fn add_unread(json: &mut JsonWriter, text: &str) -> Result<(), AllocError>
    requires { InList json.old }
    ensures { OnOk result (json.new ≡ json.old) }
{
    json.begin_item()?;
    json.text("value", text)?;
    json.end_object()
}

/// Adds an attribute that has no list and no key, as its line prints.
pub(crate) fn add_printed(json: &mut JsonWriter, line: &str) -> Result<(), AllocError>
    requires { InList json.old }
    ensures { OnOk result (json.new ≡ json.old) }
{
    add_unread(json, words_after_label(line, "").unwrap_or(""))
}
