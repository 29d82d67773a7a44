//! What is found in a text.
ghost use Rattle.c_json.specs.Description.{IsJsonText};
ghost use Rattle.std.specs.Prelude.{IfOk, string_bytes};

use lint::{Finding, findings};
use serde_json::{Value, json};
use std::alloc::{AllocError, Global};

/// How a text is called that stands in no file.
const FINDINGS_INPUT: &str = "-";

/// A finding in a file as an object.
pub fn record(alloc: Global, file: &str, finding: &Finding) -> Result<Value, AllocError> {
    let (line, column) = (finding.line as u64, finding.column as u64);
    let severity = finding.code.severity().word();
    let (code, message) = (finding.code.entry().name, finding.sentence.as_str());
    json!(in alloc; {
        "file": file,
        "line": line,
        "column": column,
        "severity": severity,
        "code": code,
        "message": message
    })
}

/// The findings as objects, by their lines.
fn finding_records(alloc: Global, text: &str) -> Result<Value, AllocError> {
    let mut found = findings(alloc, text)?.findings.into_vec();
    found.sort_by_key(|finding| (finding.line, finding.column))?;
    let mut records = Vec::new(alloc);
    for finding in &found {
        records.push(record(alloc, FINDINGS_INPUT, finding)?)?;
    }
    Ok(Value::Array(records))
}

/// What is found in a text, as JSON without spaces: what `sdplint --format json` writes of it as standard input, without the end of
/// the line. The only error is that memory was refused.
#[tactic(auto, using(crate::proofs::DescriptionWritten::is_json_text))]
pub fn findings_text(alloc: Global, text: &str) -> Result<String, AllocError>
    ensures { IfOk result (λ text. IsJsonText (string_bytes text)) }
{
    let whole = finding_records(alloc, text)?;
    whole.to_string(alloc)
}
