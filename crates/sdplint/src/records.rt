//! Findings as SARIF 2.1.0.

use lint::{Entry, Finding, tables};
use percent_encoding::{AsciiSet, NON_ALPHANUMERIC, utf8_percent_encode};
use serde_json::{Value, json};
use std::alloc::{AllocError, Global};

/// The characters that a path keeps in a URI (RFC 3986, section 3.3).
fn sarif_uri_escapes() -> AsciiSet {
    NON_ALPHANUMERIC
        .remove(b'/')
        .remove(b'.')
        .remove(b'-')
        .remove(b'_')
        .remove(b'~')
}

/// The file as a URI, relative to where the program runs.
fn sarif_uri(alloc: Global, file: &str) -> Result<String, AllocError> {
    let mut uri = String::new(alloc);
    utf8_percent_encode(file, sarif_uri_escapes()).append_to(&mut uri)?;
    Ok(uri)
}

/// Where a finding stands (section 3.29).
fn sarif_location(alloc: Global, file: &str, finding: &Finding) -> Result<Value, AllocError> {
    let (line, column) = (finding.line as u64, finding.column as u64);
    let uri = sarif_uri(alloc, file)?;
    json!(in alloc; {
        "artifactLocation": {"uri": uri},
        "region": {"startLine": line, "startColumn": column}
    })
}

/// A finding as a result of SARIF (section 3.27).
pub(crate) fn sarif_result(
    alloc: Global,
    file: &str,
    finding: &Finding,
) -> Result<Value, AllocError> {
    let level = finding.code.severity().word();
    let (code, message) = (finding.code.entry().name, finding.sentence.as_str());
    let location = sarif_location(alloc, file, finding)?;
    json!(in alloc; {
        "ruleId": code,
        "level": level,
        "message": {"text": message},
        "locations": [{"physicalLocation": location}]
    })
}

/// A code as a rule of SARIF (section 3.49).
fn rule(alloc: Global, entry: &Entry) -> Result<Value, AllocError> {
    let (id, title, explanation, remedy) = (
        entry.name,
        entry.title,
        entry.explanation,
        entry.remedy,
    );
    json!(in alloc; {
        "id": id,
        "shortDescription": {"text": title},
        "fullDescription": {"text": explanation},
        "help": {"text": remedy}
    })
}

fn add_rules(alloc: Global, rules: &mut Vec<Value>, table: &[Entry]) -> Result<(), AllocError> {
    for entry in table {
        rules.push(rule(alloc, entry)?)?;
    }
    Ok(())
}

fn rules(alloc: Global) -> Result<Value, AllocError> {
    let mut rules = Vec::new(alloc);
    for table in tables() {
        add_rules(alloc, &mut rules, table)?;
    }
    Ok(Value::Array(rules))
}

/// The program as the driver of a run of SARIF (section 3.19).
fn sarif_driver(alloc: Global) -> Result<Value, AllocError> {
    let rules = rules(alloc)?;
    json!(in alloc; {"name": "sdplint", "version": "0.25.0", "rules": rules})
}

/// A run of SARIF (section 3.14).
fn sarif_run(alloc: Global, results: Vec<Value>) -> Result<Value, AllocError> {
    let (driver, results) = (sarif_driver(alloc)?, Value::Array(results));
    json!(in alloc; {
        "tool": {"driver": driver},
        "columnKind": "unicodeCodePoints",
        "results": results
    })
}

/// A log of SARIF with one run (section 3.13).
pub(crate) fn sarif_log(alloc: Global, results: Vec<Value>) -> Result<Value, AllocError> {
    let run = sarif_run(alloc, results)?;
    json!(in alloc; {
        "$schema": "https://json.schemastore.org/sarif-2.1.0.json",
        "version": "2.1.0",
        "runs": [run]
    })
}
