//! What is written of all files.

use crate::records::{sarif_log, sarif_result};
use c_json::record;
use lint::{Finding, Report, Severity};
use serde_json::Value;
use std::alloc::{AllocError, Global};

/// How findings are written.
#[derive(Clone, Copy)]
pub(crate) enum OutputFormat {
    Text,
    Coloured,
    Json,
    Sarif,
}

impl OutputFormat {
    /// The format of a word of `--format`; that of text with colours or without.
    pub(crate) fn named(word: &str, is_coloured: bool) -> OutputFormat {
        match word {
            "json" => OutputFormat::Json,
            "sarif" => OutputFormat::Sarif,
            _ => if is_coloured {
                OutputFormat::Coloured
            } else {
                OutputFormat::Text
            },
        }
    }
}

/// How many findings of each severity are shown.
#[derive(Clone, Copy)]
struct OutputCounts {
    errors: usize,
    warnings: usize,
    notes: usize,
}

impl OutputCounts {
    /// The line of the counts, which ends a text.
    fn line(self, alloc: Global) -> Result<String, AllocError> {
        let errors = output_count(alloc, self.errors, "error")?;
        let warnings = output_count(alloc, self.warnings, "warning")?;
        let notes = output_count(alloc, self.notes, "note")?;
        format!(in alloc; "{errors}, {warnings}, {notes}\n")
    }

    /// The text with the line of the counts behind it.
    fn end(self, alloc: Global, mut text: String) -> Result<String, AllocError> {
        text.push_str(self.line(alloc)?.as_str())?;
        Ok(text)
    }
}

/// What is written of all files.
#[derive(Drop)]
pub(crate) struct Output {
    alloc: Global,
    format: OutputFormat,
    level: Severity,
    counts: OutputCounts,
    text: String,
    values: Vec<Value>,
}

/// The severity of a word of `--level`.
fn output_level(word: &str) -> Severity {
    match word {
        "error" => Severity::Error,
        "warning" => Severity::Warning,
        _ => Severity::Note,
    }
}

/// The colour of a severity on a terminal, and what ends it (ECMA-48, section 8.3.117): red, magenta and cyan.
fn output_severity_colour(
    format: OutputFormat,
    severity: Severity,
) -> (&'static str, &'static str) {
    match format {
        OutputFormat::Coloured => match severity {
            Severity::Error => ("\x1b[31m", "\x1b[0m"),
            Severity::Warning => ("\x1b[35m", "\x1b[0m"),
            Severity::Note => ("\x1b[36m", "\x1b[0m"),
        },
        _ => ("", ""),
    }
}

/// Whether a finding of this severity is shown at a level.
fn is_severity_in_output(severity: Severity, level: Severity) -> bool {
    match level {
        Severity::Error => matches!(severity, Severity::Error),
        Severity::Warning => !matches!(severity, Severity::Note),
        Severity::Note => true,
    }
}

/// A count with its noun, which takes an `s` where it isn't one.
fn output_count(alloc: Global, count: usize, noun: &str) -> Result<String, AllocError> {
    let ending = if count == 1 { "" } else { "s" };
    format!(in alloc; "{count} {noun}{ending}")
}

impl Output {
    pub(crate) fn new(alloc: Global, format: OutputFormat, level: &str) -> Output {
        let counts = OutputCounts {
            errors: 0,
            warnings: 0,
            notes: 0,
        };
        Output {
            alloc,
            format,
            level: output_level(level),
            counts,
            text: String::new(alloc),
            values: Vec::new(alloc),
        }
    }

    fn count(&mut self, severity: Severity) {
        match severity {
            Severity::Error => self.counts.errors = self.counts.errors.saturating_add(1),
            Severity::Warning => self.counts.warnings = self.counts.warnings.saturating_add(1),
            Severity::Note => self.counts.notes = self.counts.notes.saturating_add(1),
        }
    }

    fn add_line(&mut self, file: &str, finding: &Finding) -> Result<(), AllocError> {
        let (line, column) = (finding.line, finding.column);
        let severity = finding.code.severity();
        let (begin, end) = output_severity_colour(self.format, severity);
        let (severity, code) = (severity.word(), finding.code.entry().name);
        writeln!(
            self.text,
            "{file}:{line}:{column}: {begin}{severity}{end}: {finding} [{code}]"
        )
    }

    fn add(&mut self, file: &str, finding: &Finding) -> Result<(), AllocError> {
        let value = match self.format {
            OutputFormat::Text | OutputFormat::Coloured => return self.add_line(file, finding),
            OutputFormat::Json => record(self.alloc, file, finding)?,
            OutputFormat::Sarif => sarif_result(self.alloc, file, finding)?,
        };
        self.values.push(value)?;
        Ok(())
    }

    /// Adds the findings of a file, by their lines.
    pub(crate) fn add_report(&mut self, file: &str, report: Report) -> Result<(), AllocError> {
        let mut findings = report.findings.into_vec();
        findings.sort_by_key(|finding| (finding.line, finding.column))?;
        for finding in &findings {
            let severity = finding.code.severity();
            if is_severity_in_output(severity, self.level) {
                self.count(severity);
                self.add(file, finding)?;
            }
        }
        Ok(())
    }

    /// Whether nothing is shown.
    pub(crate) fn is_silent(&self) -> bool {
        let counts = self.counts;
        counts.errors == 0 && counts.warnings == 0 && counts.notes == 0
    }

    /// What is written.
    pub(crate) fn into_text(self) -> Result<String, AllocError> {
        let Output {
            alloc,
            format,
            level: _,
            counts,
            text,
            values,
        } = self;
        match format {
            OutputFormat::Text | OutputFormat::Coloured => counts.end(alloc, text),
            OutputFormat::Json => output_json_line(alloc, &Value::Array(values)),
            OutputFormat::Sarif => output_json_line(alloc, &sarif_log(alloc, values)?),
        }
    }
}

/// A value of JSON on a line.
fn output_json_line(alloc: Global, value: &Value) -> Result<String, AllocError> {
    let mut line = value.to_string(alloc)?;
    line.push('\n')?;
    Ok(line)
}
