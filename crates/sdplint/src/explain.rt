//! What a code means.

use crate::fault::Fault;
use lint::{Entry, tables};
use std::alloc::Global;
use str0m_signal::Text;

/// The entry of a code.
fn explained_entry(name: &str) -> Option<&'static Entry> {
    for table in tables() {
        if let Some(entry) = table.iter().find(|entry| entry.name == name) {
            return Some(entry);
        }
    }
    None
}

/// What a code means, where it comes from and what to do, with an example.
pub(crate) fn explanation(alloc: Global, name: &str) -> Result<String, Fault> {
    let Some(entry) = explained_entry(name) else {
        return Err(Fault::NoCode {
            name: Text::from_str(alloc, name)?,
        });
    };
    let (title, explanation, remedy) = (entry.title, entry.explanation, entry.remedy);
    let (source, example) = (entry.source, entry.example);
    let text = format!(in alloc;
        "{name}: {title}\n\n{explanation}\n\nWhat to do: {remedy}.\nSource: {source}.\nWhat gives it: {example}\n"
    )?;
    Ok(text)
}
