//! The header extensions of a section that an offer adds.
ghost use Rattle.exchange.specs.offer.OfferExtensions.{last_extension_number, extension_line, extension_lines, greatest_extension_in, greatest_extension_of, next_extension_number, extension_number_at, extension_number_for, extension_number_in, extension_number_of, greatest_extension_with};
ghost use Rattle.std.specs.Prelude.{◌≡◌, ◌++◌, IfOk, OnOk, option_map, option_to_list};

use std::alloc::{AllocError, Global};
use str0m_signal::{Extension, MediaAttribute, MediaLine, Text};

/// The greatest number of a header extension of one byte (RFC 8285, section 4.2).
const GREATEST_EXTENSION: u8 = 14;

fn extension_number_of(line: &MediaAttribute, uri: &str) -> Option<u8>
    ensures { result ≡ extension_number_of uri.now line.now }
{
    match line {
        MediaAttribute::ExtMap { id, ext } if ext.as_uri() == uri => Some(*id),
        _ => None,
    }
}

/// The number of the first line in a section that says a URI.
fn extension_number_at(section: &MediaLine, uri: &str) -> Option<u8>
    ensures { result ≡ extension_number_at uri.now section.now }
{
    let mut left = section.attrs.as_slice();
    while let Some((line, later)) = left.split_first() {
        if let Some(number) = extension_number_of(line, uri) {
            return Some(number);
        }
        left = later;
    }
    None
}

/// That of the first section that has one.
fn extension_number_in(said: &[MediaLine], uri: &str) -> Option<u8>
    ensures { result ≡ extension_number_in said.now uri.now }
{
    let mut left = said;
    while let Some((section, later)) = left.split_first() {
        if let Some(number) = extension_number_at(section, uri) {
            return Some(number);
        }
        left = later;
    }
    None
}

fn greatest_extension_with(line: &MediaAttribute, least: u8) -> u8
    ensures { result ≡ greatest_extension_with least line.now }
{
    match line {
        MediaAttribute::ExtMap { id, .. } => least.max(*id),
        _ => least,
    }
}

/// The greatest number that lines say, and no less than another.
fn greatest_extension_of(lines: &[MediaAttribute], least: u8) -> u8
    ensures { result ≡ greatest_extension_of least lines.now }
{
    let (mut greatest, mut left) = (least, lines);
    while let Some((line, later)) = left.split_first() {
        greatest = greatest_extension_with(line, greatest);
        left = later;
    }
    greatest
}

/// The greatest number that sections say; 0 where none says one.
fn greatest_extension_in(said: &[MediaLine]) -> u8
    ensures { result ≡ greatest_extension_in 0 said.now }
{
    let (mut greatest, mut left) = (0, said);
    while let Some((section, later)) = left.split_first() {
        greatest = greatest_extension_of(section.attrs.as_slice(), greatest);
        left = later;
    }
    greatest
}

fn next_extension_number(last: u8) -> Option<u8>
    ensures { result ≡ next_extension_number last }
{
    if last < GREATEST_EXTENSION {
        Some(last + 1)
    } else {
        None
    }
}

/// The number for a URI: the one that is said, else the next.
fn extension_number_for(said: &[MediaLine], last: u8, uri: &str) -> Option<u8>
    ensures { result ≡ extension_number_for said.now last uri.now }
{
    match extension_number_in(said, uri) {
        Some(number) => Some(number),
        None => next_extension_number(last),
    }
}

fn last_extension_number(last: u8, number: Option<u8>) -> u8
    ensures { result ≡ last_extension_number last number }
{
    match number {
        Some(number) => last.max(number),
        None => last,
    }
}

/// The line of a URI after others, where it has a number.
fn push_extension_line(
    alloc: Global,
    lines: &mut Vec<MediaAttribute>,
    uri: &str,
    number: Option<u8>,
) -> Result<(), AllocError>
    ensures { OnOk result (lines.new.items ≡ lines.old.items ++ option_to_list (option_map (extension_line uri.now) number)) }
{
    if let Some(id) = number {
        let ext = Extension::from_sdp_uri(alloc, uri)?;
        lines.push(MediaAttribute::ExtMap { id, ext })?;
    }
    Ok(())
}

/// The lines of the header extensions that this side knows, in order: each under the number that some section says, else under
/// the next one after all that are said, up to 14; without a number none is said.
pub(crate) fn extension_lines(
    alloc: Global,
    said: &[MediaLine],
    known: &[Text],
) -> Result<Vec<MediaAttribute>, AllocError>
    ensures { IfOk result (λ lines. lines.items ≡ extension_lines said.now known.now) }
{
    let mut lines = Vec::new(alloc);
    let (mut last, mut left) = (greatest_extension_in(said), known);
    while let Some((uri, later)) = left.split_first() {
        let number = extension_number_for(said, last, uri.as_str());
        push_extension_line(alloc, &mut lines, uri.as_str(), number)?;
        last = last_extension_number(last, number);
        left = later;
    }
    Ok(lines)
}
