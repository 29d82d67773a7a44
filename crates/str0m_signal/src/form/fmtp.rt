//! Lines with the parameters of a format.

ghost use Rattle.std.specs.Prelude.{◌≡◌, IfOk, IfSome, Some};
ghost use Rattle.str0m_signal.specs.form.FmtpReading.{pair_values_read, pairs_form_read, fmtp_values_read};
ghost use Rattle.str0m_signal.specs.form.MediaAttribute.{fmtp};

use crate::line::bare_values::bare;
use crate::line::front::number_in_front;
use crate::line::pairs::{pair, pairs, skip_pair_blanks};
use arrayvec::ArrayVec;
use std::alloc::{AllocError, Global};
use str0m_formats::FormatParam;
use str0m_sdp::{MediaAttribute, label};
use str0m_values::cuts::strip;
use str0m_values::{Items, Pt};

/// How many pairs are read in place, so that their list asks for no memory: most lines have no more.
const FEW_PAIRS: usize = 8;

/// The values of pairs, where these are few.
#[inline(always)]
fn few_values(alloc: Global, text: &str) -> Result<Option<Items<FormatParam>>, AllocError>
    ensures { IfOk result (λ found. IfSome found (λ values. Some values ≡ pair_values_read text.now)) }
{
    let mut few: ArrayVec<(&str, &str), FEW_PAIRS> = ArrayVec::new();
    let mut rest = text;
    loop {
        let Some((key, value, next)) = pair(rest) else {
            return Ok(None);
        };
        if few.is_full() {
            return Ok(None);
        }
        few.push((key, value));
        let Some(more) = next else {
            let values = FormatParam::parse_pairs(alloc, few.as_slice())?;
            return Ok(Some(Items::from(values)));
        };
        rest = more;
    }
}

/// The values of pairs, however many these are.
#[inline(never)]
fn many_values(alloc: Global, text: &str) -> Result<Option<Items<FormatParam>>, AllocError>
    ensures { IfOk result (λ found. found ≡ pair_values_read text.now) }
{
    match pairs(alloc, text)? {
        Some(pairs) => {
            let values = FormatParam::parse_pairs(alloc, pairs.as_slice())?;
            Ok(Some(Items::from(values)))
        }
        None => Ok(None),
    }
}

/// The values of pairs after a space.
fn pairs_form(alloc: Global, more: &str) -> Result<Option<Items<FormatParam>>, AllocError>
    ensures { IfOk result (λ found. found ≡ pairs_form_read more.now) }
{
    let Some(text) = strip(more, " ") else {
        return Ok(None);
    };
    let text = skip_pair_blanks(text);
    match few_values(alloc, text)? {
        Some(values) => Ok(Some(values)),
        None => many_values(alloc, text),
    }
}

/// The values after the payload type.
fn fmtp_values(alloc: Global, more: &str) -> Result<Items<FormatParam>, AllocError>
    ensures { IfOk result (λ values. Some values ≡ fmtp_values_read more.now) }
{
    if let Some(values) = pairs_form(alloc, more)? {
        return Ok(values);
    }
    let mut values = Vec::new(alloc);
    values.push(bare(more))?;
    Ok(Items::from(values))
}

/// The fmtp line of the text after `a=`.
#[inline(always)]
#[tactic(auto, using(crate::proofs::form::FmtpLaws::fmtp_by_number))]
pub(crate) fn fmtp(alloc: Global, text: &str) -> Result<Option<MediaAttribute>, AllocError>
    ensures { IfOk result (λ found. found ≡ fmtp.read text.now) }
{
    let Some(body) = strip(text, label::FMTP) else {
        return Ok(None);
    };
    let Some((pt, more)) = number_in_front(body, 127) else {
        return Ok(None);
    };
    let values = fmtp_values(alloc, more)?;
    Ok(Some(MediaAttribute::Fmtp {
        pt: Pt::new_with_value(pt),
        values,
    }))
}
