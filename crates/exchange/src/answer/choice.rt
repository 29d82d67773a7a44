//! What a section is answered with.
ghost use Rattle.exchange.specs.Prelude.{HoldsMids, is_media, rows};
ghost use Rattle.exchange.specs.answer.Choice.{IsSectionChoice, channels_choice, open_choice, rows_or_none};
ghost use Rattle.exchange.specs.answer.InBundle.{bundle_names};
ghost use Rattle.exchange.specs.answer.Offered.{BringsRound};
ghost use Rattle.exchange.specs.answer.Rows.{answered_rows};
ghost use Rattle.std.specs.Prelude.{◌≡◌, IfOk, true};
ghost use Rattle.str0m_sdp.specs.declared.attribute.proto.Proto.TheVariants.{Srtp};

use crate::answer::rows::answered_rows;
use crate::section::stopped::{is_stopped_in, name_of};
use crate::state::own_side::{DataChannels, OwnSide};
use std::alloc::AllocError;
use std::collections::BTreeSet;
use str0m_signal::{CodecConfig, Items, MediaLine, MediaType, Mid, PayloadParams, Proto, Sdp};

/// What a section is answered with.
#[derive(Drop)]
pub(crate) enum Choice {
    /// It is rejected.
    Rejected,
    /// It is accepted, under its name, with these rows, of which there is one at least.
    Media(Mid, Items<PayloadParams>),
    /// It is accepted, under its name, with these data channels.
    Channels(Mid, DataChannels),
}

fn channels_choice(mid: Mid, channels: Option<DataChannels>) -> Choice
    ensures { result ≡ channels_choice mid channels }
{
    match channels {
        Some(channels) => Choice::Channels(mid, channels),
        None => Choice::Rejected,
    }
}

fn rows_or_none(
    config: &CodecConfig,
    section: &MediaLine,
    mid: Mid,
    theirs: &[PayloadParams],
) -> Result<Choice, AllocError>
    requires { theirs.now ≡ rows section.now }
    ensures { IfOk result (λ choice. choice ≡ rows_or_none mid (answered_rows config.now.params.items section.now)) }
{
    let rows = answered_rows(config.params(), section, theirs)?;
    if rows.is_empty() {
        return Ok(Choice::Rejected);
    }
    Ok(Choice::Media(mid, Items::from(rows)))
}

/// What a section that isn't stopped is answered with.
fn open_choice(
    own: &OwnSide,
    config: &CodecConfig,
    section: &MediaLine,
    theirs: &[PayloadParams],
) -> Result<Choice, AllocError>
    requires { is_media section.now.typ ≡ true → section.now.proto ≡ Srtp → theirs.now ≡ rows section.now }
    ensures { IfOk result (λ choice. choice ≡ open_choice own.now config.now.params.items section.now) }
{
    let Some(mid) = name_of(section) else {
        return Ok(Choice::Rejected);
    };
    match (&section.typ, section.proto) {
        (MediaType::Audio | MediaType::Video, Proto::Srtp) => {
            rows_or_none(config, section, mid, theirs)
        }
        (MediaType::Application, Proto::Sctp) => Ok(channels_choice(mid, own.channels)),
        _ => Ok(Choice::Rejected),
    }
}

/// What an offered section is answered with (RFC 3264, section 6): it is rejected where it is stopped, where it is
/// neither media over Srtp nor data channels over Sctp, and where this side has nothing for it. `theirs` are its rows,
/// where it brings a round; `group` has the names of the offer's group in order.
pub(crate) fn choice_of(
    own: &OwnSide,
    config: &CodecConfig,
    offer: &Sdp,
    group: &BTreeSet<&str>,
    section: &MediaLine,
    theirs: &[PayloadParams],
) -> Result<Choice, AllocError>
    requires group { HoldsMids group.now (bundle_names offer.now) }
    requires rows { BringsRound offer.now section.now → theirs.now ≡ rows section.now }
    ensures { IfOk result (IsSectionChoice own.now config.now.params.items offer.now section.now) }
{
    if is_stopped_in(group, offer, section) {
        return Ok(Choice::Rejected);
    }
    open_choice(own, config, section, theirs)
}
