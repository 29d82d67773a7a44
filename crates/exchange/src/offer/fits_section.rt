//! The rules that a section of an answer keeps beside the one that is offered in its place.
ghost use Rattle.exchange.specs.Prelude.{is_media, section_direction};
ghost use Rattle.exchange.specs.answer.Accepted.{setup_in_force};
ghost use Rattle.exchange.specs.answer.Bundled.{IsBundledBy};
ghost use Rattle.exchange.specs.answer.InBundle.{is_so_in_bundle};
ghost use Rattle.exchange.specs.answer.Rows.{answered_rows};
ghost use Rattle.exchange.specs.answer.TurnedLayers.{TurnsLayers};
ghost use Rattle.exchange.specs.offer.Fits.{BreaksRuleFirst, KeepsEveryRule, FlowsWithinOffer, FitsIfAccepted, KeepsRule, rules_asked};
ghost use Rattle.exchange.specs.offer.Rules.{SaysOnlyOffered};
ghost use Rattle.exchange.specs.section.Reached.{section_has_creds, has_fingerprint};
ghost use Rattle.std.specs.Prelude.{◌≡◌, ◌≢◌, ◌↔◌, [], IfOk, IsTrue, MatchOption, Some, true};
ghost use Rattle.str0m_sdp.specs.declared.attribute.setup.Setup.TheVariants.{ActPass};

use crate::answer::accepted::setup_in_force;
use crate::answer::bundled::Bundled;
use crate::answer::offered_lines::says_only_offered;
use crate::answer::rows::rows_for;
use crate::answer::turned_layers::turns_layers;
use crate::offer::rule::Rule;
use crate::section::places::are_same_section_names;
use crate::section::stopped::name_of;
use crate::state::read_back::{is_same_proto, is_same_type};
use std::alloc::AllocError;
use str0m_signal::{CodecConfig, Direction, MediaLine, Sdp, Setup};

/// The rules of a section, in the order in which they are asked.
static RULES: [Rule; 11] = [
    Rule::MediaType,
    Rule::Protocol,
    Rule::Name,
    Rule::Stopped,
    Rule::Direction,
    Rule::Role,
    Rule::Formats,
    Rule::Lines,
    Rule::Layers,
    Rule::Credentials,
    Rule::Fingerprint,
];

fn rules() -> &'static [Rule]
    ensures { result.now ≡ rules_asked }
{
    RULES.as_slice()
}

/// Whether media flows only in ways that the offer leaves open.
fn flows_within_offer(offered: Direction, answered: Direction) -> bool
    ensures { IsTrue result ↔ FlowsWithinOffer offered answered }
{
    (!answered.sends() || offered.receives()) && (!answered.receives() || offered.sends())
}

/// Whether an accepted section of media flows so.
fn keeps_direction(offered: &MediaLine, answered: &MediaLine) -> bool
    ensures { IsTrue result ↔ FitsIfAccepted answered.now (is_media answered.now.typ ≡ true → FlowsWithinOffer (section_direction offered.now.attrs) (section_direction answered.now.attrs)) }
{
    answered.disabled
        || !answered.typ.is_media()
        || flows_within_offer(offered.direction(), answered.direction())
}

/// Whether one of the two roles is said for an accepted section, or none.
fn keeps_role(answer: &Sdp, answered: &MediaLine) -> bool
    ensures { IsTrue result ↔ FitsIfAccepted answered.now (setup_in_force answer.now answered.now ≢ Some ActPass) }
{
    answered.disabled || !matches!(setup_in_force(answer, answered), Some(Setup::ActPass))
}

/// Whether an accepted section of media has rows that both sides have.
fn fit_keeps_formats(ours: &CodecConfig, answered: &MediaLine) -> Result<bool, AllocError>
    ensures { IfOk result (λ keeps. IsTrue keeps ↔ FitsIfAccepted answered.now (is_media answered.now.typ ≡ true → answered_rows ours.now.params.items answered.now ≢ [])) }
{
    if answered.disabled || !answered.typ.is_media() {
        return Ok(true);
    }
    let rows = rows_for(ours, answered)?;
    Ok(!rows.is_empty())
}

fn fit_keeps_lines(offered: &MediaLine, answered: &MediaLine) -> bool
    ensures { IsTrue result ↔ FitsIfAccepted answered.now (SaysOnlyOffered offered.now answered.now) }
{
    answered.disabled || says_only_offered(offered, answered)
}

fn keeps_layers(offered: &MediaLine, answered: &MediaLine) -> Result<bool, AllocError>
    ensures { IfOk result (λ keeps. IsTrue keeps ↔ FitsIfAccepted answered.now (TurnsLayers offered.now answered.now)) }
{
    if answered.disabled {
        return Ok(true);
    }
    turns_layers(*answered.attrs.allocator(), offered, answered)
}

fn fit_keeps_creds(answer: &Sdp, bundled: &Bundled<'_>, answered: &MediaLine) -> bool
    requires { IsBundledBy answer.now bundled.now }
    ensures { IsTrue result ↔ FitsIfAccepted answered.now (is_so_in_bundle (section_has_creds answer.now.session) answer.now answered.now ≡ true) }
{
    answered.disabled || bundled.have_creds(answer, answered)
}

fn keeps_fingerprint(answer: &Sdp, bundled: &Bundled<'_>, answered: &MediaLine) -> bool
    requires { IsBundledBy answer.now bundled.now }
    ensures { IsTrue result ↔ FitsIfAccepted answered.now (is_so_in_bundle (has_fingerprint answer.now.session) answer.now answered.now ≡ true) }
{
    answered.disabled || bundled.have_fingerprint(answer, answered)
}

fn fit_keeps_stopped(offered: &MediaLine, answered: &MediaLine) -> bool
    ensures { IsTrue result ↔ (offered.now.disabled ≡ true → answered.now.disabled ≡ true) }
{
    !offered.disabled || answered.disabled
}

/// Whether a section keeps a rule.
fn fit_keeps_rule(
    rule: Rule,
    ours: &CodecConfig,
    answer: &Sdp,
    bundled: &Bundled<'_>,
    offered: &MediaLine,
    answered: &MediaLine,
) -> Result<bool, AllocError>
    requires { IsBundledBy answer.now bundled.now }
    ensures { IfOk result (λ keeps. IsTrue keeps ↔ KeepsRule ours.now.params.items answer.now offered.now answered.now rule) }
{
    match rule {
        Rule::MediaType => Ok(is_same_type(&answered.typ, &offered.typ)),
        Rule::Protocol => Ok(is_same_proto(answered.proto, offered.proto)),
        Rule::Name => Ok(are_same_section_names(name_of(answered), name_of(offered))),
        Rule::Stopped => Ok(fit_keeps_stopped(offered, answered)),
        Rule::Direction => Ok(keeps_direction(offered, answered)),
        Rule::Role => Ok(keeps_role(answer, answered)),
        Rule::Formats => Ok(fit_keeps_formats(ours, answered)?),
        Rule::Lines => Ok(fit_keeps_lines(offered, answered)),
        Rule::Layers => Ok(keeps_layers(offered, answered)?),
        Rule::Credentials => Ok(fit_keeps_creds(answer, bundled, answered)),
        Rule::Fingerprint => Ok(keeps_fingerprint(answer, bundled, answered)),
        Rule::Sections | Rule::Bundle | Rule::OwnName | Rule::Place => Ok(true),
    }
}

/// The first rule that a section breaks.
pub(crate) fn broken_rule(
    ours: &CodecConfig,
    answer: &Sdp,
    bundled: &Bundled<'_>,
    offered: &MediaLine,
    answered: &MediaLine,
) -> Result<Option<Rule>, AllocError>
    requires { IsBundledBy answer.now bundled.now }
    ensures { IfOk result (λ found. MatchOption found (KeepsEveryRule ours.now.params.items answer.now offered.now answered.now)
        (BreaksRuleFirst ours.now.params.items answer.now offered.now answered.now)) }
{
    for rule in rules() {
        if !fit_keeps_rule(*rule, ours, answer, bundled, offered, answered)? {
            return Ok(Some(*rule));
        }
    }
    Ok(None)
}
