//! Layers of an answer beside those of its offer.
ghost use Rattle.exchange.specs.answer.Layers.{is_layer_named};
ghost use Rattle.exchange.specs.answer.TurnedLayers.{AreLayersAmong, TurnsLayers, are_rids_opposite, is_rid_opposite, is_turned, layers_received};
ghost use Rattle.std.specs.List.{list_any};
ghost use Rattle.std.specs.Prelude.{◌≡◌, ◌↔◌, IfOk, IsTrue, All, true};

use crate::answer::layers::{is_layer_sent, sent_layers};
use std::alloc::{AllocError, Global};
use str0m_signal::{Items, MediaAttribute, MediaLine, Simulcast, SimulcastLayer};

/// Whether the word of one rid line says that it sends what the other receives.
fn are_rids_opposite(way: &str, other: &str) -> bool
    ensures { result ≡ are_rids_opposite way.now other.now }
{
    (way == "send" && other == "recv") || (way == "recv" && other == "send")
}

fn is_rid_opposite(name: &str, way: &str, line: &MediaAttribute) -> bool
    ensures { result ≡ is_rid_opposite name.now way.now line.now }
{
    match line {
        MediaAttribute::Rid { id, direction, .. } => {
            id.0.as_str() == name && are_rids_opposite(way, direction.as_str())
        }
        _ => false,
    }
}

/// Whether a rid line of this name goes the other way.
fn has_opposite_rid(lines: &[MediaAttribute], name: &str, way: &str) -> bool
    ensures { result ≡ list_any (is_rid_opposite name.now way.now) lines.now }
{
    lines.iter().any(|line| is_rid_opposite(name, way, line))
}

/// Whether a rid line turns one of the offer round; `true` of other lines.
fn is_turned(offered: &[MediaAttribute], line: &MediaAttribute) -> bool
    ensures { result ≡ is_turned offered.now line.now }
{
    match line {
        MediaAttribute::Rid { id, direction, .. } => {
            has_opposite_rid(offered, id.0.as_str(), direction.as_str())
        }
        _ => true,
    }
}

fn are_turned(offered: &[MediaAttribute], answered: &[MediaAttribute]) -> bool
    ensures { IsTrue result ↔ All (λ line. is_turned offered.now line ≡ true) answered.now }
{
    answered.iter().all(|line| is_turned(offered, line))
}

/// The layers that a section receives.
fn layers_received(alloc: Global, section: &MediaLine) -> Result<Items<SimulcastLayer>, AllocError>
    ensures { IfOk result (λ layers. layers ≡ layers_received section.now) }
{
    match section.simulcast()? {
        None => Ok(Items::empty(alloc)),
        Some(simulcast) => {
            let Simulcast { recv, .. } = simulcast;
            Ok(recv.0)
        }
    }
}

fn is_layer_among(others: &[SimulcastLayer], layer: &SimulcastLayer) -> bool
    ensures { result ≡ list_any (is_layer_named layer.now.restriction_id.0) others.now }
{
    is_layer_sent(others, layer.restriction_id.0.as_str())
}

/// Whether each layer has the name of one of the others.
fn are_layers_among(others: &[SimulcastLayer], layers: &[SimulcastLayer]) -> bool
    ensures { IsTrue result ↔ AreLayersAmong others.now layers.now }
{
    layers.iter().all(|layer| is_layer_among(others, layer))
}

/// Whether the rids and the layers of an answer are those of the offer, received where they are sent there.
pub(crate) fn turns_layers(
    alloc: Global,
    offered: &MediaLine,
    answered: &MediaLine,
) -> Result<bool, AllocError>
    ensures { IfOk result (λ turns. IsTrue turns ↔ TurnsLayers offered.now answered.now) }
{
    let sent = sent_layers(alloc, answered)?;
    let received = layers_received(alloc, answered)?;
    let may_send = layers_received(alloc, offered)?;
    let may_receive = sent_layers(alloc, offered)?;
    Ok(
        are_turned(offered.attrs.as_slice(), answered.attrs.as_slice())
            && are_layers_among(may_send.as_slice(), sent.as_slice())
            && are_layers_among(may_receive.as_slice(), received.as_slice()),
    )
}
