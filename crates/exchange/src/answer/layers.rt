//! The layers of a stream that is received in several.
ghost use Rattle.exchange.specs.Prelude.{rid_name_of};
ghost use Rattle.exchange.specs.answer.Layers.{IsTurnedLayerLine, answered_layers, answered_rid, answered_rids, is_rid_named, is_rid_answered, is_rid_left, is_layer_named, is_row_type, layers_line, received_layers, sent_layers, rid_types_left};
ghost use Rattle.std.specs.List.{list_any};
ghost use Rattle.std.specs.Prelude.{◌≡◌, ◌++◌, ◌==◌, ◌&&◌, ℕ, bytes_eq, codes, IfOk, List, OnOk, filter, filter_map, option_to_list, All, []};
ghost use Rattle.str0m_sdp.specs.declared.attribute.MediaAttribute.TheVariants.{Rid};

use std::alloc::{AllocError, Global};
use str0m_signal::{
    Boxed, Items, MediaAttribute, MediaLine, PayloadParams, Pt, RestrictionId, Simulcast,
    SimulcastGroups, SimulcastLayer, Text, Word,
};

/// The layers that the offer sends.
pub(crate) fn sent_layers(
    alloc: Global,
    offered: &MediaLine,
) -> Result<Items<SimulcastLayer>, AllocError>
    ensures { IfOk result (λ layers. layers ≡ sent_layers offered.now) }
{
    match offered.simulcast()? {
        None => Ok(Items::empty(alloc)),
        Some(simulcast) => {
            let Simulcast { send, .. } = simulcast;
            Ok(send.0)
        }
    }
}

fn is_layer_named(layer: &SimulcastLayer, name: &str) -> bool
    ensures { result ≡ is_layer_named name.now layer.now }
{
    layer.restriction_id.0.as_str() == name
}

pub(crate) fn is_layer_sent(layers: &[SimulcastLayer], name: &str) -> bool
    ensures { result ≡ list_any (is_layer_named name.now) layers.now }
{
    layers.iter().any(|layer| is_layer_named(layer, name))
}

fn is_row_type(rows: &[PayloadParams], pt: Pt) -> bool
    ensures { result ≡ is_row_type rows.now pt }
{
    rows.iter().any(|row| row.pt() == pt)
}

fn has_row_type(rows: &[PayloadParams], pts: &[Pt]) -> bool
    ensures { result ≡ list_any (is_row_type rows.now) pts.now }
{
    pts.iter().any(|pt| is_row_type(rows, *pt))
}

/// Whether a rid line with these types stays: it lists none, or some of them stand among the rows.
fn is_rid_left(rows: &[PayloadParams], pts: &[Pt]) -> bool
    ensures { result ≡ is_rid_left rows.now pts.now }
{
    pts.is_empty() || has_row_type(rows, pts)
}

fn rid_types_left(alloc: Global, rows: &[PayloadParams], pts: &[Pt]) -> Result<Vec<Pt>, AllocError>
    ensures { IfOk result (λ left. left.items ≡ rid_types_left rows.now pts.now) }
{
    let mut left = Vec::new(alloc);
    for pt in pts {
        if is_row_type(rows, *pt) {
            left.push(*pt)?;
        }
    }
    Ok(left)
}

/// Whether a rid line of the offer is answered: its layer is sent, and may be sent under the type of a row.
fn is_rid_received(
    sent: &[SimulcastLayer],
    rows: &[PayloadParams],
    name: &str,
    direction: &str,
    listed: &[Pt],
) -> bool
    ensures { result ≡ (bytes_eq direction.now (codes "send") && (list_any (is_layer_named name.now) sent.now && is_rid_left rows.now listed.now)) }
{
    direction == "send" && is_layer_sent(sent, name) && is_rid_left(rows, listed)
}

/// The rid line by which a layer is received.
fn received_rid(
    alloc: Global,
    rows: &[PayloadParams],
    id: &RestrictionId,
    listed: &[Pt],
    restriction: &Items<(Text, Text)>,
) -> Result<MediaAttribute, AllocError>
    ensures { IfOk result (λ rid. rid ≡ Rid id.now (codes "recv") (rid_types_left rows.now listed.now) restriction.now) }
{
    Ok(MediaAttribute::Rid {
        id: Boxed::new(alloc, id.clone()?)?,
        direction: Word("recv"),
        pt: Items(rid_types_left(alloc, rows, listed)?),
        restriction: Boxed::new(alloc, restriction.clone()?)?,
    })
}

/// The rid line that answers a line of the offer.
fn answered_rid(
    alloc: Global,
    sent: &[SimulcastLayer],
    rows: &[PayloadParams],
    line: &MediaAttribute,
) -> Result<Option<MediaAttribute>, AllocError>
    ensures { IfOk result (λ rid. rid ≡ answered_rid sent.now rows.now line.now) }
{
    match line {
        MediaAttribute::Rid {
            id,
            direction,
            pt,
            restriction,
        } if is_rid_received(sent, rows, id.0.as_str(), direction.as_str(), pt.as_slice()) => Ok(
            Some(received_rid(alloc, rows, id.get(), pt.as_slice(), restriction.get())?),
        ),
        _ => Ok(None),
    }
}

fn push_rid(rids: &mut Vec<MediaAttribute>, rid: Option<MediaAttribute>) -> Result<(), AllocError>
    ensures { OnOk result (rids.new.items ≡ rids.old.items ++ option_to_list rid) }
{
    match rid {
        Some(rid) => rids.push(rid)?,
        None => {}
    }
    Ok(())
}

fn answered_rids(
    alloc: Global,
    sent: &[SimulcastLayer],
    rows: &[PayloadParams],
    lines: &[MediaAttribute],
) -> Result<Vec<MediaAttribute>, AllocError>
    ensures { IfOk result (λ rids. rids.items ≡ filter_map (answered_rid sent.now rows.now) lines.now) }
{
    let mut rids = Vec::new(alloc);
    for line in lines {
        let rid = answered_rid(alloc, sent, rows, line)?;
        push_rid(&mut rids, rid)?;
    }
    Ok(rids)
}

fn is_rid_named(rid: &MediaAttribute, name: &str) -> bool
    ensures { result ≡ is_rid_named name.now (rid_name_of rid.now) }
{
    match rid {
        MediaAttribute::Rid { id, .. } => id.0.as_str() == name,
        _ => false,
    }
}

fn is_rid_answered(rids: &[MediaAttribute], layer: &SimulcastLayer) -> bool
    ensures { result ≡ is_rid_answered rids.now layer.now }
{
    let name = layer.restriction_id.0.as_str();
    rids.iter().any(|rid| is_rid_named(rid, name))
}

fn received_layers(
    alloc: Global,
    rids: &[MediaAttribute],
    sent: &[SimulcastLayer],
) -> Result<Vec<SimulcastLayer>, AllocError>
    ensures { IfOk result (λ layers. layers.items ≡ filter (is_rid_answered rids.now) sent.now) }
{
    let mut layers = Vec::new(alloc);
    for layer in sent {
        if is_rid_answered(rids, layer) {
            layers.push(layer.clone()?)?;
        }
    }
    Ok(layers)
}

/// The line of the layers after the rid lines.
fn with_layers(
    alloc: Global,
    mut lines: Vec<MediaAttribute>,
    layers: Vec<SimulcastLayer>,
) -> Result<Vec<MediaAttribute>, AllocError>
    ensures { IfOk result (λ all. all.items ≡ lines.items ++ layers_line layers.items) }
{
    if !layers.is_empty() {
        let simulcast = Simulcast {
            send: SimulcastGroups(Items::empty(alloc)),
            recv: SimulcastGroups(Items(layers)),
            is_munged: false,
        };
        lines.push(MediaAttribute::Simulcast(simulcast))?;
    }
    Ok(lines)
}

/// The rid lines, then the line of the layers.
fn lines_of_layers(
    alloc: Global,
    offered: &MediaLine,
    rows: &[PayloadParams],
) -> Result<Vec<MediaAttribute>, AllocError>
    ensures { IfOk result (λ lines. lines.items ≡ answered_layers rows.now offered.now) }
{
    let sent = sent_layers(alloc, offered)?;
    let rids = answered_rids(alloc, sent.as_slice(), rows, offered.attrs.as_slice())?;
    let layers = received_layers(alloc, rids.as_slice(), sent.as_slice())?;
    with_layers(alloc, rids, layers)
}

/// The lines by which this side receives the layers that an offered section sends, where `rows` are the rows that answer it
/// (RFC 8853, section 5.3.2; RFC 8851, section 6.3): first the `a=rid` line of each, then the `a=simulcast` line.
///
/// A rid line keeps its name and its restrictions, its direction is `recv`, and of its payload types those of `rows` stay. One
/// that lists types of which none is left isn't answered, nor is one that no sent layer names. A layer stays, in the offer's
/// order and paused where it was, where its rid line does. Where no layer is left, the result is empty.
///
/// The only error is that memory was refused. The section and the rows stay as they are.
pub fn answered_layers(
    alloc: Global,
    offered: &MediaLine,
    rows: &[PayloadParams],
) -> Result<Vec<MediaAttribute>, AllocError>
    ensures exact { IfOk result (λ lines. lines.items ≡ answered_layers rows.now offered.now) }
    ensures turned { IfOk result (λ lines. All (IsTurnedLayerLine rows.now offered.now) lines.items) }
    ensures none { sent_layers offered.now ≡ [] → IfOk result (λ lines. lines.items ≡ []) }
{
    let lines = lines_of_layers(alloc, offered, rows)?;
    Ok(lines)
}
