//! Attributes that say the same once they are printed and read.

ghost use Rattle.std.specs.Prelude.{◌≡◌, ◌∷◌, ◌↔◌, [], IsTrue, MatchOption};
ghost use Rattle.str0m_sdp.specs.section.Alike.{Alike, AlikeLayers, alike_as_read, layer_ids, alike_shown};

use crate::attribute::MediaAttribute;
use crate::attribute::fmtp::{first_fmtp_shown, is_fmtp_shown};
use crate::attribute::simulcast::{Simulcast, SimulcastLayer};
use str0m_formats::FormatParam;

/// What a parameter is read as once it is printed: a range of events, and a list of types, however
/// it came about.
fn alike_as_read(param: FormatParam) -> FormatParam
    ensures { result ≡ alike_as_read param }
{
    match param {
        FormatParam::TelephoneEvents(last) => FormatParam::BareRange(last),
        FormatParam::Red(pt) => FormatParam::BarePtList(pt),
        _ => param,
    }
}

/// The first value that is shown, as it is read, and those after it.
fn next_alike_shown(values: &[FormatParam]) -> Option<(FormatParam, &[FormatParam])>
    ensures { MatchOption result
        (alike_shown values.now ≡ [])
        (λ found. alike_shown values.now ≡ found.0 ∷ alike_shown found.1.now) }
{
    match first_fmtp_shown(values) {
        Some((value, more)) => Some((alike_as_read(value), more)),
        None => None,
    }
}

#[tactic(auto, using(str0m_formats::proofs::param_Decides))]
fn is_alike_param(param: FormatParam, other: FormatParam) -> bool
    ensures { IsTrue result ↔ (param ≡ other) }
{
    param == other
}

/// Whether the same values are shown, in the same order.
fn are_alike_shown(values: &[FormatParam], others: &[FormatParam]) -> bool
    ensures { IsTrue result ↔ (alike_shown values.now ≡ alike_shown others.now) }
{
    let mut left = others;
    for value in values {
        if is_fmtp_shown(*value) {
            let Some((other, more)) = next_alike_shown(left) else {
                return false;
            };
            if !is_alike_param(other, alike_as_read(*value)) {
                return false;
            }
            left = more;
        }
    }
    next_alike_shown(left).is_none()
}

#[tactic(auto, using(crate::proofs::attribute::AttributeEqual::restriction_id_Decides))]
fn has_alike_name(layer: &SimulcastLayer, other: &SimulcastLayer) -> bool
    ensures { IsTrue result ↔ (layer.now.restriction_id ≡ other.now.restriction_id) }
{
    layer.restriction_id == other.restriction_id
}

/// Whether the layers have the same names, in the same order.
fn have_alike_names(layers: &[SimulcastLayer], others: &[SimulcastLayer]) -> bool
    ensures { IsTrue result ↔ (layer_ids layers.now ≡ layer_ids others.now) }
{
    if layers.len() != others.len() {
        return false;
    }
    for (i, layer) in layers.iter().enumerate() {
        if !has_alike_name(layer, &others[i]) {
            return false;
        }
    }
    true
}

/// Whether both are printed, with layers of the same names.
fn are_alike_layers(simulcast: &Simulcast, other: &Simulcast) -> bool
    ensures { IsTrue result ↔ AlikeLayers simulcast.now other.now }
{
    !simulcast.is_munged
        && !other.is_munged
        && have_alike_names(simulcast.send.0.as_slice(), other.send.0.as_slice())
        && have_alike_names(simulcast.recv.0.as_slice(), other.recv.0.as_slice())
}

#[tactic(auto, using(crate::proofs::attribute::AttributeEqual::simulcast_Decides))]
fn is_same_simulcast(simulcast: &Simulcast, other: &Simulcast) -> bool
    ensures { IsTrue result ↔ (simulcast.now ≡ other.now) }
{
    simulcast == other
}

#[tactic(auto, using(crate::proofs::attribute::AttributeEqual::media_Decides))]
fn is_same_attribute(attribute: &MediaAttribute, other: &MediaAttribute) -> bool
    ensures { IsTrue result ↔ (attribute.now ≡ other.now) }
{
    attribute == other
}

impl MediaAttribute {
    /// Whether the one may be read where the other was printed: they are equal, or fmtp lines of one
    /// type whose values print alike, in order, or simulcast lines whose layers have the same names.
    pub fn is_alike(&self, other: &MediaAttribute) -> bool
        ensures { IsTrue result ↔ Alike self.now other.now }
    {
        match (self, other) {
            (
                MediaAttribute::Fmtp { pt, values },
                MediaAttribute::Fmtp {
                    pt: other_pt,
                    values: others,
                },
            ) => pt == other_pt && are_alike_shown(values.as_slice(), others.as_slice()),
            (MediaAttribute::Simulcast(simulcast), MediaAttribute::Simulcast(other)) => {
                is_same_simulcast(simulcast, other) || are_alike_layers(simulcast, other)
            }
            _ => is_same_attribute(self, other),
        }
    }
}
