//! Layers of simulcast as C holds them.

ghost use Rattle.c_parts.specs.Layer.{c_layer, c_layers};
ghost use Rattle.std.specs.Prelude.{◌≡◌, ◌++◌, IfOk, OnOk, map};

use crate::row::flag;
use crate::section::section_direction_of;
use crate::section_item::SectionItem;
use std::alloc::{AllocError, Global};
use str0m_signal::{Direction, MediaLine, SimulcastLayer};

/// A layer of simulcast.
#[repr(C)]
#[derive(Clone, Copy)]
pub struct SectionLayer {
    pub direction: u8,
    pub paused: u8,
    pub reserved: [u8; 2],
}

fn layer_of(direction: u8, layer: &SimulcastLayer) -> SectionLayer
    ensures { result ≡ c_layer direction layer.now }
{
    SectionLayer {
        direction,
        paused: flag(1, !layer.restriction_id.1),
        reserved: [0; 2],
    }
}

/// Adds the layers that go one way.
fn push_layers(
    made: &mut Vec<SectionLayer>,
    direction: u8,
    layers: &[SimulcastLayer],
) -> Result<(), AllocError>
    ensures { OnOk result (made.new.items ≡ made.old.items ++ map (c_layer direction) layers.now) }
{
    for layer in layers {
        made.push(layer_of(direction, layer))?;
    }
    Ok(())
}

fn layers_of(alloc: Global, section: &MediaLine) -> Result<Vec<SectionLayer>, AllocError>
    ensures { IfOk result (λ made. made.items ≡ c_layers section.now) }
{
    let mut made = Vec::new(alloc);
    if let Some(simulcast) = section.simulcast()? {
        let (sent, received) = (
            section_direction_of(Direction::SendOnly),
            section_direction_of(Direction::RecvOnly),
        );
        push_layers(&mut made, sent, simulcast.send.0.as_slice())?;
        push_layers(&mut made, received, simulcast.recv.0.as_slice())?;
    }
    Ok(made)
}

/// The layers that a section sends, and then those that it receives.
impl SectionItem for SectionLayer {
    ghost listed = { c_layers };

    fn all_of(alloc: Global, section: &MediaLine) -> Result<Vec<SectionLayer>, AllocError> {
        layers_of(alloc, section)
    }
}
