//! Streams that are sent and received in several layers.
ghost use Rattle.std.specs.Prelude.{◌≡◌, IfOk, Some, [], true, refl, string_bytes};
ghost use Rattle.str0m_sdp.specs.attribute.Simulcast.{simulcast_id_text, inverted_simulcast, layer_text, layers_text, simulcast_sides_text, simulcast_text};

use crate::form::printed::{Printed, PrintedJoined, write_labelled};
use std::alloc::{AllocError, Global};
use std::fmt;
use std::ops::Deref;
use str0m_values::{Items, Text};

/// The name of a stream that may be restricted (RFC 8851, section 4), and whether the stream is
/// active. Any text can be held.
#[derive(Clone, Debug, PartialEq, Eq, Drop)]
pub struct RestrictionId(pub Text, pub bool);

impl RestrictionId {
    /// One of this name, active or not.
    pub fn new(name: Text, active: bool) -> RestrictionId
        ensures { result ≡ record { 0 = name; 1 = active } }
    {
        RestrictionId(name, active)
    }

    /// An active one of this name.
    pub fn new_active(name: Text) -> RestrictionId
        ensures { result ≡ record { 0 = name; 1 = true } }
    {
        RestrictionId(name, true)
    }

    /// An active one without a name, which takes no memory.
    pub fn empty(_alloc: Global) -> RestrictionId
        ensures { result ≡ record { 0 = []; 1 = true } }
    {
        RestrictionId(Text::empty(), true)
    }

    /// The name as simulcast lines show it: after `~` where the stream isn't active (RFC 8853,
    /// section 5.1). The only error is that memory was refused.
    pub fn to_sdp(&self, alloc: Global) -> Result<String, AllocError>
        ensures { IfOk result (λ text. string_bytes text ≡ simulcast_id_text self.now) }
    {
        self.to_string(alloc)
    }

    /// A copy that equals its source. The only error is that memory was refused.
    pub fn clone(&self) -> Result<RestrictionId, AllocError>
        ensures { IfOk result (λ id. id ≡ self.now) }
    {
        <RestrictionId as Clone>::clone(self)
    }
}

/// The text of `to_sdp`.
impl fmt::Display for RestrictionId {
    ghost output = { λ id. Some (simulcast_id_text id) };

    fn fmt<W: fmt::Write>(&self, f: &mut fmt::Formatter<W>) -> fmt::Result {
        let name = self.0.as_str();
        if self.1 {
            write!(f, "{name}")
        } else {
            write!(f, "~{name}")
        }
    }
}

/// One layer.
#[derive(Clone, Debug, PartialEq, Eq, Drop)]
pub struct SimulcastLayer {
    /// The layer's name, and whether it is active.
    pub restriction_id: RestrictionId,
    /// What a caller notes of the layer. It isn't printed.
    pub attributes: Option<Items<(Text, Text)>>,
}

impl SimulcastLayer {
    /// A copy that equals its source. The only error is that memory was refused.
    pub fn clone(&self) -> Result<SimulcastLayer, AllocError>
        ensures { IfOk result (λ layer. layer ≡ self.now) }
    {
        <SimulcastLayer as Clone>::clone(self)
    }
}

/// The name of the layer.
impl fmt::Display for SimulcastLayer {
    ghost output = { λ layer. Some (layer_text layer) };

    fn fmt<W: fmt::Write>(&self, f: &mut fmt::Formatter<W>) -> fmt::Result {
        let id = &self.restriction_id;
        write!(f, "{id}")
    }
}

impl Printed for SimulcastLayer {
    ghost text = { layer_text };

    ghost prints = { λ _. refl };
}

/// The layers of one direction, in order (RFC 8853, section 5.1).
#[derive(Clone, Debug, PartialEq, Eq, Drop)]
pub struct SimulcastGroups(pub Items<SimulcastLayer>);

impl SimulcastGroups {
    /// A copy that equals its source. The only error is that memory was refused.
    pub fn clone(&self) -> Result<SimulcastGroups, AllocError>
        ensures { IfOk result (λ groups. groups ≡ self.now) }
    {
        <SimulcastGroups as Clone>::clone(self)
    }
}

/// The layers, in order.
impl Deref for SimulcastGroups {
    type Target = Vec<SimulcastLayer>;

    ghost deref_gives = { λ groups layers. layers.items ≡ groups.0 };

    fn deref(&self) -> &Vec<SimulcastLayer> {
        &self.0.0
    }
}

/// The names of the layers, parted by `;`.
impl fmt::Display for SimulcastGroups {
    ghost output = { λ groups. Some (layers_text groups.0) };

    fn fmt<W: fmt::Write>(&self, f: &mut fmt::Formatter<W>) -> fmt::Result {
        let items = self.0.as_slice();
        let layers = PrintedJoined {
            items,
            separator: ";",
        };
        write!(f, "{layers}")
    }
}

impl Printed for SimulcastGroups {
    ghost text = { λ groups. layers_text groups.0 };

    ghost prints = { λ _. refl };
}

/// The layers that are sent and received (RFC 8853, section 5.1).
#[derive(Clone, Debug, PartialEq, Eq, Drop)]
pub struct Simulcast {
    /// The layers that are sent.
    pub send: SimulcastGroups,
    /// The layers that are received.
    pub recv: SimulcastGroups,
    /// Whether a caller made it of something else. Then it isn't printed.
    pub is_munged: bool,
}

impl Simulcast {
    /// What the other side calls it: what is sent here is received there.
    pub fn invert(self) -> Simulcast
        ensures inverted { result ≡ inverted_simulcast self }

        // The other side of the other side is this one.
        ensures twice { inverted_simulcast result ≡ self }
    {
        Simulcast {
            send: self.recv,
            recv: self.send,
            is_munged: self.is_munged,
        }
    }

    /// A copy that equals its source. The only error is that memory was refused.
    #[tactic(auto, using(crate::proofs::attribute::AttributeCopies::simulcast_copied))]
    pub fn clone(&self) -> Result<Simulcast, AllocError>
        ensures { IfOk result (λ simulcast. simulcast ≡ self.now) }
    {
        <Simulcast as Clone>::clone(self)
    }
}

/// The `a=simulcast` line, with its end; nothing where there is no layer, and where it is munged.
#[derive(Drop)]
pub(crate) struct SimulcastLine<'a>(pub(crate) &'a Simulcast);

impl<'a> fmt::Display for SimulcastLine<'a> {
    ghost output = { λ line. Some (simulcast_text line.0.now) };

    fn fmt<W: fmt::Write>(&self, f: &mut fmt::Formatter<W>) -> fmt::Result {
        if self.0.is_munged {
            return Ok(());
        }
        let (send, recv) = (&self.0.send, &self.0.recv);
        let sides = SimulcastSides { send, recv };
        sides.fmt(f)
    }
}

/// The line of the sides that have layers; nothing where neither has one.
#[derive(Drop)]
struct SimulcastSides<'a> {
    send: &'a SimulcastGroups,
    recv: &'a SimulcastGroups,
}

impl<'a> fmt::Display for SimulcastSides<'a> {
    ghost output = { λ sides. Some (simulcast_sides_text sides.send.now.0 sides.recv.now.0) };

    fn fmt<W: fmt::Write>(&self, f: &mut fmt::Formatter<W>) -> fmt::Result {
        let (send, recv) = (self.send, self.recv);
        match (send.is_empty(), recv.is_empty()) {
            (true, true) => Ok(()),
            (true, false) => write_labelled(f, "simulcast:recv ", recv),
            (false, true) => write_labelled(f, "simulcast:send ", send),
            (false, false) => write!(f, "a=simulcast:send {send} recv {recv}\r\n"),
        }
    }
}
