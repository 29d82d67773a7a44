//! Proposed bandwidths.
ghost use Rattle.std.specs.Prelude.{◌≡◌, IfOk, Some};
ghost use Rattle.str0m_sdp.specs.attribute.Bandwidth.{bandwidth_text, bandwidth_line};

use std::alloc::AllocError;
use std::fmt;
use str0m_values::Text;

/// A bandwidth and what it counts (RFC 8866, section 5.8).
#[derive(Clone, Debug, PartialEq, Eq, Drop)]
pub struct Bandwidth {
    /// What the value counts, as `AS` or `TIAS`.
    pub typ: Text,
    /// The value, in the unit of its type: of `AS` in kbit/s (RFC 8866, section 5.8), of `TIAS` in
    /// bit/s (RFC 3890, section 6.2).
    pub val: Text,
}

impl Bandwidth {
    /// A copy that equals its source; the only error is that memory was refused.
    pub fn clone(&self) -> Result<Bandwidth, AllocError>
        ensures { IfOk result (λ bw. bw ≡ self.now) }
    {
        Clone::clone(self)
    }
}

/// The `b=` line, with its end.
impl fmt::Display for Bandwidth {
    ghost output = { λ bw. Some (bandwidth_text bw) };

    fn fmt<W: fmt::Write>(&self, f: &mut fmt::Formatter<W>) -> fmt::Result {
        let Bandwidth { typ, val } = self;
        write!(f, "b={typ}:{val}\r\n")
    }
}

/// The `b=` line of a session or a section, where there is one.
#[derive(Drop)]
pub(crate) struct BandwidthLine<'a>(pub(crate) &'a Option<Bandwidth>);

impl<'a> fmt::Display for BandwidthLine<'a> {
    ghost output = { λ line. Some (bandwidth_line line.0.now) };

    fn fmt<W: fmt::Write>(&self, f: &mut fmt::Formatter<W>) -> fmt::Result {
        match self.0 {
            None => Ok(()),
            Some(bw) => bw.fmt(f),
        }
    }
}
