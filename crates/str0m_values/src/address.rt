//! IP addresses.
ghost use Rattle.std.specs.Prelude.{◌≡◌, Some};
ghost use Rattle.str0m_values.specs.Cuts.{IsTheOnly};

use std::fmt;
use std::net::{self, IpAddr as NetIpAddr};

/// An IP address: the four octets of a V4 address, or the eight groups of 16 bits of a V6 address,
/// in the order in which they are written.
#[derive(Clone, Copy, Debug, PartialEq, Eq, Hash)]
pub enum IpAddr {
    /// The four octets, the first one first.
    V4([u8; 4]),
    /// The eight groups of 16 bits, the first one first.
    V6([u16; 8]),
}

impl IpAddr {
    ghost use Rattle.str0m_values.specs.Address.{IsIpText, IsAddressInRange, ip_text};
    ghost use Rattle.str0m_values.specs.AddressReading.{ip_read};

    /// The address that a text stands for, as the readers of lines compute it.
    pub(crate) fn parsed(text: &str) -> Option<IpAddr>
        ensures { result ≡ ip_read text.now }
    {
        match text.parse::<NetIpAddr>() {
            Ok(address) => Some(IpAddr::from(address)),
            Err(_) => None,
        }
    }

    /// The address that a text stands for; `None` where it stands for none.
    ///
    /// A V4 text is four decimal numbers from 0 to 255, without leading zeros, parted by dots. A V6
    /// text is eight groups of one to four hex digits of either case, parted by colons. `::` may
    /// stand once, in place of one or more groups, and the last two groups may be a V4 text
    /// (RFC 4291, section 2.2).
    pub fn from_text(text: &str) -> Option<IpAddr>
        ensures read { IsTheOnly (IsIpText text.now) result }
        ensures printed { (a : IpAddr) → IsAddressInRange a → text.now ≡ ip_text a → result ≡ Some a }
    {
        IpAddr::parsed(text)
    }
}

/// The same octets or groups.
impl From<NetIpAddr> for IpAddr {
    ghost use Rattle.str0m_values.specs.AddressReading.{own_address};

    ghost from_gives = { λ address own. own ≡ own_address address };

    fn from(address: NetIpAddr) -> IpAddr {
        match address {
            NetIpAddr::V4(address) => IpAddr::V4(address.octets()),
            NetIpAddr::V6(address) => IpAddr::V6(address.segments()),
        }
    }
}

/// V4: the octets in decimal, parted by dots. V6: the groups in lower-case hex without leading
/// zeros, parted by colons, with `::` in place of the first longest run of two or more zero groups
/// (RFC 5952, section 4). A V6 address never ends in dots and decimals.
impl fmt::Display for IpAddr {
    ghost use Rattle.str0m_values.specs.Address.{ip_text};

    ghost output = { λ a. Some (ip_text a) };

    fn fmt<W: fmt::Write>(&self, f: &mut fmt::Formatter<W>) -> fmt::Result {
        match *self {
            IpAddr::V4(octets) => Octets(octets).fmt(f),
            IpAddr::V6(groups) => {
                let v6 = net::Ipv6Addr::from_segments(groups);
                let groups = v6.hex_groups();
                write!(f, "{groups}")
            }
        }
    }
}

/// The octets of a V4 address in decimal, parted by dots.
#[derive(Drop)]
struct Octets([u8; 4]);

impl fmt::Display for Octets {
    ghost use Rattle.str0m_values.specs.Address.{v4_text};

    ghost output = { λ octets. Some (v4_text octets.0) };

    // Part by part, since std's Display of an address asks the options of the formatter anew for each.
    fn fmt<W: fmt::Write>(&self, f: &mut fmt::Formatter<W>) -> fmt::Result {
        let [first, second, third, fourth] = self.0;
        f.write(first)?;
        FurtherOctet(second).fmt(f)?;
        FurtherOctet(third).fmt(f)?;
        FurtherOctet(fourth).fmt(f)
    }
}

/// An octet in decimal, after its dot.
#[derive(Drop)]
struct FurtherOctet(u8);

impl fmt::Display for FurtherOctet {
    ghost use Rattle.std.specs.Prelude.{◌++◌, codes, decimal};

    ghost output = { λ octet. Some (codes "." ++ decimal octet.0) };

    fn fmt<W: fmt::Write>(&self, f: &mut fmt::Formatter<W>) -> fmt::Result {
        f.write_str(".")?;
        f.write(self.0)
    }
}

/// An IP address and a port.
#[derive(Clone, Copy, Debug, PartialEq, Eq, Hash)]
pub struct SocketAddr {
    /// The address.
    pub ip: IpAddr,
    /// The port, 0 to 65535.
    pub port: u16,
}

/// The address, a colon and the port, as URIs have them: a V6 address stands in brackets (RFC 3986, section 3.2.2).
impl fmt::Display for SocketAddr {
    ghost use Rattle.str0m_values.specs.Address.{address_text};

    ghost output = { λ addr. Some (address_text addr) };

    fn fmt<W: fmt::Write>(&self, f: &mut fmt::Formatter<W>) -> fmt::Result {
        let SocketAddr { ip, port } = *self;
        match ip {
            IpAddr::V4(_) => write!(f, "{ip}:{port}"),
            IpAddr::V6(_) => write!(f, "[{ip}]:{port}"),
        }
    }
}
