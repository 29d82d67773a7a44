//! A table of claimed payload types in one number.
ghost use Rattle.std.specs.Prelude.{◌≡◌, ◌<◌, ◌==◌, ◌||◌, ◌&&◌, ◌^◌, ℕ, not, nat_le};
ghost use Rattle.str0m_formats.specs.round.ClaimMask.{bit_set, least_claim_bit};
ghost use Rattle.str0m_formats.specs.round.Claimed.{free};

use crate::round::claimed::Claimed;
use std::marker::Model;
use str0m_values::Pt;

/// A set of payload types from 0 to 127 (RFC 3550, section 5.1) in one number, whose bit `t` says whether
/// the type `t` is claimed.
///
/// It has the answers of the table `[bool; 128]`, and no call of it goes over types one by one.
/// `CodecConfig::update_params` keeps in it what is claimed.
#[derive(Clone, Copy, Debug, PartialEq, Eq)]
pub struct ClaimMask(u128);

impl Model for ClaimMask {
    ghost Value = { ℕ };

    ghost view = { λ m. m.0 };

    ghost invariant = { λ m. m.0 < 2 ^ 128 };

    ghost inverse = { λ n. record { 0 = n } };
}

// The ranges in which types are given, in order: each type as a one.
const CLAIMS_96_TO_127: u128 = 0xffff_ffff << 96;

const CLAIMS_80_TO_95: u128 = 0xffff << 80;

const CLAIMS_77_TO_78: u128 = 0b11 << 77;

const CLAIMS_35_TO_71: u128 = 0x1f_ffff_ffff << 35;

/// The type of the least bit that is set.
fn least_type(bits: u128) -> Option<Pt>
    ensures { result ≡ least_claim_bit bits }
{
    if bits == 0 {
        None
    } else {
        Some(Pt::new_with_value(bits.trailing_zeros() as u8))
    }
}

impl ClaimMask {
    fn bits(self) -> u128
        ensures { result ≡ self }
    {
        self.0
    }

    /// Whether the type is claimed; none above 127 is.
    fn has(&self, pt: Pt) -> bool
        ensures { result ≡ bit_set self.now pt }
    {
        let bits = self.bits();
        pt.value() < 128 && bits >> pt.value() & 1 == 1
    }

    /// Claims a type; false, and the mask is as it was, where it is claimed or above 127.
    fn claim(&mut self, pt: Pt) -> bool
        ensures answer { result ≡ nat_le pt 127 && not (bit_set self.old pt) }
        ensures claimed { (t : ℕ) → bit_set self.new t ≡ bit_set self.old t || (result && pt == t) }
    {
        if pt.value() > 127 {
            return false;
        }
        let bits = self.bits();
        let bit = 1 << pt.value();
        *self = ClaimMask(bits | bit);
        bits & bit == 0
    }

    /// The first type that neither mask has, in the order in which types are given.
    fn first_free(&self, unlocked: &ClaimMask) -> Option<Pt>
        ensures { result ≡ free (λ t. bit_set self.now t || bit_set unlocked.now t) }
    {
        let free = !(self.bits() | unlocked.bits());
        least_type(free & CLAIMS_96_TO_127)
            .or(least_type(free & CLAIMS_80_TO_95))
            .or(least_type(free & CLAIMS_77_TO_78))
            .or(least_type(free & CLAIMS_35_TO_71))
    }
}

impl Claimed for ClaimMask {
    ghost holds = { λ mask. bit_set mask };

    fn none_claimed() -> Self {
        ClaimMask(0)
    }

    fn claim_once(&mut self, pt: Pt) -> bool {
        self.claim(pt)
    }

    fn is_claimed(&self, pt: Pt) -> bool {
        self.has(pt)
    }

    fn find_unclaimed(&self, unlocked: &Self) -> Option<Pt> {
        self.first_free(unlocked)
    }
}
