//! How parameters of formats print.
ghost use Rattle.std.specs.Prelude.{◌≡◌, ◌++◌, Some, codes, decimal};
ghost use Rattle.str0m_formats.specs.format.FormatParam.{entry, entry_text, param_flag_text, mode_list, param_text, param_part_if, param_six_digits, triple_text};
ghost use Rattle.str0m_formats.specs.format.ParamText.{shown_param_value};

use crate::format::format_param::FormatParam;
use std::fmt;
use str0m_values::{Numbered, ProfileTierLevel, Pt};

/// A flag, which prints as a digit.
#[derive(Clone, Copy)]
struct Flag(bool);

impl fmt::Display for Flag {
    ghost output = { λ flag. Some (param_flag_text flag.0) };

    fn fmt<W: fmt::Write>(&self, f: &mut fmt::Formatter<W>) -> fmt::Result {
        if self.0 {
            f.write_str("1")
        } else {
            f.write_str("0")
        }
    }
}

/// A number that prints in hexadecimal, with at least six digits.
#[derive(Clone, Copy)]
struct SixDigits(u32);

impl fmt::Display for SixDigits {
    ghost output = { λ n. Some (param_six_digits n.0) };

    #[tactic(auto, using(crate::proofs::format::ParamTextPrinted::param_padded_six))]
    fn fmt<W: fmt::Write>(&self, f: &mut fmt::Formatter<W>) -> fmt::Result {
        let n = self.0;
        write!(f, "{n:06x}")
    }
}

/// The numbers of a profile, a tier and a level.
#[derive(Clone, Copy)]
struct Triple {
    profile: u8,
    tier: u8,
    level: u8,
}

impl Triple {
    fn of<P: Numbered, T: Numbered, L: Numbered>(triple: ProfileTierLevel<P, T, L>) -> Triple
        ensures { result ≡ record {
          profile = P.number_of triple.profile;
          tier = T.number_of triple.tier;
          level = L.number_of triple.level;
        } }
    {
        Triple {
            profile: triple.profile_id(),
            tier: triple.tier_flag(),
            level: triple.level_id(),
        }
    }
}

impl fmt::Display for Triple {
    ghost output = { λ t. Some (triple_text t.profile t.tier t.level) };

    fn fmt<W: fmt::Write>(&self, f: &mut fmt::Formatter<W>) -> fmt::Result {
        let profile = self.profile;
        let tier = self.tier;
        let level = self.level;
        write!(f, "profile-id={profile};tier-flag={tier};level-id={level}")
    }
}

/// A mode in a list, with the comma that parts it from the mode before.
#[derive(Clone, Copy)]
struct ListedMode {
    started: bool,
    mode: u8,
}

impl fmt::Display for ListedMode {
    ghost output = { λ item. Some (param_part_if 44 item.started ++ decimal item.mode) };

    fn fmt<W: fmt::Write>(&self, f: &mut fmt::Formatter<W>) -> fmt::Result {
        let mode = self.mode;
        if self.started {
            write!(f, ",{mode}")
        } else {
            write!(f, "{mode}")
        }
    }
}

/// The modes of a mask, which print ascending, parted by commas.
#[derive(Clone, Copy)]
struct ModeList(u16);

impl fmt::Display for ModeList {
    ghost output = { λ list. Some (mode_list list.0) };

    fn fmt<W: fmt::Write>(&self, f: &mut fmt::Formatter<W>) -> fmt::Result {
        let mask = self.0;
        let mut started = false;
        for mode in 0..9u8 {
            if mask & (1 << mode) != 0 {
                let item = ListedMode { started, mode };
                write!(f, "{item}")?;
                started = true;
            }
        }
        Ok(())
    }
}

/// What stands after a key, as it prints.
#[derive(Clone, Copy)]
pub(crate) enum Value {
    Flag(bool),
    Number(u32),
    SixDigits(u32),
    Modes(u16),
}

impl fmt::Display for Value {
    ghost output = { λ value. Some (shown_param_value value) };

    fn fmt<W: fmt::Write>(&self, f: &mut fmt::Formatter<W>) -> fmt::Result {
        match *self {
            Value::Flag(b) => Flag(b).fmt(f),
            Value::Number(n) => fmt::Display::fmt(&n, f),
            Value::SixDigits(n) => SixDigits(n).fmt(f),
            Value::Modes(mask) => ModeList(mask).fmt(f),
        }
    }
}

/// What a parameter with a key prints: its key and its value; nothing of any other.
#[derive(Clone, Copy)]
struct Keyed(FormatParam);

impl fmt::Display for Keyed {
    ghost output = { λ param. Some (entry_text (entry param.0)) };

    fn fmt<W: fmt::Write>(&self, f: &mut fmt::Formatter<W>) -> fmt::Result {
        match self.0.entry() {
            Some((key, value)) => {
                f.write_str(key.text())?;
                f.write_str("=")?;
                value.fmt(f)
            }
            None => Ok(()),
        }
    }
}

/// A range from 0 on.
#[derive(Clone, Copy)]
struct Range(u8);

impl fmt::Display for Range {
    ghost output = { λ range. Some (codes "0-" ++ decimal range.0) };

    fn fmt<W: fmt::Write>(&self, f: &mut fmt::Formatter<W>) -> fmt::Result {
        let last = self.0;
        write!(f, "0-{last}")
    }
}

/// A payload type as a list, in which it stands twice (RFC 2198, section 5).
#[derive(Clone, Copy)]
struct TypeList(Pt);

impl fmt::Display for TypeList {
    ghost output = { λ list. Some (decimal list.0 ++ codes "/" ++ decimal list.0) };

    fn fmt<W: fmt::Write>(&self, f: &mut fmt::Formatter<W>) -> fmt::Result {
        let pt = self.0;
        write!(f, "{pt}/{pt}")
    }
}

impl fmt::Display for FormatParam {
    ghost output = { λ param. Some (param_text param) };

    fn fmt<W: fmt::Write>(&self, f: &mut fmt::Formatter<W>) -> fmt::Result {
        match *self {
            FormatParam::H265ProfileTierLevel(triple) => Triple::of(triple).fmt(f),
            FormatParam::H266ProfileTierLevel(triple) => Triple::of(triple).fmt(f),
            FormatParam::TelephoneEvents(n) | FormatParam::BareRange(n) => Range(n).fmt(f),
            FormatParam::BarePtList(pt) | FormatParam::Red(pt) => TypeList(pt).fmt(f),
            param => Keyed(param).fmt(f),
        }
    }
}
