//! Who begins the DTLS handshake.
ghost use Rattle.std.specs.Prelude.{◌≡◌, ◌≢◌, Some, None, MatchOption, refl};
ghost use Rattle.str0m_sdp.specs.attribute.Setup.{AnswersSetupRole, setup_text, inverse_setup, settled_setup};
ghost use Rattle.str0m_sdp.specs.declared.attribute.setup.Setup.TheVariants.{ActPass};

use crate::form::printed::Printed;
use std::fmt;
use str0m_values::Worded;

/// The role of a side in setting up the transport (RFC 8842, section 5.2; RFC 4145, section 4).
#[derive(Clone, Copy, Debug, Default, PartialEq, Eq)]
pub enum Setup {
    /// `actpass`: begins or waits, as the other side settles (RFC 4145, section 4; RFC 8842).
    #[default]
    ActPass,
    /// `active`: begins the DTLS handshake (RFC 4145, section 4; RFC 8842).
    Active,
    /// `passive`: waits for the other side to begin it (RFC 4145, section 4; RFC 8842).
    Passive,
}

/// The roles, as their words are looked for.
pub const SETUPS: [Setup; 3] = [Setup::ActPass, Setup::Active, Setup::Passive];

impl Worded for Setup {
    ghost word_of = { setup_text };

    fn word(self) -> &'static str {
        match self {
            Setup::ActPass => "actpass",
            Setup::Active => "active",
            Setup::Passive => "passive",
        }
    }
}

impl Setup {
    /// The word of the role.
    pub fn setup_line(&self) -> &str
        ensures { result.now ≡ setup_text self.now }
    {
        self.word()
    }

    /// The role that answers what is offered for a section (RFC 8842, section 5.3; RFC 4145, section
    /// 4.1): it is active or passive, and both sides settle on it. Where the offer leaves the choice, by
    /// `actpass` or by saying nothing, the answer is active (RFC 8829, section 5.3.1).
    pub fn answer(offered: Option<Setup>) -> Setup
        ensures { AnswersSetupRole offered result }
    {
        match offered {
            None | Some(Setup::ActPass | Setup::Passive) => Setup::Active,
            Some(Setup::Active) => Setup::Passive,
        }
    }

    /// The role of the other side: who begins on one side waits on the other. A side that offers
    /// both offers both.
    pub fn invert(&self) -> Setup
        ensures inverse { result ≡ inverse_setup self.now }

        // The other side of the other side is this one.
        ensures twice { inverse_setup result ≡ self.now }
    {
        match self {
            Setup::ActPass => Setup::ActPass,
            Setup::Active => Setup::Passive,
            Setup::Passive => Setup::Active,
        }
    }

    /// The role that this side takes, where `self` is what it offers and `remote` what the other
    /// side offers; `None` where both offer the same (RFC 4145, section 4.1).
    ///
    /// A side that offers both takes the inverse of what the other offers; one that offers a single
    /// role keeps it.
    pub fn compare_to_remote(&self, remote: Setup) -> Option<Setup>
        ensures settled { result ≡ settled_setup self.now remote }

        // The other side settles on the inverse role, and on none where this one does.
        ensures agreed { MatchOption result
            (settled_setup remote self.now ≡ None)
            (λ role. (role ≢ ActPass) × (settled_setup remote self.now ≡ Some (inverse_setup role))) }
    {
        match (*self, remote) {
            (Setup::ActPass, Setup::Active) => Some(Setup::Passive),
            (Setup::ActPass, Setup::Passive) => Some(Setup::Active),
            (Setup::Active, Setup::ActPass | Setup::Passive) => Some(Setup::Active),
            (Setup::Passive, Setup::ActPass | Setup::Active) => Some(Setup::Passive),
            (Setup::ActPass, Setup::ActPass)
            | (Setup::Active, Setup::Active)
            | (Setup::Passive, Setup::Passive) => None,
        }
    }
}

/// The text of `setup_line`.
impl fmt::Display for Setup {
    ghost output = { λ setup. Some (setup_text setup) };

    fn fmt<W: fmt::Write>(&self, f: &mut fmt::Formatter<W>) -> fmt::Result {
        f.write_str(self.word())
    }
}

impl Printed for Setup {
    ghost text = { setup_text };

    ghost prints = { λ _. refl };
}
