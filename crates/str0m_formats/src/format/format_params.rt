//! Formats: the parameters of a codec, each in a field.
ghost use Rattle.std.specs.Prelude.{◌≡◌, ◌++◌, false, IfOk, Some};
ghost use Rattle.str0m_formats.specs.declared.format.format_params.Field.TheVariants as field;
ghost use Rattle.str0m_formats.specs.format.FormatParam.{is_flag, kind, param_text, param_part_if};
ghost use Rattle.str0m_formats.specs.format.FormatParams.{set_all, empty, set, param_at, params_of, params_text};

use crate::format::format_key::FormatKey;
use crate::format::format_param::FormatParam;
use std::alloc::{AllocError, Global};
use std::fmt;
use str0m_values::{H265ProfileTierLevel, H266ProfileTierLevel};

/// A field of a format: that of a key, or one that has no key of its own.
#[derive(Clone, Copy)]
enum Field {
    Key(FormatKey),
    H265ProfileTierLevel,
    H266ProfileTierLevel,
    TelephoneEvents,
}

/// The fields, in the order in which they stand and print.
const FIELDS: [Field; 18] = [
    Field::Key(FormatKey::MinPTime),
    Field::Key(FormatKey::Stereo),
    Field::Key(FormatKey::SpropStereo),
    Field::Key(FormatKey::UseInbandFec),
    Field::Key(FormatKey::UseDtx),
    Field::Key(FormatKey::LevelAsymmetryAllowed),
    Field::Key(FormatKey::PacketizationMode),
    Field::Key(FormatKey::ProfileLevelId),
    Field::Key(FormatKey::ProfileId),
    Field::Key(FormatKey::Profile),
    Field::Key(FormatKey::LevelIdx),
    Field::Key(FormatKey::Tier),
    Field::H265ProfileTierLevel,
    Field::H266ProfileTierLevel,
    Field::Key(FormatKey::SpropMaxDonDiff),
    Field::TelephoneEvents,
    Field::Key(FormatKey::OctetAlign),
    Field::Key(FormatKey::ModeSet),
];

/// What a format says of a codec. What it doesn't say is `None`.
#[derive(Clone, Copy, Debug, PartialEq, Eq)]
pub struct FormatParams {
    /// The least packet time in milliseconds (an early draft of RFC 7587).
    pub min_p_time: Option<u8>,
    /// Whether the receiver prefers stereo (RFC 7587, section 6.1).
    pub stereo: Option<bool>,
    /// Whether the sender is likely to send stereo (RFC 7587, section 6.1).
    pub sprop_stereo: Option<bool>,
    /// Whether the decoder can use in-band FEC (RFC 7587, section 6.1).
    pub use_inband_fec: Option<bool>,
    /// Whether silence may be left out (RFC 7587, section 6.1).
    pub use_dtx: Option<bool>,
    /// Whether the levels of the two directions may differ (RFC 6184, section 8.1).
    pub level_asymmetry_allowed: Option<bool>,
    /// How H264 is put into packets (RFC 6184, section 8.1).
    pub packetization_mode: Option<u8>,
    /// The profile and level of H264 (RFC 6184, section 8.1).
    pub profile_level_id: Option<u32>,
    /// The profile of VP9, H265 or H266.
    pub profile_id: Option<u32>,
    /// The profile of AV1.
    pub profile: Option<u8>,
    /// The level of AV1.
    pub level_idx: Option<u8>,
    /// The tier of AV1.
    pub tier: Option<u8>,
    /// The profile, tier and level of H265 (RFC 7798, section 7.1).
    pub h265_profile_tier_level: Option<H265ProfileTierLevel>,
    /// The profile, tier and level of H266 (RFC 9328, section 7.2).
    pub h266_profile_tier_level: Option<H266ProfileTierLevel>,
    /// How far NAL units may be out of decoding order (RFC 7798, section 7.1).
    pub sprop_max_don_diff: Option<u16>,
    /// The highest telephone event, from 0 on (RFC 4733, section 2.4).
    pub telephone_event_max: Option<u8>,
    /// Whether AMR-WB is aligned to bytes (RFC 4867, section 8.2).
    pub octet_align: Option<bool>,
    /// The modes of AMR-WB, bit N for mode N (RFC 4867, section 8.2).
    pub mode_set: Option<u16>,
}

impl Default for FormatParams {
    ghost is_default = { λ params. params ≡ empty };

    /// The format that says nothing.
    fn default() -> FormatParams {
        FormatParams {
            min_p_time: None,
            stereo: None,
            sprop_stereo: None,
            use_inband_fec: None,
            use_dtx: None,
            level_asymmetry_allowed: None,
            packetization_mode: None,
            profile_level_id: None,
            profile_id: None,
            profile: None,
            level_idx: None,
            tier: None,
            h265_profile_tier_level: None,
            h266_profile_tier_level: None,
            sprop_max_don_diff: None,
            telephone_event_max: None,
            octet_align: None,
            mode_set: None,
        }
    }
}

impl FormatParams {
    /// Takes over the value of a parameter: the field of its kind alone changes. What has no field,
    /// which is a bare range or list, an `apt`, a RED, what isn't supported and what isn't known,
    /// changes nothing.
    pub fn set_param(&mut self, param: &FormatParam)
        ensures { self.new ≡ set param.now self.old }
    {
        match *param {
            FormatParam::MinPTime(n) => self.min_p_time = Some(n),
            FormatParam::Stereo(b) => self.stereo = Some(b),
            FormatParam::SpropStereo(b) => self.sprop_stereo = Some(b),
            FormatParam::UseInbandFec(b) => self.use_inband_fec = Some(b),
            FormatParam::UseDtx(b) => self.use_dtx = Some(b),
            FormatParam::LevelAsymmetryAllowed(b) => self.level_asymmetry_allowed = Some(b),
            FormatParam::PacketizationMode(n) => self.packetization_mode = Some(n),
            FormatParam::ProfileLevelId(n) => self.profile_level_id = Some(n),
            FormatParam::ProfileId(n) => self.profile_id = Some(n),
            FormatParam::Profile(n) => self.profile = Some(n),
            FormatParam::LevelIdx(n) => self.level_idx = Some(n),
            FormatParam::Tier(n) => self.tier = Some(n),
            FormatParam::H265ProfileTierLevel(t) => self.h265_profile_tier_level = Some(t),
            FormatParam::H266ProfileTierLevel(t) => self.h266_profile_tier_level = Some(t),
            FormatParam::SpropMaxDonDiff(n) => self.sprop_max_don_diff = Some(n),
            FormatParam::TelephoneEvents(n) => self.telephone_event_max = Some(n),
            FormatParam::OctetAlign(b) => self.octet_align = Some(b),
            FormatParam::ModeSet(n) => self.mode_set = Some(n),
            _ => {}
        }
    }

    /// The parameter of the field of a key, where it is given.
    #[inline]
    fn keyed(self, key: FormatKey) -> Option<FormatParam>
        ensures { result ≡ param_at (field.Key key) self }
    {
        match key {
            FormatKey::Stereo => self.stereo.map(FormatParam::Stereo),
            FormatKey::SpropStereo => self.sprop_stereo.map(FormatParam::SpropStereo),
            FormatKey::UseInbandFec => self.use_inband_fec.map(FormatParam::UseInbandFec),
            FormatKey::UseDtx => self.use_dtx.map(FormatParam::UseDtx),
            FormatKey::LevelAsymmetryAllowed => self
                .level_asymmetry_allowed
                .map(FormatParam::LevelAsymmetryAllowed),
            FormatKey::OctetAlign => self.octet_align.map(FormatParam::OctetAlign),
            _ => self.keyed_but_flag(key),
        }
    }

    /// The parameter of the field of a key that takes no flag, where it is given.
    #[inline]
    fn keyed_but_flag(self, key: FormatKey) -> Option<FormatParam>
        requires { is_flag (kind key) ≡ false }
        ensures { result ≡ param_at (field.Key key) self }
    {
        match key {
            FormatKey::MinPTime => self.min_p_time.map(FormatParam::MinPTime),
            FormatKey::PacketizationMode => self
                .packetization_mode
                .map(FormatParam::PacketizationMode),
            FormatKey::ProfileLevelId => self.profile_level_id.map(FormatParam::ProfileLevelId),
            FormatKey::ProfileId => self.profile_id.map(FormatParam::ProfileId),
            FormatKey::Profile => self.profile.map(FormatParam::Profile),
            FormatKey::LevelIdx => self.level_idx.map(FormatParam::LevelIdx),
            FormatKey::Tier => self.tier.map(FormatParam::Tier),
            FormatKey::SpropMaxDonDiff => self.sprop_max_don_diff.map(FormatParam::SpropMaxDonDiff),
            FormatKey::ModeSet => self.mode_set.map(FormatParam::ModeSet),
            _ => None,
        }
    }

    /// The parameter of a field, where it is given.
    fn param(self, field: Field) -> Option<FormatParam>
        ensures { result ≡ param_at field self }
    {
        match field {
            Field::Key(key) => self.keyed(key),
            Field::H265ProfileTierLevel => Some(FormatParam::H265ProfileTierLevel(
                self.h265_profile_tier_level?,
            )),
            Field::H266ProfileTierLevel => Some(FormatParam::H266ProfileTierLevel(
                self.h266_profile_tier_level?,
            )),
            Field::TelephoneEvents => Some(FormatParam::TelephoneEvents(self.telephone_event_max?)),
        }
    }

    fn given(self, alloc: Global) -> Result<Vec<FormatParam>, AllocError>
        ensures { IfOk result (λ params. params.items ≡ params_of self) }
    {
        let mut params = Vec::new(alloc);
        for field in FIELDS.iter() {
            if let Some(param) = self.param(*field) {
                params.push(param)?;
            }
        }
        Ok(params)
    }

    /// The parameters of the fields that are given, in the order in which they print. The only
    /// error is that memory was refused.
    #[tactic(auto, using(crate::proofs::format::FormatParamsSet::set_again))]
    pub fn to_format_param(self, alloc: Global) -> Result<Vec<FormatParam>, AllocError>
        ensures items { IfOk result (λ params. params.items ≡ params_of self) }

        // Set one after another, they give the format back.
        ensures again { IfOk result (λ params. set_all empty params.items ≡ self) }
    {
        self.given(alloc)
    }
}

/// A parameter in a list, with the semicolon that parts it from the one before.
#[derive(Clone, Copy)]
struct ListedParam {
    started: bool,
    param: FormatParam,
}

impl fmt::Display for ListedParam {
    ghost output = { λ item. Some (param_part_if 59 item.started ++ param_text item.param) };

    fn fmt<W: fmt::Write>(&self, f: &mut fmt::Formatter<W>) -> fmt::Result {
        let param = self.param;
        if self.started {
            write!(f, ";{param}")
        } else {
            write!(f, "{param}")
        }
    }
}

impl fmt::Display for FormatParams {
    ghost output = { λ params. Some (params_text params) };

    fn fmt<W: fmt::Write>(&self, f: &mut fmt::Formatter<W>) -> fmt::Result {
        let mut started = false;
        for field in FIELDS.iter() {
            if let Some(param) = self.param(*field) {
                let item = ListedParam { started, param };
                write!(f, "{item}")?;
                started = true;
            }
        }
        Ok(())
    }
}
