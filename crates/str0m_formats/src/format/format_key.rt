//! The keys of format parameters, and their texts.
ghost use Rattle.std.specs.Prelude.{◌≡◌, IfSome, length};
ghost use Rattle.str0m_formats.specs.format.FormatKey.{key_text};
ghost use Rattle.str0m_formats.specs.format.FormatParamReading.{key_read};

use str0m_values::cuts::is_same_text;

/// A key of a format parameter, first those that stand in most lines.
#[derive(Clone, Copy)]
pub(crate) enum FormatKey {
    Apt,
    ProfileLevelId,
    PacketizationMode,
    LevelAsymmetryAllowed,
    ProfileId,
    MinPTime,
    UseInbandFec,
    Stereo,
    SpropStereo,
    UseDtx,
    LevelIdx,
    Tier,
    Profile,
    SpropMaxDonDiff,
    OctetAlign,
    ModeSet,
    Crc,
    RobustSorting,
    ModeChangePeriod,
    Interleaving,
}

/// The key of a profile, which stands for itself, and as one of the three of H265 and H266.
pub(crate) const PROFILE_ID: &str = "profile-id";

/// The key of a tier, of H265 and H266 alone.
pub(crate) const TIER_FLAG: &str = "tier-flag";

/// The key of a level, of H265 and H266 alone.
pub(crate) const LEVEL_ID: &str = "level-id";

/// The text of each key, in the order of `FormatKey`.
const KEYS: [(FormatKey, &str); 20] = [
    (FormatKey::Apt, "apt"),
    (FormatKey::ProfileLevelId, "profile-level-id"),
    (FormatKey::PacketizationMode, "packetization-mode"),
    (FormatKey::LevelAsymmetryAllowed, "level-asymmetry-allowed"),
    (FormatKey::ProfileId, PROFILE_ID),
    (FormatKey::MinPTime, "minptime"),
    (FormatKey::UseInbandFec, "useinbandfec"),
    (FormatKey::Stereo, "stereo"),
    (FormatKey::SpropStereo, "sprop-stereo"),
    (FormatKey::UseDtx, "usedtx"),
    (FormatKey::LevelIdx, "level-idx"),
    (FormatKey::Tier, "tier"),
    (FormatKey::Profile, "profile"),
    (FormatKey::SpropMaxDonDiff, "sprop-max-don-diff"),
    (FormatKey::OctetAlign, "octet-align"),
    (FormatKey::ModeSet, "mode-set"),
    (FormatKey::Crc, "crc"),
    (FormatKey::RobustSorting, "robust-sorting"),
    (FormatKey::ModeChangePeriod, "mode-change-period"),
    (FormatKey::Interleaving, "interleaving"),
];

impl FormatKey {
    /// The text of the key.
    #[tactic(auto, unfolding(crate::specs::format::FormatKey::key_text))]
    pub(crate) fn text(self) -> &'static str
        ensures { result.now ≡ key_text self }
    {
        KEYS[self as usize].1
    }

    /// A key whose text has so many bytes: of several the one that ends in this letter, by which they are told apart.
    #[tactic(auto, unfolding(crate::specs::format::FormatKey::key_text))]
    fn as_long(len: usize, last: u8) -> Option<FormatKey>
        ensures { IfSome result (λ key. length (key_text key) ≡ len) }
    {
        match (len, last) {
            (3, b't') => Some(FormatKey::Apt),
            (3, _) => Some(FormatKey::Crc),
            (4, _) => Some(FormatKey::Tier),
            (6, b'o') => Some(FormatKey::Stereo),
            (6, _) => Some(FormatKey::UseDtx),
            (7, _) => Some(FormatKey::Profile),
            (8, b'e') => Some(FormatKey::MinPTime),
            (8, _) => Some(FormatKey::ModeSet),
            (9, _) => Some(FormatKey::LevelIdx),
            (10, _) => Some(FormatKey::ProfileId),
            (11, _) => Some(FormatKey::OctetAlign),
            (12, b'c') => Some(FormatKey::UseInbandFec),
            (12, b'o') => Some(FormatKey::SpropStereo),
            (12, _) => Some(FormatKey::Interleaving),
            (14, _) => Some(FormatKey::RobustSorting),
            (16, _) => Some(FormatKey::ProfileLevelId),
            (18, b'e') => Some(FormatKey::PacketizationMode),
            (18, b'f') => Some(FormatKey::SpropMaxDonDiff),
            (18, _) => Some(FormatKey::ModeChangePeriod),
            (23, _) => Some(FormatKey::LevelAsymmetryAllowed),
            _ => None,
        }
    }

    /// The key of this very text.
    fn written(text: &str) -> Option<FormatKey>
        ensures { IfSome result (λ key. text.now ≡ key_text key) }
    {
        let key = FormatKey::as_long(text.len(), *text.as_bytes().last()?)?;
        if text == key.text() { Some(key) } else { None }
    }

    /// The key of this text, without regard to ASCII case.
    pub(crate) fn named(text: &str) -> Option<FormatKey>
        ensures { result ≡ key_read text.now }
    {
        // Nearly all keys stand in their own case, and then one comparison is enough.
        match FormatKey::written(text) {
            Some(key) => Some(key),
            None => FormatKey::same(text),
        }
    }

    #[tactic(auto, unfolding(crate::specs::format::FormatParamReading::key_read))]
    fn same(text: &str) -> Option<FormatKey>
        ensures { result ≡ key_read text.now }
    {
        KEYS.iter()
            .map(|row| row.0)
            .find(|key| is_same_text(text, key.text()))
    }
}
