//! Profiles, tiers and levels: their order, made of their parts, and asked alone.

use str0m_values::{
    H264Level, H265Level, H265Profile, H265ProfileTierLevel, H265Tier, H266Level, H266Profile,
    H266ProfileTierLevel, H266Tier,
};

fn are_levels_in_order() -> bool {
    H264Level::L1B < H264Level::L1_1
        && H265Level::L5_2 < H265Level::L6
        && H266Level::L6_2 < H266Level::L6_3
}

/// Main10 and the tier High have the ids 2 and 1, and levels thirty times theirs (RFC 7798, section 7.1).
fn is_h265_profile_made_of_parts() -> bool {
    let triple = H265ProfileTierLevel {
        profile: H265Profile::Main10,
        tier: H265Tier::High,
        level: H265Level::L6_2,
    };
    let lower = triple.with_level(H265Level::L3_1);
    H265ProfileTierLevel::new(2, 1, 186) == Some(triple)
        && H265ProfileTierLevel::new(2, 1, 93) == Some(lower)
}

/// Main10_444StillPicture and the tier High have the ids 97 and 1 (RFC 9328, section 7.2).
fn is_h266_profile_made_of_parts() -> bool {
    let triple = H266ProfileTierLevel {
        profile: H266Profile::Main10_444StillPicture,
        tier: H266Tier::High,
        level: H266Level::L6_3,
    };
    let lower = triple.with_level(H266Level::L3_1);
    H266ProfileTierLevel::new(97, 1, 105) == Some(triple)
        && H266ProfileTierLevel::new(97, 1, 51) == Some(lower)
}

/// Main10, High and level 6.2 of H265 (RFC 7798, section 7.1), and of H266 (RFC 9328, section 7.2), each asked alone.
#[test]
fn triples_are_made_of_parts_that_have_numbers(rt: HostRuntime) {
    assert!(rt; are_levels_in_order());
    assert!(rt; is_h265_profile_made_of_parts());
    assert!(rt; is_h266_profile_made_of_parts());
    let h265 = (H265Profile::Main10.to_id(), H265Tier::High.to_id());
    assert_eq!(rt; h265, (2, 1));
    let level = H265Level::L6_2;
    assert_eq!(rt; (level.to_id(), level.ordinal()), (186, 12));
    let h266 = (H266Profile::Main10.to_id(), H266Tier::High.to_id());
    assert_eq!(rt; h266, (1, 1));
    let level = H266Level::L6_2;
    assert_eq!(rt; (level.to_id(), level.ordinal()), (102, 12));
}
