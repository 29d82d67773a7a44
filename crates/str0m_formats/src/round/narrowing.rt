//! What the row that a row is matched with changes in its format.
ghost use Rattle.std.specs.Prelude.{◌≡◌};
ghost use Rattle.str0m_formats.specs.declared.codec.Codec.TheVariants.{AmrWb, H264, H265, H266, Tele};
ghost use Rattle.str0m_formats.specs.round.Narrowing.{narrowed, narrowed_as, levels_differ, lower_triple, narrowed_profile_id};

use crate::codec::Codec;
use crate::codec::codec_spec::CodecSpec;
use crate::format::format_params::FormatParams;
use str0m_values::{Leveled, Numbered, ProfileTierLevel, lower_level};

/// The triple of the choice, its level the lower of both where the row has one.
fn lower_triple<P: Numbered, T: Numbered, L: Leveled>(
    own: Option<ProfileTierLevel<P, T, L>>,
    chosen: Option<ProfileTierLevel<P, T, L>>,
) -> Option<ProfileTierLevel<P, T, L>>
    ensures { result ≡ lower_triple L.place_of own chosen }
{
    match (own, chosen) {
        (Some(own), Some(chosen)) => {
            if own.level.place() < chosen.level.place() {
                Some(chosen.with_level(own.level))
            } else {
                Some(chosen)
            }
        }
        _ => chosen,
    }
}

/// The profile id, where no triple says it.
fn narrowed_profile_id<Triple: Copy>(triple: Option<Triple>, id: Option<u32>) -> Option<u32>
    ensures { result ≡ narrowed_profile_id triple id }
{
    match triple {
        Some(_) => None,
        None => id,
    }
}

/// A telephone row may send no more events than either side takes.
fn narrow_events(own: &mut CodecSpec, chosen: &CodecSpec)
    ensures { own.new ≡ narrowed_as Tele own.old chosen.now }
{
    let ours = own.format.highest_event();
    let theirs = chosen.format.highest_event();
    own.format.telephone_event_max = Some(ours.min(theirs));
}

/// Whether each side may send at a level of its own.
fn levels_differ(own: &FormatParams, chosen: &FormatParams) -> bool
    ensures { result ≡ levels_differ own.now chosen.now }
{
    own.level_asymmetry_allowed.unwrap_or(false) && chosen.level_asymmetry_allowed.unwrap_or(false)
}

/// Where one level holds for both directions, it is the lower one.
fn narrow_h264(own: &mut CodecSpec, chosen: &CodecSpec)
    ensures { own.new ≡ narrowed_as H264 own.old chosen.now }
{
    if !levels_differ(&own.format, &chosen.format) {
        own.format.profile_level_id = lower_level(
            own.format.profile_level_id,
            chosen.format.profile_level_id,
        );
    }
}

/// The triple of the choice with the lower level, or else its profile id, which would say a part of
/// the triple once more.
fn narrow_h265(own: &mut CodecSpec, chosen: &CodecSpec)
    ensures { own.new ≡ narrowed_as H265 own.old chosen.now }
{
    let theirs = &chosen.format;
    own.format.profile_id = narrowed_profile_id(theirs.h265_profile_tier_level, theirs.profile_id);
    own.format.h265_profile_tier_level = lower_triple(
        own.format.h265_profile_tier_level,
        theirs.h265_profile_tier_level,
    );
    own.format.sprop_max_don_diff = theirs.sprop_max_don_diff.or(own.format.sprop_max_don_diff);
}

/// Likewise of H266.
fn narrow_h266(own: &mut CodecSpec, chosen: &CodecSpec)
    ensures { own.new ≡ narrowed_as H266 own.old chosen.now }
{
    let theirs = &chosen.format;
    own.format.profile_id = narrowed_profile_id(theirs.h266_profile_tier_level, theirs.profile_id);
    own.format.h266_profile_tier_level = lower_triple(
        own.format.h266_profile_tier_level,
        theirs.h266_profile_tier_level,
    );
    own.format.sprop_max_don_diff = theirs.sprop_max_don_diff.or(own.format.sprop_max_don_diff);
}

/// An AMR-WB row is aligned as the choice is, and keeps its own modes where it names some.
fn narrow_amr_wb(own: &mut CodecSpec, chosen: &CodecSpec)
    ensures { own.new ≡ narrowed_as AmrWb own.old chosen.now }
{
    own.format.octet_align = chosen.format.octet_align;
    own.format.mode_set = own.format.mode_set.or(chosen.format.mode_set);
    own.channels = chosen.channels;
}

/// Narrows the spec of a row that is matched with a row of the spec `chosen`.
#[tactic(auto, unfolding(crate::specs::round::Narrowing::narrowed))]
pub(crate) fn narrow(own: &mut CodecSpec, chosen: &CodecSpec)
    ensures { own.new ≡ narrowed own.old chosen.now }
{
    match own.codec {
        Codec::Tele => narrow_events(own, chosen),
        Codec::H264 => narrow_h264(own, chosen),
        Codec::H265 => narrow_h265(own, chosen),
        Codec::H266 => narrow_h266(own, chosen),
        Codec::AmrWb => narrow_amr_wb(own, chosen),
        _ => {}
    }
}
