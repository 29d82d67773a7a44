//! Profiles and levels of H264.

use crate::answer::Answer;
use crate::lists::listed_word;
use str0m_values::cuts::hex_u32;
use str0m_values::{H264ProfileLevel, NoProfileLevel, lower_level};

/// Answers what the word asks of the text; whether it is one of these words.
pub(crate) fn answers(answer: &mut Answer, asked: &str, text: &str) -> bool {
    match asked {
        "h264" => named_profile(answer, text),
        "h264-fallback" => h264_shown(answer, H264ProfileLevel::FALLBACK),
        "h264-levels-of-high" => levels_of_high_profile(answer),
        "h264-lower" => lower_profile(answer, text),
        _ => return false,
    }
    true
}

/// The profile and level of a profile-level-id, in hexadecimal.
fn named_profile(answer: &mut Answer, text: &str) {
    match hex_u32(text) {
        Some(id) => profile_of_id(answer, id),
        None => answer.push("no number"),
    }
}

fn profile_of_id(answer: &mut Answer, id: u32) {
    match H264ProfileLevel::try_from(id) {
        Ok(found) => h264_shown(answer, found),
        Err(NoProfileLevel) => answer.show(&NoProfileLevel),
    }
}

fn h264_shown(answer: &mut Answer, found: H264ProfileLevel) {
    answer.debug(&found.profile());
    answer.push(", level ");
    answer.debug(&found.level());
    answer.push(", ordinal ");
    answer.show(&found.level().ordinal());
}

/// Each last byte that names a level of the profile High, with its level.
fn levels_of_high_profile(answer: &mut Answer) {
    let mut is_any = false;
    for level_idc in 0..=255 {
        if let Ok(found) = H264ProfileLevel::try_from(0x640000 | level_idc) {
            answer.push_if(is_any, ", ");
            answer.debug(&found.level());
            answer.push(" ");
            answer.show(&level_idc);
            is_any = true;
        }
    }
}

/// The id of the lower of two levels, `OWN OTHER`, each in hexadecimal or `-` for none.
fn lower_profile(answer: &mut Answer, text: &str) {
    let (own, other) = listed_word(text);
    match (profile_id_or_dash(own), profile_id_or_dash(other)) {
        (Some(own), Some(other)) => lower_profile_of(answer, own, other),
        _ => answer.push("no two numbers"),
    }
}

fn lower_profile_of(answer: &mut Answer, own: Option<u32>, other: Option<u32>) {
    match lower_level(own, other) {
        Some(id) => six_profile_digits(answer, id),
        None => answer.push("-"),
    }
}

fn six_profile_digits(answer: &mut Answer, id: u32) {
    let alloc = answer.alloc();
    let digits = answer.kept(format!(in alloc; "{id:06x}"), String::new(alloc));
    answer.push(digits.as_str());
}

fn profile_id_or_dash(text: &str) -> Option<Option<u32>> {
    match hex_u32(text) {
        None if text == "-" => Some(None),
        None => None,
        id => Some(id),
    }
}
