//! Whether rows are plain. A row may have what no line says, after a bar: `| modes 512, h266`.

use crate::answer::Answer;
use crate::configuration_calls::config_of;
use crate::lists::listed_word;
use crate::row_texts::{row_of, row_type_of};
use str0m_formats::{FormatParams, PayloadParams};
use str0m_values::{H265ProfileTierLevel, H266ProfileTierLevel};

/// Sets one field of a format: `modes MASK`, `distance N`, `profile-id N`, or the fallback of `h265` or `h266`.
fn set_row_field(answer: &mut Answer, format: &mut FormatParams, text: &str) {
    let (name, rest) = listed_word(text);
    match name {
        "h265" => format.h265_profile_tier_level = Some(H265ProfileTierLevel::FALLBACK),
        "h266" => format.h266_profile_tier_level = Some(H266ProfileTierLevel::FALLBACK),
        _ => set_row_number(answer, format, name, rest),
    }
}

fn set_row_number(answer: &mut Answer, format: &mut FormatParams, name: &str, text: &str) {
    match (name, text.parse::<u16>()) {
        ("modes", Ok(mask)) => format.mode_set = Some(mask),
        ("distance", Ok(number)) => format.sprop_max_don_diff = Some(number),
        ("profile-id", Ok(number)) => format.profile_id = Some(u32::from(number)),
        _ => answer.no_such("format"),
    }
}

/// The row made anew, all of its feedback on, with the fields set that are named, parted by `, `.
fn row_with_fields(answer: &mut Answer, row: PayloadParams, fields: &str) -> PayloadParams {
    let mut spec = row.spec();
    for one in fields.split(", ") {
        set_row_field(answer, &mut spec.format, one);
    }
    PayloadParams::new(row.pt(), row.resend(), spec).with_red(row.red())
}

fn rows_shown(answer: &mut Answer, rows: &[PayloadParams]) {
    answer.push_if(rows.is_empty(), "none");
    let mut separator = "";
    for row in rows {
        answer.push(separator);
        answer.push(if row.is_plain() { "true" } else { "false" });
        separator = " + ";
    }
}

/// `plain ROWS`, `plain ROW | FIELDS` or `plain probe TYPE`: of each row whether it is plain.
pub(crate) fn plain(answer: &mut Answer, text: &str) {
    match (text.strip_prefix("probe "), text.split_once(" | ")) {
        (Some(pt), _) => {
            let row = PayloadParams::new_probe(row_type_of(answer, pt));
            rows_shown(answer, &[row]);
        }
        (None, Some((row, fields))) => {
            let row = row_of(answer, row);
            let row = row_with_fields(answer, row, fields);
            rows_shown(answer, &[row]);
        }
        (None, None) => {
            let config = config_of(answer, text);
            rows_shown(answer, config.params());
        }
    }
}
