//! Tables of claimed payload types. A set of types is written by its ranges, as `96-127 80-94 35`; `none` is the empty
//! one. What is asked is asked of every table, and answered where all answer the same.

use crate::answer::Answer;
use crate::row_texts::row_type_of;
use crate::row_words::word_sides;
use str0m_formats::{ClaimMask, Claimed};
use str0m_values::Pt;

/// Claims the types of a range, as `96-127`, or the one type.
fn claim_range<C: Claimed>(answer: &mut Answer, set: &mut C, range: &str) {
    let (first, last) = range.split_once('-').unwrap_or((range, range));
    let (first, last) = (row_type_of(answer, first), row_type_of(answer, last));
    for pt in first.value()..=last.value() {
        let _ = set.claim_once(Pt::from(pt));
    }
}

/// The set of these ranges.
fn claim_set_of<C: Claimed>(answer: &mut Answer, text: &str) -> C {
    let mut set = C::none_claimed();
    if text != "none" {
        for range in text.split(' ') {
            claim_range(answer, &mut set, range);
        }
    }
    set
}

/// The types that stand in a set.
fn show_claim_set<C: Claimed>(answer: &mut Answer, set: &C) {
    let mut separator = "";
    for number in 0_u8..=255 {
        let pt = Pt::from(number);
        if set.is_claimed(pt) {
            answer.push(separator);
            answer.show(&pt);
            separator = ", ";
        }
    }
    answer.push_if(separator.is_empty(), "none");
}

/// What claiming each type in turn answers, and the types that then stand in the set.
fn claims_in<C: Claimed>(answer: &mut Answer, text: &str) {
    let mut set = C::none_claimed();
    for one in text.split(' ') {
        let is_new = set.claim_once(row_type_of(answer, one));
        answer.item(", ");
        answer.push(if is_new { "yes" } else { "no" });
    }
    answer.push(": ");
    show_claim_set(answer, &set);
}

/// `claims TYPE TYPE`: whether each type can be claimed, one after the other, and which types are claimed then.
pub(crate) fn claims(answer: &mut Answer, text: &str) {
    let mut of_table = Answer::new(answer.alloc());
    claims_in::<[bool; 128]>(&mut of_table, text);
    claims_in::<ClaimMask>(answer, text);
    if of_table.is_refused() {
        answer.refuse();
    } else if answer.text() != of_table.text() {
        answer.settle(CLAIMS_DIFFER);
    }
}

/// The answer where two tables of claims answer in two ways.
pub(crate) const CLAIMS_DIFFER: &str = "two tables of claims differ";

fn unclaimed_in<C: Claimed>(answer: &mut Answer, claimed: &str, unlocked: &str) -> Option<Pt> {
    let claimed: C = claim_set_of(answer, claimed);
    let unlocked: C = claim_set_of(answer, unlocked);
    claimed.find_unclaimed(&unlocked)
}

/// `unclaimed SET | SET`: the first type that is in neither set, of which the second has the types of open rows.
pub(crate) fn unclaimed_types(answer: &mut Answer, text: &str) {
    let (claimed, unlocked) = word_sides(answer, text);
    let table = unclaimed_in::<[bool; 128]>(answer, claimed, unlocked);
    let mask = unclaimed_in::<ClaimMask>(answer, claimed, unlocked);
    if mask == table {
        answer.show_or(&mask, "none");
    } else {
        answer.settle(CLAIMS_DIFFER);
    }
}
