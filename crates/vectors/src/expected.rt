// Whether a part of a case is what was computed: a number, a refusal, bytes.

use layout::Question;

// The highest number of 32 bits.
pub const HIGHEST_32: u64 = 0xffff_ffff;

pub(super) fn is_number(text: &[u8], n: u64) -> bool {
    ascii::decimal(text, HIGHEST_32) == Some(n)
}

// The number of the question that refuses.
pub(super) fn is_question(text: &[u8], refusal: Question) -> bool {
    is_number(text, u64::from(refusal.number()))
}

// Whether the field is these bytes.
pub(super) fn is_bytes(text: &[u8], expected: &[u8], bytes: &mut [u8]) -> bool {
    let Ok(n) = ascii::bytes(text, bytes) else {
        return false;
    };
    expected == ascii::first(bytes, n)
}
