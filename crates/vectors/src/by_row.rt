// Cases of LEB128, of names, of cards and of rows.

use super::expected::{HIGHEST_32, is_number, is_question};
use card::Card;
use contact::ListsMut;
use layout::Question;

// The kinds of rows that a store has.
#[derive(Clone, Copy, PartialEq, Eq)]
pub enum RowKind {
    Device,
    Queued,
    Courier,
    Contact,
}

// The number in 32 bits, which it fits.
// Kept: the new form is no plainer: `try_from` has a refusal, which no number up to HIGHEST_32 meets.
fn narrow(n: u64) -> u32 {
    (n % 4294967296) as u32
}

// `VALUE TAKEN`.
// Kept: the new form is no plainer: std has no `From` from `usize` to `u64`, and try_from has an error that never comes.
fn is_value(text: &[u8], value: u32, taken: usize) -> bool {
    is_number(ascii::field(text), u64::from(value)) && is_number(ascii::rest(text), taken as u64)
}

// `- NUMBER`.
// Kept: no place of point 1: it compares a stored refusal with ours, and answers none.
fn is_refusal(text: &[u8], refusal: Question) -> bool {
    ascii::is_dash(ascii::field(text)) && is_question(ascii::rest(text), refusal)
}

// `HEX VALUE TAKEN` or `HEX - NUMBER`: LEB128 at the front of the bytes.
pub(super) fn leb128_read(case: &[u8], bytes: &mut [u8]) -> bool {
    let Ok(n) = ascii::bytes(ascii::field(case), bytes) else {
        return false;
    };
    match data::read_leb128(ascii::first(bytes, n)) {
        Ok((value, taken)) => is_value(ascii::rest(case), value, taken),
        Err(refusal) => is_refusal(ascii::rest(case), refusal),
    }
}

// `VALUE HEX`: the value in LEB128.
pub(super) fn leb128_written(case: &[u8], bytes: &mut [u8], again: &mut [u8]) -> bool {
    let Some(value) = ascii::decimal(ascii::field(case), HIGHEST_32) else {
        return false;
    };
    let Ok(n) = ascii::bytes(ascii::rest(case), bytes) else {
        return false;
    };
    let Ok(size) = data::leb128(narrow(value), again) else {
        return false;
    };
    ascii::first(bytes, n) == ascii::first(again, size)
}

// `HEX 1` or `HEX 0`: whether the bytes are UTF-8.
pub(super) fn name(case: &[u8], bytes: &mut [u8]) -> bool {
    let Ok(n) = ascii::bytes(ascii::field(case), bytes) else {
        return false;
    };
    let is = utf8::is_utf8(ascii::first(bytes, n));
    is_number(ascii::rest(case), u64::from(is))
}

// Whether the card is written as this row.
fn writes(card: Card, row: &[u8], again: &mut [u8]) -> bool {
    let Ok(n) = card.encode(again) else {
        return false;
    };
    row == ascii::first(again, n)
}

// `HEX 0`: a card, written again as the same bytes; or `HEX NUMBER`.
pub(super) fn card(case: &[u8], bytes: &mut [u8], again: &mut [u8]) -> bool {
    let Ok(n) = ascii::bytes(ascii::field(case), bytes) else {
        return false;
    };
    let row = ascii::first(bytes, n);
    match Card::decode(row) {
        Ok(card) => is_number(ascii::rest(case), 0) && writes(card, row, again),
        Err(refusal) => is_question(ascii::rest(case), refusal),
    }
}

// Reads a contact row and writes it again, with lists that are long enough for a row of 2,048 bytes.
fn contact_again(version: u32, row: &[u8], again: &mut [u8]) -> Result<usize, Question> {
    // Kept: fixed memory, so the lists are local arrays
    let mut chains = [0u8; 2448];
    let mut skipped = [0u8; 2048];
    let mut above = [0u32; 512];
    let mut unacked = [0u32; 512];
    let mut expired = [0u32; 512];
    let mut lists = ListsMut {
        chains: &mut chains,
        skipped: &mut skipped,
        above: &mut above,
        unacked: &mut unacked,
        expired: &mut expired,
    };
    rewrite::rewrite_contact(version, row, &mut lists, again)
}

// What reads a row of a kind and writes it again.
fn row_again(kind: RowKind, version: u32, row: &[u8], again: &mut [u8]) -> Result<usize, Question> {
    match kind {
        RowKind::Device => rewrite::rewrite_device(version, row, again),
        RowKind::Queued => rewrite::rewrite_queued(version, row, again),
        RowKind::Contact => contact_again(version, row, again),
        RowKind::Courier => rewrite::rewrite_courier(version, row, again),
    }
}

// `VERSION HEX 0`: a row, written again as the same bytes; or `VERSION HEX NUMBER`.
pub(super) fn row(kind: RowKind, case: &[u8], bytes: &mut [u8], again: &mut [u8]) -> bool {
    let Some(version) = ascii::decimal(ascii::field(case), HIGHEST_32) else {
        return false;
    };
    let blob = ascii::rest(case);
    let Ok(n) = ascii::bytes(ascii::field(blob), bytes) else {
        return false;
    };
    let row = ascii::first(bytes, n);
    match row_again(kind, narrow(version), row, again) {
        Ok(size) => is_number(ascii::rest(blob), 0) && row == ascii::first(again, size),
        Err(refusal) => is_question(ascii::rest(blob), refusal),
    }
}
