// Questions 17 to 24 of a contact, which its lists are asked once all of them were read: over a row's bytes, and over lent lists.
#![tactic(auto)]

ghost use Rattle.std.specs.Prelude.{◌≡◌, cond, ◌&&◌, ◌+◌, ◌*◌, ◌^◌, ◌≤◌, ◌<◌, length, map, take, drop, eqb};
ghost use Rattle.layout.specs.Form.{u32};
ghost use Rattle.layout.specs.Layout.{group};
ghost use Rattle.rows.specs.Checks.{any, distinct, keys_distinct, rising, canonical, none_above};
ghost use Rattle.rows.specs.Rows.{chain, skipped, range};
ghost use Rattle.contact_lists.specs.Lists.{items, Stands};
ghost use Rattle.contact_lists.specs.Places.{places_of};
ghost use Rattle.received.specs.Lent.{pairs};
ghost use Rattle.contact_checks.specs.Asked.{Placed, chains_asked};
ghost use Rattle.contact_checks.specs.Cells.{chain_width, superseded_at, gens, supersededs, one_current, ChainsStand, key_number, key_numbers, ascending};

// How many keys are few.
const FEW: usize = 256;

// What is asked of the chains: 17 and 18.
// Kept: what may not change: chains_in_row and chains_lent promise both answers (chains_asked), 18's also where 17 is a no.
#[derive(Clone, Copy)]
pub struct ChainsAsked {
    pub one_current: bool,
    pub gens_distinct: bool,
}

// Where the chain behind the one at a position starts.
fn after_chain(bytes: &[u8], at: usize, padded: bool) -> usize
    requires { at + chain_width padded (drop at bytes.now) ≤ length bytes.now }
    ensures { result ≡ at + chain_width padded (drop at bytes.now) }
{
    if padded {
        return at + 51;
    }
    if bytes[at + 42] == 1 {
        return at + 51;
    }
    at + 43
}

// 1 for a chain that is not superseded.
fn current_at(bytes: &[u8], at: usize) -> usize
    requires { at + 43 ≤ length bytes.now }
    ensures { (result ≡ cond (superseded_at (drop at bytes.now)) 0 1) × (result ≤ 1) }
{
    // Kept: the new form is no plainer: it counts one chain or none, as the definition says it.
    if bytes[at + 42] == 1 { 0 } else { 1 }
}

// 17: at most one chain is not superseded. Padded chains stand in places of 51 bytes.
fn one_current(bytes: &[u8], first: usize, count: usize, padded: bool) -> bool
    requires { ChainsStand padded count (drop first bytes.now) }
    ensures { result ≡ one_current 0 (supersededs padded count (drop first bytes.now)) }
{
    let mut found: usize = 0;
    let mut p = first;
    for _ in 0..count {
        found += current_at(bytes, p);
        if 1 < found {
            return false;
        }
        p = after_chain(bytes, p, padded);
    }
    true
}

// 18: no two chains have the same gen.
fn gens_distinct(bytes: &[u8], first: usize, count: usize, padded: bool) -> bool
    requires { ChainsStand padded count (drop first bytes.now) }
    ensures { result ≡ distinct eqb (gens padded count (drop first bytes.now)) }
{
    // Kept: fixed memory, no heap: a mark for each value that the byte gen can have.
    let mut seen = [false; 256];
    let mut p = first;
    for _ in 0..count {
        let g = usize::from(bytes[p]);
        if seen[g] {
            return false;
        }
        seen[g] = true;
        p = after_chain(bytes, p, padded);
    }
    true
}

// 17 and 18, of chains of a row.
pub fn chains_in_row(row: &[u8], first: usize, count: usize) -> ChainsAsked
    requires { Stands (group chain) row.now first count }
    ensures { result ≡ chains_asked (items (group chain) count (drop first row.now)) }
{
    ChainsAsked {
        one_current: one_current(row, first, count, false),
        gens_distinct: gens_distinct(row, first, count, false),
    }
}

// 17 and 18, of chains of a lent list, which stand in places of 51 bytes.
pub fn chains_lent(lent: &[u8], count: usize) -> ChainsAsked
    requires { Placed 51 (group chain) lent.now count }
    ensures { result ≡ chains_asked (places_of 51 (group chain) count lent.now) }
{
    ChainsAsked {
        one_current: one_current(lent, 0, count, true),
        gens_distinct: gens_distinct(lent, 0, count, true),
    }
}

// The places of skipped keys that stand from `first` on.
fn keys_at(bytes: &[u8], first: usize, count: usize) -> &[[u8; 46]]
    requires { Stands (group skipped) bytes.now first count }
    ensures { map key_number result.now ≡ key_numbers count (drop first bytes.now) }
{
    let (places, _) = bytes[first..].as_chunks::<46>();
    &places[..count]
}

// gen and idx of a skipped key, as one number.
fn number_at(place: &[u8; 46]) -> u64
    ensures { (result ≡ key_number place.now) × (result < 2 ^ 40) }
{
    u64::from(place[0]) * 4_294_967_296 + fields::be32(place, 2)
}

// Whether each key is above the one before it.
fn keys_rise(keys: &[[u8; 46]]) -> bool
    ensures { result ≡ ascending 0 (map key_number keys.now) }
{
    let mut low: u64 = 0;
    for place in keys {
        let key = number_at(place);
        if key < low {
            return false;
        }
        low = key + 1;
    }
    true
}

// Whether a key stands there. Two keys mostly differ in the last byte of idx, which is compared first.
fn is_key(place: &[u8; 46], key: u64) -> bool
    ensures { result ≡ eqb key (key_number place.now) }
{
    u64::from(place[5]) == key % 256 && key == number_at(place)
}

// Whether a key is among them.
fn comes_again(keys: &[[u8; 46]], key: u64) -> bool
    ensures { result ≡ any (eqb key) (map key_number keys.now) }
{
    keys.iter().any(|place| is_key(place, key))
}

// Whether no key comes again behind itself, from the last on. The filter has those behind, so a key that is new by it is looked for nowhere.
fn keys_differ(keys: &[[u8; 46]], bits: &mut [u64]) -> bool
    ensures { result ≡ distinct eqb (map key_number keys.now) }
{
    for i in (0..keys.len()).rev() {
        let key = number_at(&keys[i]);
        if filter::add(bits, filter::mix(key)) {
            if comes_again(&keys[i + 1..], key) {
                return false;
            }
        }
    }
    true
}

// The same with a filter of at most 512 words.
fn differ_with<const WORDS: usize>(keys: &[[u8; 46]]) -> bool
    requires { WORDS ≤ 512 }
    ensures { result ≡ distinct eqb (map key_number keys.now) }
{
    // Kept: fixed memory, no heap: the filter is a local buffer, of a size that the caller chooses.
    let mut bits = [0u64; WORDS];
    keys_differ(keys, &mut bits)
}

// 19, of skipped keys of a row, or of a lent list, whose places hold a row's bytes. Keys in rising order are seen in one pass.
pub fn skipped_distinct(bytes: &[u8], first: usize, count: usize) -> bool
    requires { Stands (group skipped) bytes.now first count }
    ensures { result ≡ keys_distinct (items (group skipped) count (drop first bytes.now)) }
{
    let keys = keys_at(bytes, first, count);
    if keys_rise(keys) {
        return true;
    }
    // A filter of 512 bytes for few keys, and of 4 KB for many: a larger frame would be touched page by page wherever a contact row is checked.
    if count < FEW {
        return differ_with::<64>(keys);
    }
    differ_with::<512>(keys)
}

// 22, of numbers of a row.
// Kept: the new form is no plainer: this and rising_lent, canonical_in_row and canonical_lent share their questions only; one loop over a closure would say in a contract what each item is, as be32 and the slice say here.
pub fn rising_in_row(row: &[u8], first: usize, count: usize, sent: u32) -> bool
    requires { Stands u32 row.now first count }
    ensures { result ≡ rising 1 sent (items u32 count (drop first row.now)) }
{
    let mut low: u64 = 1;
    for i in 0..count {
        let n = fields::be32(row, first + 4 * i);
        if n < low {
            return false;
        }
        if u64::from(sent) < n {
            return false;
        }
        low = n + 1;
    }
    true
}

// 23 and 24, of ranges of a row: canonical from `from`, and none above high.
pub fn canonical_in_row(row: &[u8], first: usize, count: usize, from: u64, high: u32) -> bool
    requires { Stands (group range) row.now first count × (from ≤ 2 ^ 33) }
    ensures { result ≡ canonical from (items (group range) count (drop first row.now)) && none_above high (items (group range) count (drop first row.now)) }
{
    let mut low = from;
    for i in 0..count {
        let p = first + 8 * i;
        let a = fields::be32(row, p);
        let b = fields::be32(row, p + 4);
        if b < a {
            return false;
        }
        if a < low {
            return false;
        }
        if u64::from(high) < b {
            return false;
        }
        low = b + 2;
    }
    true
}

// Kept: no heap: lists are lent, longer than their count, so a count stands beside each (also at chains_lent and canonical_lent).
// 22, of the first numbers of a list.
pub fn rising_lent(list: &[u32], count: usize, sent: u32) -> bool
    requires { count ≤ length list.now }
    ensures { result ≡ rising 1 sent (take count list.now) }
{
    let mut low: u64 = 1;
    for n in &list[..count] {
        let n = u64::from(*n);
        if n < low {
            return false;
        }
        if u64::from(sent) < n {
            return false;
        }
        low = n + 1;
    }
    true
}

// 23 and 24, of the first ranges of a flat list: canonical from `from`, and none above high.
pub fn canonical_lent(list: &[u32], count: usize, from: u64, high: u32) -> bool
    requires { (2 * count ≤ length list.now) × (from ≤ 2 ^ 33) }
    ensures { result ≡ canonical from (pairs count list.now) && none_above high (pairs count list.now) }
{
    let mut low = from;
    for i in 0..count {
        let a = u64::from(list[2 * i]);
        let b = u64::from(list[2 * i + 1]);
        if b < a {
            return false;
        }
        if a < low {
            return false;
        }
        if u64::from(high) < b {
            return false;
        }
        low = b + 2;
    }
    true
}
