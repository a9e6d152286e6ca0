// Whether a name is UTF-8 by RFC 3629, character by character, by a table of first bytes.
#![tactic(auto)]

ghost use Rattle.std.specs.Prelude.{◌≡◌, ◌<◌, length, get_or};
ghost use Rattle.rows.specs.Utf8.{limits, is_in, following, utf8};
ghost use Rattle.utf8.specs.Lead.{leads, lead_of, Character};

use leads::LEADS;

mod leads;

// What a first byte calls for: how many bytes the character has, 0 where none starts so, and the limits of the second one, 0 where there is none.
// The bytes behind that are tails, 80..BF.
#[derive(Clone, Copy)]
pub struct Lead {
    pub len: u8,
    pub lo: u8,
    pub hi: u8,
}

// The table is lent: code that names a constant writes it out anew in each call.
fn lead_in(table: &[u16; 256], b: u8) -> Lead
    requires { table.now ≡ leads }
    ensures { result ≡ lead_of (following b) }
{
    let entry = table[usize::from(b)];
    // Kept: the new form is no plainer: an entry is made of bytes, and u8::try_from would ask for an answer that is never given
    Lead {
        len: (entry / 0x1000) as u8,
        lo: (entry / 0x100 % 0x10 * 0x10) as u8,
        hi: (entry % 0x100) as u8,
    }
}

// The table's entry, of any byte.
pub fn lead_of(b: u8) -> Lead
    ensures { result ≡ lead_of (following b) }
{
    lead_in(&LEADS, b)
}

fn is_in(b: u8, lo: u8, hi: u8) -> bool
    ensures { result ≡ is_in (limits lo hi) b }
{
    lo <= b && b <= hi
}

// How far to step from a position, by the entry of the byte there: behind its character; 0 where the name is no UTF-8 from there on.
fn character(name: &[u8], at: usize, lead: Lead) -> usize
    requires { (at < length name.now) × (lead ≡ lead_of (following (get_or name.now at 0))) }
    ensures { Character name.now at result }
{
    let len = usize::from(lead.len);
    if len < 2 {
        return len;
    }
    if name.len() - at < len {
        return 0;
    }
    if is_in(name[at + 1], lead.lo, lead.hi) {
        if len == 2 {
            return 2;
        }
        if is_in(name[at + 2], 0x80, 0xBF) {
            if len == 3 {
                return 3;
            }
            if is_in(name[at + 3], 0x80, 0xBF) {
                return 4;
            }
        }
    }
    0
}

// Whether the bytes are a run of whole characters; the empty run is one.
pub fn is_utf8(name: &[u8]) -> bool
    ensures { result ≡ utf8 name.now }
{
    let mut i: usize = 0;
    // Kept: the new form is no plainer: a turn goes on by as many bytes as the character has that stands there, which neither `for` nor an iterator of bytes counts
    while i < name.len() {
        let lead = lead_in(&LEADS, name[i]);
        if lead.len == 1 {
            // by 1, and not by lead.len: the next byte would have to wait for the table
            i += 1;
        } else {
            let n = character(name, i, lead);
            if n == 0 {
                return false;
            }
            i += n;
        }
    }
    true
}
