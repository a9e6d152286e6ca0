// The functions on contact rows that Rust and C call, under their C names. A slice passes as its pointer and its length.
// Neither requires anything of its caller. A granted call answers 0, a refused one the question's number; what a refused call was lent stays as it was.
#![tactic(auto)]

ghost use Rattle.std.specs.Prelude.{◌≡◌};
ghost use Rattle.contact.specs.Contact.{lists_before, lists_after};
ghost use Rattle.rewrite.specs.Rewrite.{rewrites};
ghost use Rattle.c_contact.specs.Faces.{check_number, leaves, shown};

use contact::ListsMut;

// Whether a contact row is accepted; nothing is copied.
// Kept: the C interface: a number, which is 0 where the row is accepted.
#[unsafe(no_mangle)]
pub extern "C" fn sicklestar_check_contact(version: u32, row: &[u8]) -> u32
    ensures { result ≡ check_number version row.now }
{
    match contact::ask_contact(version, row) {
        Ok(()) => 0,
        Err(refusal) => u32::from(refusal.number()),
    }
}

// Reads a contact row into the lent lists, and writes it again to the front of the output.
// Kept: the C interface: it has the five lists one by one.
#[unsafe(no_mangle)]
pub extern "C" fn sicklestar_contact(
    version: u32,
    row: &[u8],
    chains: &mut [u8],
    skipped: &mut [u8],
    above: &mut [u32],
    unacked: &mut [u32],
    expired: &mut [u32],
    out: &mut [u8],
) -> u32
    ensures { leaves result (lists_after chains skipped above unacked expired) out.new ≡ shown (rewrites version row.now (lists_before chains skipped above unacked expired) out.old) }
{
    let mut lists = ListsMut {
        chains,
        skipped,
        above,
        unacked,
        expired,
    };
    c_card::zero_or(rewrite::rewrite_contact(version, row, &mut lists, out))
}
