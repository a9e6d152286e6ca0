// Veil for Rust and C, under its C name. A slice passes as its pointer and its length.
#![tactic(auto)]

ghost use Rattle.std.specs.Prelude.{◌≡◌};
ghost use Rattle.c_card.specs.Faces.{leaves, shown, zero_or};
ghost use Rattle.veil.specs.Veil.{veil_of};

// Copies a row of this kind to the front of the output, with 0 for its veiled bytes: 0, or the question's number; then the output stays as it was.
#[unsafe(no_mangle)]
pub extern "C" fn sicklestar_veil(kind: u32, version: u32, row: &[u8], out: &mut [u8]) -> u32
    ensures { leaves result out.new ≡ shown zero_or (veil_of kind version row.now out.old) }
{
    c_card::zero_or(veil::veil(kind, version, row, out))
}
