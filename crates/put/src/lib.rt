// Stores into a lent buffer: bytes from a position on, all else as it was. Each function answers the position behind what it stored, where the next one goes on.
// They are the parts of writers, which see to the room once, before their first store: so each `requires` the room for what it stores, and refuses nothing.
#![tactic(auto)]

ghost use Rattle.std.specs.Prelude.{◌≡◌, [], ◌∷◌, ◌+◌, ◌<◌, ◌≤◌, length, take, drop};
ghost use Rattle.layout.specs.Form.{bytes_of};
ghost use Rattle.layout.specs.Veil.{zeros};
ghost use Rattle.put.specs.Put.{Wrote};

// One byte.
// Kept: the new form is no plainer: out and at go through every writer; a struct of both would say in each method's clause from where to where it wrote, as at and the result say.
pub fn put_byte(out: &mut [u8], at: usize, b: u8) -> usize
    requires { at < length out.old }
    ensures { (result ≡ at + 1) × Wrote out.old at (b ∷ []) out.new result }
{
    out[at] = b;
    at + 1
}

// `v` as `k` bytes, the most significant first; of a `v` that is too wide, its last `k` bytes.
pub fn put_be(out: &mut [u8], at: usize, k: usize, v: u64) -> usize
    requires { at + k ≤ length out.old }
    ensures { (result ≡ at + k) × Wrote out.old at (bytes_of k v) out.new result }
{
    // Kept: the new form is no plainer: to_be_bytes gives eight bytes, and here the width is a parameter.
    let mut x = v;
    for i in (0..k).rev() {
        // Kept: the new form is no plainer: what is left over fits a byte, and u8::try_from would ask for an answer that is never given
        out[at + i] = (x % 256) as u8;
        x /= 256;
    }
    at + k
}

// The `n` bytes of `src` from `from` on, which `src` must have.
pub fn put_run(out: &mut [u8], at: usize, src: &[u8], from: usize, n: usize) -> usize
    requires { (at + n ≤ length out.old) × (from + n ≤ length src.now) }
    ensures { (result ≡ at + n) × Wrote out.old at (take n (drop from src.now)) out.new result }
{
    out[at..at + n].copy_from_slice(&src[from..from + n]);
    at + n
}

// `n` zeros.
pub fn put_zeros(out: &mut [u8], at: usize, n: usize) -> usize
    requires { at + n ≤ length out.old }
    ensures { (result ≡ at + n) × Wrote out.old at (zeros n) out.new result }
{
    out[at..at + n].fill(0);
    at + n
}

// An array of bytes, whole.
pub fn put_array<const N: usize>(out: &mut [u8], at: usize, src: &[u8; N]) -> usize
    requires { at + N ≤ length out.old }
    ensures { (result ≡ at + N) × Wrote out.old at src.now out.new result }
{
    // Kept: behind copy_from_slice the compiler keeps each array in memory: a courier row's veil took twice the instructions.
    for (i, byte) in src.iter().enumerate() {
        out[at + i] = *byte;
    }
    at + N
}

// The `N` bytes of `src` from a place, as an array.
pub fn copy_array<const N: usize>(src: &[u8], from: usize) -> [u8; N]
    requires { from + N ≤ length src.now }
    ensures { result ≡ take N (drop from src.now) }
{
    // Kept: no heap: this array is the answer itself
    let mut bytes = [0; N];
    bytes.copy_from_slice(&src[from..from + N]);
    bytes
}
