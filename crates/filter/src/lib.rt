// A filter of numbers in a lent list of words, so that what is looked for among many is mostly known to be new without a search.
#![tactic(auto)]

ghost use Rattle.std.specs.Prelude.{◌≡◌};
ghost use Rattle.filter.specs.Filter.{mixed, bit_of, mask_of, is_set, added};

// One more than the highest number of 32 bits.
// Kept: no place of point 1: 2^32 parts a number into its halves, and numbers no kind.
const HALF: u64 = 4294967296;

// A number whose bits hang on all bits of n: numbers that lie close together are apart in a filter.
pub fn mix(n: u64) -> u64
    ensures { result ≡ mixed n }
{
    let sum = std::num::wrapping_add_u64((n % HALF) * 2654435769, (n / HALF) * 668265263);
    sum ^ (sum / HALF)
}

fn bit_of(h: u64) -> u64
    ensures { result ≡ bit_of h }
{
    1 << (h % 64)
}

// A number's bits in its word.
fn mask_of(h: u64) -> u64
    ensures { result ≡ mask_of h }
{
    bit_of(h) | bit_of(h / 64) | bit_of(h / 4096) | bit_of(h / HALF)
}

// Whether a number may have been added; it is from now on. Of a filter without words nothing is known.
pub fn add(bits: &mut [u64], h: u64) -> bool
    ensures { (result ≡ is_set bits.old h) × (bits.new ≡ added bits.old h) }
{
    let n = bits.len();
    if n == 0 {
        return true;
    }
    // Kept: the new form is no plainer: std has no From from u64 to usize, and try_from has an error that never comes: the quotient is below 2^46.
    let at = (h / 262144) as usize & (n - 1);
    let old = bits[at];
    let new = old | mask_of(h);
    bits[at] = new;
    new == old
}
