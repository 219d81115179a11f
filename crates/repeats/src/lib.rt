// Document 01, "no number stands twice", in a register and in a sheet: whether one of some numbers, each behind its length byte, repeats one before it.
// A number is compared, byte for byte, with those alone that have its hash: equal numbers have equal hashes.
// (Casts here are bounded, which the check proves: `try_from` would add a refusal that cannot come, no plainer.)
#![tactic(auto)]

ghost use Rattle.std.specs.Prelude.{◌≡◌, ◌+◌, ◌<◌, ◌≤◌, length};
ghost use Rattle.ground.specs.Lists.{anyb, distinct, eq_list};
ghost use Rattle.repeats.specs.Inner.{number_here, next_place, entry_of, first_entries, is_repeat, EntriesInside, hashes, hash_of, LeadsBack, LastHas, Hashed};

use ground::same;

// "length, the number" in a slot, "a length byte and the number" in a sheet.
pub const LENGTH_BYTES: usize = 1;

// So many numbers at most.
pub const MOST_ENTRIES: usize = 4096;

// So many hashes: a prime.
pub const HASHES: usize = 4093;

// A hash reads the bytes as digits to this base, and keeps as much as has room in four bytes.
const HASH_BASE: usize = 263;

const HASH_ROOM: usize = 0x1_0000_0000;

// The number at a place, as the stretch that holds it.
pub fn number_here(s: &[u8], at: usize) -> &[u8]
    requires { next_place s.now at ≤ length s.now }
    ensures { result.now ≡ number_here s.now at }
{
    let start = at + LENGTH_BYTES;
    let end = start + usize::from(s[at]);
    &s[start..end]
}

// A number's hash.
#[tactic(auto, using(crate::proofs::Repeats::hash_on, crate::proofs::Repeats::hash_end), unfolding(crate::specs::Inner::hash_of))]
fn hash(num: &[u8]) -> usize
    ensures value { result ≡ hash_of num.now }
    ensures bounded { result < hashes }
{
    let mut h = 0;
    for b in num {
        h = (h * HASH_BASE + usize::from(*b)) % HASH_ROOM;
    }
    h % HASHES
}

// Whether a number is one of the first e, the last of which has its hash: each that has it is compared, back to the first.
fn is_among(
    s: &[u8],
    at: &[u32; MOST_ENTRIES],
    earlier: &[u16; MOST_ENTRIES],
    num: &[u8],
    e: usize,
) -> bool
    requires inside { EntriesInside s.now at.now e }
    requires leads { LeadsBack (entry_of s.now at.now) earlier.now e }
    requires last { LastHas (entry_of s.now at.now) (hash_of num.now) e }
    ensures { result ≡ anyb (eq_list num.now) (first_entries (entry_of s.now at.now) e) }
{
    let mut k = e;
    while 0 < k {
        let j = k - 1;
        if same(num, number_here(s, at[j] as usize)) {
            return true;
        }
        k = usize::from(earlier[j]);
    }
    false
}

// Whether the number at the k-th offset, counted from 0, is one of the k before it. It is entered behind them.
// (Both tables are lent as they are: a struct of two fixed arrays, made by two functions and asked by this one, is no plainer.)
pub fn repeats_earlier(
    s: &[u8],
    at: &[u32; MOST_ENTRIES],
    k: usize,
    lasts: &mut [u16; HASHES],
    earlier: &mut [u16; MOST_ENTRIES],
) -> bool
    requires fact_1 { EntriesInside s.now at.now (k + 1) }
    requires fact_2 { Hashed (entry_of s.now at.now) lasts.old earlier.old k }
    ensures fact_1 { result ≡ is_repeat (entry_of s.now at.now) k }
    ensures fact_2 { Hashed (entry_of s.now at.now) lasts.new earlier.new (k + 1) }
{
    let num = number_here(s, at[k] as usize);
    let h = hash(num);
    let last = lasts[h];
    let again = is_among(s, at, earlier, num, usize::from(last));
    earlier[k] = last;
    lasts[h] = (k + 1) as u16;
    again
}

// Whether none of the m numbers at some offsets stands twice.
pub fn none_repeats(s: &[u8], at: &[u32; MOST_ENTRIES], m: usize) -> bool
    requires { EntriesInside s.now at.now m }
    ensures { result ≡ distinct eq_list (first_entries (entry_of s.now at.now) m) }
{
    let mut lasts = [0; HASHES];
    let mut earlier = [0; MOST_ENTRIES];
    for k in 0..m {
        if repeats_earlier(s, at, k, &mut lasts, &mut earlier) {
            return false;
        }
    }
    true
}
