// Numbers in slices of bytes, low byte first, and bytes copied into a slice.
ghost use Rattle.std.specs.Prelude.{◌≡◌, ℕ, ◌+◌, ◌<◌, ◌≤◌, length, get_or, drop, replicate, IfSome};
ghost use Rattle.model.specs.Bytes.{low_bytes, part, byte_at, number_at};
ghost use Rattle.wire.specs.Put.{put};

// The byte at a place, and 0 past the end, so that a reader needs no length.
pub fn byte(s: &[u8], at: usize) -> u8
    ensures { result ≡ byte_at at s.now }
{
    s.get(at).copied().unwrap_or(0)
}

// The N bytes from a place on, where all are there. The numbers below try it first: one test of the length then serves all the bytes,
// and the compiler makes one load of them.
fn all_at<const N: usize>(s: &[u8], at: usize) -> Option<&[u8; N]>
    ensures { IfSome result (λ all. (i : ℕ) → i < N → get_or all.now i 0 ≡ byte_at (at + i) s.now) }
{
    s.get(at..)?.first_chunk()
}

// The N bytes from a place on, each as `byte` reads it.
fn padded_at<const N: usize>(s: &[u8], at: usize) -> [u8; N]
    requires { at + N ≤ usize.MAX }
    ensures { (i : ℕ) → i < N → get_or result i 0 ≡ byte_at (at + i) s.now }
{
    let mut bytes = [0; N];
    for i in 0..N {
        bytes[i] = byte(s, at + i);
    }
    bytes
}

// The number of two bytes. A function for each width, here and below, since `from_le_bytes` and `to_le_bytes` belong to no trait.
#[tactic(auto, using(crate::proofs::Numbers::get_law))]
pub fn get16(s: &[u8], at: usize) -> u16
    requires { at ≤ 65535 }
    ensures { result ≡ number_at at 2 s.now }
{
    match all_at(s, at) {
        Some(all) => u16::from_le_bytes(*all),
        None => u16::from_le_bytes(padded_at(s, at)),
    }
}

// The number of four bytes.
#[tactic(auto, using(crate::proofs::Numbers::get_law))]
pub fn get32(s: &[u8], at: usize) -> u32
    requires { at ≤ 65535 }
    ensures { result ≡ number_at at 4 s.now }
{
    match all_at(s, at) {
        Some(all) => u32::from_le_bytes(*all),
        None => u32::from_le_bytes(padded_at(s, at)),
    }
}

// All of src goes into dst, from a place on.
// By a loop: `copy_from_slice` of an unknown length may call `memmove`, which the node does not (docs/PROMISES.md).
#[tactic(auto, using(crate::proofs::Numbers::store_more, crate::proofs::Numbers::all_stored))]
pub fn copy(dst: &mut [u8], at: usize, src: &[u8])
    requires { at + length src.now ≤ length dst.old }
    ensures { dst.new ≡ put at src.now dst.old }
{
    for (j, x) in src.iter().enumerate() {
        dst[at + j] = *x;
    }
}

// A number goes into two bytes.
#[tactic(auto, unfolding(model::specs::Bytes::low_bytes))]
pub fn put16(s: &mut [u8], at: usize, x: u16)
    requires { at + 2 ≤ length s.old }
    ensures { s.new ≡ put at (low_bytes 2 x) s.old }
{
    copy(s, at, &x.to_le_bytes());
}

// A number goes into four bytes.
#[tactic(auto, unfolding(model::specs::Bytes::low_bytes))]
pub fn put32(s: &mut [u8], at: usize, x: u32)
    requires { at + 4 ≤ length s.old }
    ensures { s.new ≡ put at (low_bytes 4 x) s.old }
{
    copy(s, at, &x.to_le_bytes());
}

// n zeros go into dst, from a place on.
#[tactic(auto, using(crate::proofs::Puts::put_part))]
pub fn zeros(dst: &mut [u8], at: usize, n: usize)
    requires { at + n ≤ length dst.old }
    ensures { dst.new ≡ put at (replicate n 0) dst.old }
{
    dst[at..at + n].fill(0);
}

// The n bytes from a place on. Its length is said too: callers' sums need it.
#[tactic(auto, unfolding(model::specs::Bytes::part))]
pub fn part_of(s: &[u8], at: usize, n: usize) -> &[u8]
    requires { at + n ≤ length s.now }
    ensures { (result.now ≡ part at n s.now) × (length result.now ≡ n) }
{
    &s[at..at + n]
}
