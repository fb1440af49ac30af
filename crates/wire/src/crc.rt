// The CRC-16 that signs: polynomial 1021h, start 0, high bit first.
ghost use Rattle.std.specs.Prelude.{◌≡◌};
ghost use Rattle.model.specs.Signature.{shifted, added, byte_in, crc_from, crc_of};

// One bit of the division.
#[tactic(auto, unfolding(model::specs::Signature::shifted))]
fn shift(c: u16) -> u16
    ensures { result ≡ shifted c }
{
    let moved = c << 1;
    if 0x8000 <= c { 0x1021 ^ moved } else { moved }
}

// A byte is added to the register's high half.
#[tactic(auto, using(crate::proofs::Signed::added_shifted))]
fn add_byte(c: u16, x: u8) -> u16
    ensures { result ≡ added c x }
{
    (u16::from(x) << 8) ^ c
}

// One byte goes into the register. The eight bits stay a loop: LLVM knows it for a CRC and makes a table of it,
// which it does not where they are written out.
#[tactic(auto, using(crate::proofs::Signed::shifted_none, crate::proofs::Signed::shifted_more), unfolding(model::specs::Signature::byte_in))]
pub fn byte_in(c: u16, x: u8) -> u16
    ensures { result ≡ byte_in c x }
{
    let mut r = add_byte(c, x);
    for _ in 0..8u32 {
        r = shift(r);
    }
    r
}

// Some bytes go into a register that holds `start`.
#[tactic(auto, using(crate::proofs::Signed::crc_folded))]
pub fn crc_from(start: u16, bytes: &[u8]) -> u16
    ensures { result ≡ crc_from start bytes.now }
{
    bytes.iter().fold(start, |c, x| byte_in(c, *x))
}

// The CRC of some bytes.
pub fn crc(bytes: &[u8]) -> u16
    ensures { result ≡ crc_of bytes.now }
{
    crc_from(0, bytes)
}
