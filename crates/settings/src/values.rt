// An entry's value travels with its type: its width, its number, its float and its bytes, and the value that some bytes are.
// These are functions that docs/PROMISES.md names, and no `From`: that would not say which of a value's numbers it gives.
ghost use Rattle.std.specs.Prelude.{◌≡◌, ◌≤◌};
ghost use Rattle.model.specs.Bytes.{low_bytes};
ghost use Rattle.model.specs.Values.{width_of, kind_of, number_of, float_of, decoded};
ghost use Rattle.settings.specs.Four.{four_bytes};

use model::{Kind, Value};
use reading::{bits_of, real_of, signed_of, unsigned_of};

// How many bytes a type has.
pub fn width_of(k: Kind) -> u8
    ensures { (result ≡ width_of k) × (result ≤ 4) }
{
    match k {
        Kind::U8 => 1,
        Kind::U16 => 2,
        Kind::U32 | Kind::Integer32 | Kind::Real32 => 4,
    }
}

// The type of a value.
pub fn kind_of(v: Value) -> Kind
    ensures { result ≡ kind_of v }
{
    match v {
        Value::U8(_) => Kind::U8,
        Value::U16(_) => Kind::U16,
        Value::U32(_) => Kind::U32,
        Value::Integer32(_) => Kind::Integer32,
        Value::Real32(_) => Kind::Real32,
    }
}

// A value as a number without sign: an Integer32 by its two's complement, a Real32 by its bits.
pub fn number_of(v: Value) -> u32
    ensures { result ≡ number_of v }
{
    match v {
        Value::U8(n) => u32::from(n),
        Value::U16(n) => u32::from(n),
        Value::U32(n) => n,
        Value::Integer32(z) => unsigned_of(z),
        Value::Real32(x) => bits_of(x),
    }
}

// The float of a Real32; of any other value the one with its bits.
pub fn float_of(v: Value) -> f32
    ensures { result ≡ float_of v }
{
    match v {
        Value::Real32(x) => x,
        _ => real_of(number_of(v)),
    }
}

// The value of a type that four bytes are, read as one number: as many of them count as the type has.
pub fn decode(k: Kind, d: u32) -> Value
    ensures { result ≡ decoded k d }
{
    match k {
        Kind::U8 => Value::U8((d & 0xff) as u8),
        Kind::U16 => Value::U16((d & 0xffff) as u16),
        Kind::U32 => Value::U32(d),
        Kind::Integer32 => Value::Integer32(signed_of(d)),
        Kind::Real32 => Value::Real32(real_of(d)),
    }
}

// The four bytes of a number, low byte first.
#[tactic(auto, unfolding(model::specs::Bytes::low_bytes))]
pub fn word(n: u32) -> [u8; 4]
    ensures { result ≡ low_bytes 4 n }
{
    n.to_le_bytes()
}

// The four bytes that carry a value, low byte first: its own, then zeros.
#[tactic(auto, unfolding(model::specs::Bytes::low_bytes, crate::specs::Four::four_bytes))]
pub fn encode(v: Value) -> [u8; 4]
    ensures { result ≡ four_bytes v }
{
    word(number_of(v))
}
