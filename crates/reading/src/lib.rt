// Readings: from FV to PV, and from PV to the integer PV; and the bits and the range of Real32 and Integer32 values.
// Nothing is required but that the digits are 4 at most: any float may be a NaN or an infinity.
#![tactic(auto)]

ghost use Rattle.std.specs.Prelude.{◌≡◌, ◌+◌, ◌*◌, ◌/◌, ◌^◌, ◌≤◌, ◌<◌};
ghost use Rattle.std.specs.Float.{binary32};
ghost use Rattle.std.specs.Float.Ieee.{of_bits, to_bits};
ghost use Rattle.std.specs.Int.{w32};
ghost use Rattle.std.proofs.Common.{to_z, of_z};
ghost use Rattle.model.specs.Reading.{pv_of, integer_of, limited, judge_real};
ghost use Rattle.model.specs.Settings.{is_inside};

use model::{Fv, Integer, Pv, Scaling, Verdict};
use std::num::{f32_from_bits_with_nan, f32_to_bits_with_nan};

// ---- PV

// PV of the scaling and FV. Each step is rounded once, so their order counts.
pub fn to_pv(scaling: Scaling, fv: Fv) -> Pv
    ensures { result ≡ pv_of scaling fv }
{
    let a = scaling.high - scaling.low;
    let b = f32::from(fv.0) - 4000.0;
    let c = a * b;
    let d = c / 16000.0;
    let e = scaling.low + d;
    Pv(e + scaling.offset)
}

// ---- The integer PV

// The Integer32 of a sign and a size, or the nearer end, capped.
#[tactic(auto, unfolding(model::specs::Reading::limited))]
fn limit(negative: bool, size: u64) -> Integer
    ensures { result ≡ limited negative size }
{
    let end = if negative { 2147483648 } else { 2147483647 };
    let held = size.min(end) as u32;
    Integer {
        bits: if negative { held.wrapping_neg() } else { held },
        capped: end < size,
    }
}

// 10 to the digits. By arms, since `pow` loops: 15 to 27 instructions more for a reading with 2 digits or more.
fn power(digits: u8) -> u64
    requires { digits ≤ 4 }
    ensures { (result ≡ 10 ^ digits) × (result ≤ 10000) }
{
    match digits {
        0 => 1,
        1 => 10,
        2 => 100,
        3 => 1000,
        _ => 10000,
    }
}

// n * 2^x / 2^149, to the nearest, halves up. From x = 149 on that is a whole number. Far below it n is less than a half.
#[tactic(auto, using(crate::proofs::Halves::code_up, crate::proofs::Halves::code_none, crate::proofs::Halves::code_down))]
fn rounded(n: u64, x: u32) -> u64
    requires { (n < 2 ^ 38) × (x < 160) }
    ensures { result ≡ (2 * (n * 2 ^ x) + 2 ^ 149) / 2 ^ 150 }
{
    if 149 <= x {
        return n << (x - 149);
    }
    let j = 149 - x;
    if 40 <= j {
        return 0;
    }
    (n + (1u64 << (j - 1))) >> j
}

// The integer PV of a PV, with the digits of 6132h, from PV's sign, exponent and fraction. A NaN gives 0, capped.
// An exponent of 160 or more is a size of 2^33 at least, or an infinity: past both ends of Integer32, as 2^32 is.
#[tactic(auto, using(crate::proofs::Patterns::at_nan, crate::proofs::Patterns::high, crate::proofs::Patterns::low, crate::proofs::Patterns::mid))]
pub fn integer_pv(pv: Pv, digits: u8) -> Integer
    requires { digits ≤ 4 }
    ensures { result ≡ integer_of pv digits }
{
    let x = pv.0;
    if x.is_nan() {
        return Integer {
            bits: 0,
            capped: true,
        };
    }
    let bits = x.to_bits();
    let negative = 0x8000_0000 <= bits;
    let exponent = bits % 0x8000_0000 / 0x80_0000;
    let fraction = u64::from(bits % 0x80_0000);
    if 160 <= exponent {
        return limit(negative, 4294967296);
    }
    let ten = power(digits);
    if exponent == 0 {
        return limit(negative, rounded(fraction * ten, 0));
    }
    limit(
        negative,
        rounded((0x80_0000 + fraction) * ten, exponent - 1),
    )
}

// ---- Real32

// The float of 32 bits, which may be a NaN's.
pub fn real_of(bits: u32) -> f32
    ensures { result ≡ of_bits binary32 bits }
{
    f32_from_bits_with_nan(bits)
}

// The 32 bits of a float: one pattern stands for every NaN.
pub fn bits_of(x: f32) -> u32
    ensures { result ≡ to_bits binary32 x }
{
    f32_to_bits_with_nan(x)
}

// Whether a Real32 parameter is in its range: 1,000,000 either way at most. A NaN fails both tests, an infinity one.
#[tactic(auto, using(crate::proofs::Ranges::fits))]
pub fn real_fits(x: f32) -> bool
    ensures { result ≡ is_inside (judge_real x) }
{
    (x <= 1000000.0) & (-1000000.0 <= x)
}

// How it stands to its range. A float that is finite and not in it is past the end of its sign.
#[tactic(auto, using(crate::proofs::Ranges::is_outside, crate::proofs::Ranges::is_above, crate::proofs::Ranges::is_below))]
pub fn judge_real(x: f32) -> Verdict
    ensures { result ≡ judge_real x }
{
    if real_fits(x) {
        return Verdict::Inside;
    }
    if !x.is_finite() {
        return Verdict::Outside;
    }
    if x > 0.0 {
        return Verdict::Above;
    }
    Verdict::Below
}

// ---- Integer32: two's complement both ways

// The signed number of 32 bits.
pub fn signed_of(bits: u32) -> i32
    ensures { result ≡ to_z w32 bits }
{
    bits.cast_signed()
}

// The 32 bits of a signed number.
pub fn unsigned_of(x: i32) -> u32
    ensures { result ≡ of_z w32 x }
{
    x.cast_unsigned()
}
