// 64-bit numbers read as signed and back, sums that wrap, shifts, ranges by width and sign, and a place in a section. A width of n bits is
// a plain number with a clause: it is a literal or a part's own at each call, and a type for it would be made of that there.

#![tactic(auto)]

ghost use Rattle.std.specs.Prelude.{◌≡◌, ◌-◌, ◌*◌, ◌%◌, ◌^◌, ◌<◌, ◌≤◌, pos, neg_ℤ, ◌==◌, bit_and, unsigned_abs};
ghost use Rattle.std.specs.Int.Signed.{shr_z};
ghost use Rattle.meaning.specs.Numbers as N;
ghost use Rattle.meaning.specs.Checks as C;
ghost use Rattle.numbers.specs.Ranges.{between};

// The same bits.
pub fn signed(x: u64) -> i64
    ensures { result ≡ N.signed 64 x }
{
    x.cast_signed()
}

pub fn bits(z: i64) -> u64
    ensures { result ≡ N.bits_of 64 z }
{
    z.cast_unsigned()
}

pub fn plus(a: u64, b: u64) -> u64
    ensures { result ≡ N.plus 64 a b }
{
    a.wrapping_add(b)
}

pub fn minus(a: u64, b: u64) -> u64
    ensures { result ≡ N.minus 64 a b }
{
    a.wrapping_sub(b)
}

// x with its low k bits cleared.
pub fn cleared(k: u32, x: u64) -> u64
    requires { k < 64 }
    ensures { result ≡ N.cleared k x }
{
    x >> k << k
}

pub fn add(opr1: i64, opr2: i64) -> i64
    ensures { result ≡ N.signed 64 (N.plus 64 (N.bits_of 64 opr1) (N.bits_of 64 opr2)) }
{
    opr1.wrapping_add(opr2)
}

pub fn sub(opr1: i64, opr2: i64) -> i64
    ensures { result ≡ N.signed 64 (N.minus 64 (N.bits_of 64 opr1) (N.bits_of 64 opr2)) }
{
    opr1.wrapping_sub(opr2)
}

pub fn and(opr1: i64, opr2: i64) -> i64
    ensures { result ≡ N.signed 64 (bit_and (N.bits_of 64 opr1) (N.bits_of 64 opr2)) }
{
    opr1 & opr2
}

pub fn shift_left(opr1: i64, count: u32) -> i64
    requires { count < 64 }
    ensures { result ≡ N.signed 64 (N.bits_of 64 opr1 * 2 ^ count % 2 ^ 64) }
{
    opr1 << count
}

// The shift that copies the sign bit.
pub fn shift_right(opr1: i64, count: u32) -> i64
    requires { count < 64 }
    ensures { result ≡ shr_z opr1 (2 ^ count) }
{
    opr1 >> count
}

// n bits read as a signed number: shifted up until the highest of them is the top bit, and down again.
#[tactic(auto, using(crate::proofs::Narrow::narrow))]
pub fn signed_at(n: u32, x: u64) -> i64
    requires le_n { (1 ≤ n) × (n < 64) }
    requires x_bound { x < 2 ^ n }
    ensures { result ≡ N.signed n x }
{
    let above = 64 - n;
    signed(x << above) >> above
}

// Whether n bits hold z as a signed number: the bits from the top one of those n up are all as the sign bit is.
#[tactic(auto, using(crate::proofs::Tests::ranges))]
pub fn in_signed(n: u32, z: i64) -> bool
    requires { (1 ≤ n) × (n < 64) }
    ensures { result ≡ between (neg_ℤ (pos (2 ^ (n - 1)))) (pos (2 ^ (n - 1) - 1)) z }
{
    z >> (n - 1) == z >> 63
}

// Whether n bits hold z as a number from 0 up.
#[tactic(auto, using(crate::proofs::Tests::ranges))]
pub fn in_unsigned(n: u32, z: i64) -> bool
    requires { n < 63 }
    ensures { result ≡ between (pos 0) (pos (2 ^ n - 1)) z }
{
    z >> n == 0
}

pub fn multiple_of_4(x: u64) -> bool
    ensures { result ≡ (unsigned_abs (N.signed 64 x) % 4 == 0) }
{
    x.is_multiple_of(4)
}

// Refusal 8: n bytes at an offset, 1 or more, are not all inside a section of `size` bytes. An end past 64 bits is past any section.
pub fn outside(size: u64, offset: u64, n: u32) -> bool
    requires { 1 ≤ n }
    ensures { result ≡ C.outside size offset n }
{
    let Some(end) = offset.checked_add(u64::from(n)) else {
        return true;
    };
    size < end
}
