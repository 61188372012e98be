// The greatest common divisor, by halving: an odd number shares no factor 2, so that a power of 2 can be taken out of
// the other, and the difference of two odd numbers is even again.
ghost use Rattle.std.specs.Prelude.{◌≡◌, ◌≢◌, ◌/◌, ◌%◌, ◌<◌, ◌≤◌, ◌^◌, pos, ◌<ℤ◌, ◌≤ℤ◌, unsigned_abs};
ghost use Rattle.std.specs.Int.{IsGcd, trailing_zeros, w64, w128};

// The greatest common divisor of an odd number and another, in 64 bits.
fn gcd_odd(odd: u64, other: u64) -> u64
    requires { odd % 2 ≡ 1 }
    ensures { IsGcd odd other result }
{
    let mut x = odd;
    let mut y = other;
    while y != 0 {
        let rest = y >> y.trailing_zeros();
        y = x.abs_diff(rest);
        x = x.min(rest);
    }
    x
}

// The greatest common divisor of numbers that aren't 0, in 64 bits.
fn gcd_halved(a: u64, b: u64) -> u64
    requires a { a ≢ 0 }
    requires b { b ≢ 0 }
    ensures { IsGcd a b result }
{
    let twos = a.trailing_zeros();
    let others = b.trailing_zeros();
    if twos <= others {
        gcd_odd(a >> twos, b >> twos) << twos
    } else {
        gcd_odd(b >> others, a >> others) << others
    }
}

// The greatest common divisor in 64 bits. Where one number is far greater, its remainder goes on.
fn gcd_small(a: u64, b: u64) -> u64
    ensures { IsGcd a b result }
{
    if a == 0 {
        return b;
    }
    if b == 0 {
        return a;
    }
    if b < a >> 8 {
        let rest = a % b;
        return if rest == 0 { b } else { gcd_halved(rest, b) };
    }
    if a < b >> 8 {
        let rest = b % a;
        return if rest == 0 { a } else { gcd_halved(a, rest) };
    }
    gcd_halved(a, b)
}

// The greatest common divisor of an odd number and another, in 128 bits until one fits 64.
fn gcd_odd_wide(odd: u128, other: u128) -> u128
    requires { odd % 2 ≡ 1 }
    ensures { IsGcd odd other result }
{
    let mut x = odd;
    let mut y = other;
    while y > u64::MAX as u128 {
        let rest = y >> y.trailing_zeros();
        y = x.abs_diff(rest);
        x = x.min(rest);
    }
    if y == 0 {
        return x;
    }
    gcd_small(y as u64, (x % y) as u64) as u128
}

// The greatest common divisor of numbers that aren't 0.
fn gcd_wide(a: u128, b: u128) -> u128
    requires a { a ≢ 0 }
    requires b { b ≢ 0 }
    ensures { IsGcd a b result }
{
    let twos = a.trailing_zeros();
    let others = b.trailing_zeros();
    if twos <= others {
        gcd_odd_wide(a >> twos, b >> twos) << twos
    } else {
        gcd_odd_wide(b >> others, a >> others) << others
    }
}

/// The greatest common divisor. It runs on 64 bits as soon as both numbers fit.
pub fn gcd(a: u128, b: u128) -> u128
    ensures { IsGcd a b result }
{
    if b <= u64::MAX as u128 {
        if a <= u64::MAX as u128 {
            return gcd_small(a as u64, b as u64) as u128;
        }
        if b == 0 {
            return a;
        }
        return gcd_small((a % b) as u64, b as u64) as u128;
    }
    if a <= u64::MAX as u128 {
        if a == 0 {
            return b;
        }
        return gcd_small(a as u64, (b % a) as u64) as u128;
    }
    gcd_wide(a, b)
}

/// The greatest common divisor of a number and one above 0. It is above 0.
pub fn common(num: i128, den: i128) -> i128
    requires { pos 0 <ℤ den }
    ensures is { IsGcd (unsigned_abs num) (unsigned_abs den) (unsigned_abs result) }
    ensures positive { pos 0 <ℤ result }
    ensures most { result ≤ℤ den }
{
    if den == 1 {
        return 1;
    }
    let top = num.unsigned_abs();
    if top == 1 {
        return 1;
    }
    gcd(top, den.unsigned_abs()) as i128
}
