// Numbers modulo m, by value. Moduli are below 65,536, so that a product of two residues fits 32 bits.
#![tactic(auto)]

ghost use Rattle.std.specs.Prelude.{◌≡◌, ◌+◌, ◌*◌, ◌/◌, ◌%◌, ◌^◌, ◌≤◌, ◌<◌};
ghost use Rattle.std.specs.Iterator.{at_most};
ghost use Rattle.residue.specs.Congruence.{neg};
ghost use Rattle.residue.specs.Units.{Coprime, Bezout, inverse};
ghost use Rattle.residue.specs.Valuation.{valuation, cofactor};
ghost use Rattle.residue.specs.Factors.{divisors_end, least_divisor, least_power, value};
ghost use Rattle.residue.specs.Splitting.{SplitsOff};
ghost use Rattle.residue.specs.Remainders.{joined, two};
ghost use Rattle.residue.specs.Reduction.{scale_of};
ghost use Rattle.residue.specs.Signed.{residue_of};
ghost use Rattle.residue.specs.Common.{common_divisor};

mod table;

use table::LEAST;

// How many odd numbers there are below 4,096, where the table of least divisors stops.
const ODD_NUMBERS: usize = 2048;

// To divide by it is a shift.
const TWO_48: u64 = 1 << 48;

// The difference modulo m. Both are below m, so one comparison takes the place of a division.
#[tactic(auto, using(crate::proofs::Congruence::difference, crate::proofs::Congruence::difference_under))]
pub fn sub(x: u32, y: u32, m: u32) -> u32
    requires { (x < m) × (y < m) × (m < 65536) }
    ensures { result ≡ (x + neg m y) % m }
{
    if y <= x { x - y } else { x + m - y }
}

// The product modulo m.
pub fn mul(x: u32, y: u32, m: u32) -> u32
    requires { (x < 65536) × (y < 65536) × (0 < m) × (m < 65536) }
    ensures { result ≡ (x * y) % m }
{
    (x * y) % m
}

// The remainder of a number of 64 bits: a sum of many products takes one division.
pub fn remainder(x: u64, q: u32) -> u32
    requires { 0 < q }
    ensures { result ≡ x % q }
{
    (x % u64::from(q)) as u32
}

// The remainder from 0 to m - 1 of a signed number.
// Rejected: -1 as 1; the lowest value off by one.
pub fn of_signed(t: i32, m: u32) -> u32
    requires { 0 < m }
    ensures { result ≡ residue_of m t }
{
    i64::from(t).rem_euclid(i64::from(m)) as u32
}

// What Euclid's division finds for a and m: a x + m y = 1 + a m.
#[derive(Clone, Copy)]
struct Combination {
    x: u32,
    y: u32,
}

// By division, repeated on the smaller pair of the remainder and a. One division a call, and nothing goes below 0.
fn euclid(a: u32, m: u32) -> Combination
    requires { (0 < a) × (a ≤ m) × (m < 65536) × Coprime a m }
    ensures { Bezout a m result.x result.y }
{
    if a <= 1 {
        return Combination { x: 1, y: 1 };
    }
    let t = m / a;
    let r = m % a;
    let c = euclid(r, a);
    Combination {
        x: m - (t * c.x + (r - c.y)),
        y: c.x,
    }
}

// The inverse of the unit x modulo q, which is the x of Euclid's division.
pub fn inverse(x: u32, q: u32) -> u32
    requires { (0 < x) × (x < q) × (q < 65536) × Coprime x q }
    ensures { result ≡ inverse q x }
{
    let c = euclid(x, q);
    c.x
}

// p to the power e.
pub fn power(p: u32, e: usize) -> u32
    requires { (0 < p) × (p ^ e < 65536) }
    ensures { result ≡ p ^ e }
{
    // No `pow`, which takes an exponent of 32 bits: 1 to any e is promised too.
    let mut r = 1;
    for _ in 0..e {
        r *= p;
    }
    r
}

// A number as theta p^u.
#[derive(Clone, Copy)]
pub struct Weight {
    pub u: usize,
    pub theta: u32,
}

// d as theta p^u, with u at most e. For d = 0, u is e and theta is 1.
pub fn weigh(d: u32, p: u32, e: usize) -> Weight
    requires { 0 < p }
    ensures { (result.u ≡ valuation e p d) × (result.theta ≡ cofactor e p d) }
{
    if d == 0 {
        return Weight { u: e, theta: 1 };
    }
    let mut theta = d;
    for u in 0..e {
        if theta % p != 0 {
            return Weight { u, theta };
        }
        theta /= p;
    }
    Weight { u: e, theta }
}

// The number that `reduce` multiplies by, 2^48 / q + 1: taken once for each modulus.
pub fn scale(q: u32) -> u64
    requires { (0 < q) × (q < 65536) }
    ensures { result ≡ scale_of q }
{
    TWO_48 / u64::from(q) + 1
}

// The remainder of x, which is below q^2. Two products are faster than a division: x m / 2^48 is the quotient.
pub fn reduce(x: u32, q: u32, m: u64) -> u32
    requires { (0 < q) × (q < 65536) × (x < q * q) × (m ≡ scale_of q) }
    ensures { result ≡ x % q }
{
    let t = u64::from(x) * m / TWO_48;
    x - (t as u32) * q
}

// The least prime divisor of the odd number 2 i + 1, from the table.
fn least_of_odd(i: usize) -> u16
    requires { 2 * i + 1 < divisors_end }
    ensures { result ≡ least_divisor (2 * i + 1) }
{
    LEAST[i]
}

// The least prime divisor of n. Only an odd number is looked up: 2 divides every even one.
// Rejected: 4 looked up as 5; 2 for 0, which stands for itself.
#[tactic(auto, using(crate::proofs::Divisors::of_zero, crate::proofs::Divisors::of_even, crate::proofs::Divisors::of_odd))]
fn least_divisor(n: usize) -> u16
    requires { n < divisors_end }
    ensures { result ≡ least_divisor n }
{
    if n == 0 {
        return 0;
    }
    if n % 2 == 0 {
        return 2;
    }
    least_of_odd(n / 2)
}

// The least prime of a number with its exponent there, their power, and what is left of the number.
#[derive(Clone, Copy)]
pub struct Factor {
    pub prime: u32,
    pub exponent: usize,
    pub value: u32,
    pub rest: u32,
}

// Splits the power of its least prime off m. The prime is its least divisor, and weighing m by it gives the exponent and the rest.
pub fn split(m: u32) -> Factor
    requires { (2 ≤ m) × (m < divisors_end) }
    ensures { (result.prime ≡ (least_power m).prime) × (result.exponent ≡ (least_power m).exponent)
        × (result.value ≡ value (least_power m)) × (result.rest ≡ m / value (least_power m)) }
{
    let prime = u32::from(least_divisor(m as usize));
    let w = weigh(m, prime, m as usize);
    Factor {
        prime,
        exponent: w.u,
        value: power(prime, w.u),
        rest: w.theta,
    }
}

// The prime powers of a number, the least prime first: `rest` is left to be split.
#[derive(Drop)]
pub struct PrimePowers {
    pub rest: u32,
    ghost small: { rest < divisors_end },
}

// The iterator over the prime powers of m.
pub fn prime_powers(m: u32) -> PrimePowers
    requires { m < divisors_end }
    ensures { result.rest ≡ m }
{
    PrimePowers { rest: m }
}

impl Iterator for PrimePowers {
    type Item = Factor;

    ghost next_gives = { λ s f t. SplitsOff s.rest f t.rest };

    ghost remaining = { λ s. at_most s.rest };

    #[tactic(auto, using(crate::proofs::Factors::rest_lt))]
    fn next(&mut self) -> Option<Factor> {
        if self.rest <= 1 {
            return None;
        }
        let f = split(self.rest);
        self.rest = f.rest;
        Some(f)
    }
}

// What `join` and `meet` multiply by, the inverse of big modulo q: taken once for many remainders. Modulo 1 it is 0.
pub fn joiner(big: u32, q: u32) -> u32
    requires { (0 < big) × (0 < q) × (big * q < 65536) × Coprime big q }
    ensures { result ≡ inverse q big }
{
    if q <= 1 {
        return 0;
    }
    inverse(big % q, q)
}

// The one number below big q that leaves z modulo big and x modulo q. It is z + big s, and i, the joiner, tells s from x - z.
pub fn join(z: u32, big: u32, x: u32, q: u32, i: u32) -> u32
    requires { (z < big) × (x < q) × (big * q < 65536) × Coprime big q × (i ≡ inverse q big) }
    ensures { result ≡ joined (big * q) (two big z q x) }
{
    let d = sub(x, z % q, q);
    let s = mul(d, i, q);
    z + big * s
}

// The greatest common divisor, by Euclid's division: the remainder and a have the same one.
pub fn common_divisor(a: u32, b: u32) -> u32
    requires { 0 < a }
    ensures { result ≡ common_divisor a b }
{
    let r = b % a;
    if r == 0 {
        return a;
    }
    common_divisor(r, a)
}

// `join` for two moduli mu g and nu g with a divisor in common: the one number below mu nu g that leaves x and y, which agree modulo g.
// To the base g its last digit is theirs, and its quotient is joined of their quotients. i is the joiner of mu and nu.
pub fn meet(x: u32, y: u32, mu: u32, nu: u32, g: u32, i: u32) -> u32
    requires { (x < mu * g) × (y < nu * g) × (x % g ≡ y % g) × (mu * nu * g < 65536) × Coprime mu nu × (i ≡ inverse nu mu) }
    ensures { result ≡ joined (mu * nu * g) (two (mu * g) x (nu * g) y) }
{
    let z = join(x / g, mu, y / g, nu, i);
    z * g + x % g
}
