// The length of a binary sequence of period 1, 2, 4, .. 64, by halving one period.
#![tactic(auto)]

ghost use Rattle.std.specs.Prelude.{◌≡◌, ℕ, suc, ◌+◌, ◌*◌, ◌/◌, ◌%◌, ◌^◌, ◌≤◌, ◌<◌, length};
ghost use Rattle.lists.specs.Table.{at};
ghost use Rattle.cells.specs.Cell.{cell_at, cells_from};
ghost use Rattle.sequence.specs.Rules.{first_large};
ghost use Rattle.period.specs.Halving.{halving, Binary, equal_halves};
ghost use Rattle.period.specs.Rules.{periods, max_period, exponent, measured_answer, period_length_of, period_length_answer};

use sequence::Refusal;

// How many periods there are, and the largest of them.
const PERIODS: usize = 7;

const MAX_PERIOD: usize = 64;

// w where n is 2^w, one of the periods; else 7, as the definition and the clause say.
fn exponent(n: usize) -> usize
    ensures { result ≡ exponent n }
{
    for w in 0..PERIODS {
        if n == 1 << w {
            return w;
        }
    }
    PERIODS
}

// Loads the digits of n cells up to the first that is above 1, and says its place; n where there is none, as the clause says.
fn load(cells: &[u8], n: usize, digits: &mut [u32; MAX_PERIOD]) -> usize
    requires { (2 * n ≤ length cells.now) × (n ≤ max_period) × (length digits.old ≡ max_period) }
    ensures { (result ≡ first_large 2 (cells_from cells.now 0 n) n) × (length digits.new ≡ max_period)
        × ((j : ℕ) → j < result → at digits.new j ≡ cell_at cells.now j) }
{
    for i in 0..n {
        let x = cells::cell(cells, i);
        if 2 <= x {
            return i;
        }
        digits[i] = x;
    }
    n
}

// Whether the halves of the first 2 h digits are equal.
fn equal_halves(digits: &[u32; MAX_PERIOD], h: usize) -> bool
    requires { (2 * h ≤ max_period) × (length digits.now ≡ max_period) }
    ensures { result ≡ equal_halves h digits.now }
{
    // No `==` of slices, which takes longer for so few.
    for i in 0..h {
        if digits[i] != digits[h + i] {
            return false;
        }
    }
    true
}

// The sum of the halves modulo 2 in the first h places.
fn add_halves(digits: &mut [u32; MAX_PERIOD], h: usize)
    requires { (2 * h ≤ max_period) × (length digits.old ≡ max_period) × Binary (2 * h) digits.old }
    ensures { (length digits.new ≡ max_period)
        × ((j : ℕ) → j < h → at digits.new j ≡ (at digits.old j + at digits.old (h + j)) % 2) }
{
    for j in 0..h {
        digits[j] = residue::remainder(u64::from(digits[j] + digits[h + j]), 2);
    }
}

// One comparison of the halves of the first 2^(w + 1) digits: leaves what to go on with in the first half, and says what to add to the total.
fn halve_once(digits: &mut [u32; MAX_PERIOD], w: usize) -> u32
    requires { (suc w < periods) × (length digits.old ≡ max_period) × Binary (2 ^ suc w) digits.old }
    ensures { (result ≤ 2 ^ suc w) × (length digits.new ≡ max_period) × Binary (2 ^ w) digits.new
        × (result + halving w digits.new ≡ halving (suc w) digits.old) }
{
    let h = 1 << w;
    if equal_halves(digits, h) {
        return 0;
    }
    add_halves(digits, h);
    h as u32
}

// The length for the first 2^e digits.
fn halve(digits: &mut [u32; MAX_PERIOD], e: usize) -> u32
    requires { (e < periods) × (length digits.old ≡ max_period) × Binary (2 ^ e) digits.old }
    ensures { result ≡ halving e digits.old }
{
    let mut total = 0;
    for w in (0..e).rev() {
        total += halve_once(digits, w);
    }
    total + digits[0]
}

// The length of the sequence whose period is lent as cells.
// Rejected: the size added instead of half; halves compared up to the last but one; the last digit left out; 128 cells; 2 taken for 0.
pub fn period_length(cells: &[u8]) -> Result<u32, Refusal>
    ensures value { result ≡ period_length_of cells.now }
    ensures result_value { measured_answer result ≡ period_length_answer cells.now }
{
    if cells.len() % 2 != 0 {
        return Err(Refusal::Buffer);
    }
    let n = cells.len() / 2;
    let w = exponent(n);
    if PERIODS <= w {
        return Err(Refusal::Period);
    }
    let mut digits = [0u32; MAX_PERIOD];
    let i = load(cells, n, &mut digits);
    if i < n {
        return Err(Refusal::Term(i as u32));
    }
    Ok(halve(&mut digits, w))
}
