// The register modulo m: the steps at each prime power of m, joined by remainders (Reeds and Sloane, section 3).
#![tactic(auto)]

ghost use Rattle.std.specs.Prelude.{◌≡◌, ℕ, ◌+◌, ◌*◌, ◌≤◌, ◌<◌, length, get_or};
ghost use Rattle.lists.specs.Table.{at, tabulate};
ghost use Rattle.residue.specs.Units.{Coprime};
ghost use Rattle.residue.specs.Factors.{is_prime, divisors_end, prime_powers};
ghost use Rattle.recurrence.specs.Register.{complexity, register};
ghost use Rattle.recurrence.specs.Working.{no_step, steps_at, sheet_of, rows_over};
ghost use Rattle.steps.specs.Sizes.{max_terms, max_cells, max_rows, log_words};
ghost use Rattle.steps.specs.Log.{step_record, packed, words, overlaid, power_of, Noted};
ghost use Rattle.steps.specs.Run.{Below};
ghost use Rattle.synthesis.specs.Joining.{Glued, Raised, Extended, Starts};
ghost use Rattle.synthesis.specs.Synthesis.{length_at, synthesis_of};

use steps::{CELLS, Ring, TERMS};

// The shortest register of the first terms, and the linear complexity of the first 0, 1, .. of them; and whether the modulus is prime.
#[derive(Clone, Copy)]
pub struct Synthesis {
    pub length: u32,
    pub a: [u32; CELLS],
    pub b: [u32; TERMS],
    pub lengths: [u32; CELLS],
    pub prime: bool,
}

// Makes each cell of a, known modulo big, known modulo big q by the row's cell modulo q. Where both are the same number, it is that one.
fn join_cells(a: &mut [u32; CELLS], big: u32, row: &[u32; CELLS], q: u32)
    requires { (length a.old ≡ max_cells) × (0 < big) × (1 < q) × (big * q < 65536) × Coprime big q × Below max_cells big a.old
        × Below max_cells q row.now }
    ensures { Glued big q a.old row.now a.new }
{
    let unit = residue::joiner(big, q);
    for (i, z) in a.iter_mut().enumerate() {
        if *z != row[i] {
            *z = residue::join(*z, big, row[i], q, unit);
        }
    }
}

// Makes each length the larger of the two.
fn raise(lengths: &mut [u32; CELLS], lens: &[u32; CELLS])
    requires { length lengths.old ≡ max_cells }
    ensures { Raised lengths.old lens.now lengths.new }
{
    for (i, l) in lengths.iter_mut().enumerate() {
        *l = (*l).max(lens[i]);
    }
}

// The steps at one more prime power, their records in the log, joined with what was found modulo big. Modulo 1 nothing was: the first row is taken as it is.
fn extend(
    ring: Ring,
    big: u32,
    terms: &[u32; TERMS],
    count: usize,
    a: &mut [u32; CELLS],
    lengths: &mut [u32; CELLS],
    log: &mut [u64],
    first: usize,
)
    requires { Below max_terms 65536 terms.now × (count ≤ max_terms) × (0 < big) × (big * ring.q < 65536) × Coprime big ring.q
        × (length a.old ≡ max_cells) × Below max_cells big a.old × (length lengths.old ≡ max_cells) × (first + count * ring.e ≤ log_words) }
    ensures { Extended (power_of ring) terms.now count big a.old lengths.old a.new
        lengths.new
        × Noted first (count * ring.e) (λ (i : ℕ). packed (step_record (get_or (steps_at terms.now (power_of ring) count) i no_step)))
        log.old log.new }
{
    let mut row = [0u32; CELLS];
    let mut lens = [0u32; CELLS];
    steps::run(terms, count, ring, &mut row, &mut lens, log, first);
    raise(lengths, &lens);
    if big == 1 {
        *a = row;
        return;
    }
    join_cells(a, big, &row, ring.q);
}

// a and the lengths, and the records of the steps, from the prime powers of the modulus, the least prime first. Replies whether the modulus is
// prime: the primes are at hand here.
// Rejected: a prime power taken for a prime; every modulus; 2 not taken for one.
fn gather(
    modulus: u32,
    terms: &[u32; TERMS],
    count: usize,
    a: &mut [u32; CELLS],
    lengths: &mut [u32; CELLS],
    log: &mut [u64],
) -> bool
    requires { (2 ≤ modulus) × (modulus < divisors_end) × (count ≤ max_terms) × Below max_terms 65536 terms.now × (length a.old ≡ max_cells)
        × Below max_cells 1 a.old × (length lengths.old ≡ max_cells) × Below max_cells 1 lengths.old }
    ensures { (a.new ≡ tabulate max_cells (at (register modulus terms.now count).a))
        × (lengths.new ≡ tabulate max_cells (length_at modulus terms.now count))
        × (log.new ≡ overlaid (words (sheet_of modulus terms.now count)) log.old)
        × (result ≡ is_prime modulus) }
{
    let mut big: u32 = 1;
    let mut first: usize = 0;
    let mut last: u32 = 1;
    for f in residue::prime_powers(modulus) {
        let ring = Ring::new(f.prime, f.exponent, f.value);
        extend(ring, big, terms, count, a, lengths, log, first);
        big *= f.value;
        first += count * f.exponent;
        last = f.prime;
    }
    last == modulus
}

// b from a: the register generates its terms, so that b_j is coefficient j of terms times a, and it has only l cells. So b is found
// once, modulo m, and never joined.
pub fn start_cells(a: &[u32; CELLS], terms: &[u32; TERMS], l: usize, m: u32) -> [u32; TERMS]
    requires { (l ≤ max_terms) × (0 < m) × Below max_cells 65536 a.now × Below max_terms 65536 terms.now }
    ensures { Starts terms.now a.now l m result }
{
    let mut b = [0u32; TERMS];
    for i in 0..l {
        b[i] = steps::coefficient(a, terms, i, i, m);
    }
    b
}

// The rows of the steps at all prime powers of the modulus: the sum of the exponents.
pub fn count_rows(modulus: u32) -> usize
    requires { (2 ≤ modulus) × (modulus < divisors_end) }
    ensures { (result ≡ rows_over (prime_powers modulus)) × (result ≤ max_rows) }
{
    let mut sum: usize = 0;
    for f in residue::prime_powers(modulus) {
        sum += f.exponent;
    }
    sum
}

// The shortest register of the first `count` terms modulo `modulus`, and the words of its sheet in the log, as far as that has places.
// The terms need not be below the modulus.
pub fn trace(modulus: u32, terms: &[u32; TERMS], count: usize, log: &mut [u64]) -> Synthesis
    requires { (2 ≤ modulus) × (modulus < divisors_end) × (count ≤ max_terms) × Below max_terms 65536 terms.now }
    ensures { (result ≡ synthesis_of modulus terms.now count)
        × (log.new ≡ overlaid (words (sheet_of modulus terms.now count)) log.old) }
{
    let mut a = [0u32; CELLS];
    let mut lengths = [0u32; CELLS];
    let prime = gather(modulus, terms, count, &mut a, &mut lengths, log);
    let length = lengths[count];
    let b = start_cells(&a, terms, length as usize, modulus);
    Synthesis {
        length,
        a,
        b,
        lengths,
        prime,
    }
}

// The same without the working.
pub fn synthesize(modulus: u32, terms: &[u32; TERMS], count: usize) -> Synthesis
    requires { (2 ≤ modulus) × (modulus < divisors_end) × (count ≤ max_terms) × Below max_terms 65536 terms.now }
    ensures { result ≡ synthesis_of modulus terms.now count }
{
    trace(modulus, terms, count, &mut [])
}

// The length alone.
pub fn complexity(modulus: u32, terms: &[u32; TERMS], count: usize) -> u32
    requires { (2 ≤ modulus) × (modulus < divisors_end) × (count ≤ max_terms) × Below max_terms 65536 terms.now }
    ensures { (result ≡ complexity modulus terms.now count) × (result ≤ count) }
{
    let mut a = [0u32; CELLS];
    let mut lengths = [0u32; CELLS];
    gather(modulus, terms, count, &mut a, &mut lengths, &mut []);
    lengths[count]
}
