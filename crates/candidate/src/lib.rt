// Candidate registers (the paper's claims): checking one, testing one against a query, running one.
#![tactic(auto)]

ghost use Rattle.std.specs.Prelude.{◌≡◌, ℕ, ◌+◌, ◌*◌, ◌/◌, ◌≤◌, ◌<◌, length};
ghost use Rattle.lists.specs.Table.{at};
ghost use Rattle.residue.specs.Reduction.{two48};
ghost use Rattle.cells.specs.Cell.{cells_from, bytes_of};
ghost use Rattle.recurrence.specs.Running.{cell, generated, first_difference};
ghost use Rattle.sequence.specs.Limits.{max_terms, a_bytes, b_bytes};
ghost use Rattle.sequence.specs.Answers.{outcome_answer};
ghost use Rattle.sequence.specs.Rules.{IsSound, zero_from};
ghost use Rattle.candidate.specs.Rules.{a_cells, b_cells, all_below, fits, flaw_by, flaw_of, judge_of, verdict_answer, verify_of, verify_answer, generate_of, generate_answer, generated_in};

use sequence::{Refusal, Sequence};
use steps::{CELLS, TERMS};

// Whether each of the first n cells is below m.
fn all_below(s: &[u8], n: usize, m: u32) -> bool
    requires { 2 * n ≤ length s.now }
    ensures { result ≡ all_below m n (cells_from s.now 0 n) }
{
    for i in 0..n {
        if m <= cells::cell(s, i) {
            return false;
        }
    }
    true
}

// Whether each of the first n cells from place k on is zero. It is not the one of `sequence`, which reads an array and not cells of two bytes.
fn zero_from(s: &[u8], k: usize, n: usize) -> bool
    requires { 2 * n ≤ length s.now }
    ensures { result ≡ zero_from k n (cells_from s.now 0 n) }
{
    for i in k..n {
        if cells::cell(s, i) != 0 {
            return false;
        }
    }
    true
}

// Whether each coefficient is below m, and zero past its end.
fn fits(m: u32, l: u32, a: &[u8], b: &[u8]) -> bool
    requires { (length a.now ≡ a_bytes) × (length b.now ≡ b_bytes) }
    ensures { result ≡ fits m l (a_cells a.now) (b_cells b.now) }
{
    let k = l as usize;
    all_below(a, CELLS, m)
        && all_below(b, TERMS, m)
        && zero_from(a, k + 1, CELLS)
        && zero_from(b, k, TERMS)
}

// The refusal of a candidate by what is wrong with it, in the order 25, 6, 26: the length, a coefficient, a_0.
fn first_flaw(long: bool, coefficient: bool, lead: bool) -> Result<(), Refusal>
    ensures { result ≡ flaw_by long coefficient lead }
{
    if long {
        return Err(Refusal::CandidateLength);
    }
    if coefficient {
        return Err(Refusal::CandidateCoefficient);
    }
    if lead {
        return Err(Refusal::CandidateLead);
    }
    Ok(())
}

// The first thing wrong with a candidate of length l modulo m.
fn find_flaw(m: u32, l: u32, a: &[u8], b: &[u8]) -> Result<(), Refusal>
    requires { (length a.now ≡ a_bytes) × (length b.now ≡ b_bytes) }
    ensures { result ≡ flaw_of m l (a_cells a.now) (b_cells b.now) }
{
    let long = sequence::MAX_TERMS < l;
    let coefficient = !fits(m, l, a, b);
    let lead = cells::cell(a, 0) != 1;
    first_flaw(long, coefficient, lead)
}

// A coefficient times a term or a cell. 129 of these fit a u64.
fn product(x: u32, y: u32) -> u64
    requires { x < 65536 }
    ensures { (result ≡ x * y) × (result ≤ two48) }
{
    u64::from(x) * u64::from(y)
}

// The first of n places where the product of the terms and a differs from b modulo m; n where there is none, as the definition and the clause
// say. One division for each sum. The labelled loops stay: docs/DECISIONS.md, Forms, names them (a loop gives its break's value, a `for` none).
fn first_difference(terms: &[u32; TERMS], a: &[u8], b: &[u8], n: usize, m: u32) -> usize
    requires { (n ≤ max_terms) × (0 < m) × (m < 65536) × (length terms.now ≡ max_terms) × (length a.now ≡ a_bytes) × (length b.now ≡ b_bytes) }
    ensures { result ≡ first_difference m terms.now (a_cells a.now) (b_cells b.now) n }
{
    let mut j: usize = 0;
    'places: loop {
        if n <= j {
            break n;
        }
        let mut sum: u64 = 0;
        let mut i: usize = 0;
        loop {
            if j < i {
                if residue::remainder(sum, m) == cells::cell(b, j) {
                    break;
                }
                break 'places j;
            }
            sum += product(cells::cell(a, i), terms[j - i]);
            i += 1;
        }
        j += 1;
    }
}

// The test of a candidate against a sound sequence: the first place where the product and b differ, or none.
pub fn judge(s: &Sequence, a: &[u8], b: &[u8], l: u32) -> Result<Option<u32>, Refusal>
    requires { IsSound s.now × (length a.now ≡ a_bytes) × (length b.now ≡ b_bytes) }
    ensures { result ≡ judge_of s.now (a_cells a.now) (b_cells b.now) l }
{
    let m = s.modulus;
    find_flaw(m, l, a, b)?;
    let n = s.count as usize;
    let i = first_difference(&s.terms, a, b, n, m);
    if i < n {
        return Ok(Some(i as u32));
    }
    Ok(None)
}

// Tests a candidate against a query. None says yes: it generates the terms. A place says no: it is the first where the product and b differ.
// Rejected: a test that stops at n - 1 places; one that says yes to a candidate whose a_0 is not 1.
pub fn verify(query: &[u8], a: &[u8], b: &[u8], length: u32) -> Result<Option<u32>, Refusal>
    ensures value { result ≡ verify_of query.now a.now b.now length }
    ensures result_value { verdict_answer result ≡ verify_answer query.now a.now b.now length }
{
    if a.len() != sequence::A_BYTES {
        return Err(Refusal::Buffer);
    }
    if b.len() != sequence::B_BYTES {
        return Err(Refusal::Buffer);
    }
    let s = sequence::accept(query)?;
    judge(&s, a, b, length)
}

// Cell j from the cells before it: b_j less the sum of a_i times cell j - i.
fn next_cell(m: u32, a: &[u8], b: &[u8], l: usize, out: &[u8], j: usize) -> u32
    requires { (0 < m) × (m < 65536) × (length a.now ≡ a_bytes) × (length b.now ≡ b_bytes) × (l ≤ max_terms) × (j < max_terms) × (2 * j ≤ length out.now) × (at (b_cells b.now) j < m) }
    ensures { result ≡ cell m l (a_cells a.now) (b_cells b.now) (cells_from out.now 0 j) j }
{
    let mut sum = 0;
    for i in 0..l.min(j) {
        sum += product(cells::cell(a, i + 1), cells::cell(out, j - (i + 1)));
    }
    residue::sub(cells::cell(b, j), residue::remainder(sum, m), m)
}

// Runs a candidate: fills n cells.
fn fill(m: u32, a: &[u8], b: &[u8], l: usize, out: &mut [u8], n: usize)
    requires m_nonzero { (0 < m) × (m < 65536) × (length a.now ≡ a_bytes) × (length b.now ≡ b_bytes) × (l ≤ max_terms) × (n ≤ max_terms) × (length out.old ≡ 2 * n) }
    requires by_index { (i : ℕ) → i < max_terms → at (b_cells b.now) i < m }
    ensures { out.new ≡ bytes_of (generated m l (a_cells a.now) (b_cells b.now) n) }
{
    for i in 0..n {
        let v = next_cell(m, a, b, l, out, i);
        cells::put(out, i, v);
    }
}

// Runs a candidate for as many cells as are lent.
// Rejected: a run that sums over l places before there are l; one that leaves the last cell as lent.
pub fn generate(
    modulus: u32,
    a: &[u8],
    b: &[u8],
    length: u32,
    out: &mut [u8],
) -> Result<(), Refusal>
    ensures value { result ≡ generate_of modulus a.now b.now length out.old }
    ensures out_after { out.new ≡ generated_in result modulus a.now b.now length out.old }
    ensures result_value { outcome_answer result ≡ generate_answer modulus a.now b.now length out.old }
{
    if a.len() != sequence::A_BYTES {
        return Err(Refusal::Buffer);
    }
    if b.len() != sequence::B_BYTES {
        return Err(Refusal::Buffer);
    }
    let odd = out.len() % 2;
    if odd != 0 {
        return Err(Refusal::Buffer);
    }
    if sequence::outside(modulus) {
        return Err(Refusal::Modulus);
    }
    let n = out.len() / 2;
    if TERMS < n {
        return Err(Refusal::Count);
    }
    find_flaw(modulus, length, a, b)?;
    fill(modulus, a, b, length as usize, out, n);
    Ok(())
}
