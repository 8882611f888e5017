// The sequences of n terms modulo m: the one with a number, and how many of them have each length.
#![tactic(auto)]

ghost use Rattle.std.specs.Prelude.{◌≡◌, Ok, ◌∷◌, suc, ◌+◌, ◌^◌, ◌≤◌, ◌<◌, min, length};
ghost use Rattle.lists.specs.Table.{at, tabulate};
ghost use Rattle.cells.specs.Cell.{bytes_of};
ghost use Rattle.recurrence.specs.Register.{complexity};
ghost use Rattle.counting.specs.Numbering.{list_at};
ghost use Rattle.counting.specs.Lengths.{with_length};
ghost use Rattle.sequence.specs.Limits.{max_modulus, max_terms, query_bytes};
ghost use Rattle.sequence.specs.Answers.{outcome_answer};
ghost use Rattle.sequence.specs.Report.{filled};
ghost use Rattle.enumeration.specs.Rules.{max_sequences, lengths, counted_of, number_in, enumerate_of, enumerate_answer, query_numbered, tally_of, tally_answer, tally_cells};

use sequence::{MAX_TERMS, QUERY_BYTES, Refusal, Sequence};
use steps::TERMS;

// No more sequences are counted than these, whatever the largest modulus is.
const MAX_SEQUENCES: u32 = 4096;

// The lengths 0 to 12: 2^13 sequences would be too many.
pub const LENGTHS: usize = 13;

pub const TALLY_BYTES: usize = 2 * LENGTHS;

// m^n up to 4,096, and 4,097 for any larger power, however large n is.
fn power(m: u32, n: u32) -> u32
    requires { (2 ≤ m) × (m < 65536) }
    ensures { result ≡ min (m ^ n) (suc max_sequences) }
{
    m.checked_pow(n).unwrap_or(u32::MAX).min(MAX_SEQUENCES + 1)
}

// How many sequences of n terms modulo m there are; 1, 2, 33, in this order, for both calls.
fn count_sequences(m: u32, n: u32) -> Result<u32, Refusal>
    ensures { result ≡ counted_of m n }
{
    if sequence::outside(m) {
        return Err(Refusal::Modulus);
    }
    if MAX_TERMS < n {
        return Err(Refusal::Count);
    }
    let k = power(m, n);
    if MAX_SEQUENCES < k {
        return Err(Refusal::Census);
    }
    Ok(k)
}

// The terms of the sequence with a number: its last n digits to the base m, the highest first; zero past them.
fn digits(m: u32, n: usize, number: u32) -> [u32; TERMS]
    requires { (0 < m) × (n ≤ max_terms) }
    ensures { result ≡ tabulate max_terms (at (list_at m n number)) }
{
    let mut terms = [0u32; TERMS];
    let mut left = number;
    for i in (0..n).rev() {
        terms[i] = residue::remainder(u64::from(left), m);
        left /= m;
    }
    terms
}

// Writes the query of the sequence with a number, of the k that there are.
fn write_sequence(m: u32, n: u32, number: u64, k: u32, query: &mut [u8]) -> Result<(), Refusal>
    requires { (counted_of m n ≡ Ok k) × (length query.old ≡ query_bytes) }
    ensures value { result ≡ number_in (Ok k) number }
    ensures query_after { query.new ≡ filled result (query_numbered m n number) query.old }
{
    if u64::from(k) <= number {
        return Err(Refusal::Census);
    }
    let s = Sequence {
        modulus: m,
        count: n,
        terms: digits(m, n as usize, number as u32),
    };
    s.write(query);
    Ok(())
}

// Writes the query of the sequence of n terms modulo m with this number, counted from 0 in dictionary order; as lent where it is refused.
// Rejected: the digits in the other order; a number equal to m^n; 33 before 2.
pub fn enumerate(m: u32, n: u32, number: u64, query: &mut [u8]) -> Result<(), Refusal>
    ensures value { result ≡ enumerate_of m n number query.old }
    ensures query_after { query.new ≡ filled result (query_numbered m n number) query.old }
    ensures result_value { outcome_answer result ≡ enumerate_answer m n number query.old }
{
    if query.len() != QUERY_BYTES {
        return Err(Refusal::Buffer);
    }
    let k = count_sequences(m, n)?;
    write_sequence(m, n, number, k, query)
}

// The least length of the sequence with a number, by the steps.
fn length_of(m: u32, n: usize, number: u32) -> usize
    requires { (2 ≤ m) × (m ≤ max_modulus) × (n ≤ max_terms) }
    ensures { (result ≡ complexity m (list_at m n number) n) × (result ≤ n) }
{
    let terms = digits(m, n, number);
    synthesis::complexity(m, &terms, n) as usize
}

// How many of the k sequences have each length. One is held at a time.
fn count_lengths(m: u32, n: u32, k: u32) -> [u32; LENGTHS]
    requires { counted_of m n ≡ Ok k }
    ensures { result ≡ tabulate lengths (with_length m n) }
{
    let mut counts = [0u32; LENGTHS];
    for x in 0..k {
        let l = length_of(m, n as usize, x);
        counts[l] += 1;
    }
    counts
}

// How many sequences of n terms modulo m have each length, in 13 cells; as lent where it is refused.
// Rejected: the number of terms taken for the length; cells past n left as lent.
pub fn tally(m: u32, n: u32, cells: &mut [u8]) -> Result<(), Refusal>
    ensures value { result ≡ tally_of m n cells.old }
    ensures cells_after { cells.new ≡ filled result (tally_cells m n) cells.old }
    ensures result_value { outcome_answer result ≡ tally_answer m n cells.old }
{
    if cells.len() != TALLY_BYTES {
        return Err(Refusal::Buffer);
    }
    let k = count_sequences(m, n)?;
    let counts = count_lengths(m, n, k);
    cells::write(cells, &counts);
    Ok(())
}
