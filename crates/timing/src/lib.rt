// Entry points for the benchmark in bench/, and for nothing else: parts of the work that the C interface does not show by themselves.
// Like the public calls they take any input.
#![tactic(auto)]

ghost use Rattle.std.specs.Prelude.{◌≡◌, ℕ, ◌≤◌, ltb};
ghost use Rattle.std.specs.List.{list_all};
ghost use Rattle.lists.specs.Choice.{pick};
ghost use Rattle.lists.specs.Sum.{sum_to};
ghost use Rattle.lists.specs.Table.{at};
ghost use Rattle.steps.specs.Sizes.{log_words};
ghost use Rattle.steps.specs.Log.{unpacked};
ghost use Rattle.sequence.specs.Answers.{uniqueness};
ghost use Rattle.sequence.specs.Rules.{open_of};
ghost use Rattle.sequence.specs.Report.{report_of, filled, a_buffer, b_buffer};
ghost use Rattle.sequence.specs.Trace.{trace_of};
ghost use Rattle.column.specs.Rules.{terms_in, each_of, push_all_of};
ghost use Rattle.timing.specs.Entries.{fits, row_cells, row_lengths, given, replied_by, numbers_of, sum_of};

use sequence::{Sequence, Uniqueness};
use steps::{CELLS, LOG, Ring, StepRecord, TERMS};

// Whether every term is small enough for the products of the steps.
fn are_low(s: &[u32; TERMS]) -> bool
    ensures { result ≡ list_all (λ t. ltb t 65536) s.now }
{
    s.iter().all(|t| *t < 65536)
}

// Whether the steps can be run: on any other input nothing is done.
#[tactic(auto, using(crate::proofs::Laws::low_listed), unfolding(crate::specs::Entries::fits))]
fn fits(m: u32, n: usize, s: &[u32; TERMS]) -> bool
    ensures { result ≡ fits m n s.now }
{
    !sequence::outside(m) && n <= TERMS && are_low(s)
}

// The steps at the prime power of the least prime of m, on the first n terms: a of row 0 and its lengths, and whether they were written.
// Rejected: one that takes modulus 4,096; one that writes and says that it did not.
#[unsafe(no_mangle)]
pub extern "C" fn timing_steps(
    m: u32,
    s: &[u32; TERMS],
    n: usize,
    a: &mut [u32; CELLS],
    lens: &mut [u32; CELLS],
) -> bool
    ensures value { result ≡ fits m n s.now }
    ensures a_after { a.new ≡ pick result (row_cells m s.now n) a.old }
    ensures lens_after { lens.new ≡ pick result (row_lengths m s.now n) lens.old }
{
    if fits(m, n, s) {
        let f = residue::split(m);
        let ring = Ring::new(f.prime, f.exponent, f.value);
        let mut empty = [0u64; 1];
        steps::run(s, n, ring, a, lens, &mut empty[0..0], 0);
        return true;
    }
    false
}

// Whether a register is the only one, by its value in the reply by number.
fn value_of(w: Uniqueness) -> u64
    ensures { (result ≡ uniqueness w) × (result ≤ 2) }
{
    match w {
        Uniqueness::NotTold => 0,
        Uniqueness::Sole => 1,
        Uniqueness::Several => 2,
    }
}

// The sequence that is handed in, whatever is wrong with it.
fn given(modulus: u32, count: u32, terms: &[u32; TERMS]) -> Sequence
    ensures { result ≡ given modulus count terms.now }
{
    Sequence {
        modulus,
        count,
        terms: *terms,
    }
}

// The register of a sequence, by the public call. The reply is its length and 2^32 times `uniqueness`, or 129 where the call refuses.
// Rejected: one that replies the count; one that swaps a and b.
#[unsafe(no_mangle)]
pub extern "C" fn timing_register(
    m: u32,
    count: u32,
    terms: &[u32; TERMS],
    a: &mut [u8],
    b: &mut [u8],
) -> u64
    ensures value { result ≡ replied_by (report_of (given m count terms.now) a.old b.old) }
    ensures a_after { a.new ≡ filled (report_of (given m count terms.now) a.old b.old)
        (a_buffer (given m count terms.now)) a.old }
    ensures b_after { b.new ≡ filled (report_of (given m count terms.now) a.old b.old)
        (b_buffer (given m count terms.now)) b.old }
{
    match given(m, count, terms).register(a, b) {
        Ok(r) => u64::from(r.length) + 4294967296 * value_of(r.uniqueness),
        Err(_) => CELLS as u64,
    }
}

// The numbers of a record, added up: at most 8 (2^32 - 1).
fn total(x: StepRecord) -> u64
    ensures { (result ≡ numbers_of x) × (result ≤ 34359738360) }
{
    let place = u64::from(x.power) + u64::from(x.k) + u64::from(x.row) + u64::from(x.length);
    place + u64::from(x.u) + u64::from(x.theta) + u64::from(x.g) + u64::from(x.case)
}

// The numbers of the first records of a log, added up.
fn add_up(log: &[u64; LOG], count: usize) -> u64
    requires { count ≤ log_words }
    ensures { result ≡ sum_to count (λ (i : ℕ). numbers_of (unpacked (at log.now i))) }
{
    let mut sum = 0;
    for i in 0..count {
        sum += total(steps::entry(log, i));
    }
    sum
}

// The register of a sequence with its working, all but storing the records: each is read, and the reply is the sum of all their numbers, or 0
// where the call refuses, so that no record can be left out.
// Rejected: one that reads all but the last record; one that counts the records.
#[unsafe(no_mangle)]
pub extern "C" fn timing_trace(
    m: u32,
    count: u32,
    terms: &[u32; TERMS],
    a: &mut [u8],
    b: &mut [u8],
) -> u64
    ensures value { result ≡ sum_of (trace_of (given m count terms.now) a.old b.old log_words)
        (given m count terms.now) }
    ensures a_after { a.new ≡ filled (trace_of (given m count terms.now) a.old b.old log_words)
        (a_buffer (given m count terms.now)) a.old }
    ensures b_after { b.new ≡ filled (trace_of (given m count terms.now) a.old b.old log_words)
        (b_buffer (given m count terms.now)) b.old }
{
    let mut log = [0u64; LOG];
    match given(m, count, terms).work(a, b, LOG, &mut log) {
        Ok(w) => add_up(&log, w.count),
        Err(_) => 0,
    }
}

// A column pushed to a fresh sequence by one call. The terms that are held then are written, and the reply is their number.
// Rejected: one that writes none; one that replies the number of cells.
#[unsafe(no_mangle)]
pub extern "C" fn timing_push_all(m: u32, list: &[u8], terms: &mut [u32; TERMS]) -> u32
    ensures value { result ≡ (push_all_of (open_of m).sequence list.now).sequence.count }
    ensures terms_after { terms.new ≡ (push_all_of (open_of m).sequence list.now).sequence.terms }
{
    let o = Sequence::open(m);
    let p = column::push_all(o.sequence, list);
    let t = p.sequence.terms;
    *terms = t;
    p.sequence.count
}

// The same by a push for each term, up to the first refused one.
// Rejected: one that pushes the whole list in one call and replies 0; one that stops before the last term.
#[unsafe(no_mangle)]
pub extern "C" fn timing_pushes(m: u32, list: &[u8], terms: &mut [u32; TERMS]) -> u32
    ensures value { result ≡ (each_of (open_of m).sequence (terms_in list.now)).sequence.count }
    ensures terms_after { terms.new ≡ (each_of (open_of m).sequence (terms_in list.now)).sequence.terms }
{
    let mut s = Sequence::open(m).sequence;
    for i in 0..list.len() / 2 {
        if s.push(cells::cell(list, i)).is_err() {
            break;
        }
    }
    *terms = s.terms;
    s.count
}
