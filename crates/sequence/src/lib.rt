// A sequence of terms modulo m (the paper's reading): opening one, pushing a term, its register, its profile and the working of its
// register; what is wrong with one, and the query that writes one down.
#![tactic(auto)]

ghost use Rattle.std.specs.Prelude.{◌≡◌, ◌∷◌, ◌≤◌, ◌<◌, length, ◌++◌};
ghost use Rattle.cells.specs.Cell.{bytes_of};
ghost use Rattle.steps.specs.Sizes.{log_words};
ghost use Rattle.synthesis.specs.Synthesis.{synthesis_of};
ghost use Rattle.sequence.specs.Limits.{max_terms, max_cells, query_bytes, a_bytes, b_bytes, register_bytes};
ghost use Rattle.sequence.specs.Answers.{refusal, placed, outcome_answer, reported_answer};
ghost use Rattle.sequence.specs.Report.{uniqueness_by, report_of, report_answer, a_buffer, b_buffer, profile_of, profile_answer, filled, profile_buffer};
ghost use Rattle.sequence.specs.Trace.{records_of, trace_of, trace_answer, sheet_filled, words_of, work_of};
ghost use Rattle.sequence.specs.Rules.{IsSound, outside, first_large, zero_from, fault_of, is_sound, fresh, open_of, open_answer, push_of, push_answer, sequence_of, accepted_of, loaded_of, checked_of};

use steps::{CELLS, LOG, StepRecord, TERMS};
use synthesis::Synthesis;

// The largest modulus.
pub const MAX_MODULUS: u32 = 4095;

// The number of terms that there is room for, as counts and lengths are held.
pub const MAX_TERMS: u32 = TERMS as u32;

// The sizes of lent buffers in bytes, two for each cell. A query has the modulus and the count before its terms.
pub const QUERY_BYTES: usize = 2 * (2 + TERMS);

pub const A_BYTES: usize = 2 * CELLS;

pub const B_BYTES: usize = 2 * TERMS;

const PROFILE_BYTES: usize = 2 * CELLS;

// a, and b behind it.
const REGISTER_BYTES: usize = A_BYTES + B_BYTES;

// A reading: terms past the count are zero.
#[derive(Clone, Copy, Debug, PartialEq, Eq)]
pub struct Sequence {
    pub modulus: u32,
    pub count: u32,
    pub terms: [u32; TERMS],
}

// Why a call was not done, or the rest of a column. `Answers.refusal` has the paper's number of each. A wrong term, or digit of a period, has its place, counted from 0, and
// so have the byte that breaks a typed line's form, the digit that passes its range, and two terms that disagree.
#[derive(Clone, Copy, Debug, PartialEq, Eq)]
pub enum Refusal {
    Modulus,
    Count,
    Term(u32),
    Padding,
    Buffer,
    CandidateCoefficient,
    Sequence,
    Full,
    Catalogue,
    Record,
    CandidateLength,
    CandidateLead,
    LineForm(usize),
    LineRange(usize),
    CountsDiffer,
    MultipleAbove,
    TermsDisagree(u32),
    Period,
    Census,
    Batch,
}

// Whether the register is the only one of its length that generates the terms. It is told for a prime modulus, and for no other.
#[derive(Clone, Copy, Debug, PartialEq, Eq)]
pub enum Uniqueness {
    Sole,
    Several,
    NotTold,
}

// What is reported of a register: its length, and whether it is the only one.
#[derive(Clone, Copy, Debug, PartialEq, Eq)]
pub struct Report {
    pub length: u32,
    pub uniqueness: Uniqueness,
}

// A trace's report, and how many records it has for the sheet.
#[derive(Clone, Copy, Debug, PartialEq, Eq)]
pub struct Worked {
    pub report: Report,
    pub count: usize,
}

// A refused opening hands back a sequence of zeros (01), so that there is one on a refusal too.
#[derive(Clone, Copy, Debug, PartialEq, Eq)]
pub struct Opened {
    pub sequence: Sequence,
    pub outcome: Result<(), Refusal>,
}

// The sequence that a query writes down, and whether the query is refused.
#[derive(Clone, Copy, Debug, PartialEq, Eq)]
pub struct Checked {
    pub sequence: Sequence,
    pub outcome: Result<(), Refusal>,
}

// Whether a modulus lies outside the limits.
pub fn outside(modulus: u32) -> bool
    ensures { result ≡ outside modulus }
{
    modulus < 2 || MAX_MODULUS < modulus
}

// A sequence without terms.
fn fresh(modulus: u32) -> Sequence
    ensures { result ≡ fresh modulus }
{
    Sequence {
        modulus,
        count: 0,
        terms: [0; TERMS],
    }
}

// The first of n places whose term is not below the modulus; n where there is none, as the definition and the clause say.
fn first_large(terms: &[u32; TERMS], n: u32, modulus: u32) -> u32
    requires { (n ≤ max_terms) × (length terms.now ≡ max_terms) }
    ensures { result ≡ first_large modulus terms.now n }
{
    for i in 0..n {
        if modulus <= terms[i as usize] {
            return i;
        }
    }
    n
}

// Whether every term from place n on is zero.
fn zero_from(terms: &[u32; TERMS], n: u32) -> bool
    requires { (n ≤ max_terms) × (length terms.now ≡ max_terms) }
    ensures { result ≡ zero_from n max_terms terms.now }
{
    for i in n as usize..TERMS {
        if terms[i] != 0 {
            return false;
        }
    }
    true
}

// The sequence that a query of 260 bytes writes down: modulus, count, 128 terms.
fn load(query: &[u8]) -> Sequence
    requires { length query.now ≡ query_bytes }
    ensures { result ≡ sequence_of query.now }
{
    let mut terms = [0u32; TERMS];
    for i in 0..TERMS {
        terms[i] = cells::cell(query, 2 + i);
    }
    let modulus = cells::cell(query, 0);
    let count = cells::cell(query, 1);
    Sequence {
        modulus,
        count,
        terms,
    }
}

// The sequence that any query writes down, whatever is wrong with it. A query of another length writes none down: zeros.
pub fn loaded(query: &[u8]) -> Sequence
    ensures { result ≡ loaded_of query.now }
{
    if query.len() != QUERY_BYTES {
        return fresh(0);
    }
    load(query)
}

// The sequence of a query, or the query's first refusal among 5, 1, 2, 3, 4.
pub fn accept(query: &[u8]) -> Result<Sequence, Refusal>
    ensures { result ≡ accepted_of query.now }
{
    if query.len() != QUERY_BYTES {
        return Err(Refusal::Buffer);
    }
    let s = load(query);
    s.inspect()?;
    Ok(s)
}

// The sequence that any query writes down, with the query's first refusal among 5, 1, 2, 3, 4: for those who want the sequence of a refused one too.
pub fn check(query: &[u8]) -> Checked
    ensures { result ≡ checked_of query.now }
{
    let sequence = loaded(query);
    if query.len() != QUERY_BYTES {
        return Checked {
            sequence,
            outcome: Err(Refusal::Buffer),
        };
    }
    let outcome = sequence.inspect();
    Checked { sequence, outcome }
}

// Writes the coefficients of a as cells, and those of b: in a report, and in a record.
fn write_a(a: &[u32; CELLS], out: &mut [u8])
    requires { (length a.now ≡ max_cells) × (length out.old ≡ a_bytes) }
    ensures { out.new ≡ bytes_of a.now }
{
    cells::write(out, a);
}

fn write_b(b: &[u32; TERMS], out: &mut [u8])
    requires { (length b.now ≡ max_terms) × (length out.old ≡ b_bytes) }
    ensures { out.new ≡ bytes_of b.now }
{
    cells::write(out, b);
}

// Writes a to 258 bytes and b to the 256 after them: how a register stands in a record.
pub fn write_register(x: &Synthesis, out: &mut [u8])
    requires { (length x.now.a ≡ max_cells) × (length x.now.b ≡ max_terms) × (length out.old ≡ register_bytes) }
    ensures { out.new ≡ bytes_of x.now.a ++ bytes_of x.now.b }
{
    write_a(&x.a, &mut out[0..A_BYTES]);
    write_b(&x.b, &mut out[A_BYTES..REGISTER_BYTES]);
}

// Whether a register of length l, the least for n terms, is the only one. Modulo a prime it is where 2l ≤ n (the crate counting).
// Rejected: sole for 2l = n + 1; several for 2l = n.
fn uniqueness_of(prime: bool, n: u32, l: u32) -> Uniqueness
    requires { l ≤ max_terms }
    ensures { result ≡ uniqueness_by prime n l }
{
    if prime {
        if 2 * l <= n {
            return Uniqueness::Sole;
        }
        return Uniqueness::Several;
    }
    Uniqueness::NotTold
}

// Writes the register found for n terms, a to 129 cells and b to 128, and tells what is reported of it.
fn write_report(x: &Synthesis, n: u32, a: &mut [u8], b: &mut [u8]) -> Report
    requires { (length x.now.a ≡ max_cells) × (length x.now.b ≡ max_terms) × (x.now.length ≤ max_terms) × (length a.old ≡ a_bytes) × (length b.old ≡ b_bytes) }
    ensures { (result.length ≡ x.now.length) × (result.uniqueness ≡ uniqueness_by x.now.prime n x.now.length)
        × (a.new ≡ bytes_of x.now.a) × (b.new ≡ bytes_of x.now.b) }
{
    write_a(&x.a, a);
    write_b(&x.b, b);
    let uniqueness = uniqueness_of(x.prime, n, x.length);
    Report {
        length: x.length,
        uniqueness,
    }
}

impl Refusal {
    // The paper's number of a refusal.
    pub fn number(self) -> u64
        ensures { (result ≡ (refusal self).number) × (result < 256) }
    {
        match self {
            Refusal::Modulus => 1,
            Refusal::Count => 2,
            Refusal::Term(_) => 3,
            Refusal::Padding => 4,
            Refusal::Buffer => 5,
            Refusal::CandidateCoefficient => 6,
            Refusal::Sequence => 21,
            Refusal::Full => 22,
            Refusal::Catalogue => 23,
            Refusal::Record => 24,
            Refusal::CandidateLength => 25,
            Refusal::CandidateLead => 26,
            Refusal::LineForm(_) => 27,
            Refusal::LineRange(_) => 28,
            Refusal::CountsDiffer => 29,
            Refusal::MultipleAbove => 30,
            Refusal::TermsDisagree(_) => 31,
            Refusal::Period => 32,
            Refusal::Census => 33,
            Refusal::Batch => 34,
        }
    }

    // The place that a refusal carries.
    pub fn place(self) -> Option<usize>
        ensures { placed result ≡ (refusal self).values }
    {
        match self {
            Refusal::Term(i) => Some(i as usize),
            Refusal::LineForm(i) => Some(i),
            Refusal::LineRange(i) => Some(i),
            Refusal::TermsDisagree(i) => Some(i as usize),
            _ => None,
        }
    }
}

impl Sequence {
    // A fresh sequence for a modulus within the limits; else one of zeros, with the refusal.
    // Rejected: an open that takes 4,096; one that refuses 1 but hands back a sequence modulo 1.
    pub fn open(modulus: u32) -> Opened
        ensures value { result ≡ open_of modulus }
        ensures outcome_value { outcome_answer result.outcome ≡ open_answer modulus }
    {
        if outside(modulus) {
            let zeros = fresh(0);
            return Opened {
                sequence: zeros,
                outcome: Err(Refusal::Modulus),
            };
        }
        let s = fresh(modulus);
        Opened {
            sequence: s,
            outcome: Ok(()),
        }
    }

    // The first thing wrong with a sequence, as the refusal of a query that writes it down: 1, 2, 3, 4, in this order.
    fn inspect(&self) -> Result<(), Refusal>
        ensures { result ≡ fault_of self.now }
    {
        let m = self.modulus;
        let n = self.count;
        if outside(m) {
            return Err(Refusal::Modulus);
        }
        if MAX_TERMS < n {
            return Err(Refusal::Count);
        }
        let i = first_large(&self.terms, n, m);
        if i < n {
            return Err(Refusal::Term(i));
        }
        if zero_from(&self.terms, n) {
            return Ok(());
        }
        Err(Refusal::Padding)
    }

    // Whether a sequence is within the limits: nothing is wrong with it.
    pub fn is_sound(&self) -> bool
        ensures { result ≡ is_sound (fault_of self.now) }
    {
        self.inspect().is_ok()
    }

    // One more term at the end; the sequence stays as it is, with the refusal, where it is unsound or full or the term is too large. The place
    // of such a term is the one that it would have had.
    // The whole sequence is inspected at each call: its fields are public, so that anyone can hand in one that no call made.
    // Rejected: a push that is full at 127 terms; one that stores a term and then refuses it.
    pub fn push(&mut self, term: u32) -> Result<(), Refusal>
        ensures value { result ≡ (push_of self.old term).outcome }
        ensures self_after { self.new ≡ (push_of self.old term).sequence }
        ensures result_value { outcome_answer result ≡ push_answer self.old term }
    {
        if !self.is_sound() {
            return Err(Refusal::Sequence);
        }
        let n = self.count;
        if n == MAX_TERMS {
            return Err(Refusal::Full);
        }
        if self.modulus <= term {
            return Err(Refusal::Term(n));
        }
        self.terms[n as usize] = term;
        self.count = n + 1;
        Ok(())
    }

    // Writes the query that writes the sequence down, sound or not.
    pub fn write(&self, query: &mut [u8])
        requires { (length self.now.terms ≡ max_terms) × (length query.old ≡ query_bytes) }
        ensures { query.new ≡ bytes_of (self.now.modulus ∷ self.now.count ∷ self.now.terms) }
    {
        cells::put(query, 0, self.modulus);
        cells::put(query, 1, self.count);
        cells::write(&mut query[4..], &self.terms);
    }

    // The register and the profile of a sound sequence.
    pub fn solve(&self) -> Synthesis
        requires { IsSound self.now }
        ensures { result ≡ synthesis_of self.now.modulus self.now.terms self.now.count }
    {
        synthesis::synthesize(self.modulus, &self.terms, self.count as usize)
    }

    // Writes the shortest register of the terms, a to 129 cells and b to 128, and replies its length and whether it is the only one.
    // Rejected: one that leaves the cells as lent; one that writes a = 1 for every sequence.
    pub fn register(&self, a: &mut [u8], b: &mut [u8]) -> Result<Report, Refusal>
        ensures value { result ≡ report_of self.now a.old b.old }
        ensures a_after { a.new ≡ filled result (a_buffer self.now) a.old }
        ensures b_after { b.new ≡ filled result (b_buffer self.now) b.old }
        ensures result_value { reported_answer result ≡ report_answer self.now a.old b.old }
    {
        if a.len() != A_BYTES {
            return Err(Refusal::Buffer);
        }
        if b.len() != B_BYTES {
            return Err(Refusal::Buffer);
        }
        if self.is_sound() {
            let x = self.solve();
            return Ok(write_report(&x, self.count, a, b));
        }
        Err(Refusal::Sequence)
    }

    // All that `trace` does but storing the records, for a sheet of `room` records: they are words of the log.
    pub fn work(
        &self,
        a: &mut [u8],
        b: &mut [u8],
        room: usize,
        log: &mut [u64; LOG],
    ) -> Result<Worked, Refusal>
        requires { length log.old ≡ log_words }
        ensures { (result ≡ work_of self.now a.old b.old room)
            × (a.new ≡ filled result (a_buffer self.now) a.old)
            × (b.new ≡ filled result (b_buffer self.now) b.old)
            × (log.new ≡ sheet_filled result (words_of self.now) log.old) }
    {
        if a.len() != A_BYTES {
            return Err(Refusal::Buffer);
        }
        if b.len() != B_BYTES {
            return Err(Refusal::Buffer);
        }
        if self.is_sound() {
            let n = self.count as usize;
            let count = n * synthesis::count_rows(self.modulus);
            if room < count {
                return Err(Refusal::Buffer);
            }
            let x = synthesis::trace(self.modulus, &self.terms, n, log);
            let report = write_report(&x, self.count, a, b);
            return Ok(Worked { report, count });
        }
        Err(Refusal::Sequence)
    }

    // Does what `register` does, and fills a sheet with the working: one record for each row at each step, primes rising, then k, then the
    // row. Only this function holds the slice of structs.
    // Rejected: one that tells the length after the step; one that takes a sheet with one record too few; one that writes past the last record.
    pub fn trace(
        &self,
        a: &mut [u8],
        b: &mut [u8],
        sheet: &mut [StepRecord],
    ) -> Result<Report, Refusal>
        ensures { (result ≡ trace_of self.now a.old b.old (length sheet.old))
            × (a.new ≡ filled result (a_buffer self.now) a.old)
            × (b.new ≡ filled result (b_buffer self.now) b.old)
            × (sheet.new ≡ sheet_filled result (records_of self.now) sheet.old)
            × (reported_answer result ≡ trace_answer self.now a.old b.old (length sheet.old)) }
    {
        let mut log = [0u64; LOG];
        let w = self.work(a, b, sheet.len(), &mut log)?;
        for i in 0..w.count {
            sheet[i] = steps::entry(&log, i);
        }
        Ok(w.report)
    }

    // Writes the linear complexity of the first 0, 1, .. terms to 129 cells, zero past the count.
    // Rejected: one that writes n for every length; one that leaves the cell of the last term out.
    pub fn profile(&self, cells: &mut [u8]) -> Result<(), Refusal>
        ensures value { result ≡ profile_of self.now cells.old }
        ensures cells_after { cells.new ≡ filled result (profile_buffer self.now) cells.old }
        ensures result_value { outcome_answer result ≡ profile_answer self.now cells.old }
    {
        if cells.len() != PROFILE_BYTES {
            return Err(Refusal::Buffer);
        }
        if self.is_sound() {
            let x = self.solve();
            cells::write(cells, &x.lengths);
            return Ok(());
        }
        Err(Refusal::Sequence)
    }
}
