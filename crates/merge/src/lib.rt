// Two queries of the same sequence modulo two moduli, merged to one query modulo their least common multiple.
#![tactic(auto)]

ghost use Rattle.std.specs.Prelude.{◌≡◌, Ok, ℕ, ◌*◌, ◌%◌, ◌≤◌, ◌<◌, length};
ghost use Rattle.lists.specs.Table.{at, tabulate};
ghost use Rattle.residue.specs.Remainders.{joined, two};
ghost use Rattle.residue.specs.Units.{Coprime, inverse};
ghost use Rattle.sequence.specs.Answers.{outcome_answer};
ghost use Rattle.sequence.specs.Limits.{max_terms, query_bytes};
ghost use Rattle.sequence.specs.Report.{filled};
ghost use Rattle.sequence.specs.Rules.{IsSound, query_of};
ghost use Rattle.merge.specs.Rules.{divisor_of, merged_query, first_apart, compared_by, compared_of, past_buffers, merge_of, merge_answer, merged_in};

use sequence::{QUERY_BYTES, Refusal, Sequence};
use steps::TERMS;

// The first of n places where the terms disagree modulo g; n where there is none, as the definition and the clause say.
fn first_apart(xs: &[u32; TERMS], ys: &[u32; TERMS], n: u32, g: u32) -> u32
    requires { (n ≤ max_terms) × (0 < g) × (length xs.now ≡ max_terms) × (length ys.now ≡ max_terms) }
    ensures { result ≡ first_apart g xs.now ys.now n }
{
    for i in 0..n {
        if xs[i as usize] % g != ys[i as usize] % g {
            return i;
        }
    }
    n
}

// The refusal of two sequences by what is wrong with them, in the order 29, 30, 31: the counts, the multiple, the terms at place i.
fn first_refusal(differ: bool, above: bool, apart: bool, i: u32) -> Result<(), Refusal>
    ensures { result ≡ compared_by differ above apart i }
{
    if differ {
        return Err(Refusal::CountsDiffer);
    }
    if above {
        return Err(Refusal::MultipleAbove);
    }
    if apart {
        return Err(Refusal::TermsDisagree(i));
    }
    Ok(())
}

// Whether two sequences can be merged; g is the common divisor of their moduli. Their multiple is the first modulus times what g leaves of
// the second: below 2^32, for moduli up to 65,535 too.
fn compare(s: &Sequence, t: &Sequence, g: u32) -> Result<(), Refusal>
    requires { IsSound s.now × IsSound t.now × (g ≡ divisor_of s.now t.now) }
    ensures { result ≡ compared_of s.now t.now }
{
    let n = s.count;
    let differ = n != t.count;
    let above = sequence::MAX_MODULUS < s.modulus * (t.modulus / g);
    let i = first_apart(&s.terms, &t.terms, n, g);
    first_refusal(differ, above, i < n, i)
}

// Two moduli mu g and nu g, mu and nu coprime, their least common multiple and their joiner: taken once for all terms.
#[derive(Clone, Copy)]
struct Moduli {
    multiple: u32,
    mu: u32,
    nu: u32,
    g: u32,
    joiner: u32,
}

// The n merged terms; zero past them.
fn merged_terms(xs: &[u32; TERMS], ys: &[u32; TERMS], n: u32, m: Moduli) -> [u32; TERMS]
    requires xs_len { (length xs.now ≡ max_terms) × (length ys.now ≡ max_terms) × (n ≤ max_terms) }
    requires multiple_value { (m.multiple ≡ m.mu * m.nu * m.g) × (m.multiple < 65536) × Coprime m.mu m.nu × (m.joiner ≡ inverse m.nu m.mu) }
    requires by_index { (i : ℕ) → i < n → (at xs.now i < m.mu * m.g) × (at ys.now i < m.nu * m.g) × (at xs.now i % m.g ≡ at ys.now i % m.g) }
    ensures { result ≡ tabulate max_terms
        (at (tabulate n (λ i. joined m.multiple (two (m.mu * m.g) (at xs.now i) (m.nu * m.g) (at ys.now i))))) }
{
    let mut terms = [0u32; TERMS];
    for i in 0..n as usize {
        terms[i] = residue::meet(xs[i], ys[i], m.mu, m.nu, m.g, m.joiner);
    }
    terms
}

// Writes the query of two sequences that can be merged; g is the common divisor of their moduli.
fn write_merged(s: &Sequence, t: &Sequence, g: u32, query: &mut [u8])
    requires { IsSound s.now × IsSound t.now × (g ≡ divisor_of s.now t.now) × (compared_of s.now t.now ≡ Ok tt) × (length query.old ≡ query_bytes) }
    ensures { query.new ≡ merged_query s.now t.now }
{
    let mu = s.modulus / g;
    let nu = t.modulus / g;
    let multiple = s.modulus * nu;
    let joiner = residue::joiner(mu, nu);
    let m = Moduli {
        multiple,
        mu,
        nu,
        g,
        joiner,
    };
    let merged = Sequence {
        modulus: multiple,
        count: s.count,
        terms: merged_terms(&s.terms, &t.terms, s.count, m),
    };
    merged.write(query);
}

// Merges two sequences that meet no refusal of their own.
fn merge_sound(s: &Sequence, t: &Sequence, query: &mut [u8]) -> Result<(), Refusal>
    requires { IsSound s.now × IsSound t.now × (length query.old ≡ query_bytes) }
    ensures value { result ≡ compared_of s.now t.now }
    ensures query_after { query.new ≡ filled result (merged_query s.now t.now) query.old }
{
    let g = residue::common_divisor(s.modulus, t.modulus);
    compare(s, t, g)?;
    write_merged(s, t, g, query);
    Ok(())
}

// Merges two queries of 260 bytes: the first one's own refusals, then the second's.
fn merge_checked(first: &[u8], second: &[u8], query: &mut [u8]) -> Result<(), Refusal>
    requires { length query.old ≡ query_bytes }
    ensures value { result ≡ past_buffers first.now second.now }
    ensures query_after { query.new ≡ merged_in result first.now second.now query.old }
{
    let s = sequence::accept(first)?;
    let t = sequence::accept(second)?;
    merge_sound(&s, &t, query)
}

// Merges two queries of the same sequence to one modulo the least common multiple of their moduli; as lent where it is refused.
// Rejected: the product for the multiple; terms compared modulo the smaller modulus; 31 before 30; the second query's 1 before the first's 4;
// the last place for 31.
pub fn merge(first: &[u8], second: &[u8], query: &mut [u8]) -> Result<(), Refusal>
    ensures value { result ≡ merge_of first.now second.now query.old }
    ensures query_after { query.new ≡ merged_in result first.now second.now query.old }
    ensures result_value { outcome_answer result ≡ merge_answer first.now second.now query.old }
{
    if first.len() != QUERY_BYTES {
        return Err(Refusal::Buffer);
    }
    if second.len() != QUERY_BYTES {
        return Err(Refusal::Buffer);
    }
    if query.len() != QUERY_BYTES {
        return Err(Refusal::Buffer);
    }
    merge_checked(first, second, query)
}
