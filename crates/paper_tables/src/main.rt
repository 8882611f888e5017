// Tables 1 and 2 of Reeds and Sloane, section 6: the steps on 6, 3, 1, 5, 6 modulo 9. Then case 15 of the scope: 128 terms and no more.
//
// The file `stdout` is typed from the papers, not from what is written here: polynomials as lists of coefficients from place 0 on, the
// quintuples with spaces. One place differs: at k = 0 Table 2 has the f of the longer version of the steps, which is not the one proved,
// and a star stands for it.
#![tactic(auto)]

ghost use Rattle.std.specs.Prelude.{◌≤◌, ◌<◌, length};
ghost use Rattle.steps.specs.Sizes.{max_terms, max_cells};
ghost use Rattle.steps.specs.Run.{Below};

use catalogue::RECORD_BYTES;
use sequence::{A_BYTES, B_BYTES, QUERY_BYTES, Refusal, Sequence};
use std::io;
use std::io::Write;
use steps::{CELLS, LOG, Ring, Rows, StepRecord, TERMS};

// The number of terms.
const COUNT: usize = 5;

// k and eta, which stand before each line.
fn place<W: Write>(out: &mut W, k: u64, eta: u64) -> io::Result<()> {
    printing::number(out, k)?;
    printing::field(out, eta)?;
    printing::text(out, b" ")
}

// How many coefficients are printed: all up to the last that is not 0, and at least one.
fn shown(x: &[u32]) -> usize
    requires { 0 < length x.now }
    ensures { (0 < result) × (result ≤ length x.now) }
{
    x.iter().rposition(|c| *c != 0).map_or(1, |i| i + 1)
}

// Coefficients, with commas between.
fn polynomial<W: Write>(out: &mut W, x: &[u32]) -> io::Result<()>
    requires { 0 < length x.now }
{
    let n = shown(x);
    printing::number(out, u64::from(x[0]))?;
    for c in &x[1..n] {
        printing::text(out, b",")?;
        printing::number(out, u64::from(*c))?;
    }
    Ok(())
}

// A line of Table 1: a and b of row eta before step k.
fn pair<W: Write>(
    out: &mut W,
    k: usize,
    eta: usize,
    s: &[u32; TERMS],
    a: &[u32; CELLS],
    l: usize,
    q: u32,
) -> io::Result<()>
    requires { (l ≤ max_terms) × (0 < q) × Below max_cells 65536 a.now × Below max_terms 65536 s.now }
{
    place(out, k as u64, eta as u64)?;
    polynomial(out, a)?;
    printing::text(out, b" ")?;
    let b = synthesis::start_cells(a, s, l, q);
    polynomial(out, &b)?;
    printing::text(out, b"\n")
}

fn pairs<W: Write>(out: &mut W, k: usize, s: &[u32; TERMS], ring: Ring) -> io::Result<()>
    requires { Below max_terms 65536 s.now × (k < max_terms) }
{
    let rows = Rows::before(s, k, ring);
    for i in 0..ring.e {
        let l = rows.length[i];
        pair(out, k, i, s, &rows.a[i], l, ring.q)?;
    }
    Ok(())
}

// Table 1: the rows' pairs before each step, and after the last.
fn table_1<W: Write>(out: &mut W, s: &[u32; TERMS], ring: Ring) -> io::Result<()>
    requires { Below max_terms 65536 s.now }
{
    printing::text(out, b"Table 1\nk eta a b\n")?;
    for k in 0..=COUNT {
        pairs(out, k, s, ring)?;
    }
    Ok(())
}

// f, which is the record's g, and the case. At k = 0 the table has no case.
fn case<W: Write>(out: &mut W, r: StepRecord) -> io::Result<()> {
    match (r.k, r.case) {
        (0, _) => printing::text(out, b" * *"),
        (_, 1) => printing::text(out, b" * I"),
        (_, case) => {
            printing::field(out, u64::from(r.g))?;
            printing::text(out, if case == 2 { b" IIa" } else { b" IIb" })
        }
    }
}

// A line of Table 2: l, u, theta, f and the case of row eta at step k.
fn quintuple<W: Write>(out: &mut W, r: StepRecord) -> io::Result<()> {
    place(out, u64::from(r.k), u64::from(r.row))?;
    printing::number(out, u64::from(r.length))?;
    printing::field(out, u64::from(r.u))?;
    printing::field(out, u64::from(r.theta))?;
    case(out, r)?;
    printing::text(out, b"\n")
}

// The lines of all steps, from the sheet of the sequence.
fn quintuples<W: Write>(out: &mut W, s: &Sequence) -> io::Result<()> {
    let mut a = [0u8; A_BYTES];
    let mut b = [0u8; B_BYTES];
    let mut log = [0u64; LOG];
    // It is not refused: the sequence is sound, and the log has room for every sheet.
    if let Ok(worked) = s.work(&mut a, &mut b, LOG, &mut log) {
        for i in 0..worked.count {
            quintuple(out, steps::entry(&log, i))?;
        }
    }
    Ok(())
}

// The line of row eta after the last term: its length.
fn ended<W: Write>(out: &mut W, eta: usize, l: usize) -> io::Result<()> {
    place(out, COUNT as u64, eta as u64)?;
    printing::number(out, l as u64)?;
    printing::text(out, b" * * * *\n")
}

// The lengths after the last term. There is no step that sees them, so that they stand in no record.
fn lengths<W: Write>(out: &mut W, s: &[u32; TERMS], ring: Ring) -> io::Result<()>
    requires { Below max_terms 65536 s.now }
{
    let rows = Rows::before(s, COUNT, ring);
    for i in 0..ring.e {
        ended(out, i, rows.length[i])?;
    }
    Ok(())
}

// Table 2: the quintuples at each step, and the lengths after the last.
fn table_2<W: Write>(out: &mut W, s: &[u32; TERMS], ring: Ring) -> io::Result<()>
    requires { Below max_terms 65536 s.now }
{
    printing::text(out, b"Table 2\nk eta l u theta f case\n")?;
    let sequence = Sequence {
        modulus: ring.q,
        count: COUNT as u32,
        terms: *s,
    };
    quintuples(out, &sequence)?;
    lengths(out, s, ring)
}

// What a call answered.
fn told<W: Write>(out: &mut W, answer: Result<(), Refusal>) -> io::Result<()> {
    match answer {
        Ok(()) => printing::text(out, b"done"),
        Err(r) => printing::refused(out, r),
    }
}

// Pushes up to 129 terms and stops at the first refusal: how many were taken, and the refusal.
fn fill<W: Write>(out: &mut W) -> io::Result<()> {
    let mut s = Sequence::open(2).sequence;
    for taken in 0..=TERMS {
        if let Err(r) = s.push(1) {
            printing::number(out, taken as u64)?;
            printing::text(out, b" terms taken, then ")?;
            return printing::refused(out, r);
        }
    }
    Ok(())
}

// The record of a query with modulus 2 and count 129.
fn overfull<W: Write>(out: &mut W) -> io::Result<()> {
    let mut query = [0u8; QUERY_BYTES];
    query[0] = 2;
    query[2] = 129;
    let mut entry = [0u8; RECORD_BYTES];
    told(out, catalogue::synthesize(&query, &mut entry))
}

// Case 15: 128 terms are taken, the 129th gets 22; a query with count 129 gets 2.
fn case_15<W: Write>(out: &mut W) -> io::Result<()> {
    printing::text(out, b"case 15: ")?;
    fill(out)?;
    printing::text(out, b"; count 129 ")?;
    overfull(out)?;
    printing::text(out, b"\n")
}

fn main(rt: HostRuntime) -> io::Result<()> {
    let mut out = rt.stdout();
    let mut s = [0u32; TERMS];
    s[..COUNT].copy_from_slice(&[6, 3, 1, 5, 6]);
    let ring = Ring::new(3, 2, 9);
    table_1(&mut out, &s, ring)?;
    table_2(&mut out, &s, ring)?;
    case_15(&mut out)
}
