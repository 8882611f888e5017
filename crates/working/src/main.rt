// The working: queries on standard input, or typed lines where the one argument is "lines". For each the listing's line, whether that register is
// the only one, then the records of its steps as a table; or its refusal alone.
#![tactic(auto)]

ghost use Rattle.std.specs.Prelude.{◌≡◌, [], ◌∷◌, ◌≤◌};
ghost use Rattle.steps.specs.Sizes.{log_words};
ghost use Rattle.cells.specs.Cell.{equal};

use input::Typed;
use sequence::{A_BYTES, B_BYTES, QUERY_BYTES, Refusal, Sequence};
use std::env::{Env, FillError};
use std::io;
use std::io::{Read, Write};
use steps::{LOG, StepRecord};

fn row<W: Write>(out: &mut W, r: StepRecord) -> io::Result<()> {
    printing::number(out, u64::from(r.power))?;
    for n in [r.k, r.row, r.length, r.u, r.theta, r.g, r.case] {
        printing::field(out, u64::from(n))?;
    }
    printing::text(out, b"\n")
}

// The first records of a log.
fn table<W: Write>(out: &mut W, log: &[u64; LOG], count: usize) -> io::Result<()>
    requires { count ≤ log_words }
{
    printing::text(out, b"power k row length u theta g case\n")?;
    for i in 0..count {
        row(out, steps::entry(log, i))?;
    }
    Ok(())
}

// The register and the working. The log has room for every sheet, so that nothing is refused here that `accept` passes.
fn show<W: Write>(out: &mut W, s: &Sequence) -> io::Result<()> {
    let mut a = [0u8; A_BYTES];
    let mut b = [0u8; B_BYTES];
    let mut log = [0u64; LOG];
    let worked = s.work(&mut a, &mut b, LOG, &mut log);
    let reply = worked.map(|w| w.report);
    printing::line(out, &formatting::reported_line(s, reply, &a))?;
    printing::line(out, &formatting::uniqueness_line(reply))?;
    match worked {
        Ok(w) => table(out, &log, w.count),
        Err(_) => Ok(()),
    }
}

// A function of its own, so that a line is cleared only where there is a refusal.
fn refuse<W: Write>(out: &mut W, r: Refusal) -> io::Result<()> {
    printing::line(out, &formatting::refusal_line(r))
}

fn one<W: Write>(out: &mut W, query: &[u8]) -> io::Result<()> {
    match sequence::accept(query) {
        Ok(s) => show(out, &s),
        Err(r) => refuse(out, r),
    }
}

fn queries<R: Read, W: Write>(reader: &mut R, out: &mut W) -> io::Result<()> {
    printing::line(out, &formatting::header_line())?;
    let mut query = [0u8; QUERY_BYTES];
    input::each_block(reader, &mut query, |query| one(out, query))
}

fn answer<W: Write>(out: &mut W, line: &[u8]) -> io::Result<()> {
    let mut query = [0u8; QUERY_BYTES];
    match lines::read_line(line, &mut query) {
        Ok(()) => one(out, &query),
        Err(r) => refuse(out, r),
    }
}

fn typed_lines<R: Read, W: Write>(reader: &mut R, out: &mut W) -> io::Result<()> {
    printing::line(out, &formatting::header_line())?;
    input::each_line(reader, |typed| {
        match typed {
            Typed::Line(line) => answer(out, line)?,
            Typed::TooLong => refuse(out, Refusal::Buffer)?,
        }
        Ok(true)
    })
}

// What the arguments ask for.
enum Mode {
    Queries,
    Lines,
    Usage,
}

// Whether there is an argument at this place, however long it is.
fn is_given<E: Env>(env: &E, place: usize) -> bool {
    let mut none = [0u8; 0];
    !matches!(env.arg(place, &mut none), Err(FillError::NotPresent))
}

fn is_lines(word: &[u8]) -> bool
    ensures { result ≡ equal word.now (108 ∷ 105 ∷ 110 ∷ 101 ∷ 115 ∷ []) }
{
    cells::same(word, b"lines")
}

// Whether the first argument is "lines"; one that does not fit here is not.
fn wants_lines<E: Env>(env: &E) -> bool {
    let mut word = [0u8; 5];
    match env.arg(1, &mut word) {
        Ok(n) => is_lines(&word[..n]),
        Err(_) => false,
    }
}

fn wanted<E: Env>(env: &E) -> Mode {
    if !is_given(env, 1) {
        return Mode::Queries;
    }
    if !is_given(env, 2) && wants_lines(env) {
        return Mode::Lines;
    }
    Mode::Usage
}

fn main(rt: HostRuntime) -> io::Result<()> {
    let mut reader = rt.stdin();
    let mut out = rt.stdout();
    match wanted(&rt) {
        Mode::Queries => queries(&mut reader, &mut out),
        Mode::Lines => typed_lines(&mut reader, &mut out),
        Mode::Usage => eprintln!(rt; "usage: working [lines]"),
    }
}
