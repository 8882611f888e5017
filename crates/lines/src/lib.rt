// Typed lines: "mod 9: 6,3,1,-4,6" is read into the query that a person would write by hand. The reading is an automaton over classes of
// bytes, beside it the number that is being read; specs/Form has the form of a line as a grammar.
#![tactic(auto)]

ghost use Rattle.std.specs.Prelude.{◌≡◌, true, ◌∷◌, ◌+◌, ◌*◌, ◌-◌, ◌^◌, ◌≤◌, ◌<◌, eqb, ltb, pos, length, get_or, replicate};
ghost use Rattle.lists.specs.Choice.{pick};
ghost use Rattle.lists.specs.Table.{tabulate};
ghost use Rattle.residue.specs.Signed.{residue_of};
ghost use Rattle.cells.specs.Cell.{bytes_of};
ghost use Rattle.sequence.specs.Limits.{max_terms, query_bytes};
ghost use Rattle.sequence.specs.Answers.{outcome_answer};
ghost use Rattle.sequence.specs.Report.{filled};
ghost use Rattle.lines.specs.Form.{is_digit, signed, limit};
ghost use Rattle.lines.specs.Reading.{class_of, goes, meets, state_after, may_end, is_wrong, in_term, step_of, found_in};
ghost use Rattle.lines.specs.Reply.{reply_to, read_of, read_answer, query_in};
ghost use Rattle.lines.specs.Scan.{scanned_of, Kept, count_ended, array_ended};

use sequence::{QUERY_BYTES, Refusal};
use steps::TERMS;

#[derive(Clone, Copy)]
enum Class {
    Digit,
    Comma,
    Minus,
    Blank,
    Other,
}

// Where in a line the reading stands.
#[derive(Clone, Copy)]
enum State {
    Start,
    AfterM,
    AfterO,
    AfterD,
    BeforeModulus,
    InModulus,
    // After the colon, where the line may end.
    BeforeTerms,
    AfterMinus,
    InTerm,
    AfterTerm,
    AfterComma,
    // No line begins with the bytes so far.
    Wrong,
}

// What is known where the reading stands: the state, the number that is being read and its sign, and the modulus.
#[derive(Clone, Copy)]
struct Cursor {
    state: State,
    minus: bool,
    size: u64,
    modulus: u32,
}

// The highest number, and the highest after a minus.
const HIGHEST: u64 = 2147483647;

const HIGHEST_AFTER_MINUS: u64 = 2147483648;

fn class_of(b: u8) -> Class
    ensures { result ≡ class_of b }
{
    match b {
        b'0'..=b'9' => Class::Digit,
        b',' => Class::Comma,
        b'-' => Class::Minus,
        b' ' => Class::Blank,
        _ => Class::Other,
    }
}

// Whether a byte is a digit.
pub fn is_digit(b: u8) -> bool
    ensures { result ≡ is_digit b }
{
    b.is_ascii_digit()
}

// The state after a byte of that class, of those after a digit, a comma, a minus and a blank.
fn goes(digit: State, comma: State, minus: State, blank: State, k: Class) -> State
    ensures { result ≡ goes digit comma minus blank k }
{
    match k {
        Class::Digit => digit,
        Class::Comma => comma,
        Class::Minus => minus,
        Class::Blank => blank,
        Class::Other => State::Wrong,
    }
}

// The fixed text and the colon are met as themselves; any other byte leads to q.
fn meets(b: u8, x: u8, next: State, q: State) -> State
    ensures { result ≡ meets b x next q }
{
    if b == x { next } else { q }
}

// The state after a byte.
fn state_after(p: State, b: u8) -> State
    ensures { result ≡ state_after p b }
{
    let no = State::Wrong;
    let k = class_of(b);
    match p {
        State::Start => meets(b, b'm', State::AfterM, no),
        State::AfterM => meets(b, b'o', State::AfterO, no),
        State::AfterO => meets(b, b'd', State::AfterD, no),
        State::AfterD => meets(b, b' ', State::BeforeModulus, no),
        State::BeforeModulus => goes(State::InModulus, no, no, no, k),
        State::InModulus => {
            let q = goes(State::InModulus, no, no, no, k);
            meets(b, b':', State::BeforeTerms, q)
        }
        State::BeforeTerms => goes(State::InTerm, no, State::AfterMinus, State::BeforeTerms, k),
        State::AfterMinus => goes(State::InTerm, no, no, no, k),
        State::InTerm => goes(State::InTerm, State::AfterComma, no, State::AfterTerm, k),
        State::AfterTerm => goes(no, State::AfterComma, no, State::AfterTerm, k),
        State::AfterComma => goes(State::InTerm, no, State::AfterMinus, State::AfterComma, k),
        State::Wrong => no,
    }
}

// Whether a line may end here.
fn may_end(p: State) -> bool
    ensures { result ≡ may_end p }
{
    matches!(p, State::BeforeTerms | State::InTerm | State::AfterTerm)
}

fn is_wrong(p: State) -> bool
    ensures { result ≡ is_wrong p }
{
    matches!(p, State::Wrong)
}

fn in_term(p: State) -> bool
    ensures { result ≡ in_term p }
{
    matches!(p, State::InTerm)
}

fn is_minus(b: u8) -> bool
    ensures { result ≡ eqb b 45 }
{
    b == b'-'
}

// A number with one more digit.
fn grown(size: u64, b: u8) -> u64
    requires { (size ≤ limit true) × (is_digit b ≡ true) }
    ensures { result ≡ 10 * size + (b - 48) }
{
    10 * size + u64::from(b - b'0')
}

// At the colon the number is the modulus.
fn modulus_after(c: Cursor, b: u8) -> u32
    requires { c.size ≤ limit true }
    ensures { result ≡ pick (eqb b 58) c.size c.modulus }
{
    if b == b':' {
        return c.size as u32;
    }
    c.modulus
}

// One byte further. The number grows by a digit; any other byte ends it.
fn advance(c: Cursor, b: u8) -> Cursor
    requires { c.size ≤ limit true }
    ensures { result ≡ step_of c b }
{
    let state = c.state;
    let next = state_after(state, b);
    let modulus = modulus_after(c, b);
    if is_digit(b) {
        let size = grown(c.size, b);
        return Cursor {
            state: next,
            minus: c.minus,
            size: size,
            modulus: modulus,
        };
    }
    let minus = is_minus(b);
    Cursor {
        state: next,
        minus: minus,
        size: 0,
        modulus: modulus,
    }
}

// Whether the number is past its range.
fn is_past(c: Cursor) -> bool
    ensures { result ≡ ltb (limit c.minus) c.size }
{
    if c.minus {
        return HIGHEST_AFTER_MINUS < c.size;
    }
    HIGHEST < c.size
}

// The typed term. One below zero is made from -1, so that the lowest value is met.
fn typed(minus: bool, size: u64) -> i32
    requires { size ≤ limit minus }
    ensures { result ≡ signed minus size }
{
    if minus {
        if size == 0 {
            return 0;
        }
        let n = (size - 1) as i32;
        return -1 - n;
    }
    size as i32
}

// A term that ends here joins the others; past the 128th they are only counted.
fn end_term(c: Cursor, n: usize, terms: &mut [i32; TERMS]) -> usize
    requires { (c.size ≤ limit c.minus) × (length terms.old ≡ max_terms) × (n + 1 < 2 ^ 64) }
    ensures { (result ≡ count_ended c n) × (terms.new ≡ array_ended c n terms.old) }
{
    let state = c.state;
    if in_term(state) {
        if TERMS <= n {
            // Only counted. (Not n + 1, so that an edit that must fail finds this line.)
            return 1 + n;
        }
        terms[n] = typed(c.minus, c.size);
        return n + 1;
    }
    n
}

// What a byte does to the terms: a digit nothing, any other ends the one before it.
fn keep(c: Cursor, b: u8, n: usize, terms: &mut [i32; TERMS]) -> usize
    requires { (c.size ≤ limit c.minus) × (length terms.old ≡ max_terms) × (n + 1 < 2 ^ 64) }
    ensures { (result ≡ pick (is_digit b) n (count_ended c n)) × (terms.new ≡ pick (is_digit b) terms.old (array_ended c n terms.old)) }
{
    if is_digit(b) {
        return n;
    }
    end_term(c, n, terms)
}

// Reads a line to its end, or to the first byte that breaks its form or passes a range: its modulus and how many terms it has. The first 128
// terms go to an array of zeros.
fn scan(line: &[u8], terms: &mut [i32; TERMS]) -> Result<(u32, usize), Refusal>
    requires { terms.old ≡ replicate max_terms (pos 0) }
    ensures value { result ≡ scanned_of (found_in line.now) }
    ensures kept { Kept (found_in line.now) terms.new }
{
    let mut c = Cursor {
        state: State::Start,
        minus: false,
        size: 0,
        modulus: 0,
    };
    let mut n: usize = 0;
    for (i, &b) in line.iter().enumerate() {
        let next = advance(c, b);
        let state = next.state;
        if is_wrong(state) {
            return Err(Refusal::LineForm(i));
        }
        if is_past(next) {
            return Err(Refusal::LineRange(i));
        }
        n = keep(c, b, n, terms);
        c = next;
    }
    let state = c.state;
    if may_end(state) {
        let count = end_term(c, n, terms);
        return Ok((c.modulus, count));
    }
    Err(Refusal::LineForm(line.len()))
}

// The remainder of a term. 0, as in every place past the last term, takes no division.
fn residue_of(t: i32, m: u32) -> u32
    requires { 0 < m }
    ensures { result ≡ residue_of m t }
{
    if t == 0 {
        return 0;
    }
    residue::of_signed(t, m)
}

// Writes the modulus, the count and the terms' remainders. Not by `Sequence::write`: a sequence would more than double the stack of the call.
fn write_query(m: u32, n: u32, terms: &[i32; TERMS], query: &mut [u8])
    requires { (0 < m) × (length terms.now ≡ max_terms) × (length query.old ≡ query_bytes) }
    ensures { query.new ≡ bytes_of (m ∷ n ∷ tabulate max_terms (λ j. residue_of m (get_or terms.now j (pos 0)))) }
{
    cells::put(query, 0, m);
    cells::put(query, 1, n);
    for j in 0..TERMS {
        let r = residue_of(terms[j], m);
        cells::put(query, 2 + j, r);
    }
}

// The last checks of a line that reads well, and its query.
fn fill(modulus: u32, n: usize, terms: &[i32; TERMS], query: &mut [u8]) -> Result<(), Refusal>
    requires { (length terms.now ≡ max_terms) × (length query.old ≡ query_bytes) }
    ensures value { result ≡ reply_to modulus n }
    ensures query_after { query.new ≡ filled result (bytes_of (modulus ∷ n ∷ tabulate max_terms (λ j. residue_of modulus (get_or terms.now j (pos 0))))) query.old }
{
    if sequence::outside(modulus) {
        return Err(Refusal::Modulus);
    }
    if TERMS < n {
        return Err(Refusal::Count);
    }
    write_query(modulus, n as u32, terms, query);
    Ok(())
}

// The query of a typed line; as lent where the line is refused. The line is read to its end before 1 and 2 are looked at.
// Rejected: -1 as 1; a blank inside a number; 1 before a later 27; terms past the 128th dropped in silence.
pub fn read_line(line: &[u8], query: &mut [u8]) -> Result<(), Refusal>
    ensures value { result ≡ read_of line.now query.old }
    ensures query_after { query.new ≡ filled result (query_in (found_in line.now)) query.old }
    ensures result_value { outcome_answer result ≡ read_answer line.now query.old }
{
    if query.len() != QUERY_BYTES {
        return Err(Refusal::Buffer);
    }
    let mut terms = [0i32; TERMS];
    let (modulus, n) = scan(line, &mut terms)?;
    fill(modulus, n, &terms, query)
}
