// The listing's lines, and the line of a working that says whether a register is the only one; the census's lines, and the reading of a typed
// line that asks for one. A line is made in a buffer of its own with room for the longest.
#![tactic(auto, unfolding(lists::specs::Text::bytes))]

ghost use Rattle.std.specs.Prelude.{◌≡◌, ◌==◌, ℕ, List, [], ◌∷◌, ◌++◌, ◌+◌, ◌*◌, ◌-◌, ◌≤◌, ◌<◌, length, take, drop, replicate, position};
ghost use Rattle.lists.specs.Table.{tabulate};
ghost use Rattle.lists.specs.Text.{bytes};
ghost use Rattle.cells.specs.Cell.{cell_at};
ghost use Rattle.recurrence.specs.Polynomial.{degree};
ghost use Rattle.sequence.specs.Limits.{a_bytes};
ghost use Rattle.sequence.specs.Answers.{placed};
ghost use Rattle.enumeration.specs.Rules.{lengths, tally_bytes};
ghost use Rattle.candidate.specs.Rules.{a_cells};
ghost use Rattle.catalogue.specs.Rules.{record_bytes};
ghost use Rattle.formatting.specs.Text.{numeral, each_after, separated};
ghost use Rattle.formatting.specs.Listing.{line_bytes, header, register_line, record_line, place_text, refusal_text, refusal_line, query_line, reported_line, uniqueness_text, uniqueness_line, typed_line};
ghost use Rattle.formatting.specs.Room.{end_back, buffer_back};
ghost use Rattle.formatting.specs.Census.{census_header, tally_line, census_line, number_of, pair_in, no_pair_line, pair_line, is_pair};

use catalogue::{A_PLACE, B_PLACE, LENGTH_CELL, RECORD_BYTES};
use enumeration::TALLY_BYTES;
use sequence::{QUERY_BYTES, Refusal, Report, Sequence, Uniqueness};
use std::marker::Model;
use steps::CELLS;

// Room for the longest line: four numbers and the coefficients, each with at most 20 digits and a byte beside them.
pub const LINE_BYTES: usize = 21 * (4 + CELLS);

// A line as it is written, or a part of one; clauses see its bytes.
#[derive(Clone, Copy)]
pub struct Line {
    buffer: [u8; LINE_BYTES],
    end: usize,
}

impl Model for Line {
    ghost Value = { List ℕ };

    ghost view = { λ l. take l.end l.buffer };

    // behind the end there are zeros, so that the bytes give the line back
    ghost invariant = { λ l. (l.end ≤ line_bytes) × (length l.buffer ≡ line_bytes) × (drop l.end l.buffer ≡ replicate (line_bytes - l.end) 0) };

    ghost inverse = { λ xs. record { buffer = xs ++ replicate (line_bytes - length xs) 0; end = length xs } };

    ghost inverse_ok = { λ l h i. record { buffer = buffer_back l.end l.buffer h.0 h.1 h.2 i; end = end_back l.end l.buffer h.0 h.1 i } };
}

impl Line {
    pub fn new() -> Self
        ensures { result ≡ [] }
    {
        Line {
            buffer: [0; LINE_BYTES],
            end: 0,
        }
    }

    // The line of a text.
    pub fn of(s: &[u8]) -> Self
        requires { length s.now ≤ line_bytes }
        ensures { result ≡ s.now }
    {
        let mut line = Line::new();
        line.text(s);
        line
    }

    pub fn as_bytes(&self) -> &[u8]
        ensures bytes { result.now ≡ self.now }
        ensures upper_bound { length self.now ≤ line_bytes }
    {
        &self.buffer[..self.end]
    }

    // A text behind what is there.
    pub fn text(&mut self, s: &[u8])
        requires { length self.old + length s.now ≤ line_bytes }
        ensures { self.new ≡ self.old ++ s.now }
    {
        let end = self.end + s.len();
        self.buffer[self.end..end].copy_from_slice(s);
        self.end = end;
    }

    // A number in decimal.
    pub fn number(&mut self, n: u64)
        requires { length self.old + 20 ≤ line_bytes }
        ensures text { self.new ≡ self.old ++ numeral n }
        ensures upper_bound { length self.new ≤ length self.old + 20 }
    {
        let mut digits = [0u8; 20];
        let count = io::decimal(n, &mut digits);
        self.text(&digits[..count]);
    }

    // A number behind a byte.
    pub fn number_after(&mut self, mark: u8, n: u64)
        requires { length self.old + 21 ≤ line_bytes }
        ensures text { self.new ≡ self.old ++ each_after (mark ∷ []) (n ∷ []) }
        ensures upper_bound { length self.new ≤ length self.old + 21 }
    {
        self.text(&[mark]);
        self.number(n);
    }

    // Numbers with blanks between them.
    fn numbers(&mut self, numbers: &[u32])
        requires { length self.old + (21 * length numbers.now - 1) ≤ line_bytes }
        ensures text { self.new ≡ self.old ++ separated (bytes " ") numbers.now }
        ensures upper_bound { length self.new ≤ length self.old + (21 * length numbers.now - 1) }
    {
        if let Some((first, rest)) = numbers.split_first() {
            self.number(u64::from(*first));
            for n in rest {
                self.number_after(b' ', u64::from(*n));
            }
        }
    }

    // The first cells with commas between them.
    fn cells(&mut self, s: &[u8], count: u32)
        requires { (2 * count ≤ length s.now) × (length self.old + (21 * count - 1) ≤ line_bytes) }
        ensures text { self.new ≡ self.old ++ separated (bytes ",") (tabulate count (cell_at s.now)) }
        ensures upper_bound { length self.new ≤ length self.old + (21 * count - 1) }
    {
        if count == 0 {
            return;
        }
        self.number(u64::from(cells::cell(s, 0)));
        for i in 1..count {
            self.number_after(b',', u64::from(cells::cell(s, i as usize)));
        }
    }

    // The place that a refusal carries.
    fn place(&mut self, p: Option<usize>)
        requires { length self.old + 24 ≤ line_bytes }
        ensures text { self.new ≡ self.old ++ place_text (placed p) }
        ensures upper_bound { length self.new ≤ length self.old + 24 }
    {
        if let Some(i) = p {
            self.text(b" at ");
            self.number(i as u64);
        }
    }

    // What follows fills an empty line in place, so that no line is copied on its way up. What a public function calls stays a call: were it inlined,
    // the compiler would zero each place that the line passes through.

    // Numbers with blanks between them, a blank, and the first cells with commas between them.
    fn row(&mut self, numbers: &[u32], s: &[u8], count: u32)
        requires { (self.old ≡ []) × (2 * count ≤ length s.now) × ((21 * length numbers.now - 1) + 1 + (21 * count - 1) + 1 ≤ line_bytes) }
        ensures text { self.new ≡ separated (bytes " ") numbers.now ++ bytes " " ++ separated (bytes ",") (tabulate count (cell_at s.now)) ++ bytes "\n" }
        ensures upper_bound { length self.new ≤ line_bytes }
    {
        self.numbers(numbers);
        self.text(b" ");
        self.cells(s, count);
        self.text(b"\n");
    }

    // A register of length l with the cells of a: modulus, count, order, start, and a_0 up to the order.
    // Rejected: the length as the order; a coefficient too few.
    #[tactic(auto, using(crate::proofs::Degree::degree_cells, crate::proofs::Wording::register_told_lem), unfolding(lists::specs::Text::bytes))]
    fn register(&mut self, modulus: u32, count: u32, l: u32, a: &[u8])
        requires { (self.old ≡ []) × (length a.now ≡ a_bytes) }
        ensures text { self.new ≡ register_line modulus count l (a_cells a.now) }
        ensures upper_bound { length self.new ≤ line_bytes }
    {
        let d = order(a);
        self.row(&[modulus, count, d, l], a, d + 1);
    }

    // The register in a record.
    fn record(&mut self, entry: &[u8])
        requires { (self.old ≡ []) × (length entry.now ≡ record_bytes) }
        ensures text { self.new ≡ record_line entry.now }
        ensures upper_bound { length self.new ≤ line_bytes }
    {
        let modulus = cells::cell(entry, 0);
        let count = cells::cell(entry, 1);
        let l = cells::cell(entry, LENGTH_CELL);
        self.register(modulus, count, l, &entry[A_PLACE..B_PLACE]);
    }

    // A refusal by its number, with its place.
    #[inline(never)]
    #[tactic(auto, using(crate::proofs::Wording::refusal_pieces), unfolding(lists::specs::Text::bytes))]
    fn refusal(&mut self, r: Refusal)
        requires { self.old ≡ [] }
        ensures text { self.new ≡ refusal_text r }
        ensures upper_bound { length self.new ≤ 52 }
    {
        self.text(b"refused ");
        self.number(r.number());
        self.place(r.place());
    }

    // A refusal as a whole line.
    #[inline(never)]
    fn refused(&mut self, r: Refusal)
        requires { self.old ≡ [] }
        ensures text { self.new ≡ refusal_line r }
        ensures upper_bound { length self.new ≤ line_bytes }
    {
        self.refusal(r);
        self.text(b"\n");
    }

    // What `query_line` gives.
    #[inline(never)]
    fn query(&mut self, query: &[u8])
        requires { self.old ≡ [] }
        ensures text { self.new ≡ query_line query.now }
        ensures upper_bound { length self.new ≤ line_bytes }
    {
        let mut entry = [0u8; RECORD_BYTES];
        match catalogue::synthesize(query, &mut entry) {
            Ok(()) => self.record(&entry),
            Err(r) => self.refused(r),
        }
    }

    // What `reported_line` gives.
    #[inline(never)]
    fn reported(&mut self, s: &Sequence, r: Result<Report, Refusal>, a: &[u8])
        requires { (self.old ≡ []) × (length a.now ≡ a_bytes) }
        ensures text { self.new ≡ reported_line s.now r a.now }
        ensures upper_bound { length self.new ≤ line_bytes }
    {
        match r {
            Ok(report) => self.register(s.modulus, s.count, report.length, a),
            Err(why) => self.refused(why),
        }
    }

    // What `uniqueness_text` gives.
    #[inline(never)]
    fn uniqueness(&mut self, w: Uniqueness)
        requires { self.old ≡ [] }
        ensures text { self.new ≡ uniqueness_text w }
        ensures upper_bound { length self.new ≤ 8 }
    {
        match w {
            Uniqueness::Sole => self.text(b"sole"),
            Uniqueness::Several => self.text(b"several"),
            Uniqueness::NotTold => self.text(b"not told"),
        }
    }

    // What `typed_line` gives.
    #[inline(never)]
    fn typed(&mut self, line: &[u8])
        requires { self.old ≡ [] }
        ensures text { self.new ≡ typed_line line.now }
        ensures upper_bound { length self.new ≤ line_bytes }
    {
        let mut query = [0u8; QUERY_BYTES];
        match lines::read_line(line, &mut query) {
            Ok(()) => self.query(&query),
            Err(r) => self.refused(r),
        }
    }

    // The census's line of a tally: modulus, count, and the cells of the lengths that there are, 0 to n.
    #[tactic(auto, using(crate::proofs::Tallies::cells_told), unfolding(lists::specs::Text::bytes))]
    fn tallied(&mut self, m: u32, n: u32, cells: &[u8])
        requires { (self.old ≡ []) × (n < lengths) × (length cells.now ≡ tally_bytes) }
        ensures text { self.new ≡ tally_line m n cells.now }
        ensures upper_bound { length self.new ≤ line_bytes }
    {
        self.row(&[m, n], cells, n + 1);
    }

    // The census's line of a modulus and a count, or its refusal.
    // Rejected: all thirteen cells of a tally; the cell of the length n left out; modulus and count exchanged.
    #[inline(never)]
    fn census(&mut self, m: u32, n: u32)
        requires { self.old ≡ [] }
        ensures text { self.new ≡ census_line m n }
        ensures upper_bound { length self.new ≤ line_bytes }
    {
        let mut cells = [0u8; TALLY_BYTES];
        match enumeration::tally(m, n, &mut cells) {
            Ok(()) => self.tallied(m, n, &cells),
            Err(r) => self.refused(r),
        }
    }
}

// The line that answers a typed one, and whether the census goes on: there is a line either way, so that neither stands for the other.
#[derive(Clone, Copy)]
pub struct Answered {
    pub line: Line,
    pub going: bool,
}

// The order of the register with these cells of a: the degree, the last place that is not 0.
// Rejected: zeros counted that stand behind it.
fn order(a: &[u8]) -> u32
    requires { length a.now ≡ a_bytes }
    ensures { result ≡ degree (a_cells a.now) }
{
    for i in (1..CELLS).rev() {
        if cells::cell(a, i) != 0 {
            return i as u32;
        }
    }
    0
}

// The listing's first line.
pub fn header_line() -> Line
    ensures text { result ≡ header }
    ensures upper_bound { length result ≤ line_bytes }
{
    Line::of(b"modulus count order start register\n")
}

// A refusal by its number, with its place; the line may go on.
pub fn refusal_text(r: Refusal) -> Line
    ensures text { result ≡ refusal_text r }
    ensures upper_bound { length result ≤ 52 }
{
    let mut line = Line::new();
    line.refusal(r);
    line
}

pub fn refusal_line(r: Refusal) -> Line
    ensures text { result ≡ refusal_line r }
    ensures upper_bound { length result ≤ line_bytes }
{
    let mut line = Line::new();
    line.refused(r);
    line
}

// The listing's line of a query, or its refusal.
// Rejected: a refused query with a line of numbers; another cell of the record as the start.
pub fn query_line(query: &[u8]) -> Line
    ensures text { result ≡ query_line query.now }
    ensures upper_bound { length result ≤ line_bytes }
{
    let mut line = Line::new();
    line.query(query);
    line
}

// The listing's line of a register that is reported for a sequence, or its refusal.
// Rejected: the count as the start; the cells of b.
pub fn reported_line(s: &Sequence, r: Result<Report, Refusal>, a: &[u8]) -> Line
    requires { length a.now ≡ a_bytes }
    ensures text { result ≡ reported_line s.now r a.now }
    ensures upper_bound { length result ≤ line_bytes }
{
    let mut line = Line::new();
    line.reported(s, r, a);
    line
}

// Whether a register is the only one, in words; the line may go on.
pub fn uniqueness_text(w: Uniqueness) -> Line
    ensures text { result ≡ uniqueness_text w }
    ensures upper_bound { length result ≤ 8 }
{
    let mut line = Line::new();
    line.uniqueness(w);
    line
}

// The line below that of a register that is reported, in a working; none below a refusal.
pub fn uniqueness_line(r: Result<Report, Refusal>) -> Line
    ensures text { result ≡ uniqueness_line r }
    ensures upper_bound { length result ≤ line_bytes }
{
    match r {
        Ok(report) => {
            let mut line = Line::new();
            line.uniqueness(report.uniqueness);
            line.text(b"\n");
            line
        }
        Err(_) => Line::new(),
    }
}

// The line that answers a typed line.
// Rejected: a refused line answered as a query; the query of another line.
pub fn typed_line(line: &[u8]) -> Line
    ensures text { result ≡ typed_line line.now }
    ensures upper_bound { length result ≤ line_bytes }
{
    let mut answer = Line::new();
    answer.typed(line);
    answer
}

// The census's first line.
pub fn census_header() -> Line
    ensures text { result ≡ census_header }
    ensures upper_bound { length result ≤ line_bytes }
{
    Line::of(b"modulus count tally\n")
}

// A number below 2^32 of one digit or more, or none. Reading stops at the first digit with which it is too large, so that it fits however many
// follow.
fn read_number(s: &[u8]) -> Option<u32>
    ensures { result ≡ number_of s.now }
{
    if s.is_empty() {
        return None;
    }
    let mut value: u32 = 0;
    for b in s {
        if !lines::is_digit(*b) {
            return None;
        }
        match u32::try_from(10 * u64::from(value) + u64::from(*b - b'0')) {
            Ok(more) => value = more,
            Err(_) => return None,
        }
    }
    Some(value)
}

// The place of the first blank.
fn first_blank(line: &[u8]) -> Option<usize>
    ensures { result ≡ position (λ b. b == 32) line.now }
{
    line.iter().position(|b| *b == b' ')
}

// What a typed line of the census says: a modulus before the first blank and a count behind it, or neither.
fn read_pair(line: &[u8]) -> Option<(u32, u32)>
    ensures { result ≡ pair_in line.now }
{
    let k = first_blank(line)?;
    let modulus = read_number(&line[..k])?;
    let count = read_number(&line[k + 1..])?;
    Some((modulus, count))
}

// The census's last line, where a typed line is not a modulus and a count.
pub fn no_pair_line() -> Line
    ensures text { result ≡ no_pair_line }
    ensures upper_bound { length result ≤ line_bytes }
{
    Line::of(b"not a modulus and a count\n")
}

// The census's line that answers a typed line, and whether the census goes on.
// Rejected: going on after a line that is not a modulus and a count; ending at a pair that is refused; two blanks taken for one.
pub fn pair_line(line: &[u8]) -> Answered
    ensures line_value { result.line ≡ pair_line line.now }
    ensures upper_bound { length result.line ≤ line_bytes }
    ensures going_value { result.going ≡ is_pair (pair_in line.now) }
{
    match read_pair(line) {
        Some((m, n)) => {
            let mut answered = Answered {
                line: Line::new(),
                going: true,
            };
            answered.line.census(m, n);
            answered
        }
        None => Answered {
            line: no_pair_line(),
            going: false,
        },
    }
}
