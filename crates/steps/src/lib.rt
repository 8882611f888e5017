// The steps at one prime power q = p^e (Reeds and Sloane, section 4), for q below 65,536; and their records, in a log that is lent.
//
// Of each row only a is kept. The theorems of `recurrence` are the reason: a discrepancy needs no b (`d_of_a`), lengths follow a law in
// which no degree occurs (`length_stays`, `length_kept`, `length_grows`), and b follows from a (`generates` of `register_right`).
#![tactic(auto)]

ghost use Rattle.std.specs.Prelude.{◌≡◌, [], ℕ, List, suc, ◌+◌, ◌*◌, ◌%◌, ◌≤◌, ◌<◌, get_or};
ghost use Rattle.lists.specs.Table.{at};
ghost use Rattle.recurrence.specs.Polynomial.{conv};
ghost use Rattle.recurrence.specs.Working.{no_step, step_at, steps_at};
ghost use Rattle.steps.specs.Sizes.{max_terms, max_cells, max_rows, log_words};
ghost use Rattle.steps.specs.Log.{step_record, packed, unpacked, Narrow, Noted, power_of, told_of, described_of};
ghost use Rattle.steps.specs.Run.{Below, Result};
ghost use Rattle.steps.specs.Passes.{Clear, Added, Shape, Blank, Starting, Ready, next_at, Planned, Stocked, Changed, Changing, Grows, Settling};
ghost use Rattle.steps.specs.State.{RowsAt, Looks, State};

mod ring;

pub use ring::Ring;

// Places for terms, and for the cells of b.
pub const TERMS: usize = 128;

// Places for the cells of a row's a, and for the lengths after 0, 1, .. steps.
pub const CELLS: usize = TERMS + 1;

// Places for rows: a power p^e below 65,536 has e at most 15.
pub const ROWS: usize = 15;

// Words of a log: one for each row at each step. A modulus below 65,536 has at most 15 rows in all.
pub const LOG: usize = ROWS * TERMS;

// One row at one step, in the manner of Table 2: the prime power, k, the row's number and its length before the step, u, theta, g (e where
// the row stays), and the case: 1 stays, 2 added to b, 3 cancelled by an older row. The case is a number, since users read a record as
// eight numbers, and a log holds it as one.
#[derive(Clone, Copy)]
pub struct StepRecord {
    pub power: u32,
    pub k: u32,
    pub row: u32,
    pub length: u32,
    pub u: u32,
    pub theta: u32,
    pub g: u32,
    pub case: u32,
}

// The rows before a step: the a of each, and its length. Arrays side by side and not an array of rows: a step lends one row's a to be
// changed while it reads the lengths of all.
#[derive(Drop)]
pub struct Rows {
    pub a: [[u32; CELLS]; ROWS],
    pub length: [usize; ROWS],
}

// What each row that has grown remembers of an older row: its a, the step, a bound on its length, and the inverse of its theta times
// p^(u - u'), which is the same for every row that it cancels for.
#[derive(Drop)]
struct Memory {
    a: [[u32; CELLS]; ROWS],
    when: [usize; ROWS],
    reach: [usize; ROWS],
    mult: [u32; ROWS],
}

// u and theta of each row's discrepancy at a step.
#[derive(Drop)]
struct Seen {
    u: [usize; ROWS],
    theta: [u32; ROWS],
}

// The lengths after a step; and of each row that grows the a that it is to remember, put aside.
#[derive(Drop)]
struct Plan {
    length: [usize; ROWS],
    aside: [[u32; CELLS]; ROWS],
}

// All that the steps work on. Before a step only `rows` and `memory` count.
#[derive(Drop)]
struct Machine {
    rows: Rows,
    memory: Memory,
    seen: Seen,
    plan: Plan,
}

// A machine of zeros. A constant, and not what a function gives: that would be copied, which is slower and takes twice the stack.
const BLANK: Machine = Machine {
    rows: Rows {
        a: [[0u32; CELLS]; ROWS],
        length: [0usize; ROWS],
    },
    memory: Memory {
        a: [[0u32; CELLS]; ROWS],
        when: [0usize; ROWS],
        reach: [0usize; ROWS],
        mult: [0u32; ROWS],
    },
    seen: Seen {
        u: [0usize; ROWS],
        theta: [0u32; ROWS],
    },
    plan: Plan {
        length: [0usize; ROWS],
        aside: [[0u32; CELLS]; ROWS],
    },
};

// What a record tells of a row's partner: g, and the case by its number, as `StepRecord` has it.
#[derive(Clone, Copy)]
struct Told {
    g: usize,
    case: u32,
}

// Coefficient k of the product of a and s, modulo q, where a is zero past place l. The sum fits 64 bits, so that one division does.
pub fn coefficient(a: &[u32; CELLS], s: &[u32; TERMS], l: usize, k: usize, q: u32) -> u32
    requires { (l ≤ k) × (k < max_terms) × (0 < q) × Below max_cells 65536 a.now × Below max_terms 65536 s.now
        × ((i : ℕ) → l < i → i ≤ k → at a.now i ≡ 0) }
    ensures { result ≡ conv (at s.now) (at a.now) k % q }
{
    let mut sum: u64 = 0;
    for i in 0..l + 1 {
        sum += u64::from(a[i]) * u64::from(s[k - i]);
    }
    residue::remainder(sum, q)
}

// Adds f times the first n places of y, moved up s places, to x, modulo q.
fn combine(x: &mut [u32; CELLS], y: &[u32; CELLS], f: u32, s: usize, n: usize, ring: Ring)
    requires { (s + n ≤ max_cells) × (f ≤ ring.q) × Below max_cells ring.q x.old × Below max_cells ring.q y.now × Clear n max_cells y.now }
    ensures { Added max_cells ring.q f s x.old y.now x.new }
{
    for i in 0..n {
        x[s + i] = residue::reduce(x[s + i] + f * y[i], ring.q, ring.scale);
    }
}

// The rows before any term: row i has a = p^i.
fn first_rows(a: &mut [[u32; CELLS]; ROWS], ring: Ring)
    requires { Shape a.old × Blank a.old }
    ensures { Starting ring.p a.old a.new ring.e }
{
    let mut power: u32 = 1;
    for i in 0..ring.e {
        a[i][0] = power;
        power *= ring.p;
    }
}

// A row's a is put aside. Both lie in one machine, so that an assignment would be a `memmove`, which an archive for C would need from outside.
fn put_aside(a: &[u32; CELLS], aside: &mut [u32; CELLS])
    ensures { aside.new ≡ a.now }
{
    for i in 0..CELLS {
        aside[i] = a[i];
    }
}

impl Seen {
    // u and theta of each row's discrepancy at step k.
    fn look(&mut self, rows: &Rows, s: &[u32; TERMS], k: usize, ring: Ring)
        requires { Below max_terms 65536 s.now × (k < max_terms) × RowsAt ring s.now k rows.now }
        ensures { Looks ring s.now k self.new }
    {
        for i in 0..ring.e {
            let d = coefficient(&rows.a[i], s, rows.length[i], k, ring.q);
            let w = residue::weigh(d, ring.p, ring.e);
            self.u[i] = w.u;
            self.theta[i] = w.theta;
        }
    }
}

impl Rows {
    // The rows before step n.
    pub fn before(s: &[u32; TERMS], n: usize, ring: Ring) -> Rows
        requires { Below max_terms 65536 s.now × (n ≤ max_terms) }
        ensures { RowsAt ring s.now n result }
    {
        let mut machine = BLANK;
        machine.start(ring);
        let mut empty = [0u64; 1];
        let none = &mut empty[0..0];
        for k in 0..n {
            machine.step(s, k, ring, none, 0);
        }
        machine.rows
    }

    // g and the case of a row with this u.
    #[tactic(auto, using(crate::proofs::Log::told_stays, crate::proofs::Log::told_added, crate::proofs::Log::told_cancelled))]
    fn tell(&self, u: usize, e: usize) -> Told
        requires { e ≤ max_rows }
        ensures { result ≡ told_of e self.now.length u }
    {
        if u < e {
            let g = e - 1 - u;
            if self.length[g] == 0 {
                return Told { g, case: 2 };
            }
            return Told { g, case: 3 };
        }
        Told { g: e, case: 1 }
    }

    // The length of row i after step k, by the law of lengths.
    #[tactic(auto, using(crate::proofs::Passes::next_stay, crate::proofs::Passes::next_flat, crate::proofs::Passes::next_grow))]
    fn grown(&self, seen: &Seen, i: usize, k: usize, ring: Ring) -> usize
        requires { (i < ring.e) × (k < max_terms) × Ready ring k self.now seen.now }
        ensures { result ≡ next_at self.now.length seen.now.u k ring.e i }
    {
        let l = self.length[i];
        let u = seen.u[i];
        if u < ring.e {
            let m = self.length[ring.e - 1 - u];
            if l + m <= k {
                return k + 1 - m;
            }
        }
        l
    }

    // The a of every row after step k.
    fn change(&mut self, memory: &Memory, seen: &Seen, k: usize, ring: Ring)
        requires { (k < max_terms) × Ready ring k self.old seen.now × Stocked ring k self.old.length memory.now }
        ensures { Changing ring k memory.now seen.now self.old self.new ring.e }
    {
        for i in 0..ring.e {
            memory.cancel(
                &mut self.a[i],
                &self.length,
                seen.u[i],
                seen.theta[i],
                k,
                ring,
            );
        }
    }
}

impl Plan {
    // The lengths after step k. Of each row that grows, the row that it is to remember is put aside, as it is before the step.
    #[tactic(auto, using(crate::proofs::Passes::next_rose, crate::proofs::Passes::plan_next))]
    fn make(&mut self, rows: &Rows, seen: &Seen, k: usize, ring: Ring)
        requires { (k < max_terms) × Ready ring k rows.now seen.now }
        ensures { Planned ring k rows.now seen.now self.new ring.e }
    {
        for i in 0..ring.e {
            let n = rows.grown(seen, i, k, ring);
            self.length[i] = n;
            if n <= rows.length[i] {
                continue;
            }
            let g = ring.e - 1 - seen.u[i];
            put_aside(&rows.a[g], &mut self.aside[i]);
        }
    }
}

impl Memory {
    // The a of one row after step k, from its u and theta and the lengths before it. A row with u = e stays; where row g has length 0 only
    // b would change; else the row that g remembers cancels the discrepancy.
    fn cancel(
        &self,
        x: &mut [u32; CELLS],
        length: &[usize; ROWS],
        u: usize,
        theta: u32,
        k: usize,
        ring: Ring,
    )
        requires { (k < max_terms) × Stocked ring k length.now self.now × (theta ≤ ring.q) × Below max_cells ring.q x.old }
        ensures { Changed ring k length.now self.now u theta x.old x.new }
    {
        if ring.e <= u {
            return;
        }
        let g = ring.e - 1 - u;
        if length[g] == 0 {
            return;
        }
        let f = ring.q - residue::reduce(theta * self.mult[g], ring.q, ring.scale);
        combine(x, &self.a[g], f, k - self.when[g], self.reach[g] + 1, ring);
    }

    // The lengths after step k, and what the rows that grew now remember: the row put aside, its step, its length and its multiplier. One
    // inverse a growth is enough, and theta is a unit.
    fn settle(&mut self, length: &mut [usize; ROWS], plan: &Plan, seen: &Seen, k: usize, ring: Ring)
        requires { (k < max_terms) × ((j : ℕ) → j < ring.e → Grows ring k length.old plan.now seen.now j) × Shape self.old.a }
        ensures { Settling ring k plan.now seen.now self.old length.old self.new length.new ring.e }
    {
        for i in 0..ring.e {
            let n = plan.length[i];
            if n <= length[i] {
                continue;
            }
            let g = ring.e - 1 - seen.u[i];
            self.a[i] = plan.aside[i];
            length[i] = n;
            self.when[i] = k;
            self.reach[i] = k + 1 - n;
            let v = residue::inverse(seen.theta[g], ring.q);
            let w = residue::power(ring.p, ring.e - 1 - i - seen.u[g]);
            self.mult[i] = residue::mul(v, w, ring.q);
        }
    }
}

// A record as one number of 61 bits, and back: a log is an array of numbers.
#[tactic(auto, unfolding(crate::specs::Log::packed))]
fn pack(x: StepRecord) -> u64
    requires { Narrow x }
    ensures { result ≡ packed x }
{
    let head = (u64::from(x.power) * 128 + u64::from(x.k)) * 16 + u64::from(x.row);
    let middle = (head * 256 + u64::from(x.length)) * 16 + u64::from(x.u);
    ((middle * 65536 + u64::from(x.theta)) * 16 + u64::from(x.g)) * 4 + u64::from(x.case)
}

#[tactic(auto, unfolding(crate::specs::Log::unpacked))]
fn unpack(w: u64) -> StepRecord
    ensures { result ≡ unpacked w }
{
    let g = w / 4;
    let t = g / 16;
    let u = t / 65536;
    let l = u / 16;
    let i = l / 256;
    let k = i / 16;
    StepRecord {
        power: (k / 128) as u32,
        k: (k % 128) as u32,
        row: (i % 16) as u32,
        length: (l % 256) as u32,
        u: (u % 16) as u32,
        theta: (t % 65536) as u32,
        g: (g % 16) as u32,
        case: (w % 4) as u32,
    }
}

// The record at place i of a log, by value.
pub fn entry(log: &[u64; LOG], i: usize) -> StepRecord
    requires { i < log_words }
    ensures { result ≡ unpacked (at log.now i) }
{
    unpack(log[i])
}

impl Machine {
    // The machine before any term. No row has grown, so that none remembers anything.
    fn start(&mut self, ring: Ring)
        requires { self.old ≡ BLANK }
        ensures { (terms : List ℕ) → State ring terms 0 self.new }
    {
        first_rows(&mut self.rows.a, ring);
    }

    // The record of row i at step k, by value.
    fn describe(&self, k: usize, i: usize, ring: Ring) -> StepRecord
        requires { (i < ring.e) × (k < max_terms) × Ready ring k self.now.rows self.now.seen }
        ensures { result ≡ described_of ring self.now.rows self.now.seen k i }
    {
        let u = self.seen.u[i];
        let x = self.rows.tell(u, ring.e);
        StepRecord {
            power: ring.q,
            k: k as u32,
            row: i as u32,
            length: self.rows.length[i] as u32,
            u: u as u32,
            theta: self.seen.theta[i],
            g: x.g as u32,
            case: x.case,
        }
    }

    // The records of all rows at step k, behind those of the steps before it, which begin at a place of the log; as far as the log has
    // places. One that has none asks for nothing, and is told first: then nothing else is computed.
    #[tactic(auto, using(crate::proofs::Log::narrow_described))]
    fn note(&self, k: usize, ring: Ring, log: &mut [u64], first: usize)
        requires { (first + (k * ring.e + ring.e) ≤ log_words) × (k < max_terms) × Ready ring k self.now.rows self.now.seen }
        ensures { Noted (first + k * ring.e) ring.e (λ (i : ℕ). packed (described_of ring self.now.rows self.now.seen k i)) log.old log.new }
    {
        if log.len() == 0 {
            return;
        }
        let place = first + k * ring.e;
        for i in 0..ring.e {
            if log.len() <= place + i {
                return;
            }
            let x = self.describe(k, i, ring);
            log[place + i] = pack(x);
        }
    }

    // The plan and the rows after step k. `make` reads the rows before any of them changes; `change` reads nothing of other rows but what
    // they remember.
    fn advance(&mut self, k: usize, ring: Ring)
        requires { (k < max_terms) × Ready ring k self.old.rows self.old.seen × Stocked ring k self.old.rows.length self.old.memory }
        ensures { Planned ring k self.old.rows self.old.seen self.new.plan ring.e
            × Changing ring k self.old.memory self.old.seen self.old.rows self.new.rows ring.e
            × (self.new.memory ≡ self.old.memory) × (self.new.seen ≡ self.old.seen) }
    {
        self.plan.make(&self.rows, &self.seen, k, ring);
        self.rows.change(&self.memory, &self.seen, k, ring);
    }

    // Step k, with its records. Every row after the step is made from the rows before it: `look` and `note` only read them, `advance`
    // changes them when all that is read of them is put aside, and `settle` renews what they remember last.
    fn step(&mut self, s: &[u32; TERMS], k: usize, ring: Ring, log: &mut [u64], first: usize)
        requires { Below max_terms 65536 s.now × (k < max_terms) × State ring s.now k self.old × (first + (k * ring.e + ring.e) ≤ log_words) }
        ensures { State ring s.now (suc k) self.new
            × Noted (first + k * ring.e) ring.e (λ (i : ℕ). packed (step_record (step_at s.now (power_of ring) k i))) log.old log.new }
    {
        self.seen.look(&self.rows, s, k, ring);
        self.note(k, ring, log, first);
        self.advance(k, ring);
        self.memory
            .settle(&mut self.rows.length, &self.plan, &self.seen, k, ring);
    }
}

// The steps on the first n terms of s: a of row 0, and its length for the first 0, 1, .., n terms; and the records of the steps, from a
// place of the log on. The terms need not be below q.
pub fn run(
    s: &[u32; TERMS],
    n: usize,
    ring: Ring,
    a: &mut [u32; CELLS],
    lens: &mut [u32; CELLS],
    log: &mut [u64],
    first: usize,
)
    requires { Below max_terms 65536 s.now × (n ≤ max_terms) × (first + n * ring.e ≤ log_words) }
    ensures { Result (power_of ring) s.now n a.new lens.new
        × Noted first (n * ring.e) (λ (i : ℕ). packed (step_record (get_or (steps_at s.now (power_of ring) n) i no_step)))
        log.old log.new }
{
    let mut machine = BLANK;
    machine.start(ring);
    *lens = [0u32; CELLS];
    for k in 0..n {
        machine.step(s, k, ring, log, first);
        lens[k + 1] = machine.rows.length[0] as u32;
    }
    *a = machine.rows.a[0];
}
