// The claims that speak of several calls: specs/ has them, proofs/ their proofs. `drive` drives a list of pushes, columns, registers and
// profiles through the calls themselves; its contract says what they all do together, and the claim about every such list. (A trace has no
// code there.) `walk_along` has the claim about the walk of a batch.
#![tactic(auto)]

ghost use Rattle.std.specs.Prelude.{◌≡◌, ◌*◌, ◌≤◌, length};
ghost use Rattle.sequence.specs.Limits.{max_modulus, a_bytes, b_bytes, profile_bytes};
ghost use Rattle.catalogue.specs.Rules.{record_bytes, records};
ghost use Rattle.batch.specs.Rules.{queries_in};
ghost use Rattle.guarantees.specs.Batches.{Walked};
ghost use Rattle.guarantees.specs.Claims.{Shows};
ghost use Rattle.guarantees.specs.Coded.{taken_by, state_of, after_code, driven_to, replies_of, ended};

use sequence::{Refusal, Report, Sequence};

// What the last register and the last profile reply.
#[derive(Clone, Copy)]
pub struct Replies {
    pub reported: Result<Report, Refusal>,
    pub profiled: Result<(), Refusal>,
}

// One call, coded as a number, as the claim about every list of codes has it (specs/Coded): 0 is a register, 1 a profile, 2 a column of the list, n + 3 a push of n. Whether it is refused is not asked.
// Rejected: a register that is lent b as a and a as b.
fn one(s: &mut Sequence, code: u32, list: &[u8], a: &mut [u8], b: &mut [u8], cells: &mut [u8])
    ensures { state_of s.new a.new b.new cells.new
        ≡ after_code list.now (state_of s.old a.old b.old cells.old) code }
{
    if code == 0 {
        let _ = s.register(a, b);
        return;
    }
    if code == 1 {
        let _ = s.profile(cells);
        return;
    }
    if code == 2 {
        *s = column::push_all(*s, list).sequence;
        return;
    }
    let _ = s.push(code - 3);
}

// Opens a sequence, makes the coded calls one after the other, each column with the lent list, then a register and a profile.
// Rejected: one that leaves the last coded call out; one that tells another length than the last register's.
pub fn drive(
    modulus: u32,
    codes: &[u32],
    list: &[u8],
    a: &mut [u8],
    b: &mut [u8],
    cells: &mut [u8],
) -> Replies
    ensures value { result ≡ replies_of (driven_to modulus codes.now list.now a.old b.old cells.old) }
    ensures a_after { a.new
        ≡ (ended (driven_to modulus codes.now list.now a.old b.old cells.old)).a }
    ensures b_after { b.new
        ≡ (ended (driven_to modulus codes.now list.now a.old b.old cells.old)).b }
    ensures cells_after { cells.new
        ≡ (ended (driven_to modulus codes.now list.now a.old b.old cells.old)).cells }
    ensures shows { 2 ≤ modulus → modulus ≤ max_modulus → length a.old ≡ a_bytes → length b.old ≡ b_bytes
        → length cells.old ≡ profile_bytes
        → Shows modulus (taken_by modulus list.now codes.now) result.reported result.profiled a.new b.new cells.new }
{
    let mut s = Sequence::open(modulus).sequence;
    for &code in codes {
        one(&mut s, code, list, a, b, cells);
    }
    let reported = s.register(a, b);
    let profiled = s.profile(cells);
    Replies { reported, profiled }
}

// The walk of a batch along the first n records of a catalogue, for every n: then each query that passes its checks holds the first match among them, or
// none.
// Rejected: a walk that holds so only at its end.
pub fn walk_along(
    queries: &[u8],
    catalogue: &[u8],
    n: usize,
    who: u64,
    out: &mut [u8],
    replies: &mut [u64],
)
    requires { (length out.old ≡ queries_in queries.now * record_bytes) × (length replies.old ≡ queries_in queries.now)
        × (n ≤ records catalogue.now) }
    ensures { Walked who queries.now catalogue.now n out.new replies.new }
{
    batch::walk_first(queries, catalogue, n, who, out, replies);
}
