// An answer as one number: the refusal's number and 256 times a value. So C gets a reply, and so a batch tells that of each query.
#![tactic(auto)]

ghost use Rattle.std.specs.Prelude.{◌≡◌, [], ◌∷◌, ◌≤◌, ◌<◌, min};
ghost use Rattle.sequence.specs.Answers.{granted, refusal, outcome_answer};
ghost use Rattle.codes.specs.Codes.{last_place, code_of, counts_code_of};

use sequence::Refusal;

// 2^56 - 1: the last place that fits beside the number of a refusal.
const LAST_PLACE: u64 = 72057594037927935;

// A place as a value: itself, in every line that a machine can hold.
fn told(i: usize) -> u64
    ensures { (result ≡ min i last_place) × (result ≤ last_place) }
{
    let place = i as u64;
    if place < LAST_PLACE {
        return place;
    }
    LAST_PLACE
}

// A refusal by its number, with its place as the value.
pub fn refused(r: Refusal) -> u64
    ensures { result ≡ code_of (refusal r) }
{
    let n = r.number();
    match r.place() {
        Some(i) => n + 256 * told(i),
        None => n,
    }
}

// An answer that has no value.
pub fn done(answer: Result<(), Refusal>) -> u64
    ensures { result ≡ code_of (outcome_answer answer) }
{
    match answer {
        Ok(()) => 0,
        Err(r) => refused(r),
    }
}

// Three counts of an answer that is not refused, each in a byte.
pub fn counts(first: usize, second: usize, third: usize) -> u64
    requires { (first < 256) × (second < 256) × (third < 256) }
    ensures { result ≡ counts_code_of (granted (first ∷ second ∷ third ∷ [])) }
{
    256 * (first as u64) + 65536 * (second as u64) + 16777216 * (third as u64)
}
