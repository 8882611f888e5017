// A column of terms, pushed in one call.
#![tactic(auto)]

ghost use Rattle.std.specs.Prelude.{◌≡◌, Err};
ghost use Rattle.sequence.specs.Answers.{outcome_answer};
ghost use Rattle.sequence.specs.Rules.{IsSound};
ghost use Rattle.column.specs.Rules.{terms_in, took, each_of, push_all_of, push_all_answer};

use sequence::{MAX_TERMS, Refusal, Sequence};

// How many terms were taken, the refusal if any, and the sequence as it is then: on a refusal too, since the terms before it stay. It is handed
// in and back by value, so that an edit (old_sequence) can give back the one that came.
#[derive(Clone, Copy, Debug, PartialEq, Eq)]
pub struct PushedAll {
    pub sequence: Sequence,
    pub taken: usize,
    pub outcome: Result<(), Refusal>,
}

// A refusal that ends a column after n terms; the sequence is s then.
fn ended(n: usize, s: Sequence, r: Refusal) -> PushedAll
    ensures { result ≡ took n s (Err r) }
{
    PushedAll {
        sequence: s,
        taken: n,
        outcome: Err(r),
    }
}

// The terms of a column pushed to a sound sequence, which stays sound: it is not inspected again.
fn push_each(s: Sequence, list: &[u8]) -> PushedAll
    requires { IsSound s }
    ensures { result ≡ each_of s (terms_in list.now) }
{
    let n = list.len() / 2;
    let mut longer = s;
    for i in 0..n {
        let count = longer.count;
        if count == MAX_TERMS {
            return ended(i, longer, Refusal::Full);
        }
        let term = cells::cell(list, i);
        if s.modulus <= term {
            return ended(i, longer, Refusal::Term(count));
        }
        longer.terms[count as usize] = term;
        longer.count = count + 1;
    }
    PushedAll {
        sequence: longer,
        taken: n,
        outcome: Ok(()),
    }
}

// Pushes the terms of a column, up to the first refused one; those before it stay. The column may have more terms than there is room for.
// Rejected: one that goes on after a refused term; one that gives back the sequence as it came where a term is refused.
pub fn push_all(s: Sequence, list: &[u8]) -> PushedAll
    ensures value { result ≡ push_all_of s list.now }
    ensures outcome_value { outcome_answer result.outcome ≡ push_all_answer s list.now }
{
    if list.len() % 2 != 0 {
        return ended(0, s, Refusal::Buffer);
    }
    if s.is_sound() {
        return push_each(s, list);
    }
    ended(0, s, Refusal::Sequence)
}
