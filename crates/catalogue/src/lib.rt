// Records and catalogues (the paper's shelf): making the record of a query, and looking one up.
#![tactic(auto)]

ghost use Rattle.std.specs.Prelude.{◌≡◌, Some, ◌++◌, ◌+◌, ◌*◌, ◌/◌, ◌≤◌, ◌<◌, eqb, length};
ghost use Rattle.sequence.specs.Limits.{query_bytes};
ghost use Rattle.lists.specs.Choice.{pick};
ghost use Rattle.sequence.specs.Answers.{outcome_answer};
ghost use Rattle.sequence.specs.Rules.{IsSound, sequence_of};
ghost use Rattle.sequence.specs.Report.{filled};
ghost use Rattle.catalogue.specs.Word.{word_of};
ghost use Rattle.catalogue.specs.Rules.{record_bytes, body_bytes, no_number, layout, record_of, synthesize_of, synthesize_answer, records, record_at, is_of, first_match, match_of, passes, serve_of, fetch_of, looked_up_answer, look_up_of, look_up_answer, editor, seen_by, served_in};

use sequence::{A_BYTES, B_BYTES, QUERY_BYTES, Refusal, Sequence};

// A record is the query, the length, a, b and the accession number. a, b and the number begin at these bytes.
pub const A_PLACE: usize = QUERY_BYTES + 2;

pub const B_PLACE: usize = A_PLACE + A_BYTES;

const NUMBER_PLACE: usize = B_PLACE + B_BYTES;

pub const RECORD_BYTES: usize = NUMBER_PLACE + 2;

// The length stands in this cell.
pub const LENGTH_CELL: usize = QUERY_BYTES / 2;

// Who asks: an editor is this number, a visitor any other. It stays a number, since the C interface hands it through.
pub const EDITOR: u64 = 1;

// The body of the record of a query with the sound sequence s. The part from byte 262 on is lent to the code that writes a register.
fn write_body(query: &[u8], s: &Sequence, out: &mut [u8])
    requires { (length query.now ≡ query_bytes) × IsSound s.now × (length out.old ≡ body_bytes) }
    ensures { out.new ≡ layout query.now s.now }
{
    let x = s.solve();
    cells::copy(query, &mut out[0..QUERY_BYTES]);
    cells::put(&mut out[QUERY_BYTES..A_PLACE], 0, x.length);
    sequence::write_register(&x, &mut out[A_PLACE..NUMBER_PLACE]);
}

// 0 for an accession number.
fn hide(number: &mut [u8])
    requires { length number.old ≡ 2 }
    ensures { number.new ≡ no_number }
{
    number[0] = 0;
    number[1] = 0;
}

// The record of a query with the sound sequence s, with no accession number yet.
pub fn write_record(query: &[u8], s: &Sequence, out: &mut [u8])
    requires { (length query.now ≡ query_bytes) × IsSound s.now × (length out.old ≡ record_bytes) }
    ensures { out.new ≡ layout query.now s.now ++ no_number }
{
    write_body(query, s, &mut out[0..NUMBER_PLACE]);
    hide(&mut out[NUMBER_PLACE..RECORD_BYTES]);
}

// Makes the record of a query.
// Rejected: one that refuses every query; one whose register is 1 for every query.
pub fn synthesize(query: &[u8], out: &mut [u8]) -> Result<(), Refusal>
    ensures value { result ≡ synthesize_of query.now out.old }
    ensures out_after { out.new ≡ filled result (record_of query.now) out.old }
    ensures result_value { outcome_answer result ≡ synthesize_answer query.now out.old }
{
    if out.len() != RECORD_BYTES {
        return Err(Refusal::Buffer);
    }
    let s = sequence::accept(query)?;
    write_record(query, &s, out);
    Ok(())
}

// The first four terms as one number: a machine reads these eight bytes at once.
pub fn word(s: &[u8]) -> u64
    requires { 12 ≤ length s.now }
    ensures { result ≡ word_of s.now }
{
    u64::from_le_bytes([s[4], s[5], s[6], s[7], s[8], s[9], s[10], s[11]])
}

// Whether a record is one of the query: its first 260 bytes are the query's. Most records are told apart by the first four terms;
// the others are read up to the group of bytes with the first that differs.
pub fn is_of(query: &[u8], entry: &[u8]) -> bool
    requires { (length query.now ≡ query_bytes) × (length entry.now ≡ record_bytes) }
    ensures { result ≡ is_of query.now entry.now }
{
    if word(query) != word(entry) {
        return false;
    }
    cells::same(&query[0..QUERY_BYTES], &entry[0..QUERY_BYTES])
}

// The first record of the query.
fn find(query: &[u8], catalogue: &[u8]) -> Option<usize>
    requires { length query.now ≡ query_bytes }
    ensures { result ≡ match_of (records catalogue.now) (first_match query.now catalogue.now (records catalogue.now)) }
{
    let n = catalogue.len() / RECORD_BYTES;
    for i in 0..n {
        let at = i * RECORD_BYTES;
        if is_of(query, &catalogue[at..at + RECORD_BYTES]) {
            return Some(i);
        }
    }
    None
}

// Whether the register in a record passes the test against the query's sequence.
pub fn is_good(s: &Sequence, entry: &[u8]) -> bool
    requires { IsSound s.now × (length entry.now ≡ record_bytes) }
    ensures { result ≡ passes s.now entry.now }
{
    let l = cells::cell(entry, LENGTH_CELL);
    let v = candidate::judge(
        s,
        &entry[A_PLACE..B_PLACE],
        &entry[B_PLACE..NUMBER_PLACE],
        l,
    );
    match v {
        Ok(place) => match place {
            None => true,
            Some(_) => false,
        },
        Err(_) => false,
    }
}

// The accession number of a record as who asks sees it.
fn show_number(number: &[u8], who: u64, out: &mut [u8])
    requires { (length number.now ≡ 2) × (length out.old ≡ 2) }
    ensures { out.new ≡ pick (eqb who editor) number.now no_number }
{
    if who == EDITOR {
        cells::copy(number, out);
        return;
    }
    hide(out);
}

// A record as who asks sees it. For a visitor the number is not even read.
pub fn show(entry: &[u8], who: u64, out: &mut [u8])
    requires { (length entry.now ≡ record_bytes) × (length out.old ≡ record_bytes) }
    ensures { out.new ≡ seen_by who entry.now }
{
    cells::copy(&entry[0..NUMBER_PLACE], &mut out[0..NUMBER_PLACE]);
    show_number(
        &entry[NUMBER_PLACE..RECORD_BYTES],
        who,
        &mut out[NUMBER_PLACE..RECORD_BYTES],
    );
}

// Serves record i.
fn serve(
    s: &Sequence,
    catalogue: &[u8],
    who: u64,
    out: &mut [u8],
    i: usize,
) -> Result<Option<usize>, Refusal>
    requires { IsSound s.now × (i < length catalogue.now / record_bytes) × (length out.old ≡ record_bytes) }
    ensures value { result ≡ serve_of s.now catalogue.now (Some i) }
    ensures out_after { out.new ≡ pick (passes s.now (record_at catalogue.now i)) (seen_by who (record_at catalogue.now i)) out.old }
{
    let at = i * RECORD_BYTES;
    let entry = &catalogue[at..at + RECORD_BYTES];
    if is_good(s, entry) {
        show(entry, who, out);
        return Ok(Some(i));
    }
    Err(Refusal::Record)
}

// The record of a query that passed its checks, found or made; s is its sequence.
fn fetch(
    query: &[u8],
    s: &Sequence,
    catalogue: &[u8],
    who: u64,
    out: &mut [u8],
) -> Result<Option<usize>, Refusal>
    requires { (length query.now ≡ query_bytes) × (s.now ≡ sequence_of query.now) × IsSound s.now × (length out.old ≡ record_bytes) }
    ensures value { result ≡ fetch_of query.now catalogue.now }
    ensures out_after { out.new ≡ served_in who result query.now catalogue.now out.old }
{
    let odd = catalogue.len() % RECORD_BYTES;
    if odd != 0 {
        return Err(Refusal::Catalogue);
    }
    let Some(i) = find(query, catalogue) else {
        write_record(query, s, out);
        return Ok(None);
    };
    serve(s, catalogue, who, out, i)
}

// Looks a query up in a catalogue for who asks: the first record with this query, with its number among the records, or one made.
// Rejected: one that says made before it looks; one that matches the terms without modulus and count; one that takes 257 for an editor.
pub fn look_up(
    query: &[u8],
    catalogue: &[u8],
    who: u64,
    out: &mut [u8],
) -> Result<Option<usize>, Refusal>
    ensures value { result ≡ look_up_of query.now catalogue.now out.old }
    ensures out_after { out.new ≡ served_in who result query.now catalogue.now out.old }
    ensures result_value { looked_up_answer result ≡ look_up_answer query.now catalogue.now out.old }
{
    if out.len() != RECORD_BYTES {
        return Err(Refusal::Buffer);
    }
    let s = sequence::accept(query)?;
    fetch(query, &s, catalogue, who, out)
}
