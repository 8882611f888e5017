// The functions for C, which the static library `diverthrone_c` exports under these names; include/diverthrone.h has the declarations.
#![tactic(auto)]

ghost use Rattle.std.specs.Prelude.{◌≡◌};
ghost use Rattle.sequence.specs.Report.{filled};
ghost use Rattle.candidate.specs.Rules.{verify_answer, generate_of, generate_answer, generated_in};
ghost use Rattle.catalogue.specs.Rules.{record_of, synthesize_of, synthesize_answer, look_up_of, look_up_answer, served_in};
ghost use Rattle.lines.specs.Reading.{found_in};
ghost use Rattle.lines.specs.Reply.{read_of, read_answer, query_in};
ghost use Rattle.merge.specs.Rules.{merge_of, merge_answer, merged_in};
ghost use Rattle.period.specs.Rules.{period_length_answer};
ghost use Rattle.enumeration.specs.Rules.{enumerate_of, enumerate_answer, query_numbered, tally_of, tally_answer, tally_cells};
ghost use Rattle.batch.specs.Rules.{look_up_batch_of, look_up_batch_answer, parts_in, replies_in};
ghost use Rattle.codes.specs.Codes.{code_of, length_code_of, counts_code_of};

// Makes the record of a query.
// Rejected: one that refuses every query; one that writes the query's bytes before it refuses.
pub fn diverthrone_synthesize(query: &[u8], out: &mut [u8]) -> u64
    ensures value { result ≡ code_of (synthesize_answer query.now out.old) }
    ensures out_after { out.new ≡ filled (synthesize_of query.now out.old) (record_of query.now) out.old }
{
    codes::done(catalogue::synthesize(query, out))
}

// Looks a query up in a catalogue for who asks: 1 is an editor, any other number a visitor.
// Rejected: one that says made before it looks; one that serves a record whose place it does not tell; one that cuts who asks to 32 bits.
pub fn diverthrone_look_up(query: &[u8], catalogue: &[u8], who: u64, out: &mut [u8]) -> u64
    ensures value { result ≡ code_of (look_up_answer query.now catalogue.now out.old) }
    ensures out_after { out.new ≡ served_in who (look_up_of query.now catalogue.now out.old) query.now catalogue.now out.old }
{
    match catalogue::look_up(query, catalogue, who, out) {
        Ok(None) => 0, // made
        Ok(Some(i)) => 256 * (1 + i as u64),
        Err(r) => codes::refused(r),
    }
}

// Tests a candidate against a query.
// Rejected: one that says no without the place; one that answers a malformed candidate with no.
pub fn diverthrone_verify(query: &[u8], a: &[u8], b: &[u8], length: u32) -> u64
    ensures { result ≡ code_of (verify_answer query.now a.now b.now length) }
{
    match candidate::verify(query, a, b, length) {
        Ok(None) => 0, // yes
        Ok(Some(i)) => 256 * (1 + u64::from(i)),
        Err(r) => codes::refused(r),
    }
}

// Runs a candidate for as many cells as are lent.
// Rejected: one that fills all cells but the last; one that runs a candidate with a_0 = 2.
pub fn diverthrone_generate(modulus: u32, a: &[u8], b: &[u8], length: u32, out: &mut [u8]) -> u64
    ensures value { result ≡ code_of (generate_answer modulus a.now b.now length out.old) }
    ensures out_after { out.new ≡ generated_in (generate_of modulus a.now b.now length out.old) modulus a.now b.now length out.old }
{
    codes::done(candidate::generate(modulus, a, b, length, out))
}

// Reads a typed line into a query.
// Rejected: one that tells the place from 1; one that clears the query's bytes before it refuses.
pub fn diverthrone_read_line(line: &[u8], query: &mut [u8]) -> u64
    ensures value { result ≡ code_of (read_answer line.now query.old) }
    ensures query_after { query.new ≡ filled (read_of line.now query.old) (query_in (found_in line.now)) query.old }
{
    codes::done(lines::read_line(line, query))
}

// Merges two queries to one modulo the least common multiple of their moduli.
// Rejected: one that merges the first with itself; one that clears the query's bytes before it refuses.
pub fn diverthrone_merge(first: &[u8], second: &[u8], query: &mut [u8]) -> u64
    ensures value { result ≡ code_of (merge_answer first.now second.now query.old) }
    ensures query_after { query.new ≡ merged_in (merge_of first.now second.now query.old) first.now second.now query.old }
{
    codes::done(merge::merge(first, second, query))
}

// The length of the binary sequence whose period is lent.
// Rejected: one that tells 1 more than the length; one that tells 3 without its place.
pub fn diverthrone_period_length(cells: &[u8]) -> u64
    ensures { result ≡ length_code_of (period_length_answer cells.now) }
{
    match period::period_length(cells) {
        Ok(l) => 256 * u64::from(l),
        Err(r) => codes::refused(r),
    }
}

// Writes the query of the sequence of count terms with this number.
// Rejected: one that cuts the number to 32 bits; one that clears the query's bytes before it refuses.
pub fn diverthrone_enumerate(modulus: u32, count: u32, number: u64, query: &mut [u8]) -> u64
    ensures value { result ≡ code_of (enumerate_answer modulus count number query.old) }
    ensures query_after { query.new ≡ filled (enumerate_of modulus count number query.old) (query_numbered modulus count number) query.old }
{
    codes::done(enumeration::enumerate(modulus, count, number, query))
}

// How many sequences of count terms have each length.
// Rejected: the count and the modulus exchanged; one that tallies one term fewer.
pub fn diverthrone_tally(modulus: u32, count: u32, cells: &mut [u8]) -> u64
    ensures value { result ≡ code_of (tally_answer modulus count cells.old) }
    ensures cells_after { cells.new ≡ filled (tally_of modulus count cells.old) (tally_cells modulus count) cells.old }
{
    codes::done(enumeration::tally(modulus, count, cells))
}

// Looks up a batch of queries in one walk along a catalogue. Each query's reply is the one that diverthrone_look_up gives it alone.
// Rejected: one that tells made before found; one that cuts who asks to 32 bits; one that clears the records before it refuses.
pub fn diverthrone_look_up_batch(
    queries: &[u8],
    catalogue: &[u8],
    who: u64,
    records: &mut [u8],
    replies: &mut [u64],
) -> u64
    ensures value { result ≡ counts_code_of (look_up_batch_answer queries.now catalogue.now records.old replies.old) }
    ensures records_after { records.new ≡ parts_in who (look_up_batch_of queries.now catalogue.now records.old replies.old) queries.now catalogue.now records.old }
    ensures replies_after { replies.new ≡ replies_in (look_up_batch_of queries.now catalogue.now records.old replies.old) queries.now catalogue.now replies.old }
{
    match batch::look_up_batch(queries, catalogue, who, records, replies) {
        Ok(b) => codes::counts(b.found, b.made, b.refused),
        Err(r) => codes::refused(r),
    }
}
