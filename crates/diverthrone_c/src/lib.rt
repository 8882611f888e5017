// The exports for C: each calls the function of `diverthrone` with its name and promises the same, clause for clause. A slice passes as a pointer and a
// length; include/diverthrone.h has the declarations. They are twins of those of `diverthrone` since C needs exported names, and the claims about the
// calls stand on a library.
#![tactic(auto)]

ghost use Rattle.std.specs.Prelude.{◌≡◌};
ghost use Rattle.sequence.specs.Report.{filled};
ghost use Rattle.candidate.specs.Rules.{verify_answer, generate_of, generate_answer, generated_in};
ghost use Rattle.catalogue.specs.Rules.{record_of, synthesize_of, synthesize_answer, look_up_of, look_up_answer, served_in};
ghost use Rattle.lines.specs.Reading.{found_in};
ghost use Rattle.lines.specs.Reply.{read_of, read_answer, query_in};
ghost use Rattle.merge.specs.Rules.{merge_of, merge_answer, merged_in};
ghost use Rattle.period.specs.Rules.{period_length_answer};
ghost use Rattle.enumeration.specs.Rules.{enumerate_of, enumerate_answer, query_numbered, tally_of, tally_answer, tally_cells};
ghost use Rattle.batch.specs.Rules.{look_up_batch_of, look_up_batch_answer, parts_in, replies_in};
ghost use Rattle.codes.specs.Codes.{code_of, length_code_of, counts_code_of};

// Makes the record of a query.
#[unsafe(no_mangle)]
pub extern "C" fn diverthrone_synthesize(query: &[u8], out: &mut [u8]) -> u64
    ensures value { result ≡ code_of (synthesize_answer query.now out.old) }
    ensures out_after { out.new ≡ filled (synthesize_of query.now out.old) (record_of query.now) out.old }
{
    diverthrone::diverthrone_synthesize(query, out)
}

// Looks a query up in a catalogue for who asks: 1 is an editor, any other number a visitor.
#[unsafe(no_mangle)]
pub extern "C" fn diverthrone_look_up(
    query: &[u8],
    catalogue: &[u8],
    who: u64,
    out: &mut [u8],
) -> u64
    ensures value { result ≡ code_of (look_up_answer query.now catalogue.now out.old) }
    ensures out_after { out.new ≡ served_in who (look_up_of query.now catalogue.now out.old) query.now catalogue.now out.old }
{
    diverthrone::diverthrone_look_up(query, catalogue, who, out)
}

// Tests a candidate against a query.
#[unsafe(no_mangle)]
pub extern "C" fn diverthrone_verify(query: &[u8], a: &[u8], b: &[u8], length: u32) -> u64
    ensures { result ≡ code_of (verify_answer query.now a.now b.now length) }
{
    diverthrone::diverthrone_verify(query, a, b, length)
}

// Runs a candidate for as many cells as are lent.
#[unsafe(no_mangle)]
pub extern "C" fn diverthrone_generate(
    modulus: u32,
    a: &[u8],
    b: &[u8],
    length: u32,
    out: &mut [u8],
) -> u64
    ensures value { result ≡ code_of (generate_answer modulus a.now b.now length out.old) }
    ensures out_after { out.new ≡ generated_in (generate_of modulus a.now b.now length out.old) modulus a.now b.now length out.old }
{
    diverthrone::diverthrone_generate(modulus, a, b, length, out)
}

// Reads a typed line into a query.
#[unsafe(no_mangle)]
pub extern "C" fn diverthrone_read_line(line: &[u8], query: &mut [u8]) -> u64
    ensures value { result ≡ code_of (read_answer line.now query.old) }
    ensures query_after { query.new ≡ filled (read_of line.now query.old) (query_in (found_in line.now)) query.old }
{
    diverthrone::diverthrone_read_line(line, query)
}

// Merges two queries to one modulo the least common multiple of their moduli.
#[unsafe(no_mangle)]
pub extern "C" fn diverthrone_merge(first: &[u8], second: &[u8], query: &mut [u8]) -> u64
    ensures value { result ≡ code_of (merge_answer first.now second.now query.old) }
    ensures query_after { query.new ≡ merged_in (merge_of first.now second.now query.old) first.now second.now query.old }
{
    diverthrone::diverthrone_merge(first, second, query)
}

// The length of the binary sequence whose period is lent.
#[unsafe(no_mangle)]
pub extern "C" fn diverthrone_period_length(cells: &[u8]) -> u64
    ensures { result ≡ length_code_of (period_length_answer cells.now) }
{
    diverthrone::diverthrone_period_length(cells)
}

// Writes the query of the sequence of count terms with this number.
#[unsafe(no_mangle)]
pub extern "C" fn diverthrone_enumerate(
    modulus: u32,
    count: u32,
    number: u64,
    query: &mut [u8],
) -> u64
    ensures value { result ≡ code_of (enumerate_answer modulus count number query.old) }
    ensures query_after { query.new ≡ filled (enumerate_of modulus count number query.old) (query_numbered modulus count number) query.old }
{
    diverthrone::diverthrone_enumerate(modulus, count, number, query)
}

// How many sequences of count terms have each length.
#[unsafe(no_mangle)]
pub extern "C" fn diverthrone_tally(modulus: u32, count: u32, cells: &mut [u8]) -> u64
    ensures value { result ≡ code_of (tally_answer modulus count cells.old) }
    ensures cells_after { cells.new ≡ filled (tally_of modulus count cells.old) (tally_cells modulus count) cells.old }
{
    diverthrone::diverthrone_tally(modulus, count, cells)
}

// Looks up a batch of queries in one walk along a catalogue. Each query's reply is the one that diverthrone_look_up gives it alone.
#[unsafe(no_mangle)]
pub extern "C" fn diverthrone_look_up_batch(
    queries: &[u8],
    catalogue: &[u8],
    who: u64,
    records: &mut [u8],
    replies: &mut [u64],
) -> u64
    ensures value { result ≡ counts_code_of (look_up_batch_answer queries.now catalogue.now records.old replies.old) }
    ensures records_after { records.new ≡ parts_in who (look_up_batch_of queries.now catalogue.now records.old replies.old) queries.now catalogue.now records.old }
    ensures replies_after { replies.new ≡ replies_in (look_up_batch_of queries.now catalogue.now records.old replies.old) queries.now catalogue.now replies.old }
{
    diverthrone::diverthrone_look_up_batch(queries, catalogue, who, records, replies)
}
