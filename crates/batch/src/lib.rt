// A batch of up to 16 queries, looked up in one walk along a catalogue.
//
// Each reply is one number, as C gets it from looking up: 0 is made, 256 times 1 + the place is found, else it is a refusal. While the walk goes,
// 0 says that the query looks, so that the lent replies are all that the walk must remember; a record that is met goes to its part at once.
#![tactic(auto)]

ghost use Rattle.std.specs.Prelude.{◌≡◌, ◌+◌, ◌*◌, ◌%◌, ◌≤◌, ◌<◌, length, replicate};
ghost use Rattle.lists.specs.Table.{tabulate};
ghost use Rattle.sequence.specs.Limits.{query_bytes};
ghost use Rattle.sequence.specs.Rules.{IsSound, sequence_of, check_of};
ghost use Rattle.catalogue.specs.Rules.{record_bytes, records};
ghost use Rattle.batch.specs.Rules.{query_at, queries_in, lengths_fit, refused_by, refused_whole, look_up_batch_of, batch_answer, look_up_batch_answer, parts_in, replies_in};
ghost use Rattle.batch.specs.Walk.{Holding};
ghost use Rattle.batch.specs.Inner.{Answered, check_code, offered_part, offered_code, Offered, slots, slot_of, Marked, tested_part, tested_code, settled_part, settled_code, Settled, tally_of};

use catalogue::RECORD_BYTES;
use sequence::{QUERY_BYTES, Refusal, Sequence};

const MAX_QUERIES: usize = 16;

const SLOTS: usize = 4099;

// How many queries were found, made and refused.
#[derive(Clone, Copy)]
pub struct Batch {
    pub found: usize,
    pub made: usize,
    pub refused: usize,
}

// Zeros fill out.
fn clear(out: &mut [u8])
    ensures { out.new ≡ replicate (length out.old) 0 }
{
    out.fill(0);
}

// The reply to a query before the walk.
fn first_reply(query: &[u8]) -> u64
    ensures { result ≡ check_code query.now }
{
    match sequence::accept(query) {
        Ok(_) => 0,
        Err(r) => codes::refused(r),
    }
}

// The replies before the walk.
fn check_all(queries: &[u8], replies: &mut [u64])
    requires { length replies.old ≡ queries_in queries.now }
    ensures { replies.new ≡ tabulate (queries_in queries.now) (λ i. check_code (query_at queries.now i)) }
{
    for i in 0..replies.len() {
        let at = i * QUERY_BYTES;
        replies[i] = first_reply(&queries[at..at + QUERY_BYTES]);
    }
}

// Offers record j to a query. If it takes the record, this goes to its part as who asks sees it.
fn offer(query: &[u8], entry: &[u8], j: usize, who: u64, part: &mut [u8], reply: u64) -> u64
    requires { (length query.now ≡ query_bytes) × (length entry.now ≡ record_bytes) × (length part.old ≡ record_bytes)
        × (256 * (1 + j) < 18446744073709551616) }
    ensures value { result ≡ offered_code query.now entry.now j reply }
    ensures part_after { part.new ≡ offered_part who query.now entry.now part.old reply }
{
    if reply != 0 {
        return reply;
    }
    if catalogue::is_of(query, entry) {
        catalogue::show(entry, who, part);
        return 256 * (1 + j as u64);
    }
    reply
}

// Offers record j to every query.
fn offer_all(queries: &[u8], entry: &[u8], j: usize, who: u64, out: &mut [u8], replies: &mut [u64])
    requires { (length entry.now ≡ record_bytes) × (256 * (1 + j) < 18446744073709551616)
        × (length out.old ≡ queries_in queries.now * record_bytes) × (length replies.old ≡ queries_in queries.now) }
    ensures { Offered who queries.now entry.now j out.old replies.old out.new replies.new }
{
    for i in 0..replies.len() {
        let at = i * QUERY_BYTES;
        let to = i * RECORD_BYTES;
        let r = offer(
            &queries[at..at + QUERY_BYTES],
            entry,
            j,
            who,
            &mut out[to..to + RECORD_BYTES],
            replies[i],
        );
        replies[i] = r;
    }
}

// The slot of the first four terms of a query or a record.
fn slot(entry: &[u8]) -> usize
    requires { 12 ≤ length entry.now }
    ensures { (result ≡ slot_of entry.now) × (result < slots) }
{
    (catalogue::word(entry) % SLOTS as u64) as usize
}

// Marks the slot of every query.
fn mark_all(queries: &[u8], marks: &mut [u8; SLOTS])
    requires { length marks.old ≡ slots }
    ensures { Marked queries.now marks.new (queries_in queries.now) }
{
    let n = queries.len() / QUERY_BYTES;
    for i in 0..n {
        let at = i * QUERY_BYTES;
        marks[slot(&queries[at..at + QUERY_BYTES])] = 1;
    }
}

// Passes record j: it is offered only if its slot is marked. So one test does for all queries, and of nearly all records that none of them takes
// no more than the first four terms are read.
fn pass(
    queries: &[u8],
    marks: &[u8; SLOTS],
    entry: &[u8],
    j: usize,
    who: u64,
    out: &mut [u8],
    replies: &mut [u64],
)
    requires { (length entry.now ≡ record_bytes) × (256 * (1 + j) < 18446744073709551616)
        × (length out.old ≡ queries_in queries.now * record_bytes) × (length replies.old ≡ queries_in queries.now)
        × Marked queries.now marks.now (queries_in queries.now) }
    ensures { Offered who queries.now entry.now j out.old replies.old out.new replies.new }
{
    if marks[slot(entry)] == 0 {
        return;
    }
    offer_all(queries, entry, j, who, out, replies);
}

// Walks along the first n records, each of which is passed once, in their order: only here is the catalogue looked at. What is held after n records,
// for every n, is the promise.
fn walk(queries: &[u8], catalogue: &[u8], n: usize, who: u64, out: &mut [u8], replies: &mut [u64])
    requires n_bound { n ≤ records catalogue.now }
    requires holding { Holding who queries.now catalogue.now 0 out.old replies.old }
    ensures { Holding who queries.now catalogue.now n out.new replies.new }
{
    let mut marks = [0u8; SLOTS];
    mark_all(queries, &mut marks);
    for j in 0..n {
        let at = j * RECORD_BYTES;
        pass(
            queries,
            &marks,
            &catalogue[at..at + RECORD_BYTES],
            j,
            who,
            out,
            replies,
        );
    }
}

// The end of a query that passed its checks; s is its sequence.
fn conclude(query: &[u8], s: &Sequence, part: &mut [u8], reply: u64) -> u64
    requires { (length query.now ≡ query_bytes) × (s.now ≡ sequence_of query.now) × IsSound s.now × (length part.old ≡ record_bytes) }
    ensures value { result ≡ tested_code s.now part.old reply }
    ensures part_after { part.new ≡ tested_part query.now s.now part.old reply }
{
    if reply == 0 {
        catalogue::write_record(query, s, part);
        return 0;
    }
    if catalogue::is_good(s, part) {
        return reply;
    }
    clear(part);
    codes::refused(Refusal::Record)
}

// Settles a query after the walk.
fn settle(query: &[u8], part: &mut [u8], reply: u64) -> u64
    requires { length part.old ≡ record_bytes }
    ensures value { result ≡ settled_code (check_of query.now) query.now part.old reply }
    ensures part_after { part.new ≡ settled_part (check_of query.now) query.now part.old reply }
{
    match sequence::accept(query) {
        Ok(s) => conclude(query, &s, part, reply),
        Err(_) => reply,
    }
}

// Settles every query.
fn settle_all(queries: &[u8], out: &mut [u8], replies: &mut [u64])
    requires { (length out.old ≡ queries_in queries.now * record_bytes) × (length replies.old ≡ queries_in queries.now) }
    ensures { Settled queries.now out.old replies.old out.new replies.new }
{
    for i in 0..replies.len() {
        let at = i * QUERY_BYTES;
        let to = i * RECORD_BYTES;
        let r = settle(
            &queries[at..at + QUERY_BYTES],
            &mut out[to..to + RECORD_BYTES],
            replies[i],
        );
        replies[i] = r;
    }
}

// Before the walk every query has zeros and its refusal, or looks; then the walk along the first n records.
pub fn walk_first(
    queries: &[u8],
    catalogue: &[u8],
    n: usize,
    who: u64,
    out: &mut [u8],
    replies: &mut [u64],
)
    requires { (length out.old ≡ queries_in queries.now * record_bytes) × (length replies.old ≡ queries_in queries.now)
        × (n ≤ records catalogue.now) }
    ensures { Holding who queries.now catalogue.now n out.new replies.new }
{
    clear(out);
    check_all(queries, replies);
    walk(queries, catalogue, n, who, out, replies);
}

// Answers every query: the walk along all records, and what comes after it.
fn answer_all(queries: &[u8], catalogue: &[u8], who: u64, out: &mut [u8], replies: &mut [u64])
    requires { (length out.old ≡ queries_in queries.now * record_bytes) × (length replies.old ≡ queries_in queries.now)
        × (length catalogue.now % record_bytes ≡ 0) }
    ensures { Answered who queries.now catalogue.now out.new replies.new }
{
    walk_first(
        queries,
        catalogue,
        catalogue.len() / RECORD_BYTES,
        who,
        out,
        replies,
    );
    settle_all(queries, out, replies);
}

// How many of the replies were found, made and refused.
fn tally(replies: &[u64]) -> Batch
    ensures { result ≡ tally_of replies.now }
{
    let mut batch = Batch {
        found: 0,
        made: 0,
        refused: 0,
    };
    for &reply in replies {
        if reply == 0 {
            batch.made += 1;
        } else if reply % 256 == 0 {
            batch.found += 1;
        } else {
            batch.refused += 1;
        }
    }
    batch
}

// Whether the lengths fit. Nothing is multiplied, since a length may be any number.
fn lengths_fit(queries: usize, out: usize, replies: usize) -> bool
    ensures { result ≡ lengths_fit queries out replies }
{
    if queries % QUERY_BYTES != 0 {
        return false;
    }
    if queries / QUERY_BYTES != replies {
        return false;
    }
    if out % RECORD_BYTES != 0 {
        return false;
    }
    if out / RECORD_BYTES != replies {
        return false;
    }
    true
}

// The refusal of the whole call by what is wrong, in the order 5, 34, 23: the lengths, too many queries, the catalogue's length.
fn refused_by(misfit: bool, many: bool, uneven: bool) -> Result<(), Refusal>
    ensures { result ≡ refused_by misfit many uneven }
{
    if misfit {
        return Err(Refusal::Buffer);
    }
    if many {
        return Err(Refusal::Batch);
    }
    if uneven {
        return Err(Refusal::Catalogue);
    }
    Ok(())
}

// The refusal of the whole call, by the lengths in bytes, and in numbers for the replies.
fn refused_whole(
    queries: usize,
    catalogue: usize,
    out: usize,
    replies: usize,
) -> Result<(), Refusal>
    ensures { result ≡ refused_whole queries catalogue out replies }
{
    let misfit = !lengths_fit(queries, out, replies);
    let many = MAX_QUERIES < queries / QUERY_BYTES;
    let uneven = catalogue % RECORD_BYTES != 0;
    refused_by(misfit, many, uneven)
}

// Looks up a batch of queries for who asks: each gets what it would get alone, in one walk along the catalogue.
// Rejected: one that serves the last match; one that leaves the part of a refused query as lent; one that serves equal queries only once.
pub fn look_up_batch(
    queries: &[u8],
    catalogue: &[u8],
    who: u64,
    out: &mut [u8],
    replies: &mut [u64],
) -> Result<Batch, Refusal>
    ensures value { result ≡ look_up_batch_of queries.now catalogue.now out.old replies.old }
    ensures out_after { out.new ≡ parts_in who result queries.now catalogue.now out.old }
    ensures replies_after { replies.new ≡ replies_in result queries.now catalogue.now replies.old }
    ensures result_value { batch_answer result ≡ look_up_batch_answer queries.now catalogue.now out.old replies.old }
{
    refused_whole(queries.len(), catalogue.len(), out.len(), replies.len())?;
    answer_all(queries, catalogue, who, out, replies);
    Ok(tally(replies))
}
