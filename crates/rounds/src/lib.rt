// Rounds of calls for the benchmark and the fuzz, of what does not cross a boundary by itself: reading packets, the work list, the
// journal and its plan, and the generator; no user links it. What the calls answer comes back as a running sum. Promised is only what is proved of
// every function: it is safe and ends. What it calls has its own promise.
#![tactic(auto)]

ghost use Rattle.std.specs.Prelude.{◌≡◌, ◌+◌, ◌<◌, ◌≤◌, length, IfSome};

use generator::Generator;
use group::{Group, MemberNumber, Refusal, SequenceNumber};
use jobs::Job;
use journal::{Tail, Writer};

// Takes a value into a running sum, so that none is computed for nothing.
fn mix(sum: u64, value: u64) -> u64 {
    let twice = std::num::wrapping_add_u64(sum, sum);
    std::num::wrapping_add_u64(std::num::wrapping_add_u64(twice, sum), value)
}

fn wide(x: u8) -> usize
    ensures { result ≤ 255 }
{
    x as usize
}

// The entry at the front of a list, if none of it is cut off: a head of so many bytes, in which two bytes at an index, the
// highest first, give the size of its body; that body; and what stands behind it.
fn entry(list: &[u8], head: usize, place: usize) -> Option<(&[u8], &[u8], &[u8])>
    requires { place + 2 ≤ head }
    ensures { IfSome result (λ e. (length e.0.now ≡ head) × (length e.2.now < length list.now)) }
{
    if list.len() < head {
        return None;
    }
    let size = wide(list[place]) * 256 + wide(list[place + 1]);
    let rest = &list[head..];
    if rest.len() < size {
        return None;
    }
    Some((&list[..head], &rest[..size], &rest[size..]))
}

// Takes all that reading a packet gives into a running sum.
fn reading_sum(sum: u64, reading: Result<packet::Header, Refusal>) -> u64 {
    match reading {
        Ok(h) => {
            let first = mix(
                mix(mix(sum, h.kind as u64), h.member.0 as u64),
                h.group as u64,
            );
            mix(mix(mix(first, h.a as u64), h.b as u64), h.c as u64)
        }
        Err(q) => mix(sum, q.number() as u64),
    }
}

// The repeat counts of all members, added up.
#[unsafe(no_mangle)]
pub extern "C" fn rounds_repeats(table: &[u32; Group::MEMBERS]) -> u32 {
    history::repeats(table)
}

// Reads each packet of a list, up to one that is cut off.
#[unsafe(no_mangle)]
pub extern "C" fn rounds_read_list(mut sum: u64, packets: &[u8]) -> u64 {
    let mut rest = packets;
    // kept: a while, since an entry says how many bytes it used.
    while let Some((_, packet, behind)) = entry(rest, 2, 0) {
        sum = reading_sum(sum, packet::read(packet));
        rest = behind;
    }
    sum
}

// Steps of the generator, each with its output.
#[unsafe(no_mangle)]
pub extern "C" fn rounds_generator(seed: u32, rounds: u32) -> u64 {
    let mut generator = Generator { state: seed };
    let mut sum: u64 = 0;
    for _ in 0..rounds {
        generator = generator.step();
        sum = mix(sum, generator.output() as u64);
    }
    sum
}

// The bytes of a record of a work list that crosses: its state, its member, four bytes with its length, the highest first, and
// those of its job.
const RECORD: usize = 6 + Group::JOB;

// Takes what a feed answers into a running sum.
fn feed_sum(sum: u64, answer: Result<jobs::Answer, Refusal>) -> u64 {
    let code = match answer {
        Err(q) => q.number() as u64,
        Ok(jobs::Answer::Added) => 64,
        Ok(jobs::Answer::Given(place)) => mix(65, place as u64),
        Ok(jobs::Answer::None) => 66,
    };
    mix(sum, code)
}

// Takes all of a record into a running sum.
fn record_sum(sum: u64, job: Job) -> u64 {
    let head = mix(
        mix(mix(sum, job.state as u64), job.member.0 as u64),
        job.length as u64,
    );
    job.bytes
        .iter()
        .fold(head, |sum, &byte| mix(sum, byte as u64))
}

// Takes all records into a running sum.
fn list_sum(sum: u64, jobs: [Job; Group::JOBS]) -> u64 {
    jobs.iter().fold(sum, |sum, &job| record_sum(sum, job))
}

// The record that has these bytes.
fn record_of(laid: &[u8]) -> Job
    requires { length laid.now ≡ 245 }
{
    let mut bytes = [0u8; Group::JOB];
    bytes.copy_from_slice(&laid[6..]);
    Job {
        state: laid[0],
        member: MemberNumber(laid[1]),
        length: big_endian::u32_at(laid, 2) as usize,
        bytes,
    }
}

// The list whose first records are these, and the others unused.
fn list_of(records: &[u8]) -> [Job; Group::JOBS] {
    let mut jobs = jobs::no_jobs();
    for (job, laid) in jobs.iter_mut().zip(records.chunks_exact(RECORD)) {
        *job = record_of(laid);
    }
    jobs
}

// A list and the running sum of its answers.
#[derive(Clone, Copy)]
struct Feeding {
    jobs: [Job; Group::JOBS],
    sum: u64,
}

// Feeds a list each of many feeds, up to one that is cut off: two bytes with the payload's size and the member stand before it.
fn list_hears(mut jobs: [Job; Group::JOBS], mut sum: u64, feeds: &[u8]) -> Feeding {
    let mut rest = feeds;
    // kept: a while, since an entry says how many bytes it used.
    while let Some((head, payload, behind)) = entry(rest, 3, 0) {
        let outcome = jobs::feed_array(jobs, MemberNumber(head[2]), payload);
        jobs = outcome.jobs;
        sum = feed_sum(sum, outcome.answer);
        rest = behind;
    }
    Feeding { jobs, sum }
}

// Rounds of feeding a list, each time the same: the sum of its answers, and then of what the last round left.
#[unsafe(no_mangle)]
pub extern "C" fn rounds_feeds(records: &[u8], feeds: &[u8], rounds: u32) -> u64 {
    let start = list_of(records);
    let mut last = start;
    let mut sum: u64 = 0;
    for _ in 0..rounds {
        let run = list_hears(start, sum, feeds);
        last = run.jobs;
        sum = run.sum;
    }
    list_sum(sum, last)
}

// Takes what reading a journal answers into a running sum.
#[unsafe(no_mangle)]
pub extern "C" fn rounds_journal_read(sum: u64, journal: &[u8]) -> u64 {
    match journal::read(journal) {
        Ok(found) => {
            let counted = mix(mix(sum, found.blocks as u64), found.messages as u64);
            mix(
                mix(counted, found.tail.last.0 as u64),
                found.tail.free as u64,
            )
        }
        Err(refusal) => mix(sum, refusal.number() as u64),
    }
}

// Takes what reading the record at an index of a block answers into a running sum.
#[unsafe(no_mangle)]
pub extern "C" fn rounds_journal_record(sum: u64, block: &[u8], at: usize, number: u32) -> u64 {
    match journal::record_at(block, at, SequenceNumber(number)) {
        Some(record) => {
            let from = mix(mix(sum, record.number.0 as u64), record.originator.0 as u64);
            let counted = mix(from, record.count as u64);
            mix(mix(counted, record.start as u64), record.length as u64)
        }
        None => mix(sum, 1),
    }
}

// A writer, the index behind the blocks that it laid in the output, and the running sum of its answers.
#[derive(Clone, Copy)]
struct Journaling {
    writer: Writer,
    place: usize,
    sum: u64,
}

// Takes the code of what a writer answered, the writer behind it and the bytes that it wrote into a running sum.
fn writer_sum(sum: u64, code: u64, writer: Writer, written: usize) -> u64 {
    let tail = writer.tail;
    let ended = mix(mix(mix(sum, code), tail.last.0 as u64), tail.free as u64);
    let begun = mix(mix(ended, writer.first.0 as u64), writer.records as u64);
    mix(mix(begun, writer.used as u64), written as u64)
}

// Lays a block that was handed out at an index of the output, where it has room; the index behind it.
fn lay(block: &[u8], written: usize, out: &mut [u8], place: usize) -> usize {
    if block.len() != written || out.len() < place || out.len() - place < block.len() {
        return place;
    }
    text::put_text(block, out, place)
}

// Hands a writer the message with that payload: its head has the number, the originator and the count. The originator 255 means
// shutdown.
fn journal_step(
    writer: Writer,
    head: &[u8],
    payload: &[u8],
    hand: &mut [u8; journal::Block::SIZE],
    block: &mut [u8; journal::Block::SIZE],
) -> Result<journal::Step, Refusal>
    requires { length head.now ≡ 11 }
{
    let originator = head[4];
    if originator == 255 {
        return writer.finish(hand, block);
    }
    writer.write(
        SequenceNumber(big_endian::u32_at(head, 0)),
        MemberNumber(originator),
        big_endian::u32_at(head, 5),
        payload,
        hand,
        block,
    )
}

// Hands a writer each message of a list, up to one that is cut off.
fn journal_writes(
    mut run: Journaling,
    messages: &[u8],
    hand: &mut [u8; journal::Block::SIZE],
    block: &mut [u8; journal::Block::SIZE],
    out: &mut [u8],
) -> Journaling {
    let mut rest = messages;
    // kept: a while, since an entry says how many bytes it used.
    while let Some((head, payload, behind)) = entry(rest, 11, 9) {
        match journal_step(run.writer, head, payload, hand, block) {
            Ok(step) => {
                let code = match step.answer {
                    journal::Answer::Kept => 48,
                    journal::Answer::Closed => 57,
                };
                run.writer = step.writer;
                run.place = lay(block, step.written, out, run.place);
                run.sum = writer_sum(run.sum, code, step.writer, step.written);
            }
            Err(refusal) => {
                run.sum = writer_sum(run.sum, refusal.number() as u64, run.writer, 0);
            }
        }
        rest = behind;
    }
    run
}

// Rounds of handing a writer a list of messages, each time in the same state, which may be an unsound one: the sum of its
// answers and of its states. The blocks stand at the front of the output, as far as it has room.
#[unsafe(no_mangle)]
pub extern "C" fn rounds_journal_write(
    last: u32,
    free: u8,
    first: u32,
    records: usize,
    used: usize,
    messages: &[u8],
    rounds: u32,
    out: &mut [u8],
) -> u64 {
    let tail = Tail {
        last: SequenceNumber(last),
        free: free != 0,
    };
    let writer = Writer {
        tail,
        first: SequenceNumber(first),
        records,
        used,
    };
    let mut hand = [0u8; journal::Block::SIZE];
    let mut block = [0u8; journal::Block::SIZE];
    let mut sum: u64 = 0;
    for _ in 0..rounds {
        let fresh = Journaling {
            writer,
            place: 0,
            sum,
        };
        sum = journal_writes(fresh, messages, &mut hand, &mut block, out).sum;
    }
    sum
}

// Takes what planning or rewriting a journal answers into a running sum.
fn laid_sum(sum: u64, answer: Result<usize, Refusal>) -> u64 {
    match answer {
        Ok(size) => mix(mix(sum, 68), size as u64),
        Err(q) => mix(sum, q.number() as u64),
    }
}

// Lays the plan of a journal in the output, and takes the answer into a running sum.
#[unsafe(no_mangle)]
pub extern "C" fn rounds_plan(sum: u64, journal: &[u8], out: &mut [u8]) -> u64 {
    let answer = plan::plan(journal, out);
    laid_sum(sum, answer)
}

// The same of the rewritten journal.
#[unsafe(no_mangle)]
pub extern "C" fn rounds_rewrite(sum: u64, journal: &[u8], out: &mut [u8]) -> u64 {
    let answer = plan::rewrite(journal, out);
    laid_sum(sum, answer)
}
