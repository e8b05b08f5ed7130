// What programs in C or Rust call beside the two ends: packets, the work list, the journal and the plan, on numbers and byte slices.
#![tactic(auto)]

ghost use Rattle.std.specs.Prelude.{◌≡◌, Ok, [], ◌∷◌, ◌<◌, length};
ghost use Rattle.group.specs.Lent.{front};
ghost use Rattle.packet.specs.Packet.{read_of, write_of};
ghost use Rattle.packet.specs.Wording.{writing_wording};
ghost use Rattle.jobs.specs.Feed.{feed_of};
ghost use Rattle.journal.specs.Read.{entry_of};
ghost use Rattle.journal.specs.Read.{read_of as journalOf};
ghost use Rattle.journal.specs.Write.{message_with, writer_after};
ghost use Rattle.plan.specs.Calls.{plan_of, rewrite_of};
ghost use Rattle.plan.specs.Wording.{wording_of as laidWording};
ghost use Rattle.embedding.specs.Codes.{answer_of};
ghost use Rattle.embedding.specs.Lists.{feed_told, Feeds};
ghost use Rattle.embedding.specs.Packets.{read_code, fields_after, header_with};
ghost use Rattle.group.specs.Wording.{refused_wording};
ghost use Rattle.embedding.specs.Journals.{found_of, writer_in, writer_numbers, read_told, writer_found, block_told, writer_behind, record_told, writer_told, Writes, written_of, finished_of};

use group::{MemberNumber, Refusal, SequenceNumber};
use jobs::Job;
use journal::{Block, Tail, Writer};
use packet::Header;

// What a call tells: the code of its answer, and the answer's one number or how many bytes lie at the front of the lent output; 0 where it
// has neither.
#[repr(C)]
#[derive(Clone, Copy)]
pub struct Answer {
    pub code: u32,
    pub number: usize,
}

// What reading a journal or one of its blocks tells.
#[repr(C)]
#[derive(Clone, Copy)]
pub struct Found {
    pub code: u32,
    pub blocks: usize,
    pub messages: usize,
}

// What reading a record of a block tells: its payload has that length, from that start on.
#[repr(C)]
#[derive(Clone, Copy)]
pub struct Record {
    pub code: u32,
    pub number: u32,
    pub originator: u32,
    pub count: u32,
    pub start: usize,
    pub length: usize,
}

// The code of each word. The code of a refusal is its number, below all of these.
impl Answer {
    pub const KEPT: u32 = 48;

    pub const NONE: u32 = 54;

    pub const CLOSED: u32 = 57;

    pub const BYTES: u32 = 58;

    pub const FIELDS: u32 = 59;

    pub const READ: u32 = 60;

    pub const RIGHT: u32 = 61;

    pub const WRONG: u32 = 62;

    pub const ADDED: u32 = 64;

    pub const GIVEN: u32 = 65;

    // What a refusal tells.
    #[tactic(auto, unfolding(crate::specs::Codes::answer_of, crate::specs::Codes::code_of, crate::specs::Codes::numbers_of))]
    fn refused(refusal: Refusal) -> Self
        ensures { result ≡ answer_of (refused_wording refusal) }
    {
        Answer {
            code: refusal.number() as u32,
            number: 0,
        }
    }
}

impl Found {
    // What a refusal tells.
    #[tactic(auto, unfolding(crate::specs::Journals::found_of, crate::specs::Codes::code_of, crate::specs::Codes::numbers_of))]
    fn refused(refusal: Refusal) -> Self
        ensures { result ≡ found_of (refused_wording refusal) }
    {
        Found {
            code: refusal.number() as u32,
            blocks: 0,
            messages: 0,
        }
    }
}

// Reads a packet: its fields (kind, member, group, A, B, C) are laid in the lent numbers; a refusal leaves them.
#[unsafe(no_mangle)]
pub extern "C" fn warghytes_packet_read(packet: &[u8], fields: &mut [u32; 6]) -> u32
    ensures answer { result ≡ read_code (read_of packet.now) }
    ensures lent { fields.new ≡ fields_after (read_of packet.now) fields.old }
{
    let reading = packet::read(packet);
    match reading {
        Ok(h) => {
            *fields = [h.kind as u32, h.member.0 as u32, h.group, h.a, h.b, h.c];
            Answer::FIELDS
        }
        Err(q) => q.number() as u32,
    }
}

// Writes a packet to the front of the lent output, and tells how many bytes it has.
#[unsafe(no_mangle)]
pub extern "C" fn warghytes_packet_write(
    kind: u8,
    member: u8,
    group: u32,
    a: u32,
    b: u32,
    c: u32,
    payload: &[u8],
    out: &mut [u8],
) -> Answer
    ensures answer { result ≡ answer_of (writing_wording (write_of (header_with kind member group a b c) payload.now (length out.old)).answer) }
    ensures lent { out.new ≡ front (write_of (header_with kind member group a b c) payload.now (length out.old)).bytes out.old }
{
    let h = Header {
        kind,
        member: MemberNumber(member),
        group,
        a,
        b,
        c,
    };
    let writing = packet::write(h, payload, out);
    match writing {
        Ok(k) => Answer {
            code: Answer::BYTES,
            number: k,
        },
        Err(q) => Answer::refused(q),
    }
}

// What a feed's answer tells.
#[tactic(auto, using(crate::proofs::Answers::added_answer, crate::proofs::Answers::given_answer, crate::proofs::Answers::none_answer), unfolding(jobs::specs::Wording::wording_of))]
fn feed_tells(answer: Result<jobs::Answer, Refusal>) -> Answer
    ensures { result ≡ feed_told answer }
{
    match answer {
        Err(q) => Answer::refused(q),
        Ok(jobs::Answer::Added) => Answer {
            code: Answer::ADDED,
            number: 0,
        },
        Ok(jobs::Answer::Given(place)) => Answer {
            code: Answer::GIVEN,
            number: place,
        },
        Ok(jobs::Answer::None) => Answer {
            code: Answer::NONE,
            number: 0,
        },
    }
}

// Feeds a work list that is lent what was taken: the message's originator and its payload. A list of zeros is empty.
#[unsafe(no_mangle)]
pub extern "C" fn warghytes_jobs_feed(jobs: &mut [Job], member: u8, payload: &[u8]) -> Answer
    ensures { Feeds (feed_of jobs.old (record { 0 = member }) payload.now) result jobs.new }
{
    let answer = jobs::feed(jobs, MemberNumber(member), payload);
    feed_tells(answer)
}

// A tail by its numbers: any number above the last may follow if `free` is not 0.
#[tactic(auto, unfolding(crate::specs::Journals::writer_in))]
fn tail_in(last: u32, free: u32) -> Tail
    ensures { result ≡ (writer_in (last ∷ free ∷ [])).tail }
{
    Tail {
        last: SequenceNumber(last),
        free: free != 0,
    }
}

// A writer by its numbers.
#[tactic(auto, unfolding(crate::specs::Journals::writer_in))]
fn writer_in(last: u32, free: u32, first: u32, records: u32, used: u32) -> Writer
    ensures is { result ≡ writer_in (last ∷ free ∷ first ∷ records ∷ used ∷ []) }
    ensures small { (result.records < 4294967296) × (result.used < 4294967296) }
{
    Writer {
        tail: tail_in(last, free),
        first: SequenceNumber(first),
        records: records as usize,
        used: used as usize,
    }
}

// The numbers of a writer.
#[tactic(auto, using(group::proofs::Choice::choices), unfolding(crate::specs::Journals::writer_numbers))]
fn numbers_of(writer: Writer) -> [u32; 5]
    requires { (writer.records < 4294967296) × (writer.used < 4294967296) }
    ensures { result ≡ writer_numbers writer }
{
    [
        writer.tail.last.0,
        writer.tail.free as u32,
        writer.first.0,
        writer.records as u32,
        writer.used as u32,
    ]
}

// The numbers of a writer behind a tail, with no record in hand.
fn numbers_after(tail: Tail) -> [u32; 5]
    ensures { result ≡ writer_numbers (writer_after tail) }
{
    numbers_of(Writer::after(tail))
}

// Reads a journal: how many blocks and messages precede the first wrong block. The lent writer becomes one that goes on behind them.
#[tactic(auto, using(crate::proofs::Founds::read_found), unfolding(journal::specs::Wording::reading_wording, crate::specs::Journals::writer_found))]
#[unsafe(no_mangle)]
pub extern "C" fn warghytes_journal_read(journal: &[u8], writer: &mut [u32; 5]) -> Found
    ensures answer { result ≡ read_told (journalOf journal.now) }
    ensures writer { writer.new ≡ writer_found (journalOf journal.now) writer.old }
{
    match journal::read(journal) {
        Ok(found) => {
            *writer = numbers_after(found.tail);
            Found {
                code: Answer::READ,
                blocks: found.blocks,
                messages: found.messages,
            }
        }
        Err(refusal) => Found::refused(refusal),
    }
}

// Reads one block behind what the lent writer has: if it is right, the writer goes on behind it.
#[tactic(auto, using(group::proofs::Choice::choices, crate::proofs::Founds::right_found, crate::proofs::Founds::wrong_found), unfolding(journal::specs::Wording::block_wording, crate::specs::Journals::block_told, crate::specs::Journals::writer_behind, crate::specs::Journals::writer_at, crate::specs::Journals::writer_in))]
#[unsafe(no_mangle)]
pub extern "C" fn warghytes_journal_next(writer: &mut [u32; 5], block: &[u8]) -> Found
    ensures answer { result ≡ block_told writer.old block.now }
    ensures writer { writer.new ≡ writer_behind writer.old block.now }
{
    if 1 < writer[1] {
        return Found::refused(Refusal::UnsoundState);
    }
    let tail = tail_in(writer[0], writer[1]);
    match tail.next(block) {
        Some(found) => {
            *writer = numbers_after(found.tail);
            Found {
                code: Answer::RIGHT,
                blocks: found.blocks,
                messages: found.messages,
            }
        }
        None => Found {
            code: Answer::WRONG,
            blocks: 0,
            messages: 0,
        },
    }
}

// Reads the record that stands at an index of a block, under that number.
#[tactic(auto, using(crate::proofs::Founds::right_entry, crate::proofs::Founds::wrong_entry), unfolding(journal::specs::Wording::entry_wording))]
#[unsafe(no_mangle)]
pub extern "C" fn warghytes_journal_record(block: &[u8], at: usize, number: u32) -> Record
    ensures { result ≡ record_told (entry_of block.now at (record { 0 = number })) }
{
    match journal::record_at(block, at, SequenceNumber(number)) {
        Some(record) => Record {
            code: Answer::RIGHT,
            number: record.number.0,
            originator: record.originator.0 as u32,
            count: record.count,
            start: record.start,
            length: record.length,
        },
        None => Record {
            code: Answer::WRONG,
            number: 0,
            originator: 0,
            count: 0,
            start: 0,
            length: 0,
        },
    }
}

// What a writer that was not refused tells.
#[tactic(auto, using(crate::proofs::Writing::kept_told_lem, crate::proofs::Writing::closed_told))]
fn writer_tells(answer: journal::Answer, written: usize) -> Answer
    ensures { result ≡ writer_told (Ok answer) written }
{
    let code = match answer {
        journal::Answer::Kept => Answer::KEPT,
        journal::Answer::Closed => Answer::CLOSED,
    };
    Answer {
        code,
        number: written,
    }
}

// Writes a message: its record goes to the lent block in hand, and where it does not fit, that block to the lent output.
#[tactic(auto, using(crate::proofs::Writing::write_small, crate::proofs::Writing::step_small,))]
#[unsafe(no_mangle)]
pub extern "C" fn warghytes_journal_write(
    writer: &mut [u32; 5],
    number: u32,
    originator: u8,
    count: u32,
    payload: &[u8],
    hand: &mut [u8; Block::SIZE],
    out: &mut [u8; Block::SIZE],
) -> Answer
    ensures { Writes (written_of writer.old (message_with (record { 0 = number }) (record { 0 = originator }) count payload.now) hand.old) result writer.new hand.new out.old out.new }
{
    if 1 < writer[1] {
        return Answer::refused(Refusal::UnsoundState);
    }
    let state = writer_in(writer[0], writer[1], writer[2], writer[3], writer[4]);
    let written = state.write(
        SequenceNumber(number),
        MemberNumber(originator),
        count,
        payload,
        hand,
        out,
    );
    match written {
        Ok(step) => {
            *writer = numbers_of(step.writer);
            writer_tells(step.answer, step.written)
        }
        Err(refusal) => Answer::refused(refusal),
    }
}

// Shutdown: what is in hand goes to the lent output; without a record, nothing.
#[tactic(auto, using(crate::proofs::Writing::finish_small, crate::proofs::Writing::step_small,))]
#[unsafe(no_mangle)]
pub extern "C" fn warghytes_journal_finish(
    writer: &mut [u32; 5],
    hand: &[u8; Block::SIZE],
    out: &mut [u8; Block::SIZE],
) -> Answer
    ensures { Writes (finished_of writer.old hand.now) result writer.new hand.now out.old out.new }
{
    if 1 < writer[1] {
        return Answer::refused(Refusal::UnsoundState);
    }
    let state = writer_in(writer[0], writer[1], writer[2], writer[3], writer[4]);
    match state.finish(hand, out) {
        Ok(step) => {
            *writer = numbers_of(step.writer);
            writer_tells(step.answer, step.written)
        }
        Err(refusal) => Answer::refused(refusal),
    }
}

// What laying a plan or a journal tells.
#[tactic(auto, using(crate::proofs::Answers::bytes_answer), unfolding(plan::specs::Wording::wording_of))]
fn plan_tells(answer: Result<usize, Refusal>) -> Answer
    ensures { result ≡ answer_of (laidWording answer) }
{
    match answer {
        Ok(size) => Answer {
            code: Answer::BYTES,
            number: size,
        },
        Err(q) => Answer::refused(q),
    }
}

// Lays the plan of a journal at the front of the lent output.
#[unsafe(no_mangle)]
pub extern "C" fn warghytes_plan(journal: &[u8], out: &mut [u8]) -> Answer
    ensures answer { result ≡ answer_of (laidWording (plan_of journal.now (length out.old)).answer) }
    ensures lent { out.new ≡ front (plan_of journal.now (length out.old)).bytes out.old }
{
    let answer = plan::plan(journal, out);
    plan_tells(answer)
}

// Lays the rewritten journal at the front of the lent output.
#[unsafe(no_mangle)]
pub extern "C" fn warghytes_rewrite(journal: &[u8], out: &mut [u8]) -> Answer
    ensures answer { result ≡ answer_of (laidWording (rewrite_of journal.now (length out.old)).answer) }
    ensures lent { out.new ≡ front (rewrite_of journal.now (length out.old)).bytes out.old }
{
    let answer = plan::rewrite(journal, out);
    plan_tells(answer)
}
