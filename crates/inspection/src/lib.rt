// What a schedule leaves at the end: a heading, and then a line a terminal; a work list, and a line a job.
#![tactic(auto)]

ghost use Rattle.std.specs.Prelude.{◌≡◌, [], ◌∷◌, ◌++◌, map, ◌+◌, ◌*◌, ◌≤◌, ◌<◌, length, take};
ghost use Rattle.group.specs.Lent.{front};
ghost use Rattle.group.specs.Limits.{members_most, job_most};
ghost use Rattle.packet.specs.Packet.{read_of, payload_at};
ghost use Rattle.simulator.specs.Steps.{Full};
ghost use Rattle.simulator.specs.Whole.{packets_most, rows_of, terminals_of, packets_of, packets_in};
ghost use Rattle.terminal.specs.Left.{heard_of, heard_all, fresh_left};
ghost use Rattle.text.specs.LaidAt.{LaidAt};
ghost use Rattle.text.specs.Written.{decimal_of, payload_text, spaced, line, number_digits};
ghost use Rattle.inspection.specs.Lists.{holder_text, used_line, job_line, job_room};
ghost use Rattle.inspection.specs.Table.{columns, repeats_at, row_at, row_lines, table_of, row_room, table_room, LaysTable, LaysLeft};

use group::{Group, MemberNumber, SequenceNumber};
use jobs::Job;
use player::{Phase, Player, phase_of};
use report::{put_each, write_bad_opening};
use simulator::{NUMBERS, PACKETS, fitting, head_of};
use terminal::Left;
use text::{NUMBER_DIGITS, put, put_decimal, put_number, put_payload, put_text, put_word};

// The columns of the table, and the numbers of a terminal behind its own.
pub const COLUMNS: usize = 6;

// The room of the longest table: for each column of each line a number and what stands behind it; no heading is longer.
pub const TABLE_ROOM: usize = (1 + NUMBER_DIGITS) * COLUMNS * (1 + Group::MEMBERS);

// The room of a job's line: three numbers, the job in hex, and what stands between and behind them.
pub const JOB_ROOM: usize = 3 * NUMBER_DIGITS + 5 + 2 * Group::JOB;

// The limits of specs/ are these constants.
fn columns_most() -> usize
    ensures { result ≡ length columns }
{
    COLUMNS
}

fn table_room() -> usize
    ensures { result ≡ table_room }
{
    TABLE_ROOM
}

fn job_room() -> usize
    ensures { result ≡ job_room }
{
    JOB_ROOM
}

// The repeat count of member i at the sequencer: an entry that its table has.
fn repeats_at(taken: &[u32], repeats: &[u32], i: usize) -> u32
    requires { i < length repeats.now }
    ensures { result ≡ repeats_at taken.now repeats.now i }
{
    if i < taken.len() { repeats[i] } else { 0 }
}

// A terminal's numbers behind its own.
fn row(
    group: Group,
    numbers: &[[u32; NUMBERS]],
    queued: &[[u32; Group::WAITING]],
    held: &[[u32; Group::HELD]],
    queued_originators: &[[u8; Group::WAITING]],
    queued_lengths: &[[u8; Group::WAITING]],
    held_originators: &[[u8; Group::HELD]],
    held_lengths: &[[u8; Group::HELD]],
    queued_payloads: &[[u8; Group::WAITING_BYTES]],
    held_payloads: &[[u8; Group::HELD_BYTES]],
    taken: &[u32],
    repeats: &[u32],
    i: usize,
) -> [u32; COLUMNS - 1]
    requires { (i < members_most) × (length numbers.now ≡ members_most) × Full (rows_of queued.now held.now queued_originators.now queued_lengths.now held_originators.now held_lengths.now queued_payloads.now held_payloads.now) × (length repeats.now ≡ members_most) }
    ensures { result ≡ row_at (terminals_of group numbers.now (rows_of queued.now held.now queued_originators.now queued_lengths.now held_originators.now held_lengths.now queued_payloads.now held_payloads.now)) taken.now repeats.now i }
{
    let own = numbers[i];
    let head = head_of(group, i, own);
    let end = member::row_end_on(
        head,
        &queued[i],
        &held[i],
        &queued_originators[i],
        &queued_lengths[i],
        &held_originators[i],
        &held_lengths[i],
        &queued_payloads[i],
        &held_payloads[i],
    )
    .0;
    let again = repeats_at(taken, repeats, i);
    [head.taken.0, end, head.submitted, head.waiting, again]
}

// The line of terminal i.
fn put_row(i: u32, numbers: &[u32], out: &mut [u8], at: usize) -> usize
    requires { at + (1 + number_digits) * (1 + length numbers.now) ≤ length out.old }
    ensures laid { LaidAt at (line (decimal_of i ∷ map decimal_of numbers.now)) out.old out.new result }
    ensures short { result ≤ at + (1 + number_digits) * (1 + length numbers.now) }
{
    let next = put_decimal(i as u64, out, at);
    let next = put_each(numbers, out, next);
    put(b'\n', out, next)
}

// The rows of the first n terminals.
fn put_rows(
    group: Group,
    numbers: &[[u32; NUMBERS]; Group::MEMBERS],
    queued: &[[u32; Group::WAITING]; Group::MEMBERS],
    held: &[[u32; Group::HELD]; Group::MEMBERS],
    queued_originators: &[[u8; Group::WAITING]; Group::MEMBERS],
    queued_lengths: &[[u8; Group::WAITING]; Group::MEMBERS],
    held_originators: &[[u8; Group::HELD]; Group::MEMBERS],
    held_lengths: &[[u8; Group::HELD]; Group::MEMBERS],
    queued_payloads: &[[u8; Group::WAITING_BYTES]; Group::MEMBERS],
    held_payloads: &[[u8; Group::HELD_BYTES]; Group::MEMBERS],
    taken: &[u32; Group::MEMBERS],
    repeats: &[u32; Group::MEMBERS],
    n: usize,
    out: &mut [u8],
    at: usize,
) -> usize
    requires { (n ≤ members_most) × (at + row_room * n ≤ length out.old) }
    ensures { LaidAt at (row_lines (row_at (terminals_of group numbers.now (rows_of queued.now held.now queued_originators.now queued_lengths.now held_originators.now held_lengths.now queued_payloads.now held_payloads.now)) taken.now repeats.now) n) out.old out.new result }
{
    let mut next = at;
    for i in 0..n {
        let told = row(
            group,
            numbers,
            queued,
            held,
            queued_originators,
            queued_lengths,
            held_originators,
            held_lengths,
            queued_payloads,
            held_payloads,
            taken,
            repeats,
            i,
        );
        next = put_row(i as u32, &told, out, next);
    }
    next
}

// The heading and the rows.
fn put_table(
    group: Group,
    numbers: &[[u32; NUMBERS]; Group::MEMBERS],
    queued: &[[u32; Group::WAITING]; Group::MEMBERS],
    held: &[[u32; Group::HELD]; Group::MEMBERS],
    queued_originators: &[[u8; Group::WAITING]; Group::MEMBERS],
    queued_lengths: &[[u8; Group::WAITING]; Group::MEMBERS],
    held_originators: &[[u8; Group::HELD]; Group::MEMBERS],
    held_lengths: &[[u8; Group::HELD]; Group::MEMBERS],
    queued_payloads: &[[u8; Group::WAITING_BYTES]; Group::MEMBERS],
    held_payloads: &[[u8; Group::HELD_BYTES]; Group::MEMBERS],
    taken: &[u32; Group::MEMBERS],
    repeats: &[u32; Group::MEMBERS],
    out: &mut [u8],
) -> usize
    requires { (group.n ≤ members_most) × (table_room ≤ length out.old) }
    ensures { LaysTable table_of (terminals_of group numbers.now (rows_of queued.now held.now queued_originators.now queued_lengths.now held_originators.now held_lengths.now queued_payloads.now held_payloads.now)) taken.now repeats.now result out.old out.new }
{
    let n = group.n as usize;
    let next = put_text(b"terminal taken row submitted waiting repeats\n", out, 0);
    put_rows(
        group,
        numbers,
        queued,
        held,
        queued_originators,
        queued_lengths,
        held_originators,
        held_lengths,
        queued_payloads,
        held_payloads,
        taken,
        repeats,
        n,
        out,
        next,
    )
}

// What is left at the end of the input, but for the work lists. Gives its length.
pub fn write_left(
    player: Player,
    numbers: &[[u32; NUMBERS]; Group::MEMBERS],
    queued: &[[u32; Group::WAITING]; Group::MEMBERS],
    held: &[[u32; Group::HELD]; Group::MEMBERS],
    queued_originators: &[[u8; Group::WAITING]; Group::MEMBERS],
    queued_lengths: &[[u8; Group::WAITING]; Group::MEMBERS],
    held_originators: &[[u8; Group::HELD]; Group::MEMBERS],
    held_lengths: &[[u8; Group::HELD]; Group::MEMBERS],
    queued_payloads: &[[u8; Group::WAITING_BYTES]; Group::MEMBERS],
    held_payloads: &[[u8; Group::HELD_BYTES]; Group::MEMBERS],
    taken: &[u32; Group::MEMBERS],
    repeats: &[u32; Group::MEMBERS],
    out: &mut [u8; TABLE_ROOM],
) -> usize
    ensures { LaysLeft player (terminals_of player.head.sequencer.group numbers.now (rows_of queued.now held.now queued_originators.now queued_lengths.now held_originators.now held_lengths.now queued_payloads.now held_payloads.now)) taken.now repeats.now result out.old out.new }
{
    let head = player.head;
    let group = head.sequencer.group;
    match phase_of(group.n, head.count, player.phase) {
        Phase::Opening => write_bad_opening(out),
        Phase::Running | Phase::Ended => put_table(
            group,
            numbers,
            queued,
            held,
            queued_originators,
            queued_lengths,
            held_originators,
            held_lengths,
            queued_payloads,
            held_payloads,
            taken,
            repeats,
            out,
        ),
        Phase::Closed => 0,
    }
}

// A packet that was written is heard; `taken` is the last number that the terminal took.
fn hear(left: Left, taken: SequenceNumber, packet: [u8; Group::PACKET], size: usize) -> Left
    ensures { result ≡ heard_of taken.0 left (read_of (take size packet)) (payload_at (take size packet)) }
{
    left.hear(taken, &packet[..fitting(size)])
}

// The work list of a terminal, read off the packets that were written.
pub fn list_left(
    sizes: &[usize; PACKETS],
    packets: &[[u8; Group::PACKET]; PACKETS],
    count: usize,
    taken: SequenceNumber,
) -> [Job; Group::JOBS]
    requires { count ≤ packets_most }
    ensures { result ≡ (heard_all taken.0 fresh_left (packets_in (packets_of sizes.now packets.now count))).jobs }
{
    let mut left = Left::fresh();
    for k in 0..count {
        left = hear(left, taken, packets[k], sizes[k]);
    }
    left.jobs
}

// The member that a job is given to, or that it waits.
fn put_holder(state: u8, member: MemberNumber, out: &mut [u8], at: usize) -> usize
    requires { at + 1 + number_digits ≤ length out.old }
    ensures laid { LaidAt at (spaced (holder_text state member ∷ [])) out.old out.new result }
    ensures short { result ≤ at + 1 + number_digits }
{
    if state == Job::WAITING {
        return put_word(b"waiting", out, at);
    }
    put_number(member.0 as u32, out, at)
}

// The bytes of a job.
fn put_bytes(bytes: [u8; Group::JOB], size: usize, out: &mut [u8], at: usize) -> usize
    requires { at + 2 + 2 * job_most ≤ length out.old }
    ensures laid { LaidAt at (spaced (payload_text (take size bytes) ∷ [])) out.old out.new result }
    ensures short { result ≤ at + 2 + 2 * job_most }
{
    put_payload(&bytes[..size.min(Group::JOB)], out, at)
}

// The line of the job at a place of terminal i's list.
fn put_job(i: u32, place: u32, job: Job, out: &mut [u8]) -> usize
    requires { job_room ≤ length out.old }
    ensures { LaidAt 0 (used_line i place job) out.old out.new result }
{
    let next = put_decimal(i as u64, out, 0);
    let next = put_number(place, out, next);
    let next = put_holder(job.state, job.member, out, next);
    let next = put_bytes(job.bytes, job.length, out, next);
    put(b'\n', out, next)
}

// The same, with its length; an unused record has no line.
pub fn write_job(i: u32, place: u32, job: Job, out: &mut [u8; JOB_ROOM]) -> usize
    ensures size { result ≡ length (job_line i place job) }
    ensures lent { out.new ≡ front (job_line i place job) out.old }
{
    if job.state == Job::UNUSED {
        return 0;
    }
    put_job(i, place, job, out)
}
