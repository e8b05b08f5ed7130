// Plays a schedule as its input comes: a group that is run, the number of the next event, and the line that has not ended. The numbers
// go by value, and every array behind a reference.
#![tactic(auto)]

ghost use Rattle.std.specs.Prelude.{Bool, true, false, ◌≡◌, ◌++◌, ◌≤◌, ◌<◌, length, take, Some};
ghost use Rattle.group.specs.Choice.{when◌then◌else◌, ◌<?◌};
ghost use Rattle.group.specs.Lent.{front};
ghost use Rattle.group.specs.Limits.{members_most, longest_packet};
ghost use Rattle.model.specs.World.{answer_of};
ghost use Rattle.report.specs.Print.{line_of};
ghost use Rattle.schedule.specs.Laws.{meant_by};
ghost use Rattle.schedule.specs.Line.{event_of, opening_of, payload_room};
ghost use Rattle.simulator.specs.Whole.{list_of, whole_of, group_of};
ghost use Rattle.player.specs.Play.{next_number, refused_told, open_told, event_told, line_told, last_told};
ghost use Rattle.player.specs.Feed.{kept_most, kept_of, told_as, fed_of, end_of};
ghost use Rattle.player.specs.Player.{output_room, stage_in, phase_with, phase_of, stage_of, state_of, degree_of, taken_at, Does, Lays, LaysLast, Fresh};
ghost use Rattle.player.specs.Steps.{Fits, action_of, Sized, Performed, Tells, Refuses, PlaysLine};

use group::{Group, MemberNumber, Refusal, SequenceNumber};
use message::copy;
use model::Reply;
use report::{
    LINE_ROOM, write_bad_line, write_bad_opening, write_event, write_last, write_no_space,
    write_refused_opening,
};
use schedule::{Command, LINE_MOST, PAYLOAD_ROOM, read_event, read_opening};
use simulator::{Happening, Head, MemberCall, NUMBERS, PACKETS, SequencerCall};
use text::line_end;

// What is kept of a line: one character more than a line may have.
pub const LINE: usize = LINE_MOST + 1;

// The room of the longest line that is printed.
pub const OUTPUT: usize = LINE_ROOM + 2 * Group::PACKET;

// Where playing stands: the first line is awaited, events are read, a line ended them, no group was opened.
#[derive(Clone, Copy)]
pub enum Phase {
    Opening,
    Running,
    Ended,
    Closed,
}

// The numbers of a player: those of its group, the number of the next event, where playing stands, and how many bytes are kept of a
// line that has not ended.
#[derive(Clone, Copy)]
pub struct Player {
    pub head: Head,
    pub number: u64,
    pub phase: Phase,
    pub length: usize,
}

// What a part of the input gives: the player's numbers after it, how much of the part was read, and how many bytes were printed to
// the front of the lent output.
#[derive(Clone, Copy)]
pub struct Fed {
    pub player: Player,
    pub used: usize,
    pub written: usize,
}

// What a line gives.
#[derive(Clone, Copy)]
struct Told {
    head: Head,
    number: u64,
    phase: Phase,
    written: usize,
}

// What a command asks of the group: a call of a member, with that many bytes, or of the sequencer, or a packet handed over.
#[derive(Clone, Copy)]
enum Action {
    Member {
        call: MemberCall,
        i: usize,
        length: usize,
    },
    Sequencer(SequencerCall),
    HandMember {
        packet: usize,
        i: usize,
    },
    HandSequencer(usize),
}

// The limits of specs/ are these constants.
fn kept_most() -> usize
    ensures { result ≡ kept_most }
{
    LINE
}

fn output_room() -> usize
    ensures { result ≡ output_room }
{
    OUTPUT
}

// The number of the next event.
pub fn next_number(number: u64) -> u64
    ensures { result ≡ next_number number }
{
    number.saturating_add(1)
}

// What each member took last.
fn each_taken(numbers: &[[u32; NUMBERS]; Group::MEMBERS]) -> [u32; Group::MEMBERS]
    ensures { result ≡ list_of (taken_at numbers.now) 0 members_most }
{
    let mut taken = [0u32; Group::MEMBERS];
    for i in 0..Group::MEMBERS {
        taken[i] = numbers[i][0];
    }
    taken
}

// What a command asks.
#[tactic(auto, unfolding(crate::specs::Steps::action_of))]
fn action_of(command: Command) -> Action
    ensures { result ≡ action_of command }
{
    match command {
        Command::Submit { member, length } => Action::Member {
            call: MemberCall::Submit,
            i: member as usize,
            length,
        },
        Command::Repeat(member) => Action::Member {
            call: MemberCall::Repeat,
            i: member as usize,
            length: 0,
        },
        Command::Take(member) => Action::Member {
            call: MemberCall::Take,
            i: member as usize,
            length: 0,
        },
        Command::Status(member) => Action::Member {
            call: MemberCall::Status,
            i: member as usize,
            length: 0,
        },
        Command::Poll => Action::Sequencer(SequencerCall::Poll),
        Command::Copy(number) => Action::Sequencer(SequencerCall::Copy(SequenceNumber(number))),
        Command::HandMember { packet, member } => Action::HandMember {
            packet: packet as usize,
            i: member as usize,
        },
        Command::HandSequencer(packet) => Action::HandSequencer(packet as usize),
    }
}

// Does what a command says.
fn perform(
    head: Head,
    taken: &mut [u32; Group::MEMBERS],
    counts: &mut [u32; Group::MEMBERS],
    repeats: &mut [u32; Group::MEMBERS],
    kept: &mut [u32; Group::PLACES],
    marks: &mut [u16; Group::PLACES],
    originators: &mut [u8; Group::PLACES],
    lengths: &mut [u8; Group::PLACES],
    payloads: &mut [u8; Group::HISTORY_BYTES],
    numbers: &mut [[u32; NUMBERS]; Group::MEMBERS],
    queued: &mut [[u32; Group::WAITING]; Group::MEMBERS],
    held: &mut [[u32; Group::HELD]; Group::MEMBERS],
    queued_originators: &mut [[u8; Group::WAITING]; Group::MEMBERS],
    queued_lengths: &mut [[u8; Group::WAITING]; Group::MEMBERS],
    held_originators: &mut [[u8; Group::HELD]; Group::MEMBERS],
    held_lengths: &mut [[u8; Group::HELD]; Group::MEMBERS],
    queued_payloads: &mut [[u8; Group::WAITING_BYTES]; Group::MEMBERS],
    held_payloads: &mut [[u8; Group::HELD_BYTES]; Group::MEMBERS],
    sizes: &mut [usize; PACKETS],
    packets: &mut [[u8; Group::PACKET]; PACKETS],
    command: Command,
    payload: &[u8],
    out: &mut [u8; Group::PACKET],
) -> Happening
    requires { Sized command × (length payload.now ≡ payload_room) }
    ensures { Performed (meant_by (Some command) payload.now) head (whole_of head taken.old counts.old repeats.old kept.old marks.old originators.old lengths.old payloads.old numbers.old queued.old held.old queued_originators.old queued_lengths.old held_originators.old held_lengths.old queued_payloads.old held_payloads.old sizes.old packets.old) result (whole_of result.head taken.new counts.new repeats.new kept.new marks.new originators.new lengths.new payloads.new numbers.new queued.new held.new queued_originators.new queued_lengths.new held_originators.new held_lengths.new queued_payloads.new held_payloads.new sizes.new packets.new) out.old out.new }
{
    match action_of(command) {
        Action::Member { call, i, length } => simulator::act(
            call,
            head,
            numbers,
            queued,
            held,
            queued_originators,
            queued_lengths,
            held_originators,
            held_lengths,
            queued_payloads,
            held_payloads,
            sizes,
            packets,
            i,
            &payload[..length],
            out,
        ),
        Action::Sequencer(call) => simulator::sequence(
            call,
            head,
            taken,
            counts,
            repeats,
            kept,
            marks,
            originators,
            lengths,
            payloads,
            sizes,
            packets,
            payload,
            out,
        ),
        Action::HandMember { packet, i } => simulator::hand_member(
            head,
            numbers,
            queued,
            held,
            queued_originators,
            queued_lengths,
            held_originators,
            held_lengths,
            queued_payloads,
            held_payloads,
            sizes,
            packets,
            packet,
            i,
            out,
        ),
        Action::HandSequencer(packet) => simulator::hand_sequencer(
            head,
            taken,
            counts,
            repeats,
            kept,
            marks,
            originators,
            lengths,
            payloads,
            sizes,
            packets,
            packet,
            out,
        ),
    }
}

// Writes the line of an event: its number, what it is answered with the first `size` bytes, and the index of a packet written.
pub fn write_answer(
    number: u64,
    reply: Reply,
    index: usize,
    bytes: [u8; Group::PACKET],
    size: usize,
    out: &mut [u8; OUTPUT],
) -> usize
    requires { size ≤ longest_packet }
    ensures size { result ≡ length (line_of number (answer_of reply (take size bytes)) index) }
    ensures lent { out.new ≡ front (line_of number (answer_of reply (take size bytes)) index) out.old }
{
    write_event(number, reply, index, &bytes[..size], out)
}

// One event a line.
fn tell(
    head: Head,
    number: u64,
    taken: &mut [u32; Group::MEMBERS],
    counts: &mut [u32; Group::MEMBERS],
    repeats: &mut [u32; Group::MEMBERS],
    kept: &mut [u32; Group::PLACES],
    marks: &mut [u16; Group::PLACES],
    originators: &mut [u8; Group::PLACES],
    lengths: &mut [u8; Group::PLACES],
    payloads: &mut [u8; Group::HISTORY_BYTES],
    numbers: &mut [[u32; NUMBERS]; Group::MEMBERS],
    queued: &mut [[u32; Group::WAITING]; Group::MEMBERS],
    held: &mut [[u32; Group::HELD]; Group::MEMBERS],
    queued_originators: &mut [[u8; Group::WAITING]; Group::MEMBERS],
    queued_lengths: &mut [[u8; Group::WAITING]; Group::MEMBERS],
    held_originators: &mut [[u8; Group::HELD]; Group::MEMBERS],
    held_lengths: &mut [[u8; Group::HELD]; Group::MEMBERS],
    queued_payloads: &mut [[u8; Group::WAITING_BYTES]; Group::MEMBERS],
    held_payloads: &mut [[u8; Group::HELD_BYTES]; Group::MEMBERS],
    sizes: &mut [usize; PACKETS],
    packets: &mut [[u8; Group::PACKET]; PACKETS],
    line: &[u8],
    out: &mut [u8; OUTPUT],
) -> Told
    requires { Fits head }
    ensures { Tells (event_told (group_of (whole_of head taken.old counts.old repeats.old kept.old marks.old originators.old lengths.old payloads.old numbers.old queued.old held.old queued_originators.old queued_lengths.old held_originators.old held_lengths.old queued_payloads.old held_payloads.old sizes.old packets.old)) number (event_of line.now)) result (whole_of result.head taken.new counts.new repeats.new kept.new marks.new originators.new lengths.new payloads.new numbers.new queued.new held.new queued_originators.new queued_lengths.new held_originators.new held_lengths.new queued_payloads.new held_payloads.new sizes.new packets.new) out.old out.new }
{
    let mut payload = [0u8; PAYLOAD_ROOM];
    let Some(command) = read_event(line, &mut payload) else {
        let written = write_bad_line(number, out);
        return Told {
            head,
            number,
            phase: Phase::Ended,
            written,
        };
    };
    let index = head.count;
    if index < PACKETS {
        let mut bytes = [0u8; Group::PACKET];
        let happening = perform(
            head,
            taken,
            counts,
            repeats,
            kept,
            marks,
            originators,
            lengths,
            payloads,
            numbers,
            queued,
            held,
            queued_originators,
            queued_lengths,
            held_originators,
            held_lengths,
            queued_payloads,
            held_payloads,
            sizes,
            packets,
            command,
            &payload,
            &mut bytes,
        );
        let reply = happening.reply;
        let written = write_answer(number, reply, index, bytes, happening.written, out);
        let next = next_number(number);
        let after = happening.head;
        return Told {
            head: after,
            number: next,
            phase: Phase::Running,
            written,
        };
    }
    let written = write_no_space(number, out);
    Told {
        head,
        number,
        phase: Phase::Ended,
        written,
    }
}

// The last line of a group: top, floor and each t.
fn write_taken(
    head: Head,
    numbers: &[[u32; NUMBERS]; Group::MEMBERS],
    out: &mut [u8; OUTPUT],
) -> usize
    requires { Fits head }
    ensures { Lays last_told head numbers.now result out.old out.new }
{
    let taken = each_taken(numbers);
    let n = head.sequencer.group.n as usize;
    let top = head.sequencer.top;
    let floor = head.sequencer.floor;
    write_last(top, floor, &taken[..n], out)
}

// A group that cannot be opened.
fn refuse(head: Head, refusal: Refusal, out: &mut [u8; OUTPUT]) -> Told
    ensures { Refuses (refused_told refusal) result out.old out.new }
{
    let written = write_refused_opening(refusal, out);
    Told {
        head,
        number: 0,
        phase: Phase::Closed,
        written,
    }
}

// A resilience degree as a byte. No group has one of the most members or more: those become the most members.
pub fn degree(resilience: u32) -> u8
    ensures { result ≡ degree_of resilience }
{
    resilience.min(Group::MEMBERS as u32) as u8
}

// The first line.
fn open(
    head: Head,
    taken: &mut [u32; Group::MEMBERS],
    counts: &mut [u32; Group::MEMBERS],
    repeats: &mut [u32; Group::MEMBERS],
    kept: &mut [u32; Group::PLACES],
    marks: &mut [u16; Group::PLACES],
    originators: &mut [u8; Group::PLACES],
    lengths: &mut [u8; Group::PLACES],
    payloads: &mut [u8; Group::HISTORY_BYTES],
    numbers: &mut [[u32; NUMBERS]; Group::MEMBERS],
    queued: &mut [[u32; Group::WAITING]; Group::MEMBERS],
    held: &mut [[u32; Group::HELD]; Group::MEMBERS],
    queued_originators: &mut [[u8; Group::WAITING]; Group::MEMBERS],
    queued_lengths: &mut [[u8; Group::WAITING]; Group::MEMBERS],
    held_originators: &mut [[u8; Group::HELD]; Group::MEMBERS],
    held_lengths: &mut [[u8; Group::HELD]; Group::MEMBERS],
    queued_payloads: &mut [[u8; Group::WAITING_BYTES]; Group::MEMBERS],
    held_payloads: &mut [[u8; Group::HELD_BYTES]; Group::MEMBERS],
    sizes: &mut [usize; PACKETS],
    packets: &mut [[u8; Group::PACKET]; PACKETS],
    line: &[u8],
    out: &mut [u8; OUTPUT],
) -> Told
    ensures { Tells (open_told (opening_of line.now)) result (whole_of result.head taken.new counts.new repeats.new kept.new marks.new originators.new lengths.new payloads.new numbers.new queued.new held.new queued_originators.new queued_lengths.new held_originators.new held_lengths.new queued_payloads.new held_payloads.new sizes.new packets.new) out.old out.new }
{
    match read_opening(line) {
        None => {
            let written = write_bad_opening(out);
            Told {
                head,
                number: 0,
                phase: Phase::Closed,
                written,
            }
        }
        Some(opening) => {
            if (Group::MEMBERS as u32) < opening.n {
                return refuse(head, Refusal::Opening, out);
            }
            let degree = degree(opening.resilience);
            let opened = simulator::open(
                head,
                taken,
                counts,
                repeats,
                kept,
                marks,
                originators,
                lengths,
                payloads,
                numbers,
                queued,
                held,
                queued_originators,
                queued_lengths,
                held_originators,
                held_lengths,
                queued_payloads,
                held_payloads,
                sizes,
                packets,
                opening.n as u8,
                opening.number,
                degree,
            );
            match opened.verdict {
                Ok(()) => Told {
                    head: opened.head,
                    number: 1,
                    phase: Phase::Running,
                    written: 0,
                },
                Err(refusal) => refuse(opened.head, refusal, out),
            }
        }
    }
}

// The phase of a group that has the room that it says.
#[tactic(auto, using(group::proofs::Choice::choices, group::proofs::Choice::tests))]
pub fn phase_of(n: u8, count: usize, phase: Phase) -> Phase
    ensures { result ≡ phase_with n count phase }
{
    if (n as usize) <= Group::MEMBERS && count <= PACKETS {
        phase
    } else {
        Phase::Closed
    }
}

// A line that has ended.
fn play(
    head: Head,
    number: u64,
    phase: Phase,
    taken: &mut [u32; Group::MEMBERS],
    counts: &mut [u32; Group::MEMBERS],
    repeats: &mut [u32; Group::MEMBERS],
    kept: &mut [u32; Group::PLACES],
    marks: &mut [u16; Group::PLACES],
    originators: &mut [u8; Group::PLACES],
    lengths: &mut [u8; Group::PLACES],
    payloads: &mut [u8; Group::HISTORY_BYTES],
    numbers: &mut [[u32; NUMBERS]; Group::MEMBERS],
    queued: &mut [[u32; Group::WAITING]; Group::MEMBERS],
    held: &mut [[u32; Group::HELD]; Group::MEMBERS],
    queued_originators: &mut [[u8; Group::WAITING]; Group::MEMBERS],
    queued_lengths: &mut [[u8; Group::WAITING]; Group::MEMBERS],
    held_originators: &mut [[u8; Group::HELD]; Group::MEMBERS],
    held_lengths: &mut [[u8; Group::HELD]; Group::MEMBERS],
    queued_payloads: &mut [[u8; Group::WAITING_BYTES]; Group::MEMBERS],
    held_payloads: &mut [[u8; Group::HELD_BYTES]; Group::MEMBERS],
    sizes: &mut [usize; PACKETS],
    packets: &mut [[u8; Group::PACKET]; PACKETS],
    line: &[u8],
    out: &mut [u8; OUTPUT],
) -> Told
    ensures { Tells (line_told (stage_in (phase_of head phase) (group_of (whole_of head taken.old counts.old repeats.old kept.old marks.old originators.old lengths.old payloads.old numbers.old queued.old held.old queued_originators.old queued_lengths.old held_originators.old held_lengths.old queued_payloads.old held_payloads.old sizes.old packets.old)) number) line.now) result (whole_of result.head taken.new counts.new repeats.new kept.new marks.new originators.new lengths.new payloads.new numbers.new queued.new held.new queued_originators.new queued_lengths.new held_originators.new held_lengths.new queued_payloads.new held_payloads.new sizes.new packets.new) out.old out.new }
{
    let stands = phase_of(head.sequencer.group.n, head.count, phase);
    match stands {
        Phase::Opening => open(
            head,
            taken,
            counts,
            repeats,
            kept,
            marks,
            originators,
            lengths,
            payloads,
            numbers,
            queued,
            held,
            queued_originators,
            queued_lengths,
            held_originators,
            held_lengths,
            queued_payloads,
            held_payloads,
            sizes,
            packets,
            line,
            out,
        ),
        Phase::Running => tell(
            head,
            number,
            taken,
            counts,
            repeats,
            kept,
            marks,
            originators,
            lengths,
            payloads,
            numbers,
            queued,
            held,
            queued_originators,
            queued_lengths,
            held_originators,
            held_lengths,
            queued_payloads,
            held_payloads,
            sizes,
            packets,
            line,
            out,
        ),
        Phase::Ended => Told {
            head,
            number,
            phase: stands,
            written: 0,
        },
        Phase::Closed => Told {
            head,
            number,
            phase: stands,
            written: 0,
        },
    }
}

// Keeps a part more of a line of which `kept` bytes stand, and gives how many are.
pub fn keep(line: &mut [u8], kept: usize, part: &[u8]) -> usize
    requires { length line.old ≡ kept_most }
    ensures kept { take result line.new ≡ kept_of (take kept line.old ++ part.now) }
    ensures most { result ≤ kept_most }
{
    let from = kept.min(LINE);
    let size = part.len().min(LINE - from);
    copy(&part[..size], &mut line[from..]);
    from + size
}

// Plays the line that is kept: its first `size` bytes.
fn play_line(
    player: Player,
    taken: &mut [u32; Group::MEMBERS],
    counts: &mut [u32; Group::MEMBERS],
    repeats: &mut [u32; Group::MEMBERS],
    kept: &mut [u32; Group::PLACES],
    marks: &mut [u16; Group::PLACES],
    originators: &mut [u8; Group::PLACES],
    lengths: &mut [u8; Group::PLACES],
    payloads: &mut [u8; Group::HISTORY_BYTES],
    numbers: &mut [[u32; NUMBERS]; Group::MEMBERS],
    queued: &mut [[u32; Group::WAITING]; Group::MEMBERS],
    held: &mut [[u32; Group::HELD]; Group::MEMBERS],
    queued_originators: &mut [[u8; Group::WAITING]; Group::MEMBERS],
    queued_lengths: &mut [[u8; Group::WAITING]; Group::MEMBERS],
    held_originators: &mut [[u8; Group::HELD]; Group::MEMBERS],
    held_lengths: &mut [[u8; Group::HELD]; Group::MEMBERS],
    queued_payloads: &mut [[u8; Group::WAITING_BYTES]; Group::MEMBERS],
    held_payloads: &mut [[u8; Group::HELD_BYTES]; Group::MEMBERS],
    sizes: &mut [usize; PACKETS],
    packets: &mut [[u8; Group::PACKET]; PACKETS],
    line: &[u8],
    size: usize,
    used: usize,
    out: &mut [u8; OUTPUT],
) -> Fed
    requires { size ≤ length line.now }
    ensures { PlaysLine (told_as (line_told (stage_of player (whole_of player.head taken.old counts.old repeats.old kept.old marks.old originators.old lengths.old payloads.old numbers.old queued.old held.old queued_originators.old queued_lengths.old held_originators.old held_lengths.old queued_payloads.old held_payloads.old sizes.old packets.old)) (take size line.now)) used) result (whole_of result.player.head taken.new counts.new repeats.new kept.new marks.new originators.new lengths.new payloads.new numbers.new queued.new held.new queued_originators.new queued_lengths.new held_originators.new held_lengths.new queued_payloads.new held_payloads.new sizes.new packets.new) out.old out.new }
{
    let told = play(
        player.head,
        player.number,
        player.phase,
        taken,
        counts,
        repeats,
        kept,
        marks,
        originators,
        lengths,
        payloads,
        numbers,
        queued,
        held,
        queued_originators,
        queued_lengths,
        held_originators,
        held_lengths,
        queued_payloads,
        held_payloads,
        sizes,
        packets,
        &line[..size],
        out,
    );
    Fed {
        player: Player {
            head: told.head,
            number: told.number,
            phase: told.phase,
            length: 0,
        },
        used,
        written: told.written,
    }
}

// Reads a part of the input up to its first line feed, or whole.
pub fn feed(
    player: Player,
    taken: &mut [u32; Group::MEMBERS],
    counts: &mut [u32; Group::MEMBERS],
    repeats: &mut [u32; Group::MEMBERS],
    kept: &mut [u32; Group::PLACES],
    marks: &mut [u16; Group::PLACES],
    originators: &mut [u8; Group::PLACES],
    lengths: &mut [u8; Group::PLACES],
    payloads: &mut [u8; Group::HISTORY_BYTES],
    numbers: &mut [[u32; NUMBERS]; Group::MEMBERS],
    queued: &mut [[u32; Group::WAITING]; Group::MEMBERS],
    held: &mut [[u32; Group::HELD]; Group::MEMBERS],
    queued_originators: &mut [[u8; Group::WAITING]; Group::MEMBERS],
    queued_lengths: &mut [[u8; Group::WAITING]; Group::MEMBERS],
    held_originators: &mut [[u8; Group::HELD]; Group::MEMBERS],
    held_lengths: &mut [[u8; Group::HELD]; Group::MEMBERS],
    queued_payloads: &mut [[u8; Group::WAITING_BYTES]; Group::MEMBERS],
    held_payloads: &mut [[u8; Group::HELD_BYTES]; Group::MEMBERS],
    sizes: &mut [usize; PACKETS],
    packets: &mut [[u8; Group::PACKET]; PACKETS],
    line: &mut [u8; LINE],
    part: &[u8],
    out: &mut [u8; OUTPUT],
) -> Fed
    ensures { Does (fed_of (state_of player (whole_of player.head taken.old counts.old repeats.old kept.old marks.old originators.old lengths.old payloads.old numbers.old queued.old held.old queued_originators.old queued_lengths.old held_originators.old held_lengths.old queued_payloads.old held_payloads.old sizes.old packets.old) line.old) part.now) result (whole_of result.player.head taken.new counts.new repeats.new kept.new marks.new originators.new lengths.new payloads.new numbers.new queued.new held.new queued_originators.new queued_lengths.new held_originators.new held_lengths.new queued_payloads.new held_payloads.new sizes.new packets.new) line.new out.old out.new }
{
    match line_end(part) {
        Some(e) => {
            let size = keep(line, player.length, &part[..e]);
            play_line(
                player,
                taken,
                counts,
                repeats,
                kept,
                marks,
                originators,
                lengths,
                payloads,
                numbers,
                queued,
                held,
                queued_originators,
                queued_lengths,
                held_originators,
                held_lengths,
                queued_payloads,
                held_payloads,
                sizes,
                packets,
                line,
                size,
                e + 1,
                out,
            )
        }
        None => {
            let size = keep(line, player.length, part);
            Fed {
                player: Player {
                    length: size,
                    ..player
                },
                used: part.len(),
                written: 0,
            }
        }
    }
}

// The end of the input: plays a line that no line feed ended.
pub fn end(
    player: Player,
    taken: &mut [u32; Group::MEMBERS],
    counts: &mut [u32; Group::MEMBERS],
    repeats: &mut [u32; Group::MEMBERS],
    kept: &mut [u32; Group::PLACES],
    marks: &mut [u16; Group::PLACES],
    originators: &mut [u8; Group::PLACES],
    lengths: &mut [u8; Group::PLACES],
    payloads: &mut [u8; Group::HISTORY_BYTES],
    numbers: &mut [[u32; NUMBERS]; Group::MEMBERS],
    queued: &mut [[u32; Group::WAITING]; Group::MEMBERS],
    held: &mut [[u32; Group::HELD]; Group::MEMBERS],
    queued_originators: &mut [[u8; Group::WAITING]; Group::MEMBERS],
    queued_lengths: &mut [[u8; Group::WAITING]; Group::MEMBERS],
    held_originators: &mut [[u8; Group::HELD]; Group::MEMBERS],
    held_lengths: &mut [[u8; Group::HELD]; Group::MEMBERS],
    queued_payloads: &mut [[u8; Group::WAITING_BYTES]; Group::MEMBERS],
    held_payloads: &mut [[u8; Group::HELD_BYTES]; Group::MEMBERS],
    sizes: &mut [usize; PACKETS],
    packets: &mut [[u8; Group::PACKET]; PACKETS],
    line: &[u8; LINE],
    out: &mut [u8; OUTPUT],
) -> Fed
    ensures { Does (end_of (state_of player (whole_of player.head taken.old counts.old repeats.old kept.old marks.old originators.old lengths.old payloads.old numbers.old queued.old held.old queued_originators.old queued_lengths.old held_originators.old held_lengths.old queued_payloads.old held_payloads.old sizes.old packets.old) line.now)) result (whole_of result.player.head taken.new counts.new repeats.new kept.new marks.new originators.new lengths.new payloads.new numbers.new queued.new held.new queued_originators.new queued_lengths.new held_originators.new held_lengths.new queued_payloads.new held_payloads.new sizes.new packets.new) line.now out.old out.new }
{
    let size = player.length.min(LINE);
    if size == 0 {
        return Fed {
            player,
            used: 0,
            written: 0,
        };
    }
    play_line(
        player,
        taken,
        counts,
        repeats,
        kept,
        marks,
        originators,
        lengths,
        payloads,
        numbers,
        queued,
        held,
        queued_originators,
        queued_lengths,
        held_originators,
        held_lengths,
        queued_payloads,
        held_payloads,
        sizes,
        packets,
        line,
        size,
        0,
        out,
    )
}

// The last line that is printed.
pub fn last(
    player: Player,
    numbers: &[[u32; NUMBERS]; Group::MEMBERS],
    out: &mut [u8; OUTPUT],
) -> usize
    ensures { LaysLast player numbers.now result out.old out.new }
{
    let head = player.head;
    let phase = player.phase;
    let stands = phase_of(head.sequencer.group.n, head.count, phase);
    match stands {
        Phase::Opening => write_bad_opening(out),
        Phase::Running => write_taken(head, numbers, out),
        Phase::Ended => write_taken(head, numbers, out),
        Phase::Closed => 0,
    }
}

impl Player {
    // The numbers of a player that has read nothing.
    pub fn fresh() -> Self
        ensures { Fresh result }
    {
        let sequencer = sequencer::Head {
            group: Group {
                n: 0,
                resilience: 0,
                survivors: 0,
                elected: MemberNumber(0),
                number: 0,
            },
            top: SequenceNumber(0),
            accepted: SequenceNumber(0),
            floor: SequenceNumber(0),
        };
        let head = Head {
            sequencer,
            count: 0,
        };
        Player {
            head,
            number: 0,
            phase: Phase::Opening,
            length: 0,
        }
    }
}
