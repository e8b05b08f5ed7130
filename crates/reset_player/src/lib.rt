// Plays a schedule with resets as its input comes: a world of terminals that is run, the number of the next event, and the line that has not
// ended. The numbers go by value, and every array behind a reference. What is kept of a line, the phases and the limits are the player's.
#![tactic(auto)]

ghost use Rattle.std.specs.Prelude.{Bool, true, false, ◌≡◌, ◌≤◌, ◌<◌, length, take, Some};
ghost use Rattle.group.specs.Limits.{members_most};
ghost use Rattle.player.specs.Parts.{told_as};
ghost use Rattle.reset_schedule.specs.Laws.{meant_by};
ghost use Rattle.reset_schedule.specs.Line.{event_of};
ghost use Rattle.reset_simulator.specs.Whole.{whole_of, group_of};
ghost use Rattle.schedule.specs.Line.{opening_of, payload_room};
ghost use Rattle.reset_output.specs.Recover.{refused_told, open_told, event_told, line_told, member_told, sequencer_told};
ghost use Rattle.reset_player.specs.Feed.{fed_of, end_of};
ghost use Rattle.reset_player.specs.Player.{stage_in, phase_of, stage_of, state_of, Does, LaysLast, Fresh};
ghost use Rattle.reset_player.specs.Steps.{Fits, action_of, Sized, Performed, Tells, Refuses, PlaysLine};

use group::{Group, Refusal, SequenceNumber};
use model::Reply;
use player::{LINE, OUTPUT, Phase, degree, keep, next_number, phase_of, write_answer};
use report::{write_bad_line, write_bad_opening, write_no_space, write_refused_opening};
use reset_report::{write_sequencer, write_terminal};
use reset_schedule::{Command, read_event};
use reset_simulator::{Happening, World};
use schedule::{PAYLOAD_ROOM, read_opening};
use simulator::PACKETS;
use terminal_rows::{Call, MASKS, NUMBERS, SMALL, read_head};
use text::line_end;

// The numbers of a player: those of its world, the number of the next event, where playing stands, and how many bytes are kept of a line
// that has not ended.
#[derive(Clone, Copy)]
pub struct Player {
    pub world: World,
    pub number: u64,
    pub phase: Phase,
    pub length: usize,
}

// What a part of the input gives: the player's numbers after it, how much of the part was read, and how many bytes were printed to
// the front of the lent output.
#[derive(Clone, Copy)]
pub struct Fed {
    pub player: Player,
    pub used: usize,
    pub written: usize,
}

// What a line gives.
#[derive(Clone, Copy)]
struct Told {
    world: World,
    number: u64,
    phase: Phase,
    written: usize,
}

// What a command asks of the world: a call of a terminal, with that many bytes, or a packet handed to one.
#[derive(Clone, Copy)]
enum Action {
    Act { call: Call, i: usize, length: usize },
    Hand { call: Call, packet: usize, i: usize },
}

// What a command asks.
#[tactic(auto, unfolding(crate::specs::Steps::action_of))]
fn action_of(command: Command) -> Action
    ensures { result ≡ action_of command }
{
    match command {
        Command::Submit { terminal, length } => Action::Act {
            call: Call::Submit,
            i: terminal as usize,
            length,
        },
        Command::Repeat(terminal) => Action::Act {
            call: Call::Repeat,
            i: terminal as usize,
            length: 0,
        },
        Command::Take(terminal) => Action::Act {
            call: Call::Take,
            i: terminal as usize,
            length: 0,
        },
        Command::Status(terminal) => Action::Act {
            call: Call::Status,
            i: terminal as usize,
            length: 0,
        },
        Command::Poll(terminal) => Action::Act {
            call: Call::Poll,
            i: terminal as usize,
            length: 0,
        },
        Command::Copy { terminal, number } => Action::Act {
            call: Call::Copy(SequenceNumber(number)),
            i: terminal as usize,
            length: 0,
        },
        Command::HandMember { packet, terminal } => Action::Hand {
            call: Call::Receive,
            packet: packet as usize,
            i: terminal as usize,
        },
        Command::HandSequencer { packet, terminal } => Action::Hand {
            call: Call::Order,
            packet: packet as usize,
            i: terminal as usize,
        },
        Command::Invite { terminal, number } => Action::Act {
            call: Call::Invite(number),
            i: terminal as usize,
            length: 0,
        },
        Command::Make { terminal, demand } => Action::Act {
            call: Call::Make(demand),
            i: terminal as usize,
            length: 0,
        },
    }
}

// Does what a command says.
fn perform(
    world: World,
    small: &mut [[u8; SMALL]; Group::MEMBERS],
    masks: &mut [[u16; MASKS]; Group::MEMBERS],
    numbers: &mut [[u32; NUMBERS]; Group::MEMBERS],
    queued: &mut [[u32; Group::WAITING]; Group::MEMBERS],
    held: &mut [[u32; Group::HELD]; Group::MEMBERS],
    queued_originators: &mut [[u8; Group::WAITING]; Group::MEMBERS],
    queued_lengths: &mut [[u8; Group::WAITING]; Group::MEMBERS],
    held_originators: &mut [[u8; Group::HELD]; Group::MEMBERS],
    held_lengths: &mut [[u8; Group::HELD]; Group::MEMBERS],
    queued_payloads: &mut [[u8; Group::WAITING_BYTES]; Group::MEMBERS],
    held_payloads: &mut [[u8; Group::HELD_BYTES]; Group::MEMBERS],
    past: &mut [[u32; Group::PLACES]; Group::MEMBERS],
    past_originators: &mut [[u8; Group::PLACES]; Group::MEMBERS],
    past_lengths: &mut [[u8; Group::PLACES]; Group::MEMBERS],
    past_payloads: &mut [[u8; Group::HISTORY_BYTES]; Group::MEMBERS],
    highest: &mut [[u32; Group::MEMBERS]; Group::MEMBERS],
    replies: &mut [[u32; Group::MEMBERS]; Group::MEMBERS],
    taken: &mut [[u32; Group::MEMBERS]; Group::MEMBERS],
    counts: &mut [[u32; Group::MEMBERS]; Group::MEMBERS],
    repeats: &mut [[u32; Group::MEMBERS]; Group::MEMBERS],
    kept: &mut [[u32; Group::PLACES]; Group::MEMBERS],
    marks: &mut [[u16; Group::PLACES]; Group::MEMBERS],
    originators: &mut [[u8; Group::PLACES]; Group::MEMBERS],
    lengths: &mut [[u8; Group::PLACES]; Group::MEMBERS],
    payloads: &mut [[u8; Group::HISTORY_BYTES]; Group::MEMBERS],
    sizes: &mut [usize; PACKETS],
    packets: &mut [[u8; Group::PACKET]; PACKETS],
    command: Command,
    payload: &[u8],
    out: &mut [u8; Group::PACKET],
) -> Happening
    requires { Sized command × (length payload.now ≡ payload_room) }
    ensures { Performed (meant_by (Some command) payload.now) world (whole_of world small.old masks.old numbers.old queued.old held.old queued_originators.old queued_lengths.old held_originators.old held_lengths.old queued_payloads.old held_payloads.old past.old past_originators.old past_lengths.old past_payloads.old highest.old replies.old taken.old counts.old repeats.old kept.old marks.old originators.old lengths.old payloads.old sizes.old packets.old) result (whole_of result.world small.new masks.new numbers.new queued.new held.new queued_originators.new queued_lengths.new held_originators.new held_lengths.new queued_payloads.new held_payloads.new past.new past_originators.new past_lengths.new past_payloads.new highest.new replies.new taken.new counts.new repeats.new kept.new marks.new originators.new lengths.new payloads.new sizes.new packets.new) out.old out.new }
{
    let asked = action_of(command);
    match asked {
        Action::Act { call, i, length } => reset_simulator::act(
            call,
            world,
            small,
            masks,
            numbers,
            queued,
            held,
            queued_originators,
            queued_lengths,
            held_originators,
            held_lengths,
            queued_payloads,
            held_payloads,
            past,
            past_originators,
            past_lengths,
            past_payloads,
            highest,
            replies,
            taken,
            counts,
            repeats,
            kept,
            marks,
            originators,
            lengths,
            payloads,
            sizes,
            packets,
            i,
            &payload[..length],
            out,
        ),
        Action::Hand { call, packet, i } => reset_simulator::hand(
            call,
            world,
            small,
            masks,
            numbers,
            queued,
            held,
            queued_originators,
            queued_lengths,
            held_originators,
            held_lengths,
            queued_payloads,
            held_payloads,
            past,
            past_originators,
            past_lengths,
            past_payloads,
            highest,
            replies,
            taken,
            counts,
            repeats,
            kept,
            marks,
            originators,
            lengths,
            payloads,
            sizes,
            packets,
            packet,
            i,
            out,
        ),
    }
}

// One event a line.
fn tell(
    world: World,
    number: u64,
    small: &mut [[u8; SMALL]; Group::MEMBERS],
    masks: &mut [[u16; MASKS]; Group::MEMBERS],
    numbers: &mut [[u32; NUMBERS]; Group::MEMBERS],
    queued: &mut [[u32; Group::WAITING]; Group::MEMBERS],
    held: &mut [[u32; Group::HELD]; Group::MEMBERS],
    queued_originators: &mut [[u8; Group::WAITING]; Group::MEMBERS],
    queued_lengths: &mut [[u8; Group::WAITING]; Group::MEMBERS],
    held_originators: &mut [[u8; Group::HELD]; Group::MEMBERS],
    held_lengths: &mut [[u8; Group::HELD]; Group::MEMBERS],
    queued_payloads: &mut [[u8; Group::WAITING_BYTES]; Group::MEMBERS],
    held_payloads: &mut [[u8; Group::HELD_BYTES]; Group::MEMBERS],
    past: &mut [[u32; Group::PLACES]; Group::MEMBERS],
    past_originators: &mut [[u8; Group::PLACES]; Group::MEMBERS],
    past_lengths: &mut [[u8; Group::PLACES]; Group::MEMBERS],
    past_payloads: &mut [[u8; Group::HISTORY_BYTES]; Group::MEMBERS],
    highest: &mut [[u32; Group::MEMBERS]; Group::MEMBERS],
    replies: &mut [[u32; Group::MEMBERS]; Group::MEMBERS],
    taken: &mut [[u32; Group::MEMBERS]; Group::MEMBERS],
    counts: &mut [[u32; Group::MEMBERS]; Group::MEMBERS],
    repeats: &mut [[u32; Group::MEMBERS]; Group::MEMBERS],
    kept: &mut [[u32; Group::PLACES]; Group::MEMBERS],
    marks: &mut [[u16; Group::PLACES]; Group::MEMBERS],
    originators: &mut [[u8; Group::PLACES]; Group::MEMBERS],
    lengths: &mut [[u8; Group::PLACES]; Group::MEMBERS],
    payloads: &mut [[u8; Group::HISTORY_BYTES]; Group::MEMBERS],
    sizes: &mut [usize; PACKETS],
    packets: &mut [[u8; Group::PACKET]; PACKETS],
    line: &[u8],
    out: &mut [u8; OUTPUT],
) -> Told
    requires { Fits world }
    ensures { Tells (event_told (group_of (whole_of world small.old masks.old numbers.old queued.old held.old queued_originators.old queued_lengths.old held_originators.old held_lengths.old queued_payloads.old held_payloads.old past.old past_originators.old past_lengths.old past_payloads.old highest.old replies.old taken.old counts.old repeats.old kept.old marks.old originators.old lengths.old payloads.old sizes.old packets.old)) number (event_of line.now)) result (whole_of result.world small.new masks.new numbers.new queued.new held.new queued_originators.new queued_lengths.new held_originators.new held_lengths.new queued_payloads.new held_payloads.new past.new past_originators.new past_lengths.new past_payloads.new highest.new replies.new taken.new counts.new repeats.new kept.new marks.new originators.new lengths.new payloads.new sizes.new packets.new) out.old out.new }
{
    let mut payload = [0u8; PAYLOAD_ROOM];
    let Some(command) = read_event(line, &mut payload) else {
        let written = write_bad_line(number, out);
        return Told {
            world,
            number,
            phase: Phase::Ended,
            written,
        };
    };
    let index = world.count;
    if index < PACKETS {
        let mut bytes = [0u8; Group::PACKET];
        let happening = perform(
            world,
            small,
            masks,
            numbers,
            queued,
            held,
            queued_originators,
            queued_lengths,
            held_originators,
            held_lengths,
            queued_payloads,
            held_payloads,
            past,
            past_originators,
            past_lengths,
            past_payloads,
            highest,
            replies,
            taken,
            counts,
            repeats,
            kept,
            marks,
            originators,
            lengths,
            payloads,
            sizes,
            packets,
            command,
            &payload,
            &mut bytes,
        );
        let reply = happening.reply;
        let written = write_answer(number, reply, index, bytes, happening.written, out);
        let next = next_number(number);
        let after = happening.world;
        return Told {
            world: after,
            number: next,
            phase: Phase::Running,
            written,
        };
    }
    let written = write_no_space(number, out);
    Told {
        world,
        number,
        phase: Phase::Ended,
        written,
    }
}

// A group that cannot be opened.
fn refuse(world: World, refusal: Refusal, out: &mut [u8; OUTPUT]) -> Told
    ensures { Refuses (refused_told refusal) result out.old out.new }
{
    let written = write_refused_opening(refusal, out);
    Told {
        world,
        number: 0,
        phase: Phase::Closed,
        written,
    }
}

// The first line.
fn open(
    world: World,
    small: &mut [[u8; SMALL]; Group::MEMBERS],
    masks: &mut [[u16; MASKS]; Group::MEMBERS],
    numbers: &mut [[u32; NUMBERS]; Group::MEMBERS],
    queued: &mut [[u32; Group::WAITING]; Group::MEMBERS],
    held: &mut [[u32; Group::HELD]; Group::MEMBERS],
    queued_originators: &mut [[u8; Group::WAITING]; Group::MEMBERS],
    queued_lengths: &mut [[u8; Group::WAITING]; Group::MEMBERS],
    held_originators: &mut [[u8; Group::HELD]; Group::MEMBERS],
    held_lengths: &mut [[u8; Group::HELD]; Group::MEMBERS],
    queued_payloads: &mut [[u8; Group::WAITING_BYTES]; Group::MEMBERS],
    held_payloads: &mut [[u8; Group::HELD_BYTES]; Group::MEMBERS],
    past: &mut [[u32; Group::PLACES]; Group::MEMBERS],
    past_originators: &mut [[u8; Group::PLACES]; Group::MEMBERS],
    past_lengths: &mut [[u8; Group::PLACES]; Group::MEMBERS],
    past_payloads: &mut [[u8; Group::HISTORY_BYTES]; Group::MEMBERS],
    highest: &mut [[u32; Group::MEMBERS]; Group::MEMBERS],
    replies: &mut [[u32; Group::MEMBERS]; Group::MEMBERS],
    taken: &mut [[u32; Group::MEMBERS]; Group::MEMBERS],
    counts: &mut [[u32; Group::MEMBERS]; Group::MEMBERS],
    repeats: &mut [[u32; Group::MEMBERS]; Group::MEMBERS],
    kept: &mut [[u32; Group::PLACES]; Group::MEMBERS],
    marks: &mut [[u16; Group::PLACES]; Group::MEMBERS],
    originators: &mut [[u8; Group::PLACES]; Group::MEMBERS],
    lengths: &mut [[u8; Group::PLACES]; Group::MEMBERS],
    payloads: &mut [[u8; Group::HISTORY_BYTES]; Group::MEMBERS],
    sizes: &mut [usize; PACKETS],
    packets: &mut [[u8; Group::PACKET]; PACKETS],
    line: &[u8],
    out: &mut [u8; OUTPUT],
) -> Told
    ensures { Tells (open_told (opening_of line.now)) result (whole_of result.world small.new masks.new numbers.new queued.new held.new queued_originators.new queued_lengths.new held_originators.new held_lengths.new queued_payloads.new held_payloads.new past.new past_originators.new past_lengths.new past_payloads.new highest.new replies.new taken.new counts.new repeats.new kept.new marks.new originators.new lengths.new payloads.new sizes.new packets.new) out.old out.new }
{
    match read_opening(line) {
        None => {
            let written = write_bad_opening(out);
            Told {
                world,
                number: 0,
                phase: Phase::Closed,
                written,
            }
        }
        Some(opening) => {
            if (Group::MEMBERS as u32) < opening.n {
                let refusal = Refusal::Opening;
                return refuse(world, refusal, out);
            }
            let degree = degree(opening.resilience);
            let opened = reset_simulator::open(
                small,
                masks,
                numbers,
                queued,
                held,
                queued_originators,
                queued_lengths,
                held_originators,
                held_lengths,
                queued_payloads,
                held_payloads,
                past,
                past_originators,
                past_lengths,
                past_payloads,
                highest,
                replies,
                taken,
                counts,
                repeats,
                kept,
                marks,
                originators,
                lengths,
                payloads,
                sizes,
                packets,
                opening.n as u8,
                opening.number,
                degree,
            );
            let verdict = opened.verdict;
            let fresh = opened.world;
            match verdict {
                Ok(()) => Told {
                    world: fresh,
                    number: 1,
                    phase: Phase::Running,
                    written: 0,
                },
                Err(refusal) => refuse(fresh, refusal, out),
            }
        }
    }
}

// A line that has ended.
fn play(
    world: World,
    number: u64,
    phase: Phase,
    small: &mut [[u8; SMALL]; Group::MEMBERS],
    masks: &mut [[u16; MASKS]; Group::MEMBERS],
    numbers: &mut [[u32; NUMBERS]; Group::MEMBERS],
    queued: &mut [[u32; Group::WAITING]; Group::MEMBERS],
    held: &mut [[u32; Group::HELD]; Group::MEMBERS],
    queued_originators: &mut [[u8; Group::WAITING]; Group::MEMBERS],
    queued_lengths: &mut [[u8; Group::WAITING]; Group::MEMBERS],
    held_originators: &mut [[u8; Group::HELD]; Group::MEMBERS],
    held_lengths: &mut [[u8; Group::HELD]; Group::MEMBERS],
    queued_payloads: &mut [[u8; Group::WAITING_BYTES]; Group::MEMBERS],
    held_payloads: &mut [[u8; Group::HELD_BYTES]; Group::MEMBERS],
    past: &mut [[u32; Group::PLACES]; Group::MEMBERS],
    past_originators: &mut [[u8; Group::PLACES]; Group::MEMBERS],
    past_lengths: &mut [[u8; Group::PLACES]; Group::MEMBERS],
    past_payloads: &mut [[u8; Group::HISTORY_BYTES]; Group::MEMBERS],
    highest: &mut [[u32; Group::MEMBERS]; Group::MEMBERS],
    replies: &mut [[u32; Group::MEMBERS]; Group::MEMBERS],
    taken: &mut [[u32; Group::MEMBERS]; Group::MEMBERS],
    counts: &mut [[u32; Group::MEMBERS]; Group::MEMBERS],
    repeats: &mut [[u32; Group::MEMBERS]; Group::MEMBERS],
    kept: &mut [[u32; Group::PLACES]; Group::MEMBERS],
    marks: &mut [[u16; Group::PLACES]; Group::MEMBERS],
    originators: &mut [[u8; Group::PLACES]; Group::MEMBERS],
    lengths: &mut [[u8; Group::PLACES]; Group::MEMBERS],
    payloads: &mut [[u8; Group::HISTORY_BYTES]; Group::MEMBERS],
    sizes: &mut [usize; PACKETS],
    packets: &mut [[u8; Group::PACKET]; PACKETS],
    line: &[u8],
    out: &mut [u8; OUTPUT],
) -> Told
    ensures { Tells (line_told (stage_in (phase_of world phase) (group_of (whole_of world small.old masks.old numbers.old queued.old held.old queued_originators.old queued_lengths.old held_originators.old held_lengths.old queued_payloads.old held_payloads.old past.old past_originators.old past_lengths.old past_payloads.old highest.old replies.old taken.old counts.old repeats.old kept.old marks.old originators.old lengths.old payloads.old sizes.old packets.old)) number) line.now) result (whole_of result.world small.new masks.new numbers.new queued.new held.new queued_originators.new queued_lengths.new held_originators.new held_lengths.new queued_payloads.new held_payloads.new past.new past_originators.new past_lengths.new past_payloads.new highest.new replies.new taken.new counts.new repeats.new kept.new marks.new originators.new lengths.new payloads.new sizes.new packets.new) out.old out.new }
{
    let stands = phase_of(world.n, world.count, phase);
    match stands {
        Phase::Opening => open(
            world,
            small,
            masks,
            numbers,
            queued,
            held,
            queued_originators,
            queued_lengths,
            held_originators,
            held_lengths,
            queued_payloads,
            held_payloads,
            past,
            past_originators,
            past_lengths,
            past_payloads,
            highest,
            replies,
            taken,
            counts,
            repeats,
            kept,
            marks,
            originators,
            lengths,
            payloads,
            sizes,
            packets,
            line,
            out,
        ),
        Phase::Running => tell(
            world,
            number,
            small,
            masks,
            numbers,
            queued,
            held,
            queued_originators,
            queued_lengths,
            held_originators,
            held_lengths,
            queued_payloads,
            held_payloads,
            past,
            past_originators,
            past_lengths,
            past_payloads,
            highest,
            replies,
            taken,
            counts,
            repeats,
            kept,
            marks,
            originators,
            lengths,
            payloads,
            sizes,
            packets,
            line,
            out,
        ),
        Phase::Ended => Told {
            world,
            number,
            phase: stands,
            written: 0,
        },
        Phase::Closed => Told {
            world,
            number,
            phase: stands,
            written: 0,
        },
    }
}

// Plays the line that is kept: its first `size` bytes.
fn play_line(
    player: Player,
    small: &mut [[u8; SMALL]; Group::MEMBERS],
    masks: &mut [[u16; MASKS]; Group::MEMBERS],
    numbers: &mut [[u32; NUMBERS]; Group::MEMBERS],
    queued: &mut [[u32; Group::WAITING]; Group::MEMBERS],
    held: &mut [[u32; Group::HELD]; Group::MEMBERS],
    queued_originators: &mut [[u8; Group::WAITING]; Group::MEMBERS],
    queued_lengths: &mut [[u8; Group::WAITING]; Group::MEMBERS],
    held_originators: &mut [[u8; Group::HELD]; Group::MEMBERS],
    held_lengths: &mut [[u8; Group::HELD]; Group::MEMBERS],
    queued_payloads: &mut [[u8; Group::WAITING_BYTES]; Group::MEMBERS],
    held_payloads: &mut [[u8; Group::HELD_BYTES]; Group::MEMBERS],
    past: &mut [[u32; Group::PLACES]; Group::MEMBERS],
    past_originators: &mut [[u8; Group::PLACES]; Group::MEMBERS],
    past_lengths: &mut [[u8; Group::PLACES]; Group::MEMBERS],
    past_payloads: &mut [[u8; Group::HISTORY_BYTES]; Group::MEMBERS],
    highest: &mut [[u32; Group::MEMBERS]; Group::MEMBERS],
    replies: &mut [[u32; Group::MEMBERS]; Group::MEMBERS],
    taken: &mut [[u32; Group::MEMBERS]; Group::MEMBERS],
    counts: &mut [[u32; Group::MEMBERS]; Group::MEMBERS],
    repeats: &mut [[u32; Group::MEMBERS]; Group::MEMBERS],
    kept: &mut [[u32; Group::PLACES]; Group::MEMBERS],
    marks: &mut [[u16; Group::PLACES]; Group::MEMBERS],
    originators: &mut [[u8; Group::PLACES]; Group::MEMBERS],
    lengths: &mut [[u8; Group::PLACES]; Group::MEMBERS],
    payloads: &mut [[u8; Group::HISTORY_BYTES]; Group::MEMBERS],
    sizes: &mut [usize; PACKETS],
    packets: &mut [[u8; Group::PACKET]; PACKETS],
    line: &[u8],
    size: usize,
    used: usize,
    out: &mut [u8; OUTPUT],
) -> Fed
    requires { size ≤ length line.now }
    ensures { PlaysLine (told_as (line_told (stage_of player (whole_of player.world small.old masks.old numbers.old queued.old held.old queued_originators.old queued_lengths.old held_originators.old held_lengths.old queued_payloads.old held_payloads.old past.old past_originators.old past_lengths.old past_payloads.old highest.old replies.old taken.old counts.old repeats.old kept.old marks.old originators.old lengths.old payloads.old sizes.old packets.old)) (take size line.now)) used) result (whole_of result.player.world small.new masks.new numbers.new queued.new held.new queued_originators.new queued_lengths.new held_originators.new held_lengths.new queued_payloads.new held_payloads.new past.new past_originators.new past_lengths.new past_payloads.new highest.new replies.new taken.new counts.new repeats.new kept.new marks.new originators.new lengths.new payloads.new sizes.new packets.new) out.old out.new }
{
    let world = player.world;
    let phase = player.phase;
    let told = play(
        world,
        player.number,
        phase,
        small,
        masks,
        numbers,
        queued,
        held,
        queued_originators,
        queued_lengths,
        held_originators,
        held_lengths,
        queued_payloads,
        held_payloads,
        past,
        past_originators,
        past_lengths,
        past_payloads,
        highest,
        replies,
        taken,
        counts,
        repeats,
        kept,
        marks,
        originators,
        lengths,
        payloads,
        sizes,
        packets,
        &line[..size],
        out,
    );
    let next = told.world;
    let stands = told.phase;
    let left = Player {
        world: next,
        number: told.number,
        phase: stands,
        length: 0,
    };
    Fed {
        player: left,
        used,
        written: told.written,
    }
}

// Reads a part of the input up to its first line feed, or whole.
pub fn feed(
    player: Player,
    small: &mut [[u8; SMALL]; Group::MEMBERS],
    masks: &mut [[u16; MASKS]; Group::MEMBERS],
    numbers: &mut [[u32; NUMBERS]; Group::MEMBERS],
    queued: &mut [[u32; Group::WAITING]; Group::MEMBERS],
    held: &mut [[u32; Group::HELD]; Group::MEMBERS],
    queued_originators: &mut [[u8; Group::WAITING]; Group::MEMBERS],
    queued_lengths: &mut [[u8; Group::WAITING]; Group::MEMBERS],
    held_originators: &mut [[u8; Group::HELD]; Group::MEMBERS],
    held_lengths: &mut [[u8; Group::HELD]; Group::MEMBERS],
    queued_payloads: &mut [[u8; Group::WAITING_BYTES]; Group::MEMBERS],
    held_payloads: &mut [[u8; Group::HELD_BYTES]; Group::MEMBERS],
    past: &mut [[u32; Group::PLACES]; Group::MEMBERS],
    past_originators: &mut [[u8; Group::PLACES]; Group::MEMBERS],
    past_lengths: &mut [[u8; Group::PLACES]; Group::MEMBERS],
    past_payloads: &mut [[u8; Group::HISTORY_BYTES]; Group::MEMBERS],
    highest: &mut [[u32; Group::MEMBERS]; Group::MEMBERS],
    replies: &mut [[u32; Group::MEMBERS]; Group::MEMBERS],
    taken: &mut [[u32; Group::MEMBERS]; Group::MEMBERS],
    counts: &mut [[u32; Group::MEMBERS]; Group::MEMBERS],
    repeats: &mut [[u32; Group::MEMBERS]; Group::MEMBERS],
    kept: &mut [[u32; Group::PLACES]; Group::MEMBERS],
    marks: &mut [[u16; Group::PLACES]; Group::MEMBERS],
    originators: &mut [[u8; Group::PLACES]; Group::MEMBERS],
    lengths: &mut [[u8; Group::PLACES]; Group::MEMBERS],
    payloads: &mut [[u8; Group::HISTORY_BYTES]; Group::MEMBERS],
    sizes: &mut [usize; PACKETS],
    packets: &mut [[u8; Group::PACKET]; PACKETS],
    line: &mut [u8; LINE],
    part: &[u8],
    out: &mut [u8; OUTPUT],
) -> Fed
    ensures { Does (fed_of (state_of player (whole_of player.world small.old masks.old numbers.old queued.old held.old queued_originators.old queued_lengths.old held_originators.old held_lengths.old queued_payloads.old held_payloads.old past.old past_originators.old past_lengths.old past_payloads.old highest.old replies.old taken.old counts.old repeats.old kept.old marks.old originators.old lengths.old payloads.old sizes.old packets.old) line.old) part.now) result (whole_of result.player.world small.new masks.new numbers.new queued.new held.new queued_originators.new queued_lengths.new held_originators.new held_lengths.new queued_payloads.new held_payloads.new past.new past_originators.new past_lengths.new past_payloads.new highest.new replies.new taken.new counts.new repeats.new kept.new marks.new originators.new lengths.new payloads.new sizes.new packets.new) line.new out.old out.new }
{
    match line_end(part) {
        Some(e) => {
            let size = keep(line, player.length, &part[..e]);
            play_line(
                player,
                small,
                masks,
                numbers,
                queued,
                held,
                queued_originators,
                queued_lengths,
                held_originators,
                held_lengths,
                queued_payloads,
                held_payloads,
                past,
                past_originators,
                past_lengths,
                past_payloads,
                highest,
                replies,
                taken,
                counts,
                repeats,
                kept,
                marks,
                originators,
                lengths,
                payloads,
                sizes,
                packets,
                line,
                size,
                e + 1,
                out,
            )
        }
        None => {
            let size = keep(line, player.length, part);
            let world = player.world;
            let phase = player.phase;
            let left = Player {
                world,
                number: player.number,
                phase,
                length: size,
            };
            Fed {
                player: left,
                used: part.len(),
                written: 0,
            }
        }
    }
}

// The end of the input: plays a line that no line feed ended.
pub fn end(
    player: Player,
    small: &mut [[u8; SMALL]; Group::MEMBERS],
    masks: &mut [[u16; MASKS]; Group::MEMBERS],
    numbers: &mut [[u32; NUMBERS]; Group::MEMBERS],
    queued: &mut [[u32; Group::WAITING]; Group::MEMBERS],
    held: &mut [[u32; Group::HELD]; Group::MEMBERS],
    queued_originators: &mut [[u8; Group::WAITING]; Group::MEMBERS],
    queued_lengths: &mut [[u8; Group::WAITING]; Group::MEMBERS],
    held_originators: &mut [[u8; Group::HELD]; Group::MEMBERS],
    held_lengths: &mut [[u8; Group::HELD]; Group::MEMBERS],
    queued_payloads: &mut [[u8; Group::WAITING_BYTES]; Group::MEMBERS],
    held_payloads: &mut [[u8; Group::HELD_BYTES]; Group::MEMBERS],
    past: &mut [[u32; Group::PLACES]; Group::MEMBERS],
    past_originators: &mut [[u8; Group::PLACES]; Group::MEMBERS],
    past_lengths: &mut [[u8; Group::PLACES]; Group::MEMBERS],
    past_payloads: &mut [[u8; Group::HISTORY_BYTES]; Group::MEMBERS],
    highest: &mut [[u32; Group::MEMBERS]; Group::MEMBERS],
    replies: &mut [[u32; Group::MEMBERS]; Group::MEMBERS],
    taken: &mut [[u32; Group::MEMBERS]; Group::MEMBERS],
    counts: &mut [[u32; Group::MEMBERS]; Group::MEMBERS],
    repeats: &mut [[u32; Group::MEMBERS]; Group::MEMBERS],
    kept: &mut [[u32; Group::PLACES]; Group::MEMBERS],
    marks: &mut [[u16; Group::PLACES]; Group::MEMBERS],
    originators: &mut [[u8; Group::PLACES]; Group::MEMBERS],
    lengths: &mut [[u8; Group::PLACES]; Group::MEMBERS],
    payloads: &mut [[u8; Group::HISTORY_BYTES]; Group::MEMBERS],
    sizes: &mut [usize; PACKETS],
    packets: &mut [[u8; Group::PACKET]; PACKETS],
    line: &[u8; LINE],
    out: &mut [u8; OUTPUT],
) -> Fed
    ensures { Does (end_of (state_of player (whole_of player.world small.old masks.old numbers.old queued.old held.old queued_originators.old queued_lengths.old held_originators.old held_lengths.old queued_payloads.old held_payloads.old past.old past_originators.old past_lengths.old past_payloads.old highest.old replies.old taken.old counts.old repeats.old kept.old marks.old originators.old lengths.old payloads.old sizes.old packets.old) line.now)) result (whole_of result.player.world small.new masks.new numbers.new queued.new held.new queued_originators.new queued_lengths.new held_originators.new held_lengths.new queued_payloads.new held_payloads.new past.new past_originators.new past_lengths.new past_payloads.new highest.new replies.new taken.new counts.new repeats.new kept.new marks.new originators.new lengths.new payloads.new sizes.new packets.new) line.now out.old out.new }
{
    let size = player.length.min(LINE);
    if size == 0 {
        return Fed {
            player,
            used: 0,
            written: 0,
        };
    }
    play_line(
        player,
        small,
        masks,
        numbers,
        queued,
        held,
        queued_originators,
        queued_lengths,
        held_originators,
        held_lengths,
        queued_payloads,
        held_payloads,
        past,
        past_originators,
        past_lengths,
        past_payloads,
        highest,
        replies,
        taken,
        counts,
        repeats,
        kept,
        marks,
        originators,
        lengths,
        payloads,
        sizes,
        packets,
        line,
        size,
        0,
        out,
    )
}

// The line of terminal i at the end, to the front of the lent output.
pub fn last_member(
    small: &[[u8; SMALL]; Group::MEMBERS],
    masks: &[[u16; MASKS]; Group::MEMBERS],
    numbers: &[[u32; NUMBERS]; Group::MEMBERS],
    i: usize,
    out: &mut [u8; OUTPUT],
) -> usize
    requires { i < members_most }
    ensures { LaysLast member_told small.now masks.now numbers.now i result out.old out.new }
{
    let head = read_head(small, masks, numbers, i);
    let group = head.member.group;
    let taken = head.member.taken;
    let elected = group.elected;
    write_terminal(i as u32, group.number, taken, elected, group.survivors, out)
}

// The line of its sequencer, if it has one.
pub fn last_sequencer(
    small: &[[u8; SMALL]; Group::MEMBERS],
    masks: &[[u16; MASKS]; Group::MEMBERS],
    numbers: &[[u32; NUMBERS]; Group::MEMBERS],
    i: usize,
    out: &mut [u8; OUTPUT],
) -> usize
    requires { i < members_most }
    ensures { LaysLast sequencer_told small.now masks.now numbers.now i result out.old out.new }
{
    let head = read_head(small, masks, numbers, i);
    if head.sequencing == 1 {
        let number = head.sequencer.group.number;
        let top = head.sequencer.top;
        let floor = head.sequencer.floor;
        return write_sequencer(i as u32, number, top, floor, head.frozen == 1, out);
    }
    0
}

impl Player {
    // The numbers of a player that has read nothing.
    pub fn fresh() -> Self
        ensures { Fresh result }
    {
        let world = World { n: 0, count: 0 };
        Player {
            world,
            number: 0,
            phase: Phase::Opening,
            length: 0,
        }
    }
}
