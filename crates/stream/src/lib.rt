// Plays a schedule from a source to a sink. Each part of the input that was read goes to the player, and what the program
// says of it is handed on at once.
#![tactic(auto)]

ghost use Rattle.std.specs.Prelude.{◌≡◌, [], ◌++◌, ◌≤◌, length, take};
ghost use Rattle.descriptor.specs.Descriptor.{Takes};
ghost use Rattle.group.specs.Limits.{members_most};
ghost use Rattle.inspection.specs.Lists.{job_lines, list_lines, list_on, lists_of};
ghost use Rattle.inspection.specs.Table.{inspect_program};
ghost use Rattle.player.specs.Feed.{said_of, end_of};
ghost use Rattle.player.specs.Play.{play_program};
ghost use Rattle.player.specs.Player.{phase_with, state_of};
ghost use Rattle.player.specs.Steps.{Fits};
ghost use Rattle.simulator.specs.Whole.{packets_most, rows_of, terminals_of, packets_of, packets_in, whole_of};
ghost use Rattle.stream.specs.Played.{Plays};
ghost use Rattle.stream.specs.Steps.{program_of, said_size, Puts, Turns, HandsLists, HandsLeft, HandsLast};

use descriptor::{Sink, Source};
use group::{Group, SequenceNumber};
use inspection::{JOB_ROOM, TABLE_ROOM, list_left, write_job, write_left};
use jobs::Job;
use player::{LINE, OUTPUT, Phase, Player, end, feed, last, phase_of};
use simulator::{Head, NUMBERS, PACKETS};
use std::io::{Read, Write};

// A player of some kind and the sink after a part of the input.
#[derive(Drop)]
pub struct Step<'w, P, W> {
    pub player: P,
    pub sink: Sink<'w, W>,
}

// The same with the source, and whether to go on: the input has not ended, and the sink takes what it is handed.
#[derive(Drop)]
pub struct Turn<'r, 'w, P, R, W> {
    pub player: P,
    pub source: Source<'r, R>,
    pub sink: Sink<'w, W>,
    pub goes_on: bool,
}

// The source and the sink after a schedule.
#[derive(Drop)]
pub struct Played<'r, 'w, R, W> {
    pub source: Source<'r, R>,
    pub sink: Sink<'w, W>,
}

// Hands on the first `size` bytes of a text.
pub fn put_text<'w, W: Write>(sink: Sink<'w, W>, text: &[u8], size: usize) -> Sink<'w, W>
    ensures { Takes W.contents sink.entry (take size text.now) result }
{
    sink.write(&text[..size.min(text.len())])
}

// How many bytes are said of a line's text: all, or, where the program is quiet, those of a line that opened no group.
fn said(quiet: bool, n: u8, count: usize, phase: Phase, size: usize) -> usize
    ensures { result ≡ said_size quiet (phase_with n count phase) size }
{
    if !quiet {
        return size;
    }
    match phase_of(n, count, phase) {
        Phase::Closed => size,
        _ => 0,
    }
}

// Plays what was read, a line at a time.
fn play_part<'w, W: Write>(
    quiet: bool,
    mut player: Player,
    taken: &mut [u32; Group::MEMBERS],
    counts: &mut [u32; Group::MEMBERS],
    repeats: &mut [u32; Group::MEMBERS],
    kept: &mut [u32; Group::PLACES],
    marks: &mut [u16; Group::PLACES],
    originators: &mut [u8; Group::PLACES],
    lengths: &mut [u8; Group::PLACES],
    payloads: &mut [u8; Group::HISTORY_BYTES],
    numbers: &mut [[u32; NUMBERS]; Group::MEMBERS],
    queued: &mut [[u32; Group::WAITING]; Group::MEMBERS],
    held: &mut [[u32; Group::HELD]; Group::MEMBERS],
    queued_originators: &mut [[u8; Group::WAITING]; Group::MEMBERS],
    queued_lengths: &mut [[u8; Group::WAITING]; Group::MEMBERS],
    held_originators: &mut [[u8; Group::HELD]; Group::MEMBERS],
    held_lengths: &mut [[u8; Group::HELD]; Group::MEMBERS],
    queued_payloads: &mut [[u8; Group::WAITING_BYTES]; Group::MEMBERS],
    held_payloads: &mut [[u8; Group::HELD_BYTES]; Group::MEMBERS],
    sizes: &mut [usize; PACKETS],
    packets: &mut [[u8; Group::PACKET]; PACKETS],
    line: &mut [u8; LINE],
    part: &[u8],
    mut sink: Sink<'w, W>,
) -> Step<'w, Player, W>
    ensures { Puts W.contents (program_of quiet) (state_of player (whole_of player.head taken.old counts.old repeats.old kept.old marks.old originators.old lengths.old payloads.old numbers.old queued.old held.old queued_originators.old queued_lengths.old held_originators.old held_lengths.old queued_payloads.old held_payloads.old sizes.old packets.old) line.old) part.now (state_of result.player (whole_of result.player.head taken.new counts.new repeats.new kept.new marks.new originators.new lengths.new payloads.new numbers.new queued.new held.new queued_originators.new queued_lengths.new held_originators.new held_lengths.new queued_payloads.new held_payloads.new sizes.new packets.new) line.new) [] sink.entry result.sink }
{
    let mut from: usize = 0;
    // kept: a while, since a feed says how many bytes it used.
    while from < part.len() {
        let mut text = [0; OUTPUT];
        let fed = feed(
            player,
            taken,
            counts,
            repeats,
            kept,
            marks,
            originators,
            lengths,
            payloads,
            numbers,
            queued,
            held,
            queued_originators,
            queued_lengths,
            held_originators,
            held_lengths,
            queued_payloads,
            held_payloads,
            sizes,
            packets,
            line,
            &part[from..],
            &mut text,
        );
        player = fed.player;
        let head = player.head;
        let n = head.sequencer.group.n;
        let size = said(quiet, n, head.count, player.phase, fed.written);
        sink = put_text(sink, &text, size);
        from += fed.used;
    }
    Step { player, sink }
}

// Reads once, and plays what came.
fn play_some<'r, 'w, R: Read, W: Write>(
    quiet: bool,
    player: Player,
    taken: &mut [u32; Group::MEMBERS],
    counts: &mut [u32; Group::MEMBERS],
    repeats: &mut [u32; Group::MEMBERS],
    kept: &mut [u32; Group::PLACES],
    marks: &mut [u16; Group::PLACES],
    originators: &mut [u8; Group::PLACES],
    lengths: &mut [u8; Group::PLACES],
    payloads: &mut [u8; Group::HISTORY_BYTES],
    numbers: &mut [[u32; NUMBERS]; Group::MEMBERS],
    queued: &mut [[u32; Group::WAITING]; Group::MEMBERS],
    held: &mut [[u32; Group::HELD]; Group::MEMBERS],
    queued_originators: &mut [[u8; Group::WAITING]; Group::MEMBERS],
    queued_lengths: &mut [[u8; Group::WAITING]; Group::MEMBERS],
    held_originators: &mut [[u8; Group::HELD]; Group::MEMBERS],
    held_lengths: &mut [[u8; Group::HELD]; Group::MEMBERS],
    queued_payloads: &mut [[u8; Group::WAITING_BYTES]; Group::MEMBERS],
    held_payloads: &mut [[u8; Group::HELD_BYTES]; Group::MEMBERS],
    sizes: &mut [usize; PACKETS],
    packets: &mut [[u8; Group::PACKET]; PACKETS],
    line: &mut [u8; LINE],
    source: Source<'r, R>,
    sink: Sink<'w, W>,
) -> Turn<'r, 'w, Player, R, W>
    ensures { Turns R.remaining W.contents (program_of quiet) (state_of player (whole_of player.head taken.old counts.old repeats.old kept.old marks.old originators.old lengths.old payloads.old numbers.old queued.old held.old queued_originators.old queued_lengths.old held_originators.old held_lengths.old queued_payloads.old held_payloads.old sizes.old packets.old) line.old) (state_of result.player (whole_of result.player.head taken.new counts.new repeats.new kept.new marks.new originators.new lengths.new payloads.new numbers.new queued.new held.new queued_originators.new queued_lengths.new held_originators.new held_lengths.new queued_payloads.new held_payloads.new sizes.new packets.new) line.new) source.entry sink.entry result }
{
    let mut chunk = [0u8; 4096];
    let read = source.read(&mut chunk);
    let size = read.size;
    let next = read.source;
    let step = play_part(
        quiet,
        player,
        taken,
        counts,
        repeats,
        kept,
        marks,
        originators,
        lengths,
        payloads,
        numbers,
        queued,
        held,
        queued_originators,
        queued_lengths,
        held_originators,
        held_lengths,
        queued_payloads,
        held_payloads,
        sizes,
        packets,
        line,
        &chunk[..size],
        sink,
    );
    let goes_on = size > 0 && !step.sink.failed();
    Turn {
        player: step.player,
        source: next,
        sink: step.sink,
        goes_on,
    }
}

// Plays to the end of the input. A proved loop has to end, and nothing says that an input does: so the loop has a number of turns
// that no run uses up.
fn play_all<'r, 'w, R: Read, W: Write>(
    quiet: bool,
    player: Player,
    taken: &mut [u32; Group::MEMBERS],
    counts: &mut [u32; Group::MEMBERS],
    repeats: &mut [u32; Group::MEMBERS],
    kept: &mut [u32; Group::PLACES],
    marks: &mut [u16; Group::PLACES],
    originators: &mut [u8; Group::PLACES],
    lengths: &mut [u8; Group::PLACES],
    payloads: &mut [u8; Group::HISTORY_BYTES],
    numbers: &mut [[u32; NUMBERS]; Group::MEMBERS],
    queued: &mut [[u32; Group::WAITING]; Group::MEMBERS],
    held: &mut [[u32; Group::HELD]; Group::MEMBERS],
    queued_originators: &mut [[u8; Group::WAITING]; Group::MEMBERS],
    queued_lengths: &mut [[u8; Group::WAITING]; Group::MEMBERS],
    held_originators: &mut [[u8; Group::HELD]; Group::MEMBERS],
    held_lengths: &mut [[u8; Group::HELD]; Group::MEMBERS],
    queued_payloads: &mut [[u8; Group::WAITING_BYTES]; Group::MEMBERS],
    held_payloads: &mut [[u8; Group::HELD_BYTES]; Group::MEMBERS],
    sizes: &mut [usize; PACKETS],
    packets: &mut [[u8; Group::PACKET]; PACKETS],
    line: &mut [u8; LINE],
    source: Source<'r, R>,
    sink: Sink<'w, W>,
) -> Turn<'r, 'w, Player, R, W>
    ensures { Turns R.remaining W.contents (program_of quiet) (state_of player (whole_of player.head taken.old counts.old repeats.old kept.old marks.old originators.old lengths.old payloads.old numbers.old queued.old held.old queued_originators.old queued_lengths.old held_originators.old held_lengths.old queued_payloads.old held_payloads.old sizes.old packets.old) line.old) (state_of result.player (whole_of result.player.head taken.new counts.new repeats.new kept.new marks.new originators.new lengths.new payloads.new numbers.new queued.new held.new queued_originators.new queued_lengths.new held_originators.new held_lengths.new queued_payloads.new held_payloads.new sizes.new packets.new) line.new) source.entry sink.entry result }
{
    let mut turn = Turn {
        player,
        source,
        sink,
        goes_on: true,
    };
    'turns: for _ in 0..u64::MAX {
        if !turn.goes_on {
            break;
        }
        let Turn {
            player,
            source,
            sink,
            ..
        } = turn;
        turn = play_some(
            quiet,
            player,
            taken,
            counts,
            repeats,
            kept,
            marks,
            originators,
            lengths,
            payloads,
            numbers,
            queued,
            held,
            queued_originators,
            queued_lengths,
            held_originators,
            held_lengths,
            queued_payloads,
            held_payloads,
            sizes,
            packets,
            line,
            source,
            sink,
        );
    }
    turn
}

// The lines of terminal i's work list.
fn put_jobs<'w, W: Write>(i: u32, jobs: [Job; Group::JOBS], mut sink: Sink<'w, W>) -> Sink<'w, W>
    ensures { Takes W.contents sink.entry (job_lines i jobs (length jobs)) result }
{
    for place in 0..Group::JOBS {
        let mut line = [0; JOB_ROOM];
        let size = write_job(i, place as u32, jobs[place], &mut line);
        sink = put_text(sink, &line, size);
    }
    sink
}

// Those of the first n terminals.
fn put_lists<'w, W: Write>(
    numbers: &[[u32; NUMBERS]],
    sizes: &[usize; PACKETS],
    packets: &[[u8; Group::PACKET]; PACKETS],
    count: usize,
    n: usize,
    mut sink: Sink<'w, W>,
) -> Sink<'w, W>
    requires { (n ≤ members_most) × (count ≤ packets_most) × (length numbers.now ≡ members_most) }
    ensures { Takes W.contents sink.entry (list_lines (list_on numbers.now (packets_in (packets_of sizes.now packets.now count))) n) result }
{
    for i in 0..n {
        let taken = SequenceNumber(numbers[i][0]);
        let jobs = list_left(sizes, packets, count, taken);
        sink = put_jobs(i as u32, jobs, sink);
    }
    sink
}

// The heading and the lists of a group.
fn put_group<'w, W: Write>(
    head: Head,
    numbers: &[[u32; NUMBERS]; Group::MEMBERS],
    sizes: &[usize; PACKETS],
    packets: &[[u8; Group::PACKET]; PACKETS],
    sink: Sink<'w, W>,
) -> Sink<'w, W>
    requires { Fits head }
    ensures { HandsLists W.contents lists_of head numbers.now (packets_of sizes.now packets.now head.count) sink.entry result }
{
    let n = head.sequencer.group.n as usize;
    let next = sink.write(b"terminal place holder job\n");
    put_lists(numbers, sizes, packets, head.count, n, next)
}

// Where there is a group at the end of the input, its lists.
fn put_left<'w, W: Write>(
    player: Player,
    numbers: &[[u32; NUMBERS]; Group::MEMBERS],
    sizes: &[usize; PACKETS],
    packets: &[[u8; Group::PACKET]; PACKETS],
    sink: Sink<'w, W>,
) -> Sink<'w, W>
    ensures { HandsLeft W.contents player numbers.now (packets_of sizes.now packets.now player.head.count) sink.entry result }
{
    let head = player.head;
    match phase_of(head.sequencer.group.n, head.count, player.phase) {
        Phase::Running | Phase::Ended => put_group(head, numbers, sizes, packets, sink),
        Phase::Opening | Phase::Closed => sink,
    }
}

// What is printed at the end: a table and lists where the program is quiet, else the last line.
fn put_last<'w, W: Write>(
    quiet: bool,
    player: Player,
    taken: &[u32; Group::MEMBERS],
    repeats: &[u32; Group::MEMBERS],
    numbers: &[[u32; NUMBERS]; Group::MEMBERS],
    queued: &[[u32; Group::WAITING]; Group::MEMBERS],
    held: &[[u32; Group::HELD]; Group::MEMBERS],
    queued_originators: &[[u8; Group::WAITING]; Group::MEMBERS],
    queued_lengths: &[[u8; Group::WAITING]; Group::MEMBERS],
    held_originators: &[[u8; Group::HELD]; Group::MEMBERS],
    held_lengths: &[[u8; Group::HELD]; Group::MEMBERS],
    queued_payloads: &[[u8; Group::WAITING_BYTES]; Group::MEMBERS],
    held_payloads: &[[u8; Group::HELD_BYTES]; Group::MEMBERS],
    sizes: &[usize; PACKETS],
    packets: &[[u8; Group::PACKET]; PACKETS],
    sink: Sink<'w, W>,
) -> Sink<'w, W>
    ensures { HandsLast W.contents quiet player taken.now repeats.now (terminals_of player.head.sequencer.group numbers.now (rows_of queued.now held.now queued_originators.now queued_lengths.now held_originators.now held_lengths.now queued_payloads.now held_payloads.now)) (packets_of sizes.now packets.now player.head.count) sink.entry result }
{
    if quiet {
        let mut table = [0; TABLE_ROOM];
        let size = write_left(
            player,
            numbers,
            queued,
            held,
            queued_originators,
            queued_lengths,
            held_originators,
            held_lengths,
            queued_payloads,
            held_payloads,
            taken,
            repeats,
            &mut table,
        );
        let next = put_text(sink, &table, size);
        return put_left(player, numbers, sizes, packets, next);
    }
    let mut text = [0; OUTPUT];
    let size = last(player, numbers, &mut text);
    put_text(sink, &text, size)
}

// The end of the input.
fn finish<'w, W: Write>(
    quiet: bool,
    player: Player,
    taken: &mut [u32; Group::MEMBERS],
    counts: &mut [u32; Group::MEMBERS],
    repeats: &mut [u32; Group::MEMBERS],
    kept: &mut [u32; Group::PLACES],
    marks: &mut [u16; Group::PLACES],
    originators: &mut [u8; Group::PLACES],
    lengths: &mut [u8; Group::PLACES],
    payloads: &mut [u8; Group::HISTORY_BYTES],
    numbers: &mut [[u32; NUMBERS]; Group::MEMBERS],
    queued: &mut [[u32; Group::WAITING]; Group::MEMBERS],
    held: &mut [[u32; Group::HELD]; Group::MEMBERS],
    queued_originators: &mut [[u8; Group::WAITING]; Group::MEMBERS],
    queued_lengths: &mut [[u8; Group::WAITING]; Group::MEMBERS],
    held_originators: &mut [[u8; Group::HELD]; Group::MEMBERS],
    held_lengths: &mut [[u8; Group::HELD]; Group::MEMBERS],
    queued_payloads: &mut [[u8; Group::WAITING_BYTES]; Group::MEMBERS],
    held_payloads: &mut [[u8; Group::HELD_BYTES]; Group::MEMBERS],
    sizes: &mut [usize; PACKETS],
    packets: &mut [[u8; Group::PACKET]; PACKETS],
    line: &[u8; LINE],
    sink: Sink<'w, W>,
) -> Sink<'w, W>
    ensures { Takes W.contents sink.entry (said_of (program_of quiet) (end_of (state_of player (whole_of player.head taken.old counts.old repeats.old kept.old marks.old originators.old lengths.old payloads.old numbers.old queued.old held.old queued_originators.old queued_lengths.old held_originators.old held_lengths.old queued_payloads.old held_payloads.old sizes.old packets.old) line.now)) ++ (program_of quiet).last (end_of (state_of player (whole_of player.head taken.old counts.old repeats.old kept.old marks.old originators.old lengths.old payloads.old numbers.old queued.old held.old queued_originators.old queued_lengths.old held_originators.old held_lengths.old queued_payloads.old held_payloads.old sizes.old packets.old) line.now)).state.stage) result }
{
    let mut text = [0; OUTPUT];
    let fed = end(
        player,
        taken,
        counts,
        repeats,
        kept,
        marks,
        originators,
        lengths,
        payloads,
        numbers,
        queued,
        held,
        queued_originators,
        queued_lengths,
        held_originators,
        held_lengths,
        queued_payloads,
        held_payloads,
        sizes,
        packets,
        line,
        &mut text,
    );
    let left = fed.player;
    let head = left.head;
    let n = head.sequencer.group.n;
    let size = said(quiet, n, head.count, left.phase, fed.written);
    let next = put_text(sink, &text, size);
    put_last(
        quiet,
        left,
        taken,
        repeats,
        numbers,
        queued,
        held,
        queued_originators,
        queued_lengths,
        held_originators,
        held_lengths,
        queued_payloads,
        held_payloads,
        sizes,
        packets,
        next,
    )
}

// Plays the schedule that the source has, to the sink. The group's arrays and the line's are its own.
fn run<'r, 'w, R: Read, W: Write>(
    quiet: bool,
    source: Source<'r, R>,
    sink: Sink<'w, W>,
) -> Played<'r, 'w, R, W>
    ensures { Plays R.remaining W.contents (program_of quiet) source.entry sink.entry result }
{
    let mut taken = [0u32; Group::MEMBERS];
    let mut counts = [0u32; Group::MEMBERS];
    let mut repeats = [0u32; Group::MEMBERS];
    let mut kept = [0u32; Group::PLACES];
    let mut marks = [0u16; Group::PLACES];
    let mut originators = [0u8; Group::PLACES];
    let mut lengths = [0u8; Group::PLACES];
    let mut payloads = [0u8; Group::HISTORY_BYTES];
    let none = [0u32; NUMBERS];
    let mut numbers = [none; Group::MEMBERS];
    let none = [0u32; Group::WAITING];
    let mut queued = [none; Group::MEMBERS];
    let none = [0u32; Group::HELD];
    let mut held = [none; Group::MEMBERS];
    let none = [0u8; Group::WAITING];
    let mut queued_originators = [none; Group::MEMBERS];
    let none = [0u8; Group::WAITING];
    let mut queued_lengths = [none; Group::MEMBERS];
    let none = [0u8; Group::HELD];
    let mut held_originators = [none; Group::MEMBERS];
    let none = [0u8; Group::HELD];
    let mut held_lengths = [none; Group::MEMBERS];
    let none = [0u8; Group::WAITING_BYTES];
    let mut queued_payloads = [none; Group::MEMBERS];
    let none = [0u8; Group::HELD_BYTES];
    let mut held_payloads = [none; Group::MEMBERS];
    let mut sizes = [0usize; PACKETS];
    let none = [0u8; Group::PACKET];
    let mut packets = [none; PACKETS];
    let mut line = [0u8; LINE];
    let start = Player::fresh();
    let turn = play_all(
        quiet,
        start,
        &mut taken,
        &mut counts,
        &mut repeats,
        &mut kept,
        &mut marks,
        &mut originators,
        &mut lengths,
        &mut payloads,
        &mut numbers,
        &mut queued,
        &mut held,
        &mut queued_originators,
        &mut queued_lengths,
        &mut held_originators,
        &mut held_lengths,
        &mut queued_payloads,
        &mut held_payloads,
        &mut sizes,
        &mut packets,
        &mut line,
        source,
        sink,
    );
    let player = turn.player;
    let read = turn.source;
    let handed = turn.sink;
    let last = finish(
        quiet,
        player,
        &mut taken,
        &mut counts,
        &mut repeats,
        &mut kept,
        &mut marks,
        &mut originators,
        &mut lengths,
        &mut payloads,
        &mut numbers,
        &mut queued,
        &mut held,
        &mut queued_originators,
        &mut queued_lengths,
        &mut held_originators,
        &mut held_lengths,
        &mut queued_payloads,
        &mut held_payloads,
        &mut sizes,
        &mut packets,
        &line,
        handed,
    );
    Played {
        source: read,
        sink: last,
    }
}

// Prints what each event answers.
pub fn play<'r, 'w, R: Read, W: Write>(
    source: Source<'r, R>,
    sink: Sink<'w, W>,
) -> Played<'r, 'w, R, W>
    ensures { Plays R.remaining W.contents play_program source.entry sink.entry result }
{
    run(false, source, sink)
}

// Prints what is left at the end.
pub fn inspect<'r, 'w, R: Read, W: Write>(
    source: Source<'r, R>,
    sink: Sink<'w, W>,
) -> Played<'r, 'w, R, W>
    ensures { Plays R.remaining W.contents inspect_program source.entry sink.entry result }
{
    run(true, source, sink)
}
