// Plays a schedule with resets from a source to a sink. Each part of the input that was read goes to the player, and what it printed is handed
// on at once.
#![tactic(auto)]

ghost use Rattle.std.specs.Prelude.{[], ◌++◌, ◌≤◌};
ghost use Rattle.descriptor.specs.Descriptor.{Takes};
ghost use Rattle.group.specs.Lent.{Laid};
ghost use Rattle.group.specs.Limits.{members_most};
ghost use Rattle.report.specs.Print.{bad_opening};
ghost use Rattle.reset_player.specs.Feed.{end_of};
ghost use Rattle.reset_player.specs.Player.{state_of};
ghost use Rattle.reset_output.specs.Recover.{last_of};
ghost use Rattle.reset_simulator.specs.Whole.{whole_of};
ghost use Rattle.reset_stream.specs.Recovered.{Recovers};
ghost use Rattle.reset_stream.specs.Steps.{Puts, Turns, HandsTerminals, HandsLast, Runs};

use descriptor::{Sink, Source};
use group::Group;
use player::{LINE, OUTPUT, Phase, phase_of};
use report::write_bad_opening;
use reset_player::{Player, end, feed, last_member, last_sequencer};
use simulator::PACKETS;
use std::io::{Read, Write};
use stream::{Played, Step, Turn, put_text};
use terminal_rows::{MASKS, NUMBERS, SMALL};

// Plays what was read, a line at a time.
fn play_part<'w, W: Write>(
    mut player: Player,
    small: &mut [[u8; SMALL]; Group::MEMBERS],
    masks: &mut [[u16; MASKS]; Group::MEMBERS],
    numbers: &mut [[u32; NUMBERS]; Group::MEMBERS],
    queued: &mut [[u32; Group::WAITING]; Group::MEMBERS],
    held: &mut [[u32; Group::HELD]; Group::MEMBERS],
    queued_originators: &mut [[u8; Group::WAITING]; Group::MEMBERS],
    queued_lengths: &mut [[u8; Group::WAITING]; Group::MEMBERS],
    held_originators: &mut [[u8; Group::HELD]; Group::MEMBERS],
    held_lengths: &mut [[u8; Group::HELD]; Group::MEMBERS],
    queued_payloads: &mut [[u8; Group::WAITING_BYTES]; Group::MEMBERS],
    held_payloads: &mut [[u8; Group::HELD_BYTES]; Group::MEMBERS],
    past: &mut [[u32; Group::PLACES]; Group::MEMBERS],
    past_originators: &mut [[u8; Group::PLACES]; Group::MEMBERS],
    past_lengths: &mut [[u8; Group::PLACES]; Group::MEMBERS],
    past_payloads: &mut [[u8; Group::HISTORY_BYTES]; Group::MEMBERS],
    highest: &mut [[u32; Group::MEMBERS]; Group::MEMBERS],
    replies: &mut [[u32; Group::MEMBERS]; Group::MEMBERS],
    taken: &mut [[u32; Group::MEMBERS]; Group::MEMBERS],
    counts: &mut [[u32; Group::MEMBERS]; Group::MEMBERS],
    repeats: &mut [[u32; Group::MEMBERS]; Group::MEMBERS],
    kept: &mut [[u32; Group::PLACES]; Group::MEMBERS],
    marks: &mut [[u16; Group::PLACES]; Group::MEMBERS],
    originators: &mut [[u8; Group::PLACES]; Group::MEMBERS],
    lengths: &mut [[u8; Group::PLACES]; Group::MEMBERS],
    payloads: &mut [[u8; Group::HISTORY_BYTES]; Group::MEMBERS],
    sizes: &mut [usize; PACKETS],
    packets: &mut [[u8; Group::PACKET]; PACKETS],
    line: &mut [u8; LINE],
    part: &[u8],
    mut sink: Sink<'w, W>,
) -> Step<'w, Player, W>
    ensures { Puts W.contents (state_of player (whole_of player.world small.old masks.old numbers.old queued.old held.old queued_originators.old queued_lengths.old held_originators.old held_lengths.old queued_payloads.old held_payloads.old past.old past_originators.old past_lengths.old past_payloads.old highest.old replies.old taken.old counts.old repeats.old kept.old marks.old originators.old lengths.old payloads.old sizes.old packets.old) line.old) part.now (state_of result.player (whole_of result.player.world small.new masks.new numbers.new queued.new held.new queued_originators.new queued_lengths.new held_originators.new held_lengths.new queued_payloads.new held_payloads.new past.new past_originators.new past_lengths.new past_payloads.new highest.new replies.new taken.new counts.new repeats.new kept.new marks.new originators.new lengths.new payloads.new sizes.new packets.new) line.new) [] sink.entry result.sink }
{
    let mut from: usize = 0;
    // kept: a while, since a feed says how many bytes it used.
    while from < part.len() {
        let mut text = [0; OUTPUT];
        let fed = feed(
            player,
            small,
            masks,
            numbers,
            queued,
            held,
            queued_originators,
            queued_lengths,
            held_originators,
            held_lengths,
            queued_payloads,
            held_payloads,
            past,
            past_originators,
            past_lengths,
            past_payloads,
            highest,
            replies,
            taken,
            counts,
            repeats,
            kept,
            marks,
            originators,
            lengths,
            payloads,
            sizes,
            packets,
            line,
            &part[from..],
            &mut text,
        );
        player = fed.player;
        sink = put_text(sink, &text, fed.written);
        from += fed.used;
    }
    Step { player, sink }
}

// Reads once, and plays what came.
fn play_some<'r, 'w, R: Read, W: Write>(
    player: Player,
    small: &mut [[u8; SMALL]; Group::MEMBERS],
    masks: &mut [[u16; MASKS]; Group::MEMBERS],
    numbers: &mut [[u32; NUMBERS]; Group::MEMBERS],
    queued: &mut [[u32; Group::WAITING]; Group::MEMBERS],
    held: &mut [[u32; Group::HELD]; Group::MEMBERS],
    queued_originators: &mut [[u8; Group::WAITING]; Group::MEMBERS],
    queued_lengths: &mut [[u8; Group::WAITING]; Group::MEMBERS],
    held_originators: &mut [[u8; Group::HELD]; Group::MEMBERS],
    held_lengths: &mut [[u8; Group::HELD]; Group::MEMBERS],
    queued_payloads: &mut [[u8; Group::WAITING_BYTES]; Group::MEMBERS],
    held_payloads: &mut [[u8; Group::HELD_BYTES]; Group::MEMBERS],
    past: &mut [[u32; Group::PLACES]; Group::MEMBERS],
    past_originators: &mut [[u8; Group::PLACES]; Group::MEMBERS],
    past_lengths: &mut [[u8; Group::PLACES]; Group::MEMBERS],
    past_payloads: &mut [[u8; Group::HISTORY_BYTES]; Group::MEMBERS],
    highest: &mut [[u32; Group::MEMBERS]; Group::MEMBERS],
    replies: &mut [[u32; Group::MEMBERS]; Group::MEMBERS],
    taken: &mut [[u32; Group::MEMBERS]; Group::MEMBERS],
    counts: &mut [[u32; Group::MEMBERS]; Group::MEMBERS],
    repeats: &mut [[u32; Group::MEMBERS]; Group::MEMBERS],
    kept: &mut [[u32; Group::PLACES]; Group::MEMBERS],
    marks: &mut [[u16; Group::PLACES]; Group::MEMBERS],
    originators: &mut [[u8; Group::PLACES]; Group::MEMBERS],
    lengths: &mut [[u8; Group::PLACES]; Group::MEMBERS],
    payloads: &mut [[u8; Group::HISTORY_BYTES]; Group::MEMBERS],
    sizes: &mut [usize; PACKETS],
    packets: &mut [[u8; Group::PACKET]; PACKETS],
    line: &mut [u8; LINE],
    source: Source<'r, R>,
    sink: Sink<'w, W>,
) -> Turn<'r, 'w, Player, R, W>
    ensures { Turns R.remaining W.contents (state_of player (whole_of player.world small.old masks.old numbers.old queued.old held.old queued_originators.old queued_lengths.old held_originators.old held_lengths.old queued_payloads.old held_payloads.old past.old past_originators.old past_lengths.old past_payloads.old highest.old replies.old taken.old counts.old repeats.old kept.old marks.old originators.old lengths.old payloads.old sizes.old packets.old) line.old) (state_of result.player (whole_of result.player.world small.new masks.new numbers.new queued.new held.new queued_originators.new queued_lengths.new held_originators.new held_lengths.new queued_payloads.new held_payloads.new past.new past_originators.new past_lengths.new past_payloads.new highest.new replies.new taken.new counts.new repeats.new kept.new marks.new originators.new lengths.new payloads.new sizes.new packets.new) line.new) source.entry sink.entry result }
{
    let mut chunk = [0u8; 4096];
    let read = source.read(&mut chunk);
    let size = read.size;
    let next = read.source;
    let step = play_part(
        player,
        small,
        masks,
        numbers,
        queued,
        held,
        queued_originators,
        queued_lengths,
        held_originators,
        held_lengths,
        queued_payloads,
        held_payloads,
        past,
        past_originators,
        past_lengths,
        past_payloads,
        highest,
        replies,
        taken,
        counts,
        repeats,
        kept,
        marks,
        originators,
        lengths,
        payloads,
        sizes,
        packets,
        line,
        &chunk[..size],
        sink,
    );
    let goes_on = size > 0 && !step.sink.failed();
    Turn {
        player: step.player,
        source: next,
        sink: step.sink,
        goes_on,
    }
}

// Plays to the end of the input. A proved loop has to end, and nothing says that an input does: so the loop has a number of turns
// that no run uses up.
// kept: `stream` has this loop over a step that lends other arrays; a closure that changes what it captures promises nothing of them.
fn play_all<'r, 'w, R: Read, W: Write>(
    player: Player,
    small: &mut [[u8; SMALL]; Group::MEMBERS],
    masks: &mut [[u16; MASKS]; Group::MEMBERS],
    numbers: &mut [[u32; NUMBERS]; Group::MEMBERS],
    queued: &mut [[u32; Group::WAITING]; Group::MEMBERS],
    held: &mut [[u32; Group::HELD]; Group::MEMBERS],
    queued_originators: &mut [[u8; Group::WAITING]; Group::MEMBERS],
    queued_lengths: &mut [[u8; Group::WAITING]; Group::MEMBERS],
    held_originators: &mut [[u8; Group::HELD]; Group::MEMBERS],
    held_lengths: &mut [[u8; Group::HELD]; Group::MEMBERS],
    queued_payloads: &mut [[u8; Group::WAITING_BYTES]; Group::MEMBERS],
    held_payloads: &mut [[u8; Group::HELD_BYTES]; Group::MEMBERS],
    past: &mut [[u32; Group::PLACES]; Group::MEMBERS],
    past_originators: &mut [[u8; Group::PLACES]; Group::MEMBERS],
    past_lengths: &mut [[u8; Group::PLACES]; Group::MEMBERS],
    past_payloads: &mut [[u8; Group::HISTORY_BYTES]; Group::MEMBERS],
    highest: &mut [[u32; Group::MEMBERS]; Group::MEMBERS],
    replies: &mut [[u32; Group::MEMBERS]; Group::MEMBERS],
    taken: &mut [[u32; Group::MEMBERS]; Group::MEMBERS],
    counts: &mut [[u32; Group::MEMBERS]; Group::MEMBERS],
    repeats: &mut [[u32; Group::MEMBERS]; Group::MEMBERS],
    kept: &mut [[u32; Group::PLACES]; Group::MEMBERS],
    marks: &mut [[u16; Group::PLACES]; Group::MEMBERS],
    originators: &mut [[u8; Group::PLACES]; Group::MEMBERS],
    lengths: &mut [[u8; Group::PLACES]; Group::MEMBERS],
    payloads: &mut [[u8; Group::HISTORY_BYTES]; Group::MEMBERS],
    sizes: &mut [usize; PACKETS],
    packets: &mut [[u8; Group::PACKET]; PACKETS],
    line: &mut [u8; LINE],
    source: Source<'r, R>,
    sink: Sink<'w, W>,
) -> Turn<'r, 'w, Player, R, W>
    ensures { Turns R.remaining W.contents (state_of player (whole_of player.world small.old masks.old numbers.old queued.old held.old queued_originators.old queued_lengths.old held_originators.old held_lengths.old queued_payloads.old held_payloads.old past.old past_originators.old past_lengths.old past_payloads.old highest.old replies.old taken.old counts.old repeats.old kept.old marks.old originators.old lengths.old payloads.old sizes.old packets.old) line.old) (state_of result.player (whole_of result.player.world small.new masks.new numbers.new queued.new held.new queued_originators.new queued_lengths.new held_originators.new held_lengths.new queued_payloads.new held_payloads.new past.new past_originators.new past_lengths.new past_payloads.new highest.new replies.new taken.new counts.new repeats.new kept.new marks.new originators.new lengths.new payloads.new sizes.new packets.new) line.new) source.entry sink.entry result }
{
    let mut turn = Turn {
        player,
        source,
        sink,
        goes_on: true,
    };
    'turns: for _ in 0..u64::MAX {
        if !turn.goes_on {
            break;
        }
        let Turn {
            player,
            source,
            sink,
            ..
        } = turn;
        turn = play_some(
            player,
            small,
            masks,
            numbers,
            queued,
            held,
            queued_originators,
            queued_lengths,
            held_originators,
            held_lengths,
            queued_payloads,
            held_payloads,
            past,
            past_originators,
            past_lengths,
            past_payloads,
            highest,
            replies,
            taken,
            counts,
            repeats,
            kept,
            marks,
            originators,
            lengths,
            payloads,
            sizes,
            packets,
            line,
            source,
            sink,
        );
    }
    turn
}

// The lines of the first n terminals.
fn put_terminals<'w, W: Write>(
    small: &[[u8; SMALL]; Group::MEMBERS],
    masks: &[[u16; MASKS]; Group::MEMBERS],
    numbers: &[[u32; NUMBERS]; Group::MEMBERS],
    n: usize,
    mut sink: Sink<'w, W>,
) -> Sink<'w, W>
    requires { n ≤ members_most }
    ensures { HandsTerminals W.contents small.now masks.now numbers.now n sink.entry result }
{
    for i in 0..n {
        let mut text = [0; OUTPUT];
        let size = last_member(small, masks, numbers, i, &mut text);
        let next = put_text(sink, &text, size);
        let mut text = [0; OUTPUT];
        let size = last_sequencer(small, masks, numbers, i, &mut text);
        sink = put_text(next, &text, size);
    }
    sink
}

// The line of an input without a first line.
fn write_unopened(out: &mut [u8; OUTPUT]) -> usize
    ensures { Laid bad_opening result out.old out.new }
{
    write_bad_opening(out)
}

// What is printed at the end.
fn put_last<'w, W: Write>(
    player: Player,
    small: &[[u8; SMALL]; Group::MEMBERS],
    masks: &[[u16; MASKS]; Group::MEMBERS],
    numbers: &[[u32; NUMBERS]; Group::MEMBERS],
    sink: Sink<'w, W>,
) -> Sink<'w, W>
    ensures { HandsLast W.contents player small.now masks.now numbers.now sink.entry result }
{
    let n = player.world.n;
    match phase_of(n, player.world.count, player.phase) {
        Phase::Opening => {
            let mut text = [0; OUTPUT];
            let size = write_unopened(&mut text);
            put_text(sink, &text, size)
        }
        Phase::Running | Phase::Ended => put_terminals(small, masks, numbers, n as usize, sink),
        Phase::Closed => sink,
    }
}

// The end of the input.
fn finish<'w, W: Write>(
    player: Player,
    small: &mut [[u8; SMALL]; Group::MEMBERS],
    masks: &mut [[u16; MASKS]; Group::MEMBERS],
    numbers: &mut [[u32; NUMBERS]; Group::MEMBERS],
    queued: &mut [[u32; Group::WAITING]; Group::MEMBERS],
    held: &mut [[u32; Group::HELD]; Group::MEMBERS],
    queued_originators: &mut [[u8; Group::WAITING]; Group::MEMBERS],
    queued_lengths: &mut [[u8; Group::WAITING]; Group::MEMBERS],
    held_originators: &mut [[u8; Group::HELD]; Group::MEMBERS],
    held_lengths: &mut [[u8; Group::HELD]; Group::MEMBERS],
    queued_payloads: &mut [[u8; Group::WAITING_BYTES]; Group::MEMBERS],
    held_payloads: &mut [[u8; Group::HELD_BYTES]; Group::MEMBERS],
    past: &mut [[u32; Group::PLACES]; Group::MEMBERS],
    past_originators: &mut [[u8; Group::PLACES]; Group::MEMBERS],
    past_lengths: &mut [[u8; Group::PLACES]; Group::MEMBERS],
    past_payloads: &mut [[u8; Group::HISTORY_BYTES]; Group::MEMBERS],
    highest: &mut [[u32; Group::MEMBERS]; Group::MEMBERS],
    replies: &mut [[u32; Group::MEMBERS]; Group::MEMBERS],
    taken: &mut [[u32; Group::MEMBERS]; Group::MEMBERS],
    counts: &mut [[u32; Group::MEMBERS]; Group::MEMBERS],
    repeats: &mut [[u32; Group::MEMBERS]; Group::MEMBERS],
    kept: &mut [[u32; Group::PLACES]; Group::MEMBERS],
    marks: &mut [[u16; Group::PLACES]; Group::MEMBERS],
    originators: &mut [[u8; Group::PLACES]; Group::MEMBERS],
    lengths: &mut [[u8; Group::PLACES]; Group::MEMBERS],
    payloads: &mut [[u8; Group::HISTORY_BYTES]; Group::MEMBERS],
    sizes: &mut [usize; PACKETS],
    packets: &mut [[u8; Group::PACKET]; PACKETS],
    line: &[u8; LINE],
    sink: Sink<'w, W>,
) -> Sink<'w, W>
    ensures { Takes W.contents sink.entry ((end_of (state_of player (whole_of player.world small.old masks.old numbers.old queued.old held.old queued_originators.old queued_lengths.old held_originators.old held_lengths.old queued_payloads.old held_payloads.old past.old past_originators.old past_lengths.old past_payloads.old highest.old replies.old taken.old counts.old repeats.old kept.old marks.old originators.old lengths.old payloads.old sizes.old packets.old) line.now)).text ++ last_of (end_of (state_of player (whole_of player.world small.old masks.old numbers.old queued.old held.old queued_originators.old queued_lengths.old held_originators.old held_lengths.old queued_payloads.old held_payloads.old past.old past_originators.old past_lengths.old past_payloads.old highest.old replies.old taken.old counts.old repeats.old kept.old marks.old originators.old lengths.old payloads.old sizes.old packets.old) line.now)).state.stage) result }
{
    let mut text = [0; OUTPUT];
    let fed = end(
        player,
        small,
        masks,
        numbers,
        queued,
        held,
        queued_originators,
        queued_lengths,
        held_originators,
        held_lengths,
        queued_payloads,
        held_payloads,
        past,
        past_originators,
        past_lengths,
        past_payloads,
        highest,
        replies,
        taken,
        counts,
        repeats,
        kept,
        marks,
        originators,
        lengths,
        payloads,
        sizes,
        packets,
        line,
        &mut text,
    );
    let left = fed.player;
    let next = put_text(sink, &text, fed.written);
    put_last(left, small, masks, numbers, next)
}

// Plays the whole input.
fn play_whole<'r, 'w, R: Read, W: Write>(
    player: Player,
    small: &mut [[u8; SMALL]; Group::MEMBERS],
    masks: &mut [[u16; MASKS]; Group::MEMBERS],
    numbers: &mut [[u32; NUMBERS]; Group::MEMBERS],
    queued: &mut [[u32; Group::WAITING]; Group::MEMBERS],
    held: &mut [[u32; Group::HELD]; Group::MEMBERS],
    queued_originators: &mut [[u8; Group::WAITING]; Group::MEMBERS],
    queued_lengths: &mut [[u8; Group::WAITING]; Group::MEMBERS],
    held_originators: &mut [[u8; Group::HELD]; Group::MEMBERS],
    held_lengths: &mut [[u8; Group::HELD]; Group::MEMBERS],
    queued_payloads: &mut [[u8; Group::WAITING_BYTES]; Group::MEMBERS],
    held_payloads: &mut [[u8; Group::HELD_BYTES]; Group::MEMBERS],
    past: &mut [[u32; Group::PLACES]; Group::MEMBERS],
    past_originators: &mut [[u8; Group::PLACES]; Group::MEMBERS],
    past_lengths: &mut [[u8; Group::PLACES]; Group::MEMBERS],
    past_payloads: &mut [[u8; Group::HISTORY_BYTES]; Group::MEMBERS],
    highest: &mut [[u32; Group::MEMBERS]; Group::MEMBERS],
    replies: &mut [[u32; Group::MEMBERS]; Group::MEMBERS],
    taken: &mut [[u32; Group::MEMBERS]; Group::MEMBERS],
    counts: &mut [[u32; Group::MEMBERS]; Group::MEMBERS],
    repeats: &mut [[u32; Group::MEMBERS]; Group::MEMBERS],
    kept: &mut [[u32; Group::PLACES]; Group::MEMBERS],
    marks: &mut [[u16; Group::PLACES]; Group::MEMBERS],
    originators: &mut [[u8; Group::PLACES]; Group::MEMBERS],
    lengths: &mut [[u8; Group::PLACES]; Group::MEMBERS],
    payloads: &mut [[u8; Group::HISTORY_BYTES]; Group::MEMBERS],
    sizes: &mut [usize; PACKETS],
    packets: &mut [[u8; Group::PACKET]; PACKETS],
    line: &mut [u8; LINE],
    source: Source<'r, R>,
    sink: Sink<'w, W>,
) -> Played<'r, 'w, R, W>
    ensures { Runs R.remaining W.contents player source.entry sink.entry result }
{
    let turn = play_all(
        player,
        small,
        masks,
        numbers,
        queued,
        held,
        queued_originators,
        queued_lengths,
        held_originators,
        held_lengths,
        queued_payloads,
        held_payloads,
        past,
        past_originators,
        past_lengths,
        past_payloads,
        highest,
        replies,
        taken,
        counts,
        repeats,
        kept,
        marks,
        originators,
        lengths,
        payloads,
        sizes,
        packets,
        line,
        source,
        sink,
    );
    let left = turn.player;
    let read = turn.source;
    let handed = turn.sink;
    let last = finish(
        left,
        small,
        masks,
        numbers,
        queued,
        held,
        queued_originators,
        queued_lengths,
        held_originators,
        held_lengths,
        queued_payloads,
        held_payloads,
        past,
        past_originators,
        past_lengths,
        past_payloads,
        highest,
        replies,
        taken,
        counts,
        repeats,
        kept,
        marks,
        originators,
        lengths,
        payloads,
        sizes,
        packets,
        line,
        handed,
    );
    Played {
        source: read,
        sink: last,
    }
}

// Plays the schedule that the source has, to the sink. The terminals' arrays and the line's are its own.
pub fn recover<'r, 'w, R: Read, W: Write>(
    source: Source<'r, R>,
    sink: Sink<'w, W>,
) -> Played<'r, 'w, R, W>
    ensures { Recovers R.remaining W.contents source.entry sink.entry result }
{
    let none = [0u8; SMALL];
    let mut small = [none; Group::MEMBERS];
    let none = [0u16; MASKS];
    let mut masks = [none; Group::MEMBERS];
    let none = [0u32; NUMBERS];
    let mut numbers = [none; Group::MEMBERS];
    let none = [0u32; Group::WAITING];
    let mut queued = [none; Group::MEMBERS];
    let none = [0u32; Group::HELD];
    let mut held = [none; Group::MEMBERS];
    let none = [0u8; Group::WAITING];
    let mut queued_originators = [none; Group::MEMBERS];
    let none = [0u8; Group::WAITING];
    let mut queued_lengths = [none; Group::MEMBERS];
    let none = [0u8; Group::HELD];
    let mut held_originators = [none; Group::MEMBERS];
    let none = [0u8; Group::HELD];
    let mut held_lengths = [none; Group::MEMBERS];
    let none = [0u8; Group::WAITING_BYTES];
    let mut queued_payloads = [none; Group::MEMBERS];
    let none = [0u8; Group::HELD_BYTES];
    let mut held_payloads = [none; Group::MEMBERS];
    let none = [0u32; Group::PLACES];
    let mut past = [none; Group::MEMBERS];
    let none = [0u8; Group::PLACES];
    let mut past_originators = [none; Group::MEMBERS];
    let none = [0u8; Group::PLACES];
    let mut past_lengths = [none; Group::MEMBERS];
    let none = [0u8; Group::HISTORY_BYTES];
    let mut past_payloads = [none; Group::MEMBERS];
    let none = [0u32; Group::MEMBERS];
    let mut highest = [none; Group::MEMBERS];
    let none = [0u32; Group::MEMBERS];
    let mut replies = [none; Group::MEMBERS];
    let none = [0u32; Group::MEMBERS];
    let mut taken = [none; Group::MEMBERS];
    let none = [0u32; Group::MEMBERS];
    let mut counts = [none; Group::MEMBERS];
    let none = [0u32; Group::MEMBERS];
    let mut repeats = [none; Group::MEMBERS];
    let none = [0u32; Group::PLACES];
    let mut kept = [none; Group::MEMBERS];
    let none = [0u16; Group::PLACES];
    let mut marks = [none; Group::MEMBERS];
    let none = [0u8; Group::PLACES];
    let mut originators = [none; Group::MEMBERS];
    let none = [0u8; Group::PLACES];
    let mut lengths = [none; Group::MEMBERS];
    let none = [0u8; Group::HISTORY_BYTES];
    let mut payloads = [none; Group::MEMBERS];
    let mut sizes = [0usize; PACKETS];
    let none = [0u8; Group::PACKET];
    let mut packets = [none; PACKETS];
    let mut line = [0u8; LINE];
    let start = Player::fresh();
    play_whole(
        start,
        &mut small,
        &mut masks,
        &mut numbers,
        &mut queued,
        &mut held,
        &mut queued_originators,
        &mut queued_lengths,
        &mut held_originators,
        &mut held_lengths,
        &mut queued_payloads,
        &mut held_payloads,
        &mut past,
        &mut past_originators,
        &mut past_lengths,
        &mut past_payloads,
        &mut highest,
        &mut replies,
        &mut taken,
        &mut counts,
        &mut repeats,
        &mut kept,
        &mut marks,
        &mut originators,
        &mut lengths,
        &mut payloads,
        &mut sizes,
        &mut packets,
        &mut line,
        source,
        sink,
    )
}
