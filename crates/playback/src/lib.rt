// Plays a whole schedule from one slice to another.
#![tactic(auto)]

ghost use Rattle.std.specs.Prelude.{◌≡◌, ◌++◌, ◌≤◌, length, take};
ghost use Rattle.group.specs.Lent.{front};
ghost use Rattle.player.specs.Feed.{end_of};
ghost use Rattle.player.specs.Play.{last_of, play_of};
ghost use Rattle.player.specs.Player.{state_of};
ghost use Rattle.simulator.specs.Whole.{whole_of};
ghost use Rattle.playback.specs.Shown.{shown_of, Adds};

use group::Group;
use message::copy;
use player::{LINE, OUTPUT, Player};
use simulator::{NUMBERS, PACKETS};

// Lays as much of a text as has room, behind what is shown, and gives the index behind it.
fn put(text: [u8; OUTPUT], size: usize, out: &mut [u8], at: usize) -> usize
    requires { at ≤ length out.old }
    ensures adds { Adds (take size text) out.old at out.new result }
    ensures within { result ≤ length out.new }
{
    let most = size.min(OUTPUT);
    let n = most.min(out.len() - at);
    copy(&text[..n], &mut out[at..]);
    at + n
}

// The end of the input, and the last line.
fn finish(
    player: Player,
    taken: &mut [u32; Group::MEMBERS],
    counts: &mut [u32; Group::MEMBERS],
    repeats: &mut [u32; Group::MEMBERS],
    kept: &mut [u32; Group::PLACES],
    marks: &mut [u16; Group::PLACES],
    originators: &mut [u8; Group::PLACES],
    lengths: &mut [u8; Group::PLACES],
    payloads: &mut [u8; Group::HISTORY_BYTES],
    numbers: &mut [[u32; NUMBERS]; Group::MEMBERS],
    queued: &mut [[u32; Group::WAITING]; Group::MEMBERS],
    held: &mut [[u32; Group::HELD]; Group::MEMBERS],
    queued_originators: &mut [[u8; Group::WAITING]; Group::MEMBERS],
    queued_lengths: &mut [[u8; Group::WAITING]; Group::MEMBERS],
    held_originators: &mut [[u8; Group::HELD]; Group::MEMBERS],
    held_lengths: &mut [[u8; Group::HELD]; Group::MEMBERS],
    queued_payloads: &mut [[u8; Group::WAITING_BYTES]; Group::MEMBERS],
    held_payloads: &mut [[u8; Group::HELD_BYTES]; Group::MEMBERS],
    sizes: &mut [usize; PACKETS],
    packets: &mut [[u8; Group::PACKET]; PACKETS],
    line: &[u8; LINE],
    out: &mut [u8],
    at: usize,
) -> usize
    requires { at ≤ length out.old }
    ensures { Adds ((end_of (state_of player (whole_of player.head taken.old counts.old repeats.old kept.old marks.old originators.old lengths.old payloads.old numbers.old queued.old held.old queued_originators.old queued_lengths.old held_originators.old held_lengths.old queued_payloads.old held_payloads.old sizes.old packets.old) line.now)).text ++ last_of (end_of (state_of player (whole_of player.head taken.old counts.old repeats.old kept.old marks.old originators.old lengths.old payloads.old numbers.old queued.old held.old queued_originators.old queued_lengths.old held_originators.old held_lengths.old queued_payloads.old held_payloads.old sizes.old packets.old) line.now)).state.stage) out.old at out.new result }
{
    let mut text = [0u8; OUTPUT];
    let fed = player::end(
        player,
        taken,
        counts,
        repeats,
        kept,
        marks,
        originators,
        lengths,
        payloads,
        numbers,
        queued,
        held,
        queued_originators,
        queued_lengths,
        held_originators,
        held_lengths,
        queued_payloads,
        held_payloads,
        sizes,
        packets,
        line,
        &mut text,
    );
    let next = put(text, fed.written, out, at);
    let left = fed.player;
    let size = player::last(left, numbers, &mut text);
    put(text, size, out, next)
}

// Plays the input, and gives how many bytes were laid at the front of the output: all that is printed, or as much as has room.
pub fn play(input: &[u8], out: &mut [u8]) -> usize
    ensures size { result ≡ length (shown_of (play_of input.now) (length out.old)) }
    ensures lent { out.new ≡ front (shown_of (play_of input.now) (length out.old)) out.old }
{
    let mut taken = [0u32; Group::MEMBERS];
    let mut counts = [0u32; Group::MEMBERS];
    let mut repeats = [0u32; Group::MEMBERS];
    let mut kept = [0u32; Group::PLACES];
    let mut marks = [0u16; Group::PLACES];
    let mut originators = [0u8; Group::PLACES];
    let mut lengths = [0u8; Group::PLACES];
    let mut payloads = [0u8; Group::HISTORY_BYTES];
    let none = [0u32; NUMBERS];
    let mut numbers = [none; Group::MEMBERS];
    let none = [0u32; Group::WAITING];
    let mut queued = [none; Group::MEMBERS];
    let none = [0u32; Group::HELD];
    let mut held = [none; Group::MEMBERS];
    let none = [0u8; Group::WAITING];
    let mut queued_originators = [none; Group::MEMBERS];
    let none = [0u8; Group::WAITING];
    let mut queued_lengths = [none; Group::MEMBERS];
    let none = [0u8; Group::HELD];
    let mut held_originators = [none; Group::MEMBERS];
    let none = [0u8; Group::HELD];
    let mut held_lengths = [none; Group::MEMBERS];
    let none = [0u8; Group::WAITING_BYTES];
    let mut queued_payloads = [none; Group::MEMBERS];
    let none = [0u8; Group::HELD_BYTES];
    let mut held_payloads = [none; Group::MEMBERS];
    let mut sizes = [0usize; PACKETS];
    let none = [0u8; Group::PACKET];
    let mut packets = [none; PACKETS];
    let mut line = [0u8; LINE];
    let mut player = Player::fresh();
    let mut from: usize = 0;
    let mut at: usize = 0;
    // kept: a while, since a feed says how many bytes it used.
    while from < input.len() {
        let mut text = [0u8; OUTPUT];
        let fed = player::feed(
            player,
            &mut taken,
            &mut counts,
            &mut repeats,
            &mut kept,
            &mut marks,
            &mut originators,
            &mut lengths,
            &mut payloads,
            &mut numbers,
            &mut queued,
            &mut held,
            &mut queued_originators,
            &mut queued_lengths,
            &mut held_originators,
            &mut held_lengths,
            &mut queued_payloads,
            &mut held_payloads,
            &mut sizes,
            &mut packets,
            &mut line,
            &input[from..],
            &mut text,
        );
        at = put(text, fed.written, out, at);
        player = fed.player;
        from += fed.used;
    }
    finish(
        player,
        &mut taken,
        &mut counts,
        &mut repeats,
        &mut kept,
        &mut marks,
        &mut originators,
        &mut lengths,
        &mut payloads,
        &mut numbers,
        &mut queued,
        &mut held,
        &mut queued_originators,
        &mut queued_lengths,
        &mut held_originators,
        &mut held_lengths,
        &mut queued_payloads,
        &mut held_payloads,
        &mut sizes,
        &mut packets,
        &line,
        out,
        at,
    )
}
