// Reads a schedule with resets: what a line means as an event of terminals. The first line is that of a schedule without.
#![tactic(auto)]

ghost use Rattle.std.specs.Prelude.{◌≡◌, ◌*◌, ◌≤◌, ◌<◌, length};
ghost use Rattle.group.specs.Lent.{front};
ghost use Rattle.text.specs.Field.{letter_of, number_in, hex_in};
ghost use Rattle.reset_schedule.specs.Line.{with_number, submitted, with_numbers, with_two, form_of, event_of, command_of, payload_of};

use schedule::{LINE_MOST, PAYLOAD_ROOM, Parts, fields};
use text::{is_hex, lay_hex, letter, number};

// What a line means as an event. A submit's payload lies at the front of the bytes that were lent.
#[derive(Clone, Copy)]
pub enum Command {
    Submit { terminal: u32, length: usize },
    Repeat(u32),
    Take(u32),
    Status(u32),
    Poll(u32),
    Copy { terminal: u32, number: u32 },
    HandMember { packet: u32, terminal: u32 },
    HandSequencer { packet: u32, terminal: u32 },
    Invite { terminal: u32, number: u32 },
    Make { terminal: u32, demand: u32 },
}

// `R i`, `T i`, `A i`, `P i`
#[tactic(auto, using(group::proofs::Choice::choices, crate::proofs::Commands::command_if), unfolding(crate::specs::Line::with_number, crate::specs::Line::command_of))]
fn read_number(name: &[u8], a: &[u8]) -> Option<Command>
    ensures { result ≡ command_of (with_number (letter_of name.now) (number_in a.now)) }
{
    let letter = letter(name)?;
    let x = number(a)?;
    match letter {
        b'R' => Some(Command::Repeat(x)),
        b'T' => Some(Command::Take(x)),
        b'A' => Some(Command::Status(x)),
        b'P' => Some(Command::Poll(x)),
        _ => None,
    }
}

// `S i hex`: the payload is laid at the front of the bytes that were lent.
// kept: beside `schedule`'s, since their events and commands differ; what is left in common is the two calls of `text`.
#[tactic(auto, using(crate::proofs::Commands::submit_read, crate::proofs::Commands::submit_no_payload, crate::proofs::Commands::submit_no_number), unfolding(crate::specs::Line::command_of, crate::specs::Line::payload_of))]
fn read_submit(a: &[u8], b: &[u8], payload: &mut [u8]) -> Option<Command>
    requires { length b.now ≤ 2 * length payload.old }
    ensures command { result ≡ command_of (submitted (number_in a.now) (hex_in b.now)) }
    ensures lent { payload.new ≡ front (payload_of (submitted (number_in a.now) (hex_in b.now))) payload.old }
{
    let terminal = number(a)?;
    if !is_hex(b) {
        return None;
    }
    let length = lay_hex(b, payload);
    Some(Command::Submit { terminal, length })
}

// `M k i`, `Q k i`, `C i s`, `I i number`, `G i demand`
#[tactic(auto, using(group::proofs::Choice::choices, crate::proofs::Commands::command_if), unfolding(crate::specs::Line::with_numbers, crate::specs::Line::command_of))]
fn read_numbers(letter: u8, a: &[u8], b: &[u8]) -> Option<Command>
    ensures { result ≡ command_of (with_numbers (Some letter) (number_in a.now) (number_in b.now)) }
{
    let x = number(a)?;
    let y = number(b)?;
    match letter {
        b'M' => Some(Command::HandMember {
            packet: x,
            terminal: y,
        }),
        b'Q' => Some(Command::HandSequencer {
            packet: x,
            terminal: y,
        }),
        b'C' => Some(Command::Copy {
            terminal: x,
            number: y,
        }),
        b'I' => Some(Command::Invite {
            terminal: x,
            number: y,
        }),
        b'G' => Some(Command::Make {
            terminal: x,
            demand: y,
        }),
        _ => None,
    }
}

// A name and two fields: which form they have.
#[tactic(auto, using(crate::proofs::Commands::two_none, crate::proofs::Commands::two_submit, crate::proofs::Commands::two_numbers, crate::proofs::Forms::numbers_payload), unfolding(crate::specs::Line::command_of, crate::specs::Line::payload_of))]
fn read_two(name: &[u8], a: &[u8], b: &[u8], payload: &mut [u8]) -> Option<Command>
    requires { length b.now ≤ 2 * length payload.old }
    ensures command { result ≡ command_of (with_two (letter_of name.now) a.now b.now) }
    ensures lent { payload.new ≡ front (payload_of (with_two (letter_of name.now) a.now b.now)) payload.old }
{
    match letter(name)? {
        b'S' => read_submit(a, b, payload),
        letter => read_numbers(letter, a, b),
    }
}

// One event a line.
#[tactic(auto, using(crate::proofs::Forms::event_long), unfolding(crate::specs::Line::command_of, crate::specs::Line::payload_of))]
pub fn read_event(line: &[u8], payload: &mut [u8; PAYLOAD_ROOM]) -> Option<Command>
    ensures command { result ≡ command_of (event_of line.now) }
    ensures lent { payload.new ≡ front (payload_of (event_of line.now)) payload.old }
{
    if LINE_MOST < line.len() {
        return None;
    }
    match fields(line) {
        Parts::Two(a) => read_number(&line[..a], &line[a + 1..]),
        Parts::Three(a, b) => read_two(&line[..a], &line[a + 1..b], &line[b + 1..], payload),
        Parts::One | Parts::More(..) => None,
    }
}
