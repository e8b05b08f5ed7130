// Reads a schedule: what a line means as an event, and the first line as the opening of a group.
#![tactic(auto)]

ghost use Rattle.std.specs.Prelude.{◌≡◌, [], ◌∷◌, ◌+◌, ◌-◌, ◌*◌, ◌≤◌, ◌<◌, length, take, drop};
ghost use Rattle.group.specs.Lent.{front};
ghost use Rattle.text.specs.Field.{fields_of, letter_of, number_in, hex_in};
ghost use Rattle.schedule.specs.Parts.{parts_at, Within};
ghost use Rattle.schedule.specs.Line.{line_most, payload_room, alone, with_number, submitted, handed, with_two, form_of, event_of, command_of, payload_of, opened, opening_with, opening_form, opening_of};

use text::{first, is_hex, lay_hex, letter, number};

// A line of more characters is of another form.
pub const LINE_MOST: usize = 1000;

// The bytes that a line has room for, two digits a byte.
pub const PAYLOAD_ROOM: usize = LINE_MOST / 2;

// What a line means as an event. A submit's payload lies at the front of the bytes that were lent.
#[derive(Clone, Copy)]
pub enum Command {
    Submit { member: u32, length: usize },
    Repeat(u32),
    Take(u32),
    Status(u32),
    Poll,
    Copy(u32),
    HandMember { packet: u32, member: u32 },
    HandSequencer(u32),
}

// What the first line means.
#[derive(Clone, Copy)]
pub struct Opening {
    pub n: u32,
    pub number: u32,
    pub resilience: u32,
}

// Where the spaces stand that part the fields of a line: those before the second, the third and the fourth field.
#[derive(Clone, Copy)]
pub enum Parts {
    One,
    Two(usize),
    Three(usize, usize),
    More(usize, usize, usize),
}

// The limits of specs/ are these constants.
fn line_most() -> usize
    ensures { result ≡ line_most }
{
    LINE_MOST
}

fn payload_room() -> usize
    ensures { result ≡ payload_room }
{
    PAYLOAD_ROOM
}

// The fields of a line, by the spaces that part them.
pub fn fields(line: &[u8]) -> Parts
    ensures parts { fields_of line.now ≡ parts_at result line.now }
    ensures within { Within result line.now }
{
    let Some(a) = first(line, 0, b' ') else {
        return Parts::One;
    };
    let Some(b) = first(line, a + 1, b' ') else {
        return Parts::Two(a);
    };
    let Some(c) = first(line, b + 1, b' ') else {
        return Parts::Three(a, b);
    };
    Parts::More(a, b, c)
}

// `P`
#[tactic(auto, using(group::proofs::Choice::choices, crate::proofs::Commands::command_if), unfolding(crate::specs::Line::alone, crate::specs::Line::command_of, text::specs::Field::is_letter))]
fn read_alone(name: &[u8]) -> Option<Command>
    ensures { result ≡ command_of (alone (letter_of name.now)) }
{
    match letter(name)? {
        b'P' => Some(Command::Poll),
        _ => None,
    }
}

// `R i`, `T i`, `A i`, `C s`, `Q k`
#[tactic(auto, using(group::proofs::Choice::choices, crate::proofs::Commands::command_if), unfolding(crate::specs::Line::with_number, crate::specs::Line::command_of))]
fn read_number(name: &[u8], a: &[u8]) -> Option<Command>
    ensures { result ≡ command_of (with_number (letter_of name.now) (number_in a.now)) }
{
    let letter = letter(name)?;
    let x = number(a)?;
    match letter {
        b'R' => Some(Command::Repeat(x)),
        b'T' => Some(Command::Take(x)),
        b'A' => Some(Command::Status(x)),
        b'C' => Some(Command::Copy(x)),
        b'Q' => Some(Command::HandSequencer(x)),
        _ => None,
    }
}

// `S i hex`: the payload is laid at the front of the bytes that were lent.
#[tactic(auto, using(crate::proofs::Commands::submit_read, crate::proofs::Commands::submit_no_payload, crate::proofs::Commands::submit_no_number), unfolding(crate::specs::Line::command_of, crate::specs::Line::payload_of))]
fn read_submit(a: &[u8], b: &[u8], payload: &mut [u8]) -> Option<Command>
    requires { length b.now ≤ 2 * length payload.old }
    ensures command { result ≡ command_of (submitted (number_in a.now) (hex_in b.now)) }
    ensures lent { payload.new ≡ front (payload_of (submitted (number_in a.now) (hex_in b.now))) payload.old }
{
    let member = number(a)?;
    if !is_hex(b) {
        return None;
    }
    let length = lay_hex(b, payload);
    Some(Command::Submit { member, length })
}

// `M k i`
#[tactic(auto, using(group::proofs::Choice::choices, crate::proofs::Commands::command_if), unfolding(crate::specs::Line::handed, crate::specs::Line::command_of))]
fn read_hand(a: &[u8], b: &[u8]) -> Option<Command>
    ensures { result ≡ command_of (handed (number_in a.now) (number_in b.now)) }
{
    Some(Command::HandMember {
        packet: number(a)?,
        member: number(b)?,
    })
}

// A name and two fields: which form they have.
#[tactic(auto, using(crate::proofs::Commands::two_submit, crate::proofs::Commands::two_hand, crate::proofs::Commands::two_none, crate::proofs::Commands::two_other, crate::proofs::Commands::hand_payload), unfolding(crate::specs::Line::command_of, crate::specs::Line::payload_of))]
fn read_two(name: &[u8], a: &[u8], b: &[u8], payload: &mut [u8]) -> Option<Command>
    requires { length b.now ≤ 2 * length payload.old }
    ensures command { result ≡ command_of (with_two (letter_of name.now) a.now b.now) }
    ensures lent { payload.new ≡ front (payload_of (with_two (letter_of name.now) a.now b.now)) payload.old }
{
    match letter(name)? {
        b'S' => read_submit(a, b, payload),
        b'M' => read_hand(a, b),
        _ => None,
    }
}

// One event a line.
#[tactic(auto, using(crate::proofs::Forms::event_long), unfolding(crate::specs::Line::command_of, crate::specs::Line::payload_of))]
pub fn read_event(line: &[u8], payload: &mut [u8; PAYLOAD_ROOM]) -> Option<Command>
    ensures command { result ≡ command_of (event_of line.now) }
    ensures lent { payload.new ≡ front (payload_of (event_of line.now)) payload.old }
{
    if LINE_MOST < line.len() {
        return None;
    }
    match fields(line) {
        Parts::One => read_alone(line),
        Parts::Two(a) => read_number(&line[..a], &line[a + 1..]),
        Parts::Three(a, b) => read_two(&line[..a], &line[a + 1..b], &line[b + 1..], payload),
        Parts::More(..) => None,
    }
}

// `N n group`, with r.
#[tactic(auto, using(group::proofs::Choice::choices, text::proofs::Split::letter_is), unfolding(crate::specs::Line::opening_with, crate::specs::Line::opened))]
fn read_group(name: &[u8], a: &[u8], b: &[u8], resilience: Option<u32>) -> Option<Opening>
    ensures { result ≡ opening_with name.now a.now b.now resilience }
{
    if letter(name) != Some(b'N') {
        return None;
    }
    Some(Opening {
        n: number(a)?,
        number: number(b)?,
        resilience: resilience?,
    })
}

// The first line. Where r does not end it, r is 0.
#[tactic(auto, using(crate::proofs::Forms::opening_long))]
pub fn read_opening(line: &[u8]) -> Option<Opening>
    ensures { result ≡ opening_of line.now }
{
    if LINE_MOST < line.len() {
        return None;
    }
    match fields(line) {
        Parts::One | Parts::Two(_) => None,
        Parts::Three(a, b) => read_group(&line[..a], &line[a + 1..b], &line[b + 1..], Some(0)),
        Parts::More(a, b, c) => match first(line, c + 1, b' ') {
            None => {
                let resilience = number(&line[c + 1..]);
                read_group(&line[..a], &line[a + 1..b], &line[b + 1..c], resilience)
            }
            Some(_) => None,
        },
    }
}
