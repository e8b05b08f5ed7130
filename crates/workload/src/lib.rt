// A repeatable load: from a seed, a schedule that `play` reads, a line at a time.
#![tactic(auto)]

ghost use Rattle.std.specs.Prelude.{◌≡◌, [], ◌∷◌, ◌≤◌, ◌<◌, length};
ghost use Rattle.generator.specs.Generator.{stepped};
ghost use Rattle.group.specs.Lent.{front};
ghost use Rattle.text.specs.LaidAt.{LaidAt};
ghost use Rattle.text.specs.Text.{text_of};
ghost use Rattle.text.specs.Written.{decimal_of, payload_text, line};
ghost use Rattle.workload.specs.Choice.{letters_most, bytes_most, drawn, chosen};
ghost use Rattle.workload.specs.Line.{line_room, event_fields};
ghost use Rattle.workload.specs.Calls.{step_of, refused, open_of, next_of};
ghost use Rattle.workload.specs.Wording.{wording_of};
ghost use Rattle.workload.specs.Steps.{event_in, chosen_in};

use generator::Generator;
use group::{Group, Refusal};
use simulator::PACKETS;
use text::{NUMBER_DIGITS, put, put_number, put_payload};

// The letters that there are to choose from: S R T A P C M Q.
pub const LETTERS: u32 = 8;

// The values of a byte.
pub const BYTES: u32 = 256;

// An event, as its line has it.
#[derive(Clone, Copy)]
enum Event {
    Submit(u32, u8),
    Repeat(u32),
    Take(u32),
    Status(u32),
    Poll,
    Copy(u32),
    HandMember(u32, u32),
    HandSequencer(u32),
}

// A load of n members. It has lines while n is 1 to 16.
#[derive(Clone, Copy)]
pub struct Load {
    pub generator: Generator,
    pub n: u8,
}

// The load after a call, its answer, and how many bytes it laid at the front of the lent output.
#[derive(Clone, Copy)]
pub struct Step {
    pub load: Load,
    pub answer: Result<(), Refusal>,
    pub written: usize,
}

// The limits of specs/ are these constants.
fn letters_most() -> u32
    ensures { result ≡ letters_most }
{
    LETTERS
}

fn bytes_most() -> u32
    ensures { result ≡ bytes_most }
{
    BYTES
}

fn line_room() -> usize
    ensures { result ≡ line_room }
{
    Load::LINE
}

// One choice: a step, and then the output.
fn draw(generator: &mut Generator, choices: u32) -> u32
    requires { 1 ≤ choices }
    ensures value { result ≡ drawn choices generator.old.state }
    ensures state { generator.new.state ≡ stepped generator.old.state }
    ensures below { result < choices }
{
    *generator = generator.step();
    generator.output() % choices
}

// The fields of a letter's event, in the order of its line.
fn choose(letter: u32, generator: &mut Generator, n: u32) -> Event
    requires { 1 ≤ n }
    ensures { chosen_in result generator.new ≡ chosen letter n generator.old.state }
{
    match letter {
        0 => {
            let member = draw(generator, n);
            Event::Submit(member, draw(generator, BYTES) as u8)
        }
        1 => Event::Repeat(draw(generator, n)),
        2 => Event::Take(draw(generator, n)),
        3 => Event::Status(draw(generator, n)),
        4 => Event::Poll,
        5 => Event::Copy(1 + draw(generator, Group::PLACES as u32)),
        6 => {
            let packet = draw(generator, PACKETS as u32);
            Event::HandMember(packet, draw(generator, n))
        }
        _ => Event::HandSequencer(draw(generator, PACKETS as u32)),
    }
}

// A letter and one number.
fn put_one(letter: u8, x: u32, out: &mut [u8]) -> usize
    requires { line_room ≤ length out.old }
    ensures { LaidAt 0 (line ((letter ∷ []) ∷ decimal_of x ∷ [])) out.old out.new result }
{
    let next = put(letter, out, 0);
    let next = put_number(x, out, next);
    put(b'\n', out, next)
}

// A letter and two numbers.
fn put_two(letter: u8, x: u32, y: u32, out: &mut [u8]) -> usize
    requires { line_room ≤ length out.old }
    ensures { LaidAt 0 (line ((letter ∷ []) ∷ decimal_of x ∷ decimal_of y ∷ [])) out.old out.new result }
{
    let next = put(letter, out, 0);
    let next = put_number(x, out, next);
    let next = put_number(y, out, next);
    put(b'\n', out, next)
}

// `S i hex`
fn put_submit(member: u32, byte: u8, out: &mut [u8]) -> usize
    requires { line_room ≤ length out.old }
    ensures { LaidAt 0 (line (text_of "S" ∷ decimal_of member ∷ payload_text (byte ∷ []) ∷ [])) out.old out.new result }
{
    let payload = [byte];
    let next = put(b'S', out, 0);
    let next = put_number(member, out, next);
    let next = put_payload(&payload, out, next);
    put(b'\n', out, next)
}

// `P`
fn put_poll(out: &mut [u8]) -> usize
    requires { line_room ≤ length out.old }
    ensures { LaidAt 0 (line (text_of "P" ∷ [])) out.old out.new result }
{
    let next = put(b'P', out, 0);
    put(b'\n', out, next)
}

// The line of an event.
fn put_event(event: Event, out: &mut [u8]) -> usize
    requires { line_room ≤ length out.old }
    ensures { LaidAt 0 (line (event_fields (event_in event))) out.old out.new result }
{
    match event {
        Event::Submit(member, byte) => put_submit(member, byte, out),
        Event::Repeat(member) => put_one(b'R', member, out),
        Event::Take(member) => put_one(b'T', member, out),
        Event::Status(member) => put_one(b'A', member, out),
        Event::Poll => put_poll(out),
        Event::Copy(number) => put_one(b'C', number, out),
        Event::HandMember(packet, member) => put_two(b'M', packet, member, out),
        Event::HandSequencer(packet) => put_one(b'Q', packet, out),
    }
}

impl Load {
    // The room that a line asks for: a letter, two numbers with a space before each, and the line feed.
    pub const LINE: usize = 1 + 2 * (1 + NUMBER_DIGITS) + 1;

    // No line: the load is as it was, and nothing was written.
    fn refused(self, refusal: Refusal) -> Step
        ensures { result ≡ step_of (refused self refusal) }
    {
        Step {
            load: self,
            answer: Err(refusal),
            written: 0,
        }
    }

    // The first line of a load, or question 18; then the load is all zero, and has no line.
    pub fn open(seed: u32, n: u32, group: u32, out: &mut [u8; Load::LINE]) -> Step
        ensures answer { result ≡ step_of (open_of seed n group) }
        ensures lent { out.new ≡ front (open_of seed n group).bytes out.old }
        ensures wording { wording_of result.answer ≡ wording_of (open_of seed n group).answer }
        ensures within { result.written ≤ line_room }
    {
        let none = Load {
            generator: Generator { state: 0 },
            n: 0,
        };
        if (Group::MEMBERS as u32) < n {
            return none.refused(Refusal::Opening);
        }
        match Group::fresh(n as u8, group, 0) {
            Ok(g) => {
                let written = put_two(b'N', g.n as u32, g.number, out);
                Step {
                    load: Load {
                        generator: Generator { state: seed },
                        n: g.n,
                    },
                    answer: Ok(()),
                    written,
                }
            }
            Err(refusal) => none.refused(refusal),
        }
    }

    // The line of the next event; 1 if n is not 1 to 16.
    pub fn next(mut self, out: &mut [u8; Load::LINE]) -> Step
        ensures answer { result ≡ step_of (next_of self) }
        ensures lent { out.new ≡ front (next_of self).bytes out.old }
        ensures wording { wording_of result.answer ≡ wording_of (next_of self).answer }
        ensures within { result.written ≤ line_room }
    {
        if self.n < 1 || Group::MEMBERS < self.n as usize {
            return self.refused(Refusal::UnsoundState);
        }
        let letter = draw(&mut self.generator, LETTERS);
        let event = choose(letter, &mut self.generator, self.n as u32);
        let written = put_event(event, out);
        Step {
            load: self,
            answer: Ok(()),
            written,
        }
    }
}
