// What the program that plays a schedule prints.
#![tactic(auto)]

ghost use Rattle.std.specs.Prelude.{◌≡◌, [], ◌∷◌, ◌++◌, map, ◌+◌, ◌*◌, ◌≤◌, ◌<◌, length};
ghost use Rattle.group.specs.Choice.{◌≤?◌};
ghost use Rattle.group.specs.Lent.{front};
ghost use Rattle.group.specs.Wording.{refused_wording};
ghost use Rattle.member.specs.Wording as memberWording;
ghost use Rattle.model.specs.World.{answer_of};
ghost use Rattle.sequencer.specs.Wording as sequencerWording;
ghost use Rattle.text.specs.Text.{text_of};
ghost use Rattle.text.specs.Written.{decimal_of, payload_text, spaced, line, number_digits, count_digits};
ghost use Rattle.text.specs.LaidAt.{LaidAt};
ghost use Rattle.report.specs.Print.{more_text, index_text, wording_fields, answer_fields, line_of, bad_line, no_space, bad_opening, refused_opening, last_line, answer_room, line_room, event_room, last_room, fitting};

use group::{MemberNumber, Refusal, SequenceNumber};
use model::Reply;
use text::{
    COUNT_DIGITS, NUMBER_DIGITS, put, put_decimal, put_index, put_number, put_payload, put_text,
    put_word,
};

// The room of the longest answer, which is a take's, beside the digits of its payload: `took`, three numbers, `-`, `more`, and
// a space before each.
pub const ANSWER_ROOM: usize = 4 + 3 * NUMBER_DIGITS + 1 + 4 + 6;

// The room that a line asks for: an event's number, an answer and the line feed.
pub const LINE_ROOM: usize = COUNT_DIGITS + ANSWER_ROOM + 1;

// A number with the space before it.
const NUMBER_ROOM: usize = 1 + NUMBER_DIGITS;

// The limits of specs/ are these constants.
fn answer_room() -> usize
    ensures { result ≡ answer_room }
{
    ANSWER_ROOM
}

fn line_room() -> usize
    ensures { result ≡ line_room }
{
    LINE_ROOM
}

// An answer and the index of its packet.
fn put_indexed(word: &[u8], index: usize, out: &mut [u8], at: usize) -> usize
    requires { at + 2 + length word.now + count_digits ≤ length out.old }
    ensures laid { LaidAt at (spaced (word.now ∷ decimal_of index ∷ [])) out.old out.new result }
    ensures short { result ≤ at + 2 + length word.now + count_digits }
{
    let next = put_word(word, out, at);
    put_index(index, out, next)
}

// An answer, and the index of its packet if one of `size` bytes was written.
fn put_any(word: &[u8], size: usize, index: usize, out: &mut [u8], at: usize) -> usize
    requires { at + 2 + length word.now + count_digits ≤ length out.old }
    ensures laid { LaidAt at (spaced (word.now ∷ index_text size index [])) out.old out.new result }
    ensures short { result ≤ at + 2 + length word.now + count_digits }
{
    if size == 0 {
        put_word(word, out, at)
    } else {
        put_indexed(word, index, out, at)
    }
}

// An answer, its number and the index of its packet.
fn put_numbered(word: &[u8], number: u32, index: usize, out: &mut [u8], at: usize) -> usize
    requires { at + 3 + length word.now + number_digits + count_digits ≤ length out.old }
    ensures laid { LaidAt at (spaced (word.now ∷ decimal_of number ∷ decimal_of index ∷ [])) out.old out.new result }
    ensures short { result ≤ at + 3 + length word.now + number_digits + count_digits }
{
    let next = put_word(word, out, at);
    let next = put_number(number, out, next);
    put_index(index, out, next)
}

// What is wanted, from one number to another.
fn put_wanted(first: u32, last: u32, out: &mut [u8], at: usize) -> usize
    requires { at + length (text_of "wanted") + 3 + 2 * number_digits ≤ length out.old }
    ensures laid { LaidAt at (spaced (text_of "wanted" ∷ decimal_of first ∷ decimal_of last ∷ [])) out.old out.new result }
    ensures short { result ≤ at + length (text_of "wanted") + 3 + 2 * number_digits }
{
    let next = put_word(b"wanted", out, at);
    let next = put_number(first, out, next);
    put_number(last, out, next)
}

// A refusal and its number.
fn put_refused(refusal: Refusal, out: &mut [u8], at: usize) -> usize
    requires { at + length (text_of "refused") + 2 + number_digits ≤ length out.old }
    ensures laid { LaidAt at (spaced (wording_fields (refused_wording refusal) [] 0)) out.old out.new result }
    ensures short { result ≤ at + length (text_of "refused") + 2 + number_digits }
{
    let next = put_word(b"refused", out, at);
    let number = refusal.number();
    put_number(number as u32, out, next)
}

// Whether the following number is held.
fn put_more(more: bool, out: &mut [u8], at: usize) -> usize
    requires { at + 1 + length (text_of "more") ≤ length out.old }
    ensures laid { LaidAt at (spaced (more_text more ∷ [])) out.old out.new result }
    ensures short { result ≡ at + 1 + length (text_of "more") }
{
    if more {
        put_word(b"more", out, at)
    } else {
        put_word(b"last", out, at)
    }
}

// The number, originator and count of a message.
fn put_message(number: u32, originator: u32, count: u32, out: &mut [u8], at: usize) -> usize
    requires { at + 3 * (1 + number_digits) ≤ length out.old }
    ensures laid { LaidAt at (spaced (decimal_of number ∷ decimal_of originator ∷ decimal_of count ∷ [])) out.old out.new result }
    ensures short { result ≤ at + 3 * (1 + number_digits) }
{
    let next = put_number(number, out, at);
    let next = put_number(originator, out, next);
    put_number(count, out, next)
}

// A take with a message.
fn put_took(
    number: SequenceNumber,
    originator: MemberNumber,
    count: u32,
    more: bool,
    payload: &[u8],
    out: &mut [u8],
    at: usize,
) -> usize
    requires { at + answer_room + 2 * length payload.now ≤ length out.old }
    ensures laid { LaidAt at (spaced (text_of "took" ∷ decimal_of number.0 ∷ decimal_of originator.0 ∷ decimal_of count ∷ payload_text payload.now ∷ more_text more ∷ [])) out.old out.new result }
    ensures short { result ≤ at + answer_room + 2 * length payload.now }
{
    let next = put_word(b"took", out, at);
    let next = put_message(number.0, originator.0 as u32, count, out, next);
    let next = put_payload(payload, out, next);
    put_more(more, out, next)
}

// The sequencer's answer.
#[tactic(auto, unfolding(sequencer::specs::Wording::wording_of, crate::specs::Print::wording_fields, crate::specs::Print::values_text))]
fn put_sequencer(answer: sequencer::Answer, index: usize, out: &mut [u8], at: usize) -> usize
    requires { at + answer_room ≤ length out.old }
    ensures laid { LaidAt at (spaced (wording_fields (sequencerWording.wording_of answer) [] index)) out.old out.new result }
    ensures short { result ≤ at + answer_room }
{
    match answer {
        sequencer::Answer::Refused(refusal) => put_refused(refusal, out, at),
        sequencer::Answer::Old => put_word(b"old", out, at),
        sequencer::Answer::Again(number) => put_numbered(b"again", number.0, index, out, at),
        sequencer::Answer::Full => put_indexed(b"full", index, out, at),
        sequencer::Answer::Numbered(number) => put_numbered(b"numbered", number.0, index, out, at),
        sequencer::Answer::Noted => put_word(b"noted", out, at),
        sequencer::Answer::Wanted(first, last) => put_wanted(first.0, last.0, out, at),
        sequencer::Answer::Sent => put_indexed(b"sent", index, out, at),
        sequencer::Answer::Marked => put_word(b"marked", out, at),
        sequencer::Answer::Accepted => put_indexed(b"accepted", index, out, at),
    }
}

// The member's answer.
#[tactic(auto, unfolding(member::specs::Wording::wording_of, crate::specs::Print::wording_fields, crate::specs::Print::values_text))]
fn put_member(
    answer: member::Answer,
    payload: &[u8],
    index: usize,
    out: &mut [u8],
    at: usize,
) -> usize
    requires { at + answer_room + 2 * length payload.now ≤ length out.old }
    ensures laid { LaidAt at (spaced (wording_fields (memberWording.wording_of answer) payload.now index)) out.old out.new result }
    ensures short { result ≤ at + answer_room + 2 * length payload.now }
{
    match answer {
        member::Answer::Refused(refusal) => put_refused(refusal, out, at),
        member::Answer::Sent => put_indexed(b"sent", index, out, at),
        member::Answer::Old => put_any(b"old", payload.len(), index, out, at),
        member::Answer::Kept => put_any(b"kept", payload.len(), index, out, at),
        member::Answer::KeptGap => put_indexed(b"keptgap", index, out, at),
        member::Answer::Beyond => put_word(b"beyond", out, at),
        member::Answer::BeyondGap => put_indexed(b"beyondgap", index, out, at),
        member::Answer::Gap => put_indexed(b"gap", index, out, at),
        member::Answer::Status => put_indexed(b"status", index, out, at),
        member::Answer::None => put_word(b"none", out, at),
        member::Answer::Noted => put_any(b"noted", payload.len(), index, out, at),
        member::Answer::Took {
            number,
            originator,
            count,
            more,
        } => put_took(number, originator, count, more, payload, out, at),
        member::Answer::Queued(count) => put_indexed(b"queued", count as usize, out, at),
    }
}

// What an event is answered.
#[tactic(auto, using(crate::proofs::Wordings::same_wording), unfolding(model::specs::World::answer_of, crate::specs::Print::answer_fields))]
fn put_reply(reply: Reply, payload: &[u8], index: usize, out: &mut [u8], at: usize) -> usize
    requires { at + answer_room + 2 * length payload.now ≤ length out.old }
    ensures laid { LaidAt at (spaced (answer_fields (answer_of reply payload.now) index)) out.old out.new result }
    ensures short { result ≤ at + answer_room + 2 * length payload.now }
{
    match reply {
        Reply::Absent => put_word(b"absent", out, at),
        Reply::Sequencer(answer) => put_sequencer(answer, index, out, at),
        Reply::Member(answer) => put_member(answer, payload, index, out, at),
    }
}

// Whether an output has the room that a line asks for with so many things more, each of `EACH` characters: the bytes of an event's
// payload, or the numbers of the last line.
#[tactic(auto, using(crate::proofs::Pieces::room_test, crate::proofs::Pieces::no_room))]
fn fits<const EACH: usize>(count: usize, room: usize) -> bool
    requires { 0 < EACH }
    ensures { result ≡ (line_room + EACH * count ≤? room) }
{
    LINE_ROOM <= room && count <= (room - LINE_ROOM) / EACH
}

// The line that an event prints: its number, what it is answered, and the index of a packet that it wrote. `payload` is what
// the call wrote: what a take handed out, or a packet. Gives the line's length; 0 where the output has not the room that the line
// asks for.
// kept: the length of what was laid, of no line 0: every caller lends the room, and would take an `Option` apart for the same number.
pub fn write_event(number: u64, reply: Reply, index: usize, payload: &[u8], out: &mut [u8]) -> usize
    ensures size { result ≡ length (fitting (event_room payload.now) (length out.old) (line_of number (answer_of reply payload.now) index)) }
    ensures lent { out.new ≡ front (fitting (event_room payload.now) (length out.old) (line_of number (answer_of reply payload.now) index)) out.old }
{
    if fits::<2>(payload.len(), out.len()) {
        let next = put_decimal(number, out, 0);
        let next = put_reply(reply, payload, index, out, next);
        put(b'\n', out, next)
    } else {
        0
    }
}

// An event's number and a text of at most eight characters.
fn write_note(number: u64, text: &[u8], out: &mut [u8]) -> usize
    requires { length text.now ≤ 8 }
    ensures size { result ≡ length (fitting line_room (length out.old) (line (decimal_of number ∷ text.now ∷ []))) }
    ensures lent { out.new ≡ front (fitting line_room (length out.old) (line (decimal_of number ∷ text.now ∷ []))) out.old }
{
    if out.len() < LINE_ROOM {
        return 0;
    }
    let next = put_decimal(number, out, 0);
    let next = put_word(text, out, next);
    put(b'\n', out, next)
}

// A line of another form.
pub fn write_bad_line(number: u64, out: &mut [u8]) -> usize
    ensures size { result ≡ length (fitting line_room (length out.old) (bad_line number)) }
    ensures lent { out.new ≡ front (fitting line_room (length out.old) (bad_line number)) out.old }
{
    write_note(number, b"bad line", out)
}

// An event that comes when as many packets are written as there is room for.
pub fn write_no_space(number: u64, out: &mut [u8]) -> usize
    ensures size { result ≡ length (fitting line_room (length out.old) (no_space number)) }
    ensures lent { out.new ≡ front (fitting line_room (length out.old) (no_space number)) out.old }
{
    write_note(number, b"no space", out)
}

// A first line that is missing or of another form.
pub fn write_bad_opening(out: &mut [u8]) -> usize
    ensures size { result ≡ length (fitting line_room (length out.old) bad_opening) }
    ensures lent { out.new ≡ front (fitting line_room (length out.old) bad_opening) out.old }
{
    if out.len() < LINE_ROOM {
        return 0;
    }
    let next = put_text(b"bad line", out, 0);
    put(b'\n', out, next)
}

// A first line whose group is refused.
pub fn write_refused_opening(refusal: Refusal, out: &mut [u8]) -> usize
    ensures size { result ≡ length (fitting line_room (length out.old) (refused_opening refusal)) }
    ensures lent { out.new ≡ front (fitting line_room (length out.old) (refused_opening refusal)) out.old }
{
    if out.len() < LINE_ROOM {
        return 0;
    }
    let next = put_text(b"refused", out, 0);
    let number = refusal.number();
    let next = put_number(number as u32, out, next);
    put(b'\n', out, next)
}

// Top and floor, and the word before the numbers that the members took.
fn put_tops(top: u32, floor: u32, out: &mut [u8]) -> usize
    requires { line_room ≤ length out.old }
    ensures laid { LaidAt 0 (text_of "top" ++ spaced (decimal_of top ∷ text_of "floor" ∷ decimal_of floor ∷ text_of "taken" ∷ [])) out.old out.new result }
    ensures short { result < line_room }
{
    let next = put_text(b"top", out, 0);
    let next = put_number(top, out, next);
    let next = put_word(b"floor", out, next);
    let next = put_number(floor, out, next);
    put_word(b"taken", out, next)
}

// Numbers, each behind one space.
pub fn put_each(numbers: &[u32], out: &mut [u8], at: usize) -> usize
    requires { at + (1 + number_digits) * length numbers.now ≤ length out.old }
    ensures laid { LaidAt at (spaced (map decimal_of numbers.now)) out.old out.new result }
    ensures short { result ≤ at + (1 + number_digits) * length numbers.now }
{
    let mut next = at;
    for &number in numbers {
        next = put_number(number, out, next);
    }
    next
}

// The last line: top, floor, and what each member took last. Gives its length; 0 where the output has not the room that the
// line asks for.
pub fn write_last(
    top: SequenceNumber,
    floor: SequenceNumber,
    taken: &[u32],
    out: &mut [u8],
) -> usize
    ensures size { result ≡ length (fitting (last_room taken.now) (length out.old) (last_line top.0 floor.0 taken.now)) }
    ensures lent { out.new ≡ front (fitting (last_room taken.now) (length out.old) (last_line top.0 floor.0 taken.now)) out.old }
{
    if fits::<NUMBER_ROOM>(taken.len(), out.len()) {
        let next = put_tops(top.0, floor.0, out);
        let next = put_each(taken, out, next);
        put(b'\n', out, next)
    } else {
        0
    }
}
