// What the program that plays a schedule with resets prints at its end.
#![tactic(auto)]

ghost use Rattle.std.specs.Prelude.{◌≡◌, [], ◌∷◌, ◌++◌, map, ◌+◌, ◌*◌, ◌≤◌, length};
ghost use Rattle.group.specs.Lent.{front};
ghost use Rattle.group.specs.Limits.{members_most};
ghost use Rattle.report.specs.Print.{fitting};
ghost use Rattle.text.specs.LaidAt.{LaidAt};
ghost use Rattle.text.specs.Text.{text_of};
ghost use Rattle.text.specs.Written.{decimal_of, spaced, number_digits};
ghost use Rattle.reset_report.specs.Print.{listed_at, members_below, terminal_line, frozen_text, sequencer_line, terminal_room, sequencer_room};

use group::{Group, MemberNumber, SequenceNumber, is_in};
use text::{NUMBER_DIGITS, put, put_number, put_text, put_word};

// The room that a line asks for: its words, its numbers with a space before each, and the line feed.
pub const TERMINAL_ROOM: usize = 38 + (4 + Group::MEMBERS) * (1 + NUMBER_DIGITS) + 1;

pub const SEQUENCER_ROOM: usize = 32 + 4 * (1 + NUMBER_DIGITS) + 1;

// The limits of specs/ are these constants.
fn terminal_room() -> usize
    ensures { result ≡ terminal_room }
{
    TERMINAL_ROOM
}

fn sequencer_room() -> usize
    ensures { result ≡ sequencer_room }
{
    SEQUENCER_ROOM
}

// A word and its number.
fn put_named(word: &[u8], number: u32, out: &mut [u8], at: usize) -> usize
    requires { at + 2 + length word.now + number_digits ≤ length out.old }
    ensures laid { LaidAt at (spaced (word.now ∷ decimal_of number ∷ [])) out.old out.new result }
    ensures short { result ≤ at + 2 + length word.now + number_digits }
{
    let next = put_word(word, out, at);
    put_number(number, out, next)
}

// What a line begins with: whose it is, and the group number.
fn put_whose(name: &[u8], terminal: u32, group: u32, out: &mut [u8]) -> usize
    requires { length name.now + 3 + length (text_of "group") + 2 * number_digits ≤ length out.old }
    ensures laid { LaidAt 0 (name.now ++ spaced (decimal_of terminal ∷ text_of "group" ∷ decimal_of group ∷ [])) out.old out.new result }
    ensures short { result ≤ length name.now + 3 + length (text_of "group") + 2 * number_digits }
{
    let next = put_text(name, out, 0);
    let next = put_number(terminal, out, next);
    put_named(b"group", group, out, next)
}

// A terminal's line up to the word before its survivors.
fn put_terminal(terminal: u32, group: u32, taken: u32, elected: u32, out: &mut [u8]) -> usize
    requires { terminal_room ≤ length out.old }
    ensures laid { LaidAt 0 (text_of "terminal" ++ spaced (decimal_of terminal ∷ text_of "group" ∷ decimal_of group ∷ text_of "taken" ∷ decimal_of taken ∷ text_of "elected" ∷ decimal_of elected ∷ text_of "survivors" ∷ [])) out.old out.new result }
    ensures short { result + members_most * (1 + number_digits) + 1 ≤ terminal_room }
{
    let next = put_whose(b"terminal", terminal, group, out);
    let next = put_named(b"taken", taken, out, next);
    let next = put_named(b"elected", elected, out, next);
    put_word(b"survivors", out, next)
}

// A member's number, if it is in the mask.
fn put_listed(mask: u16, i: u8, out: &mut [u8], at: usize) -> usize
    requires { at + 1 + number_digits ≤ length out.old }
    ensures laid { LaidAt at (spaced (map decimal_of (listed_at mask i))) out.old out.new result }
    ensures short { result ≤ at + 1 + number_digits }
{
    if is_in(mask, MemberNumber(i)) {
        put_number(i as u32, out, at)
    } else {
        at
    }
}

// The members of a mask, each behind one space.
fn put_members(mask: u16, out: &mut [u8], at: usize) -> usize
    requires { at + members_most * (1 + number_digits) ≤ length out.old }
    ensures laid { LaidAt at (spaced (map decimal_of (members_below mask members_most))) out.old out.new result }
    ensures short { result ≤ at + members_most * (1 + number_digits) }
{
    let mut next = at;
    for i in 0..Group::MEMBERS {
        next = put_listed(mask, i as u8, out, next);
    }
    next
}

// The line of a terminal. Gives its length; 0 where the output has not the room that the line asks for.
// kept: the length of what was laid, of no line 0: every caller lends the room, and would take an `Option` apart for the same number.
pub fn write_terminal(
    terminal: u32,
    group: u32,
    taken: SequenceNumber,
    elected: MemberNumber,
    survivors: u16,
    out: &mut [u8],
) -> usize
    ensures size { result ≡ length (fitting terminal_room (length out.old) (terminal_line terminal group taken.0 elected.0 survivors)) }
    ensures lent { out.new ≡ front (fitting terminal_room (length out.old) (terminal_line terminal group taken.0 elected.0 survivors)) out.old }
{
    if out.len() < TERMINAL_ROOM {
        return 0;
    }
    let next = put_terminal(terminal, group, taken.0, elected.0 as u32, out);
    let next = put_members(survivors, out, next);
    put(b'\n', out, next)
}

// A sequencer's line up to its floor.
fn put_sequencer(terminal: u32, group: u32, top: u32, floor: u32, out: &mut [u8]) -> usize
    requires { sequencer_room ≤ length out.old }
    ensures laid { LaidAt 0 (text_of "sequencer" ++ spaced (decimal_of terminal ∷ text_of "group" ∷ decimal_of group ∷ text_of "top" ∷ decimal_of top ∷ text_of "floor" ∷ decimal_of floor ∷ [])) out.old out.new result }
    ensures short { result + 1 + length (text_of "frozen") + 1 ≤ sequencer_room }
{
    let next = put_whose(b"sequencer", terminal, group, out);
    let next = put_named(b"top", top, out, next);
    put_named(b"floor", floor, out, next)
}

// The word behind a frozen one.
fn put_frozen(frozen: bool, out: &mut [u8], at: usize) -> usize
    requires { at + 1 + length (text_of "frozen") ≤ length out.old }
    ensures laid { LaidAt at (spaced (frozen_text frozen)) out.old out.new result }
    ensures short { result ≤ at + 1 + length (text_of "frozen") }
{
    if frozen {
        put_word(b"frozen", out, at)
    } else {
        at
    }
}

// The line of a terminal's sequencer. Gives its length; 0 where the output has not the room that the line asks for.
// kept: the length of what was laid, of no line 0: every caller lends the room, and would take an `Option` apart for the same number.
pub fn write_sequencer(
    terminal: u32,
    group: u32,
    top: SequenceNumber,
    floor: SequenceNumber,
    frozen: bool,
    out: &mut [u8],
) -> usize
    ensures size { result ≡ length (fitting sequencer_room (length out.old) (sequencer_line terminal group top.0 floor.0 frozen)) }
    ensures lent { out.new ≡ front (fitting sequencer_room (length out.old) (sequencer_line terminal group top.0 floor.0 frozen)) out.old }
{
    if out.len() < SEQUENCER_ROOM {
        return 0;
    }
    let next = put_sequencer(terminal, group, top.0, floor.0, out);
    let next = put_frozen(frozen, out, next);
    put(b'\n', out, next)
}
