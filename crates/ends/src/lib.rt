// Both ends for programs in other languages: the caller owns the state, a call changes it where it lies, and what it answers comes back as numbers.
#![tactic(auto)]

ghost use Rattle.std.specs.Prelude.{◌≡◌};
ghost use Rattle.group.specs.Codes.{flag_of};
ghost use Rattle.ends.specs.Telling.{sequencer_told, member_told, opening_told};
ghost use Rattle.ends.specs.Promise.{SequencerOpens, SequencerReceives, SequencerPolls, SequencerCopies, MemberOpens, MemberSubmits, MemberReceives, MemberTakes, MemberRepeats, MemberReports};

use group::{MemberNumber, Refusal, SequenceNumber};
use states::{Member, Sequencer};

// What a call tells: the code of its answer, the answer's numbers in their order, whether the following number may be taken too (1)
// or not (0), and how many bytes lie at the front of the lent output. A number that the answer does not have is 0.
#[repr(C)]
#[derive(Clone, Copy, Debug, PartialEq, Eq)]
pub struct Told {
    pub code: u32,
    pub first: u32,
    pub second: u32,
    pub third: u32,
    pub more: u32,
    pub written: usize,
}

// The code of each word. The code of a refusal is its number, below all of these.
// kept: numbers for the answers are the C interface (include/warghytes.h).
impl Told {
    pub const OLD: u32 = 32;

    pub const FULL: u32 = 33;

    pub const NOTED: u32 = 34;

    pub const SENT: u32 = 35;

    pub const AGAIN: u32 = 36;

    pub const NUMBERED: u32 = 37;

    pub const WANTED: u32 = 38;

    pub const ACCEPTED: u32 = 39;

    pub const MARKED: u32 = 40;

    pub const KEPT: u32 = 48;

    pub const KEPT_GAP: u32 = 49;

    pub const BEYOND: u32 = 50;

    pub const BEYOND_GAP: u32 = 51;

    pub const GAP: u32 = 52;

    pub const STATUS: u32 = 53;

    pub const NONE: u32 = 54;

    pub const TOOK: u32 = 55;

    pub const QUEUED: u32 = 56;
}

// An answer without numbers.
fn word(code: u32, written: usize) -> Told
    ensures { result ≡ record { code = code; first = 0; second = 0; third = 0; more = 0; written = written } }
{
    Told {
        code,
        first: 0,
        second: 0,
        third: 0,
        more: 0,
        written,
    }
}

// An answer with one number or two.
fn numbered(code: u32, first: u32, second: u32, written: usize) -> Told
    ensures { result ≡ record { code = code; first = first; second = second; third = 0; more = 0; written = written } }
{
    Told {
        code,
        first,
        second,
        third: 0,
        more: 0,
        written,
    }
}

// A yes or no as a number.
#[tactic(auto, unfolding(group::specs::Codes::flag_of))]
fn flag(yes: bool) -> u32
    ensures { result ≡ flag_of yes }
{
    u32::from(yes)
}

// What a sequencer's reply tells.
pub fn sequencer_tells(reply: sequencer::Reply) -> Told
    ensures { result ≡ sequencer_told reply }
{
    let written = reply.written;
    match reply.answer {
        sequencer::Answer::Refused(q) => word(q.number() as u32, written),
        sequencer::Answer::Old => word(Told::OLD, written),
        sequencer::Answer::Again(s) => numbered(Told::AGAIN, s.0, 0, written),
        sequencer::Answer::Full => word(Told::FULL, written),
        sequencer::Answer::Numbered(s) => numbered(Told::NUMBERED, s.0, 0, written),
        sequencer::Answer::Noted => word(Told::NOTED, written),
        sequencer::Answer::Wanted(first, last) => {
            numbered(Told::WANTED, first.0, last.0, written)
        }
        sequencer::Answer::Sent => word(Told::SENT, written),
        sequencer::Answer::Marked => word(Told::MARKED, written),
        sequencer::Answer::Accepted => word(Told::ACCEPTED, written),
    }
}

// What a member's reply tells.
pub fn member_tells(reply: member::Reply) -> Told
    ensures { result ≡ member_told reply }
{
    let written = reply.written;
    match reply.answer {
        member::Answer::Refused(q) => word(q.number() as u32, written),
        member::Answer::Sent => word(Told::SENT, written),
        member::Answer::Queued(count) => numbered(Told::QUEUED, count, 0, written),
        member::Answer::Old => word(Told::OLD, written),
        member::Answer::Kept => word(Told::KEPT, written),
        member::Answer::KeptGap => word(Told::KEPT_GAP, written),
        member::Answer::Beyond => word(Told::BEYOND, written),
        member::Answer::BeyondGap => word(Told::BEYOND_GAP, written),
        member::Answer::Gap => word(Told::GAP, written),
        member::Answer::Status => word(Told::STATUS, written),
        member::Answer::None => word(Told::NONE, written),
        member::Answer::Noted => word(Told::NOTED, written),
        member::Answer::Took {
            number,
            originator,
            count,
            more,
        } => Told {
            code: Told::TOOK,
            first: number.0,
            second: originator.0 as u32,
            third: count,
            more: flag(more),
            written,
        },
    }
}

// What an opening's verdict tells.
#[tactic(auto, unfolding(crate::specs::Telling::told_of, group::specs::Codes::code_of, group::specs::Codes::word_code, group::specs::Codes::numbers_of, group::specs::Codes::numbers_in, group::specs::Codes::more_of, group::specs::Codes::more_in, group::specs::Wording::verdict_wording))]
pub fn opening_tells(verdict: Result<(), Refusal>) -> Told
    ensures { result ≡ opening_told verdict }
{
    match verdict {
        Ok(()) => word(Told::ACCEPTED, 0),
        Err(q) => word(q.number() as u32, 0),
    }
}

// The sequencer of n members in the group with that number and resilience degree, fresh. A refusal leaves it closed.
pub fn warghytes_sequencer_open(s: &mut Sequencer, n: u8, group: u32, resilience: u8) -> Told
    ensures { SequencerOpens s.old n group resilience result s.new }
{
    opening_tells(s.open(n, group, resilience))
}

// A packet that came.
pub fn warghytes_sequencer_receive(s: &mut Sequencer, packet: &[u8], out: &mut [u8]) -> Told
    ensures { SequencerReceives s.old packet.now out.old result s.new out.new }
{
    sequencer_tells(s.receive(packet, out))
}

// A poll.
pub fn warghytes_sequencer_poll(s: &Sequencer, out: &mut [u8]) -> Told
    ensures { SequencerPolls s.now out.old result out.new }
{
    sequencer_tells(s.poll(out))
}

// The broadcast of a number again, or its offer if it is not accepted.
pub fn warghytes_sequencer_copy(s: &Sequencer, number: u32, out: &mut [u8]) -> Told
    ensures { SequencerCopies s.now number out.old result out.new }
{
    sequencer_tells(s.copy(SequenceNumber(number), out))
}

// Member `number` of n in the group with that number and resilience degree, fresh. A refusal leaves it closed.
pub fn warghytes_member_open(s: &mut Member, n: u8, number: u8, group: u32, resilience: u8) -> Told
    ensures { MemberOpens s.old n number group resilience result s.new }
{
    opening_tells(s.open(n, MemberNumber(number), group, resilience))
}

// A message to be sent to all.
pub fn warghytes_member_submit(s: &mut Member, payload: &[u8], out: &mut [u8]) -> Told
    ensures { MemberSubmits s.old payload.now out.old result s.new out.new }
{
    member_tells(s.submit(payload, out))
}

// A packet that came.
pub fn warghytes_member_receive(s: &mut Member, packet: &[u8], out: &mut [u8]) -> Told
    ensures { MemberReceives s.old packet.now out.old result s.new out.new }
{
    member_tells(s.receive(packet, out))
}

// The next message in order.
pub fn warghytes_member_take(s: &mut Member, out: &mut [u8]) -> Told
    ensures { MemberTakes s.old out.old result s.new out.new }
{
    member_tells(s.take(out))
}

// The request of the first message that waits, again.
pub fn warghytes_member_repeat(s: &Member, out: &mut [u8]) -> Told
    ensures { MemberRepeats s.now out.old result out.new }
{
    member_tells(s.repeat(out))
}

// What it has, acknowledged.
pub fn warghytes_member_status(s: &Member, out: &mut [u8]) -> Told
    ensures { MemberReports s.now out.old result out.new }
{
    member_tells(s.status(out))
}
