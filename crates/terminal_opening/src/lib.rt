// Opening a terminal: its member opens, and member 0's terminal has the sequencer. The work is lent the terminal in parts: the numbers of its
// head by value, and all arrays.
#![tactic(auto)]

ghost use Rattle.std.specs.Prelude.{◌≡◌};
ghost use Rattle.group.specs.Choice.{when◌then◌else◌, ◌=?◌};
ghost use Rattle.recovery.specs.View.{whole};
ghost use Rattle.terminal_opening.specs.Opening.{Opens, fresh_of};
ghost use Rattle.terminal_opening.specs.Steps.{sequencing_of, fresh_head};

use group::{Group, MemberNumber, Refusal, SequenceNumber};
use recovery::Head;

// What opening gives back: the head, and what the caller is told.
#[derive(Clone, Copy)]
pub struct Begun {
    pub head: Head,
    pub verdict: Result<(), Refusal>,
}

// Whether an opened terminal has the sequencer (1: yes, 0: no): member 0's has.
// kept: the C interface shows the flag as a byte.
#[tactic(auto, using(group::proofs::Choice::choices), unfolding(crate::specs::Steps::sequencing_of))]
fn sequencing(verdict: Result<(), Refusal>, number: MemberNumber) -> u8
    ensures { result ≡ sequencing_of verdict number }
{
    match verdict {
        Ok(()) if number.0 == 0 => 1,
        _ => 0,
    }
}

// The members of the sequencer's group: 0 where there is no sequencer.
// kept: a group of 0 members is what the opening of the sequencer refuses and leaves all zero, which an Option would only unwrap to.
#[tactic(auto, using(group::proofs::Choice::choices))]
fn seats(sequencing: u8, n: u8) -> u8
    ensures { result ≡ (when sequencing =? 1 then n else 0) }
{
    if sequencing == 1 { n } else { 0 }
}

// The head of both ends, with no part in a reset.
pub fn fresh_head(member: member::Head, sequencer: sequencer::Head, sequencing: u8) -> Head
    ensures { result ≡ fresh_head member sequencer sequencing }
{
    Head {
        member,
        sequencer,
        read: SequenceNumber(0),
        attempt: 0,
        number: SequenceNumber(0),
        invited: 0,
        repliers: 0,
        replied: 0,
        inviting: 0,
        sequencing,
        frozen: 0,
    }
}

// The work of opening: questions 18 and 24. Where it is refused, the state is all zero.
pub fn open_on(
    head: Head,
    queued: &mut [u32; Group::WAITING],
    held: &mut [u32; Group::HELD],
    queued_originators: &mut [u8; Group::WAITING],
    queued_lengths: &mut [u8; Group::WAITING],
    held_originators: &mut [u8; Group::HELD],
    held_lengths: &mut [u8; Group::HELD],
    queued_payloads: &mut [u8; Group::WAITING_BYTES],
    held_payloads: &mut [u8; Group::HELD_BYTES],
    past: &mut [u32; Group::PLACES],
    past_originators: &mut [u8; Group::PLACES],
    past_lengths: &mut [u8; Group::PLACES],
    past_payloads: &mut [u8; Group::HISTORY_BYTES],
    highest: &mut [u32; Group::MEMBERS],
    replies: &mut [u32; Group::MEMBERS],
    taken: &mut [u32; Group::MEMBERS],
    counts: &mut [u32; Group::MEMBERS],
    repeats: &mut [u32; Group::MEMBERS],
    kept: &mut [u32; Group::PLACES],
    marks: &mut [u16; Group::PLACES],
    originators: &mut [u8; Group::PLACES],
    lengths: &mut [u8; Group::PLACES],
    payloads: &mut [u8; Group::HISTORY_BYTES],
    n: u8,
    number: MemberNumber,
    group: u32,
    resilience: u8,
) -> Begun
    ensures { Opens (fresh_of n number group resilience) result.verdict (whole result.head queued.new held.new queued_originators.new queued_lengths.new held_originators.new held_lengths.new queued_payloads.new held_payloads.new past.new past_originators.new past_lengths.new past_payloads.new highest.new replies.new taken.new counts.new repeats.new kept.new marks.new originators.new lengths.new payloads.new) }
{
    *past = [0; Group::PLACES];
    *past_originators = [0; Group::PLACES];
    *past_lengths = [0; Group::PLACES];
    *past_payloads = [0; Group::HISTORY_BYTES];
    *highest = [0; Group::MEMBERS];
    *replies = [0; Group::MEMBERS];
    let begun = member_calls::open_on(
        head.member,
        queued,
        held,
        queued_originators,
        queued_lengths,
        held_originators,
        held_lengths,
        queued_payloads,
        held_payloads,
        n,
        number,
        group,
        resilience,
    );
    let sequencing = sequencing(begun.verdict, number);
    let start = sequencer_calls::open_on(
        head.sequencer,
        taken,
        counts,
        repeats,
        kept,
        marks,
        originators,
        lengths,
        payloads,
        seats(sequencing, n),
        group,
        resilience,
    );
    Begun {
        head: fresh_head(begun.head, start.head, sequencing),
        verdict: begun.verdict,
    }
}
