// The sequencer's calls, on the arrays: each asks its questions, then takes the steps of `sequencer`, and hands back the head that the state
// has next and what it answers.
#![tactic(auto)]

ghost use Rattle.std.specs.Prelude.{◌≡◌, length, None};
ghost use Rattle.group.specs.Choice.{◌and◌, ◌<?◌, ◌≤?◌};
ghost use Rattle.group.specs.Question.{all_yes};
ghost use Rattle.sequencer.specs.Calls.{call_verdict};
ghost use Rattle.sequencer.specs.View.{Fits, Placed, whole, view_of};
ghost use Rattle.sequencer.specs.Promise.{Changed, Received, Polled, Copied, Opens};
ghost use Rattle.sequencer.specs.Owed.{Due, Judged, Refuses};
ghost use Rattle.sequencer.specs.Steps.{accepted_step, confirmation_of};

use group::{Group, MemberNumber, Refusal, SequenceNumber};
use packet::Packet;
use sequencer::{Answer, Decision, Head, Reply, Start, Step};

fn refused(refusal: Refusal) -> Reply
    ensures { Refuses refusal result }
{
    Reply {
        answer: Answer::Refused(refusal),
        written: 0,
    }
}

// A refusal, which leaves the head.
fn unchanged(head: Head, refusal: Refusal) -> Step
    ensures head { result.head ≡ head }
    ensures reply { Refuses refusal result.reply }
{
    let reply = refused(refusal);
    Step { head, reply }
}

// A packet that no question refuses and that confirms nothing: A is noted, what the floor passes is cleared, and then what it changes is
// laid into the state.
fn noted(
    head: Head,
    taken: &mut [u32; Group::MEMBERS],
    counts: &mut [u32],
    repeats: &mut [u32],
    kept: &mut [u32],
    marks: &[u16],
    originators: &mut [u8],
    lengths: &mut [u8],
    payloads: &mut [u8],
    packet: Packet,
    payload: &[u8],
    out: &mut [u8],
) -> Step
    requires { (confirmation_of packet ≡ None) × Due (view_of (whole head taken.old counts.old repeats.old kept.old marks.now originators.old lengths.old payloads.old)) packet (length payload.now) (length out.old) × Fits (whole head taken.old counts.old repeats.old kept.old marks.now originators.old lengths.old payloads.old) }
    ensures { Changed (accepted_step (view_of (whole head taken.old counts.old repeats.old kept.old marks.now originators.old lengths.old payloads.old)) packet payload.now) result.reply (whole result.head taken.new counts.new repeats.new kept.new marks.now originators.new lengths.new payloads.new) out.old out.new }
{
    let from = history::sender_of(packet);
    let floor = history::note(head.group.survivors, taken, from.member, from.taken);
    history::clear(head.floor, floor, kept, originators, lengths, payloads);
    let member = from.member.0 as usize;
    let change = sequencer::packet_change(
        kept,
        originators,
        packet,
        counts[member],
        floor,
        head.top,
        head.accepted,
        head.group,
        repeats[member],
    );
    counts[member] = change.count;
    repeats[member] = change.repeats;
    history::lay(
        change.number,
        head.top,
        kept,
        originators,
        lengths,
        payloads,
        from.member,
        change.count,
        payload,
    );
    let at = history::place(change.number.0 as u64);
    let written = sequencer::send_answer(
        change.answer,
        head.group,
        change.top,
        change.accepted,
        floor,
        at,
        kept,
        originators,
        lengths,
        payloads,
        out,
    );
    Step {
        head: Head {
            group: head.group,
            top: change.top,
            accepted: change.accepted,
            floor,
        },
        reply: Reply {
            answer: change.answer,
            written,
        },
    }
}

// Every question of the call for packets.
fn judge(
    head: Head,
    taken: &[u32; Group::MEMBERS],
    counts: &[u32],
    repeats: &[u32],
    kept: &[u32],
    marks: &[u16],
    originators: &[u8],
    lengths: &[u8],
    payloads: &[u8],
    packet: &[u8],
    room: usize,
) -> Result<Decision, Refusal>
    requires { Placed (whole head taken.now counts.now repeats.now kept.now marks.now originators.now lengths.now payloads.now) }
    ensures judged { Judged (view_of (whole head taken.now counts.now repeats.now kept.now marks.now originators.now lengths.now payloads.now)) packet.now room result }
    ensures sizes { Fits (whole head taken.now counts.now repeats.now kept.now marks.now originators.now lengths.now payloads.now) }
{
    sequencer::ask(
        head,
        taken,
        counts,
        repeats,
        kept,
        marks,
        originators,
        lengths,
        payloads,
        room,
    )?;
    sequencer::decide(head, counts, packet)
}

// The call for packets, on the arrays.
pub fn receive_on(
    head: Head,
    taken: &mut [u32; Group::MEMBERS],
    counts: &mut [u32; Group::MEMBERS],
    repeats: &mut [u32; Group::MEMBERS],
    kept: &mut [u32; Group::PLACES],
    marks: &mut [u16; Group::PLACES],
    originators: &mut [u8; Group::PLACES],
    lengths: &mut [u8; Group::PLACES],
    payloads: &mut [u8; Group::HISTORY_BYTES],
    packet: &[u8],
    out: &mut [u8],
) -> Step
    ensures { Received (whole head taken.old counts.old repeats.old kept.old marks.old originators.old lengths.old payloads.old) packet.now out.old result.reply (whole result.head taken.new counts.new repeats.new kept.new marks.new originators.new lengths.new payloads.new) out.new }
{
    match judge(
        head,
        taken,
        counts,
        repeats,
        kept,
        marks,
        originators,
        lengths,
        payloads,
        packet,
        out.len(),
    ) {
        Err(refusal) => unchanged(head, refusal),
        Ok(Decision::Mark(member, number)) => sequencer::confirm(head, marks, member, number, out),
        Ok(Decision::Note(content)) => noted(
            head,
            taken,
            counts,
            repeats,
            kept,
            marks,
            originators,
            lengths,
            payloads,
            content,
            &packet[Group::HEADER..],
            out,
        ),
    }
}

// The poll call on the arrays.
pub fn poll_on(
    head: Head,
    taken: &[u32; Group::MEMBERS],
    counts: &[u32; Group::MEMBERS],
    repeats: &[u32; Group::MEMBERS],
    kept: &[u32; Group::PLACES],
    marks: &[u16; Group::PLACES],
    originators: &[u8; Group::PLACES],
    lengths: &[u8; Group::PLACES],
    payloads: &[u8; Group::HISTORY_BYTES],
    out: &mut [u8],
) -> Reply
    ensures { Polled (whole head taken.now counts.now repeats.now kept.now marks.now originators.now lengths.now payloads.now) out.old result out.new }
{
    match sequencer::ask(
        head,
        taken,
        counts,
        repeats,
        kept,
        marks,
        originators,
        lengths,
        payloads,
        out.len(),
    ) {
        Ok(()) => Reply {
            answer: Answer::Sent,
            written: sequencer::send_poll(head.group, head.top, head.floor, out),
        },
        Err(refusal) => refused(refusal),
    }
}

// Does the history hold a number?
#[tactic(auto, using(group::proofs::Choice::choices))]
fn in_history(head: Head, number: SequenceNumber) -> bool
    ensures { result ≡ (head.floor.0 <? number.0 and number.0 ≤? head.top.0) }
{
    head.floor.0 < number.0 && number.0 <= head.top.0
}

// Question 17, then the packet.
fn copied(
    head: Head,
    taken: &[u32; Group::MEMBERS],
    counts: &[u32],
    repeats: &[u32],
    kept: &[u32],
    marks: &[u16],
    originators: &[u8],
    lengths: &[u8],
    payloads: &[u8],
    number: SequenceNumber,
    out: &mut [u8],
) -> Reply
    requires { (call_verdict (view_of (whole head taken.now counts.now repeats.now kept.now marks.now originators.now lengths.now payloads.now)) (length out.old) ≡ all_yes) × Fits (whole head taken.now counts.now repeats.now kept.now marks.now originators.now lengths.now payloads.now) }
    ensures { Copied (whole head taken.now counts.now repeats.now kept.now marks.now originators.now lengths.now payloads.now) number out.old result out.new }
{
    if !in_history(head, number) {
        return refused(Refusal::NotInHistory);
    }
    let at = history::place(number.0 as u64);
    let written = sequencer::send(
        head.group.number,
        head.accepted,
        head.floor,
        number,
        at,
        kept,
        originators,
        lengths,
        payloads,
        out,
    );
    Reply {
        answer: Answer::Sent,
        written,
    }
}

// The copy call on the arrays.
pub fn copy_on(
    head: Head,
    taken: &[u32; Group::MEMBERS],
    counts: &[u32; Group::MEMBERS],
    repeats: &[u32; Group::MEMBERS],
    kept: &[u32; Group::PLACES],
    marks: &[u16; Group::PLACES],
    originators: &[u8; Group::PLACES],
    lengths: &[u8; Group::PLACES],
    payloads: &[u8; Group::HISTORY_BYTES],
    number: SequenceNumber,
    out: &mut [u8],
) -> Reply
    ensures { Copied (whole head taken.now counts.now repeats.now kept.now marks.now originators.now lengths.now payloads.now) number out.old result out.new }
{
    match sequencer::ask(
        head,
        taken,
        counts,
        repeats,
        kept,
        marks,
        originators,
        lengths,
        payloads,
        out.len(),
    ) {
        Ok(()) => copied(
            head,
            taken,
            counts,
            repeats,
            kept,
            marks,
            originators,
            lengths,
            payloads,
            number,
            out,
        ),
        Err(refusal) => refused(refusal),
    }
}

// Opening on the arrays.
pub fn open_on(
    head: Head,
    taken: &mut [u32; Group::MEMBERS],
    counts: &mut [u32; Group::MEMBERS],
    repeats: &mut [u32; Group::MEMBERS],
    kept: &mut [u32; Group::PLACES],
    marks: &mut [u16; Group::PLACES],
    originators: &mut [u8; Group::PLACES],
    lengths: &mut [u8; Group::PLACES],
    payloads: &mut [u8; Group::HISTORY_BYTES],
    n: u8,
    group: u32,
    resilience: u8,
) -> Start
    ensures { Opens (whole head taken.old counts.old repeats.old kept.old marks.old originators.old lengths.old payloads.old) n group resilience result.verdict (whole result.head taken.new counts.new repeats.new kept.new marks.new originators.new lengths.new payloads.new) }
{
    *taken = [0; Group::MEMBERS];
    *counts = [0; Group::MEMBERS];
    *repeats = [0; Group::MEMBERS];
    *kept = [0; Group::PLACES];
    *marks = [0; Group::PLACES];
    *originators = [0; Group::PLACES];
    *lengths = [0; Group::PLACES];
    *payloads = [0; Group::HISTORY_BYTES];
    match Group::fresh(n, group, resilience) {
        Ok(group) => Start {
            head: sequencer::fresh_head(group),
            verdict: Ok(()),
        },
        Err(refusal) => Start {
            head: sequencer::fresh_head(Group {
                n: 0,
                resilience: 0,
                survivors: 0,
                elected: MemberNumber(0),
                number: 0,
            }),
            verdict: Err(refusal),
        },
    }
}
