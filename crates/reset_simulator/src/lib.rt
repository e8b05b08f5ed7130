// The world with resets that can be run: room for every terminal, and room for the packets of a schedule. Its numbers go by value, and every
// array behind a reference: those of the terminals one behind the other, so that a call is lent the arrays of one terminal.
#![tactic(auto)]

ghost use Rattle.std.specs.Prelude.{◌≡◌, true, ◌<◌, length};
ghost use Rattle.group.specs.Limits.{members_most};
ghost use Rattle.recovery.specs.Calls.{fresh_terminal};
ghost use Rattle.recovery.specs.View.{whole, terminal_of, flags_sound};
ghost use Rattle.terminal_rows.specs.Steps.{of_whole};
ghost use Rattle.reset_simulator.specs.Whole.{rows_of, terminals_of, whole_of, Plays, Opens};
ghost use Rattle.reset_simulator.specs.Steps.{came_of, happened_at, handed_to, FullRows, CallsOn, MemberCallsOn, SequencerCallsOn, CallsRow, CallsAt, Begun};

use group::{Group, MemberNumber, Refusal};
use model::Reply;
use recovery::Head;
use simulator::{PACKETS, is_there, store};
use terminal_opening::fresh_head;
use terminal_rows::{
    Call, MASKS, MemberCall, NUMBERS, Part, SMALL, SequencerCall, WholeCall, admits, kept_size,
    opened_with, packet_at, part_of, read_head, served, size_at, verdict_of, write_head,
};

// How many terminals there are, and how many packets were written.
#[derive(Clone, Copy)]
pub struct World {
    pub n: u8,
    pub count: usize,
}

// What a call gives: the terminal's next head, its answer, and how many bytes it wrote to the front of the lent output.
#[derive(Clone, Copy)]
pub struct Called {
    pub head: Head,
    pub reply: Reply,
    pub written: usize,
}

// What an event gives: the world's numbers after it, its answer, and how many bytes a call wrote to the front of the lent output.
#[derive(Clone, Copy)]
pub struct Happening {
    pub world: World,
    pub reply: Reply,
    pub written: usize,
}

// What opening gives. Where it is refused, there is no terminal.
#[derive(Clone, Copy)]
pub struct Opened {
    pub world: World,
    pub verdict: Result<(), Refusal>,
}

// Opens a terminal on its arrays.
fn open_on(
    head: Head,
    queued: &mut [u32; Group::WAITING],
    held: &mut [u32; Group::HELD],
    queued_originators: &mut [u8; Group::WAITING],
    queued_lengths: &mut [u8; Group::WAITING],
    held_originators: &mut [u8; Group::HELD],
    held_lengths: &mut [u8; Group::HELD],
    queued_payloads: &mut [u8; Group::WAITING_BYTES],
    held_payloads: &mut [u8; Group::HELD_BYTES],
    past: &mut [u32; Group::PLACES],
    past_originators: &mut [u8; Group::PLACES],
    past_lengths: &mut [u8; Group::PLACES],
    past_payloads: &mut [u8; Group::HISTORY_BYTES],
    highest: &mut [u32; Group::MEMBERS],
    replies: &mut [u32; Group::MEMBERS],
    taken: &mut [u32; Group::MEMBERS],
    counts: &mut [u32; Group::MEMBERS],
    repeats: &mut [u32; Group::MEMBERS],
    kept: &mut [u32; Group::PLACES],
    marks: &mut [u16; Group::PLACES],
    originators: &mut [u8; Group::PLACES],
    lengths: &mut [u8; Group::PLACES],
    payloads: &mut [u8; Group::HISTORY_BYTES],
    n: u8,
    number: u32,
    resilience: u8,
    i: u8,
) -> Head
    ensures { terminal_of (whole result queued.new held.new queued_originators.new queued_lengths.new held_originators.new held_lengths.new queued_payloads.new held_payloads.new past.new past_originators.new past_lengths.new past_payloads.new highest.new replies.new taken.new counts.new repeats.new kept.new marks.new originators.new lengths.new payloads.new) ≡ fresh_terminal n number resilience i }
{
    let begun = member_calls::open_on(
        head.member,
        queued,
        held,
        queued_originators,
        queued_lengths,
        held_originators,
        held_lengths,
        queued_payloads,
        held_payloads,
        n,
        MemberNumber(i),
        number,
        resilience,
    );
    *past = [0u32; Group::PLACES];
    *past_originators = [0u8; Group::PLACES];
    *past_lengths = [0u8; Group::PLACES];
    *past_payloads = [0u8; Group::HISTORY_BYTES];
    *highest = [0u32; Group::MEMBERS];
    *replies = [0u32; Group::MEMBERS];
    let most = served(n, i);
    let start = sequencer_calls::open_on(
        head.sequencer,
        taken,
        counts,
        repeats,
        kept,
        marks,
        originators,
        lengths,
        payloads,
        most,
        number,
        resilience,
    );
    let sequencing = served(1, i);
    fresh_head(begun.head, start.head, sequencing)
}

// A call of its member.
fn member_on(
    call: MemberCall,
    head: Head,
    queued: &mut [u32; Group::WAITING],
    held: &mut [u32; Group::HELD],
    queued_originators: &mut [u8; Group::WAITING],
    queued_lengths: &mut [u8; Group::WAITING],
    held_originators: &mut [u8; Group::HELD],
    held_lengths: &mut [u8; Group::HELD],
    queued_payloads: &mut [u8; Group::WAITING_BYTES],
    held_payloads: &mut [u8; Group::HELD_BYTES],
    past: &mut [u32; Group::PLACES],
    past_originators: &mut [u8; Group::PLACES],
    past_lengths: &mut [u8; Group::PLACES],
    past_payloads: &mut [u8; Group::HISTORY_BYTES],
    highest: &mut [u32; Group::MEMBERS],
    replies: &mut [u32; Group::MEMBERS],
    bytes: &[u8],
    out: &mut [u8],
) -> Called
    requires { flags_sound head ≡ true }
    ensures { MemberCallsOn call bytes.now head queued.old held.old queued_originators.old queued_lengths.old held_originators.old held_lengths.old queued_payloads.old held_payloads.old past.old past_originators.old past_lengths.old past_payloads.old highest.old replies.old result queued.new held.new queued_originators.new queued_lengths.new held_originators.new held_lengths.new queued_payloads.new held_payloads.new past.new past_originators.new past_lengths.new past_payloads.new highest.new replies.new out.old out.new }
{
    match call {
        MemberCall::Submit => {
            let done = terminals::submit_on(
                head,
                queued,
                held,
                queued_originators,
                queued_lengths,
                held_originators,
                held_lengths,
                queued_payloads,
                held_payloads,
                past,
                past_originators,
                past_lengths,
                past_payloads,
                highest,
                replies,
                bytes,
                out,
            );
            let next = done.head;
            let told = done.reply;
            let answer = told.answer;
            Called {
                head: next,
                reply: Reply::Member(answer),
                written: told.written,
            }
        }
        MemberCall::Repeat => {
            let told = terminals::repeat_on(
                head,
                queued,
                held,
                queued_originators,
                queued_lengths,
                held_originators,
                held_lengths,
                queued_payloads,
                held_payloads,
                past,
                past_originators,
                past_lengths,
                past_payloads,
                highest,
                replies,
                out,
            );
            let answer = told.answer;
            Called {
                head,
                reply: Reply::Member(answer),
                written: told.written,
            }
        }
        MemberCall::Take => {
            let done = terminals::take_on(
                head,
                queued,
                held,
                queued_originators,
                queued_lengths,
                held_originators,
                held_lengths,
                queued_payloads,
                held_payloads,
                past,
                past_originators,
                past_lengths,
                past_payloads,
                highest,
                replies,
                out,
            );
            let next = done.head;
            let told = done.reply;
            let answer = told.answer;
            Called {
                head: next,
                reply: Reply::Member(answer),
                written: told.written,
            }
        }
        MemberCall::Status => {
            let told = terminals::status_on(
                head,
                queued,
                held,
                queued_originators,
                queued_lengths,
                held_originators,
                held_lengths,
                queued_payloads,
                held_payloads,
                past,
                past_originators,
                past_lengths,
                past_payloads,
                highest,
                replies,
                out,
            );
            let answer = told.answer;
            Called {
                head,
                reply: Reply::Member(answer),
                written: told.written,
            }
        }
    }
}

// A call of the whole terminal.
fn whole_on(
    call: WholeCall,
    head: Head,
    queued: &mut [u32; Group::WAITING],
    held: &mut [u32; Group::HELD],
    queued_originators: &mut [u8; Group::WAITING],
    queued_lengths: &mut [u8; Group::WAITING],
    held_originators: &mut [u8; Group::HELD],
    held_lengths: &mut [u8; Group::HELD],
    queued_payloads: &mut [u8; Group::WAITING_BYTES],
    held_payloads: &mut [u8; Group::HELD_BYTES],
    past: &mut [u32; Group::PLACES],
    past_originators: &mut [u8; Group::PLACES],
    past_lengths: &mut [u8; Group::PLACES],
    past_payloads: &mut [u8; Group::HISTORY_BYTES],
    highest: &mut [u32; Group::MEMBERS],
    replies: &mut [u32; Group::MEMBERS],
    taken: &mut [u32; Group::MEMBERS],
    counts: &mut [u32; Group::MEMBERS],
    repeats: &mut [u32; Group::MEMBERS],
    kept: &mut [u32; Group::PLACES],
    marks: &mut [u16; Group::PLACES],
    originators: &mut [u8; Group::PLACES],
    lengths: &mut [u8; Group::PLACES],
    payloads: &mut [u8; Group::HISTORY_BYTES],
    bytes: &[u8],
    out: &mut [u8],
) -> Called
    requires { flags_sound head ≡ true }
    ensures { CallsOn (came_of (of_whole call) bytes.now (length out.old) (terminal_of (whole head queued.old held.old queued_originators.old queued_lengths.old held_originators.old held_lengths.old queued_payloads.old held_payloads.old past.old past_originators.old past_lengths.old past_payloads.old highest.old replies.old taken.old counts.old repeats.old kept.old marks.old originators.old lengths.old payloads.old))) result (whole result.head queued.new held.new queued_originators.new queued_lengths.new held_originators.new held_lengths.new queued_payloads.new held_payloads.new past.new past_originators.new past_lengths.new past_payloads.new highest.new replies.new taken.new counts.new repeats.new kept.new marks.new originators.new lengths.new payloads.new) out.old out.new }
{
    match call {
        WholeCall::Receive => {
            let done = terminals::receive_on(
                head,
                queued,
                held,
                queued_originators,
                queued_lengths,
                held_originators,
                held_lengths,
                queued_payloads,
                held_payloads,
                past,
                past_originators,
                past_lengths,
                past_payloads,
                highest,
                replies,
                taken,
                counts,
                repeats,
                kept,
                marks,
                originators,
                lengths,
                payloads,
                bytes,
                out,
            );
            let next = done.head;
            let told = done.reply;
            let answer = told.answer;
            Called {
                head: next,
                reply: Reply::Member(answer),
                written: told.written,
            }
        }
        WholeCall::Invite(number) => {
            let done = attempt::invite_on(
                head,
                queued,
                held,
                queued_originators,
                queued_lengths,
                held_originators,
                held_lengths,
                queued_payloads,
                held_payloads,
                past,
                past_originators,
                past_lengths,
                past_payloads,
                highest,
                replies,
                taken,
                counts,
                repeats,
                kept,
                marks,
                originators,
                lengths,
                payloads,
                number,
                out,
            );
            let next = done.head;
            let told = done.reply;
            let answer = told.answer;
            Called {
                head: next,
                reply: Reply::Member(answer),
                written: told.written,
            }
        }
        WholeCall::Make(demand) => {
            let done = attempt::make_on(
                head,
                queued,
                held,
                queued_originators,
                queued_lengths,
                held_originators,
                held_lengths,
                queued_payloads,
                held_payloads,
                past,
                past_originators,
                past_lengths,
                past_payloads,
                highest,
                replies,
                taken,
                counts,
                repeats,
                kept,
                marks,
                originators,
                lengths,
                payloads,
                demand,
                out,
            );
            let next = done.head;
            let told = done.reply;
            let answer = told.answer;
            Called {
                head: next,
                reply: Reply::Member(answer),
                written: told.written,
            }
        }
        WholeCall::Open {
            n,
            number,
            resilience,
            i,
        } => {
            let next = open_on(
                head,
                queued,
                held,
                queued_originators,
                queued_lengths,
                held_originators,
                held_lengths,
                queued_payloads,
                held_payloads,
                past,
                past_originators,
                past_lengths,
                past_payloads,
                highest,
                replies,
                taken,
                counts,
                repeats,
                kept,
                marks,
                originators,
                lengths,
                payloads,
                n,
                number,
                resilience,
                i,
            );
            Called {
                head: next,
                reply: Reply::Absent,
                written: 0,
            }
        }
    }
}

// A call of its sequencer.
fn sequencer_on(
    call: SequencerCall,
    head: Head,
    taken: &mut [u32; Group::MEMBERS],
    counts: &mut [u32; Group::MEMBERS],
    repeats: &mut [u32; Group::MEMBERS],
    kept: &mut [u32; Group::PLACES],
    marks: &mut [u16; Group::PLACES],
    originators: &mut [u8; Group::PLACES],
    lengths: &mut [u8; Group::PLACES],
    payloads: &mut [u8; Group::HISTORY_BYTES],
    bytes: &[u8],
    out: &mut [u8],
) -> Called
    requires { flags_sound head ≡ true }
    ensures { SequencerCallsOn call bytes.now head taken.old counts.old repeats.old kept.old marks.old originators.old lengths.old payloads.old result taken.new counts.new repeats.new kept.new marks.new originators.new lengths.new payloads.new out.old out.new }
{
    match call {
        SequencerCall::Order => {
            let done = terminals::order_on(
                head,
                taken,
                counts,
                repeats,
                kept,
                marks,
                originators,
                lengths,
                payloads,
                bytes,
                out,
            );
            let next = done.head;
            let told = done.reply;
            let answer = told.answer;
            Called {
                head: next,
                reply: Reply::Sequencer(answer),
                written: told.written,
            }
        }
        SequencerCall::Poll => {
            let told = terminals::poll_on(
                head,
                taken,
                counts,
                repeats,
                kept,
                marks,
                originators,
                lengths,
                payloads,
                out,
            );
            let answer = told.answer;
            Called {
                head,
                reply: Reply::Sequencer(answer),
                written: told.written,
            }
        }
        SequencerCall::Copy(number) => {
            let told = terminals::copy_on(
                head,
                taken,
                counts,
                repeats,
                kept,
                marks,
                originators,
                lengths,
                payloads,
                number,
                out,
            );
            let answer = told.answer;
            Called {
                head,
                reply: Reply::Sequencer(answer),
                written: told.written,
            }
        }
    }
}

// A call of the terminal whose arrays these are.
fn call_on(
    call: Call,
    head: Head,
    queued: &mut [u32; Group::WAITING],
    held: &mut [u32; Group::HELD],
    queued_originators: &mut [u8; Group::WAITING],
    queued_lengths: &mut [u8; Group::WAITING],
    held_originators: &mut [u8; Group::HELD],
    held_lengths: &mut [u8; Group::HELD],
    queued_payloads: &mut [u8; Group::WAITING_BYTES],
    held_payloads: &mut [u8; Group::HELD_BYTES],
    past: &mut [u32; Group::PLACES],
    past_originators: &mut [u8; Group::PLACES],
    past_lengths: &mut [u8; Group::PLACES],
    past_payloads: &mut [u8; Group::HISTORY_BYTES],
    highest: &mut [u32; Group::MEMBERS],
    replies: &mut [u32; Group::MEMBERS],
    taken: &mut [u32; Group::MEMBERS],
    counts: &mut [u32; Group::MEMBERS],
    repeats: &mut [u32; Group::MEMBERS],
    kept: &mut [u32; Group::PLACES],
    marks: &mut [u16; Group::PLACES],
    originators: &mut [u8; Group::PLACES],
    lengths: &mut [u8; Group::PLACES],
    payloads: &mut [u8; Group::HISTORY_BYTES],
    bytes: &[u8],
    out: &mut [u8],
) -> Called
    requires { flags_sound head ≡ true }
    ensures { CallsOn (came_of call bytes.now (length out.old) (terminal_of (whole head queued.old held.old queued_originators.old queued_lengths.old held_originators.old held_lengths.old queued_payloads.old held_payloads.old past.old past_originators.old past_lengths.old past_payloads.old highest.old replies.old taken.old counts.old repeats.old kept.old marks.old originators.old lengths.old payloads.old))) result (whole result.head queued.new held.new queued_originators.new queued_lengths.new held_originators.new held_lengths.new queued_payloads.new held_payloads.new past.new past_originators.new past_lengths.new past_payloads.new highest.new replies.new taken.new counts.new repeats.new kept.new marks.new originators.new lengths.new payloads.new) out.old out.new }
{
    let part = part_of(call);
    match part {
        Part::Member(own) => member_on(
            own,
            head,
            queued,
            held,
            queued_originators,
            queued_lengths,
            held_originators,
            held_lengths,
            queued_payloads,
            held_payloads,
            past,
            past_originators,
            past_lengths,
            past_payloads,
            highest,
            replies,
            bytes,
            out,
        ),
        Part::Whole(own) => whole_on(
            own,
            head,
            queued,
            held,
            queued_originators,
            queued_lengths,
            held_originators,
            held_lengths,
            queued_payloads,
            held_payloads,
            past,
            past_originators,
            past_lengths,
            past_payloads,
            highest,
            replies,
            taken,
            counts,
            repeats,
            kept,
            marks,
            originators,
            lengths,
            payloads,
            bytes,
            out,
        ),
        Part::Sequencer(own) => sequencer_on(
            own,
            head,
            taken,
            counts,
            repeats,
            kept,
            marks,
            originators,
            lengths,
            payloads,
            bytes,
            out,
        ),
    }
}

// A call of the terminal whose arrays stand at i.
fn call_row(
    call: Call,
    head: Head,
    queued: &mut [[u32; Group::WAITING]],
    held: &mut [[u32; Group::HELD]],
    queued_originators: &mut [[u8; Group::WAITING]],
    queued_lengths: &mut [[u8; Group::WAITING]],
    held_originators: &mut [[u8; Group::HELD]],
    held_lengths: &mut [[u8; Group::HELD]],
    queued_payloads: &mut [[u8; Group::WAITING_BYTES]],
    held_payloads: &mut [[u8; Group::HELD_BYTES]],
    past: &mut [[u32; Group::PLACES]],
    past_originators: &mut [[u8; Group::PLACES]],
    past_lengths: &mut [[u8; Group::PLACES]],
    past_payloads: &mut [[u8; Group::HISTORY_BYTES]],
    highest: &mut [[u32; Group::MEMBERS]],
    replies: &mut [[u32; Group::MEMBERS]],
    taken: &mut [[u32; Group::MEMBERS]],
    counts: &mut [[u32; Group::MEMBERS]],
    repeats: &mut [[u32; Group::MEMBERS]],
    kept: &mut [[u32; Group::PLACES]],
    marks: &mut [[u16; Group::PLACES]],
    originators: &mut [[u8; Group::PLACES]],
    lengths: &mut [[u8; Group::PLACES]],
    payloads: &mut [[u8; Group::HISTORY_BYTES]],
    i: usize,
    bytes: &[u8],
    out: &mut [u8],
) -> Called
    requires { (i < members_most) × (flags_sound head ≡ true) × FullRows (rows_of queued.old held.old queued_originators.old queued_lengths.old held_originators.old held_lengths.old queued_payloads.old held_payloads.old past.old past_originators.old past_lengths.old past_payloads.old highest.old replies.old taken.old counts.old repeats.old kept.old marks.old originators.old lengths.old payloads.old) }
    ensures { CallsRow call i bytes.now head (rows_of queued.old held.old queued_originators.old queued_lengths.old held_originators.old held_lengths.old queued_payloads.old held_payloads.old past.old past_originators.old past_lengths.old past_payloads.old highest.old replies.old taken.old counts.old repeats.old kept.old marks.old originators.old lengths.old payloads.old) result (rows_of queued.new held.new queued_originators.new queued_lengths.new held_originators.new held_lengths.new queued_payloads.new held_payloads.new past.new past_originators.new past_lengths.new past_payloads.new highest.new replies.new taken.new counts.new repeats.new kept.new marks.new originators.new lengths.new payloads.new) out.old out.new }
{
    call_on(
        call,
        head,
        &mut queued[i],
        &mut held[i],
        &mut queued_originators[i],
        &mut queued_lengths[i],
        &mut held_originators[i],
        &mut held_lengths[i],
        &mut queued_payloads[i],
        &mut held_payloads[i],
        &mut past[i],
        &mut past_originators[i],
        &mut past_lengths[i],
        &mut past_payloads[i],
        &mut highest[i],
        &mut replies[i],
        &mut taken[i],
        &mut counts[i],
        &mut repeats[i],
        &mut kept[i],
        &mut marks[i],
        &mut originators[i],
        &mut lengths[i],
        &mut payloads[i],
        bytes,
        out,
    )
}

// A call of terminal i, if it can be called so.
fn call_at(
    call: Call,
    small: &mut [[u8; SMALL]; Group::MEMBERS],
    masks: &mut [[u16; MASKS]; Group::MEMBERS],
    numbers: &mut [[u32; NUMBERS]; Group::MEMBERS],
    queued: &mut [[u32; Group::WAITING]; Group::MEMBERS],
    held: &mut [[u32; Group::HELD]; Group::MEMBERS],
    queued_originators: &mut [[u8; Group::WAITING]; Group::MEMBERS],
    queued_lengths: &mut [[u8; Group::WAITING]; Group::MEMBERS],
    held_originators: &mut [[u8; Group::HELD]; Group::MEMBERS],
    held_lengths: &mut [[u8; Group::HELD]; Group::MEMBERS],
    queued_payloads: &mut [[u8; Group::WAITING_BYTES]; Group::MEMBERS],
    held_payloads: &mut [[u8; Group::HELD_BYTES]; Group::MEMBERS],
    past: &mut [[u32; Group::PLACES]; Group::MEMBERS],
    past_originators: &mut [[u8; Group::PLACES]; Group::MEMBERS],
    past_lengths: &mut [[u8; Group::PLACES]; Group::MEMBERS],
    past_payloads: &mut [[u8; Group::HISTORY_BYTES]; Group::MEMBERS],
    highest: &mut [[u32; Group::MEMBERS]; Group::MEMBERS],
    replies: &mut [[u32; Group::MEMBERS]; Group::MEMBERS],
    taken: &mut [[u32; Group::MEMBERS]; Group::MEMBERS],
    counts: &mut [[u32; Group::MEMBERS]; Group::MEMBERS],
    repeats: &mut [[u32; Group::MEMBERS]; Group::MEMBERS],
    kept: &mut [[u32; Group::PLACES]; Group::MEMBERS],
    marks: &mut [[u16; Group::PLACES]; Group::MEMBERS],
    originators: &mut [[u8; Group::PLACES]; Group::MEMBERS],
    lengths: &mut [[u8; Group::PLACES]; Group::MEMBERS],
    payloads: &mut [[u8; Group::HISTORY_BYTES]; Group::MEMBERS],
    i: usize,
    bytes: &[u8],
    out: &mut [u8],
) -> Called
    requires { i < members_most }
    ensures { CallsAt call i bytes.now (terminals_of small.old masks.old numbers.old (rows_of queued.old held.old queued_originators.old queued_lengths.old held_originators.old held_lengths.old queued_payloads.old held_payloads.old past.old past_originators.old past_lengths.old past_payloads.old highest.old replies.old taken.old counts.old repeats.old kept.old marks.old originators.old lengths.old payloads.old)) result (terminals_of small.new masks.new numbers.new (rows_of queued.new held.new queued_originators.new queued_lengths.new held_originators.new held_lengths.new queued_payloads.new held_payloads.new past.new past_originators.new past_lengths.new past_payloads.new highest.new replies.new taken.new counts.new repeats.new kept.new marks.new originators.new lengths.new payloads.new)) out.old out.new }
{
    let head = read_head(small, masks, numbers, i);
    if admits(call, head.sequencing == 1) {
        let called = call_row(
            call,
            head,
            queued,
            held,
            queued_originators,
            queued_lengths,
            held_originators,
            held_lengths,
            queued_payloads,
            held_payloads,
            past,
            past_originators,
            past_lengths,
            past_payloads,
            highest,
            replies,
            taken,
            counts,
            repeats,
            kept,
            marks,
            originators,
            lengths,
            payloads,
            i,
            bytes,
            out,
        );
        let next = called.head;
        write_head(small, masks, numbers, i, next);
        return called;
    }
    Called {
        head,
        reply: Reply::Absent,
        written: 0,
    }
}

// An event of terminal i: a call, if there is room and such a terminal.
pub fn act(
    call: Call,
    world: World,
    small: &mut [[u8; SMALL]; Group::MEMBERS],
    masks: &mut [[u16; MASKS]; Group::MEMBERS],
    numbers: &mut [[u32; NUMBERS]; Group::MEMBERS],
    queued: &mut [[u32; Group::WAITING]; Group::MEMBERS],
    held: &mut [[u32; Group::HELD]; Group::MEMBERS],
    queued_originators: &mut [[u8; Group::WAITING]; Group::MEMBERS],
    queued_lengths: &mut [[u8; Group::WAITING]; Group::MEMBERS],
    held_originators: &mut [[u8; Group::HELD]; Group::MEMBERS],
    held_lengths: &mut [[u8; Group::HELD]; Group::MEMBERS],
    queued_payloads: &mut [[u8; Group::WAITING_BYTES]; Group::MEMBERS],
    held_payloads: &mut [[u8; Group::HELD_BYTES]; Group::MEMBERS],
    past: &mut [[u32; Group::PLACES]; Group::MEMBERS],
    past_originators: &mut [[u8; Group::PLACES]; Group::MEMBERS],
    past_lengths: &mut [[u8; Group::PLACES]; Group::MEMBERS],
    past_payloads: &mut [[u8; Group::HISTORY_BYTES]; Group::MEMBERS],
    highest: &mut [[u32; Group::MEMBERS]; Group::MEMBERS],
    replies: &mut [[u32; Group::MEMBERS]; Group::MEMBERS],
    taken: &mut [[u32; Group::MEMBERS]; Group::MEMBERS],
    counts: &mut [[u32; Group::MEMBERS]; Group::MEMBERS],
    repeats: &mut [[u32; Group::MEMBERS]; Group::MEMBERS],
    kept: &mut [[u32; Group::PLACES]; Group::MEMBERS],
    marks: &mut [[u16; Group::PLACES]; Group::MEMBERS],
    originators: &mut [[u8; Group::PLACES]; Group::MEMBERS],
    lengths: &mut [[u8; Group::PLACES]; Group::MEMBERS],
    payloads: &mut [[u8; Group::HISTORY_BYTES]; Group::MEMBERS],
    sizes: &mut [usize; PACKETS],
    packets: &mut [[u8; Group::PACKET]; PACKETS],
    i: usize,
    bytes: &[u8],
    out: &mut [u8; Group::PACKET],
) -> Happening
    ensures { Plays (happened_at call i bytes.now) world (whole_of world small.old masks.old numbers.old queued.old held.old queued_originators.old queued_lengths.old held_originators.old held_lengths.old queued_payloads.old held_payloads.old past.old past_originators.old past_lengths.old past_payloads.old highest.old replies.old taken.old counts.old repeats.old kept.old marks.old originators.old lengths.old payloads.old sizes.old packets.old) result (whole_of result.world small.new masks.new numbers.new queued.new held.new queued_originators.new queued_lengths.new held_originators.new held_lengths.new queued_payloads.new held_payloads.new past.new past_originators.new past_lengths.new past_payloads.new highest.new replies.new taken.new counts.new repeats.new kept.new marks.new originators.new lengths.new payloads.new sizes.new packets.new) out.old out.new }
{
    if is_there(world.count, world.n, i, world.n as usize) {
        let called = call_at(
            call,
            small,
            masks,
            numbers,
            queued,
            held,
            queued_originators,
            queued_lengths,
            held_originators,
            held_lengths,
            queued_payloads,
            held_payloads,
            past,
            past_originators,
            past_lengths,
            past_payloads,
            highest,
            replies,
            taken,
            counts,
            repeats,
            kept,
            marks,
            originators,
            lengths,
            payloads,
            i,
            bytes,
            out,
        );
        let reply = called.reply;
        let size = kept_size(call, called.written);
        let copy = *out;
        let count = store(sizes, packets, world.count, size, copy);
        let next = World { n: world.n, count };
        return Happening {
            world: next,
            reply,
            written: called.written,
        };
    }
    Happening {
        world,
        reply: Reply::Absent,
        written: 0,
    }
}

// Packet k is handed to terminal i, to its member by `Receive`, to its sequencer by `Order`.
pub fn hand(
    call: Call,
    world: World,
    small: &mut [[u8; SMALL]; Group::MEMBERS],
    masks: &mut [[u16; MASKS]; Group::MEMBERS],
    numbers: &mut [[u32; NUMBERS]; Group::MEMBERS],
    queued: &mut [[u32; Group::WAITING]; Group::MEMBERS],
    held: &mut [[u32; Group::HELD]; Group::MEMBERS],
    queued_originators: &mut [[u8; Group::WAITING]; Group::MEMBERS],
    queued_lengths: &mut [[u8; Group::WAITING]; Group::MEMBERS],
    held_originators: &mut [[u8; Group::HELD]; Group::MEMBERS],
    held_lengths: &mut [[u8; Group::HELD]; Group::MEMBERS],
    queued_payloads: &mut [[u8; Group::WAITING_BYTES]; Group::MEMBERS],
    held_payloads: &mut [[u8; Group::HELD_BYTES]; Group::MEMBERS],
    past: &mut [[u32; Group::PLACES]; Group::MEMBERS],
    past_originators: &mut [[u8; Group::PLACES]; Group::MEMBERS],
    past_lengths: &mut [[u8; Group::PLACES]; Group::MEMBERS],
    past_payloads: &mut [[u8; Group::HISTORY_BYTES]; Group::MEMBERS],
    highest: &mut [[u32; Group::MEMBERS]; Group::MEMBERS],
    replies: &mut [[u32; Group::MEMBERS]; Group::MEMBERS],
    taken: &mut [[u32; Group::MEMBERS]; Group::MEMBERS],
    counts: &mut [[u32; Group::MEMBERS]; Group::MEMBERS],
    repeats: &mut [[u32; Group::MEMBERS]; Group::MEMBERS],
    kept: &mut [[u32; Group::PLACES]; Group::MEMBERS],
    marks: &mut [[u16; Group::PLACES]; Group::MEMBERS],
    originators: &mut [[u8; Group::PLACES]; Group::MEMBERS],
    lengths: &mut [[u8; Group::PLACES]; Group::MEMBERS],
    payloads: &mut [[u8; Group::HISTORY_BYTES]; Group::MEMBERS],
    sizes: &mut [usize; PACKETS],
    packets: &mut [[u8; Group::PACKET]; PACKETS],
    k: usize,
    i: usize,
    out: &mut [u8; Group::PACKET],
) -> Happening
    ensures { Plays (handed_to call k i) world (whole_of world small.old masks.old numbers.old queued.old held.old queued_originators.old queued_lengths.old held_originators.old held_lengths.old queued_payloads.old held_payloads.old past.old past_originators.old past_lengths.old past_payloads.old highest.old replies.old taken.old counts.old repeats.old kept.old marks.old originators.old lengths.old payloads.old sizes.old packets.old) result (whole_of result.world small.new masks.new numbers.new queued.new held.new queued_originators.new queued_lengths.new held_originators.new held_lengths.new queued_payloads.new held_payloads.new past.new past_originators.new past_lengths.new past_payloads.new highest.new replies.new taken.new counts.new repeats.new kept.new marks.new originators.new lengths.new payloads.new sizes.new packets.new) out.old out.new }
{
    if is_there(world.count, world.n, k, world.count) {
        let packet = packet_at(packets, k);
        let size = size_at(sizes, k);
        return act(
            call,
            world,
            small,
            masks,
            numbers,
            queued,
            held,
            queued_originators,
            queued_lengths,
            held_originators,
            held_lengths,
            queued_payloads,
            held_payloads,
            past,
            past_originators,
            past_lengths,
            past_payloads,
            highest,
            replies,
            taken,
            counts,
            repeats,
            kept,
            marks,
            originators,
            lengths,
            payloads,
            sizes,
            packets,
            i,
            &packet[..size],
            out,
        );
    }
    Happening {
        world,
        reply: Reply::Absent,
        written: 0,
    }
}

// Opens every terminal, those from n on too.
fn open_each(
    small: &mut [[u8; SMALL]; Group::MEMBERS],
    masks: &mut [[u16; MASKS]; Group::MEMBERS],
    numbers: &mut [[u32; NUMBERS]; Group::MEMBERS],
    queued: &mut [[u32; Group::WAITING]; Group::MEMBERS],
    held: &mut [[u32; Group::HELD]; Group::MEMBERS],
    queued_originators: &mut [[u8; Group::WAITING]; Group::MEMBERS],
    queued_lengths: &mut [[u8; Group::WAITING]; Group::MEMBERS],
    held_originators: &mut [[u8; Group::HELD]; Group::MEMBERS],
    held_lengths: &mut [[u8; Group::HELD]; Group::MEMBERS],
    queued_payloads: &mut [[u8; Group::WAITING_BYTES]; Group::MEMBERS],
    held_payloads: &mut [[u8; Group::HELD_BYTES]; Group::MEMBERS],
    past: &mut [[u32; Group::PLACES]; Group::MEMBERS],
    past_originators: &mut [[u8; Group::PLACES]; Group::MEMBERS],
    past_lengths: &mut [[u8; Group::PLACES]; Group::MEMBERS],
    past_payloads: &mut [[u8; Group::HISTORY_BYTES]; Group::MEMBERS],
    highest: &mut [[u32; Group::MEMBERS]; Group::MEMBERS],
    replies: &mut [[u32; Group::MEMBERS]; Group::MEMBERS],
    taken: &mut [[u32; Group::MEMBERS]; Group::MEMBERS],
    counts: &mut [[u32; Group::MEMBERS]; Group::MEMBERS],
    repeats: &mut [[u32; Group::MEMBERS]; Group::MEMBERS],
    kept: &mut [[u32; Group::PLACES]; Group::MEMBERS],
    marks: &mut [[u16; Group::PLACES]; Group::MEMBERS],
    originators: &mut [[u8; Group::PLACES]; Group::MEMBERS],
    lengths: &mut [[u8; Group::PLACES]; Group::MEMBERS],
    payloads: &mut [[u8; Group::HISTORY_BYTES]; Group::MEMBERS],
    n: u8,
    number: u32,
    resilience: u8,
    out: &mut [u8],
)
    ensures terminals { Begun n number resilience (terminals_of small.new masks.new numbers.new (rows_of queued.new held.new queued_originators.new queued_lengths.new held_originators.new held_lengths.new queued_payloads.new held_payloads.new past.new past_originators.new past_lengths.new past_payloads.new highest.new replies.new taken.new counts.new repeats.new kept.new marks.new originators.new lengths.new payloads.new)) members_most }
    ensures lent { out.new ≡ out.old }
{
    let mut i: u8 = 0;
    while i < 16 {
        let opened = call_at(
            Call::Open {
                n,
                number,
                resilience,
                i,
            },
            small,
            masks,
            numbers,
            queued,
            held,
            queued_originators,
            queued_lengths,
            held_originators,
            held_lengths,
            queued_payloads,
            held_payloads,
            past,
            past_originators,
            past_lengths,
            past_payloads,
            highest,
            replies,
            taken,
            counts,
            repeats,
            kept,
            marks,
            originators,
            lengths,
            payloads,
            i as usize,
            &[],
            out,
        );
        i += 1;
    }
}

// Opens a group: questions 18 and 24.
pub fn open(
    small: &mut [[u8; SMALL]; Group::MEMBERS],
    masks: &mut [[u16; MASKS]; Group::MEMBERS],
    numbers: &mut [[u32; NUMBERS]; Group::MEMBERS],
    queued: &mut [[u32; Group::WAITING]; Group::MEMBERS],
    held: &mut [[u32; Group::HELD]; Group::MEMBERS],
    queued_originators: &mut [[u8; Group::WAITING]; Group::MEMBERS],
    queued_lengths: &mut [[u8; Group::WAITING]; Group::MEMBERS],
    held_originators: &mut [[u8; Group::HELD]; Group::MEMBERS],
    held_lengths: &mut [[u8; Group::HELD]; Group::MEMBERS],
    queued_payloads: &mut [[u8; Group::WAITING_BYTES]; Group::MEMBERS],
    held_payloads: &mut [[u8; Group::HELD_BYTES]; Group::MEMBERS],
    past: &mut [[u32; Group::PLACES]; Group::MEMBERS],
    past_originators: &mut [[u8; Group::PLACES]; Group::MEMBERS],
    past_lengths: &mut [[u8; Group::PLACES]; Group::MEMBERS],
    past_payloads: &mut [[u8; Group::HISTORY_BYTES]; Group::MEMBERS],
    highest: &mut [[u32; Group::MEMBERS]; Group::MEMBERS],
    replies: &mut [[u32; Group::MEMBERS]; Group::MEMBERS],
    taken: &mut [[u32; Group::MEMBERS]; Group::MEMBERS],
    counts: &mut [[u32; Group::MEMBERS]; Group::MEMBERS],
    repeats: &mut [[u32; Group::MEMBERS]; Group::MEMBERS],
    kept: &mut [[u32; Group::PLACES]; Group::MEMBERS],
    marks: &mut [[u16; Group::PLACES]; Group::MEMBERS],
    originators: &mut [[u8; Group::PLACES]; Group::MEMBERS],
    lengths: &mut [[u8; Group::PLACES]; Group::MEMBERS],
    payloads: &mut [[u8; Group::HISTORY_BYTES]; Group::MEMBERS],
    sizes: &mut [usize; PACKETS],
    packets: &mut [[u8; Group::PACKET]; PACKETS],
    n: u8,
    number: u32,
    resilience: u8,
) -> Opened
    ensures { Opens n number resilience result.verdict result.world (whole_of result.world small.new masks.new numbers.new queued.new held.new queued_originators.new queued_lengths.new held_originators.new held_lengths.new queued_payloads.new held_payloads.new past.new past_originators.new past_lengths.new past_payloads.new highest.new replies.new taken.new counts.new repeats.new kept.new marks.new originators.new lengths.new payloads.new sizes.new packets.new) }
{
    let mut none = [0u8; 1];
    open_each(
        small,
        masks,
        numbers,
        queued,
        held,
        queued_originators,
        queued_lengths,
        held_originators,
        held_lengths,
        queued_payloads,
        held_payloads,
        past,
        past_originators,
        past_lengths,
        past_payloads,
        highest,
        replies,
        taken,
        counts,
        repeats,
        kept,
        marks,
        originators,
        lengths,
        payloads,
        n,
        number,
        resilience,
        &mut none,
    );
    let verdict = verdict_of(n, number, resilience);
    let most = opened_with(verdict, n);
    let world = World { n: most, count: 0 };
    Opened { world, verdict }
}
