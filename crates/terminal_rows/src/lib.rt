// A terminal's head in rows of numbers, and the small steps of the world with resets that can be run: its calls by the parts of a terminal
// that they are lent, what is stored of them, and its opening.
#![tactic(auto)]

ghost use Rattle.std.specs.Prelude.{◌≡◌, ◌<◌, [], length, get_or, set};
ghost use Rattle.group.specs.Choice.{when◌then◌else◌, ◌=?◌};
ghost use Rattle.sequencer.specs.Calls.{fresh_of};
ghost use Rattle.simulator.specs.Steps.{fitting_of};
ghost use Rattle.terminal_rows.specs.Heads.{flag_of, head_in, small_of, masks_of, numbers_of};
ghost use Rattle.terminal_rows.specs.Steps.{kept_size, admits_of, of_part, opened_with};

use group::{Group, MemberNumber, Refusal, SequenceNumber};
use recovery::Head;

// The numbers of a terminal's head, by their width: of one byte n, the resilience degree and the elected one of both ends, the member's
// number and the four flags; of two survivors of both ends and the repliers; of four the rest.
pub const SMALL: usize = 11;

pub const MASKS: usize = 3;

pub const NUMBERS: usize = 13;

// A flag is set if it is 1.
#[tactic(auto, using(group::proofs::Choice::choices), unfolding(crate::specs::Heads::flag_of))]
fn flag(stored: u8) -> u8
    ensures { result ≡ flag_of stored }
{
    (stored == 1) as u8
}

// The head of the terminal whose rows these are.
pub fn head_of(small: [u8; SMALL], masks: [u16; MASKS], numbers: [u32; NUMBERS]) -> Head
    ensures { result ≡ head_in small masks numbers }
{
    let member = member::Head {
        group: Group {
            n: small[0],
            resilience: small[1],
            survivors: masks[0],
            elected: MemberNumber(small[2]),
            number: numbers[0],
        },
        number: MemberNumber(small[3]),
        taken: SequenceNumber(numbers[1]),
        accepted: SequenceNumber(numbers[2]),
        submitted: numbers[3],
        waiting: numbers[4],
    };
    let sequencer = sequencer::Head {
        group: Group {
            n: small[4],
            resilience: small[5],
            survivors: masks[1],
            elected: MemberNumber(small[6]),
            number: numbers[5],
        },
        top: SequenceNumber(numbers[6]),
        accepted: SequenceNumber(numbers[7]),
        floor: SequenceNumber(numbers[8]),
    };
    Head {
        member,
        sequencer,
        read: SequenceNumber(numbers[9]),
        attempt: numbers[10],
        number: SequenceNumber(numbers[11]),
        invited: numbers[12],
        repliers: masks[2],
        replied: flag(small[7]),
        inviting: flag(small[8]),
        sequencing: flag(small[9]),
        frozen: flag(small[10]),
    }
}

// The rows of a head.
fn small_of(head: Head) -> [u8; SMALL]
    ensures { result ≡ small_of head }
{
    [
        head.member.group.n,
        head.member.group.resilience,
        head.member.group.elected.0,
        head.member.number.0,
        head.sequencer.group.n,
        head.sequencer.group.resilience,
        head.sequencer.group.elected.0,
        head.replied,
        head.inviting,
        head.sequencing,
        head.frozen,
    ]
}

fn masks_of(head: Head) -> [u16; MASKS]
    ensures { result ≡ masks_of head }
{
    [
        head.member.group.survivors,
        head.sequencer.group.survivors,
        head.repliers,
    ]
}

fn numbers_of(head: Head) -> [u32; NUMBERS]
    ensures { result ≡ numbers_of head }
{
    [
        head.member.group.number,
        head.member.taken.0,
        head.member.accepted.0,
        head.member.submitted,
        head.member.waiting,
        head.sequencer.group.number,
        head.sequencer.top.0,
        head.sequencer.accepted.0,
        head.sequencer.floor.0,
        head.read.0,
        head.attempt,
        head.number.0,
        head.invited,
    ]
}

// Terminal i's head, and another in its place.
pub fn read_head(
    small: &[[u8; SMALL]],
    masks: &[[u16; MASKS]],
    numbers: &[[u32; NUMBERS]],
    i: usize,
) -> Head
    requires { (i < length small.now) × (i < length masks.now) × (i < length numbers.now) }
    ensures { result ≡ head_in (get_or small.now i []) (get_or masks.now i []) (get_or numbers.now i []) }
{
    head_of(small[i], masks[i], numbers[i])
}

pub fn write_head(
    small: &mut [[u8; SMALL]],
    masks: &mut [[u16; MASKS]],
    numbers: &mut [[u32; NUMBERS]],
    i: usize,
    head: Head,
)
    requires { (i < length small.old) × (i < length masks.old) × (i < length numbers.old) }
    ensures { (small.new ≡ set small.old i (small_of head)) × (masks.new ≡ set masks.old i (masks_of head)) × (numbers.new ≡ set numbers.old i (numbers_of head)) }
{
    small[i] = small_of(head);
    masks[i] = masks_of(head);
    numbers[i] = numbers_of(head);
}

// The calls of a terminal: its member's, inviting and making, its sequencer's, and its opening as terminal i of a group. A submission and a
// packet come with bytes.
#[derive(Clone, Copy, Debug, PartialEq, Eq)]
pub enum Call {
    Submit,
    Repeat,
    Take,
    Status,
    Receive,
    Invite(u32),
    Make(u32),
    Order,
    Poll,
    Copy(SequenceNumber),
    Open {
        n: u8,
        number: u32,
        resilience: u8,
        i: u8,
    },
}

// The same by the parts of a terminal that they are lent: its member's, all of it, its sequencer's.
#[derive(Clone, Copy, Debug, PartialEq, Eq)]
pub enum MemberCall {
    Submit,
    Repeat,
    Take,
    Status,
}

#[derive(Clone, Copy, Debug, PartialEq, Eq)]
pub enum WholeCall {
    Receive,
    Invite(u32),
    Make(u32),
    Open {
        n: u8,
        number: u32,
        resilience: u8,
        i: u8,
    },
}

#[derive(Clone, Copy, Debug, PartialEq, Eq)]
pub enum SequencerCall {
    Order,
    Poll,
    Copy(SequenceNumber),
}

#[derive(Clone, Copy, Debug, PartialEq, Eq)]
pub enum Part {
    Member(MemberCall),
    Whole(WholeCall),
    Sequencer(SequencerCall),
}

// The parts that a call is lent.
#[tactic(auto, unfolding(crate::specs::Steps::of_part, crate::specs::Steps::of_member, crate::specs::Steps::of_whole, crate::specs::Steps::of_sequencer))]
pub fn part_of(call: Call) -> Part
    ensures { of_part result ≡ call }
{
    match call {
        Call::Submit => Part::Member(MemberCall::Submit),
        Call::Repeat => Part::Member(MemberCall::Repeat),
        Call::Take => Part::Member(MemberCall::Take),
        Call::Status => Part::Member(MemberCall::Status),
        Call::Receive => Part::Whole(WholeCall::Receive),
        Call::Invite(number) => Part::Whole(WholeCall::Invite(number)),
        Call::Make(demand) => Part::Whole(WholeCall::Make(demand)),
        Call::Order => Part::Sequencer(SequencerCall::Order),
        Call::Poll => Part::Sequencer(SequencerCall::Poll),
        Call::Copy(number) => Part::Sequencer(SequencerCall::Copy(number)),
        Call::Open {
            n,
            number,
            resilience,
            i,
        } => Part::Whole(WholeCall::Open {
            n,
            number,
            resilience,
            i,
        }),
    }
}

// The length of the packet that a call wrote. A take writes a payload, and no packet.
#[tactic(auto, unfolding(crate::specs::Steps::kept_size))]
pub fn kept_size(call: Call, written: usize) -> usize
    ensures { result ≡ kept_size call written }
{
    match call {
        Call::Take => 0,
        _ => written,
    }
}

// Whether a terminal can be called so: its sequencer's calls need one.
#[tactic(auto, unfolding(crate::specs::Steps::admits_of))]
pub fn admits(call: Call, sequencing: bool) -> bool
    ensures { result ≡ admits_of call sequencing }
{
    match call {
        Call::Order | Call::Poll | Call::Copy(_) => sequencing,
        _ => true,
    }
}

// How many members the sequencer of terminal i is opened with: that of terminal 0 has the group's, and the others have none.
#[tactic(auto, using(group::proofs::Choice::choices))]
pub fn served(n: u8, i: u8) -> u8
    ensures { result ≡ (when i =? 0 then n else 0) }
{
    if i == 0 { n } else { 0 }
}

// The array of packet k, and how many of its bytes are the packet.
pub fn packet_at(packets: &[[u8; Group::PACKET]], k: usize) -> [u8; Group::PACKET]
    requires { k < length packets.now }
    ensures { result ≡ get_or packets.now k [] }
{
    packets[k]
}

pub fn size_at(sizes: &[usize], k: usize) -> usize
    requires { k < length sizes.now }
    ensures { result ≡ fitting_of (get_or sizes.now k 0) }
{
    simulator::fitting(sizes[k])
}

// Whether a group can be opened: questions 18 and 24.
#[tactic(auto, unfolding(sequencer::specs::Calls::fresh_of, sequencer::specs::Calls::opened_of))]
pub fn verdict_of(n: u8, number: u32, resilience: u8) -> Result<(), Refusal>
    ensures { result ≡ (fresh_of n number resilience).verdict }
{
    Group::fresh(n, number, resilience)?;
    Ok(())
}

// How many terminals there are where that is answered.
#[tactic(auto, unfolding(crate::specs::Steps::opened_with))]
pub fn opened_with(verdict: Result<(), Refusal>, n: u8) -> u8
    ensures { result ≡ opened_with verdict n }
{
    match verdict {
        Ok(()) => n,
        Err(_) => 0,
    }
}
