// The group's own description: its limits, its two kinds of number, and what may be refused.
#![tactic(auto)]

ghost use Rattle.std.specs.Prelude.{◌≡◌, ◌≤◌, ◌<◌};
ghost use Rattle.group.specs.Limits.{members_most, places_most, payload_most, held_most, waiting_most, header_size, longest_packet, largest_number, jobs_most, job_most};
ghost use Rattle.group.specs.Refusal.{number_of};
ghost use Rattle.group.specs.Opening.{open_of};
ghost use Rattle.group.specs.Members.{only_of, is_in, is_within, lowest_of, all_of, others_of, expected_of, needed_of, group_sound};
ghost use Rattle.group.specs.Wording.{opened_wording};

// A sequence number: the place of a message in the order, from 1. 0 means none yet.
// kept: packets and the C interface's structs say none by 0.
#[repr(C)]
#[derive(Clone, Copy, Debug, Default, PartialEq, Eq, PartialOrd, Ord)]
pub struct SequenceNumber(pub u32);

// A member number: from 0, below the group's n.
#[repr(C)]
#[derive(Clone, Copy, Debug, Default, PartialEq, Eq, PartialOrd, Ord)]
pub struct MemberNumber(pub u8);

// What document 01's 18 questions refuse, in their order, and what document 02 adds.
#[derive(Clone, Copy, Debug, PartialEq, Eq)]
pub enum Refusal {
    UnsoundState = 1,
    ShortOutput = 2,
    PacketSize = 3,
    UnknownKind = 4,
    PayloadLength = 5,
    ForbiddenFields = 6,
    OtherGroup = 7,
    OtherEnd = 8,
    UnknownMember = 9,
    AcknowledgedAhead = 10,
    CountAhead = 11,
    WantedAhead = 12,
    LongPayload = 13,
    AlreadyWaiting = 14,
    NothingWaiting = 15,
    NumbersUsedUp = 16,
    NotInHistory = 17,
    Opening = 18,
    NotForList = 19,
    ListFull = 20,
    WrongJournal = 21,
    ManyUnits = 22,
    NoRoom = 23,
    Resilience = 24,
    NotExpected = 25,
    FewSurvivors = 26,
    NotOfAttempt = 27,
}

impl Refusal {
    // The number of the question that said no, or document 02's.
    pub fn number(self) -> u8
        ensures { result ≡ number_of self }
    {
        self as u8
    }
}

// A group of n members under its number, how many members other than the sequencer's must have a message before it is taken, its survivors,
// one bit a member, and the elected one: the member whose terminal has the sequencer.
#[repr(C)]
#[derive(Clone, Copy, Debug, Default, PartialEq, Eq)]
pub struct Group {
    pub n: u8,
    pub resilience: u8,
    pub survivors: u16,
    pub elected: MemberNumber,
    pub number: u32,
}

impl Group {
    // The most members that a group has.
    pub const MEMBERS: usize = 16;

    // The places of the sequencer's history.
    pub const PLACES: usize = 32;

    // The bytes of those places' payloads, side by side.
    pub const HISTORY_BYTES: usize = Group::PLACES * Group::PAYLOAD;

    // The most bytes of a payload.
    pub const PAYLOAD: usize = 240;

    // The places of a member for what it has not taken yet.
    pub const HELD: usize = 8;

    // The bytes of those places' payloads, side by side.
    pub const HELD_BYTES: usize = Group::HELD * Group::PAYLOAD;

    // The most messages of a member that wait.
    pub const WAITING: usize = 5;

    // The bytes of their payloads, side by side.
    pub const WAITING_BYTES: usize = Group::WAITING * Group::PAYLOAD;

    // The bytes of a packet before its payload.
    pub const HEADER: usize = 20;

    // The bytes of the longest packet, which every lent output has room for.
    pub const PACKET: usize = Group::HEADER + Group::PAYLOAD;

    // The largest number of any kind.
    pub const LARGEST: u32 = u32::MAX;

    // The records of a work list.
    pub const JOBS: usize = 64;

    // The most bytes of a job: the payload that adds it has one byte before them.
    pub const JOB: usize = Group::PAYLOAD - 1;

    // Question 18 of a group: is n 1 to 16? Then 24: is the resilience degree below n?
    #[tactic(auto, using(crate::proofs::Choice::choices), unfolding(crate::specs::Opening::open_of))]
    pub fn fresh(n: u8, number: u32, resilience: u8) -> Result<Group, Refusal>
        ensures answer { result ≡ open_of n number resilience }
        ensures wording { opened_wording result ≡ opened_wording (open_of n number resilience) }
    {
        if n < 1 || Group::MEMBERS < (n as usize) {
            return Err(Refusal::Opening);
        }
        if n <= resilience {
            return Err(Refusal::Resilience);
        }
        Ok(Group {
            n,
            resilience,
            survivors: all_of(n),
            elected: MemberNumber(0),
            number,
        })
    }

    // Is the description sound: n 1 to 16, r below n, the survivors members, and the elected one of them?
    #[tactic(auto, using(crate::proofs::Choice::choices), unfolding(crate::specs::Members::group_sound))]
    pub fn sound(self) -> bool
        ensures { result ≡ group_sound self }
    {
        1 <= self.n
            && (self.n as usize) <= Group::MEMBERS
            && self.resilience < self.n
            && is_within(self.survivors, all_of(self.n))
            && is_in(self.survivors, self.elected)
    }

    // The survivors other than the elected one, one bit a member.
    #[tactic(auto, unfolding(crate::specs::Members::others_of))]
    pub fn others(self) -> u16
        ensures { result ≡ others_of self }
    {
        if (self.elected.0 as usize) < Group::MEMBERS {
            self.survivors.saturating_sub(only(self.elected))
        } else {
            0
        }
    }

    // The members that are expected to confirm an offer, one bit a member.
    #[tactic(auto, unfolding(crate::specs::Members::expected_of))]
    pub fn expected(self) -> u16
        ensures { result ≡ expected_of self }
    {
        lowest_of(self.resilience, self.others())
    }

    // How many confirmations a message needs.
    #[tactic(auto, unfolding(crate::specs::Members::needed_of))]
    pub fn needed(self) -> u32
        ensures { result ≡ needed_of self }
    {
        self.expected().count_ones()
    }

    // Is the member expected to confirm an offer?
    pub fn expects(self, member: MemberNumber) -> bool
        ensures { result ≡ is_in (expected_of self) member.0 }
    {
        is_in(self.expected(), member)
    }
}

// All of n members.
fn all_of(n: u8) -> u16
    requires { n ≤ members_most }
    ensures { result ≡ all_of n }
{
    ((1u32 << n) - 1) as u16
}

// The k lowest members of a mask; all of them where it has fewer.
fn lowest_of(k: u8, mask: u16) -> u16
    ensures { result ≡ lowest_of k mask }
{
    let mut found = 0;
    let mut rest = mask;
    for _ in 0..k {
        if rest == 0 {
            break;
        }
        found |= 1u16 << rest.trailing_zeros();
        rest &= rest - 1;
    }
    found
}

// The mask of one member.
pub fn only(member: MemberNumber) -> u16
    requires { member.0 < members_most }
    ensures { result ≡ only_of member }
{
    1 << member.0
}

// Is the member in the mask?
#[tactic(auto, using(crate::proofs::Members::in_beyond))]
pub fn is_in(mask: u16, member: MemberNumber) -> bool
    ensures { result ≡ is_in mask member.0 }
{
    (member.0 as usize) < Group::MEMBERS && (mask >> member.0) % 2 == 1
}

// Is every member of the mask in the other?
pub fn is_within(mask: u16, other: u16) -> bool
    ensures { result ≡ is_within mask other }
{
    mask & other == mask
}

// The limits of specs/ are these constants.
fn limits()
    ensures members { Group.MEMBERS ≡ members_most }
    ensures places { Group.PLACES ≡ places_most }
    ensures payload { Group.PAYLOAD ≡ payload_most }
    ensures held { Group.HELD ≡ held_most }
    ensures waiting { Group.WAITING ≡ waiting_most }
    ensures header { Group.HEADER ≡ header_size }
    ensures packet { Group.PACKET ≡ longest_packet }
    ensures number { Group.LARGEST ≡ largest_number }
    ensures jobs { Group.JOBS ≡ jobs_most }
    ensures job { Group.JOB ≡ job_most }
{}
