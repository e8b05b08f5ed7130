// A work list: up to 64 jobs, oldest first, each waiting or given to a member. It is lent to each feed.
#![tactic(auto)]

ghost use Rattle.std.specs.Prelude.{◌≡◌, ◌≤◌, ◌<◌, length, get_or, IfSome, IsNone, Ok};
ghost use Rattle.group.specs.Limits.{jobs_most, job_most};
ghost use Rattle.message.specs.Message.{all_zero};
ghost use Rattle.jobs.specs.Job.{unused_state, no_job, no_jobs, waiting_job, is_of, place_of};
ghost use Rattle.jobs.specs.Sound.{holder_sound, job_sound, place_sound, record_sound, sound_of};
ghost use Rattle.jobs.specs.Feed.{is_add, is_fetch, for_list, add_of, finish_of, give_of, feed_of};
ghost use Rattle.jobs.specs.Wording.{wording_of};

use group::{Group, MemberNumber, Refusal};

// A record of the list: it is unused, or its job waits, or it is given to a member.
#[repr(C)]
#[derive(Clone, Copy)]
pub struct Job {
    // kept: a number, since the C interface lends any byte here; a list with another one is refused.
    pub state: u8,
    pub member: MemberNumber,
    pub length: usize,
    pub bytes: [u8; Group::JOB],
}

// What a feed that is accepted answers; a fetch is given the job at a place of the list.
#[derive(Clone, Copy)]
pub enum Answer {
    Added,
    Given(usize),
    None,
}

// The last place of a list.
const LAST: usize = Group::JOBS - 1;

// What a feed comes to: the records after it, and its answer.
#[derive(Clone, Copy)]
pub struct Outcome {
    pub jobs: [Job; Group::JOBS],
    pub answer: Result<Answer, Refusal>,
}

impl Job {
    // The states of a record.
    pub const UNUSED: u8 = 0;

    pub const WAITING: u8 = 1;

    pub const GIVEN: u8 = 2;

    // A record that is not used: all of it is zero.
    pub fn empty() -> Self
        ensures { result ≡ no_job }
    {
        Job {
            state: Job::UNUSED,
            member: MemberNumber(0),
            length: 0,
            bytes: [0; Group::JOB],
        }
    }

    // A job that waits.
    fn waiting(job: &[u8]) -> Self
        requires { length job.now ≤ job_most }
        ensures { result ≡ waiting_job job.now }
    {
        let mut bytes = [0; Group::JOB];
        message::copy(job, &mut bytes);
        Job {
            state: Job::WAITING,
            member: MemberNumber(0),
            length: job.len(),
            bytes,
        }
    }

    // Whether it has that state and member.
    fn is(&self, state: u8, member: u8) -> bool
        ensures { result ≡ is_of state member self.now }
    {
        self.state == state && self.member.0 == member
    }

    // Whether its state and its member are sound, and an unused one's length.
    fn holder_sound(&self) -> bool
        ensures { result ≡ holder_sound self.now }
    {
        match self.state {
            Job::UNUSED => self.member.0 == 0 && self.length == 0,
            Job::WAITING => self.member.0 == 0,
            Job::GIVEN => (self.member.0 as usize) < Group::MEMBERS,
            _ => false,
        }
    }

    // Whether it is sound by itself.
    fn sound(&self) -> bool
        ensures { result ≡ job_sound self.now }
    {
        self.holder_sound()
            && self.length <= Group::JOB
            && message::zeros(&self.bytes[self.length..])
    }
}

// The place of the first record with that state and member.
fn find(jobs: &[Job], state: u8, member: u8) -> Option<usize>
    ensures some { IfSome result (λ place. (place ≡ place_of state member jobs.now) × (place < length jobs.now)) }
    ensures none { IsNone result → place_of state member jobs.now ≡ length jobs.now }
{
    jobs.iter().position(|job| job.is(state, member))
}

// Whether a record is sound where it stands; `used` is the place of the first unused one.
fn place_sound(jobs: &[Job], used: usize, place: usize, job: &Job) -> bool
    requires { used ≡ place_of unused_state 0 jobs.now }
    ensures { result ≡ place_sound jobs.now place job.now }
{
    if job.state == Job::UNUSED {
        return true;
    }
    place < used && (job.state != Job::GIVEN || find(jobs, Job::GIVEN, job.member.0) == Some(place))
}

fn record_sound(jobs: &[Job], used: usize, place: usize, job: &Job) -> bool
    requires { used ≡ place_of unused_state 0 jobs.now }
    ensures { result ≡ record_sound jobs.now place job.now }
{
    job.sound() && place_sound(jobs, used, place, job)
}

// Question 1.
fn sound(jobs: &[Job]) -> bool
    ensures { result ≡ sound_of jobs.now }
{
    if jobs.len() != Group::JOBS {
        return false;
    }
    let used = find(jobs, Job::UNUSED, 0).unwrap_or(Group::JOBS);
    for (place, job) in jobs.iter().enumerate() {
        if !record_sound(jobs, used, place, job) {
            return false;
        }
    }
    true
}

// An add: question 20, then the job waits in the first unused record.
fn add(jobs: &mut [Job], job: &[u8]) -> Result<Answer, Refusal>
    requires list { length jobs.old ≡ jobs_most }
    requires job { length job.now ≤ job_most }
    ensures { record { jobs = jobs.new; answer = result } ≡ add_of jobs.old job.now }
{
    let Some(place) = find(jobs, Job::UNUSED, 0) else {
        return Err(Refusal::ListFull);
    };
    jobs[place] = Job::waiting(job);
    Ok(Answer::Added)
}

// The member's earlier job is finished, and the records behind it move down by one.
fn finish(jobs: &mut [Job], member: MemberNumber)
    requires { length jobs.old ≡ jobs_most }
    ensures { jobs.new ≡ finish_of jobs.old member }
{
    if let Some(place) = find(jobs, Job::GIVEN, member.0) {
        // kept: a loop by index, since `copy_within` calls `memmove`, which C without a library need not have.
        for i in place..LAST {
            jobs[i] = jobs[i + 1];
        }
        jobs[LAST] = Job::empty();
    }
}

// The oldest job that waits is given to the member.
fn give(jobs: &mut [Job], member: MemberNumber) -> Answer
    requires { length jobs.old ≡ jobs_most }
    ensures { record { jobs = jobs.new; answer = Ok result } ≡ give_of jobs.old member }
{
    let Some(place) = find(jobs, Job::WAITING, 0) else {
        return Answer::None;
    };
    let job = &mut jobs[place];
    job.state = Job::GIVEN;
    job.member = member;
    Answer::Given(place)
}

// Whether a payload adds a job.
fn is_add(payload: &[u8]) -> bool
    ensures { result ≡ is_add payload.now }
{
    payload.len() >= 1 && payload[0] == 1
}

// Whether it fetches one.
fn is_fetch(payload: &[u8]) -> bool
    ensures { result ≡ is_fetch payload.now }
{
    payload.len() == 1 && payload[0] == 2
}

// Question 19.
fn for_list(member: MemberNumber, payload: &[u8]) -> bool
    ensures { result ≡ for_list member payload.now }
{
    (member.0 as usize) < Group::MEMBERS
        && payload.len() <= Group::PAYLOAD
        && (is_add(payload) || is_fetch(payload))
}

// An empty list.
pub fn no_jobs() -> [Job; Group::JOBS]
    ensures { result ≡ no_jobs }
{
    [Job::empty(); Group::JOBS]
}

// The record at a place of a list that is lent; past its end an unused one.
pub fn read(jobs: &[Job], place: usize) -> Job
    ensures { result ≡ get_or jobs.now place no_job }
{
    match jobs.get(place) {
        Some(job) => *job,
        None => Job::empty(),
    }
}

// Feeds a list that is lent what was taken: the message's originator and its payload.
pub fn feed(jobs: &mut [Job], member: MemberNumber, payload: &[u8]) -> Result<Answer, Refusal>
    ensures answer { result ≡ (feed_of jobs.old member payload.now).answer }
    ensures lent { jobs.new ≡ (feed_of jobs.old member payload.now).jobs }
    ensures wording { wording_of result ≡ wording_of (feed_of jobs.old member payload.now).answer }
{
    if !sound(jobs) {
        return Err(Refusal::UnsoundState);
    }
    if !for_list(member, payload) {
        return Err(Refusal::NotForList);
    }
    if is_fetch(payload) {
        finish(jobs, member);
        return Ok(give(jobs, member));
    }
    add(jobs, &payload[1..])
}

// The same of a list that is held by value: it is lent to `feed`.
pub fn feed_array(mut jobs: [Job; Group::JOBS], member: MemberNumber, payload: &[u8]) -> Outcome
    ensures answer { result ≡ feed_of jobs member payload.now }
    ensures wording { wording_of result.answer ≡ wording_of (feed_of jobs member payload.now).answer }
{
    let answer = feed(&mut jobs, member, payload);
    Outcome { jobs, answer }
}
