// The state as the code holds it: plain numbers throughout, so that a host can keep it as it is. The participants stand at the first `count`
// places of the columns, by ascending index. An absent tag is `ABSENT`, which no proper tag is; an absent number is 0 with its flag false.
// Every function refuses nothing; a place beyond the columns is the caller's to exclude.
#![tactic(auto)]

ghost use Rattle.std.specs.Prelude.{◌≡◌, ◌<◌};
ghost use Rattle.state.specs.Decides.{notice_of};
ghost use Rattle.state.specs.Cells.{absent, is_absent, cell_of, optional_of};
ghost use Rattle.state.specs.Parts.{without_pending};
ghost use Rattle.state.specs.View.{tag_at};

use tags::Tag;

// The candidate of the participant at place i stands at i in the columns of tags, its completed tag at COMPLETED + i, its started tag at STARTED + i.
pub const COMPLETED: usize = 32;

pub const STARTED: usize = 64;

// Kept: here and below, numbers for phases, policies and observations, a flag beside its number, marks of absent tags and parallel columns with a count
// beside: it is how the C interface and the host lay the state out.
// Revision, phase, idle authorization and pending publication.
#[repr(C)]
#[derive(Clone, Copy, PartialEq, Eq)]
pub struct Coordination {
    pub phase: u8,
    pub authorized: bool,
    pub pending: bool,
    pub revision: u64,
    pub idle_authorization: u64,
    pub pending_revision: u64,
    pub pending_next_event: Tag,
    pub pending_grant_horizon: Tag,
}

// Frontier, pending pair of network inputs, generation and probe of completion.
#[repr(C)]
#[derive(Clone, Copy, PartialEq, Eq)]
pub struct Completion {
    pub completed_frontier: Tag,
    pub first_input: Tag,
    pub last_input: Tag,
    pub completion_generation: u64,
    pub completion_probe: Tag,
}

// Input horizon, stored acquisition, and the tag granted to every participant: an acquisition grants one tag to all, an input notice drops it for all.
#[repr(C)]
#[derive(Clone, Copy, PartialEq, Eq)]
pub struct Gate {
    pub input_horizon: Tag,
    pub stored_revision: u64,
    pub stored_granted: Tag,
    pub granted: Tag,
}

#[repr(C)]
#[derive(Clone, Copy, PartialEq, Eq)]
pub struct FederateCoordinationState {
    pub count: usize,
    pub enclaves: [u32; 32],
    pub published: [bool; 32],
    // 0 none, else the observation's number and one more.
    pub observation: [u8; 32],
    // Whether `completion_observed` is present.
    pub acknowledged: [bool; 32],
    pub completion_observed: [u64; 32],
    pub seconds: [i64; 96],
    pub nanoseconds: [i32; 96],
    pub microsteps: [u64; 96],
    pub coordination: Coordination,
    pub completion: Completion,
    pub gate: Gate,
    pub grant_horizon: Tag,
    // Whether `first_failure` is present.
    pub failed: bool,
    pub lifecycle: u8,
    pub first_failure: u32,
}

impl FederateCoordinationState {
    // The cell at a place of the columns of tags.
    pub fn tag_at(&self, at: usize) -> Tag
        requires { at < 96 }
        ensures { result ≡ tag_at self.now at }
    {
        Tag {
            seconds: self.seconds[at],
            nanoseconds: self.nanoseconds[at],
            microstep: self.microsteps[at],
        }
    }
}

// The cells of one participant that a scheduler message can change. Kept, here and in Parts: as the state holds them, since they are copied from it and back.
#[derive(Clone, Copy)]
pub struct Row {
    pub published: bool,
    pub candidate: Tag,
    pub completed: Tag,
    pub acknowledged: bool,
    pub completion_observed: u64,
}

// What a scheduler message's own rule can change, the observations and the stored acquisition aside.
#[derive(Clone, Copy)]
pub struct Parts {
    pub row: Row,
    pub coordination: Coordination,
    pub completion: Completion,
    pub failed: bool,
    pub first_failure: u32,
}

// An action without a tag (document 01, "Actions", kinds 6 to 11); its enclave and its revision are those of the call.
#[derive(Clone, Copy)]
pub enum Notice {
    Probe,
    Park,
    Recheck,
    Resume,
    Stop,
    Abort,
}

// The notice of this kind number, as the records of actions have it; none of a number that no kind without a tag has.
// Kept: a number, since a caller may hold one of any kind, and nothing may be asked of it.
pub fn notice_of(kind: u8) -> Option<Notice>
    ensures { result ≡ notice_of kind }
{
    match kind {
        6 => Some(Notice::Probe),
        7 => Some(Notice::Park),
        8 => Some(Notice::Recheck),
        9 => Some(Notice::Resume),
        10 => Some(Notice::Stop),
        11 => Some(Notice::Abort),
        _ => None,
    }
}

// How a scheduler message's own rule goes on once its parts are stored.
#[derive(Clone, Copy)]
pub enum Next {
    // It says this action, if any.
    Says(Option<Notice>),
    // It publishes if all participants now are, and resumes if told so.
    Announces(bool),
    // It completes the least completed tag if that passes the frontier.
    Completes,
}

// The first half of a scheduler message's own rule.
#[derive(Clone, Copy)]
pub struct Decided {
    pub parts: Parts,
    // Whether all observations are cleared.
    pub forgets: bool,
    pub next: Next,
}

// The mark of an absent tag, below every proper tag.
pub const ABSENT: Tag = Tag {
    seconds: -9223372036854775808,
    nanoseconds: -2147483648,
    microstep: 0,
};

pub fn absent() -> Tag
    ensures { result ≡ absent }
{
    ABSENT
}

// The cell of a tag that may be absent.
// Kept: a function, as `optional_of` is. Neither Tag nor Option is of this crate, so that no `From` can stand here.
pub fn cell_of(tag: Option<Tag>) -> Tag
    ensures { result ≡ cell_of tag }
{
    tag.unwrap_or(ABSENT)
}

// The tag that a cell holds, if any.
pub fn optional_of(cell: Tag) -> Option<Tag>
    ensures { result ≡ optional_of cell }
{
    if is_absent(cell) { None } else { Some(cell) }
}

pub fn is_absent(cell: Tag) -> bool
    ensures { result ≡ is_absent cell }
{
    cell.nanoseconds < -999999999
}

// In this phase, with no publication pending.
pub fn without_pending(c: Coordination, phase: u8) -> Coordination
    ensures { result ≡ without_pending phase c }
{
    Coordination {
        phase,
        pending: false,
        pending_revision: 0,
        pending_next_event: ABSENT,
        pending_grant_horizon: ABSENT,
        ..c
    }
}
