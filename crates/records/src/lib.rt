// Records (backend.rs, and the enums and messages of state.rs): what goes in and out of the coordination state, and the
// numbers that document 01 gives to their kinds. Every function is total and refuses nothing.
#![tactic(auto)]

ghost use Rattle.std.specs.Prelude.{◌≡◌, Some};
ghost use Rattle.records.specs.Numbers.{next_revision, policy_number, phase_number, observation_number, verdict_number, message_number, action_number, refusal_number, Decodes};

use tags::Tag;

// The version of a coordination exchange, and a compiled participant's identity: plain numbers here.
pub type CoordinationRevision = u64;

pub type EnclaveIndex = u32;

// A federate's revision with its next event and the horizon that it had accepted, absent if none.
#[derive(Clone, Copy, PartialEq, Eq)]
pub struct FederatePublication {
    pub revision: CoordinationRevision,
    pub next_event: Option<Tag>,
    pub grant_horizon: Option<Tag>,
}

// A tag granted to a revision.
#[derive(Clone, Copy, PartialEq, Eq)]
pub struct FederateAcquisition {
    pub revision: CoordinationRevision,
    pub granted: Tag,
}

// A completed tag, and whether it covers processed network input.
#[derive(Clone, Copy, PartialEq, Eq)]
pub struct FederateCompletion {
    pub completed: Tag,
    pub network_input: bool,
}

// What is done when every participant has published no next event.
#[derive(Clone, Copy, PartialEq, Eq)]
pub enum LifecyclePolicy {
    KeepAlive,
    TerminateWhenIdle,
    CoordinatedTermination,
}

#[derive(Clone, Copy, PartialEq, Eq)]
pub enum CoordinationPhase {
    Active,
    Probing,
    Parking,
    Rechecking,
    Parked,
    AwaitingIdleConfirmation,
    Stopped,
}

// One participant's acknowledgement of a fixed-point phase.
#[derive(Clone, Copy, PartialEq, Eq)]
pub enum Observation {
    Probed,
    Parked,
    Rechecked,
}

#[derive(Clone, Copy, PartialEq, Eq)]
pub enum SchedulerMessage {
    Active {
        enclave: EnclaveIndex,
    },
    Publish {
        enclave: EnclaveIndex,
        next_event: Option<Tag>,
    },
    CompleteTag {
        enclave: EnclaveIndex,
        tag: Tag,
        network_input: bool,
    },
    CompletionObserved {
        enclave: EnclaveIndex,
        generation: u64,
    },
    ParticipantStopped {
        enclave: EnclaveIndex,
    },
    Failed {
        enclave: Option<u32>,
    },
}

#[derive(Clone, Copy, PartialEq, Eq)]
pub enum CoordinationAction {
    Publish(FederatePublication),
    AdvanceHorizon {
        tag: Tag,
    },
    Grant {
        enclave: EnclaveIndex,
        tag: Tag,
    },
    Complete(FederateCompletion),
    CompletionProbe {
        enclave: EnclaveIndex,
        generation: u64,
    },
    Probe {
        revision: CoordinationRevision,
    },
    Park {
        revision: CoordinationRevision,
    },
    Recheck {
        revision: CoordinationRevision,
    },
    Resume {
        enclave: EnclaveIndex,
        revision: CoordinationRevision,
    },
    Stop,
    Abort,
}

// What becomes of an observation in a phase.
#[derive(Clone, Copy, PartialEq, Eq)]
pub enum Verdict {
    Counts,
    Ignored,
    Refused,
}

// Document 01, "Ceilings and refusals": a phrase for each number but 0, which says that nothing was refused.
#[derive(Clone, Copy, PartialEq, Eq)]
pub enum Refusal {
    NoParticipants,
    DuplicateEnclave,
    UnknownEnclave,
    InvalidObservationTransition,
    TooManyParticipants,
    IndexTooLarge,
    ImproperTag,
    RoomTooSmall,
    GenerationSpent,
    DelayOutOfRange,
    ScriptOutOfForm,
    ScriptTooLong,
    UnsoundState,
    NoActionRecord,
}

// A number that no case has.
#[derive(Clone, Copy, PartialEq, Eq)]
pub struct UnknownNumber(pub u8);

// The next revision, wrapping at the integer boundary.
pub fn next(revision: CoordinationRevision) -> CoordinationRevision
    ensures { result ≡ next_revision revision }
{
    std::num::wrapping_add_u64(revision, 1)
}

impl From<LifecyclePolicy> for u8 {
    ghost from_gives = { λ x n. n ≡ policy_number x };

    fn from(policy: LifecyclePolicy) -> u8 {
        match policy {
            LifecyclePolicy::KeepAlive => 0,
            LifecyclePolicy::TerminateWhenIdle => 1,
            LifecyclePolicy::CoordinatedTermination => 2,
        }
    }
}

impl TryFrom<u8> for LifecyclePolicy {
    type Error = UnknownNumber;

    ghost try_from_gives = { Decodes policy_number 3 };

    fn try_from(number: u8) -> Result<Self, UnknownNumber> {
        match number {
            0 => Ok(LifecyclePolicy::KeepAlive),
            1 => Ok(LifecyclePolicy::TerminateWhenIdle),
            2 => Ok(LifecyclePolicy::CoordinatedTermination),
            _ => Err(UnknownNumber(number)),
        }
    }
}

impl From<CoordinationPhase> for u8 {
    ghost from_gives = { λ x n. n ≡ phase_number x };

    fn from(phase: CoordinationPhase) -> u8 {
        match phase {
            CoordinationPhase::Active => 0,
            CoordinationPhase::Probing => 1,
            CoordinationPhase::Parking => 2,
            CoordinationPhase::Rechecking => 3,
            CoordinationPhase::Parked => 4,
            CoordinationPhase::AwaitingIdleConfirmation => 5,
            CoordinationPhase::Stopped => 6,
        }
    }
}

impl TryFrom<u8> for CoordinationPhase {
    type Error = UnknownNumber;

    ghost try_from_gives = { Decodes phase_number 7 };

    fn try_from(number: u8) -> Result<Self, UnknownNumber> {
        match number {
            0 => Ok(CoordinationPhase::Active),
            1 => Ok(CoordinationPhase::Probing),
            2 => Ok(CoordinationPhase::Parking),
            3 => Ok(CoordinationPhase::Rechecking),
            4 => Ok(CoordinationPhase::Parked),
            5 => Ok(CoordinationPhase::AwaitingIdleConfirmation),
            6 => Ok(CoordinationPhase::Stopped),
            _ => Err(UnknownNumber(number)),
        }
    }
}

impl From<Observation> for u8 {
    ghost from_gives = { λ x n. n ≡ observation_number x };

    fn from(observation: Observation) -> u8 {
        match observation {
            Observation::Probed => 0,
            Observation::Parked => 1,
            Observation::Rechecked => 2,
        }
    }
}

impl TryFrom<u8> for Observation {
    type Error = UnknownNumber;

    ghost try_from_gives = { Decodes observation_number 3 };

    fn try_from(number: u8) -> Result<Self, UnknownNumber> {
        match number {
            0 => Ok(Observation::Probed),
            1 => Ok(Observation::Parked),
            2 => Ok(Observation::Rechecked),
            _ => Err(UnknownNumber(number)),
        }
    }
}

impl From<SchedulerMessage> for u8 {
    ghost from_gives = { λ x n. n ≡ message_number x };

    fn from(message: SchedulerMessage) -> u8 {
        match message {
            SchedulerMessage::Active { enclave: _ } => 1,
            SchedulerMessage::Publish {
                enclave: _,
                next_event: _,
            } => 2,
            SchedulerMessage::CompleteTag {
                enclave: _,
                tag: _,
                network_input: _,
            } => 3,
            SchedulerMessage::CompletionObserved {
                enclave: _,
                generation: _,
            } => 4,
            SchedulerMessage::ParticipantStopped { enclave: _ } => 5,
            SchedulerMessage::Failed { enclave: _ } => 6,
        }
    }
}

impl From<CoordinationAction> for u8 {
    ghost from_gives = { λ x n. n ≡ action_number x };

    fn from(action: CoordinationAction) -> u8 {
        match action {
            CoordinationAction::Publish(_) => 1,
            CoordinationAction::AdvanceHorizon { tag: _ } => 2,
            CoordinationAction::Grant { enclave: _, tag: _ } => 3,
            CoordinationAction::Complete(_) => 4,
            CoordinationAction::CompletionProbe {
                enclave: _,
                generation: _,
            } => 5,
            CoordinationAction::Probe { revision: _ } => 6,
            CoordinationAction::Park { revision: _ } => 7,
            CoordinationAction::Recheck { revision: _ } => 8,
            CoordinationAction::Resume {
                enclave: _,
                revision: _,
            } => 9,
            CoordinationAction::Stop => 10,
            CoordinationAction::Abort => 11,
        }
    }
}

impl From<Verdict> for u8 {
    ghost from_gives = { λ x n. n ≡ verdict_number x };

    fn from(verdict: Verdict) -> u8 {
        match verdict {
            Verdict::Counts => 0,
            Verdict::Ignored => 1,
            Verdict::Refused => 2,
        }
    }
}

impl From<Refusal> for u8 {
    ghost from_gives = { λ x n. n ≡ refusal_number (Some x) };

    fn from(refusal: Refusal) -> u8 {
        match refusal {
            Refusal::NoParticipants => 1,
            Refusal::DuplicateEnclave => 2,
            Refusal::UnknownEnclave => 3,
            Refusal::InvalidObservationTransition => 4,
            Refusal::TooManyParticipants => 5,
            Refusal::IndexTooLarge => 6,
            Refusal::ImproperTag => 7,
            Refusal::RoomTooSmall => 8,
            Refusal::GenerationSpent => 9,
            Refusal::DelayOutOfRange => 10,
            Refusal::ScriptOutOfForm => 11,
            Refusal::ScriptTooLong => 12,
            Refusal::UnsoundState => 27,
            Refusal::NoActionRecord => 28,
        }
    }
}

// The number of a call's refusal, 0 where nothing was refused. Kept: a function, since neither `Option` nor u8 is of this crate, so that no `From` can stand here.
pub fn refusal_number(refusal: Option<Refusal>) -> u8
    ensures { result ≡ refusal_number refusal }
{
    refusal.map_or(0, u8::from)
}
