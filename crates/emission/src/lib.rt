// The records of a call's actions (document 01, "Only calls write records, from byte 0; later bytes keep their values"): each function adds its actions to
// those written so far. How many there may be is the caller's to bound; the room is large enough by refusal 8.
// Kept: the room and how many records stand in it are two parameters, since the promises by `Adds` name both.
#![tactic(auto)]

ghost use Rattle.std.specs.Prelude.{◌≡◌, [], ◌∷◌, ◌++◌, ◌+◌, ◌≤◌, ◌<◌, get_or};
ghost use Rattle.state.specs.Decides.{action_of, notice_of, said_of};
ghost use Rattle.publication.specs.Announce.{announcement};
ghost use Rattle.completion.specs.Advance.{probes_at, sayings};
ghost use Rattle.dispatch.specs.Messages.{actions_of};
ghost use Rattle.emission.specs.Written.{Adds};

use completion::{Advanced, Saying};
use dispatch::Said;
use records::{CoordinationAction, CoordinationPhase, FederatePublication};
use state::{COMPLETED, Coordination, FederateCoordinationState, Notice};
use tags::Tag;

// Adds one action's record; answers how many there are then.
pub fn add(room: &mut [u8], written: usize, action: CoordinationAction) -> usize
    requires { written ≤ 64 }
    ensures adds { Adds (action ∷ []) room.old written room.new result }
    ensures few { result ≡ written + 1 }
{
    actions::write_action(room, written, action);
    written + 1
}

fn action_of(notice: Notice, enclave: u32, revision: u64) -> CoordinationAction
    ensures { result ≡ action_of notice enclave revision }
{
    match notice {
        Notice::Probe => CoordinationAction::Probe { revision },
        Notice::Park => CoordinationAction::Park { revision },
        Notice::Recheck => CoordinationAction::Recheck { revision },
        Notice::Resume => CoordinationAction::Resume { enclave, revision },
        Notice::Stop => CoordinationAction::Stop,
        Notice::Abort => CoordinationAction::Abort,
    }
}

// Adds the action without a tag, if any.
pub fn add_notice(
    room: &mut [u8],
    written: usize,
    notice: Option<Notice>,
    enclave: u32,
    revision: u64,
) -> usize
    requires { written ≤ 64 }
    ensures adds { Adds (said_of notice enclave revision) room.old written room.new result }
    ensures few { result ≤ written + 1 }
{
    match notice {
        None => written,
        Some(said) => add(room, written, action_of(said, enclave, revision)),
    }
}

// Adds the action of a kind without a tag, or none where the number is of no such kind.
// Kept: a number, since a caller may hold one of any kind, and nothing may be asked of it.
pub fn add_kind(room: &mut [u8], written: usize, kind: u8, enclave: u32, revision: u64) -> usize
    requires { written ≤ 64 }
    ensures adds { Adds (said_of (notice_of kind) enclave revision) room.old written room.new result }
    ensures few { result ≤ written + 1 }
{
    add_notice(room, written, state::notice_of(kind), enclave, revision)
}

// Adds a CompletionProbe for each enclave that lags behind the frontier, by ascending index.
pub fn add_probes(
    room: &mut [u8],
    written: usize,
    state: &FederateCoordinationState,
    frontier: Tag,
    generation: u64,
) -> usize
    requires { (written ≤ 4) × (state.now.count ≤ 32) }
    ensures { Adds (probes_at state.now frontier generation) room.old written room.new result }
{
    let mut total = written;
    for i in 0..state.count {
        if table::lags(state.tag_at(COMPLETED + i), frontier) {
            let enclave = state.enclaves[i];
            total = add(
                room,
                total,
                CoordinationAction::CompletionProbe {
                    enclave,
                    generation,
                },
            );
        }
    }
    total
}

// Publish of the pending publication, Resume if told so, Probe in phase Probing.
fn add_announcement(room: &mut [u8], c: Coordination, resumes: bool, enclave: u32) -> usize
    ensures adds { Adds (announcement enclave resumes c) room.old 0 room.new result }
    ensures few { result ≤ 3 }
{
    let publication = FederatePublication {
        revision: c.pending_revision,
        next_event: state::optional_of(c.pending_next_event),
        grant_horizon: state::optional_of(c.pending_grant_horizon),
    };
    let resume = resumes.then_some(Notice::Resume);
    let probe = (c.phase == u8::from(CoordinationPhase::Probing)).then_some(Notice::Probe);
    let published = add(room, 0, CoordinationAction::Publish(publication));
    let resumed = add_notice(room, published, resume, enclave, c.revision);
    add_notice(room, resumed, probe, enclave, c.revision)
}

// The actions of a message's own rule, from byte 0.
fn add_said(room: &mut [u8], said: Said, c: Coordination, enclave: u32) -> usize
    ensures adds { Adds (actions_of enclave said c) room.old 0 room.new result }
    ensures few { result ≤ 3 }
{
    match said {
        Said::Word(word) => add_notice(room, 0, word, enclave, c.revision),
        Said::Announcement(resumes) => add_announcement(room, c, resumes, enclave),
        Said::Completion(completion) => add(room, 0, CoordinationAction::Complete(completion)),
    }
}

// The actions of the completion step, after those of the own rule.
fn add_saying(
    room: &mut [u8],
    written: usize,
    state: &FederateCoordinationState,
    advanced: Advanced,
) -> usize
    requires { (written ≤ 3) × (state.now.count ≤ 32) }
    ensures { Adds (sayings state.now advanced.saying advanced.completion.completion_generation) room.old written room.new result }
{
    match advanced.saying {
        Saying::Nothing => written,
        Saying::Probes(frontier) => add_probes(
            room,
            written,
            state,
            frontier,
            advanced.completion.completion_generation,
        ),
        Saying::Completes(completion) => add(
            room,
            written,
            CoordinationAction::Complete(completion),
        ),
    }
}

// What a scheduler message's step says: the actions of its own rule, then those of the completion step.
pub fn add_step(
    room: &mut [u8],
    state: &FederateCoordinationState,
    place: usize,
    said: Said,
    c: Coordination,
    advanced: Advanced,
) -> usize
    requires { (state.now.count ≤ 32) × (place < 32) }
    ensures { Adds (actions_of (get_or state.now.enclaves place 0) said c ++ sayings state.now advanced.saying advanced.completion.completion_generation) room.old 0 room.new result }
{
    let one = add_said(room, said, c, state.enclaves[place]);
    add_saying(room, one, state, advanced)
}
