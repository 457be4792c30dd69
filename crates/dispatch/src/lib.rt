// Message dispatch (document 01, "message dispatch, choosing by kind number"; state.rs: handle_scheduler, stop, fail): a scheduler message's own rule,
// in two halves. Nothing is refused here.
#![tactic(auto)]

ghost use Rattle.std.specs.Prelude.{◌≡◌, false, not, ℕ, ◌≤◌, T};
ghost use Rattle.rules.specs.Stop.{stop_of, fail_of};
ghost use Rattle.rules.specs.Calls.{facts, all_proper, own_step};
ghost use Rattle.state.specs.declared.FederateCoordinationState.{FederateCoordinationState as Held};
ghost use Rattle.state.specs.Beside.{SameListed};
ghost use Rattle.state.specs.View.{represents};
ghost use Rattle.state.specs.Decides.{Aside, Decides, announces, neat_parts};
ghost use Rattle.dispatch.specs.Messages.{call_of, Names, enclave_of, tag_of, about_completion, kind_about_completion, drops, Concludes};

use records::{CoordinationPhase, FederateCompletion, SchedulerMessage};
use state::{Completion, Coordination, Decided, FederateCoordinationState, Next, Notice, Parts};
use tags::Tag;

// The actions of a message's own rule.
#[derive(Clone, Copy)]
pub enum Said {
    // This action, or none.
    Word(Option<Notice>),
    // Publish of the pending publication, Resume if told so, Probe in phase Probing.
    Announcement(bool),
    Completion(FederateCompletion),
}

// What the second half leaves of the small parts, and what it says.
#[derive(Clone, Copy)]
pub struct Concluded {
    pub coordination: Coordination,
    pub completion: Completion,
    // An announcement drops the stored acquisition too.
    pub said: Said,
}

// The enclave that the message names, if any.
pub fn enclave_of(message: SchedulerMessage) -> Option<u32>
    ensures { result ≡ enclave_of message }
{
    match message {
        SchedulerMessage::Active { enclave } => Some(enclave),
        SchedulerMessage::Publish { enclave, .. } => Some(enclave),
        SchedulerMessage::CompleteTag { enclave, .. } => Some(enclave),
        SchedulerMessage::CompletionObserved { enclave, .. } => Some(enclave),
        SchedulerMessage::ParticipantStopped { enclave } => Some(enclave),
        SchedulerMessage::Failed { enclave } => enclave,
    }
}

// The tag that the message carries, if any.
pub fn tag_of(message: SchedulerMessage) -> Option<Tag>
    ensures { result ≡ tag_of message }
{
    match message {
        SchedulerMessage::Publish { next_event, .. } => next_event,
        SchedulerMessage::CompleteTag { tag, .. } => Some(tag),
        _ => None,
    }
}

// Whether the message is about completion alone.
pub fn is_about_completion(message: SchedulerMessage) -> bool
    ensures { result ≡ about_completion message }
{
    matches!(
        message,
        SchedulerMessage::CompleteTag { .. } | SchedulerMessage::CompletionObserved { .. }
    )
}

// The same of a message's kind number: 3 CompleteTag, 4 CompletionObserved.
// Kept: a number, since a caller may hold one of any kind, and nothing may be asked of it.
pub fn is_kind_about_completion(kind: u8) -> bool
    ensures { result ≡ kind_about_completion kind }
{
    matches!(kind, 3 | 4)
}

// ParticipantStopped, and `stop` of the rule that it shares.
pub fn participant_stopped(parts: Parts) -> Decided
    ensures step { (e : ℕ) → Decides stop_of e parts result }
    ensures neat { T (neat_parts parts) → T (neat_parts result.parts) }
{
    let c = parts.coordination;
    if c.phase == u8::from(CoordinationPhase::Stopped) {
        return publication::says(parts, None);
    }
    let mut next = parts;
    next.coordination = state::without_pending(c, u8::from(CoordinationPhase::Stopped));
    publication::says(next, Some(Notice::Stop))
}

// Failed.
// Kept: its own test of the phase. One function for both would take what is stored and said besides, two parameters for three lines.
pub fn fail(parts: Parts, enclave: Option<u32>) -> Decided
    ensures step { (e : ℕ) → Decides (fail_of enclave) e parts result }
    ensures neat { T (neat_parts parts) → T (neat_parts result.parts) }
{
    let c = parts.coordination;
    if c.phase == u8::from(CoordinationPhase::Stopped) {
        return publication::says(parts, None);
    }
    let mut next = parts;
    next.coordination = state::without_pending(c, u8::from(CoordinationPhase::Stopped));
    next.failed = enclave.is_some();
    next.first_failure = enclave.unwrap_or(0);
    publication::says(next, Some(Notice::Abort))
}

// The first half of the message's own rule.
pub fn own_step(message: SchedulerMessage, parts: Parts) -> Decided
    ensures step { (e : ℕ) → Names (enclave_of message) e → T (all_proper (facts (call_of message)).tags) → Decides (own_step (call_of message)) e parts result }
    ensures neat { T (all_proper (facts (call_of message)).tags) → T (neat_parts parts) → T (neat_parts result.parts) }
    ensures aside { T (about_completion message) → Aside parts result }
{
    match message {
        SchedulerMessage::Active { .. } => publication::activate(parts),
        SchedulerMessage::Publish { next_event, .. } => publication::publish(parts, next_event),
        SchedulerMessage::CompleteTag {
            tag,
            network_input,
            ..
        } => completion::complete(parts, tag, network_input),
        SchedulerMessage::CompletionObserved { generation, .. } => {
            completion::observe_completion(parts, generation)
        }
        SchedulerMessage::ParticipantStopped { .. } => participant_stopped(parts),
        SchedulerMessage::Failed { enclave } => fail(parts, enclave),
    }
}

// The second half: what depends on the whole table.
pub fn conclude(
    state: &FederateCoordinationState,
    next: Next,
    coordination: Coordination,
    completion: Completion,
) -> Concluded
    requires { state.now.count ≤ 32 }
    ensures concludes { (s : Held) (e : ℕ) → T (represents s) → SameListed s state.now → s.coordination ≡ coordination → s.completion ≡ completion → Concludes s e next result }
    ensures aside { T (not (announces next)) → (result.coordination ≡ coordination) × (drops result.said ≡ false) }
{
    let quiet = Concluded {
        coordination,
        completion,
        said: Said::Word(None),
    };
    match next {
        Next::Says(word) => Concluded {
            said: Said::Word(word),
            ..quiet
        },
        Next::Announces(resumes) => match publication::announce(state, coordination) {
            None => quiet,
            Some(announced) => Concluded {
                coordination: announced,
                said: Said::Announcement(resumes),
                ..quiet
            },
        },
        Next::Completes => match completion::complete_least(state, completion) {
            None => quiet,
            Some(least) => Concluded {
                completion: least.completion,
                said: Said::Completion(least.frontier),
                ..quiet
            },
        },
    }
}
