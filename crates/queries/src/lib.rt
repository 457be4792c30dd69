// The queries (state.rs: revision, phase, is_stopped, first_failure, grant_horizon, candidate, pending_publication, idle_confirmation_revision;
// document 01, "Settled", the completed frontier and the generation). None changes the state or takes room. They refuse only 27, and then answer
// 0, Active, no, absent or unknown.
#![tactic(auto)]

ghost use Rattle.std.specs.Prelude.{◌≡◌, false, not, ◌&&◌, None};
ghost use Rattle.tags.specs.Tags.{is_present};
ghost use Rattle.rules.specs.Model.{Active};
ghost use Rattle.rules.specs.Walk.{is_stopped};
ghost use Rattle.rules.specs.Acquisition.{is_pending};
ghost use Rattle.rules.specs.Queries.{is_settled, idle_confirmation_revision, candidate_of};
ghost use Rattle.state.specs.Cells.{optional_of, phase_of, publication_if};
ghost use Rattle.queries.specs.Asked.{answer_if, ask_held, Answers};

use records::{CoordinationPhase, FederatePublication, Refusal};
use state::{Completion, Coordination, FederateCoordinationState};
use tags::Tag;

// What a query answers: why it was refused, if it was, and what was asked for, or what is said of a refusal.
// Kept: an answer beside a refusal, since document 01 has a refused query answer 0, no, absent or unknown too.
#[derive(Clone, Copy)]
pub struct Answer<T> {
    pub refusal: Option<Refusal>,
    pub answer: T,
}

// The answer where 27 does not refuse, else the one said of a refusal.
fn answer_if<T: Copy>(sound: bool, refused: T, answer: T) -> Answer<T>
    ensures { Answers (answer_if sound refused answer) result.refusal result.answer }
{
    if sound {
        return Answer {
            refusal: None,
            answer,
        };
    }
    Answer {
        refusal: Some(Refusal::UnsoundState),
        answer: refused,
    }
}

// The phase of its number.
pub fn phase_of(number: u8) -> CoordinationPhase
    ensures { result ≡ phase_of number }
{
    CoordinationPhase::try_from(number).unwrap_or(CoordinationPhase::Stopped)
}

fn publication_of(c: Coordination) -> Option<FederatePublication>
    ensures { result ≡ publication_if c.pending c.pending_revision c.pending_next_event c.pending_grant_horizon }
{
    if !c.pending {
        return None;
    }
    Some(FederatePublication {
        revision: c.pending_revision,
        next_event: state::optional_of(c.pending_next_event),
        grant_horizon: state::optional_of(c.pending_grant_horizon),
    })
}

// Whether neither is out.
pub fn no_publication_and_no_probe(c: Coordination, k: Completion) -> bool
    ensures { result ≡ (not (is_pending (publication_if c.pending c.pending_revision c.pending_next_event c.pending_grant_horizon)) && not (is_present (optional_of k.completion_probe))) }
{
    !c.pending && state::is_absent(k.completion_probe)
}

// The revision; refused: 0.
pub fn revision(state: FederateCoordinationState) -> Answer<u64>
    ensures { Answers (ask_held 0 (λ s. s.revision) state) result.refusal result.answer }
{
    answer_if(soundness::is_sound(&state), 0, state.coordination.revision)
}

// The generation; refused: 0.
pub fn generation(state: FederateCoordinationState) -> Answer<u64>
    ensures { Answers (ask_held 0 (λ s. s.completion_generation) state) result.refusal result.answer }
{
    answer_if(
        soundness::is_sound(&state),
        0,
        state.completion.completion_generation,
    )
}

// The phase; refused: Active.
pub fn phase(state: FederateCoordinationState) -> Answer<CoordinationPhase>
    ensures { Answers (ask_held Active (λ s. s.phase) state) result.refusal result.answer }
{
    let phase = phase_of(state.coordination.phase);
    answer_if(
        soundness::is_sound(&state),
        CoordinationPhase::Active,
        phase,
    )
}

// Whether the phase is Stopped; refused: no.
pub fn is_stopped(state: FederateCoordinationState) -> Answer<bool>
    ensures { Answers (ask_held false is_stopped state) result.refusal result.answer }
{
    let stopped = matches!(
        phase_of(state.coordination.phase),
        CoordinationPhase::Stopped
    );
    answer_if(soundness::is_sound(&state), false, stopped)
}

// Whether no publication is pending and no completion probe is out; refused: no.
pub fn is_settled(state: FederateCoordinationState) -> Answer<bool>
    ensures { Answers (ask_held false is_settled state) result.refusal result.answer }
{
    let settled = no_publication_and_no_probe(state.coordination, state.completion);
    answer_if(soundness::is_sound(&state), false, settled)
}

// The enclave whose failure is stored; refused: absent.
pub fn first_failure(state: FederateCoordinationState) -> Answer<Option<u32>>
    ensures { Answers (ask_held None (λ s. s.first_failure) state) result.refusal result.answer }
{
    let failure = state.failed.then_some(state.first_failure);
    answer_if(soundness::is_sound(&state), None, failure)
}

// The horizon granted; refused: absent.
pub fn grant_horizon(state: FederateCoordinationState) -> Answer<Option<Tag>>
    ensures { Answers (ask_held None (λ s. s.grant_horizon) state) result.refusal result.answer }
{
    let horizon = state::optional_of(state.grant_horizon);
    answer_if(soundness::is_sound(&state), None, horizon)
}

// The completed frontier; refused: absent.
pub fn completed_frontier(state: FederateCoordinationState) -> Answer<Option<Tag>>
    ensures { Answers (ask_held None (λ s. s.completed_frontier) state) result.refusal result.answer }
{
    let frontier = state::optional_of(state.completion.completed_frontier);
    answer_if(soundness::is_sound(&state), None, frontier)
}

// The publication that waits to be acquired; refused: absent.
pub fn pending_publication(state: FederateCoordinationState) -> Answer<Option<FederatePublication>>
    ensures { Answers (ask_held None (λ s. s.pending_publication) state) result.refusal result.answer }
{
    let publication = publication_of(state.coordination);
    answer_if(soundness::is_sound(&state), None, publication)
}

// The revision whose idle confirmation is awaited; refused: absent.
pub fn idle_confirmation_revision(state: FederateCoordinationState) -> Answer<Option<u64>>
    ensures { Answers (ask_held None idle_confirmation_revision state) result.refusal result.answer }
{
    let awaited = match phase_of(state.coordination.phase) {
        CoordinationPhase::AwaitingIdleConfirmation => Some(state.coordination.revision),
        _ => None,
    };
    answer_if(soundness::is_sound(&state), None, awaited)
}

// The candidate of an enclave; refused: unknown.
pub fn candidate(state: FederateCoordinationState, enclave: u32) -> Answer<Option<Option<Tag>>>
    ensures { Answers (ask_held None (candidate_of enclave) state) result.refusal result.answer }
{
    if !soundness::is_sound(&state) {
        return answer_if(false, None, None);
    }
    let Some(place) = table::find(&state, enclave) else {
        return answer_if(true, None, None);
    };
    answer_if(true, None, Some(state::optional_of(state.tag_at(place))))
}
