// Observation, idle confirmation and stop (document 01, "Observation", "Idle confirmation", and `stop` of
// "ParticipantStopped, Failed, stop"; state.rs: handle_observation, handle_idle_confirmation, stop). A call refuses with 27 and 8; an
// observation also with 3 and, where it is heard and the table says so, with 4.
#![tactic(auto)]

ghost use Rattle.std.specs.Prelude.{◌≡◌, ◌==◌, ◌&&◌, not, cond, ◌≤◌, T, length, take};
ghost use Rattle.std.specs.List.{list_all};
ghost use Rattle.octets.specs.Runs.{put_at};
ghost use Rattle.actions.specs.Record.{records_of};
ghost use Rattle.records.specs.Numbers.{phase_number};
ghost use Rattle.rules.specs.Model.{Call, Ignored, observe, idle, stop};
ghost use Rattle.rules.specs.Walk.{is_number};
ghost use Rattle.rules.specs.Stop.{stop_of};
ghost use Rattle.rules.specs.Observation as rules;
ghost use Rattle.state.specs.declared.FederateCoordinationState.{FederateCoordinationState as Held};
ghost use Rattle.state.specs.Cells.{phase_of, number_if};
ghost use Rattle.state.specs.View.{represents};
ghost use Rattle.calls.specs.Called.{Promised, lent, actions_of};
ghost use Rattle.observation.specs.Moves.{Moves, Takes, in_phase, unheard_by};

use calls::Called;
use records::{
    CoordinationPhase, CoordinationRevision, EnclaveIndex, LifecyclePolicy, Observation, Refusal,
    Verdict,
};
use state::{Coordination, FederateCoordinationState, Notice};

// What a rule that changes the coordination alone gives, and what it says of the revision then.
#[derive(Clone, Copy)]
struct Moved {
    coordination: Coordination,
    says: Option<Notice>,
}

// The verdict on an observation of this revision; one that is not heard is ignored.
// Kept: here and below, phases, the policy and observations by the numbers that the state's cells hold for C.
fn judged(
    phase: u8,
    current: CoordinationRevision,
    revision: CoordinationRevision,
    observation: Observation,
) -> Verdict
    requires { phase ≤ 6 }
    ensures { result ≡ cond (unheard_by phase current revision) Ignored (rules.verdict_of (phase_of phase) observation) }
{
    if phase == u8::from(CoordinationPhase::Stopped)
        || revision != current
        || phase == u8::from(CoordinationPhase::AwaitingIdleConfirmation)
    {
        return Verdict::Ignored;
    }
    verdicts::verdict_in(phase, observation)
}

fn all_observed(state: &FederateCoordinationState, cell: u8) -> bool
    requires { state.now.count ≤ 32 }
    ensures { result ≡ list_all (λ x. x == cell) (take state.now.count state.now.observation) }
{
    state.observation[..state.count].iter().all(|x| *x == cell)
}

fn stopped(c: Coordination) -> Moved
    ensures { (s : Held) → T (represents s) → s.coordination ≡ c → Moves stop_of s result }
{
    if c.phase == u8::from(CoordinationPhase::Stopped) {
        return Moved {
            coordination: c,
            says: None,
        };
    }
    Moved {
        coordination: state::without_pending(c, u8::from(CoordinationPhase::Stopped)),
        says: Some(Notice::Stop),
    }
}

fn in_phase(c: Coordination, phase: CoordinationPhase, says: Option<Notice>) -> Moved
    ensures { result ≡ record { coordination = in_phase (phase_number phase) c; says = says } }
{
    let phase = u8::from(phase);
    Moved {
        coordination: Coordination { phase, ..c },
        says,
    }
}

fn lacks_authorization(c: Coordination, lifecycle: u8) -> bool
    ensures { result ≡ (lifecycle == 2 && not (is_number (number_if c.authorized c.idle_authorization) c.revision)) }
{
    lifecycle == u8::from(LifecyclePolicy::CoordinatedTermination)
        && !(c.authorized && c.idle_authorization == c.revision)
}

// What follows once all have this observation and all are cleared: Park, Recheck, or under CoordinatedTermination without authorization for this revision
// the wait for it, else Stop.
fn agreed(c: Coordination, lifecycle: u8, observation: Observation) -> Moved
    ensures { (s : Held) → T (represents s) → s.coordination ≡ c → s.lifecycle ≡ lifecycle → Moves (rules.agreed observation) s result }
{
    match observation {
        Observation::Probed => in_phase(c, CoordinationPhase::Parking, Some(Notice::Park)),
        Observation::Parked => in_phase(c, CoordinationPhase::Rechecking, Some(Notice::Recheck)),
        Observation::Rechecked => {
            if lacks_authorization(c, lifecycle) {
                in_phase(c, CoordinationPhase::AwaitingIdleConfirmation, None)
            } else {
                stopped(c)
            }
        }
    }
}

fn awaits(c: Coordination, revision: CoordinationRevision) -> bool
    ensures { result ≡ (c.phase == 5 && revision == c.revision) }
{
    c.phase == u8::from(CoordinationPhase::AwaitingIdleConfirmation) && revision == c.revision
}

// A new revision keeps late acknowledgements of the first idle check from satisfying the last one.
fn confirmed(c: Coordination, revision: CoordinationRevision) -> Moved
    ensures { (s : Held) → T (represents s) → s.coordination ≡ c → Moves (rules.idle_confirmation_of revision) s result }
{
    if !awaits(c, revision) {
        return Moved {
            coordination: c,
            says: None,
        };
    }
    let next = records::next(c.revision);
    let probing = u8::from(CoordinationPhase::Probing);
    Moved {
        coordination: Coordination {
            revision: next,
            authorized: true,
            idle_authorization: next,
            ..state::without_pending(c, probing)
        },
        says: Some(Notice::Probe),
    }
}

// Observation: one participant's acknowledgement of a phase.
pub fn handle_observation(
    mut state: FederateCoordinationState,
    enclave: EnclaveIndex,
    revision: CoordinationRevision,
    observation: Observation,
    room: &mut [u8],
) -> Called
    ensures promised { Promised (lent (length room.old) (observe enclave revision observation)) state result }
    ensures bytes { room.new ≡ put_at room.old 0 (records_of (actions_of (lent (length room.old) (observe enclave revision observation)) state)) }
{
    if !soundness::is_sound(&state) {
        return calls::with_reply(state, Some(Refusal::UnsoundState), None, 0);
    }
    let refusal = calls::room_first(room.len(), state.count, None);
    if refusal.is_some() {
        return calls::with_reply(state, refusal, None, 0);
    }
    let Some(place) = table::find(&state, enclave) else {
        return calls::with_reply(state, Some(Refusal::UnknownEnclave), None, 0);
    };
    match judged(
        state.coordination.phase,
        state.coordination.revision,
        revision,
        observation,
    ) {
        Verdict::Ignored => calls::with_reply(state, None, None, 0),
        Verdict::Refused => {
            let refusal = Some(Refusal::InvalidObservationTransition);
            calls::with_reply(state, refusal, None, 0)
        }
        Verdict::Counts => {
            let cell = u8::from(observation) + 1;
            if state.observation[place] == cell {
                return calls::with_reply(state, None, None, 0);
            }
            state.observation[place] = cell;
            if !all_observed(&state, cell) {
                return calls::with_reply(state, None, None, 0);
            }
            table::clear(&mut state.observation, state.count);
            let moved = agreed(state.coordination, state.lifecycle, observation);
            state.coordination = moved.coordination;
            let written = emission::add_notice(room, 0, moved.says, 0, moved.coordination.revision);
            calls::with_reply(state, None, None, written)
        }
    }
}

// 27 and 8, else the coordination moved and what it says.
fn moved_unless_refused(
    mut state: FederateCoordinationState,
    moved: Moved,
    room: &mut [u8],
) -> Called
    ensures promised { (c : Call) → Takes state moved c → Promised (lent (length room.old) c) state result }
    ensures bytes { (c : Call) → Takes state moved c → room.new ≡ put_at room.old 0 (records_of (actions_of (lent (length room.old) c) state)) }
{
    if !soundness::is_sound(&state) {
        return calls::with_reply(state, Some(Refusal::UnsoundState), None, 0);
    }
    let refusal = calls::room_first(room.len(), state.count, None);
    if refusal.is_some() {
        return calls::with_reply(state, refusal, None, 0);
    }
    state.coordination = moved.coordination;
    let written = emission::add_notice(room, 0, moved.says, 0, moved.coordination.revision);
    calls::with_reply(state, None, None, written)
}

// Idle confirmation: nothing is running outside, for this revision.
pub fn handle_idle_confirmation(
    state: FederateCoordinationState,
    revision: CoordinationRevision,
    room: &mut [u8],
) -> Called
    ensures promised { Promised (lent (length room.old) (idle revision)) state result }
    ensures bytes { room.new ≡ put_at room.old 0 (records_of (actions_of (lent (length room.old) (idle revision)) state)) }
{
    let moved = confirmed(state.coordination, revision);
    moved_unless_refused(state, moved, room)
}

// Stop, once.
pub fn stop(state: FederateCoordinationState, room: &mut [u8]) -> Called
    ensures promised { Promised (lent (length room.old) stop) state result }
    ensures bytes { room.new ≡ put_at room.old 0 (records_of (actions_of (lent (length room.old) stop) state)) }
{
    let moved = stopped(state.coordination);
    moved_unless_refused(state, moved, room)
}
