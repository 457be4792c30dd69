// Publication (document 01, "Revise", "Active" and "Publish"; state.rs: revise_publication, activate, publish). The state is lent and small parts go
// in and out by value. Nothing is refused here.
#![tactic(auto)]

ghost use Rattle.std.specs.Prelude.{◌≡◌, false, ℕ, ◌≤◌, T, Option};
ghost use Rattle.tags.specs.Tags.{proper_if_present};
ghost use Rattle.rules.specs.Publication.{activate_of, publish_of, repeated, idle_phase};
ghost use Rattle.state.specs.declared.FederateCoordinationState.{FederateCoordinationState as Held};
ghost use Rattle.state.specs.declared.Next.TheVariants.{Says};
ghost use Rattle.state.specs.Cells.{optional_of, phase_of, policy_of};
ghost use Rattle.state.specs.View.{represents};
ghost use Rattle.state.specs.Beside.{SameListed};
ghost use Rattle.state.specs.Decides.{Decides, neat_parts, notice_of, said_of};
ghost use Rattle.publication.specs.Announce.{dropped_of, Announces};
ghost use Rattle.publication.specs.Revise.{revised_of, unprobed_of};

use records::{CoordinationPhase, LifecyclePolicy};
use state::{
    ABSENT, Completion, Coordination, Decided, FederateCoordinationState, Gate, Next, Notice, Parts,
};
use tags::Tag;

// Revise, the observations aside.
pub fn revised(c: Coordination) -> Coordination
    ensures { result ≡ revised_of c }
{
    Coordination {
        revision: records::next(c.revision),
        phase: u8::from(CoordinationPhase::Active),
        authorized: false,
        idle_authorization: 0,
        pending: false,
        pending_revision: 0,
        pending_next_event: ABSENT,
        pending_grant_horizon: ABSENT,
    }
}

// The completion probe cleared.
pub fn unprobed(k: Completion) -> Completion
    ensures { result ≡ unprobed_of k }
{
    Completion {
        completion_probe: ABSENT,
        ..k
    }
}

// Nothing but this action, if any.
pub fn says(parts: Parts, notice: Option<Notice>) -> Decided
    ensures { result ≡ record { parts = parts; forgets = false; next = Says notice } }
{
    Decided {
        parts,
        forgets: false,
        next: Next::Says(notice),
    }
}

// The same of a kind number.
// Kept: a number, since a caller may hold one of any kind, and nothing may be asked of it.
pub fn says_kind(parts: Parts, kind: u8) -> Decided
    ensures { result ≡ record { parts = parts; forgets = false; next = Says (notice_of kind) } }
{
    says(parts, state::notice_of(kind))
}

// Active.
pub fn activate(parts: Parts) -> Decided
    ensures step { (e : ℕ) → Decides (activate_of e) e parts result }
    ensures neat { T (neat_parts parts) → T (neat_parts result.parts) }
{
    let c = parts.coordination;
    let mut next = parts;
    next.row.published = false;
    next.completion = unprobed(parts.completion);
    if c.phase == u8::from(CoordinationPhase::Stopped) {
        return says(next, None);
    }
    next.coordination = revised(c);
    Decided {
        parts: next,
        forgets: true,
        next: Next::Says(Some(Notice::Resume)),
    }
}

// What an unchanged candidate repeats in a phase, if anything.
// Kept: here and below, a phase and the policy by the numbers that the state's cells hold for C.
fn repeated(phase: u8) -> Option<Notice>
    ensures { (e v : ℕ) → repeated (phase_of phase) v ≡ said_of result e v }
{
    if phase == u8::from(CoordinationPhase::Probing) {
        Some(Notice::Probe)
    } else if phase == u8::from(CoordinationPhase::Parking) {
        Some(Notice::Park)
    } else if phase == u8::from(CoordinationPhase::Rechecking) {
        Some(Notice::Recheck)
    } else {
        None
    }
}

// Publish's first half.
pub fn publish(parts: Parts, next_event: Option<Tag>) -> Decided
    ensures step { (e : ℕ) → T (proper_if_present next_event) → Decides (publish_of e next_event) e parts result }
    ensures neat { T (proper_if_present next_event) → T (neat_parts parts) → T (neat_parts result.parts) }
{
    let c = parts.coordination;
    if c.phase == u8::from(CoordinationPhase::Stopped) {
        return says(parts, None);
    }
    let candidate = state::cell_of(next_event);
    let mut next = parts;
    next.row.published = true;
    next.row.candidate = candidate;
    if tags::same_tag(parts.row.candidate, candidate) {
        if parts.row.published {
            return says(parts, repeated(c.phase));
        }
        return Decided {
            parts: next,
            forgets: false,
            next: Next::Announces(false),
        };
    }
    next.coordination = revised(c);
    next.completion = unprobed(parts.completion);
    Decided {
        parts: next,
        forgets: true,
        next: Next::Announces(c.phase != u8::from(CoordinationPhase::Active)),
    }
}

// Parked or Probing where there is no candidate, by the policy; else Active.
fn idle_phase(next_event: Tag, lifecycle: u8) -> CoordinationPhase
    ensures { result ≡ idle_phase (optional_of next_event) (policy_of lifecycle) }
{
    if !state::is_absent(next_event) {
        CoordinationPhase::Active
    } else if lifecycle == u8::from(LifecyclePolicy::KeepAlive) {
        CoordinationPhase::Parked
    } else {
        CoordinationPhase::Probing
    }
}

// The stored acquisition dropped.
pub fn dropped(g: Gate) -> Gate
    ensures { result ≡ dropped_of g }
{
    Gate {
        stored_revision: 0,
        stored_granted: ABSENT,
        ..g
    }
}

// Publish's second half: the coordination with the publication pending, or none unless all are published.
pub fn announce(
    state: &FederateCoordinationState,
    coordination: Coordination,
) -> Option<Coordination>
    requires { state.now.count ≤ 32 }
    ensures { (s : Held) → T (represents s) → SameListed s state.now → s.coordination ≡ coordination → Announces s result }
{
    if !table::all_published(state) {
        return None;
    }
    let least = table::least_candidate(state);
    Some(Coordination {
        phase: u8::from(idle_phase(least, state.lifecycle)),
        pending: true,
        pending_revision: coordination.revision,
        pending_next_event: least,
        pending_grant_horizon: state.grant_horizon,
        ..coordination
    })
}
