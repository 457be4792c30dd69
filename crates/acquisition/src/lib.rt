// Acquisition (document 01, "Acquisition", "Publication sent" and `input_progress` of "Gate"; state.rs: handle_acquisition,
// handle_publication_sent, input_progress). Each call takes the state, hands the next one back and writes its records from byte 0 of the room.
// Refused are 27, 8 and 7, in this order.
#![tactic(auto)]

ghost use Rattle.std.specs.Prelude.{◌≡◌, ◌&&◌, length};
ghost use Rattle.tags.specs.Tags.{proper_if_present, is_present, is_at_or_below};
ghost use Rattle.rules.specs.Model.{acquire, sent, progress};
ghost use Rattle.rules.specs.Acquisition.{same_publication};
ghost use Rattle.octets.specs.Runs.{put_at};
ghost use Rattle.actions.specs.Record.{records_of};
ghost use Rattle.state.specs.Cells.{optional_of};
ghost use Rattle.calls.specs.Called.{Promised, lent, actions_of};
ghost use Rattle.acquisition.specs.Pending.{pending_of};
ghost use Rattle.acquisition.specs.Unless.{unless_refused};

use calls::Called;
use records::{CoordinationAction, FederateAcquisition, FederatePublication, Refusal};
use state::{Coordination, FederateCoordinationState};
use tags::Tag;

fn is_pending(c: &Coordination, p: &FederatePublication) -> bool
    ensures { result ≡ same_publication (pending_of c.now) p.now.revision p.now.next_event p.now.grant_horizon }
{
    let pending = FederatePublication {
        revision: c.pending_revision,
        next_event: state::optional_of(c.pending_next_event),
        grant_horizon: state::optional_of(c.pending_grant_horizon),
    };
    c.pending && pending == *p
}

fn is_reached(horizon: Tag, next_event: Option<Tag>) -> bool
    ensures { result ≡ (is_present (optional_of horizon) && is_at_or_below next_event horizon) }
{
    !state::is_absent(horizon) && tags::is_at_or_below(next_event, horizon)
}

fn is_due(state: &FederateCoordinationState, p: &FederatePublication) -> bool
    ensures { result ≡ (same_publication (pending_of state.now.coordination) p.now.revision p.now.next_event p.now.grant_horizon && (is_present (optional_of state.now.grant_horizon) && is_at_or_below p.now.next_event state.now.grant_horizon)) }
{
    is_pending(&state.coordination, p) && is_reached(state.grant_horizon, p.next_event)
}

fn has_proper_tags(p: &FederatePublication) -> bool
    ensures { result ≡ (proper_if_present p.now.next_event && proper_if_present p.now.grant_horizon) }
{
    tags::proper_if_present(p.next_event) && tags::proper_if_present(p.grant_horizon)
}

// An acquisition: the granted tag advances the horizon and grants the published candidates that it reaches.
pub fn handle_acquisition(
    mut state: FederateCoordinationState,
    acquisition: FederateAcquisition,
    room: &mut [u8],
) -> Called
    ensures promised { Promised (lent (length room.old) (acquire acquisition.revision acquisition.granted)) state result }
    ensures bytes { room.new ≡ put_at room.old 0 (records_of (actions_of (lent (length room.old) (acquire acquisition.revision acquisition.granted)) state)) }
{
    if !soundness::is_sound(&state) {
        return calls::with_reply(state, Some(Refusal::UnsoundState), None, 0);
    }
    let proper = tags::is_proper(acquisition.granted);
    let refusal = calls::room_first(room.len(), state.count, calls::tag_first(proper, true));
    if refusal.is_some() {
        return calls::with_reply(state, refusal, None, 0);
    }
    let acquired = grants::acquire(&state, acquisition);
    state.gate = acquired.gate;
    let Some(granted) = acquired.granted else {
        return calls::with_reply(state, None, None, 0);
    };
    let advance = CoordinationAction::AdvanceHorizon {
        tag: granted.horizon,
    };
    let advanced = emission::add(room, 0, advance);
    let written = grants::add_grants(room, advanced, &state, granted.tag);
    state.published = grants::unpublished(&state, granted.tag);
    state.coordination = granted.coordination;
    state.grant_horizon = granted.horizon;
    calls::with_reply(state, None, None, written)
}

// 27 and 8 before a refusal that comes later, or before none, with the state as it came.
fn unless_refused(state: FederateCoordinationState, room: usize, later: Option<Refusal>) -> Called
    ensures { result ≡ unless_refused state room later }
{
    let refusal = if soundness::is_sound(&state) {
        calls::room_first(room, state.count, later)
    } else {
        Some(Refusal::UnsoundState)
    };
    calls::with_reply(state, refusal, None, 0)
}

// A publication was sent: if it is the pending one and its next event is at or below the horizon, an acquisition of its revision and the horizon.
pub fn handle_publication_sent(
    state: FederateCoordinationState,
    publication: FederatePublication,
    room: &mut [u8],
) -> Called
    ensures promised { Promised (lent (length room.old) (sent publication.revision publication.next_event publication.grant_horizon)) state result }
    ensures bytes { room.new ≡ put_at room.old 0 (records_of (actions_of (lent (length room.old) (sent publication.revision publication.next_event publication.grant_horizon)) state)) }
{
    if !has_proper_tags(&publication) {
        return unless_refused(state, room.len(), Some(Refusal::ImproperTag));
    }
    if !is_due(&state, &publication) {
        return unless_refused(state, room.len(), None);
    }
    let acquisition = FederateAcquisition {
        revision: publication.revision,
        granted: state.grant_horizon,
    };
    handle_acquisition(state, acquisition, room)
}

// The input horizon has moved: the stored acquisition is repeated, if there is one.
pub fn input_progress(state: FederateCoordinationState, room: &mut [u8]) -> Called
    ensures promised { Promised (lent (length room.old) progress) state result }
    ensures bytes { room.new ≡ put_at room.old 0 (records_of (actions_of (lent (length room.old) progress) state)) }
{
    let granted = state.gate.stored_granted;
    if state::is_absent(granted) {
        return unless_refused(state, room.len(), None);
    }
    let acquisition = FederateAcquisition {
        revision: state.gate.stored_revision,
        granted,
    };
    handle_acquisition(state, acquisition, room)
}
