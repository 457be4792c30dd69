// The input gate (document 01, "Gate"; state.rs: input_publishing, begin_tag, input_is_late, input_completed, and its input horizon). None takes
// room. Refused are 27, then 7 a tag that is not proper, then 3 an enclave of `input_publishing` that is no participant; all of them are checked
// before anything changes. The other calls never give 3.
#![tactic(auto)]

ghost use Rattle.std.specs.Prelude.{◌≡◌, ◌≤◌, ◌<◌, T};
ghost use Rattle.tags.specs.Tags.{within};
ghost use Rattle.rules.specs.Model.{horizon as capping, begin, late, done, input};
ghost use Rattle.rules.specs.Gate.{is_late, is_completed};
ghost use Rattle.rules.specs.Calls.{ascending};
ghost use Rattle.state.specs.Cells.{optional_of};
ghost use Rattle.state.specs.View.{rows_of, view};
ghost use Rattle.calls.specs.Called.{Promised, lent};
ghost use Rattle.gate.specs.Replies.{Replies, answering};
ghost use Rattle.gate.specs.Parts.{sound_then_proper, all_found, Unlisted, permits, started_at};

use calls::{Called, Reply};
use records::{CoordinationPhase, EnclaveIndex, Refusal};
use state::{ABSENT, COMPLETED, FederateCoordinationState, Gate, STARTED};
use tags::Tag;

// 27 before 7, or neither.
fn refusal_of(state: &FederateCoordinationState, proper: bool) -> Option<Refusal>
    ensures { result ≡ sound_then_proper state.now proper }
{
    if !soundness::is_sound(state) {
        Some(Refusal::UnsoundState)
    } else if !proper {
        Some(Refusal::ImproperTag)
    } else {
        None
    }
}

fn is_within_cell(tag: Tag, cell: Tag) -> bool
    ensures { result ≡ within tag (optional_of cell) }
{
    tags::is_within(tag, state::optional_of(cell))
}

// Stores the input horizon; changes nothing else.
pub fn set_input_horizon(mut state: FederateCoordinationState, horizon: Option<Tag>) -> Called
    ensures { Promised (lent 0 (capping horizon)) state result }
{
    let refusal = refusal_of(&state, tags::proper_if_present(horizon));
    if refusal.is_none() {
        state.gate.input_horizon = state::cell_of(horizon);
    }
    calls::with_reply(state, refusal, None, 0)
}

fn may_begin(state: &FederateCoordinationState, tag: Tag) -> bool
    ensures { result ≡ permits state.now tag }
{
    state.coordination.phase != u8::from(CoordinationPhase::Stopped)
        && tags::at_or_below(tag, state.gate.input_horizon)
        && is_within_cell(tag, state.gate.granted)
}

fn put_started(state: &mut FederateCoordinationState, place: usize, tag: Tag)
    requires { place < 32 }
    ensures { state.new ≡ started_at state.old place tag }
{
    state.seconds[STARTED + place] = tag.seconds;
    state.nanoseconds[STARTED + place] = tag.nanoseconds;
    state.microsteps[STARTED + place] = tag.microstep;
}

// Whether the enclave may begin the tag: anyone without input horizon, else by that horizon and the granted tag, and then started is this tag.
pub fn begin_tag(mut state: FederateCoordinationState, enclave: EnclaveIndex, tag: Tag) -> Called
    ensures { Promised (lent 0 (begin enclave tag)) state result }
{
    let refusal = refusal_of(&state, tags::is_proper(tag));
    if refusal.is_some() {
        return calls::with_reply(state, refusal, Some(false), 0);
    }
    if state::is_absent(state.gate.input_horizon) {
        return calls::with_reply(state, None, Some(true), 0);
    }
    let Some(place) = table::find(&state, enclave) else {
        return calls::with_reply(state, None, Some(false), 0);
    };
    if !may_begin(&state, tag) {
        return calls::with_reply(state, None, Some(false), 0);
    }
    put_started(&mut state, place, tag);
    calls::with_reply(state, None, Some(true), 0)
}

fn is_late(state: &FederateCoordinationState, enclave: EnclaveIndex, tag: Tag) -> bool
    requires { state.now.count ≤ 32 }
    ensures { T (ascending (rows_of state.now)) → result ≡ is_late enclave tag (view state.now) }
{
    let Some(place) = table::find(state, enclave) else {
        return true;
    };
    is_within_cell(tag, state.tag_at(STARTED + place))
        || is_within_cell(tag, state.tag_at(COMPLETED + place))
}

fn is_completed(state: &FederateCoordinationState, enclave: EnclaveIndex, tag: Tag) -> bool
    requires { state.now.count ≤ 32 }
    ensures { T (ascending (rows_of state.now)) → result ≡ is_completed enclave tag (view state.now) }
{
    let Some(place) = table::find(state, enclave) else {
        return false;
    };
    is_within_cell(tag, state.tag_at(COMPLETED + place))
}

fn answering(refusal: Option<Refusal>, yes: bool) -> Reply
    ensures { result ≡ answering refusal yes }
{
    Reply {
        refusal,
        answer: Some(yes),
        actions: 0,
    }
}

// Whether input at the tag comes too late for the enclave: it is unknown, or the tag is at or below its started or its completed tag.
pub fn input_is_late(state: FederateCoordinationState, enclave: EnclaveIndex, tag: Tag) -> Reply
    ensures { Replies (lent 0 (late enclave tag)) state result }
{
    let refusal = refusal_of(&state, tags::is_proper(tag));
    answering(refusal, refusal.is_none() && is_late(&state, enclave, tag))
}

// Whether the enclave is known and has completed the tag or a later one.
pub fn input_completed(state: FederateCoordinationState, enclave: EnclaveIndex, tag: Tag) -> Reply
    ensures { Replies (lent 0 (done enclave tag)) state result }
{
    let refusal = refusal_of(&state, tags::is_proper(tag));
    answering(
        refusal,
        refusal.is_none() && is_completed(&state, enclave, tag),
    )
}

// Whether each of these enclaves is a participant.
fn are_known(state: &FederateCoordinationState, affected: &[u32]) -> bool
    requires { state.now.count ≤ 32 }
    ensures { result ≡ all_found state.now affected.now }
{
    affected
        .iter()
        .all(|enclave| table::find(state, *enclave).is_some())
}

// Which participants stay published; every other flag is as it was.
fn still_published(state: &FederateCoordinationState, affected: &[u32]) -> [bool; 32]
    requires { state.now.count ≤ 32 }
    ensures { Unlisted state.now affected.now result }
{
    table::published_without(state, |place| affected.contains(&state.enclaves[place]))
}

// Announces input to these enclaves: revises even when stopped, drops the stored acquisition and all granted tags, unpublishes the named.
pub fn input_publishing(mut state: FederateCoordinationState, affected: &[u32]) -> Called
    ensures { Promised (lent 0 (input affected.now)) state result }
{
    if !soundness::is_sound(&state) {
        return calls::with_reply(state, Some(Refusal::UnsoundState), None, 0);
    }
    if !are_known(&state, affected) {
        return calls::with_reply(state, Some(Refusal::UnknownEnclave), None, 0);
    }
    state.published = still_published(&state, affected);
    let count = state.count;
    table::clear(&mut state.observation, count);
    state.coordination = publication::revised(state.coordination);
    state.completion = publication::unprobed(state.completion);
    state.gate = Gate {
        granted: ABSENT,
        ..publication::dropped(state.gate)
    };
    calls::with_reply(state, None, None, 0)
}
