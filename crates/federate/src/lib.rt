// The federate's scheduler call (document 01, "Step rules"; state.rs: handle_scheduler): refusals 27, 8, 7, 3 and 9, the message's own rule, then the
// completion step, and the records of what they say from byte 0 of the lent room.
#![tactic(auto)]

ghost use Rattle.std.specs.Prelude.{◌≡◌, ◌≤◌, ◌<◌, length};
ghost use Rattle.octets.specs.Runs.{put_at};
ghost use Rattle.actions.specs.Record.{records_of};
ghost use Rattle.state.specs.Parts.{Apart, parts_of};
ghost use Rattle.dispatch.specs.Messages.{call_of};
ghost use Rattle.calls.specs.Called.{lent, actions_of, Promised};
ghost use Rattle.federate.specs.Places.{place_of, place_for};

use calls::Called;
use dispatch::Said;
use records::{Refusal, SchedulerMessage};
use state::{FederateCoordinationState, Parts};

// The place of the enclave that is named, or the first place where nobody is.
fn place_of(state: &FederateCoordinationState, enclave: Option<u32>) -> usize
    requires { (state.now.count ≤ 32) × Apart state.now.enclaves state.now.count }
    ensures { result ≡ place_of enclave state.now.enclaves state.now.count }
{
    match enclave {
        None => 0,
        Some(e) => table::seat_of(state, e),
    }
}

// 27, 8, 7 and 3 in this order, or the place of the message's enclave.
fn place_for(
    state: &FederateCoordinationState,
    message: SchedulerMessage,
    room: usize,
) -> Result<usize, Refusal>
    ensures { result ≡ place_for room message state.now }
{
    if !soundness::is_sound(state) {
        return Err(Refusal::UnsoundState);
    }
    let proper = tags::proper_if_present(dispatch::tag_of(message));
    let place = place_of(state, dispatch::enclave_of(message));
    match calls::room_first(
        room,
        state.count,
        calls::tag_first(proper, place < state.count),
    ) {
        None => Ok(place),
        Some(refusal) => Err(refusal),
    }
}

// What the message's own rule can change.
fn parts_at(state: &FederateCoordinationState, place: usize) -> Parts
    requires { place < 32 }
    ensures { result ≡ parts_of state.now place }
{
    Parts {
        row: table::row_at(state, place),
        coordination: state.coordination,
        completion: state.completion,
        failed: state.failed,
        first_failure: state.first_failure,
    }
}

// One scheduler message: 27, 8, 7, 3 and 9, else the rules' step with its records in the room. The entry's cells are put back where the generation is spent.
// Kept: longer than 40 lines, one straight line over the state that came in, since each hop of it by value costs a copy.
pub fn handle_scheduler(
    mut state: FederateCoordinationState,
    message: SchedulerMessage,
    room: &mut [u8],
) -> Called
    ensures promised { Promised (lent (length room.old) (call_of message)) state result }
    ensures bytes { room.new ≡ put_at room.old 0 (records_of (actions_of (lent (length room.old) (call_of message)) state)) }
{
    let place = match place_for(&state, message, room.len()) {
        Ok(place) => place,
        Err(refusal) => return calls::with_reply(state, Some(refusal), None, 0),
    };
    let count = state.count;
    let parts = parts_at(&state, place);
    let decided = dispatch::own_step(message, parts);
    table::put_row(&mut state, place, decided.parts.row);
    let concluded = dispatch::conclude(
        &state,
        decided.next,
        decided.parts.coordination,
        decided.parts.completion,
    );
    let advanced = match completion::advance_completion(
        &state,
        concluded.coordination.phase,
        concluded.completion,
    ) {
        Ok(advanced) => advanced,
        Err(refusal) => {
            table::put_row(&mut state, place, parts.row);
            return calls::with_reply(state, Some(refusal), None, 0);
        }
    };
    state.completion = advanced.completion;
    // What stays as it is is not stored: a message about completion changes no more.
    if !dispatch::is_about_completion(message) {
        state.coordination = concluded.coordination;
        state.failed = decided.parts.failed;
        state.first_failure = decided.parts.first_failure;
    }
    if decided.forgets {
        table::clear(&mut state.observation, count);
    }
    let total = emission::add_step(
        room,
        &state,
        place,
        concluded.said,
        concluded.coordination,
        advanced,
    );
    // Touched seldom, so last, when no other number is kept at hand.
    if let Said::Announcement(_) = concluded.said {
        state.gate = publication::dropped(state.gate);
    }
    calls::with_reply(state, None, None, total)
}
