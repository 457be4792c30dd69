// A state that is lent for one call of the rig host, and handed back with the reply: for callers that hold no reference to a state. Each call promises in
// the words of the call by value, so that the two can be held against each other.
#![tactic(auto)]

ghost use Rattle.std.specs.Prelude.{◌≡◌, length};
ghost use Rattle.octets.specs.Runs.{put_at};
ghost use Rattle.actions.specs.Record.{records_of};
ghost use Rattle.dispatch.specs.Messages.{call_of};
ghost use Rattle.calls.specs.Called.{lent, actions_of, Promised};
ghost use Rattle.requests.specs.Named.{request_of, change_of};

use calls::{Called, Reply};
use records::SchedulerMessage;
use requests::{Change, Request};
use state::FederateCoordinationState;

pub fn called_of(state: FederateCoordinationState, reply: Reply) -> Called
    ensures { result ≡ record { state = state; reply = reply } }
{
    Called { state, reply }
}

pub fn lend_scheduler(
    mut state: FederateCoordinationState,
    message: SchedulerMessage,
    room: &mut [u8],
) -> Called
    ensures promised { Promised (lent (length room.old) (call_of message)) state result }
    ensures bytes { room.new ≡ put_at room.old 0 (records_of (actions_of (lent (length room.old) (call_of message)) state)) }
{
    let reply = rig::handle_scheduler(&mut state, message, room);
    called_of(state, reply)
}

pub fn lend_request(
    mut state: FederateCoordinationState,
    request: Request,
    room: &mut [u8],
) -> Called
    ensures promised { Promised (lent (length room.old) (request_of request)) state result }
    ensures bytes { room.new ≡ put_at room.old 0 (records_of (actions_of (lent (length room.old) (request_of request)) state)) }
{
    let reply = rig::handle_request(&mut state, request, room);
    called_of(state, reply)
}

pub fn lend_change(mut state: FederateCoordinationState, change: Change, enclaves: &[u32]) -> Called
    ensures { Promised (lent 0 (change_of change enclaves.now)) state result }
{
    let reply = rig::change_gate(&mut state, change, enclaves);
    called_of(state, reply)
}
