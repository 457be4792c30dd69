// The rig host's one state, lent and updated (document 01, "&mut state wrappers that copy out, call the by-value step and store the result"): one call for
// the scheduler's messages, one for the other calls that take room, one for those of the gate that change the state. Each promises, of what stands behind
// the state at its end, of the reply and of the room, what the by-value call promises; a refused call leaves all three as they were.
#![tactic(auto)]

ghost use Rattle.std.specs.Prelude.{◌≡◌, length};
ghost use Rattle.octets.specs.Runs.{put_at};
ghost use Rattle.actions.specs.Record.{records_of};
ghost use Rattle.dispatch.specs.Messages.{call_of};
ghost use Rattle.calls.specs.Called.{lent, actions_of};
ghost use Rattle.requests.specs.Named.{request_of, change_of};
ghost use Rattle.rig.specs.Updates.{Updates};

use calls::Reply;
use records::SchedulerMessage;
use requests::{Change, Request};
use state::FederateCoordinationState;

// One scheduler message.
pub fn handle_scheduler(
    state: &mut FederateCoordinationState,
    message: SchedulerMessage,
    room: &mut [u8],
) -> Reply
    ensures updates { Updates (lent (length room.old) (call_of message)) state.old state.new result }
    ensures bytes { room.new ≡ put_at room.old 0 (records_of (actions_of (lent (length room.old) (call_of message)) state.old)) }
{
    let called = federate::handle_scheduler(*state, message, room);
    *state = called.state;
    called.reply
}

// One of the other calls that take room.
pub fn handle_request(
    state: &mut FederateCoordinationState,
    request: Request,
    room: &mut [u8],
) -> Reply
    ensures updates { Updates (lent (length room.old) (request_of request)) state.old state.new result }
    ensures bytes { room.new ≡ put_at room.old 0 (records_of (actions_of (lent (length room.old) (request_of request)) state.old)) }
{
    let called = requests::handle_request(*state, request, room);
    *state = called.state;
    called.reply
}

// One of the gate's calls that change the state.
pub fn change_gate(state: &mut FederateCoordinationState, change: Change, enclaves: &[u32]) -> Reply
    ensures { Updates (lent 0 (change_of change enclaves.now)) state.old state.new result }
{
    let called = requests::change_gate(*state, change, enclaves);
    *state = called.state;
    called.reply
}
