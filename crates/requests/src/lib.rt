// The calls of the rig host besides the scheduler's messages, by value: one call for those that take room, one for those of the gate that change the
// state. Each request and change is handed to the call that it names, which refuses what it refuses.
#![tactic(auto)]

ghost use Rattle.std.specs.Prelude.{◌≡◌, length};
ghost use Rattle.octets.specs.Runs.{put_at};
ghost use Rattle.actions.specs.Record.{records_of};
ghost use Rattle.calls.specs.Called.{lent, actions_of, Promised};
ghost use Rattle.requests.specs.Named.{request_of, change_of};

use calls::Called;
use records::{
    CoordinationRevision, EnclaveIndex, FederateAcquisition, FederatePublication, Observation,
};
use state::FederateCoordinationState;
use tags::Tag;

// A call that takes room and is no scheduler message.
#[derive(Clone, Copy)]
pub enum Request {
    Acquisition(FederateAcquisition),
    PublicationSent(FederatePublication),
    Observation(EnclaveIndex, CoordinationRevision, Observation),
    IdleConfirmation(CoordinationRevision),
    Stop,
    InputProgress,
}

// A call of the gate that changes the state.
#[derive(Clone, Copy)]
pub enum Change {
    InputHorizon(Option<Tag>),
    BeginTag(EnclaveIndex, Tag),
    // Of the enclaves that are lent beside it.
    InputPublishing,
}

// The request's call.
pub fn handle_request(state: FederateCoordinationState, request: Request, room: &mut [u8]) -> Called
    ensures promised { Promised (lent (length room.old) (request_of request)) state result }
    ensures bytes { room.new ≡ put_at room.old 0 (records_of (actions_of (lent (length room.old) (request_of request)) state)) }
{
    match request {
        Request::Acquisition(acquisition) => {
            acquisition::handle_acquisition(state, acquisition, room)
        }
        Request::PublicationSent(publication) => {
            acquisition::handle_publication_sent(state, publication, room)
        }
        Request::Observation(enclave, revision, observation) => {
            observation::handle_observation(state, enclave, revision, observation, room)
        }
        Request::IdleConfirmation(revision) => {
            observation::handle_idle_confirmation(state, revision, room)
        }
        Request::Stop => observation::stop(state, room),
        Request::InputProgress => acquisition::input_progress(state, room),
    }
}

// The change's call; only `InputPublishing` looks at the enclaves.
pub fn change_gate(state: FederateCoordinationState, change: Change, enclaves: &[u32]) -> Called
    ensures { Promised (lent 0 (change_of change enclaves.now)) state result }
{
    match change {
        Change::InputHorizon(horizon) => gate::set_input_horizon(state, horizon),
        Change::BeginTag(enclave, tag) => gate::begin_tag(state, enclave, tag),
        Change::InputPublishing => gate::input_publishing(state, enclaves),
    }
}
