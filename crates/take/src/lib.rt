// An event taken by the call that it tells (document 01, "Script and its listing": the seventeen events). Total: what is no event is answered
// with 11 and changes nothing.
#![tactic(auto)]

ghost use Rattle.events.specs.Told.{told_event};
ghost use Rattle.take.specs.Takes.{Takes};

use calls::Called;
use events::Event;
use records::{FederateAcquisition, FederatePublication, Refusal, SchedulerMessage};
use state::FederateCoordinationState;

// The call that the event tells, with the enclaves that an `input` line names.
// Kept: longer than 40 lines, a line or two an event; the six messages meet before their one call, which would be inlined six times.
pub fn take(
    state: FederateCoordinationState,
    event: Option<Event>,
    listed: &[u32],
    room: &mut [u8],
) -> Called
    ensures { Takes (told_event event listed.now) state room.old room.new result }
{
    let Some(event) = event else {
        return calls::with_reply(state, Some(Refusal::ScriptOutOfForm), None, 0);
    };
    let message = match event {
        Event::Active(enclave) => SchedulerMessage::Active { enclave },
        Event::Publish(enclave, next_event) => SchedulerMessage::Publish {
            enclave,
            next_event,
        },
        Event::Complete(enclave, tag, network_input) => SchedulerMessage::CompleteTag {
            enclave,
            tag,
            network_input,
        },
        Event::Observed(enclave, generation) => SchedulerMessage::CompletionObserved {
            enclave,
            generation,
        },
        Event::Stopped(enclave) => SchedulerMessage::ParticipantStopped { enclave },
        Event::Failed(enclave) => SchedulerMessage::Failed { enclave },
        Event::Acquire(revision, granted) => {
            let acquisition = FederateAcquisition { revision, granted };
            return acquisition::handle_acquisition(state, acquisition, room);
        }
        Event::Sent(revision, next_event, grant_horizon) => {
            let publication = FederatePublication {
                revision,
                next_event,
                grant_horizon,
            };
            return acquisition::handle_publication_sent(state, publication, room);
        }
        Event::Observe(enclave, revision, observation) => {
            return observation::handle_observation(state, enclave, revision, observation, room);
        }
        Event::Idle(revision) => {
            return observation::handle_idle_confirmation(state, revision, room);
        }
        Event::Stop => return observation::stop(state, room),
        Event::Horizon(horizon) => return gate::set_input_horizon(state, horizon),
        Event::Begin(enclave, tag) => return gate::begin_tag(state, enclave, tag),
        Event::Late(enclave, tag) => {
            let reply = gate::input_is_late(state, enclave, tag);
            return Called { state, reply };
        }
        Event::Done(enclave, tag) => {
            let reply = gate::input_completed(state, enclave, tag);
            return Called { state, reply };
        }
        Event::Input(count) => {
            let named = count.min(listed.len());
            return gate::input_publishing(state, &listed[..named]);
        }
        Event::Progress => return acquisition::input_progress(state, room),
    };
    federate::handle_scheduler(state, message, room)
}
