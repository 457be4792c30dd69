// A turn that goes idle: every enclave publishes no tag, then observes as it is probed, parked and rechecked, which stops the federate, until an input
// notice that names all revives it. Each names the current revision. 4 N + 1 calls a turn; with no enclave, index 0 calls all the same: 5.
use crate::given::Load;
use crate::totals::Totals;
use records::{Observation, SchedulerMessage};
use state::FederateCoordinationState;

// The calls are made here, on the state itself: handing it to another function would be measured too.
pub fn play(opened: FederateCoordinationState, load: Load) -> Totals {
    let mut space = [0; 1904];
    let room: &mut [u8] = &mut space;
    let list = load.enclaves();
    let callers = &list[..load.count.max(1)];
    let mut called = calls::with_reply(opened, None, None, 0);
    let mut totals = Totals::default();
    for _ in 0..load.turns {
        for enclave in callers {
            let idle = SchedulerMessage::Publish {
                enclave: *enclave,
                next_event: None,
            };
            called = federate::handle_scheduler(called.state, idle, room);
            totals.add(called.reply);
        }
        for seen in [
            Observation::Probed,
            Observation::Parked,
            Observation::Rechecked,
        ] {
            for enclave in callers {
                let revision = called.state.coordination.revision;
                called = observation::handle_observation(
                    called.state,
                    *enclave,
                    revision,
                    seen,
                    room,
                );
                totals.add(called.reply);
            }
        }
        called = gate::input_publishing(called.state, &list[..load.count]);
        totals.add(called.reply);
    }
    totals
}
