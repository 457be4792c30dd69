// Turn k: every enclave publishes the tag k:NANOS:0, the last of several one second later; one acquisition of the current revision grants k:NANOS:0; then
// every enclave completes it with network input, but the last of several answers the completion probe with the current generation. 2 N + 1 calls a turn.
ghost use Rattle.std.specs.Prelude.{◌≤◌, ◌<◌};

use crate::given::Load;
use crate::totals::Totals;
use records::{FederateAcquisition, SchedulerMessage};
use state::FederateCoordinationState;
use tags::Tag;

fn tag_of(load: Load, seconds: u64) -> Tag
    requires { seconds ≤ 100001 }
{
    Tag {
        seconds: seconds as i64,
        nanoseconds: load.nanoseconds,
        microstep: 0,
    }
}

// Whether this is the last of several enclaves.
fn is_last(load: Load, place: usize) -> bool
    requires { place ≤ 31 }
{
    (0 < place) & (place + 1 == load.count)
}

fn publish(load: Load, turn: u64, place: usize) -> SchedulerMessage
    requires { (turn ≤ 100000) × (place ≤ 31) }
{
    let tag = tag_of(load, turn + u64::from(is_last(load, place)));
    SchedulerMessage::Publish {
        enclave: load.enclave(place),
        next_event: Some(tag),
    }
}

fn complete(load: Load, turn: u64, place: usize, generation: u64) -> SchedulerMessage
    requires { (turn ≤ 100000) × (place ≤ 31) }
{
    let enclave = load.enclave(place);
    if is_last(load, place) {
        return SchedulerMessage::CompletionObserved {
            enclave,
            generation,
        };
    }
    SchedulerMessage::CompleteTag {
        enclave,
        tag: tag_of(load, turn),
        network_input: true,
    }
}

// The calls are made here, on the state itself, in loops as in bench/driver.rs: handing it to another function would be measured too.
pub fn play(opened: FederateCoordinationState, load: Load) -> Totals {
    let mut space = [0; 1904];
    let room: &mut [u8] = &mut space;
    let mut state = opened;
    let mut totals = Totals::default();
    for turn in 1..load.turns + 1 {
        for place in 0..load.count {
            let called = federate::handle_scheduler(state, publish(load, turn, place), room);
            state = called.state;
            totals.add(called.reply);
        }
        let acquisition = FederateAcquisition {
            revision: state.coordination.revision,
            granted: tag_of(load, turn),
        };
        let called = acquisition::handle_acquisition(state, acquisition, room);
        state = called.state;
        totals.add(called.reply);
        for place in 0..load.count {
            let generation = state.completion.completion_generation;
            let said = complete(load, turn, place, generation);
            let called = federate::handle_scheduler(state, said, room);
            state = called.state;
            totals.add(called.reply);
        }
    }
    totals
}
