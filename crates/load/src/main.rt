// A load to measure speed with, played on a state by value. Standard input has one line, `KIND N STRIDE TURNS NANOS`: five numbers with a blank between
// them. N enclaves, at most 32, have indices STRIDE apart. Kind 0 grants and completes one tag a turn (src/busy.rt), kind 1 goes idle, stops and is
// revived once a turn (src/idle.rt). Written are the number of actions in all and the sum of the refusals' numbers, 0 when every call was taken: an opening
// that is refused leaves the blank state, which refuses every call.
#![tactic(auto)]

mod busy;
mod given;
mod idle;
mod totals;

use given::Load;
use records::LifecyclePolicy;
use state::FederateCoordinationState;
use std::io;
use totals::Totals;

// A federate that is kept alive is parked without a probe.
fn policy_of(load: Load) -> LifecyclePolicy {
    if load.idle {
        LifecyclePolicy::TerminateWhenIdle
    } else {
        LifecyclePolicy::KeepAlive
    }
}

fn open(load: Load) -> FederateCoordinationState {
    opening::new(&load.enclaves()[..load.count], policy_of(load), 0, 0).state
}

fn play(load: Load) -> Totals {
    if load.idle {
        idle::play(open(load), load)
    } else {
        busy::play(open(load), load)
    }
}

fn main(rt: HostRuntime) -> io::Result<()> {
    let mut bytes = [0; 64];
    let n = streams::read_full(&mut rt.reader(), &mut bytes)?;
    let Totals { actions, refusals } = play(given::read_load(&bytes[..n]));
    println!(rt; "{actions} {refusals}")
}
