// Drives the public calls that `rig_scenario` does not: openings with their refusals 5, 2, 6 and 1, every query, by its number for a host, in states that tell its answers apart and on a
// state that is refused 27, `delay` with 7 and 10 (P4 is its first), the verdicts, and action records with 28. P5 is the third line of queries. The file
// stdout was held against document 01 by hand.
#![tactic(auto)]

mod alone;
mod ask;
mod say;

use alone::open;
use ask::ask;
use records::{CoordinationPhase, LifecyclePolicy};
use state::{Coordination, FederateCoordinationState};
use std::io;
use std::io::Write;

// A sound state as a caller could build it: idle confirmation awaited, a publication pending, a failure stored.
fn built(opened: FederateCoordinationState) -> FederateCoordinationState {
    FederateCoordinationState {
        coordination: Coordination {
            phase: u8::from(CoordinationPhase::AwaitingIdleConfirmation),
            pending: true,
            pending_revision: 4,
            ..opened.coordination
        },
        failed: true,
        first_failure: 7,
        ..opened
    }
}

// Built by hand, then stopped, then revived (P5).
fn queries<W: Write>(out: &mut W, opened: FederateCoordinationState) -> io::Result<()> {
    ask(out, "built", built(opened), 7)?;
    let stopped = observation::stop(opened, &mut [0; 224]).state;
    ask(out, "stopped", stopped, 3)?;
    ask(out, "P5", gate::input_publishing(stopped, &[]).state, 9)
}

fn main(rt: HostRuntime) -> io::Result<()> {
    let mut out = io::writer(&rt);
    let opened = open(
        &mut out,
        &[7, 3],
        LifecyclePolicy::CoordinatedTermination,
        8,
    )?;
    queries(&mut out, opened)?;
    open(&mut out, &[9; 33], LifecyclePolicy::KeepAlive, 0)?;
    open(&mut out, &[5, 4095, 5], LifecyclePolicy::KeepAlive, 0)?;
    open(&mut out, &[5, 4096, 5], LifecyclePolicy::KeepAlive, 0)?;
    let blank = open(&mut out, &[], LifecyclePolicy::KeepAlive, 0)?;
    ask(&mut out, "blank", blank, 3)?;
    alone::delays(&mut out)?;
    alone::verdicts(&mut out)?;
    alone::records(&mut out)
}
