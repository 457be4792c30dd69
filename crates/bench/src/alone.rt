// The calls that take no state: openings, `delay`, the verdicts, and action records written and read.
use crate::say::Shown;
use delay::Duration;
use records::{CoordinationAction, CoordinationPhase, LifecyclePolicy, Observation};
use state::FederateCoordinationState;
use std::io;
use std::io::Write;
use tags::Tag;

// The opening of these enclaves, with its refusal shown.
pub fn open<W: Write>(
    out: &mut W,
    enclaves: &[u32],
    policy: LifecyclePolicy,
    generation: u64,
) -> io::Result<FederateCoordinationState> {
    let opened = opening::new(enclaves, policy, 0, generation);
    let refusal = records::refusal_number(opened.refusal);
    writeln!(out, "opening {refusal}")?;
    Ok(opened.state)
}

// P4 is the first.
pub fn delays<W: Write>(out: &mut W) -> io::Result<()> {
    let start = Tag {
        seconds: 1,
        nanoseconds: 500000000,
        microstep: 8,
    };
    let forever = Tag::FOREVER;
    for (tag, seconds, nanoseconds) in [
        (start, 0, -600000000),
        (start, 0, 0),
        (start, -3, -700000000),
        (start, 1, -1),
        (forever, 0, 0),
        (forever, 0, 1),
    ] {
        let offset = Duration {
            seconds,
            nanoseconds,
        };
        let delayed = delay::delay(tag, offset);
        let refusal = records::refusal_number(delayed.refusal);
        let moved = Shown(Some(delayed.tag));
        writeln!(out, "delay {refusal} {moved}")?;
    }
    Ok(())
}

// 0 counts, 1 is ignored, 2 is refused.
pub fn verdicts<W: Write>(out: &mut W) -> io::Result<()> {
    for (phase, observation) in [
        (CoordinationPhase::Probing, Observation::Probed),
        (CoordinationPhase::Parking, Observation::Probed),
        (CoordinationPhase::Active, Observation::Probed),
    ] {
        let verdict = u8::from(verdicts::verdict(phase, observation));
        writeln!(out, "verdict {verdict}")?;
    }
    Ok(())
}

// The kind of the action that is read, or 28.
fn read(bytes: &[u8]) -> u8 {
    match actions::read_action(bytes) {
        Err(refusal) => u8::from(refusal),
        Ok(action) => u8::from(action),
    }
}

// Whether the record fits at the place of a room for one, and what the room then holds.
fn show_record<W: Write>(out: &mut W, place: usize, action: CoordinationAction) -> io::Result<()> {
    let mut room = [0u8; 56];
    let fits = u8::from(actions::write_action(&mut room, place, action));
    let found = read(&room);
    writeln!(out, "record {fits} {found}")
}

// A record past the room, one of an improper tag and a good one; then bytes that are none: too few, and with an unused byte set.
pub fn records<W: Write>(out: &mut W) -> io::Result<()> {
    let tag = Tag {
        seconds: 1,
        nanoseconds: -1,
        microstep: 0,
    };
    show_record(out, 1, CoordinationAction::Stop)?;
    show_record(out, 0, CoordinationAction::AdvanceHorizon { tag })?;
    show_record(out, 0, CoordinationAction::Park { revision: 7 })?;
    let mut unused = [0u8; 56];
    unused[0] = 10;
    unused[55] = 1;
    let short = read(&[10; 55]);
    let unused = read(&unused);
    writeln!(out, "read {short}")?;
    writeln!(out, "read {unused}")
}
