// The rig host's calls on a lent state, side by side with the calls by value: the rows of the file stdin (src/row.rt), all calls taken and refused, are
// played on several openings, and after each call every cell of the state, the reply and every byte of the room are compared, and where it was refused
// also the state with the one before it. One line a play: per call its refusal and action count, then `=` where all agree and `!` where not; at last how
// many did. The last line shows that the comparison tells states apart which differ in one cell.
#![tactic(auto)]

mod row;

use calls::{Called, Reply};
use records::LifecyclePolicy;
use row::{Asked, Row};
use state::FederateCoordinationState;
use std::io;
use std::io::Write;

// The two calls gave the same, and a refused one left the state as it was.
fn agree(
    before: FederateCoordinationState,
    lent: Called,
    valued: Called,
    room: &[u8],
    other_room: &[u8],
) -> bool {
    lent == valued && (lent.reply.refusal.is_none() || before == lent.state) && room == other_room
}

fn say_reply<W: Write>(out: &mut W, reply: Reply, agreed: bool) -> io::Result<()> {
    let refusal = records::refusal_number(reply.refusal);
    let actions = reply.actions;
    let mark = if agreed { '=' } else { '!' };
    write!(out, " {refusal}/{actions}{mark}")
}

fn lent_call(state: FederateCoordinationState, row: Row, room: &mut [u8]) -> Called {
    match row.asked {
        Asked::Change(change) => lender::lend_change(state, change, row.enclave.as_slice()),
        Asked::Request(request) => lender::lend_request(state, request, room),
        Asked::Message(message) => lender::lend_scheduler(state, message, room),
    }
}

fn valued_call(state: FederateCoordinationState, row: Row, room: &mut [u8]) -> Called {
    match row.asked {
        Asked::Change(change) => requests::change_gate(state, change, row.enclave.as_slice()),
        Asked::Request(request) => requests::handle_request(state, request, room),
        Asked::Message(message) => federate::handle_scheduler(state, message, room),
    }
}

// The first 60 rows of the file, five bytes each, from this state, in two rooms that are alike.
fn play<W: Write>(
    out: &mut W,
    name: &str,
    rows: &[u8],
    mut state: FederateCoordinationState,
    room: &mut [u8],
    other_room: &mut [u8],
) -> io::Result<()> {
    let mut calls: usize = 0;
    let mut agreed: usize = 0;
    write!(out, "{name}")?;
    for bytes in rows.chunks(5).take(60) {
        if let [letter, enclave, tag, number, ..] = bytes {
            let row = row::row_of(*letter, *enclave, *tag, *number);
            let lent = lent_call(state, row, room);
            let valued = valued_call(state, row, other_room);
            let same = agree(state, lent, valued, room, other_room);
            say_reply(out, lent.reply, same)?;
            state = lent.state;
            calls = calls.saturating_add(1);
            agreed = agreed.saturating_add(usize::from(same));
        }
    }
    writeln!(out, "; agreed {agreed} of {calls}")
}

fn open(policy: LifecyclePolicy, generation: u64) -> FederateCoordinationState {
    opening::new(&[7, 3], policy, 0, generation).state
}

// A value that represents no state.
fn spoilt(state: FederateCoordinationState) -> FederateCoordinationState {
    FederateCoordinationState {
        lifecycle: 3,
        ..state
    }
}

// One cell is changed, the last of its column where it stands in one.
fn show_told_apart<W: Write>(out: &mut W, state: FederateCoordinationState) -> io::Result<()> {
    let mut tag = state;
    let mut enclave = state;
    tag.microsteps[95] = 1;
    enclave.enclaves[31] = 1;
    write!(out, "told apart")?;
    for other in [tag, enclave, spoilt(state), state] {
        let apart = u8::from(state != other);
        write!(out, " {apart}")?;
    }
    writeln!(out)
}

// Openings with room for what two participants ask for, and with a byte less.
fn play_all<W: Write>(out: &mut W, rows: &[u8]) -> io::Result<()> {
    let opened = open(LifecyclePolicy::TerminateWhenIdle, 0);
    let coordinated = open(LifecyclePolicy::CoordinatedTermination, 0);
    let last = open(LifecyclePolicy::TerminateWhenIdle, u64::MAX);
    for (name, state) in [
        ("terminate", opened),
        ("coordinated", coordinated),
        ("last generation", last),
    ] {
        play(out, name, rows, state, &mut [170; 224], &mut [170; 224])?;
    }
    play(
        out,
        "narrow",
        rows,
        opened,
        &mut [170; 223],
        &mut [170; 223],
    )?;
    play(
        out,
        "spoilt",
        rows,
        spoilt(opened),
        &mut [170; 224],
        &mut [170; 224],
    )?;
    show_told_apart(out, opened)
}

fn main(rt: HostRuntime) -> io::Result<()> {
    let mut rows = [0; 4096];
    let length = streams::read_full(&mut rt.reader(), &mut rows)?;
    play_all(&mut io::writer(&rt), &rows[..length])
}
