// A script run with an event budget (document 01, "Script and its listing"): each event is read again from its line, taken by its call and listed into lent
// room. A run takes the lesser of its budget and of the events left, and no more than the room surely holds; refused events count.
#![tactic(auto)]

ghost use Rattle.std.specs.Prelude.{◌+◌, ◌≤◌, length};
ghost use Rattle.events.specs.Events.{event_of};
ghost use Rattle.events.specs.Told.{call_told};
ghost use Rattle.script.specs.Lines.{item};
ghost use Rattle.run.specs.Promises.{Runs, ListsBy, StepsBy};

use events::Event;
use state::FederateCoordinationState;

// A script's run: the state, the place of the next event's line, how many events the script has, and how many are left.
#[derive(Clone, Copy)]
pub struct Running {
    pub state: FederateCoordinationState,
    pub at: usize,
    pub events: usize,
    pub left: usize,
}

// What a run came to: the run from there on, the number of events taken and of bytes written.
#[derive(Clone, Copy)]
pub struct Ran {
    pub rest: Running,
    pub taken: usize,
    pub written: usize,
}

// An event taken by its call, and where its lines end.
#[derive(Clone, Copy)]
struct Listed {
    state: FederateCoordinationState,
    written: usize,
}

// One event taken, the place after it, and where its lines end.
#[derive(Clone, Copy)]
struct Stepped {
    state: FederateCoordinationState,
    at: usize,
    written: usize,
}

// Takes the event by its call and lists it from `written` on.
fn list_event(
    state: FederateCoordinationState,
    event: Event,
    listed: &[u32],
    number: u64,
    out: &mut [u8],
    written: usize,
) -> Listed
    requires { written + 5600 ≤ length out.old }
    ensures { ListsBy (call_told event listed.now) state number written out.old out.new result }
{
    let mut room: [u8; 1904] = [0; 1904];
    let called = take::take(state, Some(event), listed, &mut room);
    let reply = called.reply;
    let told = listing::put_event(
        out,
        written,
        number,
        reply.refusal,
        reply.answer,
        reply.actions,
    );
    let after = listing::put_actions(out, told, &room, reply.actions);
    Listed {
        state: called.state,
        written: after,
    }
}

// The event at the place, taken and listed; none where no event stands.
fn step(
    script: &[u8],
    state: FederateCoordinationState,
    at: usize,
    number: u64,
    out: &mut [u8],
    written: usize,
) -> Option<Stepped>
    requires { written + 5600 ≤ length out.old }
    ensures { StepsBy (item event_of script.now at) state number written out.old out.new result }
{
    if !reader::is_ended(script, at) {
        return None;
    }
    let line = reader::line_from(script, at);
    let event = eventlines::read_event(line)?;
    let enclaves = eventlines::enclaves(line);
    let listed = list_event(state, event, &enclaves, number, out, written);
    Some(Stepped {
        state: listed.state,
        at: reader::place_after(script, at),
        written: listed.written,
    })
}

// Runs at most `budget` events from where the run stands, and lists them from byte 0 of the room on.
pub fn run(script: &[u8], from: Running, budget: usize, out: &mut [u8]) -> Ran
    ensures { Runs script.now from budget out.old out.new result }
{
    let events = from.events;
    let left = from.left;
    let allowed = budget::allowance(budget, left, out.len());
    let before = budget::difference(events, left);
    let mut state = from.state;
    let mut at = from.at;
    let mut taken: usize = 0;
    let mut written: usize = 0;
    // Kept: a while, since the number taken is answered, and the loop ends before it is `allowed` where no event stands (d).
    while taken < allowed {
        let number = (before + taken + 1) as u64;
        let Some(stepped) = step(script, state, at, number, out, written) else {
            break;
        };
        state = stepped.state;
        at = stepped.at;
        written = stepped.written;
        taken += 1;
    }
    let rest = Running {
        state,
        at,
        events,
        left: left - taken,
    };
    Ran {
        rest,
        taken,
        written,
    }
}
