// A script's listing before and after its run (document 01, "Script and its listing"): the script opened, the line of its refusal, and the last line. New here:
// the Rust has no scripts. Refused as scripts are, 12, 11 with its place, then as the opening; a room too small for the line is left as it is.
#![tactic(auto)]

ghost use Rattle.std.specs.Prelude.{◌≡◌};
ghost use Rattle.records.specs.Numbers.{refusal_number};
ghost use Rattle.session.specs.Open.{nowhere, OpensScript};
ghost use Rattle.session.specs.Listing.{refusal_line, last_line, Lists};

use records::{CoordinationPhase, LifecyclePolicy, Refusal};
use run::Running;
use state::FederateCoordinationState;

// A script opened: where its run begins; or why it was refused and, for 11, at which place.
// Kept: no `Result`, since `OpensScript` says of a refused script too what state it leaves, the blank one (a).
#[derive(Clone, Copy)]
pub struct Opened {
    pub refusal: Option<Refusal>,
    pub place: usize,
    pub start: Running,
}

// Where the run of a refused script would begin: an opening of nobody leaves the blank state.
fn nowhere() -> Running
    ensures { result ≡ nowhere }
{
    let opened = opening::new(&[], LifecyclePolicy::KeepAlive, 0, 0);
    Running {
        state: opened.state,
        at: 0,
        events: 0,
        left: 0,
    }
}

// The script that the bytes are, opened: refused 12, 11 with its place, then as the opening.
pub fn open(bytes: &[u8]) -> Opened
    ensures { OpensScript bytes.now result }
{
    let read = match script::read_script(bytes) {
        Ok(read) => read,
        Err(bad) => {
            return Opened {
                refusal: Some(bad.refusal),
                place: bad.place,
                start: nowhere(),
            };
        }
    };
    let participants = read.participants;
    let listed: &[u32] = &participants.indices;
    let opened = opening::new(
        &listed[..participants.count],
        read.policy,
        read.revision,
        read.generation,
    );
    Opened {
        refusal: opened.refusal,
        place: 0,
        start: Running {
            state: opened.state,
            at: read.events_at,
            events: read.events,
            left: read.events,
        },
    }
}

// Lists why a script was refused, from byte 0 of the room, and answers how many bytes that took; none if the room has less than 160.
pub fn list_refusal(refusal: Option<Refusal>, place: usize, out: &mut [u8]) -> usize
    ensures { Lists 160 (refusal_line (refusal_number refusal) place) out.old out.new result }
{
    if out.len() < 160 {
        return 0;
    }
    if refusal == Some(Refusal::ScriptOutOfForm) {
        return listing::put_misplaced(out, 0, place);
    }
    listing::put_refused(out, 0, refusal)
}

// Lists the end of a run, from byte 0 of the room, and answers how many bytes that took; none if the room has less than 240. What the queries answer, with 27
// asked once.
pub fn list_end(state: FederateCoordinationState, out: &mut [u8]) -> usize
    ensures { Lists 240 (last_line state) out.old out.new result }
{
    if out.len() < 240 {
        return 0;
    }
    if !soundness::is_sound(&state) {
        return listing::put_end(out, 0, 0, CoordinationPhase::Active, 0, None, None, false);
    }
    let coordination = state.coordination;
    let completion = state.completion;
    let phase = queries::phase_of(coordination.phase);
    let completed = state::optional_of(completion.completed_frontier);
    let granted = state::optional_of(state.grant_horizon);
    let settled = queries::no_publication_and_no_probe(coordination, completion);
    listing::put_end(
        out,
        0,
        coordination.revision,
        phase,
        completion.completion_generation,
        completed,
        granted,
        settled,
    )
}
