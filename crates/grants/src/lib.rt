// What an acquisition decides (document 01, "Acquisition"; state.rs: handle_acquisition): the gate and what is granted, the flags of those granted, and the
// records of the Grants. Nothing is refused here; a count beyond the columns is the caller's to exclude.
#![tactic(auto)]

ghost use Rattle.std.specs.Prelude.{◌≡◌, cond, ◌&&◌, ◌≤◌, ◌<◌, T};
ghost use Rattle.tags.specs.Tags.{is_proper, is_present};
ghost use Rattle.rules.specs.Acquisition.{is_newer, raised_horizon};
ghost use Rattle.emission.specs.Written.{Adds};
ghost use Rattle.state.specs.Cells.{optional_of, stored_of};
ghost use Rattle.state.specs.declared.FederateCoordinationState.{FederateCoordinationState as Held};
ghost use Rattle.state.specs.Decides.{Good};
ghost use Rattle.grants.specs.Acquire.{is_stale, storing, brings_nothing, grantable_at, grants_of, Unpublished, Acquires};

use records::{CoordinationAction, CoordinationPhase, FederateAcquisition};
use state::{Coordination, FederateCoordinationState, Gate};
use tags::Tag;

// What an acquisition grants.
#[derive(Clone, Copy)]
pub struct Granted {
    // The capped tag: the published candidates up to it are granted.
    pub tag: Tag,
    pub horizon: Tag,
    pub coordination: Coordination,
}

// What an acquisition makes of the small parts.
#[derive(Clone, Copy)]
pub struct Acquired {
    pub gate: Gate,
    // None where the acquisition is outdated or nothing is new.
    pub granted: Option<Granted>,
}

// The acquisition is kept as it came, for the input horizon may move.
fn stored(gate: Gate, revision: u64, tag: Tag) -> Gate
    ensures { result ≡ cond (is_present (optional_of gate.input_horizon) && is_newer revision tag (stored_of gate.stored_revision gate.stored_granted)) (storing revision tag gate) gate }
{
    let last = gate.stored_granted;
    let is_newer = state::is_absent(last)
        || gate.stored_revision != revision
        || !tags::at_or_below(tag, last);
    if !state::is_absent(gate.input_horizon) && is_newer {
        Gate {
            stored_revision: revision,
            stored_granted: tag,
            ..gate
        }
    } else {
        gate
    }
}

// "It is ignored if stopped or of another revision."
fn is_outdated(coordination: &Coordination, revision: u64) -> bool
    ensures { result ≡ is_stale revision coordination.now }
{
    coordination.phase == u8::from(CoordinationPhase::Stopped) || revision != coordination.revision
}

// "If no publication is pending, and there is no horizon or the tag is not above it: nothing more."
fn brings_nothing(state: &FederateCoordinationState, tag: Tag) -> bool
    ensures { result ≡ brings_nothing tag state.now }
{
    !state.coordination.pending
        && state::optional_of(state.grant_horizon).is_none_or(|h| tags::at_or_below(tag, h))
}

// "The horizon becomes the greater."
fn raised_horizon(state: &FederateCoordinationState, tag: Tag) -> Tag
    ensures { result ≡ raised_horizon (optional_of state.now.grant_horizon) tag }
{
    state::optional_of(state.grant_horizon).map_or(tag, |h| tags::greater(h, tag))
}

// What an acquisition decides, the flags and the records aside, in every state with these small parts.
pub fn acquire(state: &FederateCoordinationState, acquisition: FederateAcquisition) -> Acquired
    ensures { (s : Held) → Good s → T (is_proper acquisition.granted) → s.coordination ≡ state.now.coordination → s.gate ≡ state.now.gate → s.grant_horizon ≡ state.now.grant_horizon → Acquires acquisition.revision acquisition.granted s result }
{
    let FederateAcquisition { revision, granted } = acquisition;
    if is_outdated(&state.coordination, revision) {
        return Acquired {
            gate: state.gate,
            granted: None,
        };
    }
    let reach = tags::capped_by(state::optional_of(state.gate.input_horizon), granted);
    let gate = stored(state.gate, revision, granted);
    if brings_nothing(state, reach) {
        return Acquired {
            gate,
            granted: None,
        };
    }
    let horizon = raised_horizon(state, reach);
    let coordination = state::without_pending(state.coordination, state.coordination.phase);
    Acquired {
        gate: Gate {
            granted: reach,
            ..gate
        },
        granted: Some(Granted {
            tag: reach,
            horizon,
            coordination,
        }),
    }
}

// Whether the candidate at a place is published and at or below the tag.
fn is_grantable(state: &FederateCoordinationState, place: usize, tag: Tag) -> bool
    requires { place < 32 }
    ensures { result ≡ grantable_at state.now tag place }
{
    state.published[place] && tags::is_at_or_below(state::optional_of(state.tag_at(place)), tag)
}

// The flags without those granted up to the tag; a place past the count keeps its own.
pub fn unpublished(state: &FederateCoordinationState, tag: Tag) -> [bool; 32]
    requires { state.now.count ≤ 32 }
    ensures { Unpublished state.now tag result }
{
    table::published_without(state, |place| is_grantable(state, place, tag))
}

// Adds a Grant for each enclave whose published candidate is at or below the tag, by ascending index.
pub fn add_grants(
    room: &mut [u8],
    written: usize,
    state: &FederateCoordinationState,
    tag: Tag,
) -> usize
    requires { (written ≤ 4) × (state.now.count ≤ 32) }
    ensures { Adds (grants_of state.now tag state.now.count) room.old written room.new result }
{
    let mut total = written;
    for place in 0..state.count {
        if is_grantable(state, place, tag) {
            let enclave = state.enclaves[place];
            let candidate = state.tag_at(place);
            let grant = CoordinationAction::Grant {
                enclave,
                tag: candidate,
            };
            total = emission::add(room, total, grant);
        }
    }
    total
}
