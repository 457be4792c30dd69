// Refusal 27 (document 01, "Ceilings and refusals"): whether the numbers that a call is given hold a state of document 01, and a sound one.
// The Rust has no such test: its types hold nothing else. The state is lent throughout, so that none is copied.
// Every function refuses nothing; a place or a count beyond the columns is the caller's to exclude.
#![tactic(auto)]

ghost use Rattle.std.specs.Prelude.{◌≡◌, ◌&&◌, ◌≤◌, ◌<◌, leb, ltb};
ghost use Rattle.tags.specs.Tags.{◌≡ₜ◌};
ghost use Rattle.rules.specs.Calls.{is_sound};
ghost use Rattle.state.specs.Cells.{absent, is_cell, is_zero_unless};
ghost use Rattle.state.specs.View.{tag_at, view, represents};
ghost use Rattle.soundness.specs.Sound.{sound_count, sound_publication, sound_coordination, sound_inputs, sound_completion, sound_acquisition, sound_gate};
ghost use Rattle.soundness.specs.Sound.{sound_rest, sound_parts, sound_at, sound_places};

use state::{
    ABSENT, COMPLETED, Completion, Coordination, FederateCoordinationState, Gate, STARTED,
};
use tags::Tag;

fn count_is_sound(count: usize) -> bool
    ensures { result ≡ sound_count count }
{
    0 < count && count <= 32
}

fn zero_unless(present: bool, number: u64) -> bool
    ensures { result ≡ is_zero_unless present number }
{
    present || number == 0
}

fn is_mark(t: Tag) -> bool
    ensures { result ≡ (t ≡ₜ absent) }
{
    tags::same_tag(t, ABSENT)
}

fn is_mark_or_proper(t: Tag) -> bool
    ensures { result ≡ is_cell t }
{
    is_mark(t) || tags::is_proper(t)
}

// Kept: the first test, which `is_proper` implies (b): without it a call at 32 enclaves takes 2,991 instructions in place of 2,450, over the 2,656 of the Rust.
fn is_cell(t: Tag) -> bool
    ensures { result ≡ is_cell t }
{
    if t.nanoseconds == 0 {
        return true;
    }
    is_mark_or_proper(t)
}

// Kept: the started cell without that test (b), as most enclaves have begun nothing: by `is_cell` a call at 32 enclaves takes 2,514 instructions in place of 2,450, over the bar of 2,456.
fn place_is_sound(state: &FederateCoordinationState, i: usize) -> bool
    requires { i < 32 }
    ensures { result ≡ sound_at state.now i }
{
    state.observation[i] <= 3
        && zero_unless(state.acknowledged[i], state.completion_observed[i])
        && is_cell(state.tag_at(i))
        && is_cell(state.tag_at(COMPLETED + i))
        && is_mark_or_proper(state.tag_at(STARTED + i))
}

// The places are walked from the last, so that one test bounds an index and has it below the next.
fn places_are_sound(state: &FederateCoordinationState) -> bool
    requires { state.now.count ≤ 32 }
    ensures { result ≡ sound_places state.now }
{
    let mut above: u32 = 4096;
    for i in (0..state.count).rev() {
        let index = state.enclaves[i];
        if above <= index || !place_is_sound(state, i) {
            return false;
        }
        above = index;
    }
    true
}

// Whether both are cells.
pub fn are_cells(a: Tag, b: Tag) -> bool
    ensures { result ≡ (is_cell a && is_cell b) }
{
    is_cell(a) && is_cell(b)
}

// Whether a pending publication holds two cells, and an absent one nothing.
pub fn publication_is_sound(coordination: &Coordination) -> bool
    ensures { result ≡ sound_publication coordination.now }
{
    if coordination.pending {
        are_cells(
            coordination.pending_next_event,
            coordination.pending_grant_horizon,
        )
    } else {
        coordination.pending_revision == 0
            && is_mark(coordination.pending_next_event)
            && is_mark(coordination.pending_grant_horizon)
    }
}

// Whether the phase is one of the seven, and an absent authorization 0.
fn coordination_is_sound(coordination: &Coordination) -> bool
    ensures { result ≡ sound_coordination coordination.now }
{
    coordination.phase <= 6
        && zero_unless(coordination.authorized, coordination.idle_authorization)
        && publication_is_sound(coordination)
}

// Whether both are there or neither.
pub fn inputs_are_sound(first: Tag, last: Tag) -> bool
    ensures { result ≡ sound_inputs first last }
{
    if is_mark(first) {
        is_mark(last)
    } else {
        tags::is_proper(first) && tags::is_proper(last)
    }
}

fn completion_is_sound(completion: &Completion) -> bool
    ensures { result ≡ sound_completion completion.now }
{
    are_cells(completion.completed_frontier, completion.completion_probe)
        && inputs_are_sound(completion.first_input, completion.last_input)
}

// Whether the stored acquisition has a proper tag, or the mark and revision 0.
pub fn acquisition_is_sound(revision: u64, granted: Tag) -> bool
    ensures { result ≡ sound_acquisition revision granted }
{
    if is_mark(granted) {
        revision == 0
    } else {
        tags::is_proper(granted)
    }
}

fn gate_is_sound(gate: &Gate) -> bool
    ensures { result ≡ sound_gate gate.now }
{
    are_cells(gate.granted, gate.input_horizon)
        && acquisition_is_sound(gate.stored_revision, gate.stored_granted)
}

// Whether the lifecycle is one of the three, the grant horizon a cell, and an absent failure 0.
pub fn rest_is_sound(state: &FederateCoordinationState) -> bool
    ensures { result ≡ sound_rest state.now }
{
    state.lifecycle <= 2
        && is_cell(state.grant_horizon)
        && zero_unless(state.failed, u64::from(state.first_failure))
}

// All but the places.
fn parts_are_sound(state: &FederateCoordinationState) -> bool
    ensures { result ≡ sound_parts state.now }
{
    count_is_sound(state.count)
        && coordination_is_sound(&state.coordination)
        && completion_is_sound(&state.completion)
        && gate_is_sound(&state.gate)
        && rest_is_sound(state)
}

// Whether the state holds one of document 01 and is sound.
pub fn is_sound(state: &FederateCoordinationState) -> bool
    ensures { result ≡ (represents state.now && is_sound (view state.now)) }
{
    parts_are_sound(state) && places_are_sound(state)
}
