// The participant table: questions to the columns of a state, and cells put and cleared (state.rs: the walks over `participants`).
// The state is lent, so that nothing is copied. Every function refuses nothing; a place or a count beyond the columns is the caller's to exclude.
// Kept: a count of at most 32 is asked by each function, and is no invariant of the state, since the state that C lends may hold any count (27).
#![tactic(auto)]

ghost use Rattle.std.specs.Prelude.{◌≡◌, ℕ, false, cond, not, ◌||◌, ◌+◌, ◌≤◌, ◌<◌, eqb, get_or, None};
ghost use Rattle.tags.specs.Tags.{is_present, lesser_of, greater_of, lesser_of_both, is_below, is_at_or_below};
ghost use Rattle.rules.specs.Walk.{is_number};
ghost use Rattle.state.specs.Cells.{is_absent, optional_of, cell_of, number_if};
ghost use Rattle.state.specs.Walk.{all_of, any_of, place_from, least_from, greatest_from};
ghost use Rattle.state.specs.View.{tag_at};
ghost use Rattle.state.specs.Parts.{Apart, cleared, place_in, row_of, with_row};
ghost use Rattle.table.specs.declared.Scanned.TheVariants.{Blocked, Waiting, Answered};
ghost use Rattle.table.specs.Scan.{blocks_at, answered_at};
ghost use Rattle.table.specs.Flags.{Cleared};

use state::{ABSENT, COMPLETED, FederateCoordinationState, Row};
use tags::Tag;

// The place of an enclave, if it is a participant.
pub fn find(state: &FederateCoordinationState, enclave: u32) -> Option<usize>
    requires { state.now.count ≤ 32 }
    ensures { result ≡ place_in state.now enclave }
{
    for i in 0..state.count {
        if state.enclaves[i] == enclave {
            return Some(i);
        }
    }
    None
}

// `find` where no two of the places hold the same number, or the count: the enclave's own number is tried first, as where indices are dense it is the place.
// Kept: the count in place of None. A scheduler call needs a place also where it is refused 8 or 7 first; with None it would ask twice.
pub fn seat_of(state: &FederateCoordinationState, enclave: u32) -> usize
    requires { (state.now.count ≤ 32) × Apart state.now.enclaves state.now.count }
    ensures { result ≡ place_from (λ j. eqb (get_or state.now.enclaves j 0) enclave) 0 state.now.count }
{
    let guess = enclave as usize;
    if guess < state.count && state.enclaves[guess] == enclave {
        return guess;
    }
    find(state, enclave).unwrap_or(state.count)
}

// Whether all of the participants are published.
pub fn all_published(state: &FederateCoordinationState) -> bool
    requires { state.now.count ≤ 32 }
    ensures { result ≡ all_of (λ j. get_or state.now.published j false) 0 state.now.count }
{
    // From the last down: enclaves publish by ascending index, so the last is the one that is still missing.
    for i in (0..state.count).rev() {
        if !state.published[i] {
            return false;
        }
    }
    true
}

// Clears the first `count` cells; every other cell is as it was.
pub fn clear(cells: &mut [u8; 32], count: usize)
    requires { count ≤ 32 }
    ensures { cells.new ≡ cleared count cells.old }
{
    cells[..count].fill(0);
}

// The published flags without those of the participants whose places `leaves` tells; a flag past the count is as it was.
pub fn published_without<F: Fn(usize) -> bool>(
    state: &FederateCoordinationState,
    leaves: F,
) -> [bool; 32]
    requires few { state.now.count ≤ 32 }
    requires callable { (k : ℕ) → k < 32 → F.pre leaves k }
    ensures { Cleared (F.post leaves) state.now state.now.count result }
{
    let mut flags = state.published;
    for place in 0..state.count {
        if leaves(place) {
            flags[place] = false;
        }
    }
    flags
}

// The lesser of two cells where an absent one does not count.
// Kept: `lesser_cell` and `greater_cell`. One function over the choice would promise three cases of what its parameter promises, in place of one term.
pub fn lesser_cell(a: Tag, b: Tag) -> Tag
    ensures { result ≡ cond (is_absent a) b (cond (is_absent b) a (lesser_of a b)) }
{
    if state::is_absent(a) {
        return b;
    }
    if state::is_absent(b) {
        return a;
    }
    tags::lesser(a, b)
}

// The greater of two cells where an absent one does not count.
pub fn greater_cell(a: Tag, b: Tag) -> Tag
    ensures { result ≡ cond (is_absent a) b (cond (is_absent b) a (greater_of a b)) }
{
    if state::is_absent(a) {
        return b;
    }
    if state::is_absent(b) {
        return a;
    }
    tags::greater(a, b)
}

// The least present candidate.
pub fn least_candidate(state: &FederateCoordinationState) -> Tag
    requires { state.now.count ≤ 32 }
    ensures { result ≡ cell_of (least_from (λ j. optional_of (tag_at state.now j)) 0 state.now.count) }
{
    let mut least = ABSENT;
    for i in (0..state.count).rev() {
        let candidate = state.tag_at(i);
        least = lesser_cell(candidate, least);
    }
    least
}

// The least completed tag, absent where a participant has none.
pub fn least_completed(state: &FederateCoordinationState) -> Tag
    requires { state.now.count ≤ 32 }
    ensures { result ≡ cell_of (cond (all_of (λ j. is_present (optional_of (tag_at state.now (32 + j)))) 0 state.now.count) (least_from (λ j. optional_of (tag_at state.now (32 + j))) 0 state.now.count) None) }
{
    let mut least = ABSENT;
    for i in (0..state.count).rev() {
        let completed = state.tag_at(COMPLETED + i);
        if state::is_absent(completed) {
            return ABSENT;
        }
        least = lesser_cell(completed, least);
    }
    least
}

// The cells of the participant at a place that a scheduler message can change.
pub fn row_at(state: &FederateCoordinationState, place: usize) -> Row
    requires { place < 32 }
    ensures { result ≡ row_of state.now place }
{
    let candidate = state.tag_at(place);
    let completed = state.tag_at(COMPLETED + place);
    Row {
        published: state.published[place],
        candidate,
        completed,
        acknowledged: state.acknowledged[place],
        completion_observed: state.completion_observed[place],
    }
}

// These cells put at a place.
pub fn put_row(state: &mut FederateCoordinationState, place: usize, row: Row)
    requires { place < 32 }
    ensures { state.new ≡ with_row state.old place row }
{
    state.published[place] = row.published;
    state.acknowledged[place] = row.acknowledged;
    state.completion_observed[place] = row.completion_observed;
    state.seconds[place] = row.candidate.seconds;
    state.nanoseconds[place] = row.candidate.nanoseconds;
    state.microsteps[place] = row.candidate.microstep;
    state.seconds[COMPLETED + place] = row.completed.seconds;
    state.nanoseconds[COMPLETED + place] = row.completed.nanoseconds;
    state.microsteps[COMPLETED + place] = row.completed.microstep;
}

// How the participants that lag behind a new frontier stand to it.
#[derive(Clone, Copy)]
pub enum Scanned {
    // One of them is unpublished or has a candidate at or below it.
    Blocked,
    // None blocks, and one has not observed the generation.
    Waiting,
    // None blocks, and all have observed the generation.
    Answered,
}

// Whether a completed tag lies below the frontier, as an absent one does.
pub fn lags(completed: Tag, frontier: Tag) -> bool
    ensures { result ≡ is_below (optional_of completed) frontier }
{
    state::is_absent(completed) || !tags::at_or_below(frontier, completed)
}

// The lesser of the grant horizon and the greatest completed tag, absent where either is.
pub fn front(state: &FederateCoordinationState) -> Tag
    requires { state.now.count ≤ 32 }
    ensures { result ≡ cell_of (lesser_of_both (greatest_from (λ j. optional_of (tag_at state.now (32 + j))) 0 state.now.count) (optional_of state.now.grant_horizon)) }
{
    let horizon = state.grant_horizon;
    if state::is_absent(horizon) {
        return ABSENT;
    }
    let mut greatest = ABSENT;
    for i in 0..state.count {
        let completed = state.tag_at(COMPLETED + i);
        // One that has reached the horizon settles it.
        if !lags(completed, horizon) {
            return horizon;
        }
        greatest = greater_cell(completed, greatest);
    }
    greatest
}

fn holds_back(published: bool, candidate: Tag, frontier: Tag) -> bool
    ensures { result ≡ (not published || is_at_or_below (optional_of candidate) frontier) }
{
    !published || !state::is_absent(candidate) && tags::at_or_below(candidate, frontier)
}

fn has_observed(acknowledged: bool, completion_observed: u64, generation: u64) -> bool
    ensures { result ≡ is_number (number_if acknowledged completion_observed) generation }
{
    acknowledged && completion_observed == generation
}

// Whether a lagging participant blocks the frontier, and if none does whether all that lag have observed the generation.
pub fn scan(state: &FederateCoordinationState, frontier: Tag, generation: u64) -> Scanned
    requires { state.now.count ≤ 32 }
    ensures { result ≡ cond (any_of (blocks_at state.now frontier) 0 state.now.count) Blocked (cond (all_of (answered_at state.now frontier generation) 0 state.now.count) Answered Waiting) }
{
    let mut answered = true;
    // From the last down, as in `all_published`: the last is the one that most often blocks.
    for i in (0..state.count).rev() {
        let completed = state.tag_at(COMPLETED + i);
        if lags(completed, frontier) {
            let candidate = state.tag_at(i);
            if holds_back(state.published[i], candidate, frontier) {
                return Scanned::Blocked;
            }
            if !has_observed(
                state.acknowledged[i],
                state.completion_observed[i],
                generation,
            ) {
                answered = false;
            }
        }
    }
    if answered {
        Scanned::Answered
    } else {
        Scanned::Waiting
    }
}
