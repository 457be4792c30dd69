// Completion (document 01, "CompleteTag", "CompletionObserved", "After every taken scheduler message" and "Complete's mark"; state.rs:
// complete, completion, advance_completion). The state is lent and small parts go in and out by value.
#![tactic(auto)]

ghost use Rattle.std.specs.Prelude.{◌≡◌, false, cond, ℕ, ◌≤◌, T, Some};
ghost use Rattle.tags.specs.Tags.{is_proper};
ghost use Rattle.rules.specs.Completion.{complete_tag_of, observed_of, front_of};
ghost use Rattle.rules.specs.Walk.{is_stopped};
ghost use Rattle.state.specs.declared.FederateCoordinationState.{FederateCoordinationState as Held};
ghost use Rattle.state.specs.Beside.{SameTags, Beside};
ghost use Rattle.state.specs.Cells.{absent, is_absent};
ghost use Rattle.state.specs.View.{view, represents};
ghost use Rattle.state.specs.Decides.{Aside, Decides, neat_parts};
ghost use Rattle.completion.specs.Advance.{Advances, CompletesLeast};
ghost use Rattle.completion.specs.Changes.{is_reached, widened_by, with_probe, reached_at, still_at, completing_at, asking_at, unblocked_at};

use records::{CoordinationPhase, FederateCompletion, Refusal};
use state::{ABSENT, Completion, Decided, FederateCoordinationState, Next, Parts, Row};
use table::Scanned;
use tags::Tag;

// What the completion step says.
#[derive(Clone, Copy)]
pub enum Saying {
    Nothing,
    // A CompletionProbe of the generation to each enclave that lags behind the tag.
    Probes(Tag),
    // Complete of the frontier, with its mark.
    Completes(FederateCompletion),
}

// The completion step: what it says, and the cells of completion after it.
#[derive(Clone, Copy)]
pub struct Advanced {
    pub saying: Saying,
    pub completion: Completion,
}

// CompleteTag's second half where it completes: the frontier with its mark, and the cells of completion after it.
#[derive(Clone, Copy)]
pub struct Least {
    pub frontier: FederateCompletion,
    pub completion: Completion,
}

// Whether an input is present and at or below the frontier.
fn is_reached(input: Tag, frontier: Tag) -> bool
    ensures { result ≡ is_reached input frontier }
{
    !state::is_absent(input) && tags::at_or_below(input, frontier)
}

// The frontier reached: Complete's mark is that the pair's first is at or below it, and the pair is dropped when its last is.
fn reached(completion: Completion, frontier: Tag) -> Least
    ensures { result ≡ reached_at frontier completion }
{
    let mut next = completion;
    next.completed_frontier = frontier;
    if is_reached(completion.last_input, frontier) {
        next.first_input = ABSENT;
        next.last_input = ABSENT;
    }
    Least {
        frontier: FederateCompletion {
            completed: frontier,
            network_input: is_reached(completion.first_input, frontier),
        },
        completion: next,
    }
}

// The pair widened by network input.
fn widened(completion: Completion, tag: Tag) -> Completion
    ensures { result ≡ widened_by tag completion }
{
    if state::is_absent(completion.first_input) {
        Completion {
            first_input: tag,
            last_input: tag,
            ..completion
        }
    } else {
        Completion {
            first_input: tags::lesser(completion.first_input, tag),
            last_input: tags::greater(completion.last_input, tag),
            ..completion
        }
    }
}

// CompleteTag's first half.
pub fn complete(parts: Parts, tag: Tag, network_input: bool) -> Decided
    ensures step { (e : ℕ) → T (is_proper tag) → Decides (complete_tag_of e tag network_input) e parts result }
    ensures neat { T (is_proper tag) → T (neat_parts parts) → T (neat_parts result.parts) }
    ensures aside { Aside parts result }
{
    if parts.coordination.phase == u8::from(CoordinationPhase::Stopped)
        || !table::lags(parts.row.completed, tag)
    {
        return Decided {
            parts,
            forgets: false,
            next: Next::Says(None),
        };
    }
    let mut next = parts;
    next.row.completed = tag;
    if network_input {
        next.completion = widened(parts.completion, tag);
    }
    Decided {
        parts: next,
        forgets: false,
        next: Next::Completes,
    }
}

// CompletionObserved: kept only if a probe is outstanding and the generation is current.
pub fn observe_completion(parts: Parts, generation: u64) -> Decided
    ensures step { (e : ℕ) → Decides (observed_of e generation) e parts result }
    ensures neat { T (neat_parts parts) → T (neat_parts result.parts) }
    ensures aside { Aside parts result }
{
    let completion = parts.completion;
    let mut next = parts;
    if !state::is_absent(completion.completion_probe)
        && generation == completion.completion_generation
    {
        next.row.acknowledged = true;
        next.row.completion_observed = generation;
    }
    Decided {
        parts: next,
        forgets: false,
        next: Next::Says(None),
    }
}

// CompleteTag's second half: the least completed tag becomes the frontier if all have one and it passes the frontier.
pub fn complete_least(state: &FederateCoordinationState, completion: Completion) -> Option<Least>
    requires { state.now.count ≤ 32 }
    ensures { (s : Held) → T (represents s) → SameTags s state.now → s.completion ≡ completion → CompletesLeast s result }
{
    let least = state::optional_of(table::least_completed(state))?;
    if !table::lags(completion.completed_frontier, least) {
        return None;
    }
    Some(reached(completion, least))
}

// A step that says nothing.
fn still(completion: Completion) -> Advanced
    ensures { result ≡ still_at completion }
{
    Advanced {
        saying: Saying::Nothing,
        completion,
    }
}

// A step that says nothing and clears the probe.
fn unasked(completion: Completion) -> Advanced
    ensures { result ≡ still_at (with_probe absent completion) }
{
    still(Completion {
        completion_probe: ABSENT,
        ..completion
    })
}

// Those lagging have all observed the generation.
fn completing(frontier: Tag, completion: Completion) -> Advanced
    ensures { result ≡ completing_at frontier completion }
{
    let done = reached(completion, frontier);
    Advanced {
        saying: Saying::Completes(done.frontier),
        completion: Completion {
            completion_probe: ABSENT,
            ..done.completion
        },
    }
}

// Those lagging are asked under the next generation, if there is one.
fn asking(frontier: Tag, completion: Completion) -> Result<Advanced, Refusal>
    ensures { result ≡ asking_at frontier completion }
{
    let generation = completion
        .completion_generation
        .checked_add(1)
        .ok_or(Refusal::GenerationSpent)?;
    Ok(Advanced {
        saying: Saying::Probes(frontier),
        completion: Completion {
            completion_generation: generation,
            completion_probe: frontier,
            ..completion
        },
    })
}

// None blocks: the probe becomes f, or, once it is and all those lagging have observed the generation, f completes.
fn unblocked(answered: bool, frontier: Tag, completion: Completion) -> Result<Advanced, Refusal>
    ensures { result ≡ unblocked_at answered frontier completion }
{
    if !tags::same_tag(completion.completion_probe, frontier) {
        asking(frontier, completion)
    } else if answered {
        Ok(completing(frontier, completion))
    } else {
        Ok(still(completion))
    }
}

// The step towards f, in a state that runs.
fn advance_to(
    state: &FederateCoordinationState,
    frontier: Tag,
    completion: Completion,
) -> Result<Advanced, Refusal>
    requires { state.now.count ≤ 32 }
    ensures { (s : Held) → T (represents s) → Beside s state.now → s.completion ≡ completion → is_absent frontier ≡ false → is_stopped (view s) ≡ false → front_of (view s) ≡ Some frontier → Advances s result }
{
    if !table::lags(completion.completed_frontier, frontier) {
        return Ok(unasked(completion));
    }
    match table::scan(state, frontier, completion.completion_generation) {
        Scanned::Blocked => Ok(unasked(completion)),
        Scanned::Waiting => unblocked(false, frontier, completion),
        Scanned::Answered => unblocked(true, frontier, completion),
    }
}

// After every taken scheduler message, if running.
// Kept: the phase by its number, as the state's cell holds it for C.
pub fn advance_completion(
    state: &FederateCoordinationState,
    phase: u8,
    completion: Completion,
) -> Result<Advanced, Refusal>
    requires { state.now.count ≤ 32 }
    ensures { (s : Held) → T (represents s) → Beside s state.now → s.coordination.phase ≡ phase → s.completion ≡ completion → Advances s result }
{
    if phase == u8::from(CoordinationPhase::Stopped) {
        return Ok(still(completion));
    }
    match state::optional_of(table::front(state)) {
        None => Ok(still(completion)),
        Some(frontier) => advance_to(state, frontier, completion),
    }
}
