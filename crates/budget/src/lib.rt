// The event budget of a run (document 01, "A run takes a number of events it may use and reports how many it took, the lesser of the two; refused events
// count"). What a run gives is defined in specs/, and what is demanded of it is proved of that here. Nothing is refused.
#![tactic(auto)]

ghost use Rattle.std.specs.Prelude.{◌≡◌, cond, ◌-◌, eqb};
ghost use Rattle.budget.specs.Run.{allowance};

// How many events a run may take: the lesser of its budget and of those left, and no more than the room surely holds.
#[tactic(auto, unfolding(crate::specs::Run::allowance))]
pub fn allowance(budget: usize, left: usize, room: usize) -> usize
    ensures { result ≡ allowance budget left room }
{
    budget.min(left.min(room / 5600))
}

// The difference, or 0 where there is none.
pub fn difference(a: usize, b: usize) -> usize
    ensures { result ≡ a - b }
{
    a.saturating_sub(b)
}

// What is left of a budget after so many events: nothing where none was taken, for then none is left to take.
pub fn budget_left(budget: usize, taken: usize) -> usize
    ensures { result ≡ cond (eqb taken 0) 0 (budget - taken) }
{
    if taken == 0 {
        return 0;
    }
    difference(budget, taken)
}
