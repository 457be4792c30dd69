// The observation verdicts (document 01, "looked up in a table of seven phases by three observations"; state.rs: handle_observation). Nothing is refused here.
#![tactic(auto)]

ghost use Rattle.std.specs.Prelude.{◌≡◌, ◌≤◌};
ghost use Rattle.rules.specs.Observation as rules;
ghost use Rattle.state.specs.Cells.{phase_of};

use records::{CoordinationPhase, Observation, Verdict};

// The verdict for each phase and observation. The last two phases are never looked up.
const VERDICTS: [Verdict; 21] = [
    Verdict::Refused, // Active, Probed
    Verdict::Refused, // Active, Parked
    Verdict::Refused, // Active, Rechecked
    Verdict::Counts, // Probing, Probed
    Verdict::Refused, // Probing, Parked
    Verdict::Refused, // Probing, Rechecked
    Verdict::Ignored, // Parking, Probed
    Verdict::Counts, // Parking, Parked
    Verdict::Refused, // Parking, Rechecked
    Verdict::Ignored, // Rechecking, Probed
    Verdict::Ignored, // Rechecking, Parked
    Verdict::Counts, // Rechecking, Rechecked
    Verdict::Refused, // Parked, Probed
    Verdict::Refused, // Parked, Parked
    Verdict::Refused, // Parked, Rechecked
    Verdict::Ignored, // AwaitingIdleConfirmation, Probed
    Verdict::Ignored, // AwaitingIdleConfirmation, Parked
    Verdict::Ignored, // AwaitingIdleConfirmation, Rechecked
    Verdict::Ignored, // Stopped, Probed
    Verdict::Ignored, // Stopped, Parked
    Verdict::Ignored, // Stopped, Rechecked
];

// What becomes of an observation in the phase of this number.
pub fn verdict_in(phase: u8, observation: Observation) -> Verdict
    requires { phase ≤ 6 }
    ensures { result ≡ rules.verdict_of (phase_of phase) observation }
{
    let column = u8::from(observation);
    VERDICTS[(phase * 3 + column) as usize]
}

// The same of a phase rather than its number.
// Kept: both are public; this one has no body of its own.
pub fn verdict(phase: CoordinationPhase, observation: Observation) -> Verdict
    ensures { result ≡ rules.verdict_of phase observation }
{
    verdict_in(u8::from(phase), observation)
}
