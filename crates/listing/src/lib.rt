// The listing's lines (document 01, "Script and its listing"), put into lent room from a place on; the answer is the place after the line.
// New here: the Rust prints nothing. Nothing is refused: the callers lend room for the longest line of its kind, and every byte outside
// the line keeps its value.
#![tactic(auto)]

ghost use Rattle.std.specs.Prelude.{◌≡◌, ◌+◌, ◌*◌, ◌≤◌, length, drop};
ghost use Rattle.records.specs.Numbers.{refusal_number};
ghost use Rattle.actions.specs.Reading.{read_action};
ghost use Rattle.printing.specs.Runs.{Puts};
ghost use Rattle.fields.specs.Words.{answer_text};
ghost use Rattle.fields.specs.Fields.{word_of, room_of};
ghost use Rattle.listing.specs.Listing.{action_line, event_line, end_line, misplaced_line, refused_line};
ghost use Rattle.listing.specs.Records.{record_line, record_lines};

use fields::Field;
use records::{CoordinationAction, CoordinationPhase, Refusal};
use tags::Tag;

// Puts the action's line: its word, and what its kind carries.
#[tactic(auto, using(crate::proofs::Marks::marked), unfolding(crate::specs::Listing::action_line))]
pub fn put_action(out: &mut [u8], at: usize, action: CoordinationAction) -> usize
    requires { at + 160 ≤ length out.old }
    ensures { Puts out.old at (action_line action) 160 result out.new }
{
    use CoordinationAction::*;
    use Field::{Number, Time};
    match action {
        Publish(p) => {
            let said = [
                Number(p.revision),
                Time(p.next_event),
                Time(p.grant_horizon),
            ];
            fields::put_line(out, at, b"publish", &said)
        }
        AdvanceHorizon { tag } => fields::put_line(out, at, b"advance", &[Time(Some(tag))]),
        Grant { enclave, tag } => {
            let said = [Number(u64::from(enclave)), Time(Some(tag))];
            fields::put_line(out, at, b"grant", &said)
        }
        Complete(c) => {
            let said = [Time(Some(c.completed)), Number(u64::from(c.network_input))];
            fields::put_line(out, at, b"complete", &said)
        }
        CompletionProbe {
            enclave,
            generation,
        } => {
            let said = [Number(u64::from(enclave)), Number(generation)];
            fields::put_line(out, at, b"completion-probe", &said)
        }
        Probe { revision } => fields::put_line(out, at, b"probe", &[Number(revision)]),
        Park { revision } => fields::put_line(out, at, b"park", &[Number(revision)]),
        Recheck { revision } => fields::put_line(out, at, b"recheck", &[Number(revision)]),
        Resume { enclave, revision } => {
            let said = [Number(u64::from(enclave)), Number(revision)];
            fields::put_line(out, at, b"resume", &said)
        }
        Stop => fields::put_line(out, at, b"stop", &[]),
        Abort => fields::put_line(out, at, b"abort", &[]),
    }
}

fn put_record(out: &mut [u8], at: usize, records: &[u8], from: usize) -> usize
    requires { at + 160 ≤ length out.old }
    ensures { Puts out.old at (record_line (read_action (drop from records.now))) 160 result out.new }
{
    let Some(record) = records.get(from..) else {
        return at;
    };
    match actions::read_action(record) {
        Ok(action) => put_action(out, at, action),
        Err(_) => at,
    }
}

// Puts the lines of the first records; what is no record has no line.
pub fn put_actions(out: &mut [u8], at: usize, records: &[u8], count: usize) -> usize
    requires { at + 160 * count ≤ length out.old }
    ensures { Puts out.old at (record_lines count records.now) (160 * count) result out.new }
{
    let mut place = at;
    for i in 0..count {
        place = put_record(out, place, records, 56 * i);
    }
    place
}

// `-`, 0 or 1: as an absent tag or a number is put.
#[tactic(auto, using(crate::proofs::Marks::marked))]
fn said(answer: Option<bool>) -> Field
    ensures word { word_of result ≡ answer_text answer }
    ensures room { room_of result ≤ 64 }
{
    answer.map_or(Field::Time(None), |yes| Field::Number(u64::from(yes)))
}

// Puts an event's own line: its number, refusal, answer and action count.
#[tactic(auto, using(crate::proofs::Marks::marked), unfolding(crate::specs::Listing::event_line))]
pub fn put_event(
    out: &mut [u8],
    at: usize,
    number: u64,
    refusal: Option<Refusal>,
    answer: Option<bool>,
    actions: usize,
) -> usize
    requires { at + 160 ≤ length out.old }
    ensures { Puts out.old at (event_line number (refusal_number refusal) answer actions) 160 result out.new }
{
    let after = printing::put_decimal(out, at, number);
    let refused = Field::Number(u64::from(records::refusal_number(refusal)));
    fields::put_rest(
        out,
        after,
        &[refused, said(answer), Field::Number(actions as u64)],
    )
}

// Puts the last line: `end`, and where the run left the federate.
#[tactic(auto, using(crate::proofs::Marks::marked), unfolding(crate::specs::Listing::end_line))]
pub fn put_end(
    out: &mut [u8],
    at: usize,
    revision: u64,
    phase: CoordinationPhase,
    generation: u64,
    completed_frontier: Option<Tag>,
    grant_horizon: Option<Tag>,
    settled: bool,
) -> usize
    requires { at + 240 ≤ length out.old }
    ensures { Puts out.old at (end_line revision phase generation completed_frontier grant_horizon settled) 240 result out.new }
{
    let said = [
        Field::Number(revision),
        Field::Phase(phase),
        Field::Number(generation),
        Field::Time(completed_frontier),
        Field::Time(grant_horizon),
        Field::Number(u64::from(settled)),
    ];
    fields::put_line(out, at, b"end", &said)
}

// Puts the one line of a run that was refused, 11 excepted.
#[tactic(auto, unfolding(crate::specs::Listing::refused_line))]
pub fn put_refused(out: &mut [u8], at: usize, refusal: Option<Refusal>) -> usize
    requires { at + 160 ≤ length out.old }
    ensures { Puts out.old at (refused_line (refusal_number refusal)) 160 result out.new }
{
    let number = u64::from(records::refusal_number(refusal));
    fields::put_line(out, at, b"refused", &[Field::Number(number)])
}

// Puts the one line of a script that breaks its form, with the place of its first bad line.
#[tactic(auto, unfolding(crate::specs::Listing::misplaced_line, printing::specs::Printing::decimal))]
pub fn put_misplaced(out: &mut [u8], at: usize, place: usize) -> usize
    requires { at + 160 ≤ length out.old }
    ensures { Puts out.old at (misplaced_line place) 160 result out.new }
{
    let said = [Field::Number(11), Field::Number(place as u64)];
    fields::put_line(out, at, b"refused", &said)
}
