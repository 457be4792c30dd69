// What a host in Rust or C links: an opening, every call on the one state that it lends, the queries, and an action read back from the room.
// New here: the Rust is linked as it is. A number that names no kind of call, observation, policy or question is refused 11; all else is
// refused as document 01 says of what it names.
#![tactic(auto)]

ghost use Rattle.std.specs.Prelude.{◌≡◌, None, Some};
ghost use Rattle.actions.specs.Reading.{read_action};
ghost use Rattle.asking.specs.Asked.{asked_of};
ghost use Rattle.plain.specs.Given.{call_of};
ghost use Rattle.plain.specs.Read.{read_numbers};
ghost use Rattle.exports.specs.After.{Gives};
ghost use Rattle.exports.specs.Opened.{policy_of, opened_numbers};

use asking::AskedNumbers;
use plain::{ActionNumbers, CallNumbers, ReplyNumbers};
use records::{LifecyclePolicy, Refusal};
use state::FederateCoordinationState;

// 0 and the opened state, or why there is none and the blank state of no participant.
// Kept: here and below, a number for the refusal, the policy and the question, which is the C interface.
#[repr(C)]
#[derive(Clone, Copy)]
pub struct OpenedNumbers {
    pub refusal: u8,
    pub state: FederateCoordinationState,
}

// The call that the numbers tell, on the state lent; an `input` names the listed enclaves. 11 where they tell none.
#[unsafe(no_mangle)]
pub extern "C" fn federate_call(
    state: &mut FederateCoordinationState,
    call: CallNumbers,
    listed: &[u32],
    room: &mut [u8],
) -> ReplyNumbers
    ensures { Gives (call_of call listed.now) state.old room.old state.new result room.new }
{
    let event = plain::event_of(call, listed);
    let called = take::take(*state, event, listed, room);
    *state = called.state;
    plain::reply_numbers(called.reply)
}

fn opened(
    enclaves: &[u32],
    policy: LifecyclePolicy,
    revision: u64,
    generation: u64,
) -> OpenedNumbers
    ensures { result ≡ opened_numbers (Some policy) enclaves.now revision generation }
{
    let opening = opening::new(enclaves, policy, revision, generation);
    OpenedNumbers {
        refusal: records::refusal_number(opening.refusal),
        state: opening.state,
    }
}

// An opening of nobody gives the blank state.
fn no_policy(enclaves: &[u32], revision: u64, generation: u64) -> OpenedNumbers
    ensures { result ≡ opened_numbers None enclaves.now revision generation }
{
    let nobody = opening::new(&[], LifecyclePolicy::KeepAlive, revision, generation);
    OpenedNumbers {
        refusal: u8::from(Refusal::ScriptOutOfForm),
        state: nobody.state,
    }
}

// The opening of these participants under the policy of this number: 0 keep, 1 terminate, 2 coordinated; 11 for any other.
#[unsafe(no_mangle)]
pub extern "C" fn federate_open(
    enclaves: &[u32],
    policy: u8,
    revision: u64,
    generation: u64,
) -> OpenedNumbers
    ensures { result ≡ opened_numbers (policy_of policy) enclaves.now revision generation }
{
    match LifecyclePolicy::try_from(policy) {
        Ok(policy) => opened(enclaves, policy, revision, generation),
        Err(_) => no_policy(enclaves, revision, generation),
    }
}

// The query of this number, as `asking::ask` numbers them; 11 for a number that is none's.
#[unsafe(no_mangle)]
pub extern "C" fn federate_ask(
    state: FederateCoordinationState,
    question: u8,
    enclave: u32,
) -> AskedNumbers
    ensures { result ≡ asked_of question enclave state }
{
    asking::ask(state, question, enclave)
}

// The action whose record the first 56 bytes are, or 28.
#[unsafe(no_mangle)]
pub extern "C" fn federate_read_action(bytes: &[u8]) -> ActionNumbers
    ensures { result ≡ read_numbers (read_action bytes.now) }
{
    plain::read_numbers(actions::read_action(bytes))
}
