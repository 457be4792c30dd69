// What a public call answers: the next state and a reply, the same for every call. A refused call hands back the state it got.
#![tactic(auto)]

ghost use Rattle.std.specs.Prelude.{◌≡◌, ◌≤◌};
ghost use Rattle.calls.specs.Called.{replied, room_first, tag_first};

use records::Refusal;
use state::FederateCoordinationState;

// Kept: an answer and a count beside the refusal, since document 01 says of a refused call what they are (`Promised`).
#[derive(Clone, Copy, PartialEq, Eq)]
pub struct Reply {
    // Why the call was refused, or none where it was taken.
    pub refusal: Option<Refusal>,
    pub answer: Option<bool>,
    // How many records were written, from byte 0 of the room.
    pub actions: usize,
}

#[derive(Clone, Copy, PartialEq, Eq)]
pub struct Called {
    pub state: FederateCoordinationState,
    pub reply: Reply,
}

// The state and its reply.
pub fn with_reply(
    state: FederateCoordinationState,
    refusal: Option<Refusal>,
    answer: Option<bool>,
    actions: usize,
) -> Called
    ensures { result ≡ replied state refusal answer actions }
{
    let reply = Reply {
        refusal,
        answer,
        actions,
    };
    Called { state, reply }
}

// 8 before a refusal that comes later, or before none.
pub fn room_first(room: usize, count: usize, later: Option<Refusal>) -> Option<Refusal>
    requires { count ≤ 32 }
    ensures { result ≡ room_first room count later }
{
    if room < 56 * (count + 2) {
        Some(Refusal::RoomTooSmall)
    } else {
        later
    }
}

// 7 before 3, or neither.
pub fn tag_first(proper: bool, known: bool) -> Option<Refusal>
    ensures { result ≡ tag_first proper known }
{
    if !proper {
        Some(Refusal::ImproperTag)
    } else if !known {
        Some(Refusal::UnknownEnclave)
    } else {
        None
    }
}
