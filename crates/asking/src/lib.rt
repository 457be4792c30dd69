// The queries by number, for a host: 1 revision, 2 generation, 3 phase, 4 stopped, 5 settled, 6 first failure, 7 grant horizon, 8 completed frontier,
// 9 pending publication, 10 revision that awaits its idle confirmation, 11 candidate of an enclave. New here: the Rust has a function for each.
// Any other number is refused 11, whatever the state; a query is refused 27 as in the crate queries, and answers then what is said there.
#![tactic(auto)]

ghost use Rattle.std.specs.Prelude.{◌≡◌};
ghost use Rattle.records.specs.Numbers.{refusal_number};
ghost use Rattle.asking.specs.Answered.{asked_with, number_asked, bool_asked, phase_asked, tag_asked, optional_asked, publication_asked, candidate_asked};
ghost use Rattle.asking.specs.Asked.{asked_of};

use plain::TagNumbers;
use queries::Answer;
use records::{CoordinationPhase, FederatePublication, Refusal};
use state::FederateCoordinationState;
use tags::Tag;

// A query's answer. What the query does not answer by is 0 or absent.
// Kept: a flag beside numbers, which is C's layout.
#[repr(C)]
#[derive(Clone, Copy)]
pub struct AskedNumbers {
    pub refusal: u8,
    // Whether what may be absent is there, and whether the enclave of a candidate is known; yes for any other query.
    pub present: bool,
    pub number: u64,
    pub first: TagNumbers,
    // The horizon of a publication.
    pub second: TagNumbers,
}

fn asked(
    refusal: Option<Refusal>,
    present: bool,
    number: u64,
    first: Option<Tag>,
    second: Option<Tag>,
) -> AskedNumbers
    ensures { result ≡ asked_with (refusal_number refusal) present number first second }
{
    AskedNumbers {
        refusal: records::refusal_number(refusal),
        present,
        number,
        first: TagNumbers::from(first),
        second: TagNumbers::from(second),
    }
}

// Kept: an impl for each type of answer, since all that they say is which of the numbers it fills.
impl From<Answer<u64>> for AskedNumbers {
    ghost from_gives = { λ a r. r ≡ number_asked (refusal_number a.refusal) a.answer };

    fn from(a: Answer<u64>) -> AskedNumbers {
        asked(a.refusal, true, a.answer, None, None)
    }
}

// Yes is 1, no is 0.
impl From<Answer<bool>> for AskedNumbers {
    ghost from_gives = { λ a r. r ≡ bool_asked (refusal_number a.refusal) a.answer };

    fn from(a: Answer<bool>) -> AskedNumbers {
        asked(a.refusal, true, u64::from(a.answer), None, None)
    }
}

impl From<Answer<CoordinationPhase>> for AskedNumbers {
    ghost from_gives = { λ a r. r ≡ phase_asked (refusal_number a.refusal) a.answer };

    fn from(a: Answer<CoordinationPhase>) -> AskedNumbers {
        let number = u64::from(u8::from(a.answer));
        asked(a.refusal, true, number, None, None)
    }
}

impl From<Answer<Option<u32>>> for AskedNumbers {
    ghost from_gives = { λ a r. r ≡ optional_asked (refusal_number a.refusal) a.answer };

    fn from(a: Answer<Option<u32>>) -> AskedNumbers {
        let number = a.answer.map_or(0, u64::from);
        asked(a.refusal, a.answer.is_some(), number, None, None)
    }
}

impl From<Answer<Option<Tag>>> for AskedNumbers {
    ghost from_gives = { λ a r. r ≡ tag_asked (refusal_number a.refusal) a.answer };

    fn from(a: Answer<Option<Tag>>) -> AskedNumbers {
        asked(a.refusal, a.answer.is_some(), 0, a.answer, None)
    }
}

impl From<Answer<Option<u64>>> for AskedNumbers {
    ghost from_gives = { λ a r. r ≡ optional_asked (refusal_number a.refusal) a.answer };

    fn from(a: Answer<Option<u64>>) -> AskedNumbers {
        asked(
            a.refusal,
            a.answer.is_some(),
            a.answer.unwrap_or(0),
            None,
            None,
        )
    }
}

impl From<Answer<Option<FederatePublication>>> for AskedNumbers {
    ghost from_gives = { λ a r. r ≡ publication_asked (refusal_number a.refusal) a.answer };

    fn from(a: Answer<Option<FederatePublication>>) -> AskedNumbers {
        match a.answer {
            None => asked(a.refusal, false, 0, None, None),
            Some(p) => asked(a.refusal, true, p.revision, p.next_event, p.grant_horizon),
        }
    }
}

impl From<Answer<Option<Option<Tag>>>> for AskedNumbers {
    ghost from_gives = { λ a r. r ≡ candidate_asked (refusal_number a.refusal) a.answer };

    fn from(a: Answer<Option<Option<Tag>>>) -> AskedNumbers {
        asked(a.refusal, a.answer.is_some(), 0, a.answer.flatten(), None)
    }
}

// The query of this number; the enclave is that of query 11.
// Kept: a match on the number that a host gives, which is the C interface.
#[tactic(auto, unfolding(crate::specs::Asked::asked_of))]
pub fn ask(state: FederateCoordinationState, question: u8, enclave: u32) -> AskedNumbers
    ensures { result ≡ asked_of question enclave state }
{
    match question {
        1 => queries::revision(state).into(),
        2 => queries::generation(state).into(),
        3 => queries::phase(state).into(),
        4 => queries::is_stopped(state).into(),
        5 => queries::is_settled(state).into(),
        6 => queries::first_failure(state).into(),
        7 => queries::grant_horizon(state).into(),
        8 => queries::completed_frontier(state).into(),
        9 => queries::pending_publication(state).into(),
        10 => queries::idle_confirmation_revision(state).into(),
        11 => queries::candidate(state, enclave).into(),
        0 | 12..=255 => asked(Some(Refusal::ScriptOutOfForm), false, 0, None, None),
    }
}
