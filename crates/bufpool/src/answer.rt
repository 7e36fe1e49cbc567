// An answer's four words, and the result.

ghost use Rattle.std.specs.Prelude.{◌≡◌, [], ◌∷◌, ℕ, List, length};
ghost use Rattle.bufmodel.specs.Outcome.{zeros, one};
ghost use Rattle.bufmodel.specs.Lent.{answer_words};
ghost use Rattle.bufmodel.specs.Answer.{result_number, result_words, done_words, extend_words, peek_words, pin_words};

use bufmodel::answer::{Peeked, Pinned};
use bufmodel::refusal::Refusal;
use buftag::number::BlockNumber;

// What an accepted call answers.
pub trait Answer {
    ghost words: { Self → List ℕ };

    fn into_words(self) -> [u64; 4]
        ensures { result ≡ words self };
}

// Only that it was done.
impl Answer for () {
    ghost words = { done_words };

    fn into_words(self) -> [u64; 4] {
        [0; 4]
    }
}

// How many pages were written back.
impl Answer for u64 {
    ghost words = { one };

    fn into_words(self) -> [u64; 4] {
        [self, 0, 0, 0]
    }
}

impl Answer for BlockNumber {
    ghost words = { extend_words };

    fn into_words(self) -> [u64; 4] {
        [u64::from(self.0), 0, 0, 0]
    }
}

impl Answer for Peeked {
    ghost words = { peek_words };

    fn into_words(self) -> [u64; 4] {
        match self {
            Peeked::InPool(at) => [1, at, 0, 0],
            Peeked::InStore(at) => [0, at, 0, 0],
        }
    }
}

impl Answer for Pinned {
    ghost words = { pin_words };

    fn into_words(self) -> [u64; 4] {
        [
            self.buffer.0 as u64,
            u64::from(self.hit),
            u64::from(self.wrote),
            self.probes,
        ]
    }
}

// Stores the words of an answer, zeros where the call is refused, and answers its number. Words are lent as slices, as C has them: of
// arrays each of the exports would have to make one.
pub fn put_answer<T: Answer>(answer: &mut [u64], given: Result<T, Refusal>) -> u32
    requires { length answer.old ≡ answer_words }
    ensures value { result ≡ result_number given }
    ensures answer_after { answer.new ≡ result_words T.words given }
{
    match given {
        Ok(accepted) => {
            answer.copy_from_slice(&accepted.into_words());
            0
        }
        Err(why) => {
            answer.fill(0);
            u32::from(why)
        }
    }
}

// Four zeros, and 1: what a control record of another length gives.
pub fn refuse(answer: &mut [u64]) -> u32
    requires { length answer.old ≡ answer_words }
    ensures value { result ≡ 1 }
    ensures answer_after { answer.new ≡ zeros }
{
    put_answer::<()>(answer, Err(Refusal::Sizes))
}
