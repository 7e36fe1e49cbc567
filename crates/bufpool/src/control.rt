// The control record after a call: stored in its words where the call is accepted.

ghost use Rattle.std.specs.Prelude.{◌≡◌, length};
ghost use Rattle.bufmodel.specs.declared.control.Control.{Control};
ghost use Rattle.bufmodel.specs.Lent.{control_words, answer_words};
ghost use Rattle.bufmodel.specs.Answer.{result_number, result_words, done_words, answer_of, ended_control, done_of, record_of};
ghost use Rattle.bufpool.specs.Lent.{kept_words};

use crate::answer::{Answer, put_answer};
use bufmem::control::write_control;
use bufmodel::answer::Ended;
use bufmodel::control::Control;
use bufmodel::refusal::Refusal;

// Of a call that answers something beside the record.
pub fn put_end<T: Answer>(
    control: &mut [u64],
    answer: &mut [u64],
    given: Result<Ended<T>, Refusal>,
) -> u32
    requires { (length control.old ≡ control_words) × (length answer.old ≡ answer_words) }
    ensures value { result ≡ result_number (answer_of given) }
    ensures control_after { (before : Control) → control.new ≡ kept_words result (ended_control before given) control.old }
    ensures answer_after { answer.new ≡ result_words T.words (answer_of given) }
{
    match given {
        Ok(end) => {
            write_control(control, end.control);
            put_answer(answer, Ok(end.answer))
        }
        Err(why) => put_answer::<T>(answer, Err(why)),
    }
}

// Of one that answers only that it was done. One function for both would have each of five calls wrap its record.
pub fn put_record(control: &mut [u64], answer: &mut [u64], given: Result<Control, Refusal>) -> u32
    requires { (length control.old ≡ control_words) × (length answer.old ≡ answer_words) }
    ensures value { result ≡ result_number (done_of given) }
    ensures control_after { (before : Control) → control.new ≡ kept_words result (record_of before given) control.old }
    ensures answer_after { answer.new ≡ result_words done_words (done_of given) }
{
    match given {
        Ok(after) => {
            write_control(control, after);
            put_answer(answer, Ok(()))
        }
        Err(why) => put_answer::<()>(answer, Err(why)),
    }
}
