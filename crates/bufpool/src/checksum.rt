// The checksum of a page, for programs that make or look into files themselves: it touches no pool.

ghost use Rattle.std.specs.Prelude.{◌≡◌};
ghost use Rattle.bufpool.specs.Checksum.{sum_result, sum_answer};

use crate::answer::{put_answer, refuse};
use bufbooks::sizes::size_ok;
use bufmem::checksum::page_checksum;
use bufmem::control::ANSWER_WORDS;
use bufmodel::refusal::Refusal;
use buftag::number::BlockNumber;

// The checksum of a page that is block `block` of its file.
pub fn bufpool_checksum(page: &[u8], block: u32, answer: &mut [u64]) -> u32
    ensures value { result ≡ sum_result page.now answer.old }
    ensures answer_after { answer.new ≡ sum_answer page.now block answer.old }
{
    if answer.len() != ANSWER_WORDS {
        return u32::from(Refusal::Sizes);
    }
    if !size_ok(page.len()) {
        return refuse(answer);
    }
    let sum = page_checksum(page, BlockNumber(block));
    put_answer(answer, Ok(u64::from(sum)))
}
