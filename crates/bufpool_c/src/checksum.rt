// The checksum of a page, for programs that make or look into files themselves: it touches no pool.

ghost use Rattle.std.specs.Prelude.{◌≡◌};
ghost use Rattle.bufpool.specs.Checksum.{sum_result, sum_answer};

// The checksum of a page that is block `block` of its file.
#[unsafe(no_mangle)]
pub extern "C" fn bufpool_checksum(page: &[u8], block: u32, answer: &mut [u64]) -> u32
    ensures value { result ≡ sum_result page.now answer.old }
    ensures answer_after { answer.new ≡ sum_answer page.now block answer.old }
{
    bufpool::checksum::bufpool_checksum(page, block, answer)
}
