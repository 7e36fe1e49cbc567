// The private counts against the words: whether each word counts the holders that have a pin on its buffer.

ghost use Rattle.std.specs.Prelude.{◌≡◌, ◌+◌, ◌*◌, ◌≤◌, eqb, length, get_or};
ghost use Rattle.laws.specs.Every.{all};
ghost use Rattle.bufmodel.specs.Word.{pins};
ghost use Rattle.bufmodel.specs.Counts.{max_holders, holders_of};

use bufmem::counts::MAX_HOLDERS;
use bufmem::word::pins_of;
use buftag::number::BufferNumber;

// How many holders have a pin on a buffer: a sum as narrow as the counts, and a loop without an exit, of which the compiler makes vectors.
#[tactic(auto, using(crate::proofs::TurnsLaws::turns_count), unfolding(bufmodel::specs::Counts::holders_of))]
fn holders_of(counts: &[u16], buffer: BufferNumber) -> u16
    requires { buffer.0 * max_holders + max_holders ≤ length counts.now }
    ensures { result ≡ holders_of counts.now buffer.0 }
{
    let at = buffer.0 * MAX_HOLDERS;
    let mut n = 0;
    for &count in &counts[at..at + MAX_HOLDERS] {
        n += u16::from(count != 0);
    }
    n
}

// Whether each word counts the holders of its buffer.
#[tactic(auto, using(crate::proofs::TurnsLaws::turns_all))]
pub fn counts_ok(states: &[u32], counts: &[u16]) -> bool
    requires { length states.now * max_holders ≤ length counts.now }
    ensures { result
        ≡ all (length states.now)
        (λ i. eqb (pins (get_or states.now i 0)) (holders_of counts.now i)) }
{
    for (i, &w) in states.iter().enumerate() {
        if pins_of(w) != u32::from(holders_of(counts, BufferNumber(i))) {
            return false;
        }
    }
    true
}
