// A holder's private count of a buffer, in the lent counts.

ghost use Rattle.std.specs.Prelude.{◌≡◌, ◌<◌, ltb, length};
ghost use Rattle.bufmodel.specs.Counts.{max_holders, count_place, count_at, set_count};

use bufmodel::holder::Holder;
use buftag::number::BufferNumber;

pub const MAX_HOLDERS: usize = 64;

// The greatest private count.
pub const MAX_COUNT: u16 = u16::MAX;

// Whether there is such a holder.
pub fn is_holder(holder: Holder) -> bool
    ensures { result ≡ ltb holder.0 max_holders }
{
    holder.0 < MAX_HOLDERS
}

// How many pins a holder has on a buffer.
#[tactic(auto, unfolding(bufmodel::specs::Counts::count_at))]
pub fn count_of(counts: &[u16], holder: Holder, buffer: BufferNumber) -> u16
    requires { count_place buffer.0 holder.0 < length counts.now }
    ensures { result ≡ count_at counts.now buffer.0 holder.0 }
{
    counts[buffer.0 * MAX_HOLDERS + holder.0]
}

#[tactic(auto, unfolding(bufmodel::specs::Counts::set_count))]
pub fn put_count(counts: &mut [u16], holder: Holder, buffer: BufferNumber, count: u16)
    requires { count_place buffer.0 holder.0 < length counts.old }
    ensures { counts.new ≡ set_count counts.old buffer.0 holder.0 count }
{
    counts[buffer.0 * MAX_HOLDERS + holder.0] = count;
}
