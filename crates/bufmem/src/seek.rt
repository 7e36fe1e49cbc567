// A page's place in the store, or what refuses its name.

ghost use Rattle.std.specs.Prelude.{◌≡◌, true};
ghost use Rattle.bufmodel.specs.Sizes.{sound_rows};
ghost use Rattle.bufmem.specs.Seek.{sought};

use crate::place::place_of;
use bufmodel::refusal::Refusal;
use buftag::name::PageName;

// It asks for sound rows by a clause, as `place_of` does: who calls has the rows as they are lent, and a type of them is no plainer.
#[tactic(auto, unfolding(crate::specs::Seek::sought))]
pub fn seek(rows: &[u32], name: PageName) -> Result<usize, Refusal>
    requires { sound_rows rows.now ≡ true }
    ensures { result ≡ sought rows.now name }
{
    Ok(place_of(rows, name)?)
}
