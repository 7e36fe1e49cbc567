// Where a page stands in the store, in blocks.

ghost use Rattle.std.specs.Prelude.{◌≡◌, true};
ghost use Rattle.bufmodel.specs.Sizes.{sound_rows};
ghost use Rattle.bufmem.specs.Place.{placed, place_refusal};

use crate::rows::{block_place, find_row, has_block};
use bufmodel::refusal::Refusal;
use buftag::name::PageName;

// Why a page has no place.
#[derive(Clone, Copy, Debug, PartialEq, Eq)]
pub enum NoPlace {
    // There is no row of its file.
    NoFile,
    // Its file has no such block.
    NoBlock,
}

impl From<NoPlace> for Refusal {
    ghost from_gives = { λ missing refusal. refusal ≡ place_refusal missing };

    fn from(missing: NoPlace) -> Refusal {
        match missing {
            NoPlace::NoFile => Refusal::NoFile,
            NoPlace::NoBlock => Refusal::NoBlock,
        }
    }
}

#[tactic(auto, unfolding(crate::specs::Place::placed, crate::specs::Place::placed_in))]
pub fn place_of(rows: &[u32], name: PageName) -> Result<usize, NoPlace>
    requires { sound_rows rows.now ≡ true }
    ensures { result ≡ placed rows.now name }
{
    let row = find_row(rows, name.file).ok_or(NoPlace::NoFile)?;
    if !has_block(rows, row, name.block) {
        return Err(NoPlace::NoBlock);
    }
    Ok(block_place(rows, row, name.block))
}
