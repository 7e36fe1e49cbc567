// What a call makes of the rows once, and looks up for each buffer.

ghost use Rattle.std.specs.Prelude.{◌≡◌};
ghost use Rattle.bufbooks.specs.Hashes.{Hashed};

use crate::guesses::{SLOTS, guess_rows};
use crate::hashes::hash_rows;
use crate::sound_rows::{MAX_FILES, SoundRows};

#[derive(Clone, Copy)]
pub struct Tables<'a> {
    pub rows: SoundRows<'a>,
    // The hash of each row's file.
    pub hashes: &'a [u32; MAX_FILES],
    // Which row a file is likely to have, by its slot.
    pub guesses: &'a [u8; SLOTS],
    pub ghost hashed: { Hashed rows.words.now hashes.now },
}

#[tactic(auto, using(crate::proofs::SizesLaws::rows_few), unfolding(bufmodel::specs::Rows::files))]
pub fn tables_of<'a>(
    rows: SoundRows<'a>,
    hashes: &'a mut [u32; MAX_FILES],
    guesses: &'a mut [u8; SLOTS],
) -> Tables<'a>
    ensures { result.rows.words.now ≡ rows.entry.words.now }
{
    hash_rows(rows, hashes);
    guess_rows(rows.words, guesses);
    Tables {
        rows,
        hashes,
        guesses,
    }
}
