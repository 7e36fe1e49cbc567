// A table of guesses, made once for a call: which row a buffer's file is likely to have.

ghost use Rattle.std.specs.Prelude.{◌≡◌, ◌≤◌};
ghost use Rattle.bufmodel.specs.Rows.{files};
ghost use Rattle.bufmodel.specs.Sizes.{max_files};
ghost use Rattle.bufbooks.specs.Guesses.{slot_of, guesses_of};

use bufmem::rows::{ROW_WORDS, file_at};
use buftag::name::FileName;

pub const SLOTS: usize = 256;

// Where a table of 256 places has a file's. The product spreads files whose relations have neighbouring numbers, or numbers 64 apart: of 64
// such files some five share a slot.
pub fn slot_of(file: FileName) -> usize
    ensures { result ≡ slot_of file }
{
    let key = file.relation.wrapping_mul(4).wrapping_add(file.fork);
    (key.wrapping_mul(2654435761) >> 24) as usize
}

// Of the files that share a slot, the last one has it.
#[tactic(auto, using(crate::proofs::GuessesLaws::guesses_more), unfolding(bufmodel::specs::Rows::files, crate::specs::Guesses::guesses_of))]
pub fn guess_rows(rows: &[u32], guesses: &mut [u8; SLOTS])
    requires { files rows.now ≤ max_files }
    ensures { guesses.new ≡ guesses_of rows.now (files rows.now) guesses.old }
{
    // as a slice, whose length a proof knows
    let all = &mut guesses[..];
    let n = rows.len() / ROW_WORDS;
    for row in 0..n {
        all[slot_of(file_at(rows, row))] = row as u8;
    }
}
