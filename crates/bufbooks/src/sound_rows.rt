// Whether the file rows are sound, and those that are.

ghost use Rattle.std.specs.Prelude.{◌≡◌, true, false, ◌+◌, ◌*◌, ◌≤◌, length};
ghost use Rattle.laws.specs.Every.{all};
ghost use Rattle.bufmodel.specs.Rows.{row_words};
ghost use Rattle.bufmodel.specs.Sizes.{new_file, sound_row, sound_rows};

use crate::guesses::{SLOTS, slot_of};
use bufmem::rows::{ROW_WORDS, blocks_at, capacity_at, file_at, is_file, start_of};
use buftag::name::is_fork;

pub const MAX_FILES: usize = 64;

pub const MAX_BLOCKS: u64 = 65536;

// Rows that are sound: whoever makes one shows it, and whoever takes one need not ask for it.
#[derive(Clone, Copy)]
pub struct SoundRows<'a> {
    pub words: &'a [u32],
    pub ghost sound: { sound_rows words.now ≡ true },
}

// Whether no row before a row has its file.
#[tactic(auto, using(crate::proofs::TurnsLaws::turns_all), unfolding(bufmodel::specs::Sizes::new_file))]
fn is_new(rows: &[u32], row: usize) -> bool
    requires { row * row_words + row_words ≤ length rows.now }
    ensures { result ≡ new_file rows.now row }
{
    let file = file_at(rows, row);
    for i in 0..row {
        if is_file(rows, i, file) {
            return false;
        }
    }
    true
}

// Whether a row is sound: its fork, its blocks, and that no row before it has its file. `seen`: one of them may have it.
#[tactic(auto, using(crate::proofs::TurnsLaws::tests), unfolding(bufmodel::specs::Sizes::sound_row))]
fn row_ok(rows: &[u32], row: usize, seen: bool) -> bool
    requires { (row * row_words + row_words ≤ length rows.now) × (seen ≡ false → new_file rows.now row ≡ true) }
    ensures { result ≡ sound_row rows.now row }
{
    is_fork(file_at(rows, row).fork)
        && blocks_at(rows, row) <= capacity_at(rows, row)
        && (!seen || is_new(rows, row))
}

// Whether each row is sound. Only a row whose slot one before it has can have its file too.
#[tactic(auto, using(crate::proofs::RowsLaws::marks))]
fn each_ok(rows: &[u32], n: usize) -> bool
    requires { n * row_words ≤ length rows.now }
    ensures { result ≡ all n (sound_row rows.now) }
{
    let mut marks = [false; SLOTS];
    for row in 0..n {
        let slot = slot_of(file_at(rows, row));
        if !row_ok(rows, row, marks[slot]) {
            return false;
        }
        marks[slot] = true;
    }
    true
}

// Whether the rows are sound.
#[tactic(auto, using(crate::proofs::SizesLaws::rows), unfolding(bufmodel::specs::Sizes::sound_rows))]
pub fn rows_ok(rows: &[u32]) -> bool
    ensures { result ≡ sound_rows rows.now }
{
    let n = rows.len() / ROW_WORDS;
    rows.len() % ROW_WORDS == 0
        && n <= MAX_FILES
        && start_of(rows, n) <= MAX_BLOCKS
        && each_ok(rows, n)
}
