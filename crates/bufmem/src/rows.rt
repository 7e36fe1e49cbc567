// The file rows: a row's numbers, the row of a file, where a file's blocks stand in the store.

ghost use Rattle.std.specs.Prelude.{◌≡◌, ◌+◌, ◌*◌, ◌≤◌, ltb, length};
ghost use Rattle.buftag.specs.Name.{same_file};
ghost use Rattle.bufmodel.specs.Rows.{row_words, file_at, blocks_at, capacity_at, set_blocks, row_of, start_of};
ghost use Rattle.bufmodel.specs.Sizes.{max_files, max_blocks};
ghost use Rattle.bufmem.specs.Rows.{found_row};

use buftag::name::{FileName, same_file};
use buftag::number::BlockNumber;

// The words of a row, and where its relation, its block count and its capacity stand.
pub const ROW_WORDS: usize = 6;

const RELATION_WORD: usize = 2;

const BLOCKS_WORD: usize = 4;

const CAPACITY_WORD: usize = 5;

// The file of a row.
#[tactic(auto, unfolding(bufmodel::specs::Rows::file_at))]
pub fn file_at(rows: &[u32], row: usize) -> FileName
    requires { row * row_words + row_words ≤ length rows.now }
    ensures { result ≡ file_at rows.now row }
{
    let at = row * ROW_WORDS;
    FileName {
        tablespace: rows[at],
        database: rows[at + 1],
        relation: rows[at + 2],
        fork: rows[at + 3],
    }
}

// Whether a row has a file's four numbers. The relation number, which tells most files apart, is looked at alone first.
#[tactic(auto, unfolding(bufmodel::specs::Rows::file_at))]
pub fn is_file(rows: &[u32], row: usize, file: FileName) -> bool
    requires { row * row_words + row_words ≤ length rows.now }
    ensures { result ≡ same_file (file_at rows.now row) file }
{
    rows[row * ROW_WORDS + RELATION_WORD] == file.relation && same_file(file_at(rows, row), file)
}

// How many blocks a row's file has.
#[tactic(auto, unfolding(bufmodel::specs::Rows::blocks_at))]
pub fn blocks_at(rows: &[u32], row: usize) -> u32
    requires { row * row_words + row_words ≤ length rows.now }
    ensures { result ≡ blocks_at rows.now row }
{
    rows[row * ROW_WORDS + BLOCKS_WORD]
}

// Whether a row's file has a block.
pub fn has_block(rows: &[u32], row: usize, block: BlockNumber) -> bool
    requires { row * row_words + row_words ≤ length rows.now }
    ensures { result ≡ ltb block.0 (blocks_at rows.now row) }
{
    block.0 < blocks_at(rows, row)
}

// How many blocks the store keeps for a row's file.
#[tactic(auto, unfolding(bufmodel::specs::Rows::capacity_at))]
pub fn capacity_at(rows: &[u32], row: usize) -> u32
    requires { row * row_words + row_words ≤ length rows.now }
    ensures { result ≡ capacity_at rows.now row }
{
    rows[row * ROW_WORDS + CAPACITY_WORD]
}

// Gives a row's file another number of blocks.
#[tactic(auto, unfolding(bufmodel::specs::Rows::set_blocks))]
pub fn set_blocks(rows: &mut [u32], row: usize, blocks: u32)
    requires { row * row_words + row_words ≤ length rows.old }
    ensures { rows.new ≡ set_blocks rows.old row blocks }
{
    rows[row * ROW_WORDS + BLOCKS_WORD] = blocks;
}

// The row of a file, if it has one. Two rows in a turn of the loop: of 16 rows the last is found in two thirds of the time that one row
// in a turn takes, and a buffer whose row was guessed wrong is looked for here, in every call.
pub fn find_row(rows: &[u32], file: FileName) -> Option<usize>
    ensures { found_row result ≡ row_of rows.now file }
{
    let n = rows.len() / ROW_WORDS;
    for pair in 0..n / 2 {
        let row = 2 * pair;
        if is_file(rows, row, file) {
            return Some(row);
        }
        if is_file(rows, row + 1, file) {
            return Some(row + 1);
        }
    }
    // The last of an odd number of rows.
    if n % 2 == 1 && is_file(rows, n - 1, file) {
        return Some(n - 1);
    }
    None
}

// Where a row's file begins in the store, in blocks.
pub fn start_of(rows: &[u32], row: usize) -> u64
    requires { (row * row_words ≤ length rows.now) × (row ≤ max_files) }
    ensures { result ≡ start_of rows.now row }
{
    let mut start = 0;
    for i in 0..row {
        start += u64::from(capacity_at(rows, i));
    }
    start
}

// A block's place in the store, in blocks.
pub fn block_place(rows: &[u32], row: usize, block: BlockNumber) -> usize
    requires { (row * row_words ≤ length rows.now) × (row ≤ max_files) × (start_of rows.now row ≤ max_blocks) }
    ensures { result ≡ start_of rows.now row + block.0 }
{
    start_of(rows, row) as usize + block.0 as usize
}
