// The hash of each row's file, once for a call: a page's name takes its block's four bytes more.

ghost use Rattle.bufbooks.specs.Hashes.{Hashed};

use crate::sound_rows::{MAX_FILES, SoundRows};
use bufmem::rows::{ROW_WORDS, file_at};
use buftag::name::{hash_database, hash_within};

// Files of one database stand together, mostly: its eight bytes are hashed where it is another than the row before has.
pub fn hash_rows(rows: SoundRows<'_>, hashes: &mut [u32; MAX_FILES])
    ensures { Hashed rows.entry.words.now hashes.new }
{
    let rows = rows.words;
    // Lent, as nothing that asks for a hash makes an array; as a slice, whose length a proof knows.
    let all = &mut hashes[..];
    let mut tablespace = 0;
    let mut database = 0;
    let mut start = hash_database(0, 0);
    for row in 0..rows.len() / ROW_WORDS {
        let file = file_at(rows, row);
        if (file.tablespace != tablespace) | (file.database != database) {
            tablespace = file.tablespace;
            database = file.database;
            start = hash_database(tablespace, database);
        }
        all[row] = hash_within(start, file);
    }
}
