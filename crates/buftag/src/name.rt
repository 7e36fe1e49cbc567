// A page's name: the file's four numbers, and the block's. Its bytes, its hash, its bucket.

ghost use Rattle.std.specs.Prelude.{◌≡◌, ◌++◌, ◌^◌, ◌<◌, length};
ghost use Rattle.bufhash.specs.Bytes.{word_bytes};
ghost use Rattle.bufhash.specs.Fnv.{fnv, fnv_start};
ghost use Rattle.buftag.specs.Name.{file_of, name_of, name_size, name_bytes, name_of_bytes};
ghost use Rattle.buftag.specs.Name.{hash_of, hash_words, bucket_of, same_file, same_name, is_fork};

use crate::number::BlockNumber;
use bufhash::bytes::{put_word, word_at};
use bufhash::fnv::{mix_short, mix_small, mix_word};

// The bytes of a name.
pub const NAME_SIZE: usize = 20;

// The last of a file's forks: 0 table, 1 free space map, 2 visibility map.
const VISIBILITY_MAP: u32 = 2;

#[derive(Clone, Copy, Default, PartialEq, Eq)]
pub struct FileName {
    pub tablespace: u32,
    pub database: u32,
    pub relation: u32,
    pub fork: u32,
}

#[derive(Clone, Copy, Default, PartialEq, Eq)]
pub struct PageName {
    pub file: FileName,
    pub block: BlockNumber,
}

// The file of these numbers.
pub fn file_name(tablespace: u32, database: u32, relation: u32, fork: u32) -> FileName
    ensures { result ≡ file_of tablespace database relation fork }
{
    FileName {
        tablespace,
        database,
        relation,
        fork,
    }
}

// The page of these.
pub fn page_name(tablespace: u32, database: u32, relation: u32, fork: u32, block: u32) -> PageName
    ensures { result ≡ name_of tablespace database relation fork block }
{
    PageName {
        file: file_name(tablespace, database, relation, fork),
        block: BlockNumber(block),
    }
}

pub fn is_fork(fork: u32) -> bool
    ensures { result ≡ is_fork fork }
{
    fork <= VISIBILITY_MAP
}

// The hash of a file's first eight bytes, which all files of a database begin with.
pub fn hash_database(tablespace: u32, database: u32) -> u32
    ensures { result ≡ fnv (word_bytes tablespace ++ word_bytes database) fnv_start }
{
    let h = mix_word(2166136261, tablespace);
    mix_word(h, database)
}

// That hash continued over the other eight bytes of a file, whose fork is one of the few that there are.
pub fn hash_within(h: u32, file: FileName) -> u32
    requires { file.fork < 2 ^ 8 }
    ensures { result ≡ fnv (word_bytes file.relation ++ word_bytes file.fork) h }
{
    let h3 = mix_word(h, file.relation);
    mix_small(h3, file.fork)
}

// The hash of a file's 16 bytes continued over the four of a block that it can have.
pub fn hash_short(h: u32, block: BlockNumber) -> u32
    requires { block.0 < 2 ^ 16 }
    ensures { result ≡ fnv (word_bytes block.0) h }
{
    mix_short(h, block.0)
}

// A hash continued over a fork's four bytes, and over a block's: of every page that there is, their upper bytes are zeros.
// Two functions: one with the bound and the quick way as parameters would be longer than both.
fn mix_fork(h: u32, fork: u32) -> u32
    ensures { result ≡ fnv (word_bytes fork) h }
{
    if fork < 256 {
        mix_small(h, fork)
    } else {
        mix_word(h, fork)
    }
}

fn mix_block(h: u32, block: u32) -> u32
    ensures { result ≡ fnv (word_bytes block) h }
{
    if block < 65536 {
        mix_short(h, block)
    } else {
        mix_word(h, block)
    }
}

// The hash of a name, a word at a time: the bytes are taken out of each word as it is met, and no array of them is made.
// The five numbers stand apart, as a program in C passes them.
pub fn hash(tablespace: u32, database: u32, relation: u32, fork: u32, block: u32) -> u32
    ensures value { result ≡ hash_words tablespace database relation fork block }
    ensures value_2 { result ≡ hash_of (name_of tablespace database relation fork block) }
{
    let h2 = hash_database(tablespace, database);
    let h3 = mix_word(h2, relation);
    let h4 = mix_fork(h3, fork);
    mix_block(h4, block)
}

// The bucket of a name.
pub fn bucket(name: PageName, buckets: usize) -> usize
    requires { 0 < buckets }
    ensures { result ≡ bucket_of name buckets }
{
    let FileName {
        tablespace,
        database,
        relation,
        fork,
    } = name.file;
    hash(tablespace, database, relation, fork, name.block.0) as usize % buckets
}

pub fn same_file(a: FileName, b: FileName) -> bool
    ensures { result ≡ same_file a b }
{
    a == b
}

pub fn same(a: PageName, b: PageName) -> bool
    ensures { result ≡ same_name a b }
{
    a == b
}

// Fills a slice with a name's bytes.
pub fn put_bytes(out: &mut [u8], name: PageName)
    requires { length out.old ≡ name_size }
    ensures { out.new ≡ name_bytes name }
{
    put_word(out, 0, name.file.tablespace);
    put_word(out, 4, name.file.database);
    put_word(out, 8, name.file.relation);
    put_word(out, 12, name.file.fork);
    put_word(out, 16, name.block.0);
}

// The name that has these bytes.
pub fn name_of_bytes(bytes: &[u8]) -> PageName
    requires { length bytes.now ≡ name_size }
    ensures { result ≡ name_of_bytes bytes.now }
{
    page_name(
        word_at(bytes, 0) as u32,
        word_at(bytes, 4) as u32,
        word_at(bytes, 8) as u32,
        word_at(bytes, 12) as u32,
        word_at(bytes, 16) as u32,
    )
}
