// The checksum of a page: 32 sums, each over every 32nd word.

ghost use Rattle.std.specs.Prelude.{◌≡◌, ◌+◌, ◌≤◌, length};
ghost use Rattle.bufmodel.specs.Checksum.{mix_sum, checksum, bare};
ghost use Rattle.bufmem.specs.Checksum.{Mixed, fold_all};

use bufhash::bytes::word_at;
use bufhash::fnv::wrapping_mul;
use buftag::number::BlockNumber;

// The bytes of a row: a word for each sum.
const ROW_SIZE: usize = 128;

const FNV_PRIME: u32 = 16777619;

// The words that the sums start from.
const STARTS: [u32; 32] = [
    0x5B1F36E9, 0xB8525960, 0x02AB50AA, 0x1DE66D2A, 0x79FF467A, 0x9BB9F8A3, 0x217E7CD2, 0x83E13D2C,
    0xF8D4474F, 0xE39EB970, 0x42C6AE16, 0x993216FA, 0x7B093B5D, 0x98DAFF3C, 0xF718902A, 0x0B1C9CDB,
    0xE58F764B, 0x187636BC, 0x5D7B3BB1, 0xE73DE7DE, 0x92BEC979, 0xCCA6C0B2, 0x304A0979, 0x85AA43D4,
    0x783125BB, 0x6CA8EAA2, 0xE407EAC6, 0x4B5CFC3E, 0x9FBF8C76, 0x15CA20BE, 0xF2CA9FD3, 0x959BD756,
];

// One round: a word on top of a sum.
#[tactic(auto, unfolding(bufmodel::specs::Checksum::mix_sum))]
fn mix_sum(v: u32, s: u32) -> u32
    ensures { result ≡ mix_sum v s }
{
    let t = v ^ s;
    wrapping_mul(t, FNV_PRIME) ^ (t >> 17)
}

// A row of words on top of the sums.
fn mix_row(sums: &mut [u32; 32], bytes: &[u8], at: usize)
    requires { at + 128 ≤ length bytes.now }
    ensures { Mixed bytes.now at sums.old sums.new }
{
    for j in 0..32 {
        sums[j] = mix_sum(word_at(bytes, at + j * 4) as u32, sums[j]);
    }
}

// The first row, whose bytes 8 and 9 count as zeros.
fn mix_first(sums: &mut [u32; 32], page: &[u8])
    requires { 128 ≤ length page.now }
    ensures { Mixed (bare page.now) 0 sums.old sums.new }
{
    let mut row = [0; ROW_SIZE];
    row.copy_from_slice(&page[..ROW_SIZE]);
    row[8] = 0;
    row[9] = 0;
    mix_row(sums, &row, 0);
}

// Two rounds of zeros for each sum, and all exclusive-ored together.
#[tactic(auto, unfolding(crate::specs::Checksum::fold_all))]
fn fold_sums(sums: [u32; 32]) -> u32
    ensures { result ≡ fold_all sums 32 }
{
    let mut r = 0;
    for s in sums {
        r ^= mix_sum(0, mix_sum(0, s));
    }
    r
}

// The checksum of a page that is block `number` of its file.
pub fn page_checksum(page: &[u8], number: BlockNumber) -> u32
    requires { 128 ≤ length page.now }
    ensures { result ≡ checksum number.0 page.now }
{
    let mut sums = STARTS;
    mix_first(&mut sums, page);
    for row in 1..page.len() / ROW_SIZE {
        mix_row(&mut sums, page, row * ROW_SIZE);
    }
    (fold_sums(sums) ^ number.0) % 65535 + 1
}
