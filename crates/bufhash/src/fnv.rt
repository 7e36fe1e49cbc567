// 32-bit FNV-1a.

ghost use Rattle.std.specs.Prelude.{◌≡◌, ◌*◌, ◌%◌, ◌^◌, ◌<◌};
ghost use Rattle.bufhash.specs.Bytes.{word_bytes};
ghost use Rattle.bufhash.specs.Fnv.{fnv, fnv_step};

// The low 32 bits of the third and the fourth power of FNV's prime, 16777619.
const PRIME_CUBED: u32 = 1055306571;

const PRIME_FOURTH: u32 = 1345077009;

// The low 32 bits of the product: the program's own multiplication, as document 01 has the form, for names and checksums alike.
pub fn wrapping_mul(a: u32, b: u32) -> u32
    ensures { result ≡ a * b % 2 ^ 32 }
{
    (u64::from(a) * u64::from(b) % 4294967296) as u32
}

// One byte on top of a hash.
pub fn mix_byte(h: u32, byte: u32) -> u32
    ensures { result ≡ fnv_step byte h }
{
    wrapping_mul(byte ^ h, 16777619)
}

// The four bytes of a word on top of a hash, the lowest first.
pub fn mix_word(h: u32, w: u32) -> u32
    ensures { result ≡ fnv (word_bytes w) h }
{
    let h1 = mix_byte(h, w % 256);
    let h2 = mix_byte(h1, w / 256 % 256);
    let h3 = mix_byte(h2, w / 65536 % 256);
    mix_byte(h3, w / 16777216 % 256)
}

// The four bytes of a word below 65,536: its upper two are zeros, so two multiplications do, the second by the prime's third power.
pub fn mix_short(h: u32, w: u32) -> u32
    requires { w < 2 ^ 16 }
    ensures { result ≡ fnv (word_bytes w) h }
{
    let h1 = mix_byte(h, w % 256);
    wrapping_mul(w / 256 ^ h1, PRIME_CUBED)
}

// Those of a word below 256: one multiplication, by the prime's fourth power.
pub fn mix_small(h: u32, w: u32) -> u32
    requires { w < 2 ^ 8 }
    ensures { result ≡ fnv (word_bytes w) h }
{
    wrapping_mul(w ^ h, PRIME_FOURTH)
}
