// The input in pieces: lines of digits, each used at its end.

ghost use Rattle.std.specs.Prelude.{◌≡◌, true, ◌≤◌, ◌<◌};
ghost use Rattle.bufmodel.specs.Sizes.{max_blocks};
ghost use Rattle.buftrace.specs.Input.{is_digit};
ghost use Rattle.buftrace.specs.Scan.{
  Ready,
  max_lines,
  Becomes,
  new_reader,
  spoilt_reader,
  broken_reader,
  onward_reader,
  spoilt,
  scan_of,
  ended,
  digit,
  stepped,
  feds,
  closed,
  finished,
  broken,
};

use crate::trace::{Tally, use_block};

// The greatest N, the greatest number of blocks, and the lines of both and of 1,000,000 block numbers.
const MAX_BUFFERS: usize = 1024;

const MAX_BLOCKS: usize = 65536;

const MAX_LINES: u64 = 1000002;

// What is kept between two pieces.
#[derive(Clone, Copy, Default)]
pub struct Reader {
    // Lines that have ended.
    pub line: u64,
    // Whether the line begun has a digit, and its value. Two marks: a value without a digit, which `feed` and `finish` take too, no Option
    // says.
    pub digits: bool,
    pub value: usize,
    // N and the number of blocks, 0 before they are read. `line` says whether they are: with an Option of each, a use would have branches
    // that no line comes to.
    pub buffers: usize,
    pub blocks: usize,
    // The first bad line, 0 for none. With an Option, callers would be asked that it is no line 0.
    pub bad: u64,
    pub tally: Tally,
}

// Before the first byte.
pub fn new_reader() -> Reader
    ensures { result ≡ new_reader }
{
    Reader::default()
}

// The line begun is bad.
fn spoil(s: Reader) -> Reader
    requires { s.line ≤ max_lines }
    ensures value { result ≡ spoilt_reader s }
    ensures becomes { Becomes spoilt s result }
{
    Reader {
        bad: s.line + 1,
        ..s
    }
}

// The line ends, and this is known after it.
fn go_on(s: Reader, buffers: usize, blocks: usize, tally: Tally) -> Reader
    requires { s.line < max_lines }
    ensures { result ≡ onward_reader s buffers blocks tally }
{
    Reader {
        line: s.line + 1,
        digits: false,
        value: 0,
        buffers,
        blocks,
        tally,
        ..s
    }
}

// One of the first two lines ends.
fn end_head(s: Reader) -> Reader
    requires { (s.line < 2) × (s.digits ≡ true) }
    ensures { Becomes ended s result }
{
    if s.line == 1 {
        return go_on(s, s.buffers, s.value, s.tally);
    }
    if s.value < 1 || s.value > MAX_BUFFERS {
        return spoil(s);
    }
    go_on(s, s.value, s.blocks, s.tally)
}

// A line ends. Inlined, so that the reader stays in registers from byte to byte: else a list takes three times as long.
#[inline(always)]
fn end_line(s: Reader, states: &mut [u32], held: &mut [u16], place: &mut [u16]) -> Reader
    requires ready { Ready s states.old held.old place.old }
    requires line_lt_max_lines { s.line < max_lines }
    ensures held_after { scan_of result states.new held.new ≡ ended (scan_of s states.old held.old) }
    ensures ready_2 { Ready result states.new held.new place.new }
{
    if !s.digits {
        return spoil(s);
    }
    if s.line < 2 {
        return end_head(s);
    }
    if s.value >= s.blocks {
        return spoil(s);
    }
    let tally = use_block(s.buffers, s.tally, states, held, place, s.value);
    go_on(s, s.buffers, s.blocks, tally)
}

// The line begun has a digit more.
fn add_digit(s: Reader, b: u8) -> Reader
    requires { (s.line < max_lines) × (s.value ≤ max_blocks) × (is_digit b ≡ true) }
    ensures { Becomes (λ s. digit s b) s result }
{
    let v = s.value * 10 + usize::from(b - b'0');
    if v > MAX_BLOCKS {
        return spoil(s);
    }
    Reader {
        digits: true,
        value: v,
        ..s
    }
}

// One byte more.
fn step(s: Reader, states: &mut [u32], held: &mut [u16], place: &mut [u16], b: u8) -> Reader
    requires { Ready s states.old held.old place.old }
    ensures held_after { scan_of result states.new held.new ≡ stepped (scan_of s states.old held.old) b }
    ensures ready { Ready result states.new held.new place.new }
{
    if s.line == MAX_LINES {
        return spoil(s);
    }
    if b == b'\n' {
        return end_line(s, states, held, place);
    }
    if !b.is_ascii_digit() {
        return spoil(s);
    }
    add_digit(s, b)
}

// A piece of the input. Behind a bad line nothing is looked at.
pub fn feed(
    s: Reader,
    states: &mut [u32],
    held: &mut [u16],
    place: &mut [u16],
    bytes: &[u8],
) -> Reader
    requires { Ready s states.old held.old place.old }
    ensures held_after { scan_of result states.new held.new
        ≡ feds (scan_of s states.old held.old) bytes.now }
    ensures ready { Ready result states.new held.new place.new }
{
    let mut t = s;
    for &b in bytes {
        if t.bad != 0 {
            return t;
        }
        t = step(t, states, held, place, b);
    }
    t
}

// No line is begun: there are two at least, or the next is bad.
fn close(s: Reader) -> Reader
    requires { s.line ≤ max_lines }
    ensures { Becomes closed s result }
{
    if s.bad == 0 && s.line < 2 {
        return spoil(s);
    }
    s
}

// The end of the input: the last line may lack its newline, the first two lines may not be missing.
pub fn finish(s: Reader, states: &mut [u32], held: &mut [u16], place: &mut [u16]) -> Reader
    requires { Ready s states.old held.old place.old }
    ensures held_after { scan_of result states.new held.new ≡ finished (scan_of s states.old held.old) }
    ensures ready { Ready result states.new held.new place.new }
{
    let t = if s.bad == 0 && s.digits {
        end_line(s, states, held, place)
    } else {
        s
    };
    close(t)
}

// A read failed: the line begun could not be read.
pub fn break_off(s: Reader) -> Reader
    requires { s.line ≤ max_lines }
    ensures value { result ≡ broken_reader s }
    ensures becomes { Becomes broken s result }
{
    if s.bad != 0 {
        return s;
    }
    spoil(s)
}
