// What a list of used pages costs: reads the list from standard input, and writes hits, loads and probes, or the first bad line.

#![tactic(auto)]

ghost use Rattle.std.specs.Prelude.{◌≡◌, not, ◌&&◌, length, take, eqb};
ghost use Rattle.io.specs.Counts.{IsPrefixLen};
ghost use Rattle.buftrace.specs.Scan.{Ready, Fed, scan_of, feds, finished};
ghost use Rattle.buftrace.specs.Report.{Wrote, printed};

use buftrace::report::put_line;
use buftrace::scan::{Reader, break_off, feed, finish, new_reader};
use std::io::{Read, Stdin, Write};

// What a read left: the reader, in both cases, and whether there may be more.
#[derive(Clone, Copy)]
struct Piece {
    reader: Reader,
    more: bool,
}

// A piece that was read: one without a byte is the end, and behind a bad line there is no more to read. The three slices are passed on one
// by one, as `buftrace` has them.
fn take_piece(
    s: Reader,
    states: &mut [u32],
    held: &mut [u16],
    place: &mut [u16],
    bytes: &[u8],
) -> Piece
    requires { Ready s states.old held.old place.old }
    ensures ready { Ready result.reader states.new held.new place.new }
    ensures held_after { scan_of result.reader states.new held.new
        ≡ feds (scan_of s states.old held.old) bytes.now }
    ensures more_value { result.more ≡ (not (eqb (length bytes.now) 0) && eqb result.reader.bad 0) }
{
    let reader = feed(s, states, held, place, bytes);
    Piece {
        reader,
        more: !bytes.is_empty() && reader.bad == 0,
    }
}

// Reads a piece of the input.
fn read_piece(
    input: &mut Stdin,
    s: Reader,
    states: &mut [u32],
    held: &mut [u16],
    place: &mut [u16],
) -> Piece
    requires { Ready s states.old held.old place.old }
    ensures ready { Ready result.reader states.new held.new place.new }
    ensures fed { Fed (scan_of s states.old held.old) (scan_of result.reader states.new held.new) }
{
    let mut buf = [0u8; 65536];
    let Ok(n) = input.read(&mut buf) else {
        return Piece {
            reader: break_off(s),
            more: false,
        };
    };
    take_piece(s, states, held, place, &buf[..n])
}

// All pieces. A proved loop has to end, and nothing says that the input does: it has so many turns that no run uses them up. Should one, it
// has not read all, and the line begun is bad.
fn read_all(
    input: &mut Stdin,
    s: Reader,
    states: &mut [u32],
    held: &mut [u16],
    place: &mut [u16],
) -> Reader
    requires { Ready s states.old held.old place.old }
    ensures ready { Ready result states.new held.new place.new }
    ensures fed { Fed (scan_of s states.old held.old) (scan_of result states.new held.new) }
{
    let mut t = s;
    for _ in 0..u64::MAX {
        let piece = read_piece(input, t, states, held, place);
        t = piece.reader;
        if !piece.more {
            return t;
        }
    }
    break_off(t)
}

// The input is at its end: puts its line at the start of out, and answers the line's length.
fn sum_up(
    t: Reader,
    states: &mut [u32],
    held: &mut [u16],
    place: &mut [u16],
    out: &mut [u8; 64],
) -> usize
    requires { Ready t states.old held.old place.old }
    ensures prefix_len { IsPrefixLen result out.new }
    ensures out_after { take result out.new ≡ printed (finished (scan_of t states.old held.old)) }
{
    let end = finish(t, states, held, place);
    put_line(end, out)
}

// Reads the input, puts the line at the start of out, and answers its length.
fn cost_line(input: &mut Stdin, out: &mut [u8; 64]) -> usize
    ensures prefix_len { IsPrefixLen result out.new }
    ensures wrote { Wrote (take result out.new) }
{
    let mut states = [0u32; 1024];
    let mut held = [0u16; 1024];
    let mut place = [0u16; 65536];
    let t = read_all(input, new_reader(), &mut states, &mut held, &mut place);
    sum_up(t, &mut states, &mut held, &mut place, out)
}

// An output that is full or closed changes nothing else.
fn main(rt: HostRuntime) {
    let mut out = [0u8; 64];
    let k = cost_line(&mut rt.stdin(), &mut out);
    let _ = rt.stdout().write_all(&out[..k]);
}
