// The printed line.

ghost use Rattle.std.specs.Prelude.{◌≡◌, [], ◌∷◌, ◌++◌, ◌+◌, ◌≤◌, length, take};
ghost use Rattle.io.specs.Counts.{IsPrefixLen};
ghost use Rattle.buftrace.specs.Report.{decimal, bad_line, printed_of};

use crate::scan::Reader;

// Bytes from `at` on; answers where they end. A `Write` over the slice would count for itself, but its contract does not say which bytes it
// puts.
fn put_bytes(out: &mut [u8], at: usize, bytes: &[u8]) -> usize
    requires { at + length bytes.now ≤ length out.old }
    ensures value { result ≡ at + length bytes.now }
    ensures out_after { take result out.new ≡ take at out.old ++ bytes.now }
{
    let end = at + bytes.len();
    out[at..end].copy_from_slice(bytes);
    end
}

// A number's decimal digits from `at` on, and a byte behind them; answers where that ends.
fn put_number(out: &mut [u8], at: usize, n: u64, after: u8) -> usize
    requires { at + 21 ≤ length out.old }
    ensures upper_bound { result ≤ at + 21 }
    ensures out_after { take result out.new ≡ take at out.old ++ (decimal n ++ (after ∷ [])) }
{
    let mut text = [0; 20];
    let k = io::decimal(n, &mut text);
    let end = put_bytes(out, at, &text[..k]);
    out[end] = after;
    end + 1
}

fn put_bad(out: &mut [u8], line: u64) -> usize
    requires { 30 ≤ length out.old }
    ensures upper_bound { result ≤ 30 }
    ensures out_after { take result out.new ≡ bad_line line }
{
    let end = put_bytes(out, 0, b"bad line ");
    put_number(out, end, line, b'\n')
}

// Puts the line at the start of out, and answers its length.
pub fn put_line(s: Reader, out: &mut [u8; 64]) -> usize
    ensures prefix_len { IsPrefixLen result out.new }
    ensures out_after { take result out.new ≡ printed_of s }
{
    // as a slice, whose length a proof knows; that of an array behind a reference it does not
    let all = &mut out[..];
    if s.bad != 0 {
        return put_bad(all, s.bad);
    }
    let totals = s.tally.totals;
    let a = put_number(all, 0, totals.hits, b' ');
    let b = put_number(all, a, totals.loads, b' ');
    put_number(all, b, totals.probes, b'\n')
}
