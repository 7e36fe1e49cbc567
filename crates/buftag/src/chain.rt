// The bucket chains: a buffer enters at its bucket's head, and leaves from wherever it stands.

ghost use Rattle.std.specs.Prelude.{◌≡◌, ◌^◌, ◌<◌, length, IfSome};
ghost use Rattle.buftag.specs.Name.{bucket_of};
ghost use Rattle.buftag.specs.Chain.{enter_heads, enter_chain, prev, past_heads, past_chain, leave_chain};

use crate::link::{Link, NONE, leads_to, link_at};
use crate::name::{PageName, bucket};
use crate::number::BufferNumber;

// Buffer `i` enters at the head of bucket `b`.
fn enter(heads: &mut [i32], chain: &mut [i32], b: usize, i: usize)
    requires { (b < length heads.old) × (i < length chain.old) × (i < 2 ^ 31) }
    ensures heads_after { heads.new ≡ enter_heads heads.old b i }
    ensures chain_after { chain.new ≡ enter_chain heads.old chain.old b i }
{
    chain[i] = heads[b];
    heads[b] = i as i32;
}

// A buffer enters at the head of a name's bucket.
pub fn insert(heads: &mut [i32], chain: &mut [i32], name: PageName, buffer: BufferNumber)
    requires { (0 < length heads.old) × (buffer.0 < length chain.old) × (buffer.0 < 2 ^ 31) }
    ensures heads_after { heads.new ≡ enter_heads heads.old (bucket_of name (length heads.old)) buffer.0 }
    ensures chain_after { chain.new
        ≡ enter_chain heads.old chain.old (bucket_of name (length heads.old)) buffer.0 }
{
    let b = bucket(name, heads.len());
    enter(heads, chain, b, buffer.0);
}

// The first place, from a link on, whose own link leads to `i`.
fn prev_of(chain: &[i32], i: usize, first: Link) -> Option<usize>
    ensures value { result ≡ prev chain.now i (length chain.now) first }
    ensures within { IfSome result (λ p. p < length chain.now) }
{
    let mut at = first;
    for _ in 0..chain.len() {
        let Link::To(p) = at else {
            return None;
        };
        at = Link::from(*chain.get(p)?);
        if leads_to(at, i) {
            return Some(p);
        }
    }
    None
}

// What led to `i` leads where `i` led: the head, or the link of the place before.
fn lead_past(heads: &mut [i32], chain: &mut [i32], b: usize, i: usize)
    requires { (b < length heads.old) × (i < length chain.old) }
    ensures heads_after { heads.new ≡ past_heads heads.old chain.old b i }
    ensures chain_after { chain.new ≡ past_chain heads.old chain.old b i }
{
    let next = chain[i];
    let first = link_at(heads, b);
    if leads_to(first, i) {
        heads[b] = next;
    } else if let Some(p) = prev_of(chain, i, first) {
        chain[p] = next;
    }
}

// Buffer `i` leaves bucket `b`.
fn leave(heads: &mut [i32], chain: &mut [i32], b: usize, i: usize)
    requires { (b < length heads.old) × (i < length chain.old) }
    ensures heads_after { heads.new ≡ past_heads heads.old chain.old b i }
    ensures chain_after { chain.new ≡ leave_chain heads.old chain.old b i }
{
    lead_past(heads, chain, b, i);
    chain[i] = NONE;
}

// A buffer leaves the bucket of its name.
pub fn remove(heads: &mut [i32], chain: &mut [i32], name: PageName, buffer: BufferNumber)
    requires { (0 < length heads.old) × (buffer.0 < length chain.old) }
    ensures heads_after { heads.new
        ≡ past_heads heads.old chain.old (bucket_of name (length heads.old)) buffer.0 }
    ensures chain_after { chain.new
        ≡ leave_chain heads.old chain.old (bucket_of name (length heads.old)) buffer.0 }
{
    let b = bucket(name, heads.len());
    leave(heads, chain, b, buffer.0);
}
