// The books but for the private counts: the control record, the words and the lists, every buffer's page and name.

ghost use Rattle.std.specs.Prelude.{◌≡◌, []};
ghost use Rattle.bufmodel.specs.Memory.{memory};
ghost use Rattle.bufbooks.specs.Buffers.{Fitting};
ghost use Rattle.bufbooks.specs.Books.{books_test};

use crate::buffers::buffers_ok;
use crate::guesses::SLOTS;
use crate::lists::lists_ok;
use crate::sound_rows::{MAX_FILES, SoundRows};
use crate::tables::tables_of;
use bufmem::word::cap_ok;
use bufmodel::control::Control;

// Whether they are sound.
#[tactic(auto, using(crate::proofs::BooksLaws::books), unfolding(crate::specs::Books::books_test))]
pub fn books_ok(
    control: Control,
    states: &[u32],
    names: &[u32],
    pool: &[u8],
    free: &[i32],
    heads: &[i32],
    chain: &[i32],
    rows: &[u32],
) -> bool
    requires { Fitting (memory control states.now names.now pool.now free.now heads.now chain.now rows.now []) }
    ensures { result
        ≡ books_test
        (memory control states.now names.now pool.now free.now heads.now
        chain.now rows.now []) }
{
    let within = cap_ok(control.cap)
        && control.hand < states.len()
        && control.flushed <= control.inserted
        && lists_ok(control, states, free, heads, chain);
    if !within {
        return false;
    }
    let mut hashes = [0; MAX_FILES];
    let mut guesses = [0; SLOTS];
    let tables = tables_of(SoundRows { words: rows }, &mut hashes, &mut guesses);
    buffers_ok(control, states, names, pool, heads, chain, &tables)
}
