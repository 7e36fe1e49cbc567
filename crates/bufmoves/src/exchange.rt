// The two moves that change which buffer holds which page: release and load.

ghost use Rattle.std.specs.Prelude.{◌≡◌, []};
ghost use Rattle.bufmodel.specs.Memory.{memory};
ghost use Rattle.bufmodel.specs.Moves.{release, load_at};
ghost use Rattle.bufmoves.specs.Exchange.{Chained, Lodged};

use crate::free::{pop_free, push_free};
use bufmem::page::page_from_store;
use bufmem::state::put_state;
use bufmem::word::loaded_word;
use bufmodel::control::Control;
use buftag::chain::{insert, remove};
use buftag::name::PageName;
use buftag::names::{no_name, put_name, stored};
use buftag::number::BufferNumber;

// A buffer gives up its page: it leaves its chain, has a name of zeros and word 0, and is put on top of the free list.
pub fn release_buffer(
    control: Control,
    states: &mut [u32],
    names: &mut [u32],
    free: &mut [i32],
    heads: &mut [i32],
    chain: &mut [i32],
    buffer: BufferNumber,
) -> Control
    requires { Chained (memory control states.old names.old [] free.old heads.old chain.old [] []) buffer.0 }
    ensures { memory result states.new names.new [] free.new heads.new chain.new [] []
        ≡ release
        (memory control states.old names.old [] free.old heads.old chain.old []
        []) buffer.0 }
{
    let name = stored(names, buffer);
    remove(heads, chain, name, buffer);
    put_name(names, buffer, no_name());
    put_state(states, buffer, 0);
    push_free(control, free, buffer)
}

// The page `name`, at place `g` of the store, comes into a buffer, the top of the free list.
pub fn load_page(
    control: Control,
    states: &mut [u32],
    names: &mut [u32],
    pool: &mut [u8],
    free: &mut [i32],
    heads: &mut [i32],
    chain: &mut [i32],
    store: &[u8],
    name: PageName,
    buffer: BufferNumber,
    g: usize,
) -> Control
    requires { Lodged (memory control states.old names.old pool.old free.old heads.old chain.old [] store.now)
        buffer.0 g }
    ensures { memory result states.new names.new pool.new free.new heads.new
        chain.new [] store.now
        ≡ load_at
        (memory control states.old names.old pool.old free.old heads.old
        chain.old [] store.now) name buffer.0 g }
{
    let after = pop_free(control, free, buffer);
    put_name(names, buffer, name);
    insert(heads, chain, name, buffer);
    page_from_store(pool, buffer, store, g, control.size);
    put_state(states, buffer, loaded_word());
    after
}
