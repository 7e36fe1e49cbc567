// Write-back, for pin, flush and checkpoint: flushed first, in the record by value, then the page, then the dirty bits.

ghost use Rattle.std.specs.Prelude.{◌≡◌, [], ◌<◌, max, length};
ghost use Rattle.laws.specs.Block.{block};
ghost use Rattle.buftag.specs.Names.{name_at};
ghost use Rattle.bufmodel.specs.Checksum.{sealed};
ghost use Rattle.bufmodel.specs.Rows.{place_of};
ghost use Rattle.bufmodel.specs.Memory.{memory};
ghost use Rattle.bufmodel.specs.Moves.{put_at, write_back};
ghost use Rattle.bufmoves.specs.Back.{Backed};

use bufmem::page::{page_position, page_to_store};
use bufmem::place::place_of;
use bufmem::state::{put_state, state_of};
use bufmem::word::{is_dirty, make_clean};
use bufmodel::control::Control;
use buftag::names::stored;
use buftag::number::BufferNumber;

// The control record with the log flushed up to a position at least.
pub fn flushed_to(control: Control, position: u64) -> Control
    ensures { result
        ≡ record {
          size = control.size;
          hand = control.hand;
          top = control.top;
          inserted = control.inserted;
          flushed = max control.flushed position;
          cap = control.cap;
        } }
{
    Control {
        flushed: control.flushed.max(position),
        ..control
    }
}

// A buffer's page goes to its place in the store, with its checksum.
fn put_page(
    control: Control,
    names: &[u32],
    pool: &[u8],
    rows: &[u32],
    store: &mut [u8],
    buffer: BufferNumber,
)
    requires { Backed (memory control [] names.now pool.now [] [] [] rows.now store.old) buffer.0 }
    ensures { store.new
        ≡ put_at control.size
        (sealed (name_at names.now buffer.0).block.0 (block control.size buffer.0 pool.now))
        store.old (place_of rows.now (name_at names.now buffer.0)) }
{
    let name = stored(names, buffer);
    let Ok(g) = place_of(rows, name) else {
        return;
    };
    page_to_store(store, g, pool, buffer, control.size, name.block);
}

// Writes a page back if it is dirty.
pub fn write_back(
    control: Control,
    states: &mut [u32],
    names: &[u32],
    pool: &[u8],
    rows: &[u32],
    store: &mut [u8],
    buffer: BufferNumber,
) -> Control
    requires { Backed (memory control [] names.now pool.now [] [] [] rows.now store.old) buffer.0
        × (buffer.0 < length states.old) }
    ensures { memory result states.new names.now pool.now [] [] [] rows.now store.new
        ≡ write_back
        (memory control states.old names.now pool.now [] [] [] rows.now
        store.old) buffer.0 }
{
    let w = state_of(states, buffer);
    if !is_dirty(w) {
        return control;
    }
    let c = flushed_to(control, page_position(pool, control.size, buffer));
    put_page(control, names, pool, rows, store, buffer);
    put_state(states, buffer, make_clean(w));
    c
}
