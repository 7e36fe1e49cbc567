// The pool as a call finds it: the control record, and the slices that are lent.

ghost use Rattle.std.specs.Prelude.{◌≡◌};
ghost use Rattle.bufmodel.specs.View.{memory_of, memory_in};

use crate::control::Control;

// All of it to look at.
#[derive(Clone, Copy)]
pub struct PoolView<'a> {
    pub control: Control,
    pub states: &'a [u32],
    pub names: &'a [u32],
    pub pool: &'a [u8],
    pub free: &'a [i32],
    pub heads: &'a [i32],
    pub chain: &'a [i32],
    pub rows: &'a [u32],
    pub store: &'a [u8],
    pub counts: &'a [u16],
}

// The slices alone, to change all of them but the rows, as a pin does.
#[derive(Drop)]
pub struct SlicesMut<'a> {
    pub states: &'a mut [u32],
    pub names: &'a mut [u32],
    pub pool: &'a mut [u8],
    pub free: &'a mut [i32],
    pub heads: &'a mut [i32],
    pub chain: &'a mut [i32],
    pub rows: &'a [u32],
    pub store: &'a mut [u8],
    pub counts: &'a mut [u16],
}

impl SlicesMut<'_> {
    pub fn view(&self, control: Control) -> PoolView<'_>
        ensures { memory_of result ≡ memory_in control self.now }
    {
        PoolView {
            control,
            states: self.states,
            names: self.names,
            pool: self.pool,
            free: self.free,
            heads: self.heads,
            chain: self.chain,
            rows: self.rows,
            store: self.store,
            counts: self.counts,
        }
    }
}
