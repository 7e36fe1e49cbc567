// The calls on the bench: each prints what came of it.

use crate::bench::{Bench, page};
use crate::text::{Log, Part, Said, Top};
use bufcalls::buffer::{unpin_buffer, write_buffer};
use bufcalls::give::give_back;
use bufcalls::peek::peek_part;
use bufcontrol::back::{checkpoint, flush};
use bufcontrol::log::log_through;
use bufcontrol::pin::pin;
use bufmodel::holder::Holder;
use bufmodel::view::{PoolView, SlicesMut};
use buftag::number::BufferNumber;

impl Bench {
    pub(crate) fn pin(&mut self, rt: &impl Print, holder: usize, block: u32) {
        let mut lent = SlicesMut {
            states: &mut self.states,
            names: &mut self.names,
            pool: &mut self.pool,
            free: &mut self.free,
            heads: &mut self.heads,
            chain: &mut self.chain,
            rows: &self.rows,
            store: &mut self.store,
            counts: &mut self.counts,
        };
        let said = Said(pin(&mut self.control, &mut lent, Holder(holder), page(block)));
        let hand = self.control.hand;
        let top = Top(self.control.top);
        let _ = println!(rt; "holder {holder}: pin block {block}: {said}, hand {hand}, {top}");
    }

    pub(crate) fn unpin(&mut self, rt: &impl Print, holder: usize, buffer: usize) {
        let said = Said(unpin_buffer(
            self.control,
            &mut self.states,
            &self.names,
            &self.pool,
            &self.free,
            &self.heads,
            &self.chain,
            &self.rows,
            &self.store,
            &mut self.counts,
            Holder(holder),
            BufferNumber(buffer),
        ));
        let _ = println!(rt; "holder {holder}: unpin buffer {buffer}, {said}");
    }

    pub(crate) fn give_back(&mut self, rt: &impl Print, holder: usize) {
        let said = Said(give_back(
            self.control,
            &mut self.states,
            &self.names,
            &self.pool,
            &self.free,
            &self.heads,
            &self.chain,
            &self.rows,
            &self.store,
            &mut self.counts,
            Holder(holder),
        ));
        let _ = println!(rt; "holder {holder}: give back, {said}");
    }

    pub(crate) fn write(&mut self, rt: &impl Print, holder: usize, buffer: usize, position: u64) {
        let said = Said(write_buffer(
            self.control,
            &mut self.states,
            &self.names,
            &mut self.pool,
            &self.free,
            &self.heads,
            &self.chain,
            &self.rows,
            &self.store,
            &self.counts,
            Holder(holder),
            BufferNumber(buffer),
            10,
            b"rye",
            position,
        ));
        let _ = println!(rt; "holder {holder}: write to buffer {buffer} at {position}, {said}");
    }

    pub(crate) fn flush(&mut self, rt: &impl Print, holder: usize, buffer: usize) {
        let said = Said(flush(
            &mut self.control,
            &mut self.states,
            &self.names,
            &self.pool,
            &self.free,
            &self.heads,
            &self.chain,
            &self.rows,
            &mut self.store,
            &self.counts,
            Holder(holder),
            BufferNumber(buffer),
        ));
        let log = Log(self.control);
        let _ = println!(rt; "holder {holder}: flush buffer {buffer}, {said}, {log}");
    }

    pub(crate) fn checkpoint(&mut self, rt: &impl Print) {
        let said = Said(checkpoint(
            &mut self.control,
            &mut self.states,
            &self.names,
            &self.pool,
            &self.free,
            &self.heads,
            &self.chain,
            &self.rows,
            &mut self.store,
            &self.counts,
        ));
        let _ = println!(rt; "checkpoint, {said}, {}", Log(self.control));
    }

    pub(crate) fn move_log(&mut self, rt: &impl Print, position: u64) {
        let seen = PoolView {
            control: self.control,
            states: &self.states,
            names: &self.names,
            pool: &self.pool,
            free: &self.free,
            heads: &self.heads,
            chain: &self.chain,
            rows: &self.rows,
            store: &self.store,
            counts: &self.counts,
        };
        let end = log_through(&seen, position);
        self.control = end.control;
        let inserted = Said(end.inserted);
        let flushed = Said(end.flushed);
        let _ = println!(rt;
            "log through {position}, {inserted}, {flushed}, {}",
            Log(end.control)
        );
    }

    pub(crate) fn peek(&self, rt: &impl Print, block: u32) {
        let part = Part(peek_part(
            self.control,
            &self.states,
            &self.names,
            &self.pool,
            &self.free,
            &self.heads,
            &self.chain,
            &self.rows,
            &self.store,
            &self.counts,
            page(block),
        ));
        let _ = println!(rt; "peek block {block}: {part}");
    }
}
