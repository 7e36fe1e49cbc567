// Document 01's bench: three buffers, three buckets, one file of four blocks of zeros with room for a fifth, the log at 100, the cap 5.

use crate::text::{Log, Said};
use bufcalls::set_up::set_up_pool;
use bufmodel::control::Control;
use bufmodel::refusal::Refusal;
use buftag::name::{PageName, page_name};

// The block size.
const SIZE: usize = 1024;

// The log's position at set-up.
const POSITION: u64 = 100;

// The cap.
const CAP: usize = 5;

// The lent memory.
#[derive(Clone, Copy)]
pub(crate) struct Bench {
    pub(crate) control: Control,
    pub(crate) states: [u32; 3],
    pub(crate) names: [u32; 15],
    pub(crate) pool: [u8; 3072],
    pub(crate) free: [i32; 3],
    pub(crate) heads: [i32; 3],
    pub(crate) chain: [i32; 3],
    pub(crate) rows: [u32; 6],
    pub(crate) store: [u8; 5120],
    pub(crate) counts: [u16; 192],
}

// A page of the file.
pub(crate) fn page(block: u32) -> PageName {
    page_name(1663, 5, 16384, 0, block)
}

impl Bench {
    // Names, words, links and counts are lent with numbers that set up has to clear.
    fn uncleared() -> Bench {
        Bench {
            control: Control::default(),
            states: [7; 3],
            names: [7; 15],
            pool: [7; 3072],
            free: [7; 3],
            heads: [7; 3],
            chain: [7; 3],
            rows: [1663, 5, 16384, 0, 4, 5],
            store: [0; 5120],
            counts: [7; 192],
        }
    }

    fn clear(&mut self) -> Result<(), Refusal> {
        self.control = set_up_pool(
            self.control,
            &mut self.states,
            &mut self.names,
            &self.pool,
            &mut self.free,
            &mut self.heads,
            &mut self.chain,
            &self.rows,
            &self.store,
            &mut self.counts,
            SIZE,
            POSITION,
            CAP,
        )?;
        Ok(())
    }

    pub(crate) fn set_up(rt: &impl Print) -> Bench {
        let mut bench = Bench::uncleared();
        let said = Said(bench.clear());
        let _ = println!(rt; "set up, {said}, {}", Log(bench.control));
        bench
    }
}
