// Buffer numbers and block numbers: types of their own, so that one does not build where the other belongs.

#[derive(Clone, Copy, PartialEq, Eq)]
pub struct BufferNumber(pub usize);

#[derive(Clone, Copy, Default, PartialEq, Eq)]
pub struct BlockNumber(pub u32);
