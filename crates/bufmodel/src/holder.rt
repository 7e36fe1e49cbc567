// Who has pins on a page: a type of its own, so that a buffer number is not taken for a holder.
#[derive(Clone, Copy)]
pub struct Holder(pub usize);
