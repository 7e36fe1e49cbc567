// What is pinned for whom, once the name has a place.

ghost use Rattle.std.specs.Prelude.{◌<◌};
ghost use Rattle.bufmodel.specs.Counts.{max_holders};

use bufmodel::holder::Holder;
use buftag::name::PageName;

#[derive(Clone, Copy)]
pub struct Wanted {
    pub holder: Holder,
    pub name: PageName,
    // The page's place in the store.
    pub place: usize,
    pub ghost few: { holder.0 < max_holders },
}
