// Links of lists kept in lent memory: 32-bit signed numbers with negative marks.

ghost use Rattle.std.specs.Prelude.{◌≡◌, ◌<◌, length};
ghost use Rattle.buftag.specs.Link.{link_of, link_at, is_end, is_to};

// The number that ends a list, and the link of a place in no list.
pub const NONE: i32 = -1;

pub const OFF: i32 = -2;

// What a link says. Four cases, two of them marks: no Option has so many.
#[derive(Clone, Copy, PartialEq, Eq)]
pub enum Link {
    // The list goes on at this place.
    To(usize),
    // NONE: the list ends.
    End,
    // OFF: this place is in no list.
    Off,
    // Any other negative number, which no link is.
    Bad,
}

// A signed number, cast to an index after its sign test, which comes first: a walk takes one test for a place.
impl From<i32> for Link {
    ghost from_gives = { λ x link. link ≡ link_of x };

    fn from(x: i32) -> Link {
        match x {
            _ if x >= 0 => Link::To(x as usize),
            NONE => Link::End,
            OFF => Link::Off,
            _ => Link::Bad,
        }
    }
}

// What the link at a place says.
pub fn link_at(links: &[i32], i: usize) -> Link
    requires { i < length links.now }
    ensures { result ≡ link_at links.now i }
{
    Link::from(links[i])
}

pub fn is_end(l: Link) -> bool
    ensures { result ≡ is_end l }
{
    l == Link::End
}

// Whether a link leads to a place.
pub fn leads_to(l: Link, i: usize) -> bool
    ensures { result ≡ is_to i l }
{
    matches!(l, Link::To(j) if j == i)
}
