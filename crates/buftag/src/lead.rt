// Links counted, not walked.

ghost use Rattle.std.specs.Prelude.{◌≡◌, ◌^◌, ◌<◌, length};
ghost use Rattle.buftag.specs.Check.{leading};

use crate::link::NONE;

// How many links of a list lead on: all but those that end it. One comparison and one addition a link, so that the compiler makes vectors.
pub fn leading(links: &[i32]) -> u32
    requires { length links.now < 2 ^ 32 }
    ensures { result ≡ leading links.now }
{
    let mut many = 0;
    for &link in links {
        many += u32::from(link != NONE);
    }
    many
}
