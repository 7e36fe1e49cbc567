// A list walked to its end with a budget, which every place on the way takes one from. Ends whatever the links are.

ghost use Rattle.std.specs.Prelude.{◌≡◌};
ghost use Rattle.buftag.specs.Budget.{spend, spent};

use crate::link::Link;

// Walks the list that starts at a link: what is left of the budget at the list's end, or none where the walk goes wrong.
pub fn list_walk(links: &[i32], first: Link, budget: usize) -> Option<usize>
    ensures { result ≡ spend links.now budget first }
{
    let mut at = first;
    for left in (0..=budget).rev() {
        match at {
            Link::End => return Some(left),
            Link::To(i) => at = Link::from(*links.get(i)?),
            _ => return None,
        }
    }
    None
}

pub fn is_spent(left: Option<usize>) -> bool
    ensures { result ≡ spent left }
{
    left == Some(0)
}
