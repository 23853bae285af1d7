// Both phases of the cover, one after the other, on words that hold the conflicts.
ghost use Rattle.std.specs.Prelude.{◌+◌, ◌<◌, length, MatchOption};
ghost use Rattle.filling.specs.Views.{filled};
ghost use Rattle.cover_theory.specs.Rows.{told};
ghost use Rattle.cover_theory.specs.Rule.{ruled};
ghost use Rattle.cover.specs.Views.{rel_in, Moved};

use crate::bicliques::find_bicliques;
use crate::cliques::{MOST_MEMBERS, find_cliques};
use crate::mask::{Mask, Sides};
use crate::remaining::Remaining;
use crate::words::MOST_LITERALS;
use filling::Filling;

// Finds the parts and puts them into the list. None: it is too short.
pub(crate) fn find_parts(remaining: &mut Remaining, list: &mut Filling<i32>) -> Option<()>
    ensures { MatchOption result
        (length (filled list.old).put + length (filled list.old).rest < length (ruled told remaining.old.count (rel_in remaining.old, (filled list.old).put)).1)
        (λ _. Moved remaining.old remaining.new (filled list.old) (filled list.new) (ruled told remaining.old.count (rel_in remaining.old, (filled list.old).put))) }
{
    if remaining.count == 0 {
        return Some(());
    }
    let mut sides = Sides {
        left: Mask::new(),
        right: Mask::new(),
    };
    let mut members = [0usize; MOST_MEMBERS];
    let mut degrees = [0u16; MOST_LITERALS];
    find_cliques(remaining, list, &mut sides.left, &mut members)?;
    find_bicliques(remaining, list, &mut sides, &mut degrees)
}
