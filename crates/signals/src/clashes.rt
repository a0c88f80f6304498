ghost use Rattle.std.specs.{List.list_all, Prelude.◌≡◌, Prelude.◌<◌, Prelude.◌↔◌, Prelude.IsTrue, Prelude.length};
ghost use Rattle.std.specs.{Prelude.true};
ghost use Rattle.signals.specs.{Clash.clash, Clash.AreGreenTogether, Signals.is_among, Signals.is_clash, Signals.first_clash};

use crate::arcs::{common_divisor, some_meet};
use crate::conflict::{Conflict, ConflictList};
use rows::{Green, GreenList};

/// Whether some second, however late, has both signals green.
///
/// No second is looked at: the spans are compared by what they leave over of the greatest common divisor of the cycles.
pub fn clash(first: &Green, second: &Green) -> bool
    ensures exact { IsTrue result ↔ AreGreenTogether first.now second.now }
    ensures is { result ≡ clash first.now second.now }
{
    some_meet(common_divisor(first.cycle, second.cycle), first, second)
}

fn is_clash(greens: &[Green], conflict: Conflict) -> bool
    requires link { conflict.link < length greens.now }
    requires other { conflict.other < length greens.now }
    ensures { result ≡ is_clash greens.now conflict }
{
    clash(
        &greens[conflict.link as usize],
        &greens[conflict.other as usize],
    )
}

/// The first conflict whose links are both green in some second.
#[tactic(auto, unfolding(crate::specs::Signals::first_clash))]
pub fn first_clash(greens: &GreenList, conflicts: &ConflictList) -> Option<Conflict>
    requires { list_all (is_among (length greens.now)) conflicts.now ≡ true }
    ensures { result ≡ first_clash greens.now conflicts.now }
{
    let mut rest = conflicts.rows.as_slice();
    while let [conflict, after @ ..] = rest {
        if is_clash(&greens.rows, *conflict) {
            return Some(*conflict);
        }
        rest = after;
    }
    None
}
