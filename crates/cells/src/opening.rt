// How a board is made.
ghost use Rattle.std.specs.Prelude.{◌≡◌, ◌<◌, ◌≤◌, [], length, IfOk};
ghost use Rattle.limits.specs.declared.TheConstants.{MAX_PARTITIONS};
ghost use Rattle.cells.specs.Pairs.{ArePairs, channels_of};
ghost use Rattle.cells.specs.Ports.{IsHub, IsLawful, FollowsPairs, run_of, had_port, joined, count_of, channels_in};

use crate::board::{Board, Hub};
use crate::table::{Channel, Exchange, Layout};
use crate::{SLOTS_APART, WORDS_APART};
use atomic_table::Table;
use std::alloc::{AllocError, Global};
use std::snapshot::Snapshot;

/// Two channels for each pair, one there and one back.
fn channels_for(alloc: Global, pairs: &[(u32, u32, u32, u32)]) -> Result<Vec<Channel>, AllocError>
    requires { length pairs.now ≤ 4096 }
    ensures { IfOk result (λ v. v.items ≡ channels_of pairs.now) }
{
    let mut channels = Vec::new(alloc);
    for i in 0..pairs.len() {
        let (p, q, there, back) = pairs[i];
        let e = 2 * i as u32;
        channels.push(Channel {
            from: p,
            to: q,
            lag: there,
            twin: e + 1,
        })?;
        channels.push(Channel {
            from: q,
            to: p,
            lag: back,
            twin: e,
        })?;
    }
    Ok(channels)
}

impl<T: Exchange> Board<T> {
    /// A board for `count` partitions, 1 to 64, and its hub. Each row of `pairs` is `(p, q, there, back)`: two neighbours, the lesser
    /// first, the lag from `p` to `q` and the lag from `q` to `p`, 1 to 32 s each. No two rows have the same neighbours; there may be no
    /// row. The one refusal is want of memory.
    ///
    /// Whatever the threads that have its ports do, and in whatever order: no partition is further than the lag ahead of a neighbour, what
    /// lies in a slot is a right parcel on its way, and none that is on its way is missing (`lawful`).
    pub fn new(
        alloc: Global,
        run: &T::Run,
        count: u32,
        pairs: &[(u32, u32, u32, u32)],
    ) -> Result<(Board<T>, Hub<T>), AllocError>
        requires count { (1 ≤ count) × (count ≤ MAX_PARTITIONS) }
        requires pairs { ArePairs count pairs.now }
        ensures board { IfOk result (λ b. (run_of b.0 ≡ run.now) × (count_of b.0 ≡ count)
            × (channels_in b.0 ≡ channels_of pairs.now)) }
        ensures hub { IfOk result (λ b. IsHub b.0 b.1 × (had_port b.1 ≡ []) × (joined b.1 ≡ [])) }
        ensures neighbours { IfOk result (λ b. FollowsPairs T.right b.0 pairs.now) }
        ensures lawful { IfOk result (λ b. IsLawful T.right b.0) }
    {
        let channels = channels_for(alloc, pairs)?;
        let words = Vec::from_elem(alloc, 0u64, WORDS_APART * count as usize)?;
        let layout = Layout {
            run: Snapshot::of(run),
            count,
            channels: Snapshot::of(&channels),
        };
        let slots = SLOTS_APART as usize * channels.len();
        let (table, seat) = Table::vacant(alloc, words.as_slice(), slots, &layout)?;
        Ok((
            Board {
                table,
                channels,
                count,
            },
            Hub { seat },
        ))
    }
}
