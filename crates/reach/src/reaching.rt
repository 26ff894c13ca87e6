// Reach in rows: row p is the mask of all that processor p reaches. Specification, clause 7.3.
ghost use Rattle.std.specs.Prelude.{◌≡◌, ◌<◌};
ghost use Rattle.plans.specs.Entries.{max_processors};
ghost use Rattle.masks.specs.Tabulation.{tabulate};
ghost use Rattle.board_list.specs.Sizes.{listed_of};
ghost use Rattle.reach.specs.Rows.{joined_row, rows_through};

use board_list::listed;
use masks::{Mask, join_if};
use plans::MAX_PROCESSORS;

// Joins every row with row k if it contains k.
fn join_through(rows: &mut [u32; MAX_PROCESSORS], k: usize)
    requires { k < max_processors }
    ensures { rows.new ≡ tabulate max_processors (joined_row rows.old k) }
{
    let row = rows[k];
    for own in rows.iter_mut() {
        *own = join_if(*own, row, own.has(k as u32));
    }
}

// Clause 7.3: computes all that each processor reaches from the direct waits of all, on a board with this many
// processors. There is one pass for each processor that a chain may lead through. Before pass k, the rows already
// contain the chains through the processors below k.
#[tactic(auto, unfolding(crate::specs::Rows::rows_through))]
pub fn reach_rows(processors: u8, direct: [u32; MAX_PROCESSORS]) -> [u32; MAX_PROCESSORS]
    ensures { result ≡ rows_through (listed_of processors) direct }
{
    let mut rows = direct;
    for k in 0..listed(processors) {
        join_through(&mut rows, k);
    }
    rows
}
