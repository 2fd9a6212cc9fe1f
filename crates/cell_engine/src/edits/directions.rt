//! The directions of the sessions after an edit.

ghost use Rattle.std.specs.Prelude.{◌≡◌, IfOk};
ghost use Rattle.std.specs.BTreeSet.{insert_key};
ghost use Rattle.session_queue.specs.Waiting.{direction_cmp};
ghost use Rattle.cell_engine.specs.Editing.{with_directions};

use net_conf::Edit;
use net_prefix::Addr;
use session_queue::Direction;
use shared_map::ChunkedSet;
use std::alloc::{AllocError, Global};

/// The directions, with both of a session of these two.
fn with_session(
    alloc: Global,
    directions: &ChunkedSet<Direction>,
    one: Addr,
    other: Addr,
) -> Result<ChunkedSet<Direction>, AllocError>
    ensures { IfOk result (λ more. more ≡
        insert_key direction_cmp (insert_key direction_cmp directions.now (record { from = other; to = one }))
        (record { from = one; to = other })) }
{
    let back = Direction {
        from: other,
        to: one,
    };
    let there = Direction {
        from: one,
        to: other,
    };
    let mut more = directions.share()?;
    more.insert(alloc, back)?;
    more.insert(alloc, there)?;
    Ok(more)
}

/// The directions of the sessions after the edit: but for those of a new session the same, shared.
pub(crate) fn directions_after(
    alloc: Global,
    directions: &ChunkedSet<Direction>,
    edit: &Edit,
) -> Result<ChunkedSet<Direction>, AllocError>
    ensures { IfOk result (λ after. after ≡ with_directions edit.now directions.now) }
{
    match edit {
        Edit::Join(one, other) => with_session(alloc, directions, *one, *other),
        _ => directions.share(),
    }
}
