// The work bytes as cells: how a mark lies in them is known here alone.
ghost use Rattle.std.specs.Prelude.{◌+◌, ◌≤◌, ◌≡◌, ◌++◌, length, drop, replicate};
ghost use Rattle.joining.specs.Cells.{cell_of, room, Put};

pub(crate) fn put_mark(work: &mut [u8], cell: usize, mark: u8)
    requires { room (cell + 1) ≤ length work.old }
    ensures { Put work.old cell mark work.new }
{
    work[cell] = mark;
}

pub(crate) fn mark_at(work: &[u8], cell: usize) -> u8
    requires { room (cell + 1) ≤ length work.now }
    ensures { result ≡ cell_of work.now cell }
{
    work[cell]
}

// The bytes of the first `cells` cells are zero again.
#[tactic(auto, unfolding(crate::specs::Cells::room))]
pub(crate) fn clear(work: &mut [u8], cells: usize)
    requires { room cells ≤ length work.old }
    ensures { work.new ≡ replicate (room cells) 0 ++ drop (room cells) work.old }
{
    work[..cells].fill(0);
}
