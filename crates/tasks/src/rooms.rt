//! Room for one more of what a worker has done.
ghost use Rattle.std.specs.Prelude.{◌≡◌, ◌+◌, ◌<◌, ◌≤◌, OnOk, OnErr, vec_len, vec_capacity};

/// That memory was refused. Only a vector that has no room for one more, and gets none, makes it.
#[derive(Debug, PartialEq, Eq, Drop)]
pub struct NoRoom {
    refused: (),
}

/// Makes room for one more. Takes memory where there is none.
pub(crate) fn make_room<A>(done: &mut Vec<A>) -> Result<(), NoRoom>
    ensures same { done.new.items ≡ done.old.items }
    ensures room { OnOk result (vec_len done.new < vec_capacity done.new) }
    ensures full { OnErr result (vec_capacity done.old ≤ vec_len done.old) }
{
    match done.reserve(1) {
        Ok(()) => Ok(()),
        Err(_) => Err(NoRoom { refused: () }),
    }
}
