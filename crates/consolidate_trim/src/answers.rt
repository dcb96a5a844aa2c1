//! The answers of a hold, in order.

ghost use Rattle.std.specs.Prelude.{◌≡◌, ◌<◌, ◌≤◌, [], ◌∷◌, ◌++◌, OnOk, OnErr, vec_len, vec_capacity};
ghost use Rattle.consolidate_trim.specs.Lacks.{IsFull};

use chunk_tags::NoMemory;

/// Makes room for one more item, before it is needed. The items stay (this project's own). The first one takes no more memory
/// than for itself, since most holds are told nothing or one thing.
pub fn make_room<T>(items: &mut Vec<T>) -> Result<(), NoMemory>
    ensures answers { items.new.items ≡ items.old.items }
    ensures room { OnOk result (vec_len items.new < vec_capacity items.new) }
    ensures full { OnErr result (vec_capacity items.old ≤ vec_len items.old) }
    ensures lacks { OnErr result (IsFull items.new) }
{
    if items.len() < items.capacity() {
        return Ok(());
    }
    if items.capacity() == 0 {
        items.reserve_exact(1)?;
    } else {
        items.reserve(1)?;
    }
    Ok(())
}

/// Puts an answer behind the others, where room was made for it. No memory is asked for.
pub fn tell<T: Copy>(said: &mut Vec<T>, answer: &T)
    requires { vec_len said.old < vec_capacity said.old }
    ensures { said.new.items ≡ said.old.items ++ answer.now ∷ [] }
{
    said.push(*answer).unwrap();
}
