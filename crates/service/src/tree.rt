// The calls that change the tree: create, unlink, rename, remove, spread. The table is judged here; the
// rest is done in `changes`.
ghost use Rattle.answers.specs.Forms.{Answered};
ghost use Rattle.service.specs.Promises.{CreatePromise, RemovePromise, RenamePromise, SpreadPromise, UnlinkPromise};

use crate::judged::sound;
use answers::{Answer, Refusal};

// Creates a file (1) or a directory (2) with that name in the directory, for the nodes of the set; the
// value is its id.
pub fn create(
    table: &mut [u8],
    time: u64,
    directory: u64,
    kind: u64,
    name: &[u8],
    set: u64,
) -> Answer
    ensures { CreatePromise Answered table.old time directory kind name.now set result table.new }
{
    let table = sound(table).ok_or(Refusal::NotSound)?;
    changes::create::create(table, time, directory, kind, name, set)
}

// Unlinks the file.
pub fn unlink(table: &mut [u8], time: u64, id: u64) -> Answer
    ensures { UnlinkPromise Answered table.old time id result table.new }
{
    let table = sound(table).ok_or(Refusal::NotSound)?;
    changes::unlink::unlink(table, time, id)
}

// Renames the file to the name in the directory.
pub fn rename(table: &mut [u8], time: u64, id: u64, directory: u64, name: &[u8]) -> Answer
    ensures { RenamePromise Answered table.old time id directory name.now result table.new }
{
    let table = sound(table).ok_or(Refusal::NotSound)?;
    changes::rename::rename(table, time, id, directory, name)
}

// Removes the directory.
pub fn remove(table: &mut [u8], time: u64, id: u64) -> Answer
    ensures { RemovePromise Answered table.old time id result table.new }
{
    let table = sound(table).ok_or(Refusal::NotSound)?;
    changes::remove::remove(table, time, id)
}

// Spreads the replica to the nodes of the set.
pub fn spread(table: &mut [u8], id: u64, set: u64) -> Answer
    ensures { SpreadPromise Answered table.old id set result table.new }
{
    let table = sound(table).ok_or(Refusal::NotSound)?;
    changes::spread::spread(table, id, set)
}
