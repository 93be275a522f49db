// The end of every call that works on a copy: a state is set, versions are raised, and the copy comes
// back, if there is room and nothing is past its end.
ghost use Rattle.document.specs.Tables.{table_of};
ghost use Rattle.answers.specs.Forms.{Answered, Leaves};
ghost use Rattle.changes.specs.Finishing.{Ends, Changes, ended, changed};

use crate::LATEST;
use answers::{Answer, Refusal};
use codec::Stored;
use records::Head;
use slots::{Table, TableHeader};
use steps::{settle, state};

// A node makes no more ids than 2^24-1, and the next count is one more at the most.
const NEXT_MOST: u32 = 1 << 24;

// Ends a call whose steps are done on the copy.
pub fn finish(table: &mut Table, copy: &mut Table, value: u32) -> Answer
    requires { Ends table.old copy.old }
    ensures { Leaves Answered (ended value (table_of table.old) (table_of copy.old)) result
        table.old table.new }
{
    let header = TableHeader::read(copy, 0);
    if LATEST < header.highest || NEXT_MOST < header.next {
        return Err(Refusal::PastEnd);
    }
    settle::settle(table, copy).or(Err(Refusal::PastEnd))?;
    *table = *copy;
    Ok(value)
}

// Sets the state on the copy and ends the call.
pub fn change(table: &mut Table, copy: &mut Table, h: Head, value: u32) -> Answer
    requires { Changes table.old copy.old h }
    ensures { Leaves Answered (changed value h (table_of table.old) (table_of copy.old)) result
        table.old table.new }
{
    state::state(copy, h).or(Err(Refusal::NoRoom))?;
    finish(table, copy, value)
}
