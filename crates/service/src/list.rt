// List: the live entries of a live directory, in slot order, as entry records.
// A cast loses nothing: that is proved where it stands, and `try_from` would add a refusal that never comes.
ghost use Rattle.std.specs.Prelude.{◌≡◌, true, ◌+◌, ◌*◌, ◌≤◌, ◌<◌, length};
ghost use Rattle.std.proofs.Math.Option.{some};
ghost use Rattle.codec.specs.Bytes.{splice};
ghost use Rattle.records.specs.Entries.{entry_bytes};
ghost use Rattle.document.specs.Tables.{head_of, rows, table_of};
ghost use Rattle.document.specs.Sound.{sound_bytes};
ghost use Rattle.document.specs.Calls.{list_in};
ghost use Rattle.answers.specs.Forms.{Answered, Writes};
ghost use Rattle.service.specs.Listing.{shown_at, shown_in};
ghost use Rattle.service.specs.Promises.{ListPromise};

use crate::judged::judged;
use answers::{Answer, Refusal};
use changes::look;
use codec::Stored;
use records::{Entry, Head};
use slots::Table;
use table::find;

// How many of k entry slots are live entries of the directory.
fn shown_in(t: &Table, k: usize, directory: u32) -> usize
    requires { k ≤ 256 }
    ensures { (result ≡ length (shown_in t.now directory k)) × (result ≤ k) }
{
    (0..k).filter(|&i| look::shows(t, i, directory)).count()
}

// Writes entry slot s as the record behind n records, if it is a live entry of the directory: how
// many records there are then.
fn write_slot(t: &Table, s: usize, directory: u32, out: &mut [u8], n: usize) -> usize
    requires { (s < 256)
        × (32 * (n + length (shown_at t.now directory s)) ≤ length out.old) }
    ensures { (result ≡ n + length (shown_at t.now directory s))
        × (out.new
        ≡ splice out.old (32 * n) (rows entry_bytes (shown_at t.now directory s))) }
{
    if !look::shows(t, s, directory) {
        return n;
    }
    let e = Entry::read(t, 3104 + 40 * s);
    e.write(out, Entry::SIZE * n);
    n + 1
}

// Writes those of k entry slots that are live entries of the directory: how many they are.
fn write_shown(t: &Table, k: usize, directory: u32, out: &mut [u8]) -> usize
    requires { (k ≤ 256)
        × (32 * length (shown_in t.now directory k) ≤ length out.old) }
    ensures { (result ≡ length (shown_in t.now directory k))
        × (out.new
        ≡ splice out.old 0 (rows entry_bytes (shown_in t.now directory k))) }
{
    let mut n = 0;
    for i in 0..k {
        n = write_slot(t, i, directory, out, n);
    }
    n
}

// Lists what is held, by its head.
fn list_held(t: &Table, h: Head, out: &mut [u8]) -> Answer
    requires { head_of (table_of t.now) h.id ≡ some h }
    ensures { Writes Answered (list_in h.id (length out.old) (table_of t.now)) result
        out.old out.new }
{
    if !h.is_directory() && !h.is_live() {
        return Err(Refusal::Dead);
    }
    if !h.is_directory() {
        return Err(Refusal::WrongKind);
    }
    let k = find::entries_used(t);
    let n = shown_in(t, k, h.id);
    if out.len() < Entry::SIZE * n {
        return Err(Refusal::TooShort);
    }
    if !h.is_live() {
        return Err(Refusal::Dead);
    }
    write_shown(t, k, h.id, out);
    Ok(n as u32)
}

// Lists from a table that is sound.
fn list_sound(t: &Table, id: u64, out: &mut [u8]) -> Answer
    requires { sound_bytes t.now ≡ true }
    ensures { Writes Answered (list_in id (length out.old) (table_of t.now)) result
        out.old out.new }
{
    let h = look::held(t, id)?;
    list_held(t, h, out)
}

// Writes the live entries of the directory at the front of `out`; the value is how many they are.
pub fn list(table: &[u8], id: u64, out: &mut [u8]) -> Answer
    ensures { ListPromise Answered table.now id out.old result out.new }
{
    let t = judged(table)?;
    list_sound(t, id, out)
}
