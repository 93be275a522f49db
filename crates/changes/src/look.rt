// What a call looks up: the replica that a number names, and what stands in a directory: a live entry
// with a name, a live entry at all, a live child that is held. Each but `held` and `room_for` is promised for any
// bytes as long as a table.
ghost use Rattle.std.specs.Prelude.{◌≡◌, false, ◌≤◌, ◌<◌, length, MatchResult};
ghost use Rattle.std.proofs.Math.Option.{none, some};
ghost use Rattle.document.specs.Tables.{head_of, table_of, entry_in, replica_in};
ghost use Rattle.document.specs.Calls.{name_taken, any_shown, live_child};
ghost use Rattle.answers.specs.declared.refusal.Refusal.TheVariants.{NotHeld};
ghost use Rattle.changes.specs.Looking.{is_taken_by, is_shown_in, is_child_of, slot_of, NoRoomFor};

use answers::Refusal;
use codec::Stored;
use names::Name;
use records::Head;
use slots::Table;
use table::find;

// A directory this deep takes no more.
const DEEPEST: u8 = 16;

// The slot of the replica that a caller's number names.
pub fn slot_of(t: &[u8], id: u64) -> Option<usize>
    requires { 13344 ≤ length t.now }
    ensures { result ≡ slot_of t.now id }
{
    let id = u32::try_from(id).ok()?;
    find::replica(t, find::replicas_used(t), id)
}

// The head of the replica that a caller's number names.
pub fn held(t: &Table, id: u64) -> Result<Head, Refusal>
    ensures { MatchResult result (λ h. head_of (table_of t.now) id ≡ some h)
        (λ e. (e ≡ NotHeld) × (head_of (table_of t.now) id ≡ none)) }
{
    let Some(i) = slot_of(t, id) else {
        return Err(Refusal::NotHeld);
    };
    Ok(Head::read(t, 32 + 48 * i))
}

// Whether entry slot s is a live entry of the directory.
pub fn shows(t: &[u8], s: usize, directory: u32) -> bool
    requires { (13344 ≤ length t.now) × (s < 256) }
    ensures { result ≡ is_shown_in directory (entry_in t.now s) }
{
    let o = 3104 + 40 * s;
    u32::read(t, o + 32) == directory && u8::read(t, o + 2) == 1
}

// Whether entry slot s is a live entry of the directory with that name.
fn takes_name(t: &[u8], s: usize, directory: u32, name: Name) -> bool
    requires { (13344 ≤ length t.now) × (s < 256) }
    ensures { result ≡ is_taken_by directory name (entry_in t.now s) }
{
    shows(t, s, directory) && Name::read(t, 3104 + 40 * s + 16) == name
}

// Whether a live entry of the directory has that name.
pub fn is_name_taken(t: &[u8], directory: u32, name: Name) -> bool
    requires { 13344 ≤ length t.now }
    ensures { result ≡ name_taken directory name (table_of t.now).entries }
{
    (0..find::entries_used(t)).any(|s| takes_name(t, s, directory, name))
}

// Whether there is room for the name in the directory: no live entry has it, and the directory is not 16
// deep.
pub fn room_for(t: &Table, p: Head, name: Name) -> Result<(), Refusal>
    ensures { MatchResult result
        (λ _. (name_taken p.id name (table_of t.now).entries ≡ false) × (p.depth < 16))
        (NoRoomFor (table_of t.now) p name) }
{
    if is_name_taken(t, p.id, name) {
        return Err(Refusal::NameTaken);
    }
    if DEEPEST <= p.depth {
        return Err(Refusal::TooDeep);
    }
    Ok(())
}

// Whether the directory has a live entry.
pub fn is_any_shown(t: &[u8], directory: u32) -> bool
    requires { 13344 ≤ length t.now }
    ensures { result ≡ any_shown directory (table_of t.now).entries }
{
    (0..find::entries_used(t)).any(|s| shows(t, s, directory))
}

// Whether replica slot s is live, in the directory, and not the root.
fn is_child(t: &[u8], s: usize, directory: u32) -> bool
    requires { (13344 ≤ length t.now) × (s < 64) }
    ensures { result ≡ is_child_of directory (replica_in t.now s) }
{
    let h = Head::read(t, 32 + 48 * s);
    h.directory == directory && (h.is_live() && h.id != 0)
}

// Whether a held live replica is in the directory.
pub fn is_child_live(t: &[u8], directory: u32) -> bool
    requires { 13344 ≤ length t.now }
    ensures { result ≡ live_child directory (table_of t.now).replicas }
{
    (0..find::replicas_used(t)).any(|s| is_child(t, s, directory))
}
