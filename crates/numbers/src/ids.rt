// Ids, stamps and versions.
ghost use Rattle.std.specs.Prelude.{◌≡◌, ◌≤◌, ◌<◌};
ghost use Rattle.numbers.specs.Ids.{id_of, maker, count, is_made, is_id, clock_of, is_stamp, is_version};

// The ids of two makers lie so far apart.
const MAKERS_APART: u32 = 16777216;

// A stamp's clock is at most 2^40-1.
const LAST_CLOCK: u64 = 1099511627775;

// The id of a node's count-th file.
pub fn id_of(node: u8, count: u32) -> u32
    requires { (node ≤ 8) × (count ≤ 16777216) }
    ensures { result ≡ id_of node count }
{
    u32::from(node) * MAKERS_APART + count
}

// The node that made id; 0 for the root.
pub fn maker(id: u32) -> u8
    ensures { result ≡ maker id }
{
    (id / MAKERS_APART) as u8
}

// The how many-eth file of its maker id is.
pub fn count(id: u32) -> u32
    ensures { result ≡ count id }
{
    id % MAKERS_APART
}

// Whether one of n nodes can have made id.
#[tactic(auto, unfolding(crate::specs::Ids::is_made))]
pub fn is_made(n: u8, id: u32) -> bool
    ensures { result ≡ is_made n id }
{
    crate::nodes::is_node(n, u64::from(maker(id))) && 1 <= count(id)
}

// Whether id is the root or one that one of n nodes can have made.
#[tactic(auto, unfolding(crate::specs::Ids::is_id))]
pub fn is_id(n: u8, id: u32) -> bool
    ensures { result ≡ is_id n id }
{
    id == 0 || is_made(n, id)
}

// The clock of a stamp.
pub fn clock_of(stamp: u64) -> u64
    ensures { result ≡ clock_of stamp }
{
    stamp / 256
}

// Whether one of n nodes can have issued stamp.
#[tactic(auto, unfolding(crate::specs::Ids::is_stamp))]
pub fn is_stamp(n: u8, stamp: u64) -> bool
    ensures { result ≡ is_stamp n stamp }
{
    crate::is_within(1, clock_of(stamp), LAST_CLOCK) && crate::nodes::is_node(n, stamp % 256)
}

// Whether v is a version.
#[tactic(auto, unfolding(crate::specs::Ids::is_version))]
pub fn is_version(v: u32) -> bool
    ensures { result ≡ is_version v }
{
    1 <= v
}
