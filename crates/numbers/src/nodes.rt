// Nodes, and sets of nodes: one byte, bit i-1 for node i.
ghost use Rattle.std.specs.Prelude.{◌≡◌, ◌≤◌, ◌<◌};
ghost use Rattle.numbers.specs.Nodes.{is_size, is_node, is_set, has, single, all, join, without, size};

// Whether there can be n nodes.
pub fn is_size(n: u64) -> bool
    ensures { result ≡ is_size n }
{
    crate::is_within(1, n, 8)
}

// Whether i is one of n nodes.
pub fn is_node(n: u8, i: u64) -> bool
    ensures { result ≡ is_node n i }
{
    crate::is_within(1, i, u64::from(n))
}

// Whether s has no bit above n.
#[tactic(auto, using(crate::specs::Laws::is_set_law))]
pub fn is_set(n: u8, s: u64) -> bool
    requires { n ≤ 8 }
    ensures { result ≡ is_set n s }
{
    s >> n == 0
}

// Whether node i is in s.
#[tactic(auto, using(crate::specs::Laws::has_at, crate::specs::Laws::has_outside))]
pub fn has(s: u8, i: u8) -> bool
    ensures { result ≡ has s i }
{
    (1..=8).contains(&i) && (s >> (i - 1)) % 2 == 1
}

// The set of node i alone.
#[tactic(auto, using(crate::specs::Laws::single_none, crate::specs::Laws::single_at))]
pub fn single(i: u8) -> u8
    requires { i ≤ 8 }
    ensures { result ≡ single i }
{
    if i == 0 { 0 } else { 1 << (i - 1) }
}

// The set of all n nodes.
#[tactic(auto, using(crate::specs::Laws::all_none, crate::specs::Laws::all_shifted))]
pub fn all(n: u8) -> u8
    requires { n ≤ 8 }
    ensures { result ≡ all n }
{
    if n == 0 { 0 } else { u8::MAX >> (8 - n) }
}

// The nodes of both sets.
#[tactic(auto, unfolding(crate::specs::Nodes::join))]
pub fn join(a: u8, b: u8) -> u8
    ensures { result ≡ join a b }
{
    a | b
}

// The nodes of s but for node i.
#[tactic(auto, using(crate::specs::Laws::has_within), unfolding(crate::specs::Nodes::without))]
pub fn without(s: u8, i: u8) -> u8
    ensures { result ≡ without s i }
{
    if has(s, i) { s ^ single(i) } else { s }
}

// How many nodes are in s.
#[tactic(auto, using(crate::specs::Laws::ones_members))]
pub fn size(s: u8) -> u8
    ensures { result ≡ size s }
{
    s.count_ones() as u8
}
