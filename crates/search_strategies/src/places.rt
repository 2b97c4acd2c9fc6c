//! Places among the threads that can go on.
ghost use Rattle.std.specs.Prelude.{◌≡◌, ◌<◌, length, IfSome, nat_lt, position};
ghost use Rattle.search_strategies.specs.Places as specified;

/// Where a thread stands among those that can go on, if it can.
pub(crate) fn place_of(ready: &[u32], thread: u32) -> Option<usize>
    ensures place { IfSome result (λ place. place < length ready.now) }
    ensures value { result ≡ specified.place_of thread ready.now }
{
    ready.iter().position(|n| *n == thread)
}

/// Where the first of those stands that can go on with a higher number, if one can.
fn first_behind(ready: &[u32], thread: u32) -> Option<usize>
    ensures place { IfSome result (λ place. place < length ready.now) }
    ensures value { result ≡ position (λ n. nat_lt thread n) ready.now }
{
    ready.iter().position(|n| thread < *n)
}

/// The first of those that can go on with a higher number, or the first of all.
pub(crate) fn next_place(ready: &[u32], thread: u32) -> usize
    requires { 0 < length ready.now }
    ensures place { result < length ready.now }
    ensures value { result ≡ specified.next_place thread ready.now }
{
    first_behind(ready, thread).unwrap_or(0)
}

/// What is chosen among so many, where there is such a place, and else the first.
pub(crate) fn place_within(choice: usize, count: usize) -> usize
    requires { 0 < count }
    ensures place { result < count }
    ensures value { result ≡ specified.place_within choice count }
{
    if choice < count { choice } else { 0 }
}
