//! Meetings after which all seats have seen one list.
ghost use Rattle.std.specs.Prelude.{◌≡◌, true, length};
ghost use Rattle.shared_memory.specs.Seats.{IsSameSeat, SeatsMeet};
ghost use Rattle.spawn_host_workers.specs.Seats.{AreLevel, HasMet};

use shared_memory::SharedMemory;

/// Two meetings: each seat has the right that it had.
fn meet_twice<M: SharedMemory>(memory: &M, a: &mut M::Seat, b: &mut M::Seat)
    ensures a { IsSameSeat M.SharedMemory a.old a.new }
    ensures b { IsSameSeat M.SharedMemory b.old b.new }
    ensures one { M.seen b.new ≡ M.seen a.new }
    ensures longer { SeatsMeet M.SharedMemory a.old b.old (M.seen a.new) }
{
    memory.meet(a, b);
    memory.meet(a, b);
}

/// Each seat meets the hub, which has the queue right.
fn round<M: SharedMemory>(memory: &M, hub: &mut M::Seat, seats: &mut [M::Seat])
    requires { M.has_queue_right hub.old ≡ true }
    ensures { HasMet M.SharedMemory hub.old hub.new seats.old seats.new (length seats.old) }
{
    for i in 0..seats.len() {
        meet_twice(memory, hub, &mut seats[i]);
    }
}

/// All seats meet the hub, and then all meet it again: so all have seen one list.
pub(crate) fn level<M: SharedMemory>(memory: &M, hub: &mut M::Seat, seats: &mut [M::Seat])
    requires { M.has_queue_right hub.old ≡ true }
    ensures { AreLevel M.SharedMemory hub.old hub.new seats.old seats.new }
{
    round(memory, hub, seats);
    round(memory, hub, seats);
}
