//! What a lane reads after a lane was written. Each function has no body: its contract is the law.

ghost use Rattle.shared_memory_sequential.specs.Words.{LaneOfWithLane, LaneElsewhere};

/// A lane that was written reads as the value written.
pub fn lane_of_with_lane()
    ensures { LaneOfWithLane }
{}

/// A lane that doesn't overlap the one written reads as before.
pub fn lane_elsewhere()
    ensures { LaneElsewhere }
{}
