//! What holds of instances: functions that do nothing, and whose contracts are laws.
ghost use Rattle.host_instances.specs.Instances.{InstancesBeginWithTheirMemories, RunsLeaveMemories};

/// The module of an instance is valid, and begins with the instance's memory.
pub fn instances_begin_with_their_memories()
    ensures { InstancesBeginWithTheirMemories }
{}

/// A run that begins with an instance's memory leaves one that the module can have.
pub fn runs_leave_memories()
    ensures { RunsLeaveMemories }
{}
