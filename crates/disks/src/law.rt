ghost use Rattle.disks.specs.Disks.{BytesMayBeLeft};

/// What a read gives is among what a crash may leave, after a sync, and after each write and cut however it ended. This
/// function does nothing; it is there for its contract.
pub fn what_is_read_may_be_left()
    ensures { BytesMayBeLeft }
{}
