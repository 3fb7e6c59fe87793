ghost use Rattle.gated_log.specs.Logs.{LogLaws};

/// Bytes are a log of one list of payloads, and a record that is added stands behind
/// those that were there. This function does nothing; it is there for its contract.
pub fn bytes_are_one_log()
    ensures { LogLaws }
{}
