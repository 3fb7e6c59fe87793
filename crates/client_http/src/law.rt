ghost use Rattle.client_http.specs.ReadAs.{IsOneSubmission};

/// Bytes that are read as a submission have one answer at the desk, whatever stands in its office beside the developer
/// with this token: that developer's submission of this reference and this app.
pub fn a_submission_is_read_as_one()
    ensures { IsOneSubmission }
{}
