ghost use Rattle.certificate.specs.Laws.{CertLaws};

use cert_rows::{rows_are_found, rows_are_read_again};

/// All bytes are the certificate of one set, one digest and one table or have one first fault, and none are both.
pub fn certificates_keep_their_laws()
    ensures { CertLaws }
{
    rows_are_read_again();
    rows_are_found();
}
