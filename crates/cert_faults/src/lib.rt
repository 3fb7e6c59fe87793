//! The first fault of bytes that are no certificate, said of the bytes alone, beside the order of tests by which a
//! certificate is read.
#![tactic(auto)]

ghost use Rattle.cert_faults.specs.Laws.{FaultsAreOfTheBytes};

use cert_rows::{rows_are_found, rows_are_read_again};

/// The first test that fails is that of the fault which the bytes have by themselves: what stands at their front, which
/// rows of a certificate stand one above the other behind it, and what is left behind the last of them.
pub fn first_faults_are_of_the_bytes()
    ensures { FaultsAreOfTheBytes }
{
    rows_are_read_again();
    rows_are_found();
}
