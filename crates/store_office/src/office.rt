ghost use Rattle.std.specs.Prelude.{◌≡◌, find, nat_eq};
ghost use Rattle.std.specs.Option.{option_copied};
ghost use Rattle.std.specs.Cmp.Lexicographic.{pointwise};
ghost use Rattle.store_office.specs.Office.{has_token};

use crate::Party;
use vet_base::Shared;

/// What the store lays down for its desk.
#[derive(Drop)]
pub struct Office {
    /// 1 to 65535.
    pub port: u16,
    /// How many threads judge an app: 1 to 16.
    pub workers: u8,
    /// For how many days after a decision an appeal is taken: 1 to 365.
    pub appeal_days: u32,
    /// At most 4,096. No two have one name or one token.
    pub parties: Shared<Party>,
}

/// Whether the bytes are the same. Each pair of bytes is compared, so that the steps depend on the two lengths alone.
fn same_bytes(own: &[u8], other: &[u8]) -> bool
    ensures { result ≡ pointwise nat_eq own.now other.now }
{
    if own.len() != other.len() {
        return false;
    }
    let mut same = true;
    for i in 0..own.len() {
        same &= own[i] == other[i];
    }
    same
}

impl Office {
    /// The party with this token, compared whole: the first one, where more had it. The tokens of all parties are
    /// compared, also behind the one that is found.
    pub fn party_of(&self, token: &[u8]) -> Option<&Party>
        ensures { option_copied result ≡ find (has_token token.now) self.now.parties }
    {
        let mut found = None;
        for party in self.parties.as_slice() {
            let same = same_bytes(party.token.as_bytes(), token);
            if same && found.is_none() {
                found = Some(party);
            }
        }
        found
    }
}
