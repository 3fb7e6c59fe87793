use crate::judge::FirstByte;
use desk_serving::Desk;
use std::alloc::Global;
use store_office::{Office, Party, Role};
use vet_base::{Memory, Name, Shared};

/// A party whose token is its name and `-token`.
fn party(alloc: Global, name: &str, role: Role) -> Result<Party, Memory> {
    let token = format!(in alloc; "{name}-token")?;
    Ok(Party {
        name: Name::from_bytes(alloc, name.as_bytes())?,
        role,
        token: Name::from_bytes(alloc, token.as_bytes())?,
    })
}

/// The developers `ann` and `bob`, and the reviewers `rex` and `sue`.
fn parties(alloc: Global) -> Result<Shared<Party>, Memory> {
    let mut parties = Vec::new(alloc);
    parties.push(party(alloc, "ann", Role::Developer)?)?;
    parties.push(party(alloc, "bob", Role::Developer)?)?;
    parties.push(party(alloc, "rex", Role::Reviewer)?)?;
    parties.push(party(alloc, "sue", Role::Reviewer)?)?;
    Shared::from_vec(alloc, parties)
}

/// The desk of all cases, under the edition of this number.
pub fn desk(alloc: Global, edition: u8) -> Result<Desk<FirstByte>, Memory> {
    Ok(Desk {
        office: Office {
            port: 8080,
            workers: 1,
            appeal_days: 30,
            parties: parties(alloc)?,
        },
        judge: FirstByte::new(edition),
    })
}
