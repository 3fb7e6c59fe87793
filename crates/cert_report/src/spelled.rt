ghost use Rattle.std.specs.Prelude.{◌≡◌, IfOk};
ghost use Rattle.cert_rows.specs.Spelling.{row_bytes};

use cert_rows::put_row;
use fact_rows::Row;
use std::alloc::Global;
use vet_base::Memory;

/// The bytes of any row, one that no certificate has among them.
pub fn spelled(alloc: Global, row: &Row) -> Result<Vec<u8>, Memory>
    ensures { IfOk result (λ v. v.items ≡ row_bytes row.now) }
{
    let mut bytes = Vec::new(alloc);
    put_row(&mut bytes, row)?;
    Ok(bytes)
}
