//! The rows of a flow.
ghost use Rattle.std.specs.Prelude.{◌≡◌, IfOk, OnOk, cond, filter, length};
ghost use Rattle.std.specs.BTreeSet.{insert_key};
ghost use Rattle.fact_rows.specs.Order.{row_cmp};
ghost use Rattle.vet_base.specs.Apart.{Apart};
ghost use Rattle.app_flow.specs.Defect.{SameRows};
ghost use Rattle.app_flow.specs.InOrder.{in_order, tells};

use fact_rows::{Row, rows_stand_in_order};
use flow_analyses::Analysis;
use hashed_rows::HashedRows;
use std::alloc::Global;
use std::collections::BTreeSet;
use std::marker::Model;
use vet_base::{Memory, Seq};

/// The rows of a flow, kept as they were found. Contracts see them in ascending order, and so does who
/// takes them: they are sorted only then.
#[derive(Drop)]
pub struct FlowRows {
    rows: HashedRows,
}

impl Model for FlowRows {
    ghost use Rattle.std.specs.Prelude.{List};
    ghost use Rattle.fact_rows.specs.declared.row.Row.{Row};
    ghost use Rattle.vet_base.specs.Apart.{Apart};
    ghost use Rattle.app_flow.specs.InOrder.{in_order};

    ghost Value = { List Row };

    ghost view = { λ flow. in_order flow.rows };

    ghost invariant = { λ flow. Apart flow.rows };
}

/// All rows that are derivable in an app by an analysis.
#[derive(Drop)]
pub struct FlowTable {
    pub analysis: Analysis,
    pub rows: FlowRows,
}

/// Whether the row tells something of an app by itself.
fn is_telling(row: &Row) -> bool
    ensures { result ≡ tells row.now }
{
    match row {
        Row::Arrive(_, _, _) | Row::Unknown(_, _) => true,
        _ => false,
    }
}

/// Adds the row, where it tells something of an app by itself.
fn keep(set: &mut BTreeSet<Row>, row: &Row) -> Result<(), Memory>
    ensures { OnOk result (set.new.keys ≡ cond (tells row.now) (insert_key row_cmp set.old.keys row.now) set.old.keys) }
{
    if is_telling(row) {
        set.insert(*row)?;
    }
    Ok(())
}

/// Those of the rows that tell something of an app by themselves.
#[tactic(auto, unfolding(crate::specs::InOrder::in_order), using(crate::proofs::InOrder::one_kept, crate::proofs::InOrder::all_kept))]
fn telling_of(alloc: Global, rows: &[Row]) -> Result<BTreeSet<Row>, Memory>
    ensures { IfOk result (λ set. set.keys ≡ in_order (filter tells rows.now)) }
{
    let mut set = BTreeSet::new(alloc);
    for row in rows {
        keep(&mut set, row)?;
    }
    Ok(set)
}

impl FlowRows {
    /// Rows of which none stands twice.
    pub(crate) fn of(rows: HashedRows) -> FlowRows
        requires { Apart rows }
        ensures { result ≡ in_order rows }
    {
        FlowRows { rows }
    }

    /// How many there are.
    #[tactic(auto, using(crate::proofs::InOrder::as_many))]
    pub fn len(&self) -> usize
        ensures { result ≡ length self.now }
    {
        rows_stand_in_order();
        self.rows.len()
    }

    /// The rows in the order in which they were found, each once, as the solver stored them.
    #[tactic(auto, using(crate::proofs::InOrder::same_in_order))]
    pub fn found(&self) -> &HashedRows
        ensures same { SameRows result.now self.now }
        ensures apart { Apart result.now }
    {
        rows_stand_in_order();
        &self.rows
    }

    /// Those that tell something of the app by themselves, in ascending order: that a value may come to a sink,
    /// and that a run may come to what is not modelled. Nothing else goes wrong but that memory is wanting.
    #[tactic(auto, using(crate::proofs::InOrder::telling_in_order))]
    pub fn telling(&self, alloc: Global) -> Result<Vec<Row>, Memory>
        ensures { IfOk result (λ rows. rows.items ≡ filter tells self.now) }
    {
        rows_stand_in_order();
        let set = telling_of(alloc, self.rows.as_slice())?;
        let rows: Vec<Row> = set.into_iter().collect(alloc)?;
        Ok(rows)
    }

    /// All rows, in ascending order. They are copied for that, so memory may be wanting, and then they are gone.
    #[tactic(auto, using(crate::proofs::InOrder::sorted_in_order))]
    pub fn into_ascending(self, alloc: Global) -> Result<Seq<Row>, Memory>
        ensures { IfOk result (λ rows. rows ≡ self) }
    {
        rows_stand_in_order();
        let FlowRows { rows } = self;
        let table = rows.into_table(alloc)?;
        Ok(Seq::from_vec(table))
    }
}
