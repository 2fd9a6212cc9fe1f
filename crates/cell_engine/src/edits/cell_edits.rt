//! What an edit does to a cell: planned beside the tables, then done where the cell stands.

ghost use Rattle.std.specs.Prelude.{◌≡◌, ◌≤◌, ◌+◌, ◌++◌, length, true, is_some};
ghost use Rattle.session_queue.specs.Waiting.{queue_at, spare_at};
ghost use Rattle.cell_engine.specs.RouterTables.{value_at, with_value};
ghost use Rattle.cell_engine.specs.Recosting.{recosted};
ghost use Rattle.cell_engine.specs.Sending.{told, told_from};
ghost use Rattle.cell_engine.specs.Editing.{told_by_all};
ghost use Rattle.cell_engine.specs.Admitting.{AreAdmitted, AreAllAdmitted};
ghost use Rattle.cell_engine.specs.CellEdits.{edit_sends, edits_send, AreEditsThere, with_edit, with_edits};

use crate::route_cell::{Cell, Outcome};
use crate::router_tables::RouterTables;
use crate::sending::push_all;
use net_prefix::{Addr, Prefix};
use prefix_table::{Adjust, PrefixTable};
use route_select::Selector;
use session_queue::{Message, Queues};
use std::marker::Model;

/// What an edit does to a cell: another takes its place, with what its router sends for that; or where there is no
/// other, its one route has this cost.
#[derive(Drop)]
pub(crate) struct CellEdit<S: Selector> {
    pub(crate) router: Addr,
    pub(crate) prefix: Prefix,
    pub(crate) remade: Option<Outcome<S>>,
    pub(crate) cost: u32,
}

impl<S: Selector> Model for CellEdit<S> {
    ghost use Rattle.cell_engine.specs.CellEdits as edits;
    ghost use Rattle.cell_engine.specs.Coding.{coded_edit};

    ghost Value = { edits.CellEdit };

    ghost coded = { coded_edit };

    ghost view = { λ x. record { router = x.router; prefix = x.prefix; remade = x.remade; cost = x.cost } };
}

impl<S: Selector> CellEdit<S> {
    /// What the router sends for it.
    pub fn sends(&self) -> &[(Addr, Message)]
        ensures { result.now ≡ edit_sends self.now }
    {
        match &self.remade {
            Some(outcome) => &outcome.sends,
            None => &[],
        }
    }
}

/// The cost of a cell's one route.
#[derive(Drop)]
struct AtCost(u32);

impl<S: Selector> Adjust<Cell<S>> for AtCost {
    ghost after = { λ x h. recosted x.0 h };

    fn adjust(&self, cell: &mut Cell<S>) {
        cell.set_cost(self.0);
    }
}

/// Puts the outcome's cell in the place of the one that is there, and sends what its router sends for that. It takes no
/// memory.
fn place_outcome<S: Selector + Drop, T: PrefixTable<Cell<S>> + Drop>(
    tables: &mut RouterTables<Cell<S>, T>,
    queues: &mut Queues,
    router: Addr,
    prefix: Prefix,
    outcome: Outcome<S>,
)
    requires there { is_some (value_at router prefix tables.old) ≡ true }
    requires room { (t : Addr) → length (told t outcome.sends) ≤ spare_at queues.old router t }
    requires admitted { AreAdmitted queues.old.admitted outcome.sends }
    ensures tables { tables.new ≡ with_value router prefix outcome.cell tables.old }
    ensures queue { (f t : Addr) →
        queue_at queues.new f t ≡ queue_at queues.old f t ++ told_from router outcome.sends f t }
    ensures spare { (f t : Addr) →
        spare_at queues.new f t + length (told_from router outcome.sends f t) ≡ spare_at queues.old f t }
    ensures admitted { queues.new.admitted ≡ queues.old.admitted }
{
    let Outcome { cell, sends } = outcome;
    match tables.replace(router, prefix, cell) {
        Ok(_) => {}
        Err(_) => unreachable!(),
    }
    push_all(queues, router, sends);
}

/// Does what is planned of one cell. It takes no memory.
fn place_edit<S: Selector + Drop, T: PrefixTable<Cell<S>> + Drop>(
    tables: &mut RouterTables<Cell<S>, T>,
    queues: &mut Queues,
    edit: CellEdit<S>,
)
    requires there { is_some (value_at edit.router edit.prefix tables.old) ≡ true }
    requires room { (t : Addr) → length (told t (edit_sends edit)) ≤ spare_at queues.old edit.router t }
    requires admitted { AreAdmitted queues.old.admitted (edit_sends edit) }
    ensures tables { tables.new ≡ with_edit edit tables.old }
    ensures queue { (f t : Addr) →
        queue_at queues.new f t ≡ queue_at queues.old f t ++ told_from edit.router (edit_sends edit) f t }
    ensures spare { (f t : Addr) →
        spare_at queues.new f t + length (told_from edit.router (edit_sends edit) f t) ≡ spare_at queues.old f t }
    ensures admitted { queues.new.admitted ≡ queues.old.admitted }
{
    let CellEdit {
        router,
        prefix,
        remade,
        cost,
    } = edit;
    match remade {
        Some(outcome) => place_outcome(tables, queues, router, prefix, outcome),
        None => {
            let _ = tables.adjust(router, prefix, &AtCost(cost));
        }
    }
}

/// Does what is planned of each of these cells, one after another. It takes no memory.
pub(crate) fn place_edits<S: Selector + Drop, T: PrefixTable<Cell<S>> + Drop>(
    tables: &mut RouterTables<Cell<S>, T>,
    queues: &mut Queues,
    edits: Vec<CellEdit<S>>,
)
    requires there { AreEditsThere edits.items tables.old }
    requires room { (f t : Addr) → length (told_by_all (edits_send edits.items) f t) ≤ spare_at queues.old f t }
    requires admitted { AreAllAdmitted queues.old.admitted edits.items }
    ensures tables { tables.new ≡ with_edits edits.items tables.old }
    ensures queue { (f t : Addr) →
        queue_at queues.new f t ≡ queue_at queues.old f t ++ told_by_all (edits_send edits.items) f t }
{
    for edit in edits {
        place_edit(tables, queues, edit);
    }
}
