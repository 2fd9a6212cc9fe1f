//! What the engine does with an edit: first all that takes memory, beside the state; then the change, which takes none.
//! The way there: whose cells it can change (`changes`), what becomes of who stands at an address (`becoming`), which
//! cells can change (`moved_cells`), what is done to each (`cell_edits`), and places for what is sent (`places`).

ghost use Rattle.std.specs.Prelude.{◌≡◌, None, IfOk, OnOk, OnErr};
ghost use Rattle.net_conf.specs.Concerned.{ConcernsAlone};
ghost use Rattle.net_conf.specs.Edits.{refusal_of};
ghost use Rattle.reference_machine.specs.Machine.{with_sent, after_edit};
ghost use Rattle.cell_engine.specs.State.{network};
ghost use Rattle.cell_engine.specs.Changes.{changes_in};
ghost use Rattle.net_conf.specs.Scopes.{scope};
ghost use Rattle.cell_engine.specs.Editing.{with_origin, with_directions};
ghost use Rattle.cell_engine.specs.Deliveries.{KeepsSame};
ghost use Rattle.cell_engine.specs.CellEdits.{whole_changes};
ghost use Rattle.cell_engine.specs.Edits.{planned, made_in, IsPlanned, IsOfEdit, HasPlaces, refreshed_by};

mod becoming;
mod cell_edits;
mod changes;
mod clearing;
mod directions;
mod moved_cells;
mod places;
mod refreshed;

use crate::edits::cell_edits::{CellEdit, place_edits};
use crate::edits::clearing::clear_down;
use crate::edits::directions::directions_after;
use crate::edits::places::reserve_each;
use crate::edits::refreshed::refreshed_cells;
use crate::route_cell::Cell;
use crate::state::State;
use net_conf::{Conf, Edit, EditedConf, Scope};
use net_prefix::{Addr, Prefix};
use prefix_table::PrefixTable;
use route_select::Selector;
use seq::Seq;
use session_queue::Direction;
use shared_map::ChunkedSet;
use std::alloc::{AllocError, Global};
use std::marker::Model;
use std::sync::Arc;
use std::thread::Threads;

/// What an edit will do: the configuration that it makes, the directions for that, and what is done to cells, with what
/// each router sends for that.
#[derive(Drop)]
pub struct Edited<S: Selector> {
    parts: Box<Parts<S>>,
}

/// The parts of what an edit will do.
#[derive(Drop)]
struct Parts<S: Selector> {
    conf: Arc<Conf>,
    directions: ChunkedSet<Direction>,
    edits: Seq<CellEdit<S>>,
}

impl<S: Selector> Model for Edited<S> {
    ghost use Rattle.std.specs.Arc.{arc_value};
    ghost use Rattle.std.specs.Coded.{codes};
    ghost use Rattle.cell_engine.specs.Coding.{coded_edit};
    ghost use Rattle.cell_engine.specs.Edits.{Edited};

    ghost Value = { Edited };

    ghost coded = { Prim.hlevel (codes, coded_edit) };

    ghost view = { λ x. record {
      conf = arc_value x.parts.value.conf;
      directions = x.parts.value.directions;
      edits = x.parts.value.edits;
    } };
}

impl<S: Selector> Edited<S> {
    /// The cells that are decided anew, by router, then prefix. A virtual peer's is none of them: it decides nothing.
    pub fn refreshed(&self, alloc: Global) -> Result<Vec<(Addr, Prefix)>, AllocError>
        ensures { IfOk result (λ cells. cells.items ≡ refreshed_by self.now) }
    {
        refreshed_cells(alloc, &self.parts.conf, self.parts.edits.as_slice())
    }
}

/// Sees to it that the configuration may be shared, and that what an edit will do stands behind one pointer.
fn boxed<S: Selector + Drop>(
    alloc: Global,
    made: EditedConf,
    directions: ChunkedSet<Direction>,
    edits: Seq<CellEdit<S>>,
) -> Result<Edited<S>, AllocError>
    ensures { IfOk result (λ edited. edited ≡ record { conf = made.conf; directions = directions; edits = edits }) }
{
    let EditedConf { conf, concerned } = made;
    drop(concerned);
    let conf = match Arc::new(alloc, conf) {
        Ok(conf) => conf,
        Err(failed) => {
            drop((failed, directions, edits));
            return Err(AllocError);
        }
    };
    let parts = Parts {
        conf,
        directions,
        edits,
    };
    match Box::new(alloc, parts) {
        Ok(parts) => Ok(Edited { parts }),
        Err(failed) => {
            drop(failed);
            Err(AllocError)
        }
    }
}

impl<S: Selector + Send + Sync + Drop, T: PrefixTable<Cell<S>> + Drop> State<S, T> {
    /// What the edit will do, worked out in threads where that is much. The network stays as it is, also at an error,
    /// which is want of memory; of the state no more changes than that a router gets an empty cell for a prefix that it
    /// is to originate.
    pub fn edited<R: Threads + Sync>(
        &mut self,
        rt: &R,
        edit: &Edit,
    ) -> Result<Edited<S>, AllocError>
        requires { refusal_of self.old.conf edit.now ≡ None }
        ensures same { KeepsSame self.old self.new }
        ensures network { network self.new ≡ network self.old }
        ensures alone { OnOk result (self.new.tables ≡ with_origin edit.now self.old.tables) }
        ensures planned { IfOk result (λ edited. IsPlanned self.new edit.now edited) }
    {
        self.make_origin(edit)?;
        self.plan(rt, edit)
    }

    /// What the edit will do, where a router has a cell for what it is to originate.
    fn plan<R: Threads + Sync>(&self, rt: &R, edit: &Edit) -> Result<Edited<S>, AllocError>
        requires { refusal_of self.now.conf edit.now ≡ None }
        ensures { IfOk result (λ edited. made_in self.now.tables edited ≡ planned self.now edit.now) }
    {
        self.facts();
        let made = self.conf().made(rt, self.alloc, edit)?;
        let Ok((directions, edits)) = self.moves_by(rt, edit, &made) else {
            drop(made);
            return Err(AllocError);
        };
        boxed(self.alloc, made, directions, edits)
    }

    /// The directions once the edit is made, and what is done to the cells that can change.
    fn moves_by<R: Threads + Sync>(
        &self,
        rt: &R,
        edit: &Edit,
        made: &EditedConf,
    ) -> Result<(ChunkedSet<Direction>, Seq<CellEdit<S>>), AllocError>
        requires { ConcernsAlone self.now.conf made.now.conf made.now.concerned.keys }
        ensures directions { IfOk result (λ moves. moves.0 ≡ with_directions edit.now self.now.directions) }
        ensures edits { IfOk result (λ moves.
            whole_changes self.now.tables moves.1 ≡ changes_in (scope edit.now) self.now.conf made.now.conf
            self.now.tables) }
    {
        let edits = self.edits_by(rt, edit.scope(), made)?;
        match directions_after(self.alloc, &self.directions, edit) {
            Ok(directions) => Ok((directions, edits)),
            Err(_) => {
                drop(edits);
                Err(AllocError)
            }
        }
    }

    /// The cells that can change, with what is done to each when the configuration becomes the one that was made.
    fn edits_by<R: Threads + Sync>(
        &self,
        rt: &R,
        scope: Scope,
        made: &EditedConf,
    ) -> Result<Seq<CellEdit<S>>, AllocError>
        requires { ConcernsAlone self.now.conf made.now.conf made.now.concerned.keys }
        ensures { IfOk result (λ edits.
            whole_changes self.now.tables edits ≡ changes_in scope self.now.conf made.now.conf self.now.tables) }
    {
        match scope {
            Scope::Network => self.network_changes(rt, &made.conf, &made.concerned),
            Scope::Site(router) => self.site_changes(rt, &made.conf, router),
            Scope::Route(router, prefix) => self.route_changes(&made.conf, router, prefix),
        }
    }
}

impl<S: Selector + Drop, T: PrefixTable<Cell<S>> + Drop> State<S, T> {
    /// Sees to it that a router that the edit makes originate a prefix has a cell of it. It makes no other cell, and at
    /// an error none.
    fn make_origin(&mut self, edit: &Edit) -> Result<(), AllocError>
        ensures same { KeepsSame self.old self.new }
        ensures there { OnOk result (with_origin edit.now self.new.tables ≡ self.new.tables) }
        ensures alone { OnOk result (self.new.tables ≡ with_origin edit.now self.old.tables) }
        ensures err { OnErr result (self.new.tables ≡ self.old.tables) }
    {
        match edit {
            Edit::Origin(router, prefix) => self.make_cell(*router, *prefix),
            _ => Ok(()),
        }
    }

    /// Sees to it that each message that will be sent may be, and has a place. The network stays as it is, also at an
    /// error, which is want of memory.
    pub fn make_room_for(&mut self, edited: &Edited<S>) -> Result<(), AllocError>
        ensures same { KeepsSame self.old self.new }
        ensures tables { self.new.tables ≡ self.old.tables }
        ensures network { network self.new ≡ network self.old }
        ensures room { OnOk result (HasPlaces self.new edited.now) }
    {
        reserve_each(self.alloc, &mut self.queues, edited.parts.edits.as_slice())
    }

    /// Does what the edit will do: this is the machine's own next state (RFC 4271, 6, 8 and 9). What was on its way
    /// over sessions that are not up is lost. It takes no memory.
    pub fn reconfigure(&mut self, edited: Edited<S>)
        requires of { IsOfEdit self.old edited }
        requires room { HasPlaces self.old edited }
        ensures { (edit : Edit) → IsPlanned self.old edit edited →
            network self.new ≡ with_sent (network self.old) (after_edit (network self.old) edit) }
    {
        self.conf.facts();
        let Parts {
            conf,
            directions,
            edits,
        } = Box::into_inner(edited.parts);
        conf.facts();
        clear_down(&mut self.queues, &conf);
        self.conf.set(conf);
        self.directions = directions;
        place_edits(&mut self.tables, &mut self.queues, edits.into_vec());
    }
}
