//! Jobs that are taken at one time, and their outcomes.

ghost use Rattle.std.specs.Prelude.{◌≡◌, ◌==◌, ℕ, length};
ghost use Rattle.room.specs.Jobs.{AreTakenTogether};

use crate::room::job::{Done, Job};
use route_select::Chosen;
use std::marker::Model;

/// Jobs that were taken at one time: those of one receiver hold one site.
#[derive(Drop)]
pub struct Jobs<S: Chosen> {
    jobs: Vec<Job<S>>,
}

impl<S: Chosen> Model for Jobs<S> {
    ghost use Rattle.std.specs.Prelude.{List};
    ghost use Rattle.std.specs.Coded.{codes};
    ghost use Rattle.cell_engine.specs.CellCoding.{coded_cell};
    ghost use Rattle.room.specs.Jobs.{Job, AreTakenTogether};

    ghost Value = { List Job };

    ghost coded = { Prim.hlevel (codes, coded_cell) };

    ghost view = { λ j. j.jobs.items };

    ghost invariant = { λ j. AreTakenTogether j.jobs.items };
}

impl<S: Chosen> Jobs<S> {
    pub(super) fn of(jobs: Vec<Job<S>>) -> Self
        requires { AreTakenTogether jobs.items }
        ensures { result ≡ jobs.items }
    {
        Jobs { jobs }
    }

    /// Whether there is none.
    pub fn is_empty(&self) -> bool
        ensures { result ≡ (length self.now == 0) }
    {
        self.jobs.is_empty()
    }

    /// How many there are.
    pub fn len(&self) -> usize
        ensures { result ≡ length self.now }
    {
        self.jobs.len()
    }

    /// The jobs, one by one.
    pub fn into_vec(self) -> Vec<Job<S>>
        ensures jobs { result.items ≡ self }
        ensures together { AreTakenTogether result.items }
    {
        self.jobs
    }
}

/// Outcomes of jobs that were taken at one time.
#[derive(Drop)]
pub struct Outcomes<S: Chosen> {
    outcomes: Vec<Done<S>>,
}

impl<S: Chosen> Model for Outcomes<S> {
    ghost use Rattle.std.specs.Prelude.{List};
    ghost use Rattle.std.specs.Coded.{codes};
    ghost use Rattle.cell_engine.specs.CellCoding.{coded_cell};
    ghost use Rattle.room.specs.Jobs.{Job, AreTakenTogether};

    ghost Value = { List Job };

    ghost coded = { Prim.hlevel (codes, coded_cell) };

    ghost view = { λ o. o.outcomes.items };

    ghost invariant = { λ o. AreTakenTogether o.outcomes.items };
}

impl<S: Chosen> Outcomes<S> {
    pub fn of(outcomes: Vec<Done<S>>) -> Self
        requires { AreTakenTogether outcomes.items }
        ensures { result ≡ outcomes.items }
    {
        Outcomes { outcomes }
    }

    pub fn as_slice(&self) -> &[Done<S>]
        ensures { result.now ≡ self.now }
    {
        &self.outcomes
    }

    /// The outcomes, one by one.
    pub(super) fn into_vec(self) -> Vec<Done<S>>
        ensures outcomes { result.items ≡ self }
        ensures together { AreTakenTogether result.items }
    {
        self.outcomes
    }
}
