ghost use Rattle.std.specs.Prelude.{◌≡◌, ℕ, List};
ghost use Rattle.script_text.specs.Views.{shown_statement};
ghost use Rattle.script_run.specs.Walks.{Known, Settled, Rest};
ghost use Rattle.script_run.specs.ScriptWalks.{walk};
ghost use Rattle.script_run.specs.RunPlaces.{WaitsBelow, place_walk};
ghost use Rattle.script_run.specs.Weights.{place_weight, weight};
ghost use Rattle.script_run.specs.OneStep.{BeginsAt};

use crate::place::Place;
use script_text::{Prefetch, Statement, a_statement_shows_its_parts, arms_show_each};
use std::collections::VecDeque;

/// Lines that are still to be done, one after another.
#[derive(Drop)]
pub enum Todo {
    /// Prefetch lines.
    Fetches { list: VecDeque<Prefetch> },
    /// What is left of a list of statements.
    Statements { list: VecDeque<Statement> },
}

impl Todo {
    /// Takes out the first, and gives the place before it.
    pub(crate) fn begin(&mut self) -> Option<Place>
        ensures { BeginsAt self.old result self.new }
    {
        match self {
            Todo::Fetches { list } => match list.pop_front() {
                Some(fetch) => Some(Place::Wanting { fetch }),
                None => None,
            },
            Todo::Statements { list } => match list.pop_front() {
                Some(statement) => Some(before(statement)),
                None => None,
            },
        }
    }
}

/// The place before a statement.
fn before(statement: Statement) -> Place
    ensures walk { (rest : Rest) (known : Known) (more : List Settled)
        → walk (shown_statement statement) rest known more ≡ place_walk result rest known more }
    ensures weight { place_weight result ≡ weight (shown_statement statement) }
    ensures waits { (started : ℕ) → WaitsBelow started result }
{
    // Proof: arms that were taken out of their list are walked through as the list is.
    arms_show_each();
    a_statement_shows_its_parts();
    match statement {
        Statement::Do { line, what } => Place::Doing { line, what },
        Statement::If { arms, other } => Place::Testing {
            arms: VecDeque::from(arms.into_vec()),
            other,
        },
    }
}
