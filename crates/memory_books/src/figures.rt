//! Two figures that a store in memory updates with each record: the number of meters and the latest
//! timestamp. A query for a figure need not read all records.
ghost use Rattle.std.specs.Prelude.{◌<◌, ◌∷◌, List, [], length};
ghost use Rattle.office_events.specs.declared.facts.Fact.{Fact};
ghost use Rattle.memory_books.specs.Figures.{AreFigures, CountOn, most_facts};

use crate::kinds::{moment, openings};
use office_events::Fact;

/// The number of installed meters, and the greatest timestamp of all records.
#[derive(Clone, Copy)]
pub(crate) struct Figures {
    pub(crate) installations: usize,
    pub(crate) latest: u64,
}

impl Figures {
    /// Creates the figures of a store without records: 0 meters, and 0 as the greatest timestamp.
    pub(crate) fn new() -> Figures
        ensures { AreFigures result [] }
    {
        Figures {
            installations: 0,
            latest: 0,
        }
    }

    fn after(&self, fact: &Fact) -> Figures
        ensures { (known : List Fact) → AreFigures self.now known → length known < most_facts
            → AreFigures result (fact.now ∷ known) }
    {
        Figures {
            installations: self.installations.saturating_add(openings(fact)),
            latest: moment(fact).max(self.latest),
        }
    }

    /// Returns the number of meters and the greatest timestamp after the records `facts` are added.
    pub(crate) fn after_all(&self, facts: &[Fact]) -> Figures
        ensures { CountOn facts.now self.now result }
    {
        let mut figures = *self;
        for fact in facts {
            figures = figures.after(fact);
        }
        figures
    }
}
