//! What is known of the cases without their contents: made of the tables once, and then kept with each change.

use case_rules::{Line, State};
use std::alloc::Global;
use std::collections::{BTreeMap, BTreeSet};
use vet_base::{Memory, Name, Shared};

/// The number of a case, and how far it is.
#[derive(Clone, Copy)]
pub struct Standing {
    pub number: i64,
    pub state: State,
}

/// The cases of a developer by reference.
type Own = BTreeMap<Name, Standing>;

/// All cases, by developer and reference.
#[derive(Drop)]
pub struct Index {
    cases: BTreeMap<Name, Own>,
    /// The numbers of the cases without an entry.
    queue: BTreeSet<i64>,
    /// How many of these each developer has.
    waiting: BTreeMap<Name, u64>,
    /// The references of the cases with an open appeal, by developer.
    open: BTreeMap<Name, BTreeSet<Name>>,
}

/// Puts a case among those of its developer, or what it is now in the place of what it was.
fn put(
    alloc: Global,
    cases: &mut BTreeMap<Name, Own>,
    names: (&Name, &Name),
    standing: Standing,
) -> Result<(), Memory> {
    let reference = names.1.copy()?;
    if let Some(own) = cases.get_mut(names.0) {
        own.insert(reference, standing)?;
        return Ok(());
    }
    let mut own = BTreeMap::new(alloc);
    own.insert(reference, standing)?;
    cases.insert(names.0.copy()?, own)?;
    Ok(())
}

/// Notes that a case of the developer waits for its first decision.
fn put_waiting(
    queue: &mut BTreeSet<i64>,
    waiting: &mut BTreeMap<Name, u64>,
    party: &Name,
    number: i64,
) -> Result<(), Memory> {
    queue.insert(number)?;
    let count = waiting.get(party).copied().unwrap_or(0);
    waiting.insert(party.copy()?, count.saturating_add(1))?;
    Ok(())
}

/// Notes that a case of the developer waits no more, where it did.
fn take_waiting(
    queue: &mut BTreeSet<i64>,
    waiting: &mut BTreeMap<Name, u64>,
    party: &Name,
    number: i64,
) {
    if queue.remove(&number) {
        if let Some(count) = waiting.get_mut(party) {
            *count = count.saturating_sub(1);
        }
    }
}

/// Notes that a case has an open appeal.
fn put_open(
    alloc: Global,
    open: &mut BTreeMap<Name, BTreeSet<Name>>,
    names: (&Name, &Name),
) -> Result<(), Memory> {
    let reference = names.1.copy()?;
    if let Some(own) = open.get_mut(names.0) {
        own.insert(reference)?;
        return Ok(());
    }
    let mut own = BTreeSet::new(alloc);
    own.insert(reference)?;
    open.insert(names.0.copy()?, own)?;
    Ok(())
}

/// Notes that a case has no open appeal. A developer without one is not named.
fn take_open(open: &mut BTreeMap<Name, BTreeSet<Name>>, names: (&Name, &Name)) {
    let is_last = match open.get_mut(names.0) {
        Some(own) => {
            own.remove(names.1);
            own.is_empty()
        }
        None => false,
    };
    if is_last {
        open.remove(names.0);
    }
}

fn line_of(party: &Name, reference: &Name, state: State) -> Result<Line, Memory> {
    let party = party.copy()?;
    let reference = reference.copy()?;
    Ok(Line {
        party,
        reference,
        state,
    })
}

/// Puts a line for each of these cases with an open appeal behind the others.
fn push_open(
    lines: &mut Vec<Line>,
    party: &Name,
    references: &BTreeSet<Name>,
) -> Result<(), Memory> {
    for reference in references {
        lines.push(line_of(party, reference, State::Appealed)?)?;
    }
    Ok(())
}

fn push_own(lines: &mut Vec<Line>, party: &Name, own: &Own) -> Result<(), Memory> {
    for (reference, standing) in own {
        lines.push(line_of(party, reference, standing.state)?)?;
    }
    Ok(())
}

impl Index {
    /// The index of no cases.
    pub fn new(alloc: Global) -> Index {
        Index {
            cases: BTreeMap::new(alloc),
            queue: BTreeSet::new(alloc),
            waiting: BTreeMap::new(alloc),
            open: BTreeMap::new(alloc),
        }
    }

    /// Where the case of this developer and reference stands, where there is one.
    pub fn standing(&self, party: &Name, reference: &Name) -> Option<Standing> {
        self.cases.get(party)?.get(reference).copied()
    }

    /// The numbers of the cases without an entry, the least first.
    pub fn queue(&self) -> &BTreeSet<i64> {
        &self.queue
    }

    /// How many cases of the developer have no entry.
    pub fn queued(&self, party: &Name) -> u64 {
        self.waiting.get(party).copied().unwrap_or(0)
    }

    /// The cases of the developer, by reference.
    pub fn lines_of(&self, alloc: Global, party: &Name) -> Result<Shared<Line>, Memory> {
        let mut lines = Vec::new(alloc);
        if let Some(own) = self.cases.get(party) {
            push_own(&mut lines, party, own)?;
        }
        Shared::from_vec(alloc, lines)
    }

    /// The cases with an open appeal, by developer and reference.
    pub fn open_lines(&self, alloc: Global) -> Result<Shared<Line>, Memory> {
        let mut lines = Vec::new(alloc);
        for (party, references) in &self.open {
            push_open(&mut lines, party, references)?;
        }
        Shared::from_vec(alloc, lines)
    }

    /// Notes a case, or what it is now. After want of memory nothing is to be asked of the index.
    pub fn note(
        &mut self,
        alloc: Global,
        names: (&Name, &Name),
        standing: Standing,
    ) -> Result<(), Memory> {
        put(alloc, &mut self.cases, names, standing)?;
        take_waiting(&mut self.queue, &mut self.waiting, names.0, standing.number);
        take_open(&mut self.open, names);
        match standing.state {
            State::Queued => put_waiting(
                &mut self.queue,
                &mut self.waiting,
                names.0,
                standing.number,
            ),
            State::Appealed => put_open(alloc, &mut self.open, names),
            State::Decided | State::Ruled => Ok(()),
        }
    }
}
