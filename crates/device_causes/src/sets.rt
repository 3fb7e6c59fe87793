//! Sets of names.

ghost use Rattle.std.specs.Prelude.{◌≡◌, IfOk};
ghost use Rattle.device_causes.specs.Sets.{is_among, is_listed, IsSetOf, IsListOf};

use link_listing::Triple;
use outcomes::set_of;
use std::alloc::Global;
use std::collections::BTreeSet;
use std::marker::Model;
use vet_base::{Memory, Name};

/// Names, each once. Contracts see them in their order.
#[derive(Drop)]
pub struct NameSet {
    names: BTreeSet<Name>,
}

impl Model for NameSet {
    ghost use Rattle.std.specs.Prelude.{List};
    ghost use Rattle.app_machine.specs.Names.{Name};

    ghost Value = { List Name };

    ghost view = { λ x. x.names.keys };
}

impl NameSet {
    /// The set of these names. Want of memory is the only error.
    #[tactic(auto, using(crate::proofs::NameSets::names_same))]
    pub fn new(alloc: Global, names: Vec<Name>) -> Result<Self, Memory>
        ensures { IfOk result (λ s. IsSetOf s names.items) }
    {
        let names = set_of(alloc, names)?;
        Ok(NameSet { names })
    }

    /// Whether the name is one of them.
    #[tactic(auto, using(crate::proofs::NameSets::contains_name))]
    pub fn has(&self, name: &Name) -> bool
        ensures { result ≡ is_among self.now name.now }
    {
        self.names.contains(name)
    }
}

/// Names of members, each once. Contracts see them in their order.
#[derive(Drop)]
pub struct TripleSet {
    triples: BTreeSet<Triple>,
}

impl Model for TripleSet {
    ghost use Rattle.std.specs.Prelude.{List};
    ghost use Rattle.link_listing.specs.Texts.{Triple};

    ghost Value = { List Triple };

    ghost view = { λ x. x.triples.keys };
}

impl TripleSet {
    /// The set of these. Want of memory is the only error.
    #[tactic(auto, using(crate::proofs::NameSets::triples_same))]
    pub fn new(alloc: Global, triples: Vec<Triple>) -> Result<Self, Memory>
        ensures { IfOk result (λ s. IsListOf s triples.items) }
    {
        let triples = set_of(alloc, triples)?;
        Ok(TripleSet { triples })
    }

    /// Whether it is one of them.
    #[tactic(auto, using(crate::proofs::NameSets::contains_triple))]
    pub fn has(&self, triple: &Triple) -> bool
        ensures { result ≡ is_listed self.now triple.now }
    {
        self.triples.contains(triple)
    }
}
