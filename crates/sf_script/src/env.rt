ghost use Rattle.std.specs.Prelude.{◌≡◌, Ok, OnOk, OnErr, option_copied, MatchResult};
ghost use Rattle.sf_script.specs.Headings.{ring_entered, limited, noted};
ghost use Rattle.sf_script.specs.Names.{no_names, named, with_name};
ghost use Rattle.sf_script.specs.declared.heads.Heads.TheVariants.{Opened};

use crate::headings;
use crate::heads::{Heads, Setting};
use crate::named::Named;
use indexmap::IndexMap;
use sf_field::OutOfMemory;
use sf_matrix::{Copied, Name};
use sf_text::Ring;
use std::alloc::Global;
use std::marker::Model;

/// The greatest sum of the exponents of a lead, where no limit is given.
const DEFAULT_LIMIT: u32 = 40;

/// The names of one client, in the order of their definition.
#[derive(Drop)]
struct Names {
    named: IndexMap<Name, Named>,
}

impl Model for Names {
    ghost use Rattle.std.specs.Prelude.{List, ℕ};
    ghost use Rattle.sf_script.specs.declared.named.Named.{Named};

    ghost Value = { List (List ℕ × Named) };

    ghost view = { λ n. n.named.entries };
}

/// The headings that were accepted, and what the names of each client stand for.
#[derive(Drop)]
pub struct Env {
    heads: Heads,
    clients: IndexMap<Name, Names>,
}

impl Model for Env {
    ghost use Rattle.sf_script.specs.Names.{Env};

    ghost Value = { Env };

    ghost view = { λ e. record { heads = e.heads; clients = e.clients.entries } };
}

impl Env {
    /// No heading and no name.
    pub fn new(alloc: Global) -> Env
        ensures start { result ≡ no_names }
    {
        Env {
            heads: Heads::Unopened,
            clients: IndexMap::new(alloc),
        }
    }

    /// The headings that were accepted.
    pub fn heads(&self) -> &Heads
        ensures heads { result.now ≡ self.now.heads }
    {
        &self.heads
    }

    /// What a client's name stands for.
    pub fn find(&self, client: &Name, name: &Name) -> Option<&Named>
        ensures found { option_copied result ≡ named client.now self.now name.now }
    {
        self.clients.get(client)?.named.get(name)
    }

    /// Lets a client's name stand for this, and changes no other name.
    pub fn put(
        &mut self,
        alloc: Global,
        client: &Name,
        name: Name,
        what: Named,
    ) -> Result<(), OutOfMemory>
        ensures put { OnOk result (self.new ≡ with_name client.now name what self.old) }
        ensures kept { OnErr result (self.new ≡ self.old) }
    {
        if let Some(place) = self.clients.get_index_of(client)
            && let Some(names) = self.clients.get_index_mut(place)
        {
            names.named.insert(name, what)?;
            return Ok(());
        }
        let mut named = IndexMap::new(alloc);
        named.insert(name, what)?;
        self.clients.insert(client.copy(alloc)?, Names { named })?;
        Ok(())
    }

    /// Enters the version.
    pub fn open(&mut self)
        ensures opened { self.new ≡ record self.old { heads = Opened } }
    {
        self.heads = Heads::Opened;
    }

    /// Enters the ring, with the limit 40.
    pub fn enter(&mut self, ring: Ring)
        ensures entered { self.new ≡ record self.old { heads = ring_entered ring } }
    {
        self.heads = Heads::Within(Setting {
            ring,
            limit: DEFAULT_LIMIT,
            limited: false,
            noted: false,
        });
    }

    /// Enters the limit, where the ring is given; else nothing changes.
    pub fn set_limit(&mut self, limit: u32)
        ensures limited { self.new ≡ record self.old { heads = limited limit self.old.heads } }
    {
        headings::set_limit(&mut self.heads, limit);
    }

    /// Notes a line with a reply that isn't a `limit` line, where the ring is given; else nothing changes.
    pub fn note(&mut self)
        ensures noted { self.new ≡ record self.old { heads = noted self.old.heads } }
    {
        headings::note(&mut self.heads);
    }
}
