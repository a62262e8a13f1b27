ghost use Rattle.std.specs.Prelude.{◌≡◌, ◌⊎◌, ◌≤◌, ℕ, List, [], length, IfOk, OnOk, OnErr, IsTrue, Ok, Err, MatchResult};
ghost use Rattle.sf_matrix.specs.Tables.{matrices_of};
ghost use Rattle.sf_text.specs.ReadTexts.{LONGEST_TEXT};
ghost use Rattle.sf_script.specs.Grammar.{IsWritten};
ghost use Rattle.sf_script.specs.Headings.{noted};
ghost use Rattle.sf_script.specs.Names.{with_name};
ghost use Rattle.sf_script.specs.Refusals.{checked};
ghost use Rattle.sf_script.specs.SmallTerms.{HasSmallTerms};
ghost use Rattle.sf_script.specs.declared.heads.Heads.{Heads};
ghost use Rattle.sf_session.specs.Cuts.{CutStep, IsCut};
ghost use Rattle.sf_session.specs.Outcomes.{outcome_text, state_after};
ghost use Rattle.sf_session.specs.Replies.{Carried, Comes, Executed, Step};
ghost use Rattle.sf_session.specs.Settling.{Finds, HasLowSource, MayCome};
ghost use Rattle.sf_session.specs.Sound.{IsSound};
ghost use Rattle.sf_session.specs.SoundChecks.{IsSoundCheck};
ghost use Rattle.sf_session.specs.State.{begun, start, variables_of};
ghost use Rattle.sf_session.specs.declared.outcome.Outcome.TheVariants as outs;

use crate::outcome::Outcome;
use crate::outcomes::{has_list, outcome_of};
use sf_field::OutOfMemory;
use sf_matrix::{BaseFault, Name};
use sf_pairs::Strategy;
use sf_reply::{Reply, fault_text, reply_text};
use sf_resolve::Shelf;
use sf_script::{Checked, Command, Env, Heads, Line, LineFault, Named, check_line, read_line};
use sf_store::Store;
use sf_text::ReadText;
use std::alloc::Global;
use std::marker::Model;

/// The greatest sum of the exponents of a lead, where no limit is given.
const DEFAULT_LIMIT: u32 = 40;

/// What the earlier lines of a script have settled. It answers the next line.
#[derive(Drop)]
pub struct Session {
    alloc: Global,
    env: Env,
    shelf: Shelf,
    store: Store,
}

impl Model for Session {
    ghost use Rattle.std.specs.Prelude.{◌≡◌};
    ghost use Rattle.sf_matrix.specs.Tables.{matrices_of};
    ghost use Rattle.sf_object.specs.Shelves.{GrewOver};
    ghost use Rattle.sf_session.specs.Sound.{IsSound, HasLowNames};
    ghost use Rattle.sf_session.specs.State.{State, LooksOnceNoted, limit_of};

    ghost Value = { State };

    ghost view = { λ s. record { env = s.env; looked = matrices_of s.store.entries } };

    ghost invariant = { λ s. IsSound s.env × HasLowNames s.env.clients × (s.store.limit ≡ limit_of s.env.heads)
        × LooksOnceNoted s.env.heads (matrices_of s.store.entries) × GrewOver s.shelf s.store };
}

impl Session {
    /// A session before the first line, which owns the strategy.
    pub fn new(alloc: Global, strategy: Box<dyn Strategy>) -> Session
        ensures { result ≡ start }
    {
        Session {
            alloc,
            env: Env::new(alloc),
            shelf: Shelf::new(alloc),
            store: Store::new(alloc, DEFAULT_LIMIT, strategy),
        }
    }

    /// The reply to a line with its LF, or nothing where the line has none.
    pub fn line(&mut self, text: &[u8]) -> Result<Vec<u8>, OutOfMemory>
        requires { length text.now ≤ LONGEST_TEXT }
        ensures reply { IfOk result (λ reply. Step self.old text.now reply.items self.new) }
        ensures cut { OnErr result (CutStep self.old text.now self.new) }
    {
        match read_line(self.alloc, text) {
            Ok(None) => Ok(Vec::new(self.alloc)),
            Ok(Some(line)) => self.carry_out(line),
            Err(ReadText::Syntax { col }) => self.refuse(LineFault::Syntax { col }),
            Err(ReadText::Memory) => Err(OutOfMemory),
        }
    }

    /// Carries a line of the grammar out, or refuses it.
    fn carry_out(&mut self, line: Line) -> Result<Vec<u8>, OutOfMemory>
        requires written { IsWritten line.command }
        ensures reply { IfOk result (λ reply. Carried line.client line.command self.old reply.items self.new) }
        ensures cut { OnErr result ((self.new ≡ self.old)
            ⊎ MatchResult (checked self.old.env line.client line.command) (λ c. IsCut c self.old self.new) (λ fault. ⊥)) }
    {
        let Line { client, command } = line;
        let gives_limit = matches!(command, Command::Limit { .. });
        match check_line(self.alloc, &self.env, &client, command)? {
            Ok(checked) => self.execute(client, checked),
            Err(fault) if gives_limit => self.settle(client, Outcome::Bars(fault)),
            Err(fault) => self.settle(client, Outcome::Refuses(fault)),
        }
    }

    /// Carries out what no test refused.
    fn execute(&mut self, client: Name, checked: Checked) -> Result<Vec<u8>, OutOfMemory>
        requires sound { IsSoundCheck self.old.env checked }
        requires small { HasSmallTerms checked }
        requires low { HasLowSource checked }
        ensures reply { IfOk result (λ reply. Executed client checked self.old reply.items self.new) }
        ensures cut { OnErr result ((self.new ≡ self.old) ⊎ IsCut checked self.old self.new) }
    {
        match self.found(checked) {
            Ok(outcome) => self.settle(client, outcome),
            Err(BaseFault::Large { rows, cols }) => self.refuse(LineFault::Large { rows, cols }),
            Err(BaseFault::Memory) => Err(OutOfMemory),
        }
    }

    /// What comes of a line that no test refused.
    fn found(&mut self, checked: Checked) -> Result<Outcome, BaseFault>
        requires sound { IsSoundCheck self.old.env checked }
        requires small { HasSmallTerms checked }
        requires low { HasLowSource checked }
        ensures found { Finds checked self.old result self.new }
        ensures sound { IfOk result (λ outcome. (client : List ℕ) → IsSound (state_after client outcome self.new).env) }
        ensures early { IfOk result (λ outcome. MayCome outcome self.new) }
    {
        begin(&mut self.env, has_list(&checked));
        outcome_of(self.alloc, checked, &mut self.shelf, &mut self.store)
    }

    /// Refuses a line.
    fn refuse(&mut self, fault: LineFault) -> Result<Vec<u8>, OutOfMemory>
        ensures reply { IfOk result (λ reply. Comes [] (outs.Refuses fault) self.old reply.items self.new) }
        ensures kept { OnErr result (self.new ≡ self.old) }
    {
        let mut text = Vec::new(self.alloc);
        fault_text(&fault, &mut text)?;
        self.env.note();
        Ok(text)
    }

    /// Takes over what comes of a line, and tells it.
    fn settle(&mut self, client: Name, outcome: Outcome) -> Result<Vec<u8>, OutOfMemory>
        requires sound { IsSound (state_after client outcome self.old).env }
        requires early { MayCome outcome self.old }
        ensures reply { IfOk result (λ reply. Comes client outcome self.old reply.items self.new) }
        ensures kept { OnErr result (self.new ≡ self.old) }
    {
        let text = text_of(self.alloc, &outcome, self.env.heads())?;
        self.take_over(client, outcome)?;
        Ok(text)
    }

    /// Takes over what comes of a line.
    fn take_over(&mut self, client: Name, outcome: Outcome) -> Result<(), OutOfMemory>
        requires sound { IsSound (state_after client outcome self.old).env }
        requires early { MayCome outcome self.old }
        ensures taken { OnOk result (self.new ≡ state_after client outcome self.old) }
        ensures kept { OnErr result (self.new ≡ self.old) }
    {
        match outcome {
            Outcome::Tells(_reply) => self.env.note(),
            Outcome::Refuses(_fault) => self.env.note(),
            Outcome::Opens => self.env.open(),
            Outcome::Enters(ring) => self.env.enter(ring),
            Outcome::Limits(limit) => {
                self.env.set_limit(limit);
                self.store.set_limit(limit);
                self.shelf = Shelf::new(self.alloc);
            }
            Outcome::Defines(name, what) => define(&mut self.env, self.alloc, &client, name, what)?,
            Outcome::Bars(_fault) => {}
        }
        Ok(())
    }
}

/// Notes a line that has a working list, before anything is looked at.
fn begin(env: &mut Env, list: bool)
    ensures { env.new ≡ begun list env.old }
{
    if list {
        env.note();
    }
}

/// Lets a client's name stand for this, and notes the line.
fn define(
    env: &mut Env,
    alloc: Global,
    client: &Name,
    name: Name,
    what: Named,
) -> Result<(), OutOfMemory>
    ensures defined { OnOk result (env.new ≡ record (with_name client.now name what env.old) { heads = noted env.old.heads }) }
    ensures kept { OnErr result (env.new ≡ env.old) }
{
    env.put(alloc, client, name, what)?;
    env.note();
    Ok(())
}

/// The text of what comes of a line.
fn text_of(alloc: Global, outcome: &Outcome, heads: &Heads) -> Result<Vec<u8>, OutOfMemory>
    ensures { IfOk result (λ text. text.items ≡ outcome_text (variables_of heads.now) outcome.now) }
{
    let names = variables(heads);
    match outcome {
        Outcome::Tells(reply) => reply_text(alloc, reply, names),
        Outcome::Opens | Outcome::Enters(_) | Outcome::Limits(_) | Outcome::Defines(..) => {
            reply_text(alloc, &Reply::Accepted, names)
        }
        Outcome::Refuses(fault) | Outcome::Bars(fault) => {
            let mut text = Vec::new(alloc);
            fault_text(fault, &mut text)?;
            Ok(text)
        }
    }
}

/// The names of the ring's variables, none before the ring is given.
fn variables(heads: &Heads) -> &[Name]
    ensures { result.now ≡ variables_of heads.now }
{
    match heads {
        Heads::Within(setting) => setting.ring.names.as_slice(),
        _ => &[],
    }
}
