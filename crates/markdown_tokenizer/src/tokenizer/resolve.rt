//! Resolvers: which are registered, and what they may change.

ghost use Rattle.std.specs.Prelude.{◌≡◌, ◌≢◌, OnOk, OnErr, IfOk, IfErr, [], true};
ghost use Rattle.std.specs.Borrow.{sem};
ghost use Rattle.markdown_tokenizer.specs.declared.waiting.Phase.TheVariants.{Resolving, Resolved};
ghost use Rattle.markdown_tokenizer.specs.Configuration.{at_configuration};
ghost use Rattle.markdown_tokenizer.specs.Text.{IsText};
ghost use Rattle.markdown_tokenizer.specs.Fault.{IfMessage};
ghost use Rattle.markdown_tokenizer.specs.Lawful.{CanResolve, resolver_of};
ghost use Rattle.markdown_tokenizer.specs.Resolving.{edits_made, CanBeEdited, refused};
ghost use Rattle.markdown_tokenizer.specs.Calls.{with_resolvers};
ghost use Rattle.markdown_tokenizer.specs.Registering.{with_resolver, with_resolver_before};
ghost use Rattle.markdown_tokenizer.specs.Work.{HasResolved, CanGoOver, HasGoneOver, AllGoneOver, RefusesOver, registered_out};

use super::{Fault, Tokenizer};
use crate::state::{Machine, MachineTypes};
use crate::subtokenize::{Subresult, joined};
use crate::waiting::Phase;
use markdown_base::event::Event;
use std::alloc::AllocError;
use std::mem::replace;

/// Gives a list that is empty the memory of another one. A list that is not stays as it is.
fn give_back<R: Copy>(list: &mut Vec<R>, memory: Vec<R>)
    ensures { list.new.items ≡ list.old.items }
{
    if list.is_empty() {
        *list = memory;
        list.clear();
    }
}

impl<'a, M: MachineTypes> Tokenizer<'a, M> {
    /// Registers a resolver, after the ones that are there. The list never has duplicates: a resolver that is already
    /// there keeps its position.
    ///
    /// A flush that resolves runs the registered resolvers once all was read. If it runs out of memory, nothing changes.
    pub fn register_resolver(&mut self, name: M::Resolver) -> Result<(), AllocError>
        ensures ok { OnOk result (self.new ≡ with_resolver M.Resolver.eq name self.old) }
        ensures err { OnErr result (self.new ≡ self.old) }
    {
        if self.resolvers.contains(&name) {
            return Ok(());
        }
        self.resolvers.push(name)?;
        Ok(())
    }

    /// As `register_resolver`, but before the ones that are there.
    pub fn register_resolver_before(&mut self, name: M::Resolver) -> Result<(), AllocError>
        ensures ok { OnOk result (self.new ≡ with_resolver_before M.Resolver.eq name self.old) }
        ensures err { OnErr result (self.new ≡ self.old) }
    {
        if !self.resolvers.contains(&name) {
            self.resolvers.insert(0, name)?;
        }
        Ok(())
    }

    /// Begins to resolve: takes out the registered resolvers.
    fn begin_resolving(&mut self) -> Vec<M::Resolver>
        requires closed { self.old.closed ≡ true }
        ensures names { result.items ≡ self.old.configuration.local.resolvers }
        ensures rest { self.new ≡ record self.old { configuration = with_resolvers self.old.configuration []; phase = Resolving } }
    {
        let none = Vec::new(self.allocator());
        self.phase = Phase::Resolving;
        replace(&mut self.resolvers, none)
    }

    /// Makes the edits that wait, all at once, so that a resolver sees the list after the edits of those before it. Then no edit waits,
    /// and each link leads to the event that it led to. A flush makes the edits that are left after the last resolver.
    ///
    /// It is called only while a flush resolves and no choice waits. Each edit must end before the next begins, and each link end must be
    /// an index into the events. If it runs out of memory, nothing changes.
    pub fn make_edits(&mut self) -> Result<(), AllocError>
        requires resolving { self.old.phase ≡ Resolving }
        requires alone { self.old.choices ≡ [] }
        requires can { CanBeEdited self.old.configuration }
        ensures ok { OnOk result (self.new ≡ at_configuration self.old (edits_made self.old.configuration)) }
        ensures err { OnErr result (self.new ≡ self.old) }
    {
        self.map.consume(&mut self.events)
    }

    /// Notes that a flush has resolved. The memory of the list of resolvers that ran is kept, if none is registered.
    fn end_resolving(&mut self, names: Vec<M::Resolver>)
        requires closed { self.old.closed ≡ true }
        ensures { self.new ≡ record self.old { phase = Resolved } }
    {
        self.phase = Phase::Resolved;
        give_back(&mut self.resolvers, names);
    }
}

impl<'a, M: MachineTypes> Tokenizer<'a, M> {
    ghost use Rattle.markdown_tokenizer.specs.Lent.{LendsEvents};

    /// The events, for a resolver to change. It is called only while a flush resolves and no choice waits. Takes no
    /// memory.
    pub fn events_mut(&mut self) -> &mut Vec<Event>
        requires resolving { self.old.phase ≡ Resolving }
        requires alone { self.old.choices ≡ [] }
        ensures* writes_back { sem 𝓛 (LendsEvents M.row M.Resolver.row M.Document.row M.Resolver.PartialEq.own self.entry result) }
        ensures value { result.now.items ≡ self.old.configuration.events }
    {
        &mut self.events
    }
}

impl<'a, M: Machine> Tokenizer<'a, M> {
    /// Runs one resolver over the events. The definitions that it finds come after `sub`.
    fn resolve_next(&mut self, name: M::Resolver, sub: Subresult) -> Result<Subresult, Fault>
        requires resolving { self.old.phase ≡ Resolving }
        requires alone { self.old.choices ≡ [] }
        requires invariant { CanResolve (M.rules self.old.machine) self.old name }
        ensures same { self.new ≡ at_configuration self.old self.new.configuration }
        ensures ok { IfOk result (λ all. HasResolved M.rules self.old name sub self.new all) }
        ensures message { IfMessage result (λ m. resolver_of (M.rules self.old.machine) self.old name ≡ refused m) }
        ensures err { IfErr result (λ fault. fault ≢ Fault.Failed) }
    {
        let alloc = self.allocator();
        match self.parse_state().machine.resolve(alloc, self, name)? {
            None => Ok(sub),
            Some(more) => Ok(joined(sub, more)?),
        }
    }

    /// Runs resolvers over the events, in order, and makes the edits that wait.
    fn resolve_each(&mut self, names: &[M::Resolver], sub: Subresult) -> Result<Subresult, Fault>
        requires text { IsText self.old.given self.old.text }
        requires resolving { self.old.phase ≡ Resolving }
        requires alone { self.old.choices ≡ [] }
        requires invariant { CanGoOver M.rules self.old names.now self.old.configuration }
        ensures same { self.new ≡ at_configuration self.old self.new.configuration }
        ensures ok { IfOk result (λ all. HasGoneOver M.rules self.old names.now self.old.configuration sub self.new all) }
        ensures message { IfMessage result (RefusesOver M.rules self.old names.now self.old.configuration sub) }
        ensures err { IfErr result (λ fault. fault ≢ Fault.Failed) }
    {
        let mut found = sub;
        for name in names {
            found = self.resolve_next(*name, found)?;
        }
        self.make_edits()?;
        Ok(found)
    }

    /// Resolves, for a flush: runs the registered resolvers over the events, in order, and makes the edits that wait.
    /// Returns the definitions found, `Message` if a resolver ends in one, or `Memory` if it runs out of memory.
    pub(crate) fn resolve_all(&mut self, sub: Subresult) -> Result<Subresult, Fault>
        requires text { IsText self.old.given self.old.text }
        requires closed { self.old.closed ≡ true }
        requires alone { self.old.choices ≡ [] }
        requires invariant { CanGoOver M.rules self.old self.old.configuration.local.resolvers (registered_out self.old) }
        ensures same { self.new ≡ record self.old { configuration = self.new.configuration; phase = Resolved } }
        ensures ok { IfOk result (λ all. AllGoneOver M.rules self.old sub self.new all) }
        ensures message { IfMessage result (RefusesOver M.rules self.old self.old.configuration.local.resolvers (registered_out self.old) sub) }
        ensures err { IfErr result (λ fault. fault ≢ Fault.Failed) }
    {
        let names = self.begin_resolving();
        let answer = self.resolve_each(names.as_slice(), sub);
        self.end_resolving(names);
        answer
    }
}
