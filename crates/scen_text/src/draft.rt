//! The part of a scenario that was read so far, and what the next line makes of it.

ghost use Rattle.std.specs.Prelude.{◌≡◌, ◌≤◌, [], ◌∷◌, ◌++◌, length, OnOk};
ghost use Rattle.scen_text.specs.Causes.{Becomes};
ghost use Rattle.scen_text.specs.Known.{cache_line_place, cache_what, is_first, key_in_cache, known_cache, member_what};

use crate::cause::{Cause, LineFault, What, fit, rule};
use crate::known::{
    cache_place, has_cache, has_line, has_member, has_server, has_session, is_named, is_stopped,
    names_data, names_plain,
};
use crate::limits::{
    Kind, Settings, bare_fits, bare_what, cache_of, default_cache, default_settings, keyed,
    kind_of, moment_fits, node_fits, nodes_fit, set, setting_fits, setting_what,
};
use crate::line::{CacheWords, KeyWords, Line, Setting, Verb};
use crate::meaning::line_of;
use crate::objects::Objects;
use crate::place::{Place, place_of};
use crate::words::Name;
use ignite_types::limits::{CACHES, COMMANDS, NODES, PARTITIONS, SESSIONS, STEPS};
use ignite_types::{
    Cache, Command, Item, Key, List, Mem, Member, NodeId, PlanStep, Scenario, Session, Step,
};
use std::alloc::Global;

/// What was read so far.
#[derive(Drop)]
pub struct Draft {
    /// The nodes that the lines of the whole text name.
    named: List<NodeId>,
    place: Place,
    format: u32,
    settings: Settings,
    caches: List<Cache>,
    /// The partitions of all caches.
    partitions: u32,
    nodes: List<Member>,
    /// The nodes that have a line, and then those that join.
    members: List<Member>,
    plan: List<PlanStep>,
    /// The kinds of the data objects, each object once.
    objects: Objects,
    /// The whole sessions.
    sessions: List<Session>,
    /// The session that is being read.
    session: Session,
}

impl Draft {
    ghost use Rattle.scen_text.specs.Drafts.{draft_after_line, draft_with_member, draft_with_step, empty, finished, has_room, is_whole_draft, line_taken, no_session, nodes_named, total_with, verb_stands, with_bare, with_cache, with_end, with_head, with_item, with_join, with_keyed, with_links, with_object, with_session, with_setting, with_start, with_stop};
    ghost use Rattle.scen_text.specs.Known.{agrees_with_known, cache_place, names_data_here, names_first, names_plain_here, place_of_key, rises};

    /// No session.
    fn no_session(alloc: Global) -> Session
        ensures { result ≡ no_session }
    {
        Session {
            name: List::new(alloc),
            node: NodeId(0),
            commands: List::new(alloc),
        }
    }

    /// Nothing, of a text whose lines name these nodes.
    pub fn new(alloc: Global, named: List<NodeId>) -> Draft
        ensures { result ≡ empty named }
    {
        Draft {
            named,
            place: Place::Start,
            format: 1,
            settings: default_settings(),
            caches: List::new(alloc),
            partitions: 0,
            nodes: List::new(alloc),
            members: List::new(alloc),
            plan: List::new(alloc),
            objects: Objects::new(alloc),
            sessions: List::new(alloc),
            session: Draft::no_session(alloc),
        }
    }

    /// Takes the line of the format.
    fn with_head(&mut self, alloc: Global, format: u32) -> Result<(), LineFault>
        ensures { Becomes result self.new (with_head self.old format) }
    {
        rule(self.place.is_start(), Cause::Syntax)?;
        let mut caches = List::new(alloc);
        if format == 1 {
            caches.push(default_cache(alloc, self.settings)?)?;
        }
        self.caches = caches;
        self.format = format;
        self.place = Place::Head;
        Ok(())
    }

    /// Takes a setting of format 1.
    fn with_setting(&mut self, alloc: Global, setting: Setting, n: u32) -> Result<(), LineFault>
        ensures { Becomes result self.new (with_setting self.old setting n) }
    {
        let place = place_of(setting);
        rule(self.place.stands_once(place), Cause::Syntax)?;
        rule(
            setting_fits(setting, n),
            Cause::Limit(setting_what(setting)),
        )?;
        let settings = set(self.settings, setting, n);
        let mut caches = List::new(alloc);
        caches.push(default_cache(alloc, settings)?)?;
        self.caches = caches;
        self.settings = settings;
        self.place = place;
        Ok(())
    }

    /// The partitions of all caches, where there is room for one more cache with so many.
    fn total_with(&self, parts: u32) -> Result<u32, Cause>
        ensures { result ≡ total_with self.now parts }
    {
        if self.caches.len() >= CACHES {
            return Err(Cause::Limit(What::Caches));
        }
        let total = u64::from(self.partitions) + u64::from(parts);
        if total <= PARTITIONS {
            Ok(total as u32)
        } else {
            Err(Cause::Limit(What::Caches))
        }
    }

    /// Takes a cache, or a data cache.
    fn with_cache(
        &mut self,
        alloc: Global,
        is_data: bool,
        words: &CacheWords,
    ) -> Result<(), LineFault>
        ensures { Becomes result self.new (with_cache self.old is_data words.now) }
    {
        let place = cache_line_place(is_data);
        rule(self.place.stands(place), Cause::Syntax)?;
        let cache = cache_of(alloc, cache_what(is_data), true, is_data, words)?;
        let total = self.total_with(cache.parts)?;
        let is_new = !has_cache(self.caches.as_slice(), cache.name.as_slice());
        rule(is_new, Cause::DoubleName)?;
        self.caches.push(cache)?;
        self.partitions = total;
        self.place = place;
        Ok(())
    }

    /// Takes a node.
    fn with_member(&mut self, member: Member) -> Result<(), LineFault>
        ensures { Becomes result self.new (draft_with_member self.old member) }
    {
        let what = member_what(member.server);
        rule(self.place.stands(Place::Nodes), Cause::Syntax)?;
        rule(node_fits(member.node), Cause::Limit(what))?;
        rule(self.members.len() < NODES, Cause::Limit(What::Nodes))?;
        let is_new = !has_member(self.members.as_slice(), member.node);
        rule(is_new, Cause::DoubleName)?;
        self.nodes.push(member)?;
        self.members.push(member)?;
        self.place = Place::Nodes;
        Ok(())
    }

    /// Whether the moment is not before that of the last step.
    fn rises(&self, moment: u64) -> bool
        ensures { result ≡ rises self.now.plan moment }
    {
        self.plan
            .as_slice()
            .iter()
            .all(|planned| planned.moment <= moment)
    }

    /// Adds a step.
    fn push_step(&mut self, moment: u64, step: Step) -> Mem<()>
        ensures { OnOk result (self.new ≡ draft_with_step self.old moment step) }
    {
        self.plan.push(PlanStep { moment, step })?;
        self.place = Place::Plan;
        Ok(())
    }

    /// Takes a step by which a node joins.
    fn with_join(&mut self, moment: u32, member: Member) -> Result<(), LineFault>
        ensures { Becomes result self.new (with_join self.old moment member) }
    {
        rule(self.place.stands(Place::Plan), Cause::Syntax)?;
        rule(moment_fits(moment), Cause::Limit(What::Moment))?;
        rule(node_fits(member.node), Cause::Limit(What::Plan))?;
        rule(self.rises(u64::from(moment)), Cause::Limit(What::Moment))?;
        rule(self.members.len() < NODES, Cause::Limit(What::Nodes))?;
        rule(self.plan.len() < STEPS, Cause::Limit(What::Steps))?;
        let is_new = !has_member(self.members.as_slice(), member.node);
        rule(is_new, Cause::DoubleName)?;
        self.members.push(member)?;
        self.push_step(u64::from(moment), Step::Join(member))?;
        Ok(())
    }

    /// Whether each node of a step is named by a line of the text.
    fn nodes_named(&self, step: Step) -> bool
        ensures { result ≡ nodes_named self.now.named step }
    {
        let named = self.named.as_slice();
        match step {
            Step::Lose(node) => is_named(named, node),
            Step::Hold(sender, addressee) => is_named(named, sender) && is_named(named, addressee),
            Step::Release(sender, addressee) => {
                is_named(named, sender) && is_named(named, addressee)
            }
            _ => true,
        }
    }

    /// Takes a step that loses a node, or holds or releases a link.
    fn with_links(&mut self, moment: u32, step: Step) -> Result<(), LineFault>
        ensures { Becomes result self.new (with_links self.old moment step) }
    {
        rule(self.place.stands(Place::Plan), Cause::Syntax)?;
        rule(moment_fits(moment), Cause::Limit(What::Moment))?;
        rule(nodes_fit(step), Cause::Limit(What::Plan))?;
        rule(self.rises(u64::from(moment)), Cause::Limit(What::Moment))?;
        rule(self.plan.len() < STEPS, Cause::Limit(What::Steps))?;
        rule(self.nodes_named(step), Cause::NoSuchNode)?;
        self.push_step(u64::from(moment), step)?;
        Ok(())
    }

    /// Whether a data cache has this name.
    fn names_data(&self, name: &Option<Name>) -> bool
        ensures { result ≡ names_data_here self.now.caches name.now }
    {
        match name {
            Some(name) => names_data(self.caches.as_slice(), name.as_slice()),
            None => false,
        }
    }

    /// Takes a step that starts a cache.
    fn with_start(
        &mut self,
        alloc: Global,
        moment: u32,
        words: &CacheWords,
    ) -> Result<(), LineFault>
        requires { length self.old.caches ≤ 8 }
        ensures { Becomes result self.new (with_start self.old moment words.now) }
    {
        let stands = self.place.stands(Place::Plan) && !self.names_data(&words.name);
        rule(stands, Cause::Syntax)?;
        rule(moment_fits(moment), Cause::Limit(What::Moment))?;
        let cache = cache_of(alloc, What::Plan, false, false, words)?;
        rule(self.rises(u64::from(moment)), Cause::Limit(What::Moment))?;
        rule(self.plan.len() < STEPS, Cause::Limit(What::Steps))?;
        let total = self.total_with(cache.parts)?;
        let is_new = !has_cache(self.caches.as_slice(), cache.name.as_slice());
        rule(is_new, Cause::DoubleName)?;
        let number = self.caches.len() as u32;
        self.caches.push(cache)?;
        self.partitions = total;
        self.push_step(u64::from(moment), Step::Start(number))?;
        Ok(())
    }

    /// The number of the cache of this name.
    fn place_named(&self, name: &Name) -> Option<u32>
        requires { length self.now.caches ≤ 8 }
        ensures { result ≡ cache_place self.now.caches name.now }
    {
        match cache_place(self.caches.as_slice(), name.as_slice()) {
            Some(place) => Some(place as u32),
            None => None,
        }
    }

    /// Whether cache 0 has this name.
    fn names_first(&self, name: &Option<Name>) -> bool
        requires { length self.now.caches ≤ 8 }
        ensures { result ≡ names_first self.now.caches name.now }
    {
        match name {
            Some(name) => is_first(self.place_named(name)),
            None => false,
        }
    }

    /// Takes a step that stops a cache.
    fn with_stop(&mut self, moment: u32, name: &Option<Name>) -> Result<(), LineFault>
        requires { length self.old.caches ≤ 8 }
        ensures { Becomes result self.new (with_stop self.old moment name.now) }
    {
        let stands = self.place.stands(Place::Plan)
            && !self.names_data(name)
            && !self.names_first(name);
        rule(stands, Cause::Syntax)?;
        rule(moment_fits(moment), Cause::Limit(What::Moment))?;
        let name = fit(*name, What::Name)?;
        rule(self.rises(u64::from(moment)), Cause::Limit(What::Moment))?;
        rule(self.plan.len() < STEPS, Cause::Limit(What::Steps))?;
        let number = known(self.place_named(&name))?;
        let is_new = !is_stopped(self.plan.as_slice(), number);
        rule(is_new, Cause::DoubleName)?;
        self.push_step(u64::from(moment), Step::Stop(number))?;
        Ok(())
    }

    /// Begins a session.
    fn with_session(
        &mut self,
        alloc: Global,
        name: &Option<Name>,
        node: NodeId,
    ) -> Result<(), LineFault>
        ensures { Becomes result self.new (with_session self.old name.now node) }
    {
        rule(self.place.stands(Place::Sessions), Cause::Syntax)?;
        let name = fit(*name, What::Name)?;
        rule(node_fits(node), Cause::Limit(What::Session))?;
        rule(self.sessions.len() < SESSIONS, Cause::Limit(What::Sessions))?;
        rule(is_named(self.named.as_slice(), node), Cause::NoSuchNode)?;
        let is_new = !has_session(self.sessions.as_slice(), name.as_slice());
        rule(is_new, Cause::DoubleName)?;
        let name = List::from_slice(alloc, name.as_slice())?;
        self.session = Session {
            name,
            node,
            commands: List::new(alloc),
        };
        self.place = Place::Script;
        Ok(())
    }

    /// Adds a command to the session.
    fn push_item(&mut self, item: &Item) -> Mem<()>
        ensures { OnOk result (self.new ≡ with_item self.old item.now) }
    {
        push_command(&mut self.session.commands, item)?;
        self.place = self.place.after(item);
        Ok(())
    }

    /// Takes a command without a key.
    fn with_bare(&mut self, command: &Command) -> Result<(), LineFault>
        ensures { Becomes result self.new (with_bare self.old command.now) }
    {
        rule(self.place.in_script(), Cause::Syntax)?;
        rule(bare_fits(command), Cause::Limit(bare_what(command)))?;
        rule(self.has_room(), Cause::Limit(What::Commands))?;
        let item = Item::Plain(*command);
        self.push_item(&item)?;
        Ok(())
    }

    /// Whether the session may have one more command.
    fn has_room(&self) -> bool
        ensures { result ≡ has_room self.now }
    {
        self.session.commands.len() < COMMANDS
    }

    /// The number of the cache that a command names.
    fn place_of_key(&self, key: &KeyWords) -> Option<u32>
        requires { length self.now.caches ≤ 8 }
        ensures { result ≡ place_of_key self.now.caches key.now }
    {
        match &key.cache {
            Some(name) => self.place_named(name),
            None => None,
        }
    }

    /// Whether a cache that is none of data has this name.
    fn names_plain(&self, name: &Option<Name>) -> bool
        ensures { result ≡ names_plain_here self.now.caches name.now }
    {
        match name {
            Some(name) => names_plain(self.caches.as_slice(), name.as_slice()),
            None => false,
        }
    }

    /// Whether no line before makes the object one of another kind.
    fn agrees(&self, place: Option<u32>, key: Option<Key>, kind: Kind) -> bool
        ensures { result ≡ agrees_with_known self.now.objects place key kind }
    {
        match (place, key) {
            (Some(number), Some(key)) => {
                let key = in_cache(number, &key);
                !self.objects.is_other(&key, kind)
            }
            _ => true,
        }
    }

    /// Whether the command may stand here with its key.
    fn verb_stands(&self, kind: Option<Kind>, place: Option<u32>, key: &KeyWords) -> bool
        ensures { result ≡ verb_stands self.now kind place key.now }
    {
        match kind {
            Some(kind) => {
                self.place.is_outside()
                    && !self.names_plain(&key.cache)
                    && self.agrees(place, key.key, kind)
            }
            None => self.place.in_script() && !self.names_data(&key.cache),
        }
    }

    /// Adds an object's kind, if it is not known.
    fn push_object(&mut self, key: &Key, kind: Option<Kind>) -> Mem<()>
        ensures { OnOk result (self.new ≡ with_object self.old key.now kind) }
    {
        match kind {
            Some(kind) => self.objects.add(key, kind),
            None => Ok(()),
        }
    }

    /// Takes a command with a key.
    fn with_keyed(&mut self, verb: &Verb, key: &KeyWords) -> Result<(), LineFault>
        requires { length self.old.caches ≤ 8 }
        ensures { Becomes result self.new (with_keyed self.old verb.now key.now) }
    {
        let place = self.place_of_key(key);
        let kind = kind_of(verb);
        rule(self.verb_stands(kind, place, key), Cause::Syntax)?;
        let _name = fit(key.cache, What::Name)?;
        let text = fit(key.key, What::Key)?;
        let key = in_cache(place.unwrap_or(0), &text);
        let item = match keyed(verb, &key)? {
            Item::Plain(command) => Item::Plain(command),
            item => item,
        };
        rule(self.has_room(), Cause::Limit(What::Commands))?;
        let _number = known(place)?;
        self.push_object(&key, kind)?;
        self.push_item(&item)?;
        Ok(())
    }

    /// Ends the session.
    fn with_end(&mut self, alloc: Global) -> Result<(), LineFault>
        ensures { Becomes result self.new (with_end self.old) }
    {
        rule(self.place.in_script(), Cause::Syntax)?;
        let session = std::mem::replace(&mut self.session, Draft::no_session(alloc));
        self.sessions.push(session)?;
        self.place = Place::Sessions;
        Ok(())
    }

    /// Takes what the next line means.
    fn step(&mut self, alloc: Global, line: &Line) -> Result<(), LineFault>
        requires { length self.old.caches ≤ 8 }
        ensures { Becomes result self.new (draft_after_line self.old line.now) }
    {
        match line {
            Line::Blank => Ok(()),
            Line::Head(format) => self.with_head(alloc, *format),
            Line::Setting(setting, n) => self.with_setting(alloc, *setting, *n),
            Line::Cache(is_data, words) => self.with_cache(alloc, *is_data, words),
            Line::Member(member) => self.with_member(*member),
            Line::Join(moment, member) => self.with_join(*moment, *member),
            Line::Links(moment, step) => self.with_links(*moment, *step),
            Line::Start(moment, words) => self.with_start(alloc, *moment, words),
            Line::Stop(moment, name) => self.with_stop(*moment, name),
            Line::Session(name, node) => self.with_session(alloc, name, *node),
            Line::Bare(command) => self.with_bare(command),
            Line::Keyed(verb, key) => self.with_keyed(verb, key),
            Line::End => self.with_end(alloc),
        }
    }

    /// Takes the next line.
    pub fn take_line(&mut self, alloc: Global, bytes: &[u8]) -> Result<(), LineFault>
        requires { length self.old.caches ≤ 8 }
        ensures { Becomes result self.new (line_taken self.old bytes.now) }
    {
        match line_of(self.format, bytes) {
            Ok(line) => self.step(alloc, &line),
            Err(cause) => Err(LineFault::Bad(cause)),
        }
    }

    /// Whether nothing is missing.
    fn is_whole(&self) -> bool
        ensures { result ≡ is_whole_draft self.now }
    {
        self.place.is_whole()
            && has_server(self.nodes.as_slice())
            && has_line(self.caches.as_slice())
    }

    /// The scenario, where the text ends.
    pub fn finish(self) -> Result<Scenario, Cause>
        ensures { result ≡ finished self }
    {
        rule(self.is_whole(), Cause::Missing)?;
        let Draft {
            named: _,
            place: _,
            format,
            settings: _,
            caches,
            partitions: _,
            nodes,
            members: _,
            plan,
            objects: _,
            sessions,
            session: _,
        } = self;
        Ok(Scenario {
            format,
            caches,
            nodes,
            plan,
            sessions,
        })
    }
}

/// Whether this is the number of cache 0.
fn is_first(place: Option<u32>) -> bool
    ensures { result ≡ is_first place }
{
    match place {
        Some(number) => number == 0,
        None => false,
    }
}

/// The number of a cache that a line before names.
fn known(place: Option<u32>) -> Result<u32, Cause>
    ensures { result ≡ known_cache place }
{
    match place {
        Some(number) => Ok(number),
        None => Err(Cause::NoSuchCache),
    }
}

/// The key in the cache of this number.
fn in_cache(number: u32, key: &Key) -> Key
    ensures { result ≡ key_in_cache number key.now }
{
    Key {
        cache: number,
        text: key.text,
    }
}

/// The place of a cache's line.
fn cache_line_place(is_data: bool) -> Place
    ensures { result ≡ cache_line_place is_data }
{
    if is_data { Place::Data } else { Place::Caches }
}

/// What is past its limit at a cache's line.
fn cache_what(is_data: bool) -> What
    ensures { result ≡ cache_what is_data }
{
    if is_data { What::Data } else { What::Cache }
}

/// What is past its limit at a node's line.
fn member_what(server: bool) -> What
    ensures { result ≡ member_what server }
{
    if server { What::Server } else { What::Client }
}

/// Adds a command.
fn push_command(commands: &mut List<Item>, item: &Item) -> Mem<()>
    ensures { OnOk result (commands.new ≡ commands.old ++ item.now ∷ []) }
{
    match item {
        Item::Plain(command) => commands.push(Item::Plain(*command)),
        _ => commands.push(*item),
    }
}
