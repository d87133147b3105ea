//! Families of versions: commands on them, and their replies.
ghost use Rattle.std.specs.Borrow.{sem};
ghost use Rattle.std.specs.Prelude.{◌≡◌, ◌+◌, ◌*◌, ◌≤◌, [], map, length, None, Some, Ok, IfOk, IfErr, OnOk, OnErr, MatchOption};
ghost use Rattle.std.specs.Option.{option_copied};
ghost use Rattle.rart_versioned.specs.Clones.{ClonesEqual};
ghost use Rattle.rart_maps.specs.Versions.{HasRoom};
ghost use Rattle.rart_family.specs.Attempts.{Tries, Gives, replied};
ghost use Rattle.rart_family.specs.Costs.{read_cost, read_least, change_cost, change_least, enter_least, CountsReads, CountsChanges};
ghost use Rattle.rart_family.specs.Families.{version_at, placement};
ghost use Rattle.rart_family.specs.Lent.{LendsVersion};
ghost use Rattle.rart_family.specs.Replies.{reply_value};
ghost use Rattle.rart_family.specs.Runs.{Step, Run};
ghost use Rattle.rart_family.specs.declared.family.refused.Refused.TheVariants.{NoVersion, NoRoom};

mod changes;
mod collection;
mod command;
mod flatten;
mod intersections;
mod reads;
mod refused;
mod reply;
mod updates;
mod versions;
mod visits;
mod walks;
mod writing;

pub use command::{Command, Failure};
use rart_versioned::{KeyTrait, VersionedAdaptiveRadixTree, Work};
use refused::Refused;
pub use reply::Reply;
use std::alloc::{AllocError, Global};
use std::marker::Model;

/// A list of places, each a version or discarded. rart has no such type.
///
/// Contracts see it as that list. No command on one version alters another.
#[derive(Drop)]
pub struct Family<K: KeyTrait, V: Clone> {
    alloc: Global,
    versions: Vec<Option<VersionedAdaptiveRadixTree<K, V>>>,
}

impl<K: KeyTrait, V: Clone> Model for Family<K, V> {
    ghost use Rattle.std.specs.Prelude.{List, Option};
    ghost use Rattle.std.specs.Coded.{coded_list, coded_option};
    ghost use Rattle.rart_maps.specs.Versions.{Version, version_code};

    ghost Value = { List (Option (Version V)) };

    ghost coded = { coded_list (coded_option (version_code V.code)) };

    ghost view = { λ family. family.versions.items };
}

impl<K: KeyTrait, V: Clone + Drop> Family<K, V> {
    /// A family without a place.
    pub fn new(alloc: Global) -> Family<K, V>
        ensures { result ≡ [] }
    {
        Family {
            alloc,
            versions: Vec::new(alloc),
        }
    }

    /// The family of these places, each a version or discarded.
    pub fn from_versions(
        alloc: Global,
        versions: Vec<Option<VersionedAdaptiveRadixTree<K, V>>>,
    ) -> Family<K, V>
        ensures { result ≡ versions.items }
    {
        Family { alloc, versions }
    }

    /// The number of places, discarded ones too.
    pub fn len(&self) -> usize
        ensures { result ≡ length self.now }
    {
        self.versions.len()
    }

    /// The version at a place, or `None` where the place is past the last one or discarded.
    pub fn version_at(&self, place: usize) -> Option<&VersionedAdaptiveRadixTree<K, V>>
        ensures { option_copied result ≡ version_at self.now place }
    {
        match self.versions.get(place) {
            Some(Some(version)) => Some(version),
            _ => None,
        }
    }

    /// Does the commands in order, and answers as many replies.
    ///
    /// The replies are those of separate sorted maps, each copied when its version was made.
    /// `reads` counts the nodes that lookups and intersections enter, `changes` those that changes
    /// enter and make.
    /// `Err` comes before the first command, where memory for the replies was refused: the family
    /// and both counts are then as before.
    pub fn run(
        &mut self,
        commands: &[Command<K, V>],
        reads: &mut Work,
        changes: &mut Work,
    ) -> Result<Vec<Reply<K, V>>, AllocError>
        requires clones { ClonesEqual V.is_clone }
        ensures run { IfOk result (λ replies. Run K.bytes self.old commands.now (map
            (reply_value K.bytes) replies.items) self.new) }

        ensures entered_to_read_at_least { IfOk result (λ replies.
            reads.old.entered
            + read_least K.bytes self.old commands.now (map (reply_value K.bytes) replies.items)
            ≤ reads.new.entered) }
        ensures entered_to_read_at_most { IfOk result (λ replies.
            reads.new.entered
            ≤ reads.old.entered
            + read_cost K.bytes self.old commands.now (map (reply_value K.bytes) replies.items)) }
        ensures nothing_made_to_read { OnOk result (reads.new.made ≡ reads.old.made) }
        ensures made_at_least { IfOk result (λ replies.
            changes.old.made
            + change_least K.bytes self.old commands.now (map (reply_value K.bytes) replies.items)
            ≤ changes.new.made) }
        ensures made_at_most { IfOk result (λ replies.
            changes.new.made
            ≤ changes.old.made
            + change_cost K.bytes self.old commands.now (map (reply_value K.bytes) replies.items)) }
        ensures entered_to_change_at_least { IfOk result (λ replies.
            changes.old.entered
            + enter_least K.bytes self.old commands.now (map (reply_value K.bytes) replies.items)
            ≤ changes.new.entered) }
        ensures entered_to_change_at_most { IfOk result (λ replies.
            changes.new.entered
            ≤ changes.old.entered
            + 3 * change_cost K.bytes self.old commands.now
            (map (reply_value K.bytes) replies.items)) }

        ensures refused { OnErr result (self.new ≡ self.old) }
        ensures refused_reads { OnErr result (reads.new ≡ reads.old) }
        ensures refused_changes { OnErr result (changes.new ≡ changes.old) }
    {
        let mut replies = Vec::with_capacity(self.alloc, commands.len())?;
        for command in commands {
            let reply = self.reply(command, reads, changes);
            replies.push_reserved(reply);
        }
        Ok(replies)
    }

    /// Does one command, and answers its reply: that of a run of this command alone.
    ///
    /// `reads` and `changes` count as in `run`. No memory is taken for the reply's own place, so
    /// `NoMemory` comes only where the command takes some.
    pub fn reply(
        &mut self,
        command: &Command<K, V>,
        reads: &mut Work,
        changes: &mut Work,
    ) -> Reply<K, V>
        requires clones { ClonesEqual V.is_clone }
        ensures step { Step K.bytes self.old command.now (reply_value K.bytes result) self.new }
        ensures reads { CountsReads K.bytes self.old command.now
            (reply_value K.bytes result) reads.old reads.new }
        ensures changes { CountsChanges K.bytes self.old command.now
            (reply_value K.bytes result) changes.old changes.new }
    {
        match self.try_step(command, reads, changes) {
            Ok(reply) => reply,
            Err(Refused::NoVersion) => Reply::NoVersion,
            Err(Refused::NoRoom) => Reply::NoRoom,
            Err(Refused::NoMemory) => Reply::NoMemory,
        }
    }

    /// Does one command by the method of its name.
    fn try_step(
        &mut self,
        command: &Command<K, V>,
        reads: &mut Work,
        changes: &mut Work,
    ) -> Result<Reply<K, V>, Refused>
        requires clones { ClonesEqual V.is_clone }
        ensures tries { Tries K.bytes self.old command.now result self.new }
        ensures reads { CountsReads K.bytes self.old command.now
            (replied K.bytes result) reads.old reads.new }
        ensures changes { CountsChanges K.bytes self.old command.now
            (replied K.bytes result) changes.old changes.new }
    {
        match command {
            Command::New => Ok(self.place(VersionedAdaptiveRadixTree::new(self.alloc))?),
            Command::NewAt { number } => self.new_at(*number),
            Command::Snapshot { place } => self.snapshot(*place),
            Command::Duplicate { place } => self.duplicate(*place),
            Command::Discard { place } => self.discard(*place),
            Command::Version { place } => self.version(*place),
            Command::IsEmpty { place } => self.is_empty(*place),
            Command::Get { place, key } => self.get(*place, key, reads),
            Command::GetMut { place, key, value } => self.get_mut(*place, key, value, changes),
            Command::Insert { place, key, value } => self.insert(*place, key, value, changes),
            Command::Replace { place, key, value } => self.replace(*place, key, value, changes),
            Command::Remove { place, key } => self.remove(*place, key, changes),
            Command::Delete { place, key } => self.delete(*place, key, changes),
            Command::Update {
                place,
                key,
                write,
                answer,
            } => self.update(*place, key, write, answer, changes),
            Command::TryUpdate {
                place,
                key,
                write,
                answer,
            } => self.try_update(*place, key, write, answer, changes),
            Command::Iter { place } => self.iter(*place),
            Command::Values { place } => self.values(*place),
            Command::Range { place, lo, hi } => self.range(*place, lo, hi),
            Command::Prefix { place, prefix } => self.prefix(*place, prefix),
            Command::Matches { place, key } => self.prefix_matches(*place, key),
            Command::MatchesEach { place, key } => self.prefix_matches_each(*place, key),
            Command::Views { place } => self.views(*place),
            Command::PrefixViews { place, prefix } => self.prefix_views(*place, prefix),
            Command::RangeViews { place, lo, hi } => self.range_views(*place, lo, hi),
            Command::PrefixValues { place, prefix } => self.prefix_values(*place, prefix),
            Command::Until {
                place,
                prefix,
                visits,
                fails,
            } => self.until(*place, prefix, *visits, *fails),
            Command::Intersect { left, right } => self.intersect(*left, *right, reads),
            Command::IntersectViews { left, right } => self.intersect_views(*left, *right, reads),
            Command::IntersectValues { left, right } => self.intersect_values(*left, *right, reads),
            Command::IntersectCount { left, right } => self.intersect_count(*left, *right, reads),
            Command::Flatten { place } => self.flatten(*place),
            Command::Longest { place, key } => self.longest(*place, key),
        }
    }

    /// The version at a new last place.
    fn place(
        &mut self,
        version: VersionedAdaptiveRadixTree<K, V>,
    ) -> Result<Reply<K, V>, AllocError>
        ensures ok { IfOk result (λ reply.
            Gives K.bytes (placement self.old version) (Ok reply) self.new) }
        ensures refused { OnErr result (self.new ≡ self.old) }
    {
        let place = self.len();
        self.versions.push(Some(version))?;
        Ok(Reply::Place(place))
    }

    /// The version at a place, for reading.
    fn at(&self, place: usize) -> Result<&VersionedAdaptiveRadixTree<K, V>, Refused>
        ensures found { IfOk result (λ version. version_at self.now place ≡ Some version.now) }
        ensures lacking { IfErr result (λ refused. (refused ≡ NoVersion)
            × (version_at self.now place ≡ None)) }
    {
        self.version_at(place).ok_or(Refused::NoVersion)
    }

    /// The version at a place, for writing, where its number can be raised by so much.
    fn version_to_change(
        &mut self,
        place: usize,
        rise: u64,
    ) -> Result<&mut VersionedAdaptiveRadixTree<K, V>, Refused>
        ensures* writes_back { sem 𝓛 (LendsVersion K.row V.row K.PartialType.row K.MAXIMUM_SIZE
            K.bytes K.eq K.cmp K.partial_cmp K.PartialType.Partial V.Clone self.entry place
            result) }
        ensures found { IfOk result (λ version. version_at self.old place ≡ Some version.now) }
        ensures room { IfOk result (λ version. HasRoom version.now rise) }
        ensures refused { IfErr result (λ refused. MatchOption (version_at self.old place)
            (refused ≡ NoVersion)
            (λ version. (refused ≡ NoRoom) × ¬ (HasRoom version rise))) }
    {
        let Some(slot) = self.versions.get_mut(place) else {
            return Err(Refused::NoVersion);
        };
        let Some(version) = slot.as_mut() else {
            return Err(Refused::NoVersion);
        };
        if version.version() > u64::MAX - rise {
            return Err(Refused::NoRoom);
        }
        Ok(version)
    }
}
