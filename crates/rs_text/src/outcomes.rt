//! The texts of an outcome, and of the history of one key.

ghost use Rattle.std.specs.Prelude.{◌≡◌, ◌∷◌, [], IfOk, map, find};
ghost use Rattle.std.specs.Option.{option_copied};
ghost use Rattle.rs_key.specs.Keys.{same_bytes};
ghost use Rattle.rs_field.specs.Forms.{Appends, more_text, lines_text};
ghost use Rattle.rs_text.specs.Outcomes.{mode_forms, peers_forms, state_forms, region_line, reply_forms, reply_line, pair_line, item, history_line, store_lines, outcome_text, key_lines, history_text};

use crate::writing::{Block, Line, put_blocks, put_lines};
use rs_entry::{Item, KeyHistory, Mode, Outcome, Pair, RegionLine, Reply, ReplyLine, StoreOutcome};
use rs_field::{Text, put_named, put_number, put_value, put_word};
use rs_key::{Key, NoMemory, Rows};
use std::alloc::Global;

/// Appends a mode behind other fields.
pub fn put_mode(out: &mut Vec<u8>, mode: &Mode) -> Result<(), NoMemory>
    ensures { Appends result out.old out.new (more_text (mode_forms mode.now)) }
{
    match mode {
        Mode::Normal => put_word(out, " normal"),
        Mode::Merging { target, commit } => {
            put_word(out, " merging")?;
            target.put(out)?;
            commit.put(out)
        }
        Mode::Merged { target } => {
            put_word(out, " merged")?;
            target.put(out)
        }
        Mode::Removed => put_word(out, " removed"),
    }
}

/// Appends peers behind other fields, if there are any.
fn put_peers(out: &mut Vec<u8>, peers: &Rows<u64>) -> Result<(), NoMemory>
    ensures { Appends result out.old out.new (more_text (peers_forms peers.now)) }
{
    if peers.is_empty() {
        return Ok(());
    }
    put_word(out, " peers")?;
    peers.put(out)
}

impl Line for RegionLine {
    ghost line = { region_line };

    fn put_line(&self, out: &mut Vec<u8>) -> Result<(), NoMemory> {
        put_word(out, "region")?;
        self.region.put(out)?;
        put_named(out, "epoch", &self.epoch)?;
        put_named(out, "range", &self.range)?;
        put_state(out, self)?;
        put_word(out, "\n")
    }
}

/// Appends behind other fields how far a region came, and what it is at the end.
#[tactic(auto, unfolding(crate::specs::Outcomes::state_forms))]
fn put_state(out: &mut Vec<u8>, region: &RegionLine) -> Result<(), NoMemory>
    ensures { Appends result out.old out.new (more_text (state_forms region.now)) }
{
    put_named(out, "applied", &region.applied)?;
    put_named(out, "left", &region.left)?;
    put_mode(out, &region.mode)?;
    put_peers(out, &region.peers)
}

/// Appends a reply behind other fields.
fn put_reply(out: &mut Vec<u8>, reply: &Reply) -> Result<(), NoMemory>
    ensures { Appends result out.old out.new (more_text (reply_forms reply.now)) }
{
    match reply {
        Reply::Done(version) => {
            put_word(out, " ok")?;
            version.put(out)
        }
        Reply::Stale(epoch) => {
            put_word(out, " stale")?;
            epoch.put(out)
        }
        Reply::Outside(key) => {
            put_word(out, " outside")?;
            key.put(out)
        }
        Reply::Merging(target) => {
            put_word(out, " merging")?;
            target.put(out)
        }
        Reply::BadSplit(place) => {
            put_word(out, " badsplit")?;
            place.put(out)
        }
        Reply::BadPeer => put_word(out, " badpeer"),
        Reply::Empty => put_word(out, " empty"),
    }
}

impl Line for ReplyLine {
    ghost line = { reply_line };

    fn put_line(&self, out: &mut Vec<u8>) -> Result<(), NoMemory> {
        put_word(out, "reply")?;
        self.region.put(out)?;
        self.index.put(out)?;
        put_reply(out, &self.reply)?;
        put_word(out, "\n")
    }
}

impl Line for Pair {
    ghost line = { pair_line };

    fn put_line(&self, out: &mut Vec<u8>) -> Result<(), NoMemory> {
        put_word(out, "pair")?;
        self.key.put(out)?;
        self.value.put(out)?;
        put_word(out, "\n")
    }
}

/// Appends one write of a key behind other fields.
fn put_item(out: &mut Vec<u8>, i: &Item) -> Result<(), NoMemory>
    ensures { Appends result out.old out.new (more_text (item i.now ∷ [])) }
{
    put_word(out, " ")?;
    put_number(out, i.region)?;
    put_word(out, "/")?;
    put_number(out, i.index)?;
    match &i.value {
        None => put_word(out, "!"),
        Some(value) => {
            put_word(out, "=")?;
            put_value(out, value)
        }
    }
}

/// Appends the writes of a key behind other fields.
fn put_items(out: &mut Vec<u8>, items: &[Item]) -> Result<(), NoMemory>
    ensures { Appends result out.old out.new (more_text (map item items.now)) }
{
    for item in items {
        put_item(out, item)?;
    }
    Ok(())
}

impl Line for KeyHistory {
    ghost line = { history_line };

    fn put_line(&self, out: &mut Vec<u8>) -> Result<(), NoMemory> {
        put_word(out, "history")?;
        self.key.put(out)?;
        put_items(out, self.items.as_slice())?;
        put_word(out, "\n")
    }
}

impl Block for StoreOutcome {
    ghost lines = { store_lines };

    fn put_block(&self, out: &mut Vec<u8>) -> Result<(), NoMemory> {
        put_word(out, "store")?;
        self.id.put(out)?;
        put_word(out, "\n")?;
        put_lines(out, &self.regions)?;
        put_lines(out, &self.replies)?;
        put_lines(out, &self.pairs)?;
        put_lines(out, &self.histories)
    }
}

/// Returns the text of an outcome.
#[tactic(auto, unfolding(crate::specs::Outcomes::outcome_text))]
pub fn write_outcome(alloc: Global, outcome: &Outcome) -> Result<Vec<u8>, NoMemory>
    ensures { IfOk result (λ v. v.items ≡ outcome_text outcome.now) }
{
    let mut out = Vec::new(alloc);
    put_blocks(&mut out, &outcome.stores)?;
    Ok(out)
}

/// Returns the history of a key on a store.
fn history_of<'a>(key: &Key, store: &'a StoreOutcome) -> Option<&'a KeyHistory>
    ensures { option_copied result ≡ find (λ h. same_bytes h.key key.now) store.now.histories }
{
    store.histories.as_slice().iter().find(|h| h.key == *key)
}

/// Appends the lines of a key's history on a store.
fn put_key_lines(out: &mut Vec<u8>, key: &Key, store: &StoreOutcome) -> Result<(), NoMemory>
    ensures { Appends result out.old out.new (lines_text (key_lines key.now store.now)) }
{
    put_word(out, "store")?;
    store.id.put(out)?;
    put_word(out, "\nhistory")?;
    key.put(out)?;
    if let Some(history) = history_of(key, store) {
        put_items(out, history.items.as_slice())?;
    }
    put_word(out, "\n")
}

/// Returns the text of the history of one key: what was written to it, store by store.
///
/// A store with no history of the key has a line without items.
#[tactic(auto, unfolding(crate::specs::Outcomes::history_text))]
pub fn write_history(alloc: Global, outcome: &Outcome, key: &Key) -> Result<Vec<u8>, NoMemory>
    ensures { IfOk result (λ v. v.items ≡ history_text outcome.now key.now) }
{
    let mut out = Vec::new(alloc);
    for store in outcome.stores.as_slice() {
        put_key_lines(&mut out, key, store)?;
    }
    Ok(out)
}
