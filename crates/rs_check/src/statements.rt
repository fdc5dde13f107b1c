ghost use Rattle.std.specs.Prelude.{◌≡◌, ℕ, ◌++◌, ◌∷◌, map, OnOk, IfOk};
ghost use Rattle.std.specs.List.{flat_map};
ghost use Rattle.rs_check.specs.Statements.{same_statements, said_of, of_boot, of_carried, carried_stated, entry_stated, log_stated, store_stated, stated};

use rs_entry::{Body, Boot, Carried, Entry, Input, Log, Statement, Store};
use rs_key::{NoMemory, Same, TryClone};
use std::alloc::Global;
use std::marker::Model;

/// The content of a statement.
#[derive(Clone, Copy)]
pub enum What<'a> {
    Boot(&'a Boot),
    Own(&'a Entry),
    Carried(&'a Carried),
}

/// A statement of a store about a region, or about an entry of its log. The index is 0 if it is about the region.
#[derive(Drop)]
pub struct Said<'a> {
    pub store: u64,
    pub region: u64,
    pub index: u64,
    pub what: What<'a>,
}

impl<'a> Model for Said<'a> {
    ghost use Rattle.rs_check.specs.Statements.{Stated, said_of};

    ghost Value = { Stated };

    ghost view = { λ s. record { store = s.store; region = s.region; index = s.index; what = said_of s.what } };
}

/// Returns whether two statements about the same say the same.
pub fn is_same(a: What<'_>, b: What<'_>) -> bool
    ensures { result ≡ same_statements (said_of a.entry) (said_of b.entry) }
{
    match (a, b) {
        (What::Boot(a), What::Boot(b)) => a.is_same(b),
        (What::Own(a), What::Own(b)) => a.is_same(b),
        (What::Own(a), What::Carried(b)) => b.same(a),
        (What::Carried(a), What::Own(b)) => a.same(b),
        (What::Carried(a), What::Carried(b)) => a.is_same(b),
        _ => false,
    }
}

/// Returns a copy of what is said.
pub fn statement_of(what: What<'_>) -> Result<Statement, NoMemory>
    ensures { IfOk result (λ s. s ≡ said_of what.entry) }
{
    match what {
        What::Boot(boot) => Ok(Statement::Boot(boot.try_clone()?)),
        What::Own(entry) => Ok(Statement::Entry(entry.try_clone()?)),
        What::Carried(carried) => Ok(Statement::Carried(carried.try_clone()?)),
    }
}

fn add_boots<'a>(all: &mut Vec<Said<'a>>, store: u64, boots: &'a [Boot]) -> Result<(), NoMemory>
    ensures { OnOk result (all.new.items ≡ all.old.items ++ map (of_boot store) boots.now) }
{
    for boot in boots {
        all.push(Said {
            store,
            region: boot.region,
            index: 0,
            what: What::Boot(boot),
        })?;
    }
    Ok(())
}

fn add_carried<'a>(
    all: &mut Vec<Said<'a>>,
    store: u64,
    source: u64,
    carried: &'a [Carried],
) -> Result<(), NoMemory>
    ensures { OnOk result (all.new.items ≡ all.old.items ++ map (of_carried store source) carried.now) }
{
    for one in carried {
        all.push(Said {
            store,
            region: source,
            index: one.index,
            what: What::Carried(one),
        })?;
    }
    Ok(())
}

fn add_entry<'a>(
    all: &mut Vec<Said<'a>>,
    store: u64,
    region: u64,
    entry: &'a Entry,
) -> Result<(), NoMemory>
    ensures { OnOk result (all.new.items ≡ all.old.items ++ entry_stated store region entry.now) }
{
    all.push(Said {
        store,
        region,
        index: entry.index,
        what: What::Own(entry),
    })?;
    match &entry.body {
        Body::Commit {
            source,
            carried,
            ..
        } => Ok(add_carried(all, store, *source, carried.as_slice())?),
        _ => Ok(()),
    }
}

fn add_entries<'a>(
    all: &mut Vec<Said<'a>>,
    store: u64,
    region: u64,
    entries: &'a [Entry],
) -> Result<(), NoMemory>
    ensures { OnOk result (all.new.items ≡ all.old.items ++ flat_map (entry_stated store region) entries.now) }
{
    for entry in entries {
        add_entry(all, store, region, entry)?;
    }
    Ok(())
}

fn add_logs<'a>(all: &mut Vec<Said<'a>>, store: u64, logs: &'a [Log]) -> Result<(), NoMemory>
    ensures { OnOk result (all.new.items ≡ all.old.items ++ flat_map (log_stated store) logs.now) }
{
    for log in logs {
        add_entries(all, store, log.region, log.entries.as_slice())?;
    }
    Ok(())
}

fn add_store<'a>(all: &mut Vec<Said<'a>>, store: &'a Store) -> Result<(), NoMemory>
    ensures { OnOk result (all.new.items ≡ all.old.items ++ store_stated store.now) }
{
    add_boots(all, store.id, store.regions.as_slice())?;
    add_logs(all, store.id, store.logs.as_slice())?;
    Ok(())
}

fn add_stores<'a>(all: &mut Vec<Said<'a>>, stores: &'a [Store]) -> Result<(), NoMemory>
    ensures { OnOk result (all.new.items ≡ all.old.items ++ flat_map store_stated stores.now) }
{
    for store in stores {
        add_store(all, store)?;
    }
    Ok(())
}

/// Returns what the input states, in order.
pub fn stated<'a>(alloc: Global, input: &'a Input) -> Result<Vec<Said<'a>>, NoMemory>
    ensures { IfOk result (λ all. all.items ≡ stated input.now) }
{
    let mut all = Vec::new(alloc);
    add_stores(&mut all, input.stores.as_slice())?;
    Ok(all)
}
