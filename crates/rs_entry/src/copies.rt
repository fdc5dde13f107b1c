use crate::entry::{Body, Carried, CarriedBody, Entry, Op};
use crate::input::{Boot, Input, Log, Store};
use crate::law_fault::{LawFault, Statement};
use crate::outcome::{
    Item, KeyHistory, Mode, Outcome, Pair, RegionLine, Reply, ReplyLine, StoreOutcome,
};
use rs_key::{NoMemory, TryClone};

impl TryClone for Op {
    fn try_clone(&self) -> Result<Op, NoMemory> {
        match self {
            Op::Put(key, value) => Ok(Op::Put(key.try_clone()?, value.try_clone()?)),
            Op::Delete(key) => Ok(Op::Delete(key.try_clone()?)),
        }
    }
}

impl TryClone for CarriedBody {
    fn try_clone(&self) -> Result<CarriedBody, NoMemory> {
        match self {
            CarriedBody::Empty => Ok(CarriedBody::Empty),
            CarriedBody::Write(ops) => Ok(CarriedBody::Write(ops.try_clone()?)),
            CarriedBody::Prepare { target } => Ok(CarriedBody::Prepare { target: *target }),
        }
    }
}

impl TryClone for Carried {
    fn try_clone(&self) -> Result<Carried, NoMemory> {
        Ok(Carried {
            index: self.index,
            epoch: self.epoch,
            body: self.body.try_clone()?,
        })
    }
}

impl TryClone for Body {
    fn try_clone(&self) -> Result<Body, NoMemory> {
        match self {
            Body::Empty => Ok(Body::Empty),
            Body::Write(ops) => Ok(Body::Write(ops.try_clone()?)),
            Body::Split { side, ids, keys } => Ok(Body::Split {
                side: *side,
                ids: ids.try_clone()?,
                keys: keys.try_clone()?,
            }),
            Body::Prepare { target } => Ok(Body::Prepare { target: *target }),
            Body::Commit {
                source,
                commit,
                carried,
            } => Ok(Body::Commit {
                source: *source,
                commit: *commit,
                carried: carried.try_clone()?,
            }),
            Body::Rollback { commit } => Ok(Body::Rollback { commit: *commit }),
            Body::Conf { change } => Ok(Body::Conf { change: *change }),
        }
    }
}

impl TryClone for Entry {
    fn try_clone(&self) -> Result<Entry, NoMemory> {
        Ok(Entry {
            index: self.index,
            epoch: self.epoch,
            body: self.body.try_clone()?,
        })
    }
}

impl TryClone for Boot {
    fn try_clone(&self) -> Result<Boot, NoMemory> {
        Ok(Boot {
            region: self.region,
            range: self.range.try_clone()?,
            peers: self.peers.try_clone()?,
        })
    }
}

impl TryClone for Log {
    fn try_clone(&self) -> Result<Log, NoMemory> {
        Ok(Log {
            region: self.region,
            entries: self.entries.try_clone()?,
        })
    }
}

impl TryClone for Store {
    fn try_clone(&self) -> Result<Store, NoMemory> {
        Ok(Store {
            id: self.id,
            regions: self.regions.try_clone()?,
            logs: self.logs.try_clone()?,
        })
    }
}

impl TryClone for Input {
    fn try_clone(&self) -> Result<Input, NoMemory> {
        Ok(Input {
            version: self.version,
            stores: self.stores.try_clone()?,
        })
    }
}

impl TryClone for Mode {
    fn try_clone(&self) -> Result<Mode, NoMemory> {
        Ok(*self)
    }
}

impl TryClone for Reply {
    fn try_clone(&self) -> Result<Reply, NoMemory> {
        match self {
            Reply::Done(version) => Ok(Reply::Done(*version)),
            Reply::Stale(epoch) => Ok(Reply::Stale(*epoch)),
            Reply::Outside(key) => Ok(Reply::Outside(key.try_clone()?)),
            Reply::Merging(target) => Ok(Reply::Merging(*target)),
            Reply::BadSplit(place) => Ok(Reply::BadSplit(*place)),
            Reply::BadPeer => Ok(Reply::BadPeer),
            Reply::Empty => Ok(Reply::Empty),
        }
    }
}

impl TryClone for RegionLine {
    fn try_clone(&self) -> Result<RegionLine, NoMemory> {
        Ok(RegionLine {
            region: self.region,
            epoch: self.epoch,
            range: self.range.try_clone()?,
            mode: self.mode,
            applied: self.applied,
            left: self.left,
            peers: self.peers.try_clone()?,
        })
    }
}

impl TryClone for ReplyLine {
    fn try_clone(&self) -> Result<ReplyLine, NoMemory> {
        Ok(ReplyLine {
            region: self.region,
            index: self.index,
            reply: self.reply.try_clone()?,
        })
    }
}

impl TryClone for Pair {
    fn try_clone(&self) -> Result<Pair, NoMemory> {
        Ok(Pair {
            key: self.key.try_clone()?,
            value: self.value.try_clone()?,
        })
    }
}

impl TryClone for Item {
    fn try_clone(&self) -> Result<Item, NoMemory> {
        Ok(Item {
            region: self.region,
            index: self.index,
            value: self.value.try_clone()?,
        })
    }
}

impl TryClone for KeyHistory {
    fn try_clone(&self) -> Result<KeyHistory, NoMemory> {
        Ok(KeyHistory {
            key: self.key.try_clone()?,
            items: self.items.try_clone()?,
        })
    }
}

impl TryClone for StoreOutcome {
    fn try_clone(&self) -> Result<StoreOutcome, NoMemory> {
        Ok(StoreOutcome {
            id: self.id,
            regions: self.regions.try_clone()?,
            replies: self.replies.try_clone()?,
            pairs: self.pairs.try_clone()?,
            histories: self.histories.try_clone()?,
        })
    }
}

impl TryClone for Outcome {
    fn try_clone(&self) -> Result<Outcome, NoMemory> {
        Ok(Outcome {
            stores: self.stores.try_clone()?,
        })
    }
}

impl TryClone for Statement {
    fn try_clone(&self) -> Result<Statement, NoMemory> {
        match self {
            Statement::Boot(boot) => Ok(Statement::Boot(boot.try_clone()?)),
            Statement::Entry(entry) => Ok(Statement::Entry(entry.try_clone()?)),
            Statement::Carried(carried) => Ok(Statement::Carried(carried.try_clone()?)),
        }
    }
}

impl TryClone for LawFault {
    fn try_clone(&self) -> Result<LawFault, NoMemory> {
        match self {
            LawFault::Differ {
                first,
                second,
                region,
                index,
                was,
                is,
            } => Ok(LawFault::Differ {
                first: *first,
                second: *second,
                region: *region,
                index: *index,
                was: was.try_clone()?,
                is: is.try_clone()?,
            }),
            LawFault::Overlap { one, other } => Ok(LawFault::Overlap {
                one: one.try_clone()?,
                other: other.try_clone()?,
            }),
            LawFault::Reused {
                store,
                region,
                index,
                id,
            } => Ok(LawFault::Reused {
                store: *store,
                region: *region,
                index: *index,
                id: *id,
            }),
            LawFault::NotPrepared {
                store,
                region,
                index,
                source,
                commit,
            } => Ok(LawFault::NotPrepared {
                store: *store,
                region: *region,
                index: *index,
                source: *source,
                commit: *commit,
            }),
            LawFault::NotNext {
                store,
                region,
                index,
                source,
                commit,
                target_range,
                source_range,
            } => Ok(LawFault::NotNext {
                store: *store,
                region: *region,
                index: *index,
                source: *source,
                commit: *commit,
                target_range: target_range.try_clone()?,
                source_range: source_range.try_clone()?,
            }),
            LawFault::BadRollback {
                store,
                region,
                index,
                commit,
                mode,
            } => Ok(LawFault::BadRollback {
                store: *store,
                region: *region,
                index: *index,
                commit: *commit,
                mode: *mode,
            }),
            LawFault::Waits {
                store,
                region,
                index,
                source,
                commit,
            } => Ok(LawFault::Waits {
                store: *store,
                region: *region,
                index: *index,
                source: *source,
                commit: *commit,
            }),
            LawFault::Unborn { store, region } => Ok(LawFault::Unborn {
                store: *store,
                region: *region,
            }),
        }
    }
}
