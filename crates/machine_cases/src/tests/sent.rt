//! What machines have to send, as text.

use rs_entry::{Reply, ReplyLine};
use rs_key::Epoch;
use rs_msg::{ApplyMsg, Ending, Outbox, PeerMsg, StoreMsg};
use std::alloc::Global;
use std::test::Fail;

/// The messages to peer machines, those to apply machines and those to control machines, each in its order.
pub fn sent(alloc: Global, out: &Outbox<'_>) -> Result<String, Fail> {
    let mut text = String::new(alloc);
    for (address, msg) in out.peers.as_slice() {
        text.push_str(to_peer(alloc, *address, msg)?.as_str())?;
    }
    text.push_str("|")?;
    for (address, msg) in out.applies.as_slice() {
        text.push_str(to_apply(alloc, *address, msg)?.as_str())?;
    }
    text.push_str("|")?;
    for (place, msg) in out.stores.as_slice() {
        text.push_str(to_store(alloc, *place, msg)?.as_str())?;
    }
    Ok(text)
}

fn to_peer(alloc: Global, address: u32, msg: &PeerMsg<'_>) -> Result<String, Fail> {
    let line = match msg {
        PeerMsg::Deliver { upto, .. } => format!(in alloc; "{address} is there up to {upto};")?,
        PeerMsg::CatchUp { target, commit, .. } => {
            format!(in alloc; "{address} catch up for {target} at {commit};")?
        }
        PeerMsg::Applied { upto, .. } => format!(in alloc; "{address} applied {upto};")?,
        PeerMsg::MergeResult { target, .. } => {
            format!(in alloc; "{address} merged into {target};")?
        }
    };
    Ok(line)
}

fn to_apply(alloc: Global, address: u32, msg: &ApplyMsg<'_>) -> Result<String, Fail> {
    let line = match msg {
        ApplyMsg::Task { upto, .. } => format!(in alloc; "{address} up to {upto};")?,
        ApplyMsg::Birth { piece } => {
            let version = piece.state().epoch.version;
            format!(in alloc; "{address} born at {version};")?
        }
        ApplyMsg::CatchUpLogs { target, commit, .. } => {
            format!(in alloc; "{address} hand over to {target} at {commit};")?
        }
        ApplyMsg::SourceDone { closed } => {
            let (source, commit) = (closed.address(), closed.commit());
            format!(in alloc; "{address} takes over {source} at {commit};")?
        }
        ApplyMsg::Noop { .. } => format!(in alloc; "{address} nothing;")?,
    };
    Ok(line)
}

fn to_store(alloc: Global, place: u32, msg: &StoreMsg<'_>) -> Result<String, Fail> {
    match msg {
        StoreMsg::Reshaped { address, nth, .. } => {
            Ok(format!(in alloc; "{place} reshaped {address} {nth};")?)
        }
        StoreMsg::Ended { ending } => ended(alloc, place, ending),
    }
}

fn ended(alloc: Global, place: u32, ending: &Ending<'_>) -> Result<String, Fail> {
    let address = ending.address();
    let mut text = format!(in alloc; "{place} ended {address}:")?;
    for line in ending.replies().as_slice() {
        text.push_str(reply(alloc, line)?.as_str())?;
    }
    text.push_str(";")?;
    Ok(text)
}

fn reply(alloc: Global, line: &ReplyLine) -> Result<String, Fail> {
    let index = line.index;
    let text = match &line.reply {
        Reply::Done(version) => format!(in alloc; " {index} ok {version}")?,
        Reply::Stale(epoch) => {
            let Epoch { conf_ver, version } = *epoch;
            format!(in alloc; " {index} stale {conf_ver} {version}")?
        }
        Reply::Empty => format!(in alloc; " {index} empty")?,
        _ => format!(in alloc; " {index} refused")?,
    };
    Ok(text)
}
