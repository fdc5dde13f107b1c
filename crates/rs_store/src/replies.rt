ghost use Rattle.std.specs.Prelude.{◌≡◌, ◌-◌, slice_get, option_to_list, IfOk};
ghost use Rattle.rs_region.specs.Actions.{body_for};
ghost use Rattle.rs_store.specs.Stores.{keys_at, ops_in, reply_to, target_in};

use rs_entry::{Mode, Op, Reply};
use rs_key::{NoMemory, TryClone};
use rs_region::{Action, RegionState, Verdict};

/// Returns the reply to an entry, where the state is that after the entry. A rollback that is no lawful log's has none.
pub fn reply_to(
    verdict: Verdict,
    action: Action<'_>,
    state: &RegionState,
) -> Result<Option<Reply>, NoMemory>
    ensures { IfOk result (λ reply. option_to_list reply ≡ reply_to verdict (body_for action.entry) state.now) }
{
    match verdict {
        Verdict::Empty => Ok(Some(Reply::Empty)),
        Verdict::Stale => Ok(Some(Reply::Stale(state.epoch))),
        Verdict::Merging => Ok(Some(Reply::Merging(target_in(state.mode)))),
        Verdict::Outside(place) => outside(ops_in(action), place),
        Verdict::BadSplit(place) => Ok(Some(Reply::BadSplit(place as u64))),
        Verdict::BadPeer => Ok(Some(Reply::BadPeer)),
        Verdict::BadRollback => Ok(None),
        Verdict::Accept => Ok(Some(Reply::Done(state.epoch.version))),
    }
}

fn target_in(mode: Mode) -> u64
    ensures { result ≡ target_in mode }
{
    match mode {
        Mode::Merging { target, .. } => target,
        _ => 0,
    }
}

/// Returns the reply that names the key of the operation at the place, counted from 1.
fn outside(ops: &[Op], place: usize) -> Result<Option<Reply>, NoMemory>
    ensures { IfOk result (λ reply. option_to_list reply ≡ keys_at (slice_get ops.now (place - 1))) }
{
    match ops.get(place.saturating_sub(1)) {
        None => Ok(None),
        Some(Op::Put(key, _)) => Ok(Some(Reply::Outside(key.try_clone()?))),
        Some(Op::Delete(key)) => Ok(Some(Reply::Outside(key.try_clone()?))),
    }
}

/// Returns what the entry writes, where it is accepted.
pub fn ops_in<'a>(action: Action<'a>) -> &'a [Op]
    ensures { result.now ≡ ops_in (body_for action.entry) }
{
    match action {
        Action::Writes(ops) => ops.as_slice(),
        _ => &[],
    }
}
