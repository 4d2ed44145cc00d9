//! The load of a server.
ghost use Rattle.std.specs.Prelude.{◌≡◌, ◌+◌, ◌/◌, ◌%◌, ◌<◌, nat_lt, if◌then◌else◌};

/// The number of calls, the number of callers, and the number of bytes of each call.
#[derive(Clone, Copy, Debug)]
pub struct Load {
    pub calls: usize,
    pub callers: usize,
    pub bytes: usize,
}

/// Returns the number of calls that the caller with this number makes, counted from 0. All callers make the same number
/// of calls, and the first ones make one more if calls are left over. Without callers the number is 0.
pub fn share(load: Load, caller: usize) -> usize
    ensures { 0 < load.callers → result
        ≡ load.calls / load.callers + (if nat_lt caller (load.calls % load.callers) then 1 else 0) }
{
    if load.callers == 0 {
        return 0;
    }
    let all = load.calls / load.callers;
    if caller < load.calls % load.callers {
        all + 1
    } else {
        all
    }
}
