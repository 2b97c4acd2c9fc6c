//! A thread that can go on makes its turns of its own.
ghost use Rattle.std.specs.Prelude.{◌≡◌, ◌<◌, length, true, None, IfErr, IfOk, IfSome};
ghost use Rattle.interp_trait.specs.Turns.{MayRun, StaysAs};
ghost use Rattle.replay_walk.specs.Standing.{HasGoneIfFree, MayRunAt, SettlesInto, SettlesThread};
ghost use Rattle.replay_walk.specs.Walked.{StandsSomewhere};
ghost use Rattle.search_scheduled.specs.Settled.{SettlesWhereGoing};
ghost use Rattle.search_scheduled.specs.declared.course.CourseFault.TheVariants as faults;

use crate::CourseFault;
use interp_trait::{Given, TakesTurns, Turn};
use replay_walk::{Walk, settle};
use search_strategies::Strategy;

/// A thread makes so many turns of its own at once: they take less than a tenth of a second.
const AT_ONCE: u64 = 16 * PIECE;

/// One that has more units left makes its turns one by one, and behind so many it is asked whether the run is given up.
const PIECE: u64 = 1_048_576;

/// Whether a run is given up behind so many turns of a thread's own.
fn is_over<S: Strategy>(strategy: &S, made: u64) -> bool
    ensures { result ≡ true → S.may_end strategy.now }
{
    made % PIECE == PIECE - 1 && strategy.is_over()
}

/// Makes turns of the thread until it wants more than a turn of its own, and answers what that is; nothing where the run
/// is given up meanwhile, which is asked only of a thread with many units left.
fn settle_unless_over<T: TakesTurns, S: Strategy>(
    thread: &mut T,
    fuel: u64,
    strategy: &S,
) -> Option<Turn>
    requires { MayRun (T.meaning thread.old) }
    ensures stays { StaysAs (T.meaning thread.old) (T.meaning thread.new) }
    ensures settled { IfSome result (λ turn. SettlesInto (T.meaning thread.old) turn (T.meaning thread.new)) }
    ensures over { result ≡ None → S.may_end strategy.now }
{
    let left = fuel.saturating_sub(thread.spent());
    for made in 0..left.saturating_sub(AT_ONCE) {
        if is_over(strategy, made) {
            return None;
        }
        match thread.turn(Given::Nothing) {
            Turn::Moved => {}
            turn => return Some(turn),
        }
    }
    Some(settle(thread))
}

/// The same of the thread of this number.
fn settle_at<T: TakesTurns, S: Strategy>(
    threads: &mut [T],
    n: usize,
    fuel: u64,
    strategy: &S,
) -> Option<Turn>
    requires within { n < length threads.old }
    requires here { MayRunAt T.meaning threads.old n }
    ensures count { length threads.new ≡ length threads.old }
    ensures settled { IfSome result (λ turn. SettlesThread T.meaning threads.old n turn threads.new) }
    ensures over { result ≡ None → S.may_end strategy.now }
{
    settle_unless_over(&mut threads[n], fuel, strategy)
}

/// A thread that can go on makes its turns of its own, and it is said what it wants then.
///
/// # Errors
/// `NoEntry` where it can't, and is left as it is: it sleeps, an answer is due to it, it has left, or it wasn't started.
/// `GivenUp` where the strategy gives the run up meanwhile.
pub(crate) fn settle_going<T: TakesTurns, S: Strategy>(
    walk: &mut Walk<T>,
    n: u32,
    fuel: u64,
    strategy: &S,
) -> Result<Turn, CourseFault>
    requires standing { StandsSomewhere T.meaning walk.old }
    ensures count { length walk.new.threads.items ≡ length walk.old.threads.items }
    ensures memory { walk.new.memory ≡ walk.old.memory }
    ensures stage { walk.new.stage ≡ walk.old.stage }
    ensures settled { IfOk result (λ turn. SettlesWhereGoing T.meaning n walk.old turn walk.new) }
    ensures settles { IfOk result (λ turn. SettlesThread T.meaning walk.old.threads.items n turn walk.new.threads.items) }
    ensures gone { IfErr result (λ fault. fault ≡ faults.NoEntry → HasGoneIfFree T.meaning walk.old.stage n) }
    ensures kept { IfErr result (λ fault. fault ≡ faults.NoEntry → walk.new.threads.items ≡ walk.old.threads.items) }
    ensures over { IfErr result (λ fault. fault ≡ faults.GivenUp → S.may_end strategy.now) }
{
    if !walk.stage.is_going::<T>(n) {
        return Err(CourseFault::NoEntry);
    }
    match settle_at(&mut walk.threads, n as usize, fuel, strategy) {
        Some(turn) => Ok(turn),
        None => Err(CourseFault::GivenUp),
    }
}
