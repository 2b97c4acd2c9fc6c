//! What is found of all runs of a call: first whether any has a race, by fewer orders, and where that leaves something
//! open by every order of their entries. Both end at an ending that is looked for, where one is to.
ghost use Rattle.std.specs.Prelude.{◌≡◌, false, true, IfOk, IfErr};
ghost use Rattle.search_reach.specs.Levels.{IsLeveled};
ghost use Rattle.report_telling.specs.Troubles.{IsOfSystem};
ghost use Rattle.report_finds.specs.Early.{SaysSought, ends_early};
ghost use Rattle.report_finds.specs.Complete.{IsCompleteOf};
ghost use Rattle.report_finds.specs.Racing as specified;
ghost use Rattle.report_finds.specs.Racing.{IsLooked, IsWhole};

use crate::call::SearchedCall;
use report_command::Search;
use report_jobs::Trouble;
use report_telling::{Complete, Racing, WholeSearch};
use search_endings::Ending;
use search_finds::is_looked_for;
use search_modules::{Hands, RaceFree, all_endings, race_free_endings};
use search_reach::{Follows, SearchOrder, SearchPlan, Seeks, Verdict};
use selection::{Find, Sought};
use std::alloc::{AllocError, Global};
use std::thread::Threads;

/// What a first look at all runs came to.
#[derive(Drop)]
pub enum FirstLook {
    /// Nothing more is to be looked for: this was found, by the orders that matter where no threads race.
    Done {
        all: Complete,
        /// Whether a thread waits with a timeout in some run.
        timed: bool,
    },
    /// Every order is to be gone through; what is known of races, and where one is, the way to it.
    Open {
        racing: Racing,
        way: Vec<usize>,
    },
}

/// What a search that looks for races knows of them where it found none.
fn racing_by(verdict: Verdict, timed: bool) -> Racing
    ensures { result ≡ specified.racing_by verdict timed }
{
    match verdict {
        Verdict::All => {
            if timed {
                Racing::OnlyBehindTimeouts
            } else {
                Racing::Never
            }
        }
        Verdict::TooMany | Verdict::CannotTell | Verdict::Told | Verdict::Sought => {
            Racing::Unknown
        }
    }
}

/// In which order the states are gone on from.
fn order_of(search: &Search) -> SearchOrder
    ensures { result ≡ specified.order_by search.now.deep }
{
    if search.deep {
        SearchOrder::Depth
    } else {
        SearchOrder::Breadth
    }
}

/// Looks for the endings that are looked for, where a search is to end at one.
#[derive(Clone, Copy)]
struct Early<'a> {
    sought: &'a Sought<'a>,
    is_wanted: bool,
}

impl Seeks<Ending> for Early<'_> {
    ghost use Rattle.report_finds.specs.Early.{IsSoughtBy};

    ghost sought = { IsSoughtBy };

    fn seeks_any(&self) -> bool {
        self.is_wanted
    }

    fn is_sought(&self, alloc: Global, ending: &Ending) -> Result<bool, AllocError> {
        if !self.is_wanted {
            return Ok(false);
        }
        is_looked_for(alloc, self.sought, ending)
    }
}

/// Which endings a search through all runs ends at: the first that is looked for, where it is said by words or by a
/// result which that is. Where races are looked for, at none.
fn early_of<'a>(search: &'a Search) -> Early<'a>
    ensures sought { result.sought.now ≡ search.now.sought }
    ensures wanted { result.is_wanted ≡ ends_early search.now }
{
    let target = search.sought.target;
    let says = target.expect.is_some() || matches!(target.find, Find::Words(_));
    Early {
        sought: &search.sought,
        is_wanted: !search.races && says,
    }
}

/// Looks at all runs of a call by the orders that matter where no threads race, unless every order is asked for. It
/// ends at an ending that is looked for, where it says so. Where more states were met than may be, or the search was
/// told to end, nothing is left open: every order has as many; nor where it ended at what is looked for.
pub fn first_look<R: Threads + Sync, F: Follows>(
    alloc: Global,
    call: SearchedCall,
    hands: &Hands<'_, R>,
    most: u32,
    follower: &mut F,
) -> Result<FirstLook, Trouble>
    ensures looked { IfOk result (IsLooked call.entry.request.now call.entry.search.now call.entry.allowed) }
    ensures trouble { IfErr result IsOfSystem }
{
    let SearchedCall {
        request,
        search,
        allowed,
        ..
    } = call;
    if search.every_order {
        return Ok(FirstLook::Open {
            racing: Racing::Unasked,
            way: Vec::new(alloc),
        });
    }
    let plan = SearchPlan {
        order: order_of(search),
        most,
        sought: early_of(search),
    };
    let dump = search.sought.dump as usize;
    let free = race_free_endings(alloc, request, &allowed, hands, &plan, dump, follower)?;
    let RaceFree {
        mut ended,
        race,
        way,
        timed,
    } = free;
    if let Some(race) = race {
        return Ok(FirstLook::Open {
            racing: Racing::Found(race),
            way,
        });
    }
    if let Verdict::CannotTell = ended.verdict {
        return Ok(FirstLook::Open {
            racing: Racing::Unknown,
            way,
        });
    }
    ended.levels = None;
    Ok(FirstLook::Done { all: ended, timed })
}

/// Goes through every order of the entries of a call, and ends at an ending that is looked for, where it says so.
fn all_of<F: Follows>(
    alloc: Global,
    call: SearchedCall,
    most: u32,
    follower: &mut F,
) -> Result<Complete, Trouble>
    ensures complete { IfOk result (IsCompleteOf call.entry.request.now call.entry.search.now.sought.dump) }
    ensures sought { IfOk result (λ r. SaysSought call.entry.search.now r.verdict r.endings.keys) }
    ensures leveled { IfOk result
        (λ r. IsLeveled (specified.order_by call.entry.search.now.deep) r.levels (r.states ≡ 0)) }
    ensures trouble { IfErr result IsOfSystem }
{
    let SearchedCall {
        request,
        search,
        ..
    } = call;
    let plan = SearchPlan {
        order: order_of(search),
        most,
        sought: early_of(search),
    };
    let dump = search.sought.dump as usize;
    Ok(all_endings(alloc, request, &plan, dump, follower)?)
}

/// What is found of all runs of a call behind that first look.
pub fn whole_of<F: Follows>(
    alloc: Global,
    call: SearchedCall,
    most: u32,
    look: FirstLook,
    follower: &mut F,
) -> Result<WholeSearch, Trouble>
    requires { IsLooked call.request.now call.search.now call.allowed look }
    ensures whole { IfOk result (IsWhole call.entry.request.now call.entry.search.now call.entry.allowed) }
    ensures racing { IfOk result (λ w. w.racing ≡ specified.racing_in look) }
    ensures trouble { IfErr result IsOfSystem }
{
    match look {
        FirstLook::Done { all, timed } => {
            let racing = racing_by(all.verdict, timed);
            Ok(WholeSearch {
                all,
                racing,
                is_free: true,
            })
        }
        FirstLook::Open { racing, .. } => {
            let all = all_of(alloc, call, most, follower)?;
            Ok(WholeSearch {
                all,
                racing,
                is_free: false,
            })
        }
    }
}
