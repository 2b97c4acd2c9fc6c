//! Searches by the program: what comes of one is decided here, and told by a `Teller` in the form that is asked for.
ghost use Rattle.std.specs.Prelude.{◌≡◌, ◌≤◌, IfOk, IfErr, IfSome, None, Some, true, false, is_some};
ghost use Rattle.types.specs.declared.parts.Parts.{Parts};
ghost use Rattle.report_command.specs.Searches.{IsSearchInRange};
ghost use Rattle.report_jobs.specs.Asked.{IsAskedBy};
ghost use Rattle.report_jobs.specs.Prints.{changed};
ghost use Rattle.report_jobs.specs.Silence.{Stays};
ghost use Rattle.report_jobs.specs.Troubles.{IsTroubleOf};
ghost use Rattle.report_telling.specs.Drawn.{cut_in};
ghost use Rattle.report_telling.specs.Racing.{CanTell, IsRacedIn, SaysRaced};
ghost use Rattle.report_telling.specs.Troubles.{IsOfSystem};
ghost use Rattle.report_telling.specs.Telling.{EndsAll, InLines};
ghost use Rattle.report_telling.specs.NoneFound.{IsStatusOfTable};
ghost use Rattle.report_finds.specs.Found.{KeepsFound};
ghost use Rattle.report_finds.specs.Racing.{IsRacedOf, IsWhole, KeepsRaced, keeps_race, racing_in};
ghost use Rattle.report.specs.Rest.{TellsRestOn};
ghost use Rattle.report.specs.Searched.{IsDrawnOn, IsGoneThroughOn, IsSearchedOn, IsSettledOn, settles};
ghost use Rattle.report.specs.Silent.{IfRefusedCall, LeavesOthers};
ghost use Rattle.report.specs.Told as specified;
ghost use Rattle.report.specs.Told.{TellsNoneFound};

use crate::asked::SearchRequest;
use report_command::{Form, Search};
use report_finds::{
    FirstLook, SearchedCall, behind_of, first_look, keep_found, keep_made, keep_raced,
    kept_if_found, kept_of, kept_race, raced_of, whole_of,
};
use report_jobs::{Advised, Done, LeftOut, Streams, Trouble, args_of, keep, request_of};
use report_json::{FoundAs, RunRaces};
use report_telling::{
    Conclusion, DrawnTable, FoundRun, LinesTeller, News, NoneFound, ObjectTeller, Raced, Teller,
    ToldSearch, WholeSearch, status_of_none,
};
use search_endings::Ending;
use search_finds::{Crew, EndingTable, Halt, Hears, SearchResult, first_found, first_judged};
use search_modules::Hands;
use search_races::RaceJudge;
use search_reach::Verdict;
use std::alloc::Global;
use std::io::Write;
use std::thread::{self, Threads};

/// What goes through every order of entries: so many threads as are asked for, and depth first one alone, with so many
/// states at most.
#[derive(Drop)]
struct Orders<'a, R> {
    hands: Hands<'a, R>,
    most: u32,
}

/// Notes what is advised of threads that ended so.
fn advise(advised: &mut Advised, ending: &Ending) {
    for outcome in ending.outcomes() {
        advised.note(*outcome);
    }
}

/// What is advised of the endings of all runs.
fn advised_of(whole: &WholeSearch) -> Advised {
    let mut advised = Advised::none();
    for ending in whole.all.endings.as_slice() {
        advise(&mut advised, ending);
    }
    advised
}

/// What is advised of the endings of drawn runs.
fn advised_of_table(table: &EndingTable) -> Advised {
    let mut advised = Advised::none();
    for met in table.met.as_slice() {
        advise(&mut advised, &met.ending);
    }
    advised
}

/// Tells the race that a first look at all runs found, if it found one, and keeps the record of it, where one is
/// wanted.
fn tell_race<T: Teller, W: Write, E, S: Write>(
    alloc: Global,
    teller: &T,
    call: SearchedCall,
    raced: &Raced,
    streams: &mut Streams<W, E, S>,
) -> Result<(), Trouble>
    requires { CanTell raced.now }
    ensures tells { IsRacedIn call.entry.request.now.parts raced.now
        → IfOk result (λ _. InLines T.form (changed W.contents streams.old.out streams.new.out)
        (SaysRaced call.entry.request.now.parts raced.now)) }
    ensures kept { IfOk result
        (λ _. KeepsRaced call.entry.search.now raced.now (changed S.contents streams.old.save streams.new.save)) }
    ensures unkept { keeps_race call.entry.search.now ≡ false → Stays streams.old.save streams.new.save }
    ensures others { LeavesOthers call.entry.search.now streams.old streams.new }
    ensures trouble { IfErr result IsOfSystem }
{
    let Streams { out, save, .. } = streams;
    teller.tell(alloc, News::Race(raced), out)?;
    keep_raced(call.search, raced, save)?;
    Ok(())
}

/// The race that a first look at all runs found, if it found one, once it is told, and the record of it kept, where one
/// is wanted.
fn race_told<'a, T: Teller, W: Write, E, S: Write>(
    alloc: Global,
    teller: &T,
    call: SearchedCall<'a>,
    look: &FirstLook,
    streams: &mut Streams<W, E, S>,
) -> Result<Raced<'a, 'a>, Trouble>
    ensures raced { IfOk result
        (IsRacedOf call.entry.request.now call.entry.search.now call.entry.allowed (racing_in look.now)) }
    ensures tells { IfOk result (λ raced. InLines T.form (changed W.contents streams.old.out streams.new.out)
        (SaysRaced call.entry.request.now.parts raced)) }
    ensures kept { IfOk result
        (λ raced. KeepsRaced call.entry.search.now raced (changed S.contents streams.old.save streams.new.save)) }
    ensures unkept { keeps_race call.entry.search.now ≡ false → Stays streams.old.save streams.new.save }
    ensures others { LeavesOthers call.entry.search.now streams.old streams.new }
    ensures trouble { IfErr result IsOfSystem }
{
    let raced = raced_of(alloc, call, look)?;
    tell_race(alloc, teller, call, &raced, streams)?;
    Ok(raced)
}

/// Tells the rest of what was found in every order, and keeps the record of it, where one is wanted.
fn end_orders<T: Teller, W: Write, S: Write>(
    alloc: Global,
    teller: &T,
    search: &Search,
    told: ToldSearch,
    out: &mut W,
    save: &mut S,
) -> Result<(), Trouble>
    requires { CanTell told.raced.now }
    ensures tells { (m : Parts) → IsRacedIn m told.entry.raced.now
        → IfOk result (λ _. EndsAll T.form m told.entry (changed W.contents out.old out.new)) }
    ensures kept { IfOk result
        (λ _. KeepsFound search.now told.entry.kept.now (changed S.contents save.old save.new)) }
    ensures unwanted { is_some search.now.save ≡ false → Stays save.old save.new }
    ensures trouble { IfErr result IsOfSystem }
{
    teller.conclude(alloc, Conclusion::Orders(told), out)?;
    keep_found(search, told.kept, save)?;
    Ok(())
}

/// What all orders came to: what was found of all runs, with so many states at most, and what is told of a race of one.
#[derive(Drop)]
pub(crate) struct OrdersMet<'m> {
    whole: WholeSearch,
    raced: Raced<'m, 'm>,
    most: u32,
}

/// Tells what was found of all runs behind a race: the endings, whether these are all, what is known of races, what
/// never ends, and what is looked for; and keeps the record of that, where one is wanted. Answers the status.
fn tell_orders<T: Teller, W: Write, E, S: Write, F: Hears>(
    alloc: Global,
    teller: &T,
    call: SearchedCall,
    met: &OrdersMet,
    streams: &mut Streams<W, E, S>,
    follower: &mut F,
) -> Result<Done, Trouble>
    requires { CanTell met.now.raced }
    ensures tells { IfOk result (λ done. TellsRestOn T.form W.contents S.contents call.entry.request.now
        call.entry.search.now met.now streams.old streams.new done.status) }
    ensures others { LeavesOthers call.entry.search.now streams.old streams.new }
    ensures trouble { IfErr result IsOfSystem }
{
    let Streams { out, save, .. } = streams;
    let OrdersMet { whole, raced, most } = met;
    let most = *most;
    let search = call.search;
    teller.tell(alloc, News::Orders(whole, most), out)?;
    let behind = behind_of(alloc, call, whole)?;
    let status = behind.status;
    teller.tell(alloc, News::Behind(&behind.found), out)?;
    let kept = kept_if_found(alloc, call, behind.found, follower)?;
    let told = ToldSearch {
        whole,
        raced,
        kept: &kept,
        most,
        status,
        dump: search.sought.dump,
    };
    end_orders(alloc, teller, search, told, out, save)?;
    Ok(Done {
        status,
        advised: advised_of(whole),
        is_bare: false,
        left_out: LeftOut::Nothing,
        is_unsettled: false,
    })
}

/// Goes through all runs of a call: where no threads race by the orders that matter then, and else through every order
/// of their entries. Tells what that comes to, a race first, and keeps the records, where they are wanted. Answers the
/// status.
fn search_orders<T: Teller, R: Threads + Sync, W: Write, E, S: Write, F: Hears>(
    alloc: Global,
    teller: &T,
    call: SearchedCall,
    orders: &Orders<R>,
    streams: &mut Streams<W, E, S>,
    follower: &mut F,
) -> Result<Done, Trouble>
    requires form { T.form ≡ call.search.now.form }
    requires asked { IsAskedBy call.search.now.call call.request.now }
    requires every_order { call.search.now.all ≡ Some orders.now.most }
    ensures searched { IfOk result (λ done. IsGoneThroughOn W.contents S.contents orders.now.most
        call.entry.request.now.parts call.entry.search.now call.entry.allowed streams.old streams.new done.status) }
    ensures others { LeavesOthers call.entry.search.now streams.old streams.new }
    ensures trouble { IfErr result IsOfSystem }
{
    let Orders { hands, most } = orders;
    let most = *most;
    let look = first_look(alloc, call, hands, most, follower)?;
    follower.end();
    let raced = race_told(alloc, teller, call, &look, streams)?;
    let whole = whole_of(alloc, call, most, look, follower)?;
    follower.end();
    let met = OrdersMet { whole, raced, most };
    tell_orders(alloc, teller, call, &met, streams, follower)
}

/// What all runs of a call come to, and what is to be told of a race, before anything is.
fn orders_met<'a, R: Threads + Sync, F: Hears>(
    alloc: Global,
    call: SearchedCall<'a>,
    orders: &Orders<R>,
    follower: &mut F,
) -> Result<(WholeSearch, Raced<'a, 'a>), Trouble>
    ensures whole { IfOk result
        (λ met. IsWhole call.entry.request.now call.entry.search.now call.entry.allowed met.0) }
    ensures raced { IfOk result
        (λ met. IsRacedOf call.entry.request.now call.entry.search.now call.entry.allowed met.0.racing met.1) }
{
    let Orders { hands, most } = orders;
    let look = first_look(alloc, call, hands, *most, follower)?;
    follower.end();
    let raced = raced_of(alloc, call, &look)?;
    let whole = whole_of(alloc, call, *most, look, follower)?;
    follower.end();
    Ok((whole, raced))
}

/// Whether a search with this verdict settled all.
fn settles(verdict: Verdict) -> bool
    ensures { result ≡ settles verdict }
{
    match verdict {
        Verdict::All | Verdict::Sought => true,
        Verdict::TooMany | Verdict::CannotTell | Verdict::Told => false,
    }
}

/// Goes through all runs of a call as `search_orders` does, and tells what that comes to where it settles all. Answers
/// the status; none where it doesn't, or where memory was refused before anything was told.
fn settled_orders<T: Teller, R: Threads + Sync, W: Write, E, S: Write, F: Hears>(
    alloc: Global,
    teller: &T,
    call: SearchedCall,
    orders: &Orders<R>,
    streams: &mut Streams<W, E, S>,
    follower: &mut F,
) -> Result<Option<Done>, Trouble>
    requires form { T.form ≡ call.search.now.form }
    requires asked { IsAskedBy call.search.now.call call.request.now }
    requires every_order { call.search.now.all ≡ Some orders.now.most }
    ensures settled { IfOk result (λ o. IfSome o (λ done. IsSettledOn W.contents S.contents orders.now.most
        call.entry.request.now.parts call.entry.search.now call.entry.allowed streams.old streams.new done.status)) }
    ensures unsettled { IfOk result (λ o. o ≡ None → (W.contents streams.new.out ≡ W.contents streams.old.out)
        × (S.contents streams.new.save ≡ S.contents streams.old.save)) }
    ensures others { LeavesOthers call.entry.search.now streams.old streams.new }
    ensures trouble { IfErr result IsOfSystem }
{
    let found = match orders_met(alloc, call, orders, follower) {
        Ok(found) => found,
        Err(_) => return Ok(None),
    };
    let (whole, raced) = found;
    if settles(whole.all.verdict) {
        let met = OrdersMet {
            whole,
            raced,
            most: orders.most,
        };
        tell_race(alloc, teller, call, &met.raced, streams)?;
        let done = tell_orders(alloc, teller, call, &met, streams, follower)?;
        return Ok(Some(done));
    }
    Ok(None)
}

/// Whether the search was told to end.
fn was_told(halt: &Halt) -> bool
    ensures { result ≡ specified.was_told halt.now }
{
    matches!(halt, Halt::Told)
}

/// Tells that none of drawn runs was found, and answers the status: 0 where all is well, and else 1.
fn end_without<T: Teller, W: Write>(
    alloc: Global,
    teller: &T,
    drawn: DrawnTable,
    races: Option<RunRaces<'static>>,
    halt: &Halt,
    out: &mut W,
) -> Result<Done, Trouble>
    requires { cut_in drawn.table.now ≤ drawn.table.now.runs }
    ensures tells { (m : Parts) → IfOk result (λ done. TellsNoneFound T.form drawn.entry races.entry halt.now
        done.status (changed W.contents out.old out.new)) }
    ensures status { IfOk result (λ done. IsStatusOfTable drawn.entry.sought.now drawn.entry.table.now done.status) }
    ensures trouble { IfErr result IsOfSystem }
{
    let status = status_of_none(alloc, drawn)?;
    let none = NoneFound {
        races,
        is_told: was_told(halt),
        status,
    };
    teller.conclude(alloc, Conclusion::None(drawn, none), out)?;
    Ok(Done {
        status,
        advised: advised_of_table(drawn.table),
        is_bare: false,
        left_out: LeftOut::Nothing,
        is_unsettled: false,
    })
}

/// Makes the runs that a search asks for, tells the table of their endings, and the run that was found, or that none
/// was; and keeps the record of what was found, where one is wanted. Answers the status: 1 where a run was found or an
/// ending has a trap or a stop, and else 0.
fn search_for_endings<T: Teller, R: Threads + Sync, W: Write, E, S: Write, F: Hears>(
    alloc: Global,
    teller: &T,
    call: SearchedCall,
    hands: &Hands<R>,
    streams: &mut Streams<W, E, S>,
    follower: &mut F,
) -> Result<Done, Trouble>
    requires form { T.form ≡ call.search.now.form }
    requires range { IsSearchInRange call.search.now }
    requires asked { IsAskedBy call.search.now.call call.request.now }
    requires raceless { call.search.now.races ≡ false }
    ensures searched { IfOk result (λ done. IsDrawnOn W.contents S.contents call.entry.request.now.parts
        call.entry.search.now call.entry.allowed streams.old streams.new done.status) }
    ensures others { LeavesOthers call.entry.search.now streams.old streams.new }
    ensures trouble { IfErr result IsOfSystem }
{
    let Streams { out, save, .. } = streams;
    let SearchedCall {
        request,
        search,
        ..
    } = call;
    let sought = &search.sought;
    let Hands { rt, jobs } = *hands;
    let crew = Crew { rt, jobs };
    let searched = match first_found(&crew, alloc, request, sought, follower) {
        Ok(searched) => searched,
        Err(_) => return Err(Trouble::NoMemory),
    };
    let SearchResult { table, halt } = searched;
    follower.end();
    let drawn = DrawnTable {
        sought,
        table: &table,
    };
    teller.tell(alloc, News::Table(drawn), out)?;
    match halt {
        Halt::Found(found) => {
            teller.tell(alloc, News::Run(found.run), out)?;
            let run = FoundRun {
                found_as: FoundAs::Run(found.run),
                made: Some(found.made),
            };
            let kept = kept_of(alloc, call, run, follower)?;
            teller.conclude(alloc, Conclusion::Last(drawn, &kept), out)?;
            keep_made(search, &kept.made, save)?;
            Ok(Done {
                status: 1,
                advised: advised_of_table(&table),
                is_bare: false,
                left_out: LeftOut::Nothing,
                is_unsettled: false,
            })
        }
        halt => end_without(alloc, teller, drawn, None, &halt, out),
    }
}

/// The same up to the first run with a race: tells that and its race, or that none has one.
fn search_for_races<T: Teller, R: Threads + Sync, W: Write, E, S: Write, F: Hears>(
    alloc: Global,
    teller: &T,
    call: SearchedCall,
    hands: &Hands<R>,
    streams: &mut Streams<W, E, S>,
    follower: &mut F,
) -> Result<Done, Trouble>
    requires form { T.form ≡ call.search.now.form }
    requires range { IsSearchInRange call.search.now }
    requires asked { IsAskedBy call.search.now.call call.request.now }
    requires races { call.search.now.races ≡ true }
    ensures searched { IfOk result (λ done. IsDrawnOn W.contents S.contents call.entry.request.now.parts
        call.entry.search.now call.entry.allowed streams.old streams.new done.status) }
    ensures others { LeavesOthers call.entry.search.now streams.old streams.new }
    ensures trouble { IfErr result IsOfSystem }
{
    let Streams { out, save, .. } = streams;
    let SearchedCall {
        request,
        search,
        allowed,
        ..
    } = call;
    let sought = &search.sought;
    let Hands { rt, jobs } = *hands;
    let crew = Crew { rt, jobs };
    let judge = RaceJudge { allowed };
    let searched = match first_judged(&crew, alloc, request, sought, &judge, follower) {
        Ok(searched) => searched,
        Err(_) => return Err(Trouble::NoMemory),
    };
    let SearchResult { table, halt } = searched;
    follower.end();
    let drawn = DrawnTable {
        sought,
        table: &table,
    };
    teller.tell(alloc, News::Table(drawn), out)?;
    match halt {
        Halt::Found(found) => {
            teller.tell(alloc, News::Run(found.run), out)?;
            let kept = kept_race(alloc, call, found, follower)?;
            teller.conclude(alloc, Conclusion::Racy(drawn, &kept), out)?;
            keep(&kept.racy.made.record, search.save.is_some(), save)?;
            Ok(Done {
                status: 1,
                advised: advised_of_table(&table),
                is_bare: false,
                left_out: LeftOut::Nothing,
                is_unsettled: false,
            })
        }
        halt => {
            let races = Some(RunRaces::Unknown);
            end_without(alloc, teller, drawn, races, &halt, out)
        }
    }
}

/// Draws runs of a call, for one with a race, where that is asked for, or for one that ends so.
fn search_drawn<T: Teller, R: Threads + Sync, W: Write, E, S: Write, F: Hears>(
    alloc: Global,
    teller: &T,
    call: SearchedCall,
    hands: &Hands<R>,
    streams: &mut Streams<W, E, S>,
    follower: &mut F,
) -> Result<Done, Trouble>
    requires form { T.form ≡ call.search.now.form }
    requires range { IsSearchInRange call.search.now }
    requires asked { IsAskedBy call.search.now.call call.request.now }
    ensures searched { IfOk result (λ done. IsDrawnOn W.contents S.contents call.entry.request.now.parts
        call.entry.search.now call.entry.allowed streams.old streams.new done.status) }
    ensures others { LeavesOthers call.entry.search.now streams.old streams.new }
    ensures trouble { IfErr result IsOfSystem }
{
    if call.search.races {
        search_for_races(alloc, teller, call, hands, streams, follower)
    } else {
        search_for_endings(alloc, teller, call, hands, streams, follower)
    }
}

/// Goes through every order of entries of a call first, and draws runs where that settles not all.
fn search_first<T: Teller, R: Threads + Sync, W: Write, E, S: Write, F: Hears>(
    alloc: Global,
    teller: &T,
    call: SearchedCall,
    orders: &Orders<R>,
    streams: &mut Streams<W, E, S>,
    follower: &mut F,
) -> Result<Done, Trouble>
    requires form { T.form ≡ call.search.now.form }
    requires range { IsSearchInRange call.search.now }
    requires asked { IsAskedBy call.search.now.call call.request.now }
    requires every_order { call.search.now.all ≡ Some orders.now.most }
    requires first { call.search.now.first ≡ true }
    ensures searched { IfOk result (λ done. IsSearchedOn W.contents S.contents call.entry.request.now.parts
        call.entry.search.now call.entry.allowed streams.old streams.new done.status) }
    ensures others { LeavesOthers call.entry.search.now streams.old streams.new }
    ensures trouble { IfErr result IsOfSystem }
{
    match settled_orders(alloc, teller, call, orders, streams, follower)? {
        Some(done) => Ok(done),
        None => {
            let done = search_drawn(alloc, teller, call, &orders.hands, streams, follower)?;
            Ok(Done {
                is_unsettled: true,
                ..done
            })
        }
    }
}

/// Searches through runs of a call that can be made: through every order of entries, or through drawn runs, or through
/// these behind those.
fn search_call<T: Teller, R: Threads + Sync, W: Write, E, S: Write, F: Hears>(
    rt: &R,
    alloc: Global,
    teller: &T,
    call: SearchedCall,
    streams: &mut Streams<W, E, S>,
    follower: &mut F,
) -> Result<Done, Trouble>
    requires form { T.form ≡ call.search.now.form }
    requires range { IsSearchInRange call.search.now }
    requires asked { IsAskedBy call.search.now.call call.request.now }
    ensures searched { IfOk result (λ done. IsSearchedOn W.contents S.contents call.entry.request.now.parts
        call.entry.search.now call.entry.allowed streams.old streams.new done.status) }
    ensures others { LeavesOthers call.entry.search.now streams.old streams.new }
    ensures trouble { IfErr result IsOfSystem }
{
    let search = call.search;
    let jobs = match search.jobs {
        Some(jobs) => jobs as usize,
        None => thread::available_parallelism(rt).map_or(1, |count| count.get()),
    };
    match search.all {
        Some(most) => {
            let jobs = if search.deep { 1 } else { jobs };
            let orders = Orders {
                hands: Hands { rt, jobs },
                most,
            };
            if search.first {
                search_first(alloc, teller, call, &orders, streams, follower)
            } else {
                search_orders(alloc, teller, call, &orders, streams, follower)
            }
        }
        None => search_drawn(alloc, teller, call, &Hands { rt, jobs }, streams, follower),
    }
}

/// Searches as is asked for: through drawn runs, or through every order of entries; and prints lines or an object.
/// Answers the status.
pub fn search_module<R: Threads + Sync, W: Write, E, S: Write, F: Hears>(
    rt: &R,
    alloc: Global,
    asked: SearchRequest,
    streams: &mut Streams<W, E, S>,
    follower: &mut F,
) -> Result<Done, Trouble>
    requires { IsSearchInRange asked.search.now }
    ensures searched { IfOk result (λ done. IsSearchedOn W.contents S.contents asked.entry.«module».now.parts
        asked.entry.search.now asked.entry.allowed streams.old streams.new done.status) }
    ensures trouble { IfErr result (IsTroubleOf asked.entry.«module».now.parts asked.entry.search.now.call) }
    ensures silent { IfErr result (λ e. IfRefusedCall e
        (Stays streams.old.out streams.new.out × Stays streams.old.save streams.new.save)) }
    ensures others { LeavesOthers asked.entry.search.now streams.old streams.new }
{
    let SearchRequest {
        module,
        code,
        search,
        allowed,
    } = asked;
    let args = args_of(alloc, module, &search.call)?;
    let request = request_of(module, &search.call, &args);
    let call = SearchedCall {
        request: &request,
        code,
        search,
        allowed,
    };
    match search.form {
        Form::Lines => search_call(rt, alloc, &LinesTeller, call, streams, follower),
        Form::Json => search_call(rt, alloc, &ObjectTeller, call, streams, follower),
    }
}
