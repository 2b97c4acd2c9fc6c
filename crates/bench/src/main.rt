//! How long accesses of a shared memory and calls of its desk take.
//!
//! `memory`: threads make accesses over one shared memory. The further arguments are `locked` for the recorder or
//! `words` for the row of words; the change, `stores`, `swaps`, `adds`, `ands`, `ors` or `xors` of eight bytes, or
//! `narrow-adds` of four; where, `turns` (each thread on its own word, in turn with loads), `apart` (each on its own)
//! or `together` (all on one, and a lost try is made again); the number of threads, 1 to 64; and the number of accesses
//! in all, 1 to 1,000,000, over words to 100,000,000.
//!
//! `desk`: calls of a desk over one recorder. The further arguments are `alone` (one thread notifies where nobody is
//! asleep) or `turns` (two threads hand a turn to one another, by a wait, a store and a notify), and the number of
//! calls or of turns of each thread, 1 to 90,000.
//!
//! With the word `time` behind them it is printed how long all accesses take, or one call; of accesses also the sum of
//! the values read, modulo 2^64, so that no compiler leaves a value out.
#![tactic(auto)]

mod accesses;
mod desk;
mod memory;
mod plan;

use anyhow::{Context, Result};
use plan::{Plan, Shared};
use std::env;
use std::marker::Brand;
use types::{MOST_LIMIT, PAGE_SIZE};

/// A page of zeros.
const IMAGE: [u8; PAGE_SIZE] = [0; PAGE_SIZE];

const USAGE: &str =
    "bench memory locked|words CHANGE turns|apart|together THREADS ACCESSES [time], bench desk alone|turns TIMES [time]";

fn main(rt: HostRuntime) -> Result<()> {
    let alloc = rt.alloc();
    let words: Vec<String> = env::args(&rt)?.collect(alloc)?;
    match Plan::read(&words).context(USAGE)? {
        Plan::Memory(plan) => {
            let spent = match plan.shared {
                Shared::Locked => {
                    let prepared = locked_recorder::Prepared::new(alloc, &IMAGE, 1, MOST_LIMIT)?;
                    memory::over_recorder::<Brand, HostRuntime>(&rt, alloc, prepared, &plan)?
                }
                Shared::Words => {
                    let prepared = word_row::Prepared::new(alloc, &IMAGE, 1)?;
                    memory::over_words::<Brand, HostRuntime>(&rt, alloc, prepared, &plan)?
                }
            };
            let answered = u64::from(plan.accesses).saturating_sub(spent.unanswered);
            println!(rt; "accesses {answered} by {} threads", plan.threads)?;
            if plan.is_timed {
                println!(rt; "nanoseconds {}", spent.nanos)?;
                println!(rt; "sum {}", spent.sum)?;
            }
        }
        Plan::Desk(plan) => {
            let prepared = locked_recorder::Prepared::new(alloc, &IMAGE, 1, MOST_LIMIT)?;
            let spent = desk::run::<Brand, HostRuntime>(&rt, alloc, prepared, &plan)?;
            println!(rt; "entries {}", spent.entries)?;
            if plan.is_timed {
                let each = spent.nanos / u128::from(plan.times);
                println!(rt; "{each} nanoseconds each")?;
            }
        }
    }
    Ok(())
}
