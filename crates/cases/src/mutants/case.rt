//! One case: the fronts of a module, changed modules, and changed records of its run.

use crate::mutants::changes::{Numbers, change};
use crate::mutants::trials::{Called, Over, module_is_right, record_is_right, run};
use std::sync::Wait;
use std::thread::Threads;
use test_cases::{Case, Stop, Tally, read_file};

/// A module with the title of its case, what is called in it, and how often it is changed.
#[derive(Clone, Copy)]
struct Example<'a> {
    title: &'a str,
    module: &'a [u8],
    called: Called<'a>,
    times: u64,
}

/// What is changed: the bytes of the module, or those of a record of its run.
#[derive(Clone, Copy)]
enum Changed<'a> {
    Module(&'a [u8]),
    Record(&'a [u8]),
}

/// How many came to which status.
#[derive(Drop)]
struct Counts {
    counts: [u64; 6],
}

impl Counts {
    fn new() -> Counts {
        Counts { counts: [0; 6] }
    }

    /// Counts bytes that came to a status. Prints those that came to none.
    fn add(
        &mut self,
        rt: &HostRuntime,
        title: &str,
        status: Option<u8>,
        bytes: &[u8],
        tally: &mut Tally,
    ) {
        tally.add(status.is_some());
        match status {
            Some(status) => {
                if let Some(count) = self.counts.get_mut(status as usize) {
                    *count = count.saturating_add(1);
                }
            }
            None => {
                let _ = println!(rt; "{title}: no end that there is: {bytes:?}");
            }
        }
    }
}

/// Tries each front of a module.
fn try_fronts<R: Threads + Wait + Sync>(
    rt: &HostRuntime,
    threads: &R,
    example: Example,
    tally: &mut Tally,
) -> Result<Counts, Stop> {
    let mut counts = Counts::new();
    for length in 0..example.module.len() {
        let front = &example.module[..length];
        let status = module_is_right(threads, rt.alloc(), front, example.called)?;
        counts.add(rt, example.title, status, front, tally);
    }
    Ok(counts)
}

/// Tries changed bytes.
fn try_changed<R: Threads + Wait + Sync>(
    rt: &HostRuntime,
    threads: &R,
    example: Example,
    changed: Changed,
    numbers: &mut Numbers,
    tally: &mut Tally,
) -> Result<Counts, Stop> {
    let mut counts = Counts::new();
    let (Changed::Module(whole) | Changed::Record(whole)) = changed;
    for _ in 0..example.times {
        let mut bytes = Vec::from_slice(rt.alloc(), whole)?;
        change(numbers, &mut bytes)?;
        let status = match changed {
            Changed::Module(_) => module_is_right(threads, rt.alloc(), &bytes, example.called)?,
            Changed::Record(_) => record_is_right(threads, rt.alloc(), example.module, &bytes),
        };
        counts.add(rt, example.title, status, &bytes, tally);
    }
    Ok(counts)
}

/// The number behind a key, 0 without one.
fn number_of(case: &Case, key: &str) -> u64 {
    match case.get(key) {
        Some(text) => text.parse::<u64>().unwrap_or(0),
        None => 0,
    }
}

/// Tries fronts, changed modules and changed records, and says how many came to which status.
fn try_example<R: Threads + Wait + Sync>(
    rt: &HostRuntime,
    threads: &R,
    example: Example,
    seed: u64,
    tally: &mut Tally,
) -> Result<(), Stop> {
    let mut numbers = Numbers::new(seed);
    let fronts = try_fronts(rt, threads, example, tally)?.counts;
    let whole = example.module;
    let modules = try_changed(
        rt,
        threads,
        example,
        Changed::Module(whole),
        &mut numbers,
        tally,
    )?
    .counts;
    let ran = run(threads, rt.alloc(), whole, example.called, Over::Recorder)?;
    let records = try_changed(
        rt,
        threads,
        example,
        Changed::Record(&ran.streams.save),
        &mut numbers,
        tally,
    )?
    .counts;
    let title = example.title;
    let _ = eprintln!(rt;
        "{title}, by status: fronts {fronts:?}, modules {modules:?}, records {records:?}"
    );
    Ok(())
}

/// Tries each front of the module of a case, and so many changed modules and records as it says. Counts them, and
/// prints the bytes that came to no end that there is.
///
/// # Errors
/// Where memory is refused, the module can't be read, or the case names none, or no function.
pub(crate) fn try_case<R: Threads + Wait + Sync>(
    rt: &HostRuntime,
    threads: &R,
    case: &Case,
    tally: &mut Tally,
) -> Result<(), Stop> {
    let (Some(file), Some(name)) = (case.get("module"), case.get("invoke")) else {
        return Err(Stop::Unread);
    };
    let module = read_file(rt, file)?;
    let example = Example {
        title: case.title,
        module: &module,
        called: Called {
            name,
            arg: case.get("arg"),
        },
        times: number_of(case, "times"),
    };
    try_example(rt, threads, example, number_of(case, "seed"), tally)
}
