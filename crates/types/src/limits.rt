//! The limits of modules and runs, each in one word, for code and for definitions and contracts, which cite these
//! constants. They are this project's own (Core specification 1.0, appendix 7.2, leaves them to an implementation), but
//! for the size of a page (section 4.2.8).

/// Bytes of a page (Core specification 1.0, section 4.2.8).
pub const PAGE_SIZE: usize = 65_536;

/// Pages of a memory, at first and at most.
pub const MOST_PAGES: u32 = 256;

/// Threads of a run: thread 0, and those that it spawns.
pub const MOST_THREADS: usize = 64;

/// Threads that a run spawns.
pub const MOST_SPAWNED: usize = 63;

/// The name of the desk's seat, behind those of the threads' seats.
pub const DESK_NAME: u32 = 64;

/// Seats of a memory: one for each thread, and the desk's.
pub const SEATS: u32 = 65;

/// Entries that a log takes past its limit: three for each thread.
pub const PAST_LIMIT: usize = 192;

/// The greatest limit of a log, in entries.
pub const MOST_LIMIT: u32 = 1_000_000;

/// The greatest budget of a thread, in units.
pub const MOST_FUEL: u64 = 1_000_000_000_000;

/// Values on a stack, the locals of all open functions counted.
pub const MOST_VALUES: usize = 65_536;

/// Functions that a thread may have open.
pub const MOST_FRAMES: usize = 1_000;

/// Bytes of a module.
pub const MOST_MODULE_BYTES: usize = 1_048_576;

/// Bytes of a body, by its stated size.
pub const MOST_BODY_BYTES: u32 = 65_536;

/// Items of a section other than those of functions and code.
pub const MOST_ITEMS: usize = 1_000;

/// Functions with imported ones, and functions of one element segment.
pub const MOST_FUNCTIONS: usize = 10_000;

/// Elements of a table at first.
pub const MOST_ELEMENTS: u32 = 10_000;

/// Parameters or results of one type.
pub const MOST_PARAMS: usize = 1_000;

/// Locals with parameters.
pub const MOST_LOCALS: usize = 1_000;

/// Nested blocks in one body or constant expression.
pub const MOST_NESTED: usize = 255;

const _: () = prove!(SEATS as usize == MOST_THREADS + 1 && MOST_SPAWNED == MOST_THREADS - 1);

const _: () = prove!(DESK_NAME as usize == MOST_THREADS && PAST_LIMIT == 3 * MOST_THREADS);
