//! The opening of a row, up to its name.
ghost use Rattle.std.specs.Prelude.{◌≡◌, ◌↔◌, ◌<◌, ◌≤◌, ◌%◌, ◌^◌, true, false, IfOk, OnOk, IsErrOf, All, take, drop};
ghost use Rattle.std.specs.Prelude.{vec_capacity, vec_len};
ghost use Rattle.shared_memory.specs.Numbers.{le_number};
ghost use Rattle.shared_memory_sequential.specs.Opening.{can_open, IsSized};
ghost use Rattle.word_row.specs.Words.{words_of, IsStored};

use crate::Board;
use shared_memory_on_table::TableSeat;
use shared_memory_sequential::{OneMemory, OpenFault};
use std::alloc::{AllocError, Global};
use std::marker::Model;
use types::{Event, Reply};

/// The words of a page: a page has 65,536 bytes, and a word eight.
const PAGE_WORDS: usize = 8192;

// Shows that each byte is one.
fn show_bytes(bytes: &[u8])
    ensures { All (λ byte. byte < 256) bytes.now }
{}

// Shows that an open memory can stand in words.
fn show_stored(memory: &OneMemory)
    ensures { IsStored memory.now }
{
    show_bytes(memory.bytes());
}

/// The number of the eight bytes at the address of a word; past the end of the memory it is zero.
fn word_at(memory: &mut OneMemory, addr: u64) -> u64
    requires aligned { addr % 8 ≡ 0 }
    requires near { addr < 2 ^ 32 }
    requires sized { IsSized memory.old }
    ensures word { result ≡ le_number (take 8 (drop addr memory.old.bytes)) }
    ensures same { memory.new ≡ memory.old }
{
    let load = Event::Load {
        addr,
        width: 8,
        reach: addr + 8,
    };
    match memory.step(&load) {
        Reply::Value(word) => word,
        _ => 0,
    }
}

/// The words that stand for a memory.
fn words(alloc: Global, memory: &mut OneMemory) -> Result<Vec<u64>, AllocError>
    ensures words { IfOk result (λ v. v.items ≡ words_of memory.old) }
    ensures room { IfOk result (λ v. vec_capacity v ≡ vec_len v) }
    ensures same { memory.new ≡ memory.old }
    ensures stored { IsStored memory.old }
{
    show_stored(memory);
    let count = PAGE_WORDS * memory.max() as usize;
    let mut words = Vec::with_capacity(alloc, count + 1)?;
    words.push_reserved(u64::from(memory.pages()));
    for k in 0..count {
        words.push_reserved(word_at(memory, 8 * k as u64));
    }
    Ok(words)
}

/// A row that has no name yet. Contracts see by what it is to be named: its table, and the memory before any entry.
#[derive(Drop)]
pub struct Prepared {
    pub(crate) board: Board,
    pub(crate) all: TableSeat,
    pub(crate) pages_max: u32,
}

impl Model for Prepared {
    ghost use Rattle.shared_memory_on_table.specs.Names.{MemoryName};
    ghost use Rattle.word_row.specs.Rows.{IsPrepared};

    ghost Value = { MemoryName };

    ghost view = { λ p. record { table = p.board.shared.table_id; opening = p.board.shared.key; limit = 0 } };

    ghost invariant = { λ p. IsPrepared p.board.shared.table_id p.board.shared.key p.all.table_id p.all.me
        p.pages_max };
}

impl Prepared {
    /// Prepares a row over a memory of these bytes and at most `max` pages: one word for each eight bytes of the
    /// maximum, and one for the page count. All that later calls need is reserved here and by `WordRow::open`.
    ///
    /// # Errors
    /// `PastLimit` exactly where the image isn't whole pages of 65,536 bytes or passes `max` pages, or `max` passes
    /// 256; otherwise `NoMemory` where the room can't be had.
    pub fn new(alloc: Global, image: &[u8], max: u32) -> Result<Prepared, OpenFault>
        ensures opened { IfOk result (λ p. p.opening ≡ record { bytes = image.now; max = max }) }
        ensures within { OnOk result (can_open image.now max ≡ true) }
        ensures past_limit { IsErrOf result OpenFault.PastLimit ↔ (can_open image.now max ≡ false) }
    {
        let mut memory = OneMemory::open(alloc, image, max)?;
        let Ok(words) = words(alloc, &mut memory) else {
            return Err(OpenFault::NoMemory);
        };
        let Ok((board, all)) = Board::of_words(alloc, &words, &memory) else {
            return Err(OpenFault::NoMemory);
        };
        Ok(Prepared {
            board,
            all,
            pages_max: max,
        })
    }
}
