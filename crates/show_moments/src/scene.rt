//! What is told of a moment, by what is kept of it.

ghost use Rattle.std.specs.Prelude.{◌≡◌, ◌==◌, ◌<◌, ◌++◌, ◌∷◌, [], IfOk, OnOk, cond, length, option_to_list, flat_map, not, ◌||◌};
ghost use Rattle.std.specs.List.{list_any, slice_get};
ghost use Rattle.show_named.specs.Lasts.{IsLastIfAny};
ghost use Rattle.show_named.specs.declared.lasts.Act.TheVariants as acts;
ghost use Rattle.show_moments.specs.Scenes as specified;
ghost use Rattle.show_moments.specs.Scenes.{AreFunctions, AreThreads, AreValues, IsFunction, IsLastThere, IsNext, IsNextIfAny};
ghost use Rattle.show_moments.specs.Scenes.{IsNextOf, IsStanding, IsTarget, IsThread, IsTold, IsValue};

use crate::moment::Moment;
use crate::standing::{OpenFunction, ThreadSnapshot};
use crate::told::{Stance, ToldMoment, ToldNext, ToldThread};
use crate::values::{has_parts, is_pointer, is_signed, number_of};
use dwarf_frames::{CallFrame, FrameValue};
use interp::CodePlace;
use race_history::Race;
use selection::{NumberSpan, Spans, touched};
use shared_memory::Sleeper;
use show_named::{Act, DataMap, last_of};
use show_rows::{Shown, Story};
use show_text::Context;
use show_told::{ToldFunction, ToldNumber, ToldValue, TypedWord};
use show_waits::is_left_out;
use std::alloc::{AllocError, Global};
use types::{Entry, Event, MOST_THREADS, Question, ValType};
use validate::operand_types;
use validate_module::ValidModule;

/// What a moment is shown of: a record of a run of the module, and what a debug section says of its code and data.
#[derive(Clone, Copy)]
pub struct MomentView<'v, 'd, 'r, 'w, 'c, 'm, 'n, 'b> {
    pub valid: &'v ValidModule,
    pub shown: Shown<'r, 'w, 'c, 'm, 'n>,
    pub map: &'d DataMap<'b>,
    /// Whether locals and operands stand there as they are, also where functions are known by a debug section.
    pub is_raw: bool,
    /// The memory whose entries are left out, if some is.
    pub left_out: &'d Option<Spans>,
}

/// A moment, and what is known around it.
#[derive(Clone, Copy)]
pub struct Scene<'v, 's, 'e, 'a, 'd, 'r, 'w, 'c, 'm, 'n, 'b> {
    pub alloc: Global,
    pub view: MomentView<'v, 'd, 'r, 'w, 'c, 'm, 'n, 'b>,
    pub story: &'s Story,
    pub moment: &'e Moment<'a>,
}

/// Whether a thread is one of these sleepers.
fn sleeps(sleepers: &[Sleeper], thread: u32) -> bool
    ensures { result ≡ list_any (λ s. s.thread == thread) sleepers.now }
{
    sleepers.iter().any(|s| s.thread == thread)
}

/// With which entry another one races, if it is one of the two.
fn other_of(race: Race, at: usize) -> Option<usize>
    ensures { result ≡ specified.other_of at race }
{
    if race.first == at {
        return Some(race.second);
    }
    if race.second == at {
        return Some(race.first);
    }
    None
}

/// Puts an item behind the others, if there is one.
fn put_if_any<T: Drop>(items: &mut Vec<T>, item: Option<T>) -> Result<(), AllocError>
    ensures { OnOk result (items.new.items ≡ items.old.items ++ option_to_list item) }
{
    if let Some(item) = item {
        items.push(item)?;
    }
    Ok(())
}

/// Puts an item behind the others.
fn put<T: Drop>(items: &mut Vec<T>, item: T) -> Result<(), AllocError>
    ensures { OnOk result (items.new.items ≡ items.old.items ++ item ∷ []) }
{
    items.push(item)?;
    Ok(())
}

/// The type at a place, if there are so many.
fn type_at(types: &[ValType], place: usize) -> Option<ValType>
    ensures { result ≡ slice_get types.now place }
{
    types.get(place).copied()
}

/// The types, if there are any.
fn types_of(types: &Option<Vec<ValType>>) -> &[ValType]
    ensures { result.now ≡ specified.types_of types.now }
{
    match types {
        Some(types) => types.as_slice(),
        None => &[],
    }
}

/// Words with their types, where they are listed.
fn typed_words(
    alloc: Global,
    is_listed: bool,
    words: &[u64],
    types: &[ValType],
) -> Result<Vec<TypedWord>, AllocError>
    ensures { IfOk result (λ typed. typed.items ≡ cond is_listed (specified.typed_words words.now types.now) []) }
{
    let mut typed = Vec::new(alloc);
    if !is_listed {
        return Ok(typed);
    }
    for place in 0..words.len() {
        let word = TypedWord {
            of: type_at(types, place),
            word: words[place],
        };
        put(&mut typed, word)?;
    }
    Ok(typed)
}

impl<'c> Scene<'_, '_, '_, '_, '_, '_, '_, 'c, '_, '_, '_> {
    /// Whether a thread was spawned; thread 0 is there from the start.
    fn is_spawned(&self, thread: usize) -> bool
        ensures { result ≡ specified.is_spawned self.now.moment.now.queue thread }
    {
        match &self.moment.queue {
            Some(queue) => thread <= queue.args.len(),
            None => false,
        }
    }

    fn is_asleep(&self, thread: u32) -> bool
        ensures { result ≡ specified.is_asleep self.now.moment.now.queue thread }
    {
        match &self.moment.queue {
            Some(queue) => sleeps(&queue.sleepers, thread),
            None => false,
        }
    }

    /// What is told of this moment, whose entry is in these races.
    ///
    /// # Errors
    /// Where memory is refused.
    pub fn told(&self, races: &[Race]) -> Result<ToldMoment<'c>, AllocError>
        ensures { IfOk result (IsTold (specified.seen self.now) races.now) }
    {
        Ok(ToldMoment {
            threads: self.threads(MOST_THREADS)?,
            races: self.others(races)?,
        })
    }

    /// What the threads below a number come to that were spawned.
    fn threads(&self, count: usize) -> Result<Vec<ToldThread<'c>>, AllocError>
        ensures { IfOk result (λ threads. AreThreads (specified.seen self.now) count threads.items) }
    {
        let mut threads = Vec::new(self.alloc);
        for thread in 0..count {
            let told = self.thread(thread)?;
            put_if_any(&mut threads, told)?;
        }
        Ok(threads)
    }

    /// What a thread comes to, if it was spawned.
    fn thread(&self, thread: usize) -> Result<Option<ToldThread<'c>>, AllocError>
        ensures { IfOk result (IsThread (specified.seen self.now) thread) }
    {
        if !self.is_spawned(thread) {
            return Ok(None);
        }
        let next = self.next(thread)?;
        Ok(Some(ToldThread { thread, next }))
    }

    /// What it comes to, if it isn't gone.
    fn next(&self, thread: usize) -> Result<Option<ToldNext<'c>>, AllocError>
        ensures { IfOk result (IsNextIfAny (specified.seen self.now) thread) }
    {
        match self.next_of(thread) {
            Some(at) => Ok(Some(self.next_at(at)?)),
            None => Ok(None),
        }
    }

    /// The place of the thread's first entry from the moment on that isn't left out.
    fn next_of(&self, thread: usize) -> Option<usize>
        ensures { IsNextOf (specified.seen self.now) thread result }
    {
        let log = self.view.shown.record.log.as_slice();
        for place in self.moment.at..log.len() {
            if log[place].thread as usize != thread {
                continue;
            }
            if self.is_beside(place) {
                return Some(place);
            }
        }
        None
    }

    /// Whether the entry at a place isn't left out.
    fn is_beside(&self, at: usize) -> bool
        ensures { result ≡ specified.is_beside (specified.seen self.now) at }
    {
        let asked = self.asked_at(at);
        asked < self.moment.at || !self.touches_left_out(asked)
    }

    /// Whether the entry at a place touches memory that is left out.
    fn touches_left_out(&self, at: usize) -> bool
        ensures { result ≡ specified.touches_left_out self.now.view.left_out.now
            (slice_get self.now.view.shown.record.now.log at) }
    {
        match self.view.shown.record.log.as_slice().get(at) {
            Some(made) => is_left_out(self.view.left_out, made.event),
            None => false,
        }
    }

    /// Where the entry at a place was asked for: of an answer that is the place of its question, of another one its own.
    fn asked_at(&self, at: usize) -> usize
        ensures { result ≡ specified.asked_at (specified.seen self.now) at }
    {
        match self.story.context_at(at) {
            Context::Asked(_, asked) => asked,
            _ => at,
        }
    }

    /// What a thread comes to whose first entry from the moment on that isn't left out stands at this place.
    fn next_at(&self, at: usize) -> Result<ToldNext<'c>, AllocError>
        requires { at < length self.now.view.shown.record.now.log }
        ensures { IfOk result (IsNext (specified.seen self.now) at) }
    {
        let entry = &self.view.shown.record.log.as_slice()[at];
        let touched = self.touched_at(at);
        let functions = self.functions_if_any(self.moment.standing(entry))?;
        Ok(ToldNext {
            at,
            stance: self.stance_at(at, entry),
            touched,
            last: self.last_there(touched),
            functions,
        })
    }

    /// How a thread stands to its first entry that isn't left out.
    fn stance_at(&self, at: usize, entry: &Entry) -> Stance
        ensures { result ≡ specified.stance_at (specified.seen self.now) at entry.now.thread entry.now.event }
    {
        match entry.event {
            Event::Told(_) => self.owed(at, entry.thread),
            Event::Ask(Question::Leave) => Stance::Ends,
            _ => Stance::Wants,
        }
    }

    /// On what a thread sleeps whose answer stands at a place; or that it is owed that.
    fn owed(&self, at: usize, thread: u32) -> Stance
        ensures { result ≡ specified.owed (specified.is_asleep self.now.moment.now.queue thread)
            (slice_get self.now.story.now.contexts.items at) }
    {
        match (self.is_asleep(thread), self.story.contexts.get(at)) {
            (true, Some(Context::Asked(_, asked))) => Stance::Asleep(*asked),
            _ => Stance::Owed,
        }
    }

    /// The addresses of the bytes to which an entry comes, or to which the question came that it answers.
    fn touched_at(&self, at: usize) -> Option<NumberSpan>
        ensures { result ≡ specified.touched_at (specified.seen self.now) at }
    {
        let asked = self.asked_at(at);
        let entry = self.view.shown.record.log.as_slice().get(asked)?;
        touched(entry.event)
    }

    /// The last entry before the moment that wrote one of these bytes, if there are some.
    fn last_there(&self, touched: Option<NumberSpan>) -> Option<usize>
        ensures { IsLastThere (specified.seen self.now) touched result }
    {
        match touched {
            Some(addrs) => self.last_write(addrs),
            None => None,
        }
    }

    /// The last entry before the moment that wrote one of these bytes.
    fn last_write(&self, addrs: NumberSpan) -> Option<usize>
        ensures { IsLastIfAny (acts.Write addrs) self.now.view.shown.record.now.log self.now.moment.now.at result }
    {
        let log = self.view.shown.record.log.as_slice();
        last_of(log, self.moment.at, Act::Write(addrs))
    }

    /// The open functions of a thread that stands somewhere, the one that runs first.
    ///
    /// # Errors
    /// Where memory is refused.
    pub fn functions_if_any(
        &self,
        standing: Option<&ThreadSnapshot>,
    ) -> Result<Vec<ToldFunction<'c>>, AllocError>
        ensures { IfOk result (λ told. IsStanding (specified.seen self.now) (specified.standing_of standing.entry) told.items) }
    {
        match standing {
            Some(standing) => self.functions(standing),
            None => Ok(Vec::new(self.alloc)),
        }
    }

    /// The open functions of a thread, the one that runs first.
    fn functions(&self, standing: &ThreadSnapshot) -> Result<Vec<ToldFunction<'c>>, AllocError>
        ensures { IfOk result (λ told. AreFunctions (specified.seen self.now) standing.now
            (specified.depth standing.now) told.items) }
    {
        self.view.map.begin_stack();
        let mut functions = Vec::new(self.alloc);
        for number in (0..standing.depth()).rev() {
            let told = self.function(standing.open_function(number))?;
            put(&mut functions, told)?;
        }
        Ok(functions)
    }

    /// An open function, with the values of its frame. What it called has taken operands from the top, so that there may
    /// be fewer than before the call.
    fn function(&self, opened: OpenFunction) -> Result<ToldFunction<'c>, AllocError>
        ensures { IfOk result (IsFunction (specified.seen self.now) opened.entry) }
    {
        let CodePlace { function, instr } = opened.place;
        let code = self.view.shown.code;
        let frame = self
            .view
            .map
            .frame(self.alloc, code.named_offset(opened.place))?;
        let locals = self.view.valid.local_types(self.alloc, function)?;
        let operands = operand_types(self.alloc, self.view.valid, function, instr)?;
        let is_listed = self.is_listed(&frame);
        let locals = typed_words(self.alloc, is_listed, opened.locals, types_of(&locals))?;
        let operands = typed_words(self.alloc, is_listed, opened.operands, types_of(&operands))?;
        let values = self.values(opened, frame.values.as_slice())?;
        Ok(ToldFunction {
            spot: code.spot(opened.place),
            chain: frame.chain,
            locals,
            operands,
            around: code.around(opened.place),
            values,
        })
    }

    /// Whether locals and operands are listed as they are.
    fn is_listed(&self, frame: &CallFrame) -> bool
        ensures { result ≡ (self.now.view.is_raw || not frame.now.is_known) }
    {
        self.view.is_raw || !frame.is_known
    }

    /// The values of a frame that are numbers there, or have parts that aren't told.
    fn values(
        &self,
        opened: OpenFunction,
        values: &[FrameValue],
    ) -> Result<Vec<ToldValue>, AllocError>
        ensures { IfOk result (λ told. AreValues (specified.seen self.now) opened.entry values.now told.items) }
    {
        let mut all = Vec::new(self.alloc);
        for k in 0..values.len() {
            let told = self.value(opened, &values[k])?;
            put_if_any(&mut all, told)?;
        }
        Ok(all)
    }

    /// A value of a frame, if it is a number there; one with parts stands for those that aren't told.
    fn value(
        &self,
        opened: OpenFunction,
        value: &FrameValue,
    ) -> Result<Option<ToldValue>, AllocError>
        ensures { IfOk result (IsValue (specified.seen self.now) opened.entry value.now) }
    {
        if has_parts(value.kind) {
            return Ok(Some(ToldValue {
                label: String::from_str(self.alloc, value.label.as_str())?,
                number: None,
                target: None,
            }));
        }
        let Some(number) = number_of(opened, self.moment.memory.as_slice(), value) else {
            return Ok(None);
        };
        let target = self.target(value, number)?;
        let label = String::from_str(self.alloc, value.label.as_str())?;
        Ok(Some(ToldValue {
            label,
            number: Some(ToldNumber {
                is_signed: is_signed(value.kind),
                bits: value.bits,
                number,
            }),
            target,
        }))
    }

    /// The name of the static data to which a pointer points, if it does.
    fn target(&self, value: &FrameValue, number: u64) -> Result<Option<String>, AllocError>
        ensures { IfOk result (IsTarget (specified.seen self.now) value.now.kind number) }
    {
        if !is_pointer(value.kind) {
            return Ok(None);
        }
        self.view.map.name(self.alloc, number, value.target)
    }

    /// The entries with which that of this moment races.
    fn others(&self, races: &[Race]) -> Result<Vec<usize>, AllocError>
        ensures { IfOk result
            (λ others. others.items ≡ flat_map (specified.others_of self.now.moment.now.at) races.now) }
    {
        let mut others = Vec::new(self.alloc);
        for k in 0..races.len() {
            put_if_any(&mut others, other_of(races[k], self.moment.at))?;
        }
        Ok(others)
    }
}
