//! An entry in words.

ghost use Rattle.std.specs.Prelude.{◌≡◌, ◌*◌};
ghost use Rattle.std.specs.Fmt.{WritesOnOk};
ghost use Rattle.show_text.specs.Words as specified;
ghost use Rattle.show_text.specs.Words.{load_text, store_text, stored_text, exchanged_text, rmw_text};

use crate::asks::{write_answer, write_question};
use crate::context::Context;
use crate::number::NumberForm;
use crate::woken::Wake;
use std::fmt::{self, Formatter, Write};
use types::{Entry, Event, Outcome, Reply, RmwOp};

/// An entry in words: what its thread does, and what that comes to.
#[derive(Clone, Copy)]
pub struct Words<'a> {
    pub entry: Entry,
    pub context: Context,
    /// Whether an access is atomic; a read-modify-write always is.
    pub is_atomic: bool,
    /// Whether the bytes are data of a signed integer type, so that their numbers have a sign.
    pub is_signed: bool,
    /// The number in the bytes of a store before it.
    pub before: Option<u64>,
    /// Whom a notify woke.
    pub woken: &'a [Wake],
    /// How a thread that leaves has ended.
    pub outcome: Option<Outcome>,
}

impl fmt::Display for Words<'_> {
    ghost use Rattle.std.specs.Prelude.{Some};
    ghost use Rattle.show_text.specs.Words.{words_text};

    ghost output = { λ w. Some (words_text w) };

    fn fmt<W: Write>(&self, f: &mut Formatter<W>) -> fmt::Result {
        let reply = self.entry.reply;
        match self.entry.event {
            Event::Size => {
                let size = Number::plain(reply);
                write!(f, "size = {size}")
            }
            Event::Grow(more) => {
                let before = Grown(reply);
                write!(f, "grow +{more} = {before}")
            }
            Event::Load { addr, width, .. } => self.write_load(f, addr, width),
            Event::Store {
                addr,
                width,
                value,
                ..
            } => self.write_store(f, addr, width, value),
            Event::Rmw {
                op,
                addr,
                width,
                value,
            } => self.write_rmw(f, op, addr, width, value),
            Event::Cmpxchg {
                addr,
                width,
                expected,
                replacement,
            } => {
                let (bits, form) = (AccessBits(width), self.form(width));
                let (found, new) = (form.of(expected), form.of(replacement));
                write!(f, "cmpxchg{bits} {addr} {found} -> {new}")?;
                write_exchanged(f, form, reply, expected)
            }
            Event::Ask(question) => write_question(f, question, self),
            Event::Told(answer) => write_answer(f, answer, self.context),
        }
    }
}

impl Words<'_> {
    /// How its numbers of so many bytes are told.
    pub(crate) fn form(&self, width: u8) -> NumberForm
        ensures { result ≡ specified.form_of self.now width }
    {
        NumberForm {
            width,
            is_signed: self.is_signed,
        }
    }

    fn write_rmw<W: Write>(
        &self,
        f: &mut Formatter<W>,
        op: RmwOp,
        addr: u64,
        width: u8,
        value: u64,
    ) -> fmt::Result
        ensures { WritesOnOk W.write_str_gives f.old result (rmw_text self.now op addr width value) f.new }
    {
        let (name, bits, form) = (op_name(op), AccessBits(width), self.form(width));
        let (sign, operand) = (op_sign(op, form.is_negative(value)), form.of(value));
        let got = Number {
            reply: self.entry.reply,
            form,
        };
        write!(f, "{name}{bits} {addr} {sign}{operand} = {got}")
    }

    fn write_load<W: Write>(&self, f: &mut Formatter<W>, addr: u64, width: u8) -> fmt::Result
        ensures { WritesOnOk W.write_str_gives f.old result (load_text self.now addr width) f.new }
    {
        let (atomic, bits) = (atomic_word(self.is_atomic), bits_of(width));
        let got = Number {
            reply: self.entry.reply,
            form: self.form(width),
        };
        write!(f, "{atomic}load{bits} {addr} = {got}")
    }

    fn write_store<W: Write>(
        &self,
        f: &mut Formatter<W>,
        addr: u64,
        width: u8,
        value: u64,
    ) -> fmt::Result
        ensures { WritesOnOk W.write_str_gives f.old result (store_text self.now addr width value) f.new }
    {
        let (atomic, bits) = (atomic_word(self.is_atomic), bits_of(width));
        let form = self.form(width);
        let new = form.of(value);
        write!(f, "{atomic}store{bits} {addr} <- {new}")?;
        write_stored(f, form, self.entry.reply, self.before)
    }
}

/// What a store got, and what it overwrote.
fn write_stored<W: Write>(
    f: &mut Formatter<W>,
    form: NumberForm,
    reply: Reply,
    before: Option<u64>,
) -> fmt::Result
    ensures { WritesOnOk W.write_str_gives f.old result (stored_text form reply before) f.new }
{
    match (reply, before) {
        (Reply::OutOfBounds, _) => f.write_str(": out of bounds"),
        (_, Some(before)) => {
            let before = form.of(before);
            write!(f, " (had {before})")
        }
        (_, None) => Ok(()),
    }
}

/// What an access is called that is atomic.
fn atomic_word(is_atomic: bool) -> &'static str
    ensures { result.now ≡ specified.atomic_text is_atomic }
{
    if is_atomic { "atomic " } else { "" }
}

fn bits_of(width: u8) -> u32
    ensures { result ≡ width * 8 }
{
    u32::from(width) * 8
}

/// The number in a reply, as it is told.
#[derive(Clone, Copy)]
struct Number {
    reply: Reply,
    form: NumberForm,
}

impl Number {
    /// One that is no data's.
    fn plain(reply: Reply) -> Number
        ensures { result ≡ record { reply = reply; form = specified.plain_form } }
    {
        Number {
            reply,
            form: NumberForm {
                width: 4,
                is_signed: false,
            },
        }
    }
}

impl fmt::Display for Number {
    ghost use Rattle.std.specs.Prelude.{Some};
    ghost use Rattle.show_text.specs.Words.{reply_text};

    ghost output = { λ n. Some (reply_text n.form n.reply) };

    fn fmt<W: Write>(&self, f: &mut Formatter<W>) -> fmt::Result {
        match self.reply {
            Reply::Value(number) => self.form.of(number).fmt(f),
            Reply::Done => f.write_str("done"),
            Reply::OutOfBounds => f.write_str("out of bounds"),
            Reply::Again => f.write_str("again"),
            Reply::Full => f.write_str("full"),
        }
    }
}

/// The pages before a memory grew.
#[derive(Clone, Copy)]
struct Grown(Reply);

impl fmt::Display for Grown {
    ghost use Rattle.std.specs.Prelude.{Some};
    ghost use Rattle.show_text.specs.Words.{grown_text};

    ghost output = { λ n. Some (grown_text n.0) };

    fn fmt<W: Write>(&self, f: &mut Formatter<W>) -> fmt::Result {
        match self.0 {
            Reply::Value(4_294_967_295) => f.write_str("refused"),
            reply => Number::plain(reply).fmt(f),
        }
    }
}

/// How many bits are accessed, where they aren't 32.
#[derive(Clone, Copy)]
struct AccessBits(u8);

impl fmt::Display for AccessBits {
    ghost use Rattle.std.specs.Prelude.{Some};
    ghost use Rattle.show_text.specs.Words.{bits_text};

    ghost output = { λ n. Some (bits_text n.0) };

    fn fmt<W: Write>(&self, f: &mut Formatter<W>) -> fmt::Result {
        if self.0 == 4 {
            return Ok(());
        }
        let bits = bits_of(self.0);
        write!(f, "{bits}")
    }
}

fn op_name(op: RmwOp) -> &'static str
    ensures { result.now ≡ specified.op_name op }
{
    match op {
        RmwOp::Add => "add",
        RmwOp::Sub => "sub",
        RmwOp::And => "and",
        RmwOp::Or => "or",
        RmwOp::Xor => "xor",
        RmwOp::Xchg => "xchg",
    }
}

/// What stands before the operand; of an addition nothing where that begins with a minus.
fn op_sign(op: RmwOp, is_negative: bool) -> &'static str
    ensures { result.now ≡ specified.op_sign op is_negative }
{
    match op {
        RmwOp::Add if is_negative => "",
        RmwOp::Add => "+",
        RmwOp::Sub if is_negative => "- ",
        RmwOp::Sub => "-",
        RmwOp::And => "& ",
        RmwOp::Or => "| ",
        RmwOp::Xor => "^ ",
        RmwOp::Xchg => "<- ",
    }
}

fn write_exchanged<W: Write>(
    f: &mut Formatter<W>,
    form: NumberForm,
    reply: Reply,
    expected: u64,
) -> fmt::Result
    ensures { WritesOnOk W.write_str_gives f.old result (exchanged_text form reply expected) f.new }
{
    match reply {
        Reply::Value(loaded) if loaded == expected => Ok(()),
        Reply::Value(loaded) => {
            let loaded = form.of(loaded);
            write!(f, ": has {loaded}")
        }
        _ => f.write_str(": out of bounds"),
    }
}
