//! An argument, and what the parser found of it.
ghost use Rattle.std.specs.Prelude.{◌≡◌, IfOk, IfSome};
ghost use Rattle.clap.specs.Words.{found_of};
ghost use Rattle.report_command.specs.Found.{AreRead, HasFlag, HasNumber, HasNumberIfAny, HasNumberOr, HasText};
ghost use Rattle.report_command.specs.Found.{HasTextIfAny, HasTexts, IsReadIfAny, IsWithin, IsWord, is_given, is_said};

use crate::kinds::ArgumentKind;
use crate::places::{ValueReader, values_in};
use crate::refusal::{CommandRefusal, WrongValue};
use clap::ArgMatches;
use clap::parser::ValueSource;
use std::alloc::{AllocError, Global};

/// An argument of commands.
#[derive(Clone, Copy)]
pub(crate) struct NamedArgument<'r> {
    /// What it is called. An option is written so, behind two dashes.
    pub name: &'r str,
    /// What help calls its value.
    pub value_name: &'r str,
    pub kind: ArgumentKind<'r>,
}

impl<'r> NamedArgument<'r> {
    /// Whether it has no value.
    pub(crate) fn is_flag(&self) -> bool {
        matches!(self.kind, ArgumentKind::Flag)
    }

    /// The refusal of a text that is none of its values.
    pub(crate) fn refusal(&self, text: &str) -> CommandRefusal<'r> {
        CommandRefusal::Value(WrongValue {
            name: self.name,
            value_name: self.value_name,
            complaint: self.kind.complaint(text),
        })
    }

    /// Whether it has a value.
    pub(crate) fn is_given(&self, matches: &ArgMatches) -> bool
        ensures { result ≡ is_given (found_of matches.now) self.now.name.now }
    {
        matches.get_str(self.name).is_some()
    }

    /// Whether the words give it a value.
    pub(crate) fn is_said(&self, matches: &ArgMatches) -> bool
        ensures { result ≡ is_said (found_of matches.now) self.now.name.now }
    {
        matches!(
            matches.value_source(self.name),
            Some(ValueSource::CommandLine)
        )
    }

    /// Its text, if it has one.
    pub(crate) fn text_if_any<'a>(&self, matches: &ArgMatches<'a>) -> Option<&'a str>
        ensures { HasTextIfAny (found_of matches.now) self.now.name.now result }
    {
        matches.get_str(self.name)
    }

    /// Its text.
    ///
    /// # Errors
    /// `Value` where it has none.
    pub(crate) fn text<'a>(&self, matches: &ArgMatches<'a>) -> Result<&'a str, CommandRefusal<'r>>
        ensures { IfOk result (HasText (found_of matches.now) self.now.name.now) }
    {
        match matches.get_str(self.name) {
            Some(text) => Ok(text),
            None => Err(self.refusal("")),
        }
    }

    /// All its texts.
    pub(crate) fn texts<'a>(
        &self,
        alloc: Global,
        matches: &ArgMatches<'a>,
    ) -> Result<Vec<&'a str>, AllocError>
        ensures { IfOk result (λ texts. HasTexts (found_of matches.now) self.now.name.now texts.items) }
    {
        match matches.get_strs(self.name) {
            Some(texts) => Vec::from_slice(alloc, texts),
            None => Ok(Vec::new(alloc)),
        }
    }

    /// Whether its text is this word.
    pub(crate) fn is_word(&self, matches: &ArgMatches, word: &str) -> bool
        ensures { IsWord (found_of matches.now) self.now.name.now word.now result }
    {
        matches.get_str(self.name) == Some(word)
    }

    /// Whether the flag is there.
    pub(crate) fn is_set(&self, matches: &ArgMatches) -> bool
        ensures { HasFlag (found_of matches.now) self.now.name.now result }
    {
        matches.get_flag(self.name)
    }

    /// Its number, which is in the range of its kind, if it has one.
    ///
    /// # Errors
    /// `Value` where what it has is no such number.
    pub(crate) fn number_if_any(
        &self,
        matches: &ArgMatches,
    ) -> Result<Option<u32>, CommandRefusal<'r>>
        ensures range { IfOk result (λ n. IfSome n (IsWithin self.now.kind)) }
        ensures found { IfOk result (HasNumberIfAny (found_of matches.now) self.now.name.now) }
    {
        match (self.kind, matches.try_get_one::<u32>(self.name)) {
            (_, Ok(None)) => Ok(None),
            (ArgumentKind::Number(least, most), Ok(Some(n))) if least <= n && n <= most => Ok(Some(
                n,
            )),
            _ => Err(self.refusal("")),
        }
    }

    /// Its number, which is in the range of its kind.
    ///
    /// # Errors
    /// `Value` where it has none.
    pub(crate) fn number(&self, matches: &ArgMatches) -> Result<u32, CommandRefusal<'r>>
        ensures range { IfOk result (IsWithin self.now.kind) }
        ensures found { IfOk result (HasNumber (found_of matches.now) self.now.name.now) }
    {
        match self.number_if_any(matches) {
            Ok(Some(n)) => Ok(n),
            _ => Err(self.refusal("")),
        }
    }

    /// Its number, or where it isn't there the other one.
    ///
    /// # Errors
    /// `Value` where what it has is no number in the range of its kind.
    pub(crate) fn number_or(
        &self,
        matches: &ArgMatches,
        other: u32,
    ) -> Result<u32, CommandRefusal<'r>>
        ensures range { IfOk result (λ n. IsWithin self.now.kind other → IsWithin self.now.kind n) }
        ensures found { IfOk result (HasNumberOr (found_of matches.now) self.now.name.now other) }
    {
        match self.number_if_any(matches)? {
            Some(n) => Ok(n),
            None => Ok(other),
        }
    }

    /// Its number of 64 bits, which is in the range of its kind.
    ///
    /// # Errors
    /// `Value` where it has none.
    pub(crate) fn long(&self, matches: &ArgMatches) -> Result<u64, CommandRefusal<'r>>
        ensures range { IfOk result (IsWithin self.now.kind) }
        ensures found { IfOk result (HasNumber (found_of matches.now) self.now.name.now) }
    {
        match (self.kind, matches.get_one::<u64>(self.name)) {
            (ArgumentKind::Long(least, most), Some(n)) if least <= n && n <= most => Ok(n),
            _ => Err(self.refusal("")),
        }
    }

    /// Its value as the reader has it, if it is there.
    ///
    /// # Errors
    /// `Value` where its text spells none.
    pub(crate) fn value<'a, R: ValueReader<'a>>(
        &self,
        matches: &ArgMatches<'a>,
    ) -> Result<Option<R::Value>, CommandRefusal<'r>>
        ensures { IfOk result (IsReadIfAny R.reads (found_of matches.now) self.now.name.now) }
    {
        let Some(text) = matches.get_str(self.name) else {
            return Ok(None);
        };
        match R::read(text) {
            Some(value) => Ok(Some(value)),
            None => Err(self.refusal(text)),
        }
    }

    /// Its values as the reader has them, one for each of its texts.
    ///
    /// # Errors
    /// `Value` where a text spells none, and `NoMemory`.
    pub(crate) fn values<'a, R: ValueReader<'a>>(
        &self,
        alloc: Global,
        matches: &ArgMatches<'a>,
    ) -> Result<Vec<R::Value>, CommandRefusal<'r>>
        ensures { IfOk result (λ all. AreRead R.reads (found_of matches.now) self.now.name.now all.items) }
    {
        let texts = self.texts(alloc, matches)?;
        match values_in::<R>(alloc, texts.as_slice())? {
            Some(values) => Ok(values),
            None => Err(self.refusal("")),
        }
    }
}
