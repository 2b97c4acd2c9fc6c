//! Types as C writes them.

use dwarf_data::dimensions;
use dwarf_units::{Tag, Units};
use show_places::short_name;
use std::alloc::{AllocError, Global};
use std::fmt::Write;

/// The most types on the way to a name.
const MOST_TYPES: u32 = 64;

/// The most bytes behind that name.
const MOST_BEHIND: usize = 1024;

/// The words of a type from the inside out: what stands behind the name of the type that it is made of, and the words in
/// front of that name.
#[derive(Drop)]
struct Declarator {
    /// Behind the name, as ` *` or ` (*)[3]`.
    behind: String,
    /// In front of it, as `const `.
    front: String,
    /// Whether what is behind begins with a `*`.
    is_pointer: bool,
}

impl Declarator {
    /// What points to the type.
    fn point(&mut self, alloc: Global) -> Result<(), AllocError> {
        let (front, behind) = (self.front.trim_end(), &self.behind);
        self.behind = format!(in alloc; "*{front}{behind}")?;
        self.front = String::new(alloc);
        self.is_pointer = true;
        Ok(())
    }

    /// In front of what is behind the name of an array's or a function's type.
    fn enclose(&mut self, alloc: Global) -> Result<(), AllocError> {
        if self.is_pointer {
            let behind = &self.behind;
            self.behind = format!(in alloc; "({behind})")?;
        }
        self.is_pointer = false;
        Ok(())
    }

    /// What has a qualifier.
    fn qualify(&mut self, word: &str) -> Result<(), AllocError> {
        self.front.push_str(word)?;
        self.front.push(' ')
    }

    /// An array's numbers of elements, behind the name.
    fn array(&mut self, alloc: Global, units: &Units, array: usize) -> Result<(), AllocError> {
        self.enclose(alloc)?;
        for count in &dimensions(alloc, units, array)? {
            match *count {
                Some(count) => write!(self.behind, "[{count}]")?,
                None => self.behind.push_str("[]")?,
            }
        }
        Ok(())
    }

    /// All words, with the name of the type that it is made of.
    fn finish(self, kind: &str, name: &str) -> Result<String, AllocError> {
        let mut words = self.front;
        words.push_str(kind)?;
        words.push_str(name)?;
        if !self.behind.is_empty() && !self.behind.starts_with('[') {
            words.push(' ')?;
        }
        words.push_str(self.behind.as_str())?;
        Ok(words)
    }
}

/// A word of C in front of a type's name.
fn kind_word(tag: Tag) -> &'static str {
    match tag {
        Tag::StructureType => "struct ",
        Tag::UnionType => "union ",
        Tag::EnumerationType => "enum ",
        _ => "",
    }
}

/// A type as C writes it, as `struct node *` or `int (*)[3]`; `void` where there is none. A structure without a name is
/// `struct`. None where its way to a name is too long, or what stands behind that.
pub fn type_words(
    alloc: Global,
    units: &Units,
    its_type: Option<usize>,
) -> Result<Option<String>, AllocError> {
    let mut next = its_type;
    let mut declarator = Declarator {
        behind: String::new(alloc),
        front: String::new(alloc),
        is_pointer: false,
    };
    for _ in 0..MOST_TYPES {
        let Some(this) = next else {
            return Ok(Some(declarator.finish("", "void")?));
        };
        match units.tag(this) {
            Tag::PointerType => declarator.point(alloc)?,
            Tag::ConstType => declarator.qualify("const")?,
            Tag::VolatileType => declarator.qualify("volatile")?,
            Tag::RestrictType => declarator.qualify("restrict")?,
            Tag::AtomicType => declarator.qualify("_Atomic")?,
            Tag::ArrayType => declarator.array(alloc, units, this)?,
            Tag::SubroutineType => {
                declarator.enclose(alloc)?;
                declarator.behind.push_str("()")?;
            }
            tag => {
                let name = short_name(alloc, units.name(this).unwrap_or(""))?;
                return Ok(Some(declarator.finish(kind_word(tag), name.as_str())?));
            }
        }
        if declarator.behind.len() > MOST_BEHIND || declarator.front.len() > MOST_BEHIND {
            break;
        }
        next = units.type_of(this);
    }
    Ok(None)
}
