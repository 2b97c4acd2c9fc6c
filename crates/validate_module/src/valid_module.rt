//! Valid modules.

ghost use Rattle.std.specs.Prelude.{◌≡◌, ◌↔◌, ℕ, ◌<◌, length, Some, None, IsTrue, IfOk};
ghost use Rattle.std.specs.List.{slice_get};
ghost use Rattle.types.specs.Modules.{IsModule};
ghost use Rattle.types.specs.declared.limits.TheConstants.{MOST_PAGES};
ghost use Rattle.validate_typing.specs.Context.{imported_functions, memories_of};
ghost use Rattle.validate_typing.specs.Image.{opening_image, opening_pages, pages_max_of};
ghost use Rattle.validate_typing.specs.Tabled.{IsValidated};
ghost use Rattle.validate_typing.specs.Flattening.{AreAllFlat};
ghost use Rattle.validate_module_rules.specs.Exported.{IsExported};
ghost use Rattle.validate_module_rules.specs.Spaces.{FindsAs};
ghost use Rattle.validate_module.specs.Pages.{HasPagesWithin};
ghost use Rattle.validate_module.specs.Own.{FindsLocals, FindsTarget, FindsTypeAs};

use crate::image::opening_image;
use crate::own::{func_type, local_types};
use std::alloc::{AllocError, Global};
use std::marker::Model;
use types::{Body, FuncType, Limits, MOST_PAGES, Module, Parts, Sequence, ValType};
use validate_module_rules::exported_function;
use validate_typing::{Flat, Table, Target};

/// What is found out about a valid module.
#[derive(Drop)]
pub struct Findings {
    /// The table of branches of each body, in order.
    pub tables: Vec<Table>,
    /// The flat instructions of each body, in order.
    pub flats: Vec<Sequence<Flat>>,
    /// How many functions are imported.
    pub imported: usize,
    /// The memory, imported or not.
    pub memory: Option<Limits>,
}

/// A valid module with the table of branches of each body. In contracts it is the module's parts and the tables' rows.
///
/// What it holds lies behind one `Box`, so that whoever owns it lets go of one thing.
#[derive(Drop)]
pub struct ValidModule {
    checked: Box<Checked>,
}

/// A module, and what was found of it.
#[derive(Drop)]
struct Checked {
    module: Module,
    findings: Findings,
}

impl Model for ValidModule {
    ghost use Rattle.std.specs.Prelude.{◌≡◌, length};
    ghost use Rattle.std.specs.List.{slice_get};
    ghost use Rattle.validate_typing.specs.Context.{imported_functions, memories_of};
    ghost use Rattle.validate_typing.specs.Tabled.{WithTables, IsValidated};
    ghost use Rattle.validate_typing.specs.Flattening.{AreAllFlat};

    ghost Value = { WithTables };

    ghost view = { λ v. record { parts = v.checked.value.module; tables = v.checked.value.findings.tables.items } };

    ghost invariant = { λ v. IsValidated
        (record { parts = v.checked.value.module; tables = v.checked.value.findings.tables.items })
        × (v.checked.value.findings.imported ≡ length (imported_functions v.checked.value.module))
        × (v.checked.value.findings.memory ≡ slice_get (memories_of v.checked.value.module) 0)
        × AreAllFlat v.checked.value.module.bodies v.checked.value.findings.tables.items
        v.checked.value.findings.flats.items };
}

impl ValidModule {
    /// The valid module that this module is, with what was found out about it. `validate` makes it so.
    ///
    /// # Errors
    /// Where memory is refused.
    pub fn new(alloc: Global, module: Module, findings: Findings) -> Result<ValidModule, AllocError>
        requires validated { IsValidated (record { parts = «module»; tables = findings.tables.items }) }
        requires imported { findings.imported ≡ length (imported_functions «module») }
        requires memory { findings.memory ≡ slice_get (memories_of «module») 0 }
        requires flats { AreAllFlat («module»).bodies findings.tables.items findings.flats.items }
        ensures { IfOk result (λ v. v ≡ record { parts = «module»; tables = findings.tables.items }) }
    {
        let checked = Box::new(alloc, Checked { module, findings })?;
        Ok(ValidModule { checked })
    }

    /// The module's parts.
    pub fn parts(&self) -> &Parts
        ensures parts { result.now ≡ self.now.parts }
        ensures validated { IsValidated self.now }
        ensures tested { IsModule self.now.parts }
    {
        self.checked.module.parts()
    }

    /// The opening bytes of the memory: its pages of zeros, with the data segments written over them in order.
    #[tactic(auto, using(crate::proofs::ImageLaws::segments_within))]
    pub fn image(&self, alloc: Global) -> Result<Vec<u8>, AllocError>
        ensures { IfOk result (λ image. image.items ≡ opening_image self.now.parts) }
    {
        opening_image(alloc, self.opening_pages(), self.parts().data.as_slice())
    }

    /// The pages of the opening memory, 0 without a memory.
    pub fn opening_pages(&self) -> u32
        ensures { result ≡ opening_pages self.now.parts }
    {
        match self.checked.findings.memory {
            Some(memory) => memory.min,
            None => 0,
        }
    }

    /// The most pages that the memory may have: 256 where none are stated, 0 without a memory.
    pub fn pages_max(&self) -> u32
        ensures { result ≡ pages_max_of MOST_PAGES self.now.parts }
    {
        self.pages_max_within(MOST_PAGES)
    }

    /// The most pages that the memory may have: `most` where none are stated, 0 without a memory.
    pub fn pages_max_within(&self, most: u32) -> u32
        ensures { result ≡ pages_max_of most self.now.parts }
    {
        match self.checked.findings.memory {
            Some(memory) => memory.max.unwrap_or(most),
            None => 0,
        }
    }

    /// Whether the memory's pages at first, and its maximum if one is stated, are at most so many.
    pub fn has_pages_within(&self, most: u32) -> bool
        ensures { IsTrue result ↔ HasPagesWithin most self.now.parts }
    {
        match self.checked.findings.memory {
            Some(memory) => memory.min <= most && memory.max.unwrap_or(memory.min) <= most,
            None => true,
        }
    }

    /// How many functions are imported: 0, or more where `thread-spawn` is.
    pub fn imported_functions(&self) -> usize
        ensures { result ≡ length (imported_functions self.now.parts) }
    {
        self.checked.findings.imported
    }

    /// Whether the module can start threads: it imports `thread-spawn`.
    pub fn starts_threads(&self) -> bool
        ensures { IsTrue result ↔ 0 < length (imported_functions self.now.parts) }
    {
        self.checked.findings.imported > 0
    }

    /// The tables of branches of all bodies, in order.
    pub fn tables(&self) -> &[Table]
        ensures { result.now ≡ self.now.tables }
    {
        self.checked.findings.tables.as_slice()
    }

    /// The table of branches of a function's body; functions of the module itself, from 0.
    pub fn table(&self, own: usize) -> Option<&Table>
        ensures { FindsAs (slice_get self.now.tables own) result (λ table. table.now) }
    {
        self.checked.findings.tables.get(own)
    }

    /// Where a branch of an instruction leads. `function` counts imported functions, `instruction` the instructions of
    /// its body and `which` the targets of the instruction, each from 0. None where there is no such target, as of an
    /// imported function.
    pub fn target(&self, function: usize, instruction: usize, which: usize) -> Option<Target>
        ensures own { FindsTarget self.now function instruction which result }
        ensures imported { function < length (imported_functions self.now.parts) → result ≡ None }
    {
        let own = function.checked_sub(self.imported_functions())?;
        self.table(own)?.target(instruction, which)
    }

    /// The flat instructions of each body, in order.
    pub fn flats(&self) -> &[Sequence<Flat>]
        ensures { AreAllFlat self.now.parts.bodies self.now.tables result.now }
    {
        &self.checked.findings.flats
    }

    /// A function's body; functions of the module itself, from 0.
    pub fn body(&self, own: usize) -> Option<&Body>
        ensures { FindsAs (slice_get self.now.parts.bodies own) result (λ body. body.now) }
    {
        self.parts().bodies.as_slice().get(own)
    }

    /// A function's type; functions of the module itself, from 0.
    pub fn func_type(&self, own: usize) -> Option<&FuncType>
        ensures { FindsTypeAs self.now.parts own result (λ t. t.now) }
    {
        let parts = self.parts();
        if own < parts.functions.len() {
            Some(func_type(parts, own))
        } else {
            None
        }
    }

    /// The types of a function's locals, the parameters first (Core specification 1.0, section 3.4.1); functions of the
    /// module itself, from 0. `None` where there is no such function.
    ///
    /// # Errors
    /// Where memory is refused.
    pub fn local_types(&self, alloc: Global, own: usize) -> Result<Option<Vec<ValType>>, AllocError>
        ensures { IfOk result (FindsLocals self.now.parts own) }
    {
        local_types(alloc, self.parts(), own)
    }

    /// The function of the module itself, from 0, that is exported by a name. None where no export has the name, or
    /// what it names isn't a function of the module itself.
    pub fn exported(&self, name: &str) -> Option<usize>
        ensures { (own : ℕ) → (result ≡ Some own) ↔ IsExported self.now.parts name.now own }
    {
        exported_function(self.parts(), self.imported_functions(), name)
    }
}
