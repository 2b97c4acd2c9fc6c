//! The parts of a module, section by section.
ghost use Rattle.std.specs.Prelude.{◌≡◌, IfOk};

use crate::copied::{Copied, all_copied, plain_copied};
use std::alloc::{AllocError, Global};
use types::{Body, ElementSegment, Export, FuncType, Import};

impl Copied for FuncType {
    fn copied(&self, alloc: Global) -> Result<FuncType, AllocError> {
        Ok(FuncType {
            params: plain_copied(alloc, &self.params)?,
            results: plain_copied(alloc, &self.results)?,
        })
    }
}

impl Copied for Import {
    fn copied(&self, alloc: Global) -> Result<Import, AllocError> {
        Ok(Import {
            module: self.module.copied(alloc)?,
            name: self.name.copied(alloc)?,
            desc: self.desc,
        })
    }
}

impl Copied for types::Global {
    fn copied(&self, alloc: Global) -> Result<types::Global, AllocError> {
        Ok(types::Global {
            global_type: self.global_type,
            init: all_copied(alloc, &self.init)?,
        })
    }
}

impl Copied for Export {
    fn copied(&self, alloc: Global) -> Result<Export, AllocError> {
        Ok(Export {
            name: self.name.copied(alloc)?,
            desc: self.desc,
        })
    }
}

impl Copied for ElementSegment {
    fn copied(&self, alloc: Global) -> Result<ElementSegment, AllocError> {
        Ok(ElementSegment {
            table: self.table,
            offset: all_copied(alloc, &self.offset)?,
            functions: plain_copied(alloc, &self.functions)?,
        })
    }
}

impl Copied for Body {
    fn copied(&self, alloc: Global) -> Result<Body, AllocError> {
        Ok(Body {
            locals: plain_copied(alloc, &self.locals)?,
            code: all_copied(alloc, &self.code)?,
        })
    }
}
