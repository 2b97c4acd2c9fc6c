//! The functions that a module exports.
ghost use Rattle.std.specs.Prelude.{◌<◌, length};
ghost use Rattle.std.specs.Option.{MatchOption};
ghost use Rattle.types.specs.declared.parts.Body.{Body};
ghost use Rattle.interp.specs.Starts.{IsFunction};
ghost use Rattle.spawn_host.specs.Entries.{Exports, IsUnknown};

use types::FuncType;
use validate_module::ValidModule;

/// A function of the module itself.
#[derive(Clone, Copy)]
pub struct OwnFunction<'m> {
    /// Its index, from 0 without the imported ones.
    pub own: usize,
    /// Its type.
    pub func_type: &'m FuncType,
}

/// The type of a function of the module itself.
fn func_type(valid: &ValidModule, own: usize) -> &FuncType
    requires { own < length valid.now.parts.functions }
    ensures { (body : Body) × IsFunction valid.now.parts own result.now body }
{
    let parts = valid.parts();
    prove!(parts.functions.len() == parts.bodies.len());
    let Some(func_type) = valid.func_type(own) else {
        unreachable!()
    };
    func_type
}

/// The function of the module itself that is exported by a name. None where no export has the name, or what it names
/// isn't a function of the module itself.
pub fn own_function<'m>(valid: &'m ValidModule, name: &str) -> Option<OwnFunction<'m>>
    ensures { MatchOption result (IsUnknown valid.now.parts name.now)
        (λ f. (body : Body) × Exports valid.now.parts name.now f.own f.func_type.now body) }
{
    let own = valid.exported(name)?;
    let func_type = func_type(valid, own);
    Some(OwnFunction { own, func_type })
}
