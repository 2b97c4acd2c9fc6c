//! A call that can be made.
ghost use Rattle.std.specs.Prelude.{◌≡◌, IfOk, IfErr, OnOk};
ghost use Rattle.spawn_host.specs.Entries.{Takes};
ghost use Rattle.spawn_host.specs.Faults.{IsCallFault};
ghost use Rattle.spawn_host.specs.Requests.{IsRequestOf, IsNumberOf};

use crate::call::Call;
use crate::exports::own_function;
use crate::fit::fit;
use std::marker::Model;
use thiserror::Error;
use validate_module::ValidModule;

/// Why a call can't be made.
#[derive(Clone, Copy, PartialEq, Eq, Debug, Error)]
pub enum CallFault {
    /// No function of the module itself is exported under the name.
    #[error("unknown export")]
    UnknownExport,
    /// The arguments aren't of the types of the function's parameters.
    #[error("wrong arguments")]
    WrongArguments,
}

/// A call that can be made: the module exports a function of its own under the name, and the arguments are of the types
/// of its parameters. It is looked up and tested where it is made, and nowhere else.
#[derive(Drop)]
pub struct Request<'m, 'a> {
    module: &'m ValidModule,
    call: Call<'a>,
    /// The number of the function, from 0 without the imported ones.
    own: usize,
}

impl<'m, 'a> Model for Request<'m, 'a> {
    ghost use Rattle.std.specs.Prelude.{◌≡◌};
    ghost use Rattle.spawn_host.specs.Entries.{Takes};
    ghost use Rattle.spawn_host.specs.Requests.{Requested};

    ghost Value = { Requested };

    ghost view = { λ r. record {
      parts = r.module.now.parts;
      name = r.call.name.now;
      args = r.call.args.now;
      fuel = r.call.fuel;
    } };

    ghost invariant = { λ r. (takes : Takes r.module.now.parts r.call.name.now r.call.args.now) × (takes.own ≡ r.own) };
}

impl<'m, 'a> Request<'m, 'a> {
    /// The request for this call of the module.
    ///
    /// # Errors
    /// `UnknownExport` exactly where no function of the module itself is exported under the name; `WrongArguments`
    /// exactly where one is, and the arguments don't fit it.
    pub fn new(module: &'m ValidModule, call: Call<'a>) -> Result<Request<'m, 'a>, CallFault>
        ensures request { IfOk result (IsRequestOf «module».now.parts call.entry) }
        ensures takes { OnOk result (Takes «module».now.parts call.entry.name.now call.entry.args.now) }
        ensures fault { IfErr result (IsCallFault «module».now.parts call.entry.name.now call.entry.args.now) }
    {
        let Some(function) = own_function(module, call.name) else {
            return Err(CallFault::UnknownExport);
        };
        if !fit(call.args, function.func_type.params.as_slice()) {
            return Err(CallFault::WrongArguments);
        }
        Ok(Request {
            module,
            call,
            own: function.own,
        })
    }

    /// The module.
    pub fn module(&self) -> &'m ValidModule
        ensures { result.now.parts ≡ self.now.parts }
    {
        self.module
    }

    /// The call, which can be made.
    pub fn call(&self) -> Call<'a>
        ensures call { IsRequestOf self.now.parts result self.now }
        ensures takes { Takes self.now.parts self.now.name self.now.args }
    {
        self.call
    }

    /// The number of the function that is called, from 0 without the imported ones.
    pub fn number(&self) -> usize
        ensures { IsNumberOf self.now result }
    {
        self.own
    }
}
