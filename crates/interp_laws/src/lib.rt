//! What holds of every run of the thread machine on a valid module: the standard's theorem of soundness (Core
//! specification 1.0, appendix A.1), for this project's machine.
//!
//! Proved: `no_thread_is_ever_stuck`: a thread of a valid module can go on until it ends, whatever it is answered. As
//! long as it runs, a step of its own is defined, or it wants an event, or the answer to its question is due.
//!
//! `proofs/Typed.antt` types configurations by the rules of chapter 3 alone, without flat code or tables of branches;
//! `proofs/Steps.antt` shows that a typed configuration goes on, and to typed ones.
#![tactic(auto)]

ghost use Rattle.interp_laws.specs.NeverStuck.{ValidModulesAreNeverStuck};

/// No thread of a valid module is ever stuck. It calls any function of the module itself with arguments of its type,
/// and comes to a configuration by any steps that it may make, whatever it is answered. Then a step of its own is
/// defined, or it wants an event, or the answer to its question is due. So a thread that awaits an answer has asked a
/// question.
pub fn no_thread_is_ever_stuck()
    ensures { ValidModulesAreNeverStuck }
{}
